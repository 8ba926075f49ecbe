// The line that each step makes from others.
ghost use Rattle.std.specs.Prelude.{◌≡◌, true, ◌&&◌, [], ◌∷◌, length, if◌then◌else◌, Some, None, nat_le};
ghost use Rattle.clauses.specs.Lines.{literals, side_for};
ghost use Rattle.clauses.specs.Literals.{opposite};
ghost use Rattle.clauses.specs.Sides.{ascends, join, opposites, without};
ghost use Rattle.clauses.specs.Steps.{clashes, entered_line, entered_right, proper, resolved_fits, resolved_line, rewritable, rewritten_line, stayed_line};

use crate::kinds::{Kind, Scope};
use crate::lines::{Line, Side};
use crate::literals::Literal;
use crate::sides::{contains, joined, opposites, without};

// What is left of two sides on which a literal and its opposite clash, where it has place.
#[tactic(auto, using(crate::proofs::Joining::literals_of, crate::proofs::Joining::without_ascends))]
fn clash_joined(one: &Side, two: &Side, literal: Literal) -> Option<Side>
    ensures { ascends (literals one.now) ≡ true → ascends (literals two.now) ≡ true → result ≡ side_for (join (without literal (literals one.now)) (without (opposite literal) (literals two.now))) }
{
    let mine = without(one.literals(), literal);
    let theirs = without(two.literals(), literal.opposite());
    joined(mine.literals(), theirs.literals())
}

// The opposites of a left, a goal and its wait, where they have place.
#[tactic(auto, using(crate::proofs::Joining::made_sides))]
fn entered_right(left: &Side, goal: Literal, wait: Literal) -> Option<Side>
    ensures { result ≡ side_for (join (opposites (literals left.now)) (join (goal ∷ []) (wait ∷ []))) }
{
    let either = joined(&[goal], &[wait])?;
    let contrary = opposites(left.literals());
    joined(contrary.literals(), either.literals())
}

// That sides ascend is asked here, and is no invariant of `Side`, since a side is made of any literals in any order.
impl Line {
    // Whether the literal is on the right of this line, and its opposite on the right of the other.
    pub fn clashes(&self, other: &Line, literal: Literal) -> bool
        ensures { proper self.now ≡ true → proper other.now ≡ true → result ≡ clashes self.now other.now literal }
    {
        contains(self.right.literals(), literal)
            && contains(other.right.literals(), literal.opposite())
    }

    // The line of this kind resolved from two lines on a literal, where its sides have place.
    pub fn resolved(&self, other: &Line, literal: Literal, kind: Kind) -> Option<Line>
        ensures { proper self.now ≡ true → proper other.now ≡ true → result ≡ (if resolved_fits self.now other.now literal then Some (resolved_line kind self.now other.now literal) else None) }
    {
        let left = joined(self.left.literals(), other.left.literals())?;
        let right = clash_joined(&self.right, &other.right, literal)?;
        let belongs = self.belongs.or(other.belongs);
        Some(Line {
            kind,
            left,
            right,
            belongs,
            ..Line::BLANK
        })
    }

    // Whether this is a step with an empty right.
    pub fn rewritable(&self) -> bool
        ensures { result ≡ rewritable self.now }
    {
        matches!(self.kind, Kind::Step(_)) && self.right.literals().is_empty()
    }

    // The global line of the opposites of the left.
    pub fn rewritten(&self) -> Line
        ensures { result ≡ rewritten_line self.now }
    {
        let right = opposites(self.left.literals());
        Line {
            kind: Kind::Global,
            right,
            ..Line::BLANK
        }
    }

    // From a sometime line: the goal holds, or the wait does, wherever the left does.
    pub fn entered(&self, goal: Literal, wait: Literal) -> Option<Line>
        ensures { result ≡ (if nat_le (length (entered_right self.now goal wait)) 16 then Some (entered_line self.now goal wait) else None) }
    {
        let right = entered_right(&self.left, goal, wait)?;
        Some(Line {
            kind: Kind::Global,
            right,
            ..Line::BLANK
        })
    }
}

// A wait goes on until its goal holds.
pub fn stayed(scope: Scope, goal: Literal, wait: Literal) -> Line
    ensures { result ≡ stayed_line scope goal wait }
{
    let left = Side::of(&[wait]).unwrap();
    let right = joined(&[goal], &[wait]).unwrap();
    Line {
        kind: Kind::Step(scope),
        left,
        right,
        ..Line::BLANK
    }
}
