// The line that a rule makes, and what may stand against it.
ghost use Rattle.std.specs.Prelude.{◌≡◌, Some};
ghost use Rattle.ordered.specs.Lists.{ascending};
ghost use Rattle.clauses.specs.Literals.{literal_rank};
ghost use Rattle.clauses.specs.Refusals.{number_of, FirstOr};
ghost use Rattle.clauses.specs.Rules.{in_range, shaped, most_left, rule_causes, rule_line};

use crate::kinds::Kind;
use crate::lines::{Line, Side};
use crate::literals::Literal;
use crate::refusals::Refusal;

// The highest literal that a rule may name.
const HIGHEST: u16 = 2047;

fn in_range(items: &[Literal]) -> bool
    ensures { result ≡ in_range items.now }
{
    items.iter().all(|x| x.0 <= HIGHEST)
}

// Apart from `rule_line`, where the proof with the order of literals did not close.
#[tactic(auto, using(crate::specs::Literals::literal_order))]
fn ascends(items: &[Literal]) -> bool
    ensures { result ≡ ascending literal_rank items.now }
{
    ordered::ascends(items)
}

// Start and global rules have no left, and a sometime rule has one goal.
fn shape_fits(kind: Kind, left: usize, right: usize) -> bool
    ensures { result ≡ shaped kind left right }
{
    match kind {
        Kind::Start | Kind::Global => left == 0,
        Kind::Step(_) => true,
        Kind::Sometime(_) => right == 1,
    }
}

// A sometime rule leaves two places for its goal and its wait.
fn most_left(kind: Kind) -> usize
    ensures { result ≡ most_left kind }
{
    match kind {
        Kind::Sometime(_) => 14,
        _ => 16,
    }
}

// The line of a rule, or the first cause against it. The kind is a number, since one that names no kind is refused here.
pub fn rule_line(
    indices: u8,
    number: u8,
    index: u8,
    left: &[Literal],
    right: &[Literal],
) -> Result<Line, Refusal>
    ensures { FirstOr number_of (rule_causes indices number index left.now right.now) (λ line. Some line ≡ rule_line indices number index left.now right.now) result }
{
    let kind = Kind::named(number, index, indices).ok_or(Refusal::KindOrIndex)?;
    if !in_range(left) || !in_range(right) {
        return Err(Refusal::LiteralRange);
    }
    if !ascends(left) || !ascends(right) {
        return Err(Refusal::NotAscending);
    }
    if !shape_fits(kind, left.len(), right.len()) {
        return Err(Refusal::WrongShape);
    }
    if left.len() > most_left(kind) {
        return Err(Refusal::SideTooLong);
    }
    Ok(Line {
        kind,
        left: Side::of(left).ok_or(Refusal::SideTooLong)?,
        right: Side::of(right).ok_or(Refusal::SideTooLong)?,
        mark: true,
        belongs: None,
    })
}
