// The calls that make lines from lines.
ghost use Rattle.std.specs.Prelude.{◌≡◌, true, [], Some, None, MatchResult};
ghost use Rattle.std.specs.Option.{option_map};
ghost use Rattle.clauses.specs.Refusals.{FirstOr, first_of, number_of};
ghost use Rattle.clauses.specs.Steps.{proper, rewritten_line};
ghost use Rattle.inspection.specs.Accepted.{ByCalculus, Entering, Resolving, Rewriting, Staying};
ghost use Rattle.calls.specs.Calls.{Call, entered_of, line_at, resolve_causes, resolved_of, rewrite_causes, stayed_of, wait_causes};
ghost use Rattle.inspection.specs.Told.{Does, Makes, WaiterAt, told_line};
ghost use Rattle.inspection.specs.Held.{model_of};

use crate::state::Inspection;
use calls::Wait;
use clauses::steps::stayed;
use clauses::{Line, Literal, Refusal};

// The line resolved from two lines on a literal, or the first cause against it. No loop is open yet.
fn resolvent(one: &Line, two: &Line, literal: Literal) -> Result<Line, Refusal>
    ensures { proper one.now ≡ true → proper two.now ≡ true → FirstOr number_of (resolve_causes [] (Some one.now) (Some two.now) literal) (λ line. Some line ≡ resolved_of (Some one.now) (Some two.now) literal) result }
{
    let kind = one.kind.joint(two.kind).ok_or(Refusal::Misfit)?;
    if !one.clashes(two, literal) {
        return Err(Refusal::LiteralMissing);
    }
    if one.belongs.is_some() || two.belongs.is_some() {
        return Err(Refusal::LoopEnded);
    }
    one.resolved(two, literal, kind)
        .ok_or(Refusal::NewSideTooLong)
}

// The line rewritten, or the first cause against it.
fn rewritten(line: &Line) -> Result<Line, Refusal>
    ensures { FirstOr number_of (rewrite_causes (Some line.now)) (λ made. made ≡ rewritten_line line.now) result }
{
    if !line.rewritable() {
        return Err(Refusal::Misfit);
    }
    if line.belongs.is_some() {
        return Err(Refusal::LoopEnded);
    }
    Ok(line.rewritten())
}

// A line that waits, what it waits for, and the literal that asserts its wait.
#[derive(Clone, Copy)]
struct Waiter<'l> {
    line: &'l Line,
    wait: Wait,
    literal: Literal,
}

impl<'a> Inspection<'a> {
    fn resolving(&self, a: usize, b: usize, literal: Literal) -> Result<Line, Refusal>
        ensures { let m = model_of self.now in
            let one = line_at m.lines a in
            let two = line_at m.lines b in
            Makes result m (resolve_causes [] one two literal) (resolved_of one two literal) }
    {
        resolvent(self.line_at(a)?, self.line_at(b)?, literal)
    }

    fn rewriting(&self, number: usize) -> Result<Line, Refusal>
        ensures { let m = model_of self.now in
            let line = line_at m.lines number in
            Makes result m (rewrite_causes line) (option_map rewritten_line line) }
    {
        rewritten(self.line_at(number)?)
    }

    // The line of a number, if it waits.
    fn waiter(&self, number: usize) -> Result<Waiter<'_>, Refusal>
        ensures { let m = model_of self.now in
            MatchResult result (WaiterAt m number) (λ e. first_of (wait_causes (line_at m.lines number)) ≡ Some (number_of e)) }
    {
        let line = self.line_at(number)?;
        let wait = Wait::of(line).ok_or(Refusal::Misfit)?;
        let literal = self.waits.literal(wait);
        Ok(Waiter {
            line,
            wait,
            literal,
        })
    }

    fn entering(&self, number: usize) -> Result<Line, Refusal>
        ensures { let m = model_of self.now in
            let line = line_at m.lines number in
            Makes result m (wait_causes line) (entered_of m.waits line) }
    {
        let Waiter {
            line,
            wait,
            literal,
        } = self.waiter(number)?;
        Ok(line.entered(wait.goal, literal).unwrap())
    }

    fn staying(&self, number: usize) -> Result<Line, Refusal>
        ensures { let m = model_of self.now in
            let line = line_at m.lines number in
            Makes result m (wait_causes line) (stayed_of m.waits line) }
    {
        let Waiter { wait, literal, .. } = self.waiter(number)?;
        Ok(stayed(wait.scope, wait.goal, literal))
    }

    // Resolves lines a and b on a literal on the right of a, whose opposite is on the right of b.
    pub fn resolve(&mut self, a: usize, b: usize, literal: Literal) -> Result<usize, Refusal>
        ensures does { Does (told_line result) (Call.resolve a b literal) self.old self.new }
        ensures calculus { ByCalculus result (model_of self.old) (model_of self.new) (Resolving (model_of self.old) a b literal) }
    {
        let line = self.resolving(a, b, literal)?;
        self.store(line)
    }

    // Turns a step with an empty right into the global line of the opposites of its left.
    pub fn rewrite(&mut self, number: usize) -> Result<usize, Refusal>
        ensures does { Does (told_line result) (Call.rewrite number) self.old self.new }
        ensures calculus { ByCalculus result (model_of self.old) (model_of self.new) (Rewriting (model_of self.old) number) }
    {
        let line = self.rewriting(number)?;
        self.store(line)
    }

    // From a sometime line, the global line by which its wait begins.
    pub fn enter(&mut self, number: usize) -> Result<usize, Refusal>
        ensures does { Does (told_line result) (Call.enter number) self.old self.new }
        ensures calculus { ByCalculus result (model_of self.old) (model_of self.new) (Entering (model_of self.old) number) }
    {
        let line = self.entering(number)?;
        self.store(line)
    }

    // From a sometime line, the step line by which its wait goes on.
    pub fn stay(&mut self, number: usize) -> Result<usize, Refusal>
        ensures does { Does (told_line result) (Call.stay number) self.old self.new }
        ensures calculus { ByCalculus result (model_of self.old) (model_of self.new) (Staying (model_of self.old) number) }
    {
        let line = self.staying(number)?;
        self.store(line)
    }
}
