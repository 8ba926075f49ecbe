// The waits given out: one for each pair of a scope and a goal that a sometime rule brings.
ghost use Rattle.std.specs.Prelude.{◌≡◌, ◌<◌, true, false, [], is_some, IfSome, Some, MatchResult};
ghost use Rattle.std.specs.Option.{option_map};
ghost use Rattle.clauses.specs.Steps.{wait_literal};
ghost use Rattle.clauses.specs.declared.refusals.Refusal.TheVariants.{NothingLeft};
ghost use Rattle.calls.specs.Waits.{admitted, held, place_of, waitless};
ghost use Rattle.inspection.specs.Waits.{given_out};

use arrayvec::ArrayVec;
use calls::Wait;
use clauses::{Literal, Refusal};

// The wait at place n is atom 1,024 + n.
#[derive(Drop)]
pub struct Waits {
    given: ArrayVec<Wait, 256>,
}

impl Waits {
    // No wait is given out yet.
    pub(crate) fn new() -> Waits
        ensures { given_out result ≡ [] }
    {
        Waits {
            given: ArrayVec::new(),
        }
    }

    // The place of a wait that has been given out.
    fn place(&self, wanted: Wait) -> Option<usize>
        ensures value { result ≡ place_of (given_out self.now) wanted }
        ensures held { is_some result ≡ held (given_out self.now) wanted }
        ensures within { IfSome result (λ place. place < 256) }
    {
        self.given.iter().position(|given| *given == wanted)
    }

    // The literal that asserts a wait that has been given out.
    pub(crate) fn literal(&self, wanted: Wait) -> Literal
        requires { held (given_out self.now) wanted ≡ true }
        ensures { Some result ≡ option_map wait_literal (place_of (given_out self.now) wanted) }
    {
        let place = self.place(wanted).unwrap();
        // `as`, since the proof shows that nothing is lost: `try_from` would add a failure to unwrap.
        Literal(2048 + 2 * place as u16)
    }

    // A new wait is given out and an old one is shared; refused where a new one finds none left.
    pub(crate) fn admit(&mut self, wanted: Option<Wait>) -> Result<(), Refusal>
        ensures { MatchResult result (λ _. (waitless (given_out self.old) wanted ≡ false) × (given_out self.new ≡ admitted (given_out self.old) wanted)) (λ e. (e ≡ NothingLeft) × (waitless (given_out self.old) wanted ≡ true) × (self.new ≡ self.old)) }
    {
        match wanted {
            Some(wait) if self.place(wait).is_none() => {
                self.given.try_push(wait).map_err(|_| Refusal::NothingLeft)
            }
            _ => Ok(()),
        }
    }
}
