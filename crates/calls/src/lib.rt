// The calls of an inspection: what stands against each, what it answers and what it leaves. Mostly definitions, and the law over them.
#![tactic(auto)]

ghost use Rattle.std.specs.Prelude.{◌≡◌, true};
ghost use Rattle.calls.specs.Law.{Law};

pub mod waits;

pub use waits::Wait;

// True, and the law holds of every inspection and every list of calls.
pub fn law_holds() -> bool
    ensures answer { result ≡ true }
    ensures law { Law }
{
    true
}
