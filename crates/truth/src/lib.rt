// What truth is: systems, paths, and when a rule is kept. The definitions are in `specs/`; here stand the theorems about them.
#![tactic(auto)]

ghost use Rattle.std.specs.Prelude.{◌≡◌, true};
ghost use Rattle.truth.specs.Decided.{PathsDecided, RulesDecided};

// True. On every finite well-formed system it is decided whether every path from a state meets a goal, and the computed test says of
// every rule at every state whether it is broken there.
pub fn truth_decided() -> bool
    ensures answer { result ≡ true }
    ensures paths { PathsDecided }
    ensures rules { RulesDecided }
{
    true
}
