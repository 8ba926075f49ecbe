// Worked examples, held to the definitions that the calls promise.
ghost use Rattle.std.specs.Prelude.{◌≡◌, true};
ghost use Rattle.inspection.specs.Examples.{AllHold, examples};

// True, and every example of the table holds.
pub fn examples_hold() -> bool
    ensures { (result ≡ true) × AllHold examples }
{
    true
}
