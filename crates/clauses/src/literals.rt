// A literal: the number 2a asserts atom a, and 2a + 1 denies it.
ghost use Rattle.std.specs.Prelude.{◌≡◌};
ghost use Rattle.clauses.specs.Literals.{asserts, atom, opposite};

#[derive(Debug, Clone, Copy, Default, PartialEq, Eq, PartialOrd, Ord)]
pub struct Literal(pub u16);

impl Literal {
    // Whether it asserts its atom, and does not deny it.
    pub fn asserts(self) -> bool
        ensures { result ≡ asserts self }
    {
        self.0 % 2 == 0
    }

    // The number of its atom.
    pub fn atom(self) -> u16
        ensures { result ≡ atom self }
    {
        self.0 / 2
    }

    // The literal that says the contrary.
    pub fn opposite(self) -> Literal
        ensures { result ≡ opposite self }
    {
        if self.asserts() {
            Literal(self.0 + 1)
        } else {
            Literal(self.0 - 1)
        }
    }
}
