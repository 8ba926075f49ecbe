// The six kinds of lines, and which of a system's moves a line speaks of.
ghost use Rattle.std.specs.Prelude.{◌≡◌};
ghost use Rattle.clauses.specs.Kinds.{joint_kind, joint_scope, kind_of};

// Every move, or the move of one index.
// Not an Option, since every move is a scope of its own, with a name in each match.
#[derive(Debug, Clone, Copy, Default, PartialEq, Eq)]
pub enum Scope {
    #[default]
    All,
    Index(u8),
}

#[derive(Debug, Clone, Copy, PartialEq, Eq)]
pub enum Kind {
    Start,
    Global,
    Step(Scope),
    Sometime(Scope),
}

impl Scope {
    // What two steps speak of together.
    fn joint(self, other: Scope) -> Option<Scope>
        ensures { result ≡ joint_scope self other }
    {
        match (self, other) {
            (Scope::All, scope) | (scope, Scope::All) => Some(scope),
            _ => (self == other).then_some(self),
        }
    }
}

impl Kind {
    // The kind of a line resolved from lines of these kinds, where they fit.
    pub fn joint(self, other: Kind) -> Option<Kind>
        ensures { result ≡ joint_kind self other }
    {
        use Kind::{Global, Start, Step};
        match (self, other) {
            (Start, Start | Global) | (Global, Start) => Some(Start),
            (Global, Global) => Some(Global),
            (Global, Step(scope)) | (Step(scope), Global) => Some(Step(scope)),
            (Step(one), Step(two)) => Some(Step(one.joint(two)?)),
            _ => None,
        }
    }

    // The kind that a number and an index name where there are `indices` indices.
    // A call names a kind by numbers, and so do the bytes of a file.
    pub fn named(number: u8, index: u8, indices: u8) -> Option<Kind>
        ensures { result ≡ kind_of number index indices }
    {
        if index >= indices {
            return None;
        }
        match (number, index) {
            (1, 0) => Some(Kind::Start),
            (2, 0) => Some(Kind::Global),
            (3, 0) => Some(Kind::Step(Scope::All)),
            (4, _) => Some(Kind::Step(Scope::Index(index))),
            (5, 0) => Some(Kind::Sometime(Scope::All)),
            (6, _) => Some(Kind::Sometime(Scope::Index(index))),
            _ => None,
        }
    }
}
