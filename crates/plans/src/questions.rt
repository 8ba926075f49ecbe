// The six questions.
ghost use Rattle.std.specs.Prelude.{◌≡◌, ◌<◌, false};
ghost use Rattle.truth.specs.Systems.{System, WellFormed};
ghost use Rattle.plans.specs.Questions.{free_count, free_target, holds_of, target_of};

// Anything that answers six questions about one system; out of range the answers are no and 0.
pub trait Plan {
    ghost system: { Self → System };

    // How many states there are. Every move from one leads to one.
    fn states(&self) -> u16
        ensures value { result ≡ (system self.now).states }
        ensures formed { WellFormed (system self.now) };

    // How many indices there are.
    fn indices(&self) -> u8
        ensures { result ≡ (system self.now).indices };

    // Whether an atom holds at a state; none above 1,023 does.
    fn holds(&self, state: u16, atom: u16) -> bool
        ensures value { result ≡ holds_of (system self.now) state atom }
        ensures beyond { 1023 < atom → result ≡ false };

    // Where an index leads from a state.
    fn target(&self, state: u16, index: u8) -> u16
        ensures { result ≡ target_of (system self.now) state index };

    // How many free moves a state has.
    fn free_count(&self, state: u16) -> u16
        ensures { result ≡ free_count (system self.now) state };

    // Where the free move of a number leads from a state.
    fn free_target(&self, state: u16, number: u16) -> u16
        ensures { result ≡ free_target (system self.now) state number };
}
