// How a ring comes to another state. Its vector and its polynomial stay.
ghost use Rattle.std.specs.Prelude.{◌≡◌, ◌^◌, ◌≤◌};
ghost use Rattle.rings.specs.Cells.{ring_next};
ghost use Rattle.rings.specs.Questions.{Answers, word_refusal};

use crate::{Refusal, Ring, state_of};

impl Ring {
    // One clock: each cell takes the sum of its neighbours, and of itself under rule 150.
    pub fn step(&mut self)
        ensures vector { self.new.vector ≡ self.old.vector }
        ensures polynomial { self.new.polynomial ≡ self.old.polynomial }
        ensures after { self.new.state ≡ ring_next self.old.vector.cells self.old.vector.rules self.old.state }
    {
        let s = self.state;
        let own = s & self.vector.rules();
        let mask = (1u32 << self.vector.cells()) - 1;
        self.state = (s << 1 ^ own ^ s >> 1) & mask;
    }

    // Takes the word for the state.
    pub fn load(&mut self, word: u32) -> Result<(), Refusal>
        ensures vector { self.new.vector ≡ self.old.vector }
        ensures polynomial { self.new.polynomial ≡ self.old.polynomial }
        ensures after { Answers result (word_refusal self.old.vector.cells word) (λ _. self.new.state ≡ word) }
        ensures kept { 2 ^ self.old.vector.cells ≤ word → self.new.state ≡ self.old.state }
    {
        self.state = state_of(self.vector.cells(), word)?;
        Ok(())
    }
}
