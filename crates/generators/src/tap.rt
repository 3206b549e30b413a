// A layer that shows other words.
ghost use Rattle.std.specs.Prelude.{◌≡◌};
ghost use Rattle.generators.specs.Generators.{tapped};
ghost use Rattle.generators.specs.Layers.{tapped_lawful};

use crate::Generator;
use rings::Refusal;

// Shows each cell of the word that is shown below, plus the cell after it.
// The calls that it hands on are a line each: a trait of layers with its laws would be longer.
#[derive(Drop)]
pub struct Tap<G> {
    below: G,
}

impl<G: Generator> Tap<G> {
    pub fn over(below: G) -> Tap<G>
        ensures { result.below ≡ below }
    {
        Tap { below }
    }
}

impl<G: Generator> Generator for Tap<G> {
    ghost meaning = { λ t. tapped (G.Generator.meaning t.below) };

    ghost state = { λ t. G.Generator.state t.below };

    ghost lawful = { λ t. tapped_lawful (G.Generator.meaning t.below) (G.Generator.lawful t.below) };

    ghost below = { λ t. G.Generator.below t.below };

    fn polynomial(&self) -> u32 {
        self.below.polynomial()
    }

    fn state(&self) -> u32 {
        self.below.state()
    }

    fn shown(&self) -> u32 {
        let word = self.below.shown();
        word ^ word >> 1
    }

    fn step(&mut self) {
        self.below.step();
    }

    fn load(&mut self, word: u32) -> Result<(), Refusal> {
        self.below.load(word)
    }
}
