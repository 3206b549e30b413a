// A layer that takes two steps at a time.
ghost use Rattle.std.specs.Prelude.{◌≡◌};
ghost use Rattle.generators.specs.Generators.{doubled};
ghost use Rattle.generators.specs.Layers.{doubled_lawful};

use crate::Generator;
use rings::Refusal;

// The polynomial p stays: through the rule taken twice, p acts as p·p does through the rule, and so annihilates it.
// What a layer leaves as it is, it hands to the generator below in a line each; a trait of layers with its laws would be longer.
#[derive(Drop)]
pub struct Doubler<G> {
    below: G,
}

impl<G: Generator> Doubler<G> {
    pub fn over(below: G) -> Doubler<G>
        ensures { result.below ≡ below }
    {
        Doubler { below }
    }
}

impl<G: Generator> Generator for Doubler<G> {
    ghost meaning = { λ d. doubled (G.Generator.meaning d.below) };

    ghost state = { λ d. G.Generator.state d.below };

    ghost lawful = { λ d. doubled_lawful (G.Generator.meaning d.below) (G.Generator.lawful d.below) };

    ghost below = { λ d. G.Generator.below d.below };

    fn polynomial(&self) -> u32 {
        self.below.polynomial()
    }

    fn state(&self) -> u32 {
        self.below.state()
    }

    fn shown(&self) -> u32 {
        self.below.shown()
    }

    fn step(&mut self) {
        self.below.step();
        self.below.step();
    }

    fn load(&mut self, word: u32) -> Result<(), Refusal> {
        self.below.load(word)
    }
}
