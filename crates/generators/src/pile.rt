// A pile of layers whose height is known only when the program runs.
ghost use Rattle.std.specs.Prelude.{◌≡◌};
ghost use Rattle.generators.specs.Piles.{piled, tapped_word};
ghost use Rattle.generators.specs.Heights.{piled_lawful};

use crate::{Generator, leap};
use rings::Refusal;

// So many doublers and taps over a generator, in whatever order: a doubler changes only the step, a tap only what is shown.
// The calls that it hands on are a line each: a trait of layers with its laws would be longer.
#[derive(Drop)]
pub struct Pile<G> {
    below: G,
    doublers: u32,
    taps: u32,
}

impl<G: Generator> Pile<G> {
    pub fn over(below: G, doublers: u32, taps: u32) -> Pile<G>
        ensures { (result.below ≡ below) × (result.doublers ≡ doublers) × (result.taps ≡ taps) }
    {
        Pile {
            below,
            doublers,
            taps,
        }
    }
}

impl<G: Generator> Generator for Pile<G> {
    ghost meaning = { λ p. piled p.doublers p.taps (G.Generator.meaning p.below) };

    ghost state = { λ p. G.Generator.state p.below };

    ghost lawful = { λ p. piled_lawful p.doublers p.taps (G.Generator.meaning p.below) (G.Generator.lawful p.below) };

    ghost below = { λ p. G.Generator.below p.below };

    fn polynomial(&self) -> u32 {
        self.below.polynomial()
    }

    fn state(&self) -> u32 {
        self.below.state()
    }

    fn shown(&self) -> u32 {
        tapped_often(self.below.shown(), self.taps)
    }

    // One step of d doublers is 2^d steps below.
    fn step(&mut self) {
        leap(&mut self.below, self.doublers);
    }

    fn load(&mut self, word: u32) -> Result<(), Refusal> {
        self.below.load(word)
    }
}

fn tapped_often(word: u32, taps: u32) -> u32
    ensures { result ≡ tapped_word taps word }
{
    let mut shown = word;
    for done in 0..taps {
        shown ^= shown >> 1;
    }
    shown
}
