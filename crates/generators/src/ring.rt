// A ring as a generator: it shows its cells. Its calls are those of `rings`, which knows no generators.
ghost use Rattle.rings.specs.Cells.{ring_next};
ghost use Rattle.generators.specs.Generators.{plain};
ghost use Rattle.generators.specs.Rings.{ring_lawful};

use crate::Generator;
use rings::{Refusal, Ring};

impl Generator for Ring {
    ghost meaning = { λ r. plain r.polynomial r.vector.cells (ring_next r.vector.cells r.vector.rules) };

    ghost state = { λ r. r.state };

    ghost lawful = { λ g. ring_lawful g.vector.cells g.vector.rules g.polynomial g.own g.vector.some g.vector.few };

    ghost below = { λ r. r.below };

    fn polynomial(&self) -> u32 {
        Ring::polynomial(self)
    }

    fn state(&self) -> u32 {
        Ring::state(self)
    }

    fn shown(&self) -> u32 {
        Ring::state(self)
    }

    fn step(&mut self) {
        Ring::step(self);
    }

    fn load(&mut self, word: u32) -> Result<(), Refusal> {
        Ring::load(self, word)
    }
}
