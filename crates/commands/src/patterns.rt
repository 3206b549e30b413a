// The pattern that a generator must show at a moment.
ghost use Rattle.std.specs.Prelude.{◌≡◌};
ghost use Rattle.rings.specs.Questions.{Answers};
ghost use Rattle.rig.specs.Rigs.{shown_at};
ghost use Rattle.commands.specs.Patterns.{start_refusal, ring_refusal, ring_meaning, register_refusal, register_meaning};

use crate::{Layers, Moment};
use generators::{Generator, Pile, Register};
use rig::Rig;
use rings::{Refusal, Ring};

impl Moment {
    pub(crate) fn ring_pattern(&self, cells: u32, vector: u32) -> Result<u32, Refusal>
        ensures { Answers result (ring_refusal cells vector self.now.seed self.now.clock) (λ p. p ≡ shown_at (ring_meaning cells vector self.now.layers) self.now.seed self.now.clock) }
    {
        let ring = Ring::new(cells, vector)?;
        self.pattern_of(self.layers.over(ring))
    }

    pub(crate) fn register_pattern(&self, polynomial: u32) -> Result<u32, Refusal>
        ensures { Answers result (register_refusal polynomial self.now.seed self.now.clock) (λ p. p ≡ shown_at (register_meaning polynomial self.now.layers) self.now.seed self.now.clock) }
    {
        let register = Register::new(polynomial)?;
        self.pattern_of(self.layers.over(register))
    }

    // What a generator shows so many clocks after the seed.
    fn pattern_of<G: Generator + Drop>(&self, generator: G) -> Result<u32, Refusal>
        ensures { Answers result (start_refusal (G.meaning generator).cells self.now.seed self.now.clock) (λ p. p ≡ shown_at (G.meaning generator) self.now.seed self.now.clock) }
    {
        let mut rig = Rig::new(generator);
        rig.seed(self.seed)?;
        rig.jump(self.clock)?;
        rig.show()
    }
}

impl Layers {
    // The generator under these layers.
    fn over<G: Generator>(self, generator: G) -> Pile<G>
        ensures { (result.below ≡ generator) × (result.doublers ≡ self.doublers) × (result.taps ≡ self.taps) }
    {
        Pile::over(generator, self.doublers, self.taps)
    }
}
