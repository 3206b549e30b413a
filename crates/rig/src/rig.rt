// A rig stands over one generator, which only the rig's calls change, and tells which pattern the generator shows at
// which clock after the last accepted seed.
ghost use Rattle.std.specs.Prelude.{◌^◌, ◌≤◌};

use generators::{Generator, jump};
use rings::Refusal;

const LIMIT: u64 = 1 << 62;

#[derive(Drop)]
pub struct Rig<G> {
    generator: G,
    // The last accepted seed; none before the first. The clock is 0 until then: in one option with the seed it would be taken out
    // and put back by each move.
    seed: Option<u32>,
    clock: u64,
    ghost within: { clock ≤ 2 ^ 62 },
}

impl<G: Generator> Rig<G> {
    ghost use Rattle.std.specs.Prelude.{◌≡◌, ℕ, ◌+◌, Some, None, Ok};
    ghost use Rattle.rings.specs.Questions.{Answers, Changes};
    ghost use Rattle.rig.specs.Rigs.{Stands, seed_refusal, seeded, move_refusal, loaded, moved, shown_at};
    ghost use Rattle.rig.specs.Held.{view};

    // Unseeded, over the generator as it is.
    pub fn new(generator: G) -> Rig<G>
        ensures { (result.generator ≡ generator) × (result.seed ≡ None) × (result.clock ≡ 0) }
    {
        Rig {
            generator,
            seed: None,
            clock: 0,
        }
    }

    // Loads a word and sets the clock to 0.
    pub fn seed(&mut self, word: u32) -> Result<(), Refusal>
        ensures after { Changes result (seed_refusal (view G.meaning G.state self.old).meaning.cells word) (view G.meaning G.state self.old) (loaded (view G.meaning G.state self.old) word) (view G.meaning G.state self.new) }
        ensures stands { Stands (view G.meaning G.state self.old) → Stands (view G.meaning G.state self.new) }
    {
        if word == 0 {
            return Err(Refusal::SeedZero);
        }
        self.generator.load(word)?;
        self.seed = Some(word);
        self.clock = 0;
        Ok(())
    }

    // One clock on.
    #[tactic(auto, using(crate::proofs::Moves::iterate_one))]
    pub fn step(&mut self) -> Result<(), Refusal>
        ensures after { Changes result (move_refusal (view G.meaning G.state self.old).seed (view G.meaning G.state self.old).clock 1) (view G.meaning G.state self.old) (moved (view G.meaning G.state self.old) 1) (view G.meaning G.state self.new) }
        ensures stands { Stands (view G.meaning G.state self.old) → Stands (view G.meaning G.state self.new) }
    {
        let clock = self.clock_after(1)?;
        self.generator.step();
        self.clock = clock;
        Ok(())
    }

    // As many clocks on as single steps would be, and no slower for being many.
    pub fn jump(&mut self, length: u64) -> Result<(), Refusal>
        ensures after { Changes result (move_refusal (view G.meaning G.state self.old).seed (view G.meaning G.state self.old).clock length) (view G.meaning G.state self.old) (moved (view G.meaning G.state self.old) length) (view G.meaning G.state self.new) }
        ensures stands { Stands (view G.meaning G.state self.old) → Stands (view G.meaning G.state self.new) }
    {
        let clock = self.clock_after(length)?;
        jump(&mut self.generator, length);
        self.clock = clock;
        Ok(())
    }

    // The pattern that the generator shows at this clock, which is that after so many single steps from the seed.
    pub fn show(&self) -> Result<u32, Refusal>
        ensures state { Answers result (seeded (view G.meaning G.state self.now).seed) (λ p. p ≡ (view G.meaning G.state self.now).meaning.shown (view G.meaning G.state self.now).state) }
        ensures steps { Stands (view G.meaning G.state self.now) → (w : ℕ) → (view G.meaning G.state self.now).seed ≡ Some w → result ≡ Ok (shown_at (view G.meaning G.state self.now).meaning w (view G.meaning G.state self.now).clock) }
    {
        self.seeded()?;
        Ok(self.generator.shown())
    }

    pub fn clock(&self) -> Result<u64, Refusal>
        ensures { Answers result (seeded (view G.meaning G.state self.now).seed) (λ c. c ≡ (view G.meaning G.state self.now).clock) }
    {
        self.seeded()?;
        Ok(self.clock)
    }

    // The last accepted seed, if there is one.
    fn seeded(&self) -> Result<u32, Refusal>
        ensures { Answers result (seeded (view G.meaning G.state self.now).seed) (λ w. (view G.meaning G.state self.now).seed ≡ Some w) }
    {
        self.seed.ok_or(Refusal::NotSeeded)
    }

    // The clock that many steps on, if the rig is seeded and the limit not passed.
    fn clock_after(&self, length: u64) -> Result<u64, Refusal>
        ensures { Answers result (move_refusal (view G.meaning G.state self.now).seed (view G.meaning G.state self.now).clock length) (λ c. c ≡ (view G.meaning G.state self.now).clock + length) }
    {
        self.seeded()?;
        if length > LIMIT - self.clock {
            return Err(Refusal::ClockPastLimit);
        }
        Ok(self.clock + length)
    }
}
