// Shift registers with linear feedback.
ghost use Rattle.std.specs.Prelude.{◌≡◌, ◌^◌, ◌<◌};
ghost use Rattle.rings.specs.Questions.{Answers, polynomial_refusal};
ghost use Rattle.generators.specs.Generators.{plain};
ghost use Rattle.generators.specs.Registers.{register_next, taps as taps_of};
ghost use Rattle.generators.specs.RegisterLaws.{register_lawful};

use crate::Generator;
use gf2::Modulus;
use rings::{Refusal, state_of};

// The register of a polynomial p of degree n. Cell i feeds back where p has x^(n−i); the word of taps has those cells at 1.
#[derive(Clone, Copy)]
pub struct Register {
    modulus: Modulus,
    taps: u32,
    state: u32,
    ghost tapped: { taps ≡ taps_of modulus.polynomial modulus.degree },
    ghost below: { state < 2 ^ modulus.degree },
}

impl Register {
    // All cells start at 0.
    pub fn new(polynomial: u32) -> Result<Register, Refusal>
        ensures { Answers result (polynomial_refusal polynomial) (λ g. (g.modulus.polynomial ≡ polynomial) × (g.state ≡ 0)) }
    {
        let modulus = Modulus::new(polynomial).ok_or(Refusal::PolynomialBelowTwo)?;
        // Cell i stands in bit i − 1, and x^(n−i) in bit n − i.
        Ok(Register {
            modulus,
            taps: polynomial.reverse_bits() >> (32 - modulus.degree()),
            state: 0,
        })
    }
}

// A register shows its cells.
impl Generator for Register {
    ghost meaning = { λ r. plain r.modulus.polynomial r.modulus.degree (register_next r.modulus.polynomial r.modulus.degree) };

    ghost state = { λ r. r.state };

    ghost lawful = { λ g.
        let m = g.modulus in
        register_lawful m.polynomial m.degree m.leading m.low m.high };

    ghost below = { λ r. r.below };

    fn polynomial(&self) -> u32 {
        self.modulus.polynomial()
    }

    fn state(&self) -> u32 {
        self.state
    }

    fn shown(&self) -> u32 {
        self.state
    }

    fn step(&mut self) {
        let feedback = (self.state & self.taps).count_ones() & 1;
        let mask = (1u32 << self.modulus.degree()) - 1;
        self.state = (self.state << 1 | feedback) & mask;
    }

    fn load(&mut self, word: u32) -> Result<(), Refusal> {
        self.state = state_of(self.modulus.degree(), word)?;
        Ok(())
    }
}
