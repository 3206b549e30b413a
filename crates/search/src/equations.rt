// Linear equations over GF(2) on the bits of a word.
ghost use Rattle.std.specs.Prelude.{◌≡◌};
ghost use Rattle.std.proofs.Math.Path.{ap₂};
ghost use Rattle.search.specs.Systems.{value as comes_to, plus as sum_of};
ghost use Rattle.std.proofs.lemmas.Nat.{xor_comm};
ghost use Rattle.std.specs.Int.Bits.{xor_assoc, xor_self, xor_zero_l};
ghost use Rattle.search.specs.EquationLaws.{made_of};

use generators::Summand;

// A word, which bits are added, and the bit that they add up to. As an expression: the sum of these bits and that bit.
// The bit is a number, and no bool: callers could give any, and a bool would ask more of them.
#[derive(Clone, Copy)]
pub struct Equation {
    pub word: u32,
    pub bit: u32,
}

impl Equation {
    // 1 where the equation does not hold at m: the value of the expression.
    pub fn value(&self, m: u32) -> u32
        ensures { result ≡ comes_to self.now m }
    {
        ((self.word & m).count_ones() ^ self.bit) & 1
    }
}

// Equations add up side by side.
impl Summand for Equation {
    ghost zero = { record { word = 0; bit = 0 } };

    ghost plus = { sum_of };

    ghost unit = { λ x. ap₂ made_of (xor_zero_l x.word) (xor_zero_l x.bit) };

    ghost commutes = { λ x y. ap₂ made_of (xor_comm x.word y.word) (xor_comm x.bit y.bit) };

    ghost associates = { λ x y z. ap₂ made_of (xor_assoc x.word y.word z.word) (xor_assoc x.bit y.bit z.bit) };

    ghost cancels = { λ x. ap₂ made_of (xor_self x.word) (xor_self x.bit) };

    fn zero() -> Equation {
        Equation { word: 0, bit: 0 }
    }

    fn plus(self, other: Equation) -> Equation {
        Equation {
            word: self.word ^ other.word,
            bit: self.bit ^ other.bit,
        }
    }
}
