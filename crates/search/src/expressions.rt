// Expressions in parameters for the unknown bits of a word.
ghost use Rattle.std.specs.Prelude.{◌≡◌, ℕ, ◌^◌, ◌<◌, map};
ghost use Rattle.search.specs.Systems.{evaluate as evaluated, substituted as substituted_in, replaced};

use crate::Equation;
use generators::{Summand, chosen_sum};

pub const UNKNOWNS: usize = 32;

// One for each unknown.
#[derive(Clone, Copy)]
pub struct Expressions {
    bits: [Equation; UNKNOWNS],
}

impl Expressions {
    // Bit j is parameter j.
    pub(crate) fn parameters() -> Expressions
        ensures { (y : ℕ) → y < 2 ^ 32 → evaluated result.bits y ≡ y }
    {
        Expressions {
            bits: std::array::from_fn(|j| Equation {
                word: 1 << j,
                bit: 0,
            }),
        }
    }

    // The equation with the expressions for its unknowns.
    pub(crate) fn substituted(&self, e: Equation) -> Equation
        ensures { result ≡ substituted_in self.now.bits e }
    {
        let sum = chosen_sum(&self.bits, e.word).unwrap();
        sum.plus(Equation {
            word: 0,
            bit: e.bit,
        })
    }

    // Adds e to every expression that mentions the parameter, so that none does any more where e mentions it too.
    pub(crate) fn replace(&mut self, parameter: u32, e: Equation)
        requires { parameter < 32 }
        ensures { self.new.bits ≡ map (replaced parameter e) self.old.bits }
    {
        for x in self.bits.iter_mut() {
            if x.word >> parameter & 1 == 1 {
                *x = x.plus(e);
            }
        }
    }

    // The word whose bit j is the value of expression j. An equation of a system is put together likewise: one function for both,
    // with a closure for the bit, left its proof open; what each folds is one expression, and `folded` proves both.
    pub(crate) fn evaluate(&self, m: u32) -> u32
        ensures { result ≡ evaluated self.now.bits m }
    {
        self.bits
            .iter()
            .rev()
            .fold(0, |word, e| word << 1 | e.value(m))
    }
}
