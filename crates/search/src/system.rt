// The linear system on y, the polynomial of all cells but the last, that every vector of a polynomial p satisfies. It is
// solved by substitution: each unknown bit is an expression in parameters, at first in a parameter of its own; each
// equation then has the others stand for one of the parameters that it mentions.
ghost use Rattle.std.specs.Prelude.{◌≡◌, ℕ, ◌^◌, ◌<◌, bit_xor, Some, None};
ghost use Rattle.gf2.specs.Algebra.{product as times};
ghost use Rattle.generators.specs.Chosen.{chosen};
ghost use Rattle.search.specs.Identity.{image as image_of};
ghost use Rattle.search.specs.Systems.{equation as equation_of, Solved, Unsolvable};

use crate::Equation;
use crate::expressions::{Expressions, UNKNOWNS};
use gf2::{Modulus, degree, derivative, product};

const EQUATIONS: u32 = 64;

// The columns that y chooses are to add up to the constant, coefficient by coefficient.
#[derive(Clone, Copy)]
pub struct System {
    columns: [u64; UNKNOWNS],
    constant: u64,
}

impl System {
    // The columns are the images of 1, x, x², …, below the degree.
    pub(crate) fn of(modulus: Modulus) -> System
        ensures columns { (y : ℕ) → y < 2 ^ modulus.degree → chosen 0 bit_xor result.columns y ≡ image_of modulus.polynomial y }
        ensures constant { result.constant ≡ bit_xor (times modulus.polynomial modulus.polynomial) 1 }
    {
        let p = modulus.polynomial();
        let cells = modulus.degree() as usize;
        System {
            columns: std::array::from_fn(|j| if j < cells { image(p, 1 << j) } else { 0 }),
            constant: product(p, p) ^ 1,
        }
    }

    // Expressions for the words that solve the system.
    pub(crate) fn solve(&self) -> Option<Expressions>
        ensures { elim result [ None ↦ Unsolvable 32 self.now.columns self.now.constant | Some es ↦ Solved 32 self.now.columns self.now.constant 64 es.bits ] }
    {
        let mut expressions = Expressions::parameters();
        for k in 0..EQUATIONS {
            let reduced = expressions.substituted(self.equation(k));
            match degree(reduced.word) {
                Some(parameter) => expressions.replace(parameter, reduced),
                None => {
                    if reduced.value(0) == 1 {
                        return None;
                    }
                }
            }
        }
        Some(expressions)
    }

    // Coefficient k of the columns, one bit from each, and of the constant.
    fn equation(&self, k: u32) -> Equation
        requires { k < 64 }
        ensures { result ≡ equation_of self.now.columns self.now.constant k }
    {
        Equation {
            word: self
                .columns
                .iter()
                .rev()
                .fold(0, |word, column| word << 1 | (*column >> k & 1) as u32),
            bit: (self.constant >> k & 1) as u32,
        }
    }
}

// p·y + y² + (x² + x)·(p·y)'
#[tactic(auto, using(crate::proofs::Spans::image_word))]
fn image(p: u32, y: u32) -> u64
    ensures { y < 2 ^ 31 → result ≡ image_of p y }
{
    let whole = product(p, y);
    let slope = derivative(whole);
    whole ^ product(y, y) ^ (slope << 2 ^ slope << 1)
}
