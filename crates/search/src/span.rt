// All words that a list of expressions gives, as a base and the directions in which the parameters move it.
ghost use Rattle.std.specs.Prelude.{◌≡◌, ℕ, ◌^◌, ◌<◌, ◌≤◌};
ghost use Rattle.search.specs.Systems.{evaluate as evaluated};
ghost use Rattle.search.specs.Spans.{word_at, Covers};

use crate::expressions::{Expressions, UNKNOWNS};
use generators::chosen_sum;
use gf2::Modulus;

// The words base + the directions that t chooses, for t below their number. The directions stand first in an array of fixed
// size, as the core has no heap and a search is copied.
#[derive(Clone, Copy)]
pub struct Span {
    base: u32,
    directions: [u32; UNKNOWNS],
    words: u32,
}

impl Span {
    // No word at all.
    pub(crate) fn empty() -> Span
        ensures { result.words ≡ 0 }
    {
        Span {
            base: 0,
            directions: [0; UNKNOWNS],
            words: 0,
        }
    }

    // What the expressions give for the parameters of polynomials below the degree.
    pub(crate) fn of(expressions: &Expressions, modulus: Modulus) -> Span
        ensures { (y : ℕ) → y < 2 ^ modulus.degree → Covers result (evaluated expressions.now.bits y) }
    {
        let base = expressions.evaluate(0);
        let mut directions = [0; UNKNOWNS];
        let mut dimension = 0u32;
        for j in 0..modulus.degree() {
            let direction = expressions.evaluate(1 << j) ^ base;
            if direction != 0 {
                directions[dimension as usize] = direction;
                dimension += 1;
            }
        }
        Span {
            base,
            directions,
            words: 1 << dimension,
        }
    }

    pub(crate) fn words(&self) -> u32
        ensures { result ≡ self.now.words }
    {
        self.words
    }

    pub(crate) fn word(&self, t: u32) -> u32
        ensures { result ≡ word_at self.now t }
    {
        self.base ^ chosen_sum(&self.directions, t).unwrap()
    }
}
