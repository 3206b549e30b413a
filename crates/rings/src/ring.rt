// The ring of a rule vector.
ghost use Rattle.std.specs.Prelude.{◌≡◌, ◌^◌, ◌<◌, Some, decimal};
ghost use Rattle.rings.specs.Questions.{Answers, vector_refusal};
ghost use Rattle.rings.specs.Vectors.{polynomial_of, recurrence};

use crate::{Refusal, RuleVector};
use std::fmt;

mod moves;

// A ring keeps its vector, the polynomial of that very vector, and a state with cell k in bit k − 1.
#[derive(Clone, Copy)]
pub struct Ring {
    vector: RuleVector,
    polynomial: u32,
    state: u32,
    ghost own: { polynomial ≡ recurrence vector.cells vector.rules },
    ghost below: { state < 2 ^ vector.cells },
}

impl Ring {
    // All cells start at 0.
    pub fn new(cells: u32, vector: u32) -> Result<Ring, Refusal>
        ensures { Answers result (vector_refusal cells vector) (λ s. (s.vector.cells ≡ cells) × (s.vector.rules ≡ vector) × (s.state ≡ 0)) }
    {
        let vector = RuleVector::new(cells, vector)?;
        let polynomial = vector.polynomial();
        Ok(Ring {
            vector,
            polynomial,
            state: 0,
        })
    }

    pub fn vector(&self) -> RuleVector
        ensures { result ≡ self.now.vector }
    {
        self.vector
    }

    pub fn polynomial(&self) -> u32
        ensures value { result ≡ self.now.polynomial }
        ensures own { result ≡ polynomial_of self.now.vector.cells self.now.vector.rules }
    {
        self.polynomial
    }

    pub fn state(&self) -> u32
        ensures { result ≡ self.now.state }
    {
        self.state
    }
}

// A ring is told by its vector.
impl fmt::Display for Ring {
    ghost output = { λ r. Some (decimal r.vector.rules) };

    fn fmt<W: fmt::Write>(&self, f: &mut fmt::Formatter<W>) -> fmt::Result {
        let vector = self.vector.rules();
        write!(f, "{vector}")
    }
}
