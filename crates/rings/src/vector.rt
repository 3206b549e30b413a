// Rule vectors and their polynomials.
ghost use Rattle.std.specs.Prelude.{◌≡◌, ◌^◌, ◌<◌, ◌≤◌};
ghost use Rattle.gf2.specs.Algebra.{Degree};
ghost use Rattle.rings.specs.Questions.{Answers, vector_refusal};
ghost use Rattle.rings.specs.Vectors.{polynomial_of, recurrence};

use crate::Refusal;

const MAX_CELLS: u32 = 31;

// Which rule each cell follows: bit k − 1 is 0 where cell k follows rule 90, and 1 where it follows rule 150.
#[derive(Clone, Copy)]
pub struct RuleVector {
    cells: u32,
    rules: u32,
    ghost some: { 1 ≤ cells },
    ghost few: { cells ≤ 31 },
    ghost below: { rules < 2 ^ cells },
}

impl RuleVector {
    pub fn new(cells: u32, vector: u32) -> Result<RuleVector, Refusal>
        ensures { Answers result (vector_refusal cells vector) (λ v. (v.cells ≡ cells) × (v.rules ≡ vector)) }
    {
        if cells == 0 || cells > MAX_CELLS {
            return Err(Refusal::CellCount);
        }
        if vector >> cells != 0 {
            return Err(Refusal::VectorTooLarge);
        }
        Ok(RuleVector {
            cells,
            rules: vector,
        })
    }

    pub fn cells(&self) -> u32
        ensures { result ≡ self.now.cells }
    {
        self.cells
    }

    pub fn rules(&self) -> u32
        ensures { result ≡ self.now.rules }
    {
        self.rules
    }

    // det(xI + A), by the recurrence p_k = (x + c_k)·p_(k−1) + p_(k−2).
    pub fn polynomial(&self) -> u32
        ensures value { result ≡ polynomial_of self.now.cells self.now.rules }
        ensures recurrence { result ≡ recurrence self.now.cells self.now.rules }
        ensures degree { Degree result self.now.cells }
    {
        let mut before = 0u32;
        let mut current = 1u32;
        for k in 0..self.cells {
            let own = if self.rules >> k & 1 == 1 { current } else { 0 };
            let next = current << 1 ^ own ^ before;
            before = current;
            current = next;
        }
        current
    }
}

// The polynomial of a vector that is given as plain numbers, so that every number has an outcome; behind this the pair is a
// `RuleVector`.
pub fn polynomial_of(cells: u32, vector: u32) -> Result<u32, Refusal>
    ensures { Answers result (vector_refusal cells vector) (λ p. p ≡ polynomial_of cells vector) }
{
    let rules = RuleVector::new(cells, vector)?;
    Ok(rules.polynomial())
}
