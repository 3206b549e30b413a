// The calls that bench/ times, for C. What is refused answers 0, which is no polynomial's answer to a measurement: C has no
// `Result`. Each clause says the 0 again, as whoever reads what C calls reads it there.
#![tactic(auto)]

ghost use Rattle.std.specs.Prelude.{◌≡◌, ℕ, ◌<◌, ◌≤◌, [], Some, None, fold, bit_xor};
ghost use Rattle.gf2.specs.Algebra.{product, power_of_x, Degree, Leaves};
ghost use Rattle.rings.specs.Cells.{ring_next};
ghost use Rattle.rings.specs.Questions.{Answers, vector_refusal, polynomial_refusal};
ghost use Rattle.rings.specs.Vectors.{polynomial_of};
ghost use Rattle.generators.specs.Generators.{iterate};
ghost use Rattle.search.specs.Lists.{full_list};
ghost use Rattle.search.specs.Views.{view, fitting};
ghost use Rattle.timed.specs.Starts.{start_refusal};

use generators::{Generator, jump};
use gf2::Modulus;
use rings::{Refusal, Ring, polynomial_of};
use search::Search;

#[unsafe(no_mangle)]
pub extern "C" fn timed_product(p: u32, a: u32, b: u32) -> u32
    ensures refused { p < 2 → result ≡ 0 }
    ensures value { 2 ≤ p → Leaves (product a b) p result }
{
    Modulus::new(p).map_or(0, |m| m.product(a, b))
}

#[unsafe(no_mangle)]
pub extern "C" fn timed_power_of_x(p: u32, e: u64) -> u32
    ensures refused { p < 2 → result ≡ 0 }
    ensures value { 2 ≤ p → Leaves (power_of_x e) p result }
{
    Modulus::new(p).map_or(0, |m| m.power_of_x(e))
}

#[unsafe(no_mangle)]
pub extern "C" fn timed_polynomial_of(cells: u32, vector: u32) -> u32
    ensures { elim (vector_refusal cells vector) [ None ↦ result ≡ polynomial_of cells vector | Some q ↦ result ≡ 0 ] }
{
    polynomial_of(cells, vector).unwrap_or(0)
}

// The state of a ring so many single steps after a state.
#[unsafe(no_mangle)]
pub extern "C" fn timed_steps(cells: u32, vector: u32, state: u32, count: u32) -> u32
    ensures { elim (start_refusal cells vector state) [ None ↦ result ≡ iterate (ring_next cells vector) count state | Some q ↦ result ≡ 0 ] }
{
    loaded(cells, vector, state).map_or(0, |ring| stepped(ring, count))
}

// The same by one jump.
#[unsafe(no_mangle)]
pub extern "C" fn timed_jump(cells: u32, vector: u32, state: u32, length: u64) -> u32
    ensures { elim (start_refusal cells vector state) [ None ↦ result ≡ iterate (ring_next cells vector) length state | Some q ↦ result ≡ 0 ] }
{
    loaded(cells, vector, state).map_or(0, |ring| jumped(ring, length))
}

fn loaded(cells: u32, vector: u32, state: u32) -> Result<Ring, Refusal>
    ensures { Answers result (start_refusal cells vector state) (λ s. (s.vector.cells ≡ cells) × (s.vector.rules ≡ vector) × (s.state ≡ state)) }
{
    let mut ring = Ring::new(cells, vector)?;
    ring.load(state)?;
    Ok(ring)
}

fn stepped(mut ring: Ring, count: u32) -> u32
    ensures { result ≡ iterate (ring_next ring.vector.cells ring.vector.rules) count ring.state }
{
    for i in 0..count {
        ring.step();
    }
    ring.state()
}

fn jumped(mut ring: Ring, length: u64) -> u32
    ensures { result ≡ iterate (ring_next ring.vector.cells ring.vector.rules) length ring.state }
{
    jump(&mut ring, length);
    ring.state()
}

// The sum of all vectors of a polynomial, bit by bit.
#[unsafe(no_mangle)]
pub extern "C" fn timed_vectors(p: u32) -> u32
    ensures { elim (polynomial_refusal p) [ None ↦ (n : ℕ) → Degree p n → result ≡ fold bit_xor 0 (full_list n p) | Some q ↦ result ≡ 0 ] }
{
    // As `map_or`, like the others, what `open` promises of the search was out of the proof's reach.
    let Ok(search) = Search::open(p) else {
        return 0;
    };
    sum_of(search)
}

// The sum of all vectors of a search that has given none.
fn sum_of(mut search: Search) -> u32
    ensures { (view search).given ≡ [] → result ≡ fold bit_xor 0 (fitting (view search)) }
{
    let mut sum = 0;
    while let Ok(vector) = search.next() {
        sum ^= vector;
    }
    sum
}
