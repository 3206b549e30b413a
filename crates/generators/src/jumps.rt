// Jumps: the state after any number of steps, for about as many steps as there are cells.
ghost use Rattle.std.specs.Prelude.{◌≡◌, ℕ, ◌^◌, length};
ghost use Rattle.gf2.specs.Algebra.{power_of_x, Leaves};
ghost use Rattle.generators.specs.Generators.{iterate, orbit};

use crate::{Generator, chosen_sum};
use gf2::Modulus;

const MAX_STATES: usize = 32;

// As many steps as the length says.
pub fn jump<G: Generator>(g: &mut G, length: u64)
    ensures same { G.meaning g.new ≡ G.meaning g.old }
    ensures after { G.state g.new ≡ iterate (G.meaning g.old).next length (G.state g.old) }
{
    let modulus = modulus_of(g);
    land(g, modulus, modulus.power_of_x(length));
}

// 2^d steps.
pub fn leap<G: Generator>(g: &mut G, d: u32)
    ensures same { G.meaning g.new ≡ G.meaning g.old }
    ensures after { G.state g.new ≡ iterate (G.meaning g.old).next (2 ^ d) (G.state g.old) }
{
    let modulus = modulus_of(g);
    land(g, modulus, modulus.frobenius_of_x(d));
}

// A generator's polynomial has a degree from 1 on, so it is a modulus.
fn modulus_of<G: Generator>(g: &G) -> Modulus
    ensures { result.polynomial ≡ (G.meaning g.now).polynomial }
{
    // By `unwrap` the same proof would need a lemma on options.
    let Some(modulus) = Modulus::new(g.polynomial()) else {
        unreachable();
    };
    modulus
}

// Modulo the polynomial, x^c leaves the residue; so the state after c steps is the sum of the states 0, 1, … steps on, at
// the exponents of the residue. What is added are states, never what is shown of them.
fn land<G: Generator>(g: &mut G, modulus: Modulus, residue: u32)
    requires { modulus.polynomial ≡ (G.meaning g.old).polynomial }
    ensures same { G.meaning g.new ≡ G.meaning g.old }
    ensures after { (c : ℕ) → Leaves (power_of_x c) modulus.polynomial residue → G.state g.new ≡ iterate (G.meaning g.old).next c (G.state g.old) }
{
    // There is no heap here, so the states stand in a buffer of the most that there can be.
    let mut buffer = [0; MAX_STATES];
    let states = &mut buffer[..modulus.degree() as usize];
    keep_states(g, states);
    // There are no more states than items in a sum.
    let word = chosen_sum(states, residue).unwrap();
    let _ = g.load(word);
}

// The state and those that follow it, as many as there are places; the generator moves on past them.
fn keep_states<G: Generator>(g: &mut G, states: &mut [u32])
    ensures same { G.meaning g.new ≡ G.meaning g.old }
    ensures value { states.new ≡ orbit (G.meaning g.old).next (length states.old) (G.state g.old) }
{
    for state in states.iter_mut() {
        *state = g.state();
        g.step();
    }
}
