// Polynomials over GF(2) in machine words: bit i of a number is the coefficient of x^i, and the sum is exclusive or.
// 32 bits hold a polynomial of degree up to 31, 64 bits a product of two.
#![tactic(auto)]

pub mod arithmetic;
pub mod modulus;
#[cfg(test)]
mod tests;

pub use arithmetic::{degree, derivative, product};
pub use modulus::Modulus;
