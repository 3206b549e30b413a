// Rule vectors of 90/150 rings: the polynomial of a vector, the ring that is built from one, and the refusals that all
// calls of the product share.
#![tactic(auto)]

pub mod refusal;
pub mod ring;
pub mod state;
#[cfg(test)]
mod tests;
pub mod vector;

pub use refusal::Refusal;
pub use ring::Ring;
pub use state::state_of;
pub use vector::{RuleVector, polynomial_of};
