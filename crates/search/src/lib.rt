// Searches for the rule vectors of a polynomial.
#![tactic(auto)]

mod candidates;
pub mod equations;
mod expressions;
mod pins;
pub mod search;
mod span;
mod system;
#[cfg(test)]
mod tests;

pub use equations::Equation;
pub use search::Search;
