// The words of a line of bytes, and the decimal numbers that they write.
#![tactic(auto)]

pub mod numbers;
pub mod reading;
#[cfg(test)]
mod tests;
pub mod words;

pub use numbers::number;
pub use reading::{Polynomial, Reading};
pub use words::{Words, halves};
