// The lines that answer commands.
#![tactic(auto)]

pub mod answer;
mod outcomes;
mod pinned;
#[cfg(test)]
mod tests;
pub mod told;

pub use answer::{answer_line, reply};
