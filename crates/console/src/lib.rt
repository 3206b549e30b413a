// Programs that answer lines.
#![tactic(auto)]

pub mod answering;
pub mod args;
#[cfg(test)]
mod tests;
pub mod words;

pub use answering::{Answering, answer_line, answer_lines};
pub use args::answer_args;
pub use words::answer_words;
