// The command line as a library: a line of bytes in, the line that answers it out.
#![tactic(auto)]

pub mod answer;
pub mod command;
pub mod name;
pub mod parsing;
pub mod patterns;
#[cfg(test)]
mod tests;

pub use answer::{answer_line, echoed, missed};
pub use command::{Command, Layers, Moment};
pub use name::{Name, expected};
