// What the lines of the command line ask for.
#![tactic(auto)]

pub mod call;
pub mod command;
pub mod name;
pub mod parsing;

pub use call::{AnyCall, Pin};
pub use command::Command;
pub use name::{Name, expected};
pub use parsing::parse;
