// Commands: what a line asks for.
use crate::call::{AnyCall, Pin};
use commands::Command as PlainCommand;

// What a line asks for.
#[derive(Drop)]
pub enum Command {
    // A command with no list.
    Plain(PlainCommand),
    // All vectors of a polynomial that obey the pins.
    Vectors {
        polynomial: u32,
        pins: Vec<Pin>,
    },
    // The answers to calls on a search and on a rig over the register of the polynomial.
    Run {
        polynomial: u32,
        calls: Vec<AnyCall>,
    },
}
