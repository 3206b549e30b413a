// Linear generators over states of 1 to 31 cells: rings, registers and layers over them, and the jump over any number of
// steps, which is one for all.
#![tactic(auto)]

pub mod doubler;
pub mod generator;
pub mod jumps;
pub mod pile;
pub mod register;
pub mod ring;
pub mod sum;
pub mod tap;
#[cfg(test)]
mod tests;

pub use doubler::Doubler;
pub use generator::Generator;
pub use jumps::{jump, leap};
pub use pile::Pile;
pub use register::Register;
pub use sum::{Summand, chosen_sum};
pub use tap::Tap;
