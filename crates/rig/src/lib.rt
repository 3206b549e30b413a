// The rig: one generator, its seed and its clock.
#![tactic(auto)]

pub mod rig;
pub mod run;
#[cfg(test)]
mod tests;

pub use rig::Rig;
pub use run::{Answer, Call};
