// What is promised of whole runs: of a search, of a rig, and of the rings that are made from what the search gives.
#![tactic(auto)]

pub mod promise;
pub mod searches;

pub use promise::{Failure, Outcome, perform};
pub use searches::{Answer, Call};
