// A search: a polynomial, the pins, and how far the run has come.
ghost use Rattle.std.specs.Prelude.{◌^◌, ◌≤◌, unwrap_or};

use crate::candidates::Candidates;
use crate::pins::Pins;

mod calls;

// None where the search does not run; else the fitting vectors below from have been given.
#[derive(Clone, Copy)]
pub struct Search {
    candidates: Candidates,
    pins: Pins,
    from: Option<u32>,
    ghost reached: { unwrap_or from 0 ≤ 2 ^ candidates.modulus.degree },
}
