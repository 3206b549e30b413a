// The whole promise about runs, on one call.
ghost use Rattle.std.specs.Prelude.{◌≡◌, ◌<◌, ◌≤◌, IfOk};
ghost use Rattle.std.specs.List.{AllByRecursion};
ghost use Rattle.service.specs.Examples.{Examples};
ghost use Rattle.service.specs.Promises.{vectors, Within, Made, Keeps};
ghost use Rattle.service.specs.Searches.{given_by};

use crate::searches::{Answer, Call};
use generators::Generator;
use rig::run::run;
use rings::{Refusal, Ring};
use runs::perform_all;
use search::Search;
use std::alloc::{AllocError, Global};

// The answers to all calls, and a ring for each vector that the search gave.
#[derive(Drop)]
pub struct Outcome {
    pub search: Vec<Result<Answer, Refusal>>,
    pub rig: Vec<Result<rig::Answer, Refusal>>,
    pub rings: Vec<Ring>,
}

#[derive(Clone, Copy)]
pub enum Failure {
    // No search can be opened on the polynomial.
    Refused(Refusal),
    NoMemory,
}

impl From<Refusal> for Failure {
    ghost use Rattle.std.specs.Prelude.{◌≡◌};
    ghost use Rattle.service.specs.declared.promise.Failure.TheVariants.{Refused};

    ghost from_gives = { λ q f. f ≡ Refused q };

    fn from(refusal: Refusal) -> Failure {
        Failure::Refused(refusal)
    }
}

impl From<AllocError> for Failure {
    ghost use Rattle.std.specs.Prelude.{◌≡◌};
    ghost use Rattle.service.specs.declared.promise.Failure.TheVariants.{NoMemory};

    ghost from_gives = { λ _ f. f ≡ NoMemory };

    fn from(_: AllocError) -> Failure {
        Failure::NoMemory
    }
}

// Opens a search on the polynomial and makes a rig over the generator, performs the calls on each, and makes a ring from
// every vector that the search gave.
#[tactic(auto, using(crate::proofs::Examples::examples))]
pub fn perform<G: Generator + Drop>(
    heap: Global,
    polynomial: u32,
    calls: &[Call],
    generator: G,
    rig_calls: &[rig::Call],
) -> Result<Outcome, Failure>
    ensures kept { Keeps polynomial calls.now (G.meaning generator) rig_calls.now result }
    ensures examples { Examples }
{
    let mut opened = Search::open(polynomial)?;
    let cells = opened.cells();
    let search = perform_all(heap, &mut opened, calls)?;
    let rig = run(heap, generator, rig_calls)?;
    let rings = rings_of(heap, cells, search.as_slice())?;
    Ok(Outcome { search, rig, rings })
}

// Each vector that is given is one of the cells, so its ring is never refused. As a chain, and as a loop over one, that the
// ring is never refused stayed unproved.
fn rings_of(
    heap: Global,
    cells: u32,
    answers: &[Result<Answer, Refusal>],
) -> Result<Vec<Ring>, AllocError>
    requires some { 1 ≤ cells }
    requires few { cells ≤ 31 }
    requires given { AllByRecursion (Within cells) answers.now }
    ensures { IfOk result (λ rings. Made cells (vectors answers.now) rings.items) }
{
    let mut rings = Vec::new(heap);
    for answer in answers {
        if let Some(vector) = vector_of(answer) {
            rings.push(Ring::new(cells, vector).unwrap())?;
        }
    }
    Ok(rings)
}

// The vector that an answer gives, if it gives one.
fn vector_of(answer: &Result<Answer, Refusal>) -> Option<u32>
    ensures { result ≡ given_by answer.now }
{
    match answer {
        Ok(Answer::Vector(vector)) => Some(*vector),
        _ => None,
    }
}
