// Runs of calls, and what came of them.
ghost use Rattle.std.specs.Prelude.{◌≡◌, map, IfOk, string_bytes, codes};
ghost use Rattle.service.specs.Promises.{Keeps};
ghost use Rattle.replies.specs.Outcomes.{search_calls, rig_calls, register_of, run_text as text_of_run, outcome_text as text_of_outcome};
ghost use Rattle.replies.specs.Texts.{answered_text, joined, ShownBy};

use crate::told::{Told, joined};
use generators::Register;
use requests::AnyCall;
use rig::Call as RigCall;
use rings::Refusal;
use service::{Call as SearchCall, Failure, Outcome, perform};
use std::alloc::{AllocError, Global};
use std::fmt::{Display, Write};

// The answers of a search on the polynomial and of a rig over its register, and the rings that came of them.
#[tactic(auto, using(crate::proofs::Ran::ran))]
pub(crate) fn run_text(
    heap: Global,
    polynomial: u32,
    calls: &[AnyCall],
) -> Result<String, AllocError>
    ensures { IfOk result (λ s. string_bytes s ≡ text_of_run polynomial calls.now) }
{
    match performed(heap, polynomial, calls) {
        Ok(outcome) => outcome_text(heap, outcome),
        Err(Failure::Refused(refusal)) => refusal.to_string(heap),
        Err(Failure::NoMemory) => Err(AllocError),
    }
}

// What comes of the calls.
#[tactic(auto, using(crate::proofs::Ran::register_is))]
fn performed(heap: Global, polynomial: u32, calls: &[AnyCall]) -> Result<Outcome, Failure>
    ensures { Keeps polynomial (search_calls calls.now) (register_of polynomial) (rig_calls calls.now) result }
{
    let register = Register::new(polynomial)?;
    let search = search_calls(heap, calls)?;
    let rig = rig_calls(heap, calls)?;
    perform(
        heap,
        polynomial,
        search.as_slice(),
        register,
        rig.as_slice(),
    )
}

// The calls on the search, in their order. One function for these and those on the rig would be passed the match, which is all that
// either has.
fn search_calls(heap: Global, calls: &[AnyCall]) -> Result<Vec<SearchCall>, AllocError>
    ensures { IfOk result (λ v. v.items ≡ search_calls calls.now) }
{
    let of_search = |call: &AnyCall| match call {
        AnyCall::Search(one) => Some(*one),
        AnyCall::Rig(_) => None,
    };
    calls.iter().filter_map(of_search).collect(heap)
}

// The calls on the rig, in their order.
fn rig_calls(heap: Global, calls: &[AnyCall]) -> Result<Vec<RigCall>, AllocError>
    ensures { IfOk result (λ v. v.items ≡ rig_calls calls.now) }
{
    let of_rig = |call: &AnyCall| match call {
        AnyCall::Search(_) => None,
        AnyCall::Rig(one) => Some(*one),
    };
    calls.iter().filter_map(of_rig).collect(heap)
}

fn outcome_text(heap: Global, outcome: Outcome) -> Result<String, AllocError>
    ensures { IfOk result (λ s. string_bytes s ≡ text_of_outcome outcome.search.items outcome.rig.items outcome.rings.items) }
{
    let search = answers_text(heap, outcome.search.as_slice())?;
    let rig = answers_text(heap, outcome.rig.as_slice())?;
    let rings = joined(heap, " ", outcome.rings.as_slice())?;
    // What is told is not needed any more, and the texts are copied once.
    drop(outcome);
    format!(in heap; "search {search}; rig {rig}; rings {rings}")
}

// The answers, with refusals in their places. Each is told where it stands: `joined` would need a list of what is told beside the list
// of answers.
fn answers_text<A: Display + Copy>(
    heap: Global,
    answers: &[Result<A, Refusal>],
) -> Result<String, AllocError>
    ensures { ShownBy A.output (λ show. IfOk result (λ s. string_bytes s ≡ joined (codes ", ") (map (answered_text show) answers.now))) }
{
    let [first, rest @ ..] = answers else {
        return String::from_str(heap, "none");
    };
    let mut text = Told(*first).to_string(heap)?;
    for answer in rest {
        let told = Told(*answer);
        write!(text, ", {told}")?;
    }
    Ok(text)
}
