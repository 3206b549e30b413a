// The vectors of a polynomial that obey pins.
ghost use Rattle.std.specs.Prelude.{◌≡◌, ◌++◌, IfOk, string_bytes};
ghost use Rattle.rings.specs.Questions.{Answers};
ghost use Rattle.search.specs.Views.{view, fitting};
ghost use Rattle.replies.specs.Vectors.{vectors_refusal, pinned_search, vectors_text};

use crate::told::joined;
use requests::Pin;
use rings::Refusal;
use search::Search;
use std::alloc::{AllocError, Global};

pub(crate) fn vectors_text(
    heap: Global,
    polynomial: u32,
    pins: &[Pin],
) -> Result<String, AllocError>
    ensures { IfOk result (λ s. string_bytes s ≡ vectors_text polynomial pins.now) }
{
    match pinned(polynomial, pins) {
        Ok(search) => {
            let vectors = all_vectors(heap, search)?;
            joined(heap, " ", vectors.as_slice())
        }
        Err(refusal) => refusal.to_string(heap),
    }
}

// A search with these pins, or the first refusal.
fn pinned(polynomial: u32, pins: &[Pin]) -> Result<Search, Refusal>
    ensures { Answers result (vectors_refusal polynomial pins.now) (λ s. view s ≡ pinned_search polynomial pins.now) }
{
    let mut search = Search::open(polynomial)?;
    for pin in pins {
        search.pin(pin.cell, pin.value)?;
    }
    Ok(search)
}

// The vectors that the search has yet to give.
fn all_vectors(heap: Global, mut search: Search) -> Result<Vec<u32>, AllocError>
    ensures { IfOk result (λ vs. (view search).given ++ vs.items ≡ fitting (view search)) }
{
    let mut vectors = Vec::new(heap);
    while let Ok(vector) = search.next() {
        vectors.push(vector)?;
    }
    Ok(vectors)
}
