// What came of calls, as text.
ghost use Rattle.std.specs.Prelude.{◌≡◌, map, IfOk, string_bytes};
ghost use Rattle.replies.specs.Texts.{joined as joined_by, shown_or_refused, ShownBy};

use rings::Refusal;
use std::alloc::{AllocError, Global};
use std::fmt;
use std::fmt::{Display, Write};

// An answer, or the refusal in its place.
#[derive(Clone, Copy)]
pub struct Told<A>(pub Result<A, Refusal>);

impl<A: Display> Display for Told<A> {
    ghost output = { λ t. shown_or_refused A.output t.0 };

    fn fmt<W: fmt::Write>(&self, f: &mut fmt::Formatter<W>) -> fmt::Result {
        match &self.0 {
            Ok(answer) => write!(f, "{answer}"),
            Err(refusal) => write!(f, "{refusal}"),
        }
    }
}

// The texts of the items with the separator between two, or "none".
pub fn joined<T: Display>(heap: Global, separator: &str, items: &[T]) -> Result<String, AllocError>
    ensures { ShownBy T.output (λ show. IfOk result (λ s. string_bytes s ≡ joined_by separator.now (map show items.now))) }
{
    let [first, rest @ ..] = items else {
        return String::from_str(heap, "none");
    };
    let mut text = first.to_string(heap)?;
    for item in rest {
        write!(text, "{separator}{item}")?;
    }
    Ok(text)
}
