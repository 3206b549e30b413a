// The words of a command line, as one line.
ghost use Rattle.std.specs.Prelude.{[], ◌∷◌, ◌++◌, OnOk, string_bytes, codes};
ghost use Rattle.std.specs.Io.KnownBytes.{Appends};
ghost use Rattle.std.specs.List.{join_by};

use crate::answering::{Answering, answer_line};
use std::alloc::Global;
use std::io::Write;

// Answers the line that the words make, with a space between two, as the first one, by one line of the output.
pub fn answer_words<A: Answering, W: Write>(
    heap: Global,
    words: &[String],
    output: &mut W,
) -> anyhow::Result<()>
    ensures { OnOk result (Appends (W.contents output.old) (W.contents output.new) (A.text 1 (join_by (λ w. string_bytes w) (codes " ") words.now) ++ 10 ∷ [])) }
{
    let line = words.join(heap, " ")?;
    answer_line::<A, W>(heap, 1, line.as_bytes(), output)
}
