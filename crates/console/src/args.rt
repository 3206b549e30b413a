// The words that a program was started with.
ghost use Rattle.std.specs.Prelude.{[], ◌∷◌, ◌++◌, OnOk, string_bytes, codes};
ghost use Rattle.std.specs.Io.KnownBytes.{Appends};
ghost use Rattle.std.specs.List.{join_by};

use crate::answering::{Answering, answer_line};
use std::alloc::Global;
use std::io::Write;

// As `answer_words`, for words that nobody needs any more: they go before the answer is made, which takes as much memory again.
pub fn answer_args<A: Answering, W: Write>(
    heap: Global,
    args: Vec<String>,
    output: &mut W,
) -> anyhow::Result<()>
    ensures { OnOk result (Appends (W.contents output.old) (W.contents output.new) (A.text 1 (join_by (λ w. string_bytes w) (codes " ") args.items) ++ 10 ∷ [])) }
{
    let line = args.join(heap, " ")?;
    drop(args);
    answer_line::<A, W>(heap, 1, line.as_bytes(), output)
}
