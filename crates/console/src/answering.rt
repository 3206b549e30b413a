// Lines in, answers out.
ghost use Rattle.std.specs.Prelude.{◌≡◌, ℕ, List, [], ◌∷◌, ◌++◌, IfOk, OnOk};
ghost use Rattle.std.specs.Io.BufRead.{strip_last};
ghost use Rattle.std.specs.Io.KnownBytes.{Appends};
ghost use Rattle.console.specs.Lines.{AnswersAll};

use anyhow::bail;
use std::alloc::{AllocError, Global};
use std::io::{BufRead, Write};

// What answers lines by lines.
pub trait Answering {
    // The line that answers the line of this number.
    ghost text: { ℕ → List ℕ → List ℕ };

    fn answer(heap: Global, number: u64, line: &[u8]) -> Result<Vec<u8>, AllocError>
        ensures { IfOk result (λ v. v.items ≡ text number line.now) };
}

// Answers each line of the input, in order, by one line of the output.
pub fn answer_lines<A: Answering, R: BufRead, W: Write>(
    heap: Global,
    input: &mut R,
    output: &mut W,
) -> anyhow::Result<()>
    ensures { OnOk result (AnswersAll A.text (R.remaining input.old) (W.contents output.old) (W.contents output.new)) }
{
    for number in 1..u64::MAX {
        let mut line = Vec::new(heap);
        if input.read_until(b'\n', &mut line)? == 0 {
            return Ok(());
        }
        answer_line::<A, W>(heap, number, without_end(&line), output)?;
    }
    bail!("too many lines")
}

// Answers one line by one line of the output.
pub fn answer_line<A: Answering, W: Write>(
    heap: Global,
    number: u64,
    line: &[u8],
    output: &mut W,
) -> anyhow::Result<()>
    ensures { OnOk result (Appends (W.contents output.old) (W.contents output.new) (A.text number line.now ++ 10 ∷ [])) }
{
    let mut answer = A::answer(heap, number, line)?;
    answer.push(b'\n')?;
    output.write_all(&answer)?;
    Ok(())
}

// The line without the line feed that ends it.
fn without_end(line: &[u8]) -> &[u8]
    ensures { result.now ≡ strip_last 10 line.now }
{
    match line {
        [text @ .., b'\n'] => text,
        text => text,
    }
}
