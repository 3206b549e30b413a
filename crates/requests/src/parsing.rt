// From a line to the command that it asks for.
ghost use Rattle.std.specs.Prelude.{◌≡◌, IfOk};
ghost use Rattle.std.specs.Option.{option_map};
ghost use Rattle.words.specs.Words.{words, left};
ghost use Rattle.requests.specs.Commands.{asked_by, understood, listed_by};

use crate::{Command, Name};
use std::alloc::{AllocError, Global};
use words::{Polynomial, Reading, Words};

// The command that a line asks for, or else the one whose form it misses, if it names one. Two results: want of memory ends the
// program, and a line not understood is answered; of one error type they would be taken apart again at once.
pub fn parse(heap: Global, line: &[u8]) -> Result<Result<Command, Option<Name>>, AllocError>
    ensures { IfOk result (λ c. asked_by c ≡ understood (words line.now)) }
{
    let mut rest = Words::new(line);
    let Some(name) = rest.next().and_then(Name::of) else {
        return Ok(Err(None));
    };
    let command = match name {
        Name::Plain(plain) => plain.command(rest).map(Command::Plain),
        Name::Vectors => {
            listed(heap, rest)?.map(|(polynomial, pins)| Command::Vectors { polynomial, pins })
        }
        Name::Run => {
            listed(heap, rest)?.map(|(polynomial, calls)| Command::Run { polynomial, calls })
        }
    };
    Ok(command.ok_or(Some(name)))
}

// A polynomial, and what all words after it write.
fn listed<T: Reading + Drop>(
    heap: Global,
    mut rest: Words,
) -> Result<Option<(u32, Vec<T>)>, AllocError>
    ensures { IfOk result (λ o. option_map (λ l. (l.0, l.1.items)) o ≡ listed_by T.read (left rest.entry)) }
{
    let Some(Polynomial { word }) = rest.value() else {
        return Ok(None);
    };
    let values = rest.values(heap)?;
    Ok(values.map(|values| (word, values)))
}
