// The line that answers a line.
ghost use Rattle.std.specs.Prelude.{◌≡◌, IfOk, string_bytes};
ghost use Rattle.requests.specs.Commands.{asked};
ghost use Rattle.replies.specs.Replies.{answer_line, reply_of};

use crate::outcomes::run_text;
use crate::pinned::vectors_text;
use commands::{echoed, missed};
use requests::{Command, expected, parse};
use std::alloc::{AllocError, Global};

// The answer to a line, without a line feed; number is the line's, for one that is not understood. `commands` has one of this
// shape, whose parse can't run out of memory: one function for both would be passed all that it calls.
pub fn answer_line(heap: Global, number: u64, line: &[u8]) -> Result<Vec<u8>, AllocError>
    ensures { IfOk result (λ v. v.items ≡ answer_line number line.now) }
{
    match parse(heap, line)? {
        Ok(command) => {
            let text = reply(heap, &command)?;
            echoed(heap, line, text.as_bytes())
        }
        Err(name) => missed(heap, number, expected(name)),
    }
}

// What the command asks for, or the refusal.
pub fn reply(heap: Global, command: &Command) -> Result<String, AllocError>
    ensures { IfOk result (λ s. string_bytes s ≡ reply_of (asked command.now)) }
{
    match command {
        Command::Plain(command) => command.reply(heap),
        Command::Vectors { polynomial, pins } => vectors_text(heap, *polynomial, pins),
        Command::Run { polynomial, calls } => run_text(heap, *polynomial, calls),
    }
}
