// The line that answers a command.
ghost use Rattle.std.specs.Prelude.{◌≡◌, ◌++◌, IfOk, string_bytes, codes};
ghost use Rattle.commands.specs.Replies.{answer_line, reply_of, missed_text};

use crate::{Command, expected};
use rings::polynomial_of;
use std::alloc::{AllocError, Global};

// The answer to a line, without a line feed; number is the line's, for one that is not understood.
pub fn answer_line(heap: Global, number: u64, line: &[u8]) -> Result<Vec<u8>, AllocError>
    ensures { IfOk result (λ v. v.items ≡ answer_line number line.now) }
{
    match Command::parse(line) {
        Ok(command) => {
            let reply = command.reply(heap)?;
            echoed(heap, line, reply.as_bytes())
        }
        Err(name) => missed(heap, number, expected(name)),
    }
}

impl Command {
    // What the command asks for, or the refusal.
    pub fn reply(&self, heap: Global) -> Result<String, AllocError>
        ensures { IfOk result (λ s. string_bytes s ≡ reply_of self.now) }
    {
        let asked = match self {
            Command::Multiply { cells, vector } => polynomial_of(*cells, *vector),
            Command::Pattern {
                cells,
                vector,
                moment,
            } => moment.ring_pattern(*cells, *vector),
            Command::Register { polynomial, moment } => moment.register_pattern(*polynomial),
        };
        // What would print either, `replies::told::Told`, stands above this crate.
        match asked {
            Ok(number) => number.to_string(heap),
            Err(refusal) => refusal.to_string(heap),
        }
    }
}

// The command as given, and the reply.
pub fn echoed(heap: Global, line: &[u8], reply: &[u8]) -> Result<Vec<u8>, AllocError>
    ensures { IfOk result (λ v. v.items ≡ line.now ++ (codes ": " ++ reply.now)) }
{
    let mut bytes = Vec::new(heap);
    bytes.extend_from_slice(line)?;
    bytes.extend_from_slice(b": ")?;
    bytes.extend_from_slice(reply)?;
    Ok(bytes)
}

// That the line of this number is not understood.
pub fn missed(heap: Global, number: u64, expected: &str) -> Result<Vec<u8>, AllocError>
    ensures { IfOk result (λ v. v.items ≡ missed_text number expected.now) }
{
    let text = format!(in heap; "line {number}: not understood, expected {expected}")?;
    Ok(text.into_bytes())
}
