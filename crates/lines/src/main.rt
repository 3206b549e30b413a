// Answers the command that the words after the program's name make, or, without any, each line of standard input.
#![tactic(auto)]

ghost use Rattle.replies.specs.Replies.{answer_line};

use console::{Answering, answer_args, answer_lines};
use replies::answer_line;
use std::alloc::{AllocError, Global};
use std::env;
use std::io::{self, BufReader};

struct Replies;

impl Answering for Replies {
    ghost text = { answer_line };

    fn answer(heap: Global, number: u64, line: &[u8]) -> Result<Vec<u8>, AllocError> {
        answer_line(heap, number, line)
    }
}

// No clause can say what the system gives and takes, and each public call of a library here has a contract, so both programs have
// these lines. What comes of known bytes is promised by the calls.
fn main(rt: HostRuntime) -> anyhow::Result<()> {
    let heap = rt.alloc();
    let words: Vec<String> = env::args(&rt)?.skip(1).collect(heap)?;
    let mut output = io::writer(&rt);
    if words.is_empty() {
        let mut input = BufReader::new(heap, rt.stdin())?;
        return answer_lines::<Replies, _, _>(heap, &mut input, &mut output);
    }
    answer_args::<Replies, _>(heap, words, &mut output)
}
