ghost use Rattle.std.specs.Prelude.{◌++◌, decimal};

use crate::{Answering, answer_args, answer_line, answer_lines, answer_words};
use std::alloc::{AllocError, Global};
use std::test::Fail;

// Answers a line by its number and its bytes.
struct Numbered;

impl Answering for Numbered {
    ghost text = { λ n line. decimal n ++ line };

    fn answer(heap: Global, number: u64, line: &[u8]) -> Result<Vec<u8>, AllocError> {
        let text = number.to_string(heap)?;
        let mut bytes = text.into_bytes();
        bytes.extend_from_slice(line)?;
        Ok(bytes)
    }
}

#[test]
fn each_line_has_an_answer(rt: HostRuntime) -> Result<(), Fail> {
    let heap = rt.alloc();
    for (input, answers) in [
        (&b""[..], &b""[..]),
        (&b"\n"[..], &b"1\n"[..]),
        (&b"a\n\nb"[..], &b"1a\n2\n3b\n"[..]),
        (&b"a\nb\n"[..], &b"1a\n2b\n"[..]),
    ] {
        let mut input = input;
        let mut output = Vec::new(heap);
        if answer_lines::<Numbered, _, _>(heap, &mut input, &mut output).is_err() {
            return Err(Fail::new("no memory"));
        }
        assert_eq!(rt; output.as_slice(), answers);
    }
    Ok(())
}

#[test]
fn words_make_the_first_line(rt: HostRuntime) -> Result<(), Fail> {
    let heap = rt.alloc();
    let mut words = Vec::new(heap);
    for word in ["multiply", "6", "24"] {
        let word = String::from_str(heap, word)?;
        words.push(word)?;
    }
    let mut output = Vec::new(heap);
    if answer_words::<Numbered, _>(heap, &words, &mut output).is_err() {
        return Err(Fail::new("no memory"));
    }
    assert_eq!(rt; output.as_slice(), &b"1multiply 6 24\n"[..]);
    let mut output = Vec::new(heap);
    if answer_args::<Numbered, _>(heap, words, &mut output).is_err() {
        return Err(Fail::new("no memory"));
    }
    assert_eq!(rt; output.as_slice(), &b"1multiply 6 24\n"[..]);
    Ok(())
}

#[test]
fn a_line_has_the_number_given(rt: HostRuntime) -> Result<(), Fail> {
    let heap = rt.alloc();
    let mut output = Vec::new(heap);
    if answer_line::<Numbered, _>(heap, 7, b"ab", &mut output).is_err() {
        return Err(Fail::new("no memory"));
    }
    assert_eq!(rt; output.as_slice(), &b"7ab\n"[..]);
    Ok(())
}
