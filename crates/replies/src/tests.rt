use crate::answer_line;
use std::alloc::Global;
use std::test::Fail;

// The whole line that answers a line, as text. The tests of `commands` have this and the three below too, of their own
// `answer_line`: no crate can call what another's tests call.
fn answered(heap: Global, line: &[u8]) -> Result<String, Fail> {
    let bytes = answer_line(heap, 3, line)?;
    String::from_utf8(bytes).map_err(|_| Fail::new("the answer is no text"))
}

#[test]
fn answers_to_multiply(rt: HostRuntime) -> Result<(), Fail> {
    let heap = rt.alloc();
    assert_eq!(rt;
        answered(heap, b"multiply 6 24")?.as_str(),
        "multiply 6 24: 67"
    );
    assert_eq!(rt;
        answered(heap, b"multiply  7 077")?.as_str(),
        "multiply  7 077: 131"
    );
    assert_eq!(rt;
        answered(heap, b"multiply 0 0")?.as_str(),
        "multiply 0 0: refused 15"
    );
    assert_eq!(rt;
        answered(heap, b"multiply 6 64")?.as_str(),
        "multiply 6 64: refused 16"
    );
    assert_eq!(rt;
        answered(heap, b"multiply 6 99999999999999999999")?.as_str(),
        "multiply 6 99999999999999999999: refused 16"
    );
    Ok(())
}

#[test]
fn lines_that_are_not_understood(rt: HostRuntime) -> Result<(), Fail> {
    let heap = rt.alloc();
    let multiply = "line 3: not understood, expected multiply CELLS VECTOR";
    for line in [
        &b"multiply"[..],
        &b"multiply 6"[..],
        &b"multiply 6 x"[..],
        &b"multiply 6 24 0"[..],
    ] {
        assert_eq!(rt; answered(heap, line)?.as_str(), multiply);
    }
    for line in [&b""[..], &b"Multiply 6 24"[..], &b"\xff\x00"[..]] {
        assert_eq!(rt;
            answered(heap, line)?.as_str(),
            "line 3: not understood, expected a command: multiply, pattern, register, vectors, run"
        );
    }
    Ok(())
}

#[test]
fn answers_to_pattern_and_register(rt: HostRuntime) -> Result<(), Fail> {
    let heap = rt.alloc();
    assert_eq!(rt;
        answered(heap, b"pattern 5 30 1 4")?.as_str(),
        "pattern 5 30 1 4: 25"
    );
    assert_eq!(rt;
        answered(heap, b"pattern 5 30 1 2 doubler")?.as_str(),
        "pattern 5 30 1 2 doubler: 25"
    );
    assert_eq!(rt;
        answered(heap, b"pattern 5 30 0 1")?.as_str(),
        "pattern 5 30 0 1: refused 12"
    );
    assert_eq!(rt;
        answered(heap, b"register 37 1 3")?.as_str(),
        "register 37 1 3: 9"
    );
    assert_eq!(rt;
        answered(heap, b"register 1 1 3")?.as_str(),
        "register 1 1 3: refused 1"
    );
    Ok(())
}
