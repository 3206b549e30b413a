use crate::{Words, number};

#[test]
fn words_of_a_command(rt: HostRuntime) {
    let mut words = Words::new(b"multiply  6 24");
    for word in [&b"multiply"[..], &b"6"[..], &b"24"[..]] {
        assert_eq!(rt; words.next(), Some(word));
    }
    assert_eq!(rt; words.next(), None);
}

#[test]
fn lines_with_no_word(rt: HostRuntime) {
    assert_eq!(rt; Words::new(b"").next(), None);
    assert_eq!(rt; Words::new(b"   ").next(), None);
    let mut words = Words::new(b"6  ");
    assert_eq!(rt; words.next(), Some(&b"6"[..]));
    for _ in 0..3 {
        assert_eq!(rt; words.next(), None, "after the last word");
    }
}

#[test]
fn numbers_of_words(rt: HostRuntime) {
    assert_eq!(rt; number(b"0"), Some(0));
    assert_eq!(rt; number(b"007"), Some(7));
    assert_eq!(rt; number(b"18446744073709551615"), Some(u64::MAX));
    assert_eq!(rt;
        number(b"18446744073709551616"),
        Some(u64::MAX),
        "saturates"
    );
    for word in [&b""[..], &b"-1"[..], &b"1x"[..]] {
        assert_eq!(rt; number(word), None);
    }
}
