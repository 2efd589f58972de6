//! Numbers and words, read and written.

use line_words::{Words, number, push_number, split_first};
use std::process::Abort;
use std::test::Fail;

const SPELLED: [(&[u8], u64); 5] = [
    (b"0", 0),
    (b"7", 7),
    (b"10", 10),
    (b"4294967296", 4294967296),
    (b"18446744073709551615", 18446744073709551615),
];

const NO_NUMBERS: [&[u8]; 8] = [
    b"",
    b"00",
    b"01",
    b"-",
    b"+1",
    b"1a",
    b"18446744073709551616",
    b"99999999999999999999999",
];

#[test]
fn numbers_are_read_and_written(rt: HostRuntime) -> Result<(), Fail> {
    for (word, value) in SPELLED {
        assert_eq!(rt; number(word), Some(value));
        let mut out = Vec::new(rt.alloc());
        push_number(&mut out, value).ok().ok_or("no memory")?;
        assert_eq!(rt; out.as_slice(), word);
    }
    for word in NO_NUMBERS {
        assert_eq!(rt; number(word), None);
    }
    Ok(())
}

#[test]
fn words_are_taken_one_by_one(rt: HostRuntime) {
    let (word, rest) = split_first(b"ab cd ef", b' ');
    assert_eq!(rt; (word, rest), (b"ab".as_slice(), Some(b"cd ef".as_slice())));
    let (whole, none) = split_first(b"abcd", b' ');
    assert_eq!(rt; (whole, none), (b"abcd".as_slice(), None));
    let mut words = Words::new(b"queue 7 side 4294967296");
    assert_eq!(rt; words.fixed(b"queue").is_some(), true);
    assert_eq!(rt; words.short(), Some(7));
    assert_eq!(rt; words.either(b"main", b"side"), Some(false));
    assert_eq!(rt; words.short(), None);
    let mut words = Words::new(b"- 7");
    assert_eq!(rt; words.maybe_short(), Some(None));
    assert_eq!(rt; words.maybe_long(), Some(Some(7)));
    assert_eq!(rt; words.whole(true), Some(true));
}
