use crate::{Pieces, is_end, next_number, next_word, number_of};
use std::alloc::Global;
use std::process::Abort;
use wal_base::{Blob, Buf, NoMemory};

/// Each piece with a bar behind it.
fn barred(alloc: Global, mut pieces: Pieces<'_>) -> Result<Buf, NoMemory> {
    let mut out = Buf::new(alloc)?;
    while let Some(piece) = pieces.next_part()? {
        out.append(piece.as_slice())?;
        out.append(b"|")?;
    }
    Ok(out)
}

/// The words of a line that may name something, each with a bar behind it, up to the first that may not.
fn named(alloc: Global, line: &Blob) -> Result<Buf, NoMemory> {
    let mut words = Pieces::words(line);
    let mut out = Buf::new(alloc)?;
    while let Some(word) = next_word(&mut words)? {
        out.append(word.as_slice())?;
        out.append(b"|")?;
    }
    Ok(out)
}

fn blob(rt: &impl Abort, alloc: Global, bytes: &[u8]) -> Blob {
    Blob::copy_of(alloc, bytes).expect(rt, "memory")
}

#[test]
fn a_text_is_cut_at_its_line_feeds(rt: HostRuntime) {
    let text = blob(&rt, rt.alloc(), b"a b\n\n\tc\r");
    let lines = barred(rt.alloc(), Pieces::lines(&text)).expect(&rt, "memory");
    assert_eq!(rt; lines.as_slice(), b"a b||\tc\r|".as_slice());
}

#[test]
fn a_line_is_cut_at_its_spaces_and_tabs(rt: HostRuntime) {
    let line = blob(&rt, rt.alloc(), b"get\t0  a");
    let words = barred(rt.alloc(), Pieces::words(&line)).expect(&rt, "memory");
    assert_eq!(rt; words.as_slice(), b"get|0||a|".as_slice());
}

#[test]
fn a_word_that_names_something_is_printable_and_has_no_semicolon(rt: HostRuntime) {
    let line = blob(&rt, rt.alloc(), b"!~ acct/1 a;b c");
    let words = named(rt.alloc(), &line).expect(&rt, "memory");
    assert_eq!(rt; words.as_slice(), b"!~|acct/1|".as_slice());
}

#[test]
fn a_number_has_one_spelling(rt: HostRuntime) {
    assert_eq!(rt; number_of(b"0"), Some(0));
    assert_eq!(rt; number_of(b"18446744073709551615"), Some(u64::MAX));
    assert_eq!(rt; number_of(b"18446744073709551616"), None);
    assert_eq!(rt; number_of(b"01"), None);
    assert_eq!(rt; number_of(b"+1"), None);
    assert_eq!(rt; number_of(b""), None);
}

#[test]
fn a_number_of_a_range_is_taken_off(rt: HostRuntime) {
    let line = blob(&rt, rt.alloc(), b"63 64");
    let mut words = Pieces::words(&line);
    assert_eq!(rt; next_number(&mut words, 0, 63), Some(63));
    assert_eq!(rt; next_number(&mut words, 0, 63), None);
    assert!(rt; is_end(&mut words));
}
