use crate::{ViewFault, ViewLine, read_view};
use std::alloc::Global;
use std::process::Abort;
use std::test::Fail;
use wal_base::{Buf, NoMemory};

/// Adds a number and a space.
fn put_number(out: &mut Buf, number: u64) -> Result<(), NoMemory> {
    out.append(itoa::Buffer::new().format(number).as_bytes())?;
    out.append(b" ")
}

/// Adds what a line asks for.
fn put_line(out: &mut Buf, line: &ViewLine) -> Result<(), NoMemory> {
    match line {
        ViewLine::Hold { at } => {
            put_number(out, *at)?;
            out.append(b"is held")
        }
        ViewLine::Get { hold, key } => {
            put_number(out, *hold)?;
            out.append(b"shows ")?;
            out.append(key.as_slice())
        }
        ViewLine::Scan { hold, from } => {
            put_number(out, *hold)?;
            out.append(b"shows all from ")?;
            out.append(from.as_slice())
        }
        ViewLine::Release { hold } => {
            put_number(out, *hold)?;
            out.append(b"is let go")
        }
        ViewLine::Purge => out.append(b"the rest is let go"),
    }
}

/// What the lines of a text ask for, in other words than their own.
fn shown(rt: &impl Abort, alloc: Global, text: &[u8]) -> Result<Buf, NoMemory> {
    let lines = match read_view(alloc, text) {
        Ok(lines) => lines,
        Err(ViewFault::NoMemory) => return Err(NoMemory),
        Err(ViewFault::BadLine { line }) => panic!(rt; "line {line} is not accepted"),
    };
    let mut out = Buf::new(alloc)?;
    for line in lines.as_slice() {
        put_line(&mut out, line)?;
        out.append(b"\n")?;
    }
    Ok(out)
}

/// Asserts that this line of a text is the first bad one.
fn check_bad(rt: &impl Abort, alloc: Global, text: &[u8], number: u64) {
    let bad = Err(ViewFault::BadLine { line: number });
    assert_eq!(rt; read_view(alloc, text).map(|_| ()), bad);
}

#[test]
fn each_kind_of_line_is_read(rt: HostRuntime) -> Result<(), Fail> {
    let text = b"hold 18446744073709551615\n\
        get 0 acct/1\n\
        scan 1\n\
        scan\t2\t!~\n\
        release 18446744073709551615\n\
        purge\n\
        hold 0";
    let expected = b"18446744073709551615 is held\n\
        0 shows acct/1\n\
        1 shows all from \n\
        2 shows all from !~\n\
        18446744073709551615 is let go\n\
        the rest is let go\n\
        0 is held\n";
    assert_eq!(rt;
        shown(&rt, rt.alloc(), text)?.as_slice(),
        expected.as_slice()
    );
    Ok(())
}

#[test]
fn a_line_feed_ends_the_last_line_or_not(rt: HostRuntime) -> Result<(), Fail> {
    let expected = b"the rest is let go\n7 is held\n".as_slice();
    assert_eq!(rt;
        shown(&rt, rt.alloc(), b"purge\nhold 7")?.as_slice(),
        expected
    );
    assert_eq!(rt;
        shown(&rt, rt.alloc(), b"purge\nhold 7\n")?.as_slice(),
        expected
    );
    Ok(())
}

#[test]
fn an_empty_text_asks_for_nothing(rt: HostRuntime) -> Result<(), Fail> {
    assert_eq!(rt; shown(&rt, rt.alloc(), b"")?.as_slice(), b"".as_slice());
    Ok(())
}

#[test]
fn any_other_line_is_bad(rt: HostRuntime) {
    let (numbers, words, ends) = (
        [
            b"hold 012".as_slice(),
            b"hold 18446744073709551616",
            b"hold +1",
            b"hold -1",
            b"get a 0",
        ],
        [
            b"#x".as_slice(),
            b"HOLD 1",
            b"get 0 a;",
            b"get 0 ;",
            b"get  0 a",
            b" purge",
        ],
        [
            b"\n".as_slice(),
            b"hold",
            b"hold 1 2",
            b"get 0",
            b"get 0 a b",
            b"scan",
            b"scan 0 a b",
            b"scan 0 ",
            b"release",
            b"release 0 1",
            b"purge 1",
            b"purge ",
            b"purge\r\n",
        ],
    );
    for line in numbers {
        check_bad(&rt, rt.alloc(), line, 1);
    }
    for line in words {
        check_bad(&rt, rt.alloc(), line, 1);
    }
    for line in ends {
        check_bad(&rt, rt.alloc(), line, 1);
    }
}

#[test]
fn the_first_bad_line_is_told(rt: HostRuntime) {
    check_bad(&rt, rt.alloc(), b"purge\n\npurge\n", 2);
    check_bad(&rt, rt.alloc(), b"purge\n\n", 2);
    check_bad(&rt, rt.alloc(), b"hold 1\nscan 0\nhold\nget\n", 3);
}

#[test]
fn a_key_may_be_of_any_length(rt: HostRuntime) -> Result<(), Fail> {
    let key = vec![in rt.alloc(); b'x'; 70_000]?;
    let mut text = Buf::new(rt.alloc())?;
    text.append(b"get 0 ")?;
    text.append(&key)?;
    assert_eq!(rt;
        shown(&rt, rt.alloc(), text.as_slice())?.as_slice().len(),
        70_009
    );
    Ok(())
}

/// Reads lines, once more where that was refused memory. An allocation is refused only where that is asked for:
/// `rt try --test --fail-alloc N`.
#[test]
fn lines_that_were_refused_memory_are_read_later(rt: HostRuntime) -> Result<(), Fail> {
    let text = b"hold 1\nget 0 a\nscan 0\nscan 0 b\nrelease 0\npurge\n";
    let lines = match read_view(rt.alloc(), text) {
        Err(ViewFault::NoMemory) => read_view(rt.alloc(), text),
        lines => lines,
    };
    assert_eq!(rt; lines.map(|lines| lines.len()), Ok(6));
    Ok(())
}
