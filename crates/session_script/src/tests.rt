use crate::{ScriptFault, read_script};
use disk_face::Side;
use session_replies::{Act, Line, Script};
use std::alloc::Global;
use std::process::Abort;
use std::test::Fail;
use wal_base::{Buf, Entry, NoMemory};

/// The script that a text is.
fn script_of(rt: &impl Abort, alloc: Global, text: &[u8]) -> Result<Script, NoMemory> {
    match read_script(alloc, text) {
        Ok(script) => Ok(script),
        Err(ScriptFault::NoMemory) => Err(NoMemory),
        Err(ScriptFault::BadLine { line }) => panic!(rt; "line {line} is bad"),
    }
}

/// Adds a number and a space.
fn put_number(out: &mut Buf, number: u32) -> Result<(), NoMemory> {
    out.append(itoa::Buffer::new().format(number).as_bytes())?;
    out.append(b" ")
}

/// Adds each part and a comma.
fn put_parts(out: &mut Buf, parts: &[&[u8]]) -> Result<(), NoMemory> {
    for part in parts {
        out.append(part)?;
        out.append(b",")?;
    }
    Ok(())
}

/// Adds what a session is to do.
fn put_line(out: &mut Buf, alloc: Global, line: Line) -> Result<(), NoMemory> {
    put_number(out, line.session)?;
    match line.act {
        Act::Commit { sync, batch } => {
            out.append(if sync { b"sync " } else { b"free " })?;
            let batch = batch.write(alloc)?;
            for entry in batch.entries().as_slice() {
                match entry {
                    Entry::Set { key, value } => {
                        put_parts(out, &[b"set", key.as_slice(), value.as_slice()])?;
                    }
                    Entry::Delete { key } => put_parts(out, &[b"del", key.as_slice()])?,
                    Entry::Note { bytes } => put_parts(out, &[b"note", bytes.as_slice()])?,
                    Entry::RangeDelete { start, end } => {
                        put_parts(out, &[b"rdel", start.as_slice(), end.as_slice()])?
                    }
                }
            }
        }
        Act::Get { key } => put_parts(out, &[b"get", key.as_slice()])?,
    }
    out.append(b"\n")
}

/// What a script is, as a text of another form than its own.
fn shown(alloc: Global, script: Script) -> Result<Buf, NoMemory> {
    let mut out = Buf::new(alloc)?;
    for round in script.rounds.into_vec() {
        out.append(b"[\n")?;
        for stall in round.stalls.as_slice() {
            put_number(&mut out, stall.polls)?;
            out.append(match stall.side {
                Side::Primary => b"of primary\n".as_slice(),
                Side::Secondary => b"of secondary\n".as_slice(),
            })?;
        }
        for line in round.lines.into_vec() {
            put_line(&mut out, alloc, line)?;
        }
        out.append(b"]\n")?;
    }
    if script.halted {
        out.append(b"halted, ")?;
    }
    put_number(&mut out, script.sessions)?;
    Ok(out)
}

#[test]
fn each_kind_of_line_is_read(rt: HostRuntime) -> Result<(), Fail> {
    let text = b"# all of them\n\
        stall p 1\n\
        commit 63 sync set a 1 ; del b ; rdel c b ; note t\n\
        stall s 100000\n\
        \n\
        get 5 k\n\
        round\n\
        #\n\
        commit\t0 nosync\tdel ~!\t; set b acct/1\n\
        halt\n\
        \n\
        # nothing more";
    let script = script_of(&rt, rt.alloc(), text)?;
    let expected = b"[\n\
        1 of primary\n\
        100000 of secondary\n\
        63 sync set,a,1,del,b,rdel,c,b,note,t,\n\
        5 get,k,\n\
        ]\n\
        [\n\
        0 free del,~!,set,b,acct/1,\n\
        ]\n\
        halted, 64 ";
    assert!(rt; shown(rt.alloc(), script)?.as_slice() == expected.as_slice());
    Ok(())
}

/// Asserts that this line of a text is the first bad one.
fn check_bad(rt: &impl Abort, alloc: Global, text: &[u8], number: u64) {
    let bad = Err(ScriptFault::BadLine { line: number });
    assert!(rt; read_script(alloc, text).map(|_| ()) == bad);
}

#[test]
fn the_first_bad_line_is_told(rt: HostRuntime) {
    let alloc = rt.alloc();
    check_bad(&rt, alloc, b"get 0  a", 1);
    check_bad(
        &rt,
        alloc,
        b"get 0 a\ncommit 64 sync set a 1\nalso bad\n",
        2,
    );
    check_bad(&rt, alloc, b"\n# one\ncommit 0 sync note x", 3);
    check_bad(&rt, alloc, b"halt\n\n# more\nround\n", 4);
}

/// A text, and so many bytes of one word behind it.
fn with_word(alloc: Global, before: &[u8], len: usize) -> Result<Buf, NoMemory> {
    let word = vec![in alloc; b'x'; len]?;
    let mut text = Buf::new(alloc)?;
    text.append(before)?;
    text.append(&word)?;
    Ok(text)
}

/// Asserts that the word behind a text has so many bytes at most.
fn check_limit(rt: &impl Abort, alloc: Global, before: &[u8], most: usize) -> Result<(), Fail> {
    let longest = with_word(alloc, before, most)?;
    assert!(rt; read_script(alloc, longest.as_slice()).is_ok());
    let longer = with_word(alloc, before, most.wrapping_add(1))?;
    check_bad(rt, alloc, longer.as_slice(), 1);
    Ok(())
}

#[test]
fn keys_and_values_have_their_limits(rt: HostRuntime) -> Result<(), Fail> {
    check_limit(&rt, rt.alloc(), b"get 0 ", 65_535)?;
    check_limit(&rt, rt.alloc(), b"commit 0 sync set a ", 1_048_576)
}
