use crate::{RunEnd, Said, put_reply, put_run_end};
use std::alloc::Global;
use std::process::Abort;
use wal_base::{Blob, Buf};

fn blob(rt: &impl Abort, alloc: Global, bytes: &[u8]) -> Blob {
    Blob::copy_of(alloc, bytes).expect(rt, "memory")
}

/// Asserts the line of a reply.
fn check_line(rt: &impl Abort, alloc: Global, session: u32, said: Said, line: &[u8]) {
    let mut out = Buf::new(alloc).expect(rt, "memory");
    put_reply(&mut out, session, &said).expect(rt, "memory");
    assert!(rt; out.as_slice() == line);
}

/// The reply to a commit from number 10 on.
fn numbered(count: u32, synced: bool) -> Said {
    Said::Committed {
        first: 10,
        count,
        synced,
    }
}

#[test]
fn each_reply_to_a_commit_has_its_line(rt: HostRuntime) {
    let alloc = rt.alloc();
    let unsynced = Said::Unsynced {
        first: 12,
        count: 1,
    };
    check_line(&rt, alloc, 1, unsynced, b"s1 commit 12 1 unsynced\n");
    check_line(&rt, alloc, 0, numbered(1, false), b"s0 commit 10 1\n");
    check_line(
        &rt,
        alloc,
        63,
        numbered(2, true),
        b"s63 commit 10 2 synced\n",
    );
    check_line(&rt, alloc, 1, Said::Dead, b"s1 commit dead\n");
    check_line(&rt, alloc, 2, Said::Limit, b"s2 commit limit\n");
}

#[test]
fn each_reply_to_a_read_has_its_line(rt: HostRuntime) {
    let alloc = rt.alloc();
    let value = Said::Got {
        key: blob(&rt, alloc, b"a b"),
        value: Some(blob(&rt, alloc, b"")),
        visible: 13,
    };
    check_line(&rt, alloc, 0, value, b"s0 get a\\x20b = \\e @13\n");
    let none = Said::Got {
        key: blob(&rt, alloc, b"acct/3"),
        value: None,
        visible: 72_057_594_037_927_935,
    };
    check_line(
        &rt,
        alloc,
        0,
        none,
        b"s0 get acct/3 none @72057594037927935\n",
    );
}

/// Asserts the line of a run that ended so.
fn check_end(rt: &impl Abort, alloc: Global, died: bool, halted: bool, line: &[u8]) {
    let end = RunEnd {
        visible: 13,
        batches: 2,
        acked: 1,
        segments: 3,
        died,
        halted,
    };
    let mut out = Buf::new(alloc).expect(rt, "memory");
    put_run_end(&mut out, &end).expect(rt, "memory");
    assert!(rt; out.as_slice() == line);
}

#[test]
fn the_end_of_a_run_has_its_line(rt: HostRuntime) {
    let alloc = rt.alloc();
    let closed = b"end visible 13 batches 2 acked 1 segments 3 closed\n";
    let halted = b"end visible 13 batches 2 acked 1 segments 3 halted\n";
    let dead = b"end visible 13 batches 2 acked 1 segments 3 dead\n";
    check_end(&rt, alloc, false, false, closed);
    check_end(&rt, alloc, false, true, halted);
    check_end(&rt, alloc, true, false, dead);
    check_end(&rt, alloc, true, true, dead);
}

/// Adds a reply many times, and looks each time at what it added. An allocation is refused only where that is asked for:
/// `rt try --test --fail-alloc N`.
#[test]
fn a_reply_is_added_whole_or_not_at_all(rt: HostRuntime) {
    let Ok(mut out) = Buf::new(rt.alloc()) else {
        return;
    };
    for _ in 0..64 {
        let before = out.as_slice().len();
        let added: &[u8] = match put_reply(&mut out, 7, &Said::Limit) {
            Ok(()) => b"s7 commit limit\n",
            Err(_) => b"",
        };
        assert_eq!(rt; out.as_slice().get(before..), Some(added));
    }
}
