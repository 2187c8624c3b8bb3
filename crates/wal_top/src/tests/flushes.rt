use super::{Rig, check_command, log_at, rig_of, segment_of, tail_of, told_of};
use crate::Status;
use std::alloc::Global;
use std::process::Abort;
use std::sync::Wait;
use std::test::Fail;
use std::thread::Threads;
use wal_base::NoMemory;

/// A script of two batches, after which one key has a value.
const TRANSFER: &[u8] = b"# transfer\n\
    commit 0 sync set acct/1 90 ; set acct/2 110 ; note t7\n\
    get 0 acct/1\n\
    commit 0 nosync del acct/1\n\
    get 0 acct/1\n\
    get 0 acct/3\n";

/// The directories that the script leaves.
fn transferred<R: Threads + Wait + Sync + Abort>(rt: &R, alloc: Global) -> Result<Rig, NoMemory> {
    let told = told_of(rt, alloc, Rig::new(alloc)?, &["replay"], TRANSFER)?;
    Ok(Rig::after_crash(rt, alloc, told.disk))
}

/// Asserts what a flush writes, its status, and the store that a crash leaves then. Answers the disk.
fn check_flush<R: Threads + Wait + Sync + Abort>(
    rt: &R,
    alloc: Global,
    rig: Rig,
    status: Status,
    text: &str,
    store: &str,
) -> Result<Rig, Fail> {
    check_flush_then(rt, alloc, rig, status, text, b"", store)
}

/// The same of a crash that leaves these bytes behind what is stable of the first log.
fn check_flush_then<R: Threads + Wait + Sync + Abort>(
    rt: &R,
    alloc: Global,
    rig: Rig,
    status: Status,
    text: &str,
    tail: &[u8],
    store: &str,
) -> Result<Rig, Fail> {
    let disk = check_command(rt, alloc, rig, &["flush"], b"", status, text)?;
    let rig = Rig::after(rt, disk, &tail_of(alloc, tail)?);
    let disk = check_command(rt, alloc, rig, &["recover"], b"", Status::Done, store)?;
    Ok(Rig::after_crash(rt, alloc, disk))
}

/// What a flush of those directories writes.
const FLUSHED: &str = "flush keys 1 next 13 upto 1 dropped 1\n";

/// The store before, and once a table stands for its two batches.
const TWO_BATCHES: &str = "acct/2 = 110\nend batches 2 next 13\n";

const ONE_BATCH: &str = "acct/2 = 110\nend batches 1 next 13\n";

#[test]
fn a_store_is_flushed_once_and_gone_on_from(rt: HostRuntime) -> Result<(), Fail> {
    let alloc = rt.alloc();
    let rig = transferred(&rt, alloc)?;
    let rig = check_flush(&rt, alloc, rig, Status::Done, FLUSHED, ONE_BATCH)?;
    assert!(rt; log_at(&rig.disk, 1).is_none());
    let text = "flush nothing\n";
    let rig = check_flush(&rt, alloc, rig, Status::Done, text, ONE_BATCH)?;
    let script = b"commit 0 sync set b 1\n";
    let text = "s0 commit 13 1 synced\nend visible 14 batches 1 acked 1 segments 1 closed\n";
    let disk = check_command(&rt, alloc, rig, &["replay"], script, Status::Done, text)?;
    assert_eq!(rt; log_at(&disk, 2).map(|log| log.len()), Some(36));
    Ok(())
}

/// Nothing, a byte, and the front of a chunk's header.
const TAILS: [&[u8]; 3] = [b"", b"x", &[0x07, 0xbf, 0xcb, 0xde, 0x11, 0x00, 0x09]];

/// The calls on tables of such a flush list them, put one, and remove the segment. A later flush goes on, whatever
/// a crash left behind the log.
#[test]
fn a_failing_call_ends_a_flush(rt: HostRuntime) -> Result<(), Fail> {
    let alloc = rt.alloc();
    for (call, store) in [(0, TWO_BATCHES), (1, TWO_BATCHES), (2, ONE_BATCH)] {
        for tail in TAILS {
            let mut rig = transferred(&rt, alloc)?;
            rig.fail_table_call(&rt, call);
            let text = "disk fault primary\n";
            let rig = check_flush_then(&rt, alloc, rig, Status::Disk, text, tail, store)?;
            check_flush(&rt, alloc, rig, Status::Done, FLUSHED, ONE_BATCH)?;
        }
    }
    Ok(())
}

#[test]
fn segments_of_both_sides_are_flushed(rt: HostRuntime) -> Result<(), Fail> {
    let alloc = rt.alloc();
    let first = segment_of(alloc, 1, &[(10, b'1'), (11, b'2')])?;
    let second = segment_of(alloc, 1, &[(11, b'2'), (12, b'3')])?;
    let rig = rig_of(&rt, alloc, first.as_slice(), Some(second.as_slice()))?;
    let text = "flush keys 1 next 13 upto 1 dropped 2\n";
    let store = "a = 3\nend batches 1 next 13\n";
    check_flush(&rt, alloc, rig, Status::Done, text, store)?;
    let rig = Rig::new(alloc)?;
    let store = "end batches 0 next 10\n";
    check_flush(&rt, alloc, rig, Status::Done, "flush nothing\n", store)?;
    Ok(())
}

#[test]
fn refused_directories_are_not_flushed(rt: HostRuntime) -> Result<(), Fail> {
    let alloc = rt.alloc();
    let first = segment_of(alloc, 1, &[(10, b'1'), (11, b'2'), (12, b'3')])?;
    let second = segment_of(alloc, 1, &[(15, b'6')])?;
    let rig = rig_of(&rt, alloc, first.as_slice(), Some(second.as_slice()))?;
    let text = "refused gap 000001-001.log expected 13 found 15\n";
    let disk = check_command(&rt, alloc, rig, &["flush"], b"", Status::Refused, text)?;
    assert!(rt; log_at(&disk, 1) == Some(first.as_slice()));
    let rig = Rig::after_crash(&rt, alloc, disk);
    check_command(&rt, alloc, rig, &["recover"], b"", Status::Refused, text)?;
    Ok(())
}
