use super::{Rig, check_command, log_at, ran_over, rig_of, segment_of, told_of};
use crate::Status;
use mem_disk::MemDisk;
use std::alloc::{AllocError, Global};
use std::process::Abort;
use std::sync::Wait;
use std::test::Fail;
use std::thread::Threads;
use wal_base::{Blob, MemSink, MemSource, NoMemory};

/// A script of two batches, after which one key has a value.
const TRANSFER: &[u8] = b"commit 0 sync set acct/1 90 ; set acct/2 110 ; note t7\n\
    commit 0 nosync del acct/1\n";

/// The directories that the script leaves.
fn transferred<R: Threads + Wait + Sync + Abort>(rt: &R, alloc: Global) -> Result<Rig, NoMemory> {
    let told = told_of(rt, alloc, Rig::new(alloc)?, &["replay"], TRANSFER)?;
    Ok(Rig::after_crash(rt, alloc, told.disk))
}

/// Asserts what a view of these lines writes, and its status. Answers the disk.
fn check_view<R: Threads + Wait + Sync + Abort>(
    rt: &R,
    alloc: Global,
    rig: Rig,
    lines: &[u8],
    status: Status,
    text: &str,
) -> Result<MemDisk, Fail> {
    check_command(rt, alloc, rig, &["view"], lines, status, text)
}

const ASKED: &[u8] = b"hold 12\nhold 13\nget 0 acct/1\nget 1 acct/1\nscan 0\npurge\nrelease 0\n\
    purge\nhold 12\nget 0 acct/1\n";

const TOLD: &str = "hold 0 @12\nhold 1 @13\nget acct/1 = 90 @12\nget acct/1 none @13\n\
    acct/1 = 90\nacct/2 = 110\nend scan 2 @12\npurge 0\nrelease 0\npurge 1\nhold gone 13\n\
    not held\n";

#[test]
fn a_held_number_outlasts_a_purge(rt: HostRuntime) -> Result<(), Fail> {
    let alloc = rt.alloc();
    let disk = check_view(
        &rt,
        alloc,
        transferred(&rt, alloc)?,
        ASKED,
        Status::Done,
        TOLD,
    )?;
    let store = "acct/2 = 110\nend batches 2 next 13\n";
    let rig = Rig::after_crash(&rt, alloc, disk);
    check_command(&rt, alloc, rig, &["recover"], b"", Status::Done, store)?;
    Ok(())
}

#[test]
fn empty_directories_have_one_number(rt: HostRuntime) -> Result<(), Fail> {
    let alloc = rt.alloc();
    for (lines, text) in [
        (&b"hold 11"[..], "hold above 10\n"),
        (&b"hold 9"[..], "hold gone 10\n"),
        (&b"hold 10\nscan 0\n"[..], "hold 0 @10\nend scan 0 @10\n"),
        (&b""[..], ""),
    ] {
        check_view(&rt, alloc, Rig::new(alloc)?, lines, Status::Done, text)?;
    }
    Ok(())
}

/// Below the `next` of the used table nothing is held.
#[test]
fn a_table_is_the_floor(rt: HostRuntime) -> Result<(), Fail> {
    let alloc = rt.alloc();
    let text = "flush keys 1 next 13 upto 1 dropped 1\n";
    let rig = transferred(&rt, alloc)?;
    let disk = check_command(&rt, alloc, rig, &["flush"], b"", Status::Done, text)?;
    let rig = Rig::after_crash(&rt, alloc, disk);
    let lines = b"hold 12\nhold 13\nscan 0\nscan 1 acct/1\nhold 14\n";
    let text = "hold gone 13\nhold 1 @13\nnot held\nacct/2 = 110\nend scan 1 @13\nhold above 13\n";
    check_view(&rt, alloc, rig, lines, Status::Done, text)?;
    Ok(())
}

/// The first line that is not accepted is told before the disk is touched.
#[test]
fn a_bad_line_is_told_first(rt: HostRuntime) -> Result<(), Fail> {
    let alloc = rt.alloc();
    for (lines, text) in [
        (&b"\n"[..], "view line 1\n"),
        (&b"# one"[..], "view line 1\n"),
        (&b"hold 012"[..], "view line 1\n"),
        (&b"purge\n\npurge\n"[..], "view line 2\n"),
        (&b"purge\npurge\nget 0\nhold\n"[..], "view line 3\n"),
    ] {
        let mut rig = Rig::new(alloc)?;
        rig.fail_call(&rt, 0);
        check_view(&rt, alloc, rig, lines, Status::Script, text)?;
    }
    Ok(())
}

/// So many bytes of one word, which asks for nothing.
fn long_lines(alloc: Global, len: usize) -> Result<Vec<u8>, AllocError> {
    vec![in alloc; b'p'; len]
}

#[test]
fn too_many_bytes_are_told_before_a_bad_line(rt: HostRuntime) -> Result<(), Fail> {
    let alloc = rt.alloc();
    for (len, text) in [(8_388_608, "view line 1\n"), (8_388_609, "view too long\n")] {
        let lines = long_lines(alloc, len)?;
        check_view(&rt, alloc, Rig::new(alloc)?, &lines, Status::Script, text)?;
    }
    Ok(())
}

#[test]
fn refused_directories_are_not_viewed(rt: HostRuntime) -> Result<(), Fail> {
    let alloc = rt.alloc();
    let first = segment_of(alloc, 1, &[(10, b'1'), (11, b'2'), (12, b'3')])?;
    let second = segment_of(alloc, 1, &[(15, b'6')])?;
    let rig = rig_of(&rt, alloc, first.as_slice(), Some(second.as_slice()))?;
    let text = "refused gap 000001-001.log expected 13 found 15\n";
    let disk = check_view(&rt, alloc, rig, b"hold 10\n", Status::Refused, text)?;
    assert!(rt; log_at(&disk, 1) == Some(first.as_slice()));
    let mut rig = Rig::new(alloc)?;
    rig.fail_call(&rt, 0);
    check_view(
        &rt,
        alloc,
        rig,
        b"purge\n",
        Status::Disk,
        "disk fault primary\n",
    )?;
    Ok(())
}

#[test]
fn a_failing_source_is_told(rt: HostRuntime) -> Result<(), Fail> {
    let alloc = rt.alloc();
    let mut source = MemSource::new(Blob::copy_of(alloc, b"purge\n")?);
    source.fail_at(0);
    let mut sink = MemSink::new(alloc)?;
    let rig = Rig::new(alloc)?;
    let (ended, _) = ran_over(&rt, alloc, &["view"], &mut source, &mut sink, rig)?;
    assert_eq!(rt; ended, Status::Read);
    assert_eq!(rt; sink.written(), b"read fault\n".as_slice());
    Ok(())
}
