use super::{Rig, check_command, log_at, rig_of, segment_of, tail_of, told_of};
use crate::Status;
use mem_disk::MemDisk;
use std::alloc::Global;
use std::process::Abort;
use std::sync::Wait;
use std::test::Fail;
use std::thread::Threads;
use wal_base::NoMemory;

/// A script of two batches.
const TRANSFER: &[u8] = b"commit 0 sync set acct/1 90 ; set acct/2 110 ; note t7\n\
    commit 0 nosync del acct/1\n";

/// The stream of those batches: the magic, a frame for each, and the end mark.
const STREAM: &[u8] = b"PBWSHIP1\
    \x27\x00\x00\x00\x6c\xd0\xfd\xa9\
    \x0a\x00\x00\x00\x00\x00\x00\x00\x02\x00\x00\x00\
    \x01\x06acct/1\x0290\x01\x06acct/2\x03110\x03\x02t7\
    \x14\x00\x00\x00\x1c\x17\xad\xa5\
    \x0c\x00\x00\x00\x00\x00\x00\x00\x01\x00\x00\x00\
    \x00\x06acct/1\
    \x00\x00\x00\x00\xd8\xea\x82\xa2";

/// The stream of no batch.
const NOTHING: &[u8] = b"PBWSHIP1\x00\x00\x00\x00\xd8\xea\x82\xa2";

/// The directories that the script leaves.
fn transferred<R: Threads + Wait + Sync + Abort>(rt: &R, alloc: Global) -> Result<Rig, NoMemory> {
    let told = told_of(rt, alloc, Rig::new(alloc)?, &["replay"], TRANSFER)?;
    Ok(Rig::after_crash(rt, alloc, told.disk))
}

/// Asserts that the store is written as this stream. Answers the disk.
fn check_stream<R: Threads + Wait + Sync + Abort>(
    rt: &R,
    alloc: Global,
    rig: Rig,
    stream: &[u8],
) -> Result<MemDisk, Fail> {
    let told = told_of(rt, alloc, rig, &["ship"], b"not read")?;
    assert_eq!(rt; told.status, Status::Done);
    assert!(rt; told.sink.written() == stream);
    Ok(told.disk)
}

/// Asserts what is said in place of a stream. Answers the disk.
fn check_no_stream<R: Threads + Wait + Sync + Abort>(
    rt: &R,
    alloc: Global,
    rig: Rig,
    status: Status,
    text: &str,
) -> Result<MemDisk, Fail> {
    check_command(rt, alloc, rig, &["ship"], b"", status, text)
}

#[test]
fn a_store_is_written_as_a_stream(rt: HostRuntime) -> Result<(), Fail> {
    let alloc = rt.alloc();
    let disk = check_stream(&rt, alloc, transferred(&rt, alloc)?, STREAM)?;
    let store = "acct/2 = 110\nend batches 2 next 13\n";
    let rig = Rig::after_crash(&rt, alloc, disk);
    check_command(&rt, alloc, rig, &["recover"], b"", Status::Done, store)?;
    check_stream(&rt, alloc, Rig::new(alloc)?, NOTHING)?;
    Ok(())
}

/// What stands torn behind the log is in no stream.
#[test]
fn a_torn_tail_is_in_no_stream(rt: HostRuntime) -> Result<(), Fail> {
    let alloc = rt.alloc();
    let told = told_of(&rt, alloc, Rig::new(alloc)?, &["replay"], TRANSFER)?;
    let rig = Rig::after(&rt, told.disk, &tail_of(alloc, b"\x07\xbf\xcb")?);
    check_stream(&rt, alloc, rig, STREAM)?;
    Ok(())
}

/// The batches of a table are no log, whatever stands above it.
#[test]
fn a_table_is_refused(rt: HostRuntime) -> Result<(), Fail> {
    let alloc = rt.alloc();
    let rig = transferred(&rt, alloc)?;
    let text = "flush keys 1 next 13 upto 1 dropped 1\n";
    let disk = check_command(&rt, alloc, rig, &["flush"], b"", Status::Done, text)?;
    let rig = Rig::after_crash(&rt, alloc, disk);
    let text = "refused table\n";
    let disk = check_no_stream(&rt, alloc, rig, Status::Refused, text)?;
    let told = told_of(
        &rt,
        alloc,
        Rig::after_crash(&rt, alloc, disk),
        &["replay"],
        b"commit 0 sync set b 1\n",
    )?;
    assert_eq!(rt; told.status, Status::Done);
    let rig = Rig::after_crash(&rt, alloc, told.disk);
    check_no_stream(&rt, alloc, rig, Status::Refused, text)?;
    Ok(())
}

#[test]
fn directories_that_do_not_recover_are_not_written(rt: HostRuntime) -> Result<(), Fail> {
    let alloc = rt.alloc();
    let first = segment_of(alloc, 1, &[(10, b'1'), (11, b'2'), (12, b'3')])?;
    let second = segment_of(alloc, 1, &[(15, b'6')])?;
    let rig = rig_of(&rt, alloc, first.as_slice(), Some(second.as_slice()))?;
    let text = "refused gap 000001-001.log expected 13 found 15\n";
    let disk = check_no_stream(&rt, alloc, rig, Status::Refused, text)?;
    assert!(rt; log_at(&disk, 1) == Some(first.as_slice()));
    let mut rig = Rig::new(alloc)?;
    rig.fail_call(&rt, 0);
    check_no_stream(&rt, alloc, rig, Status::Disk, "disk fault primary\n")?;
    Ok(())
}

#[test]
fn ship_takes_no_other_word(rt: HostRuntime) -> Result<(), Fail> {
    let alloc = rt.alloc();
    let told = told_of(&rt, alloc, Rig::new(alloc)?, &["ship", "x"], b"")?;
    assert_eq!(rt; told.status, Status::Usage);
    Ok(())
}
