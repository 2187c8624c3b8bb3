use super::{Rig, check_command, check_log, ran_over, told_of};
use crate::{Gate, GatePoint, NoGate, Status};
use disk_face::{SegName, Side};
use std::alloc::{AllocError, Global};
use std::process::Abort;
use std::sync::Wait;
use std::test::Fail;
use std::thread::Threads;
use wal_base::{Blob, MemSink, MemSource, NoMemory, PutErr, ReadFault, Sink, Source};

const USAGE: &[u8] =
    b"usage: replay [--threshold N] | recover | dump | load SEED COUNT | flush | view | ship\n";

/// So many bytes of one comment.
fn comment_of(alloc: Global, len: usize) -> Result<Vec<u8>, AllocError> {
    vec![in alloc; b'#'; len]
}

#[test]
fn a_script_ends_at_its_greatest_length(rt: HostRuntime) -> Result<(), Fail> {
    for (len, status, text) in [
        (
            8_388_608,
            Status::Done,
            "end visible 10 batches 0 acked 0 segments 0 closed\n",
        ),
        (8_388_609, Status::Script, "script too long\n"),
    ] {
        let script = comment_of(rt.alloc(), len)?;
        let rig = Rig::new(rt.alloc())?;
        check_command(&rt, rt.alloc(), rig, &["replay"], &script, status, text)?;
    }
    Ok(())
}

#[test]
fn other_words_are_no_command(rt: HostRuntime) -> Result<(), Fail> {
    let alloc = rt.alloc();
    for words in [
        &["replay", "--threshold", "0"][..],
        &["replay", "replay"][..],
        &["recover", "dump"][..],
        &["load", "7"][..],
        &["--help"][..],
        &[][..],
    ] {
        let told = told_of(&rt, alloc, Rig::new(alloc)?, words, b"get 0 a")?;
        assert_eq!(rt; told.status, Status::Usage);
        assert!(rt; told.sink.written() == USAGE);
    }
    Ok(())
}

/// A stream that moves three bytes at a time.
#[derive(Drop)]
struct Drip<T>(T);

impl<S: Source> Source for Drip<S> {
    ghost left = { λ d. S.left d.0 };

    ghost faults = { λ d. S.faults d.0 };

    fn take(&mut self, buf: &mut [u8]) -> Result<usize, ReadFault> {
        let count = buf.len().min(3);
        self.0.take(&mut buf[..count])
    }
}

impl<K: Sink> Sink for Drip<K> {
    ghost written = { λ d. K.written d.0 };

    ghost faults = { λ d. K.faults d.0 };

    ghost shortages = { λ d. K.shortages d.0 };

    fn put(&mut self, bytes: &[u8]) -> Result<usize, PutErr> {
        let count = bytes.len().min(3);
        self.0.put(&bytes[..count])
    }
}

/// A source of this text, whose call of that number fails.
fn failing_source(alloc: Global, text: &[u8], take: u64) -> Result<Drip<MemSource>, NoMemory> {
    let mut source = Drip(MemSource::new(Blob::copy_of(alloc, text)?));
    source.0.fail_at(take);
    Ok(source)
}

/// A sink whose call of that number fails.
fn failing_sink(alloc: Global, put: u64) -> Result<Drip<MemSink>, NoMemory> {
    let mut sink = Drip(MemSink::new(alloc)?);
    sink.0.fail_at(put);
    Ok(sink)
}

/// Asserts how a run ends where these calls of the source and of the sink fail, and what is written then.
fn check_streams<R: Threads + Wait + Sync + Abort>(
    rt: &R,
    alloc: Global,
    take: u64,
    put: u64,
    status: Status,
    written: &[u8],
) -> Result<(), Fail> {
    let script = b"commit 0 nosync set a 1\nget 0 a\n";
    let mut source = failing_source(alloc, script, take)?;
    let mut sink = failing_sink(alloc, put)?;
    let rig = Rig::new(alloc)?;
    let (ended, _) = ran_over(rt, alloc, &["replay"], &mut source, &mut sink, rig)?;
    assert_eq!(rt; ended, status, "at {take} and {put}");
    assert_eq!(rt; sink.0.written(), written, "at {take} and {put}");
    Ok(())
}

#[test]
fn a_failing_stream_ends_the_run(rt: HostRuntime) -> Result<(), Fail> {
    let alloc = rt.alloc();
    let whole =
        b"s0 commit 10 1\ns0 get a = 1 @11\nend visible 11 batches 1 acked 1 segments 1 closed\n";
    let fault = b"read fault\n";
    check_streams(&rt, alloc, 0, 1_000, Status::Read, fault)?;
    check_streams(&rt, alloc, 10, 1_000, Status::Read, fault)?;
    check_streams(&rt, alloc, 1_000, 0, Status::Write, b"")?;
    check_streams(&rt, alloc, 1_000, 5, Status::Write, &whole[..15])?;
    check_streams(&rt, alloc, 0, 1, Status::Write, &fault[..3])?;
    check_streams(&rt, alloc, 1_000, 1_000, Status::Done, whole)
}

#[test]
fn a_failing_directory_ends_the_run(rt: HostRuntime) -> Result<(), Fail> {
    let script = b"commit 0 nosync set a 1\n";
    let alloc = rt.alloc();
    for (number, text) in [(0, "disk fault primary\n"), (1, "disk fault secondary\n")] {
        let mut rig = Rig::new(alloc)?;
        rig.fail_call(&rt, number);
        check_log(&rt, alloc, rig, script, Status::Disk, text, None)?;
    }
    Ok(())
}

#[test]
fn limits_are_told(rt: HostRuntime) -> Result<(), Fail> {
    let alloc = rt.alloc();
    let last = SegName {
        wal: 999_999_999_999,
        index: 0,
    };
    let mut rig = Rig::new(alloc)?;
    rig.put(&rt, Side::Primary, last, b"");
    let text = "limit wal\n";
    let disk = check_command(&rt, alloc, rig, &["replay"], b"", Status::Limit, text)?;
    let rig = Rig::after_crash(&rt, alloc, disk);
    let text = "end batches 0 next 10\n";
    check_command(&rt, alloc, rig, &["recover"], b"", Status::Done, text)?;
    Ok(())
}

fn pass<G: Gate>(gate: &G) {
    gate.pass(0, GatePoint::Numbered);
}

#[test]
fn statuses_have_their_numbers(rt: HostRuntime) {
    pass(&NoGate);
    for (code, status) in [
        Status::Done,
        Status::Usage,
        Status::Script,
        Status::Read,
        Status::Write,
        Status::Disk,
        Status::Refused,
        Status::NoMemory,
        Status::Limit,
    ]
    .into_iter()
    .enumerate()
    {
        assert_eq!(rt; usize::from(status.code()), code);
    }
}
