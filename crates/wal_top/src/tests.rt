ghost use Rattle.std.specs.Prelude.{◌≤◌, length};
ghost use Rattle.disk_face.specs.declared.names.TheConstants.{WAL_MAX};

mod commands;
mod deaths;
mod faults;
mod flushes;
mod gates;
mod halts;
mod orders;
mod recovery;
mod replays;
mod scripts;
mod ships;
mod shortages;
mod stalls;
mod statuses;
mod tables;
mod views;

use crate::{NoGate, Ran, Status, run};
use crc_chunk::{ChunkKind, put_chunk, put_sync_chunk};
use disk_face::{Disk, SegName, Side, StallDisk};
use mem_disk::{CrashPick, FilePick, FilePicks, MemDisk};
use std::alloc::{AllocError, Global};
use std::marker::Model;
use std::process::Abort;
use std::sync::Wait;
use std::test::Fail;
use std::thread::Threads;
use wal_base::{Blob, Buf, MemSink, MemSource, NoMemory, Sink, Source};

fn words_of(alloc: Global, words: &[&str]) -> Result<Vec<String>, AllocError> {
    let mut owned = Vec::new(alloc);
    for word in words {
        owned.push(String::from_str(alloc, word)?)?;
    }
    Ok(owned)
}

/// A disk on which nothing is in flight.
#[derive(Drop)]
struct Rig {
    disk: MemDisk,
}

impl Model for Rig {
    ghost use Rattle.disk_face.specs.View.{NothingInFlight};
    ghost use Rattle.mem_disk.specs.declared.memory.MemDisk.{MemDisk};

    ghost Value = { MemDisk };

    ghost view = { λ rig. rig.disk };

    ghost invariant = { λ rig. NothingInFlight (⟦<MemDisk as Disk>⟧.view rig.disk) };
}

impl Rig {
    fn new(alloc: Global) -> Result<Rig, NoMemory> {
        let disk = MemDisk::new(alloc)?;
        Ok(Rig { disk })
    }

    /// Puts a segment, where there is none of that name.
    fn put(&mut self, rt: &impl Abort, side: Side, name: SegName, bytes: &[u8]) {
        assert!(rt; self.disk.sent(side, name).is_none());
        self.disk.put_file(side, name, bytes).expect(rt, "memory");
    }

    /// Puts a table.
    fn put_table(&mut self, rt: &impl Abort, upto: u64, bytes: &[u8])
        requires { upto ≤ WAL_MAX }
    {
        self.disk.place_table(upto, bytes).expect(rt, "memory");
    }

    fn fail_table_call(&mut self, rt: &impl Abort, number: u64) {
        self.disk.fail_table_call(number).expect(rt, "memory");
    }

    fn fail_call(&mut self, rt: &impl Abort, number: u64) {
        self.disk.fail_call(number).expect(rt, "memory");
    }

    fn fail_op(&mut self, rt: &impl Abort, number: u64) {
        self.disk.fail_op(number).expect(rt, "memory");
    }

    /// So many more polls of a side are answered pending.
    fn stall(&mut self, side: Side, polls: u32) {
        self.disk.stall(side, polls);
    }

    /// The disk after a crash that leaves what the pick names.
    fn after(rt: &impl Abort, disk: MemDisk, pick: &CrashPick) -> Rig {
        let disk = disk.crash(pick).expect(rt, "memory");
        Rig { disk }
    }

    /// The disk after a crash that leaves no more than what is stable.
    fn after_crash(rt: &impl Abort, alloc: Global, disk: MemDisk) -> Rig {
        let files = FilePicks::new(alloc);
        Rig::after(rt, disk, &CrashPick { files })
    }
}

/// What a crash leaves where the stable bytes of the log of WAL 1 are followed by this tail.
fn tail_of(alloc: Global, tail: &[u8]) -> Result<CrashPick, NoMemory> {
    let pick = FilePick {
        side: Side::Primary,
        name: SegName { wal: 1, index: 0 },
        tail: Some(Blob::copy_of(alloc, tail)?),
    };
    let mut files = FilePicks::new(alloc);
    match files.push(pick) {
        Ok(()) => Ok(CrashPick { files }),
        Err(_) => Err(NoMemory),
    }
}

/// What a segment of WAL 1 has, which stands on the primary side where its index is even.
fn segment_at(disk: &MemDisk, index: u32) -> Option<&[u8]> {
    let side = if index % 2 == 0 {
        Side::Primary
    } else {
        Side::Secondary
    };
    disk.content(side, SegName { wal: 1, index })
}

/// What the first segment of a WAL has.
fn log_at(disk: &MemDisk, wal: u64) -> Option<&[u8]> {
    disk.content(Side::Primary, SegName { wal, index: 0 })
}

/// The end of a run over these streams and this disk.
fn ran_over<S: Source, K: Sink, R: Threads + Wait + Sync>(
    rt: &R,
    alloc: Global,
    words: &[&str],
    source: &mut S,
    sink: &mut K,
    rig: Rig,
) -> Result<(Status, MemDisk), AllocError> {
    let words = words_of(alloc, words)?;
    let Ran { status, disk } = run(rt, alloc, &words, source, sink, rig.disk, &NoGate);
    Ok((status, disk))
}

/// The words and the streams of a run.
#[derive(Drop)]
struct Given {
    words: Vec<String>,
    source: MemSource,
    sink: MemSink,
}

impl Given {
    fn new(alloc: Global, words: &[&str], script: &[u8]) -> Result<Given, NoMemory> {
        let words = words_of(alloc, words)?;
        let source = MemSource::new(Blob::copy_of(alloc, script)?);
        let sink = MemSink::new(alloc)?;
        Ok(Given {
            words,
            source,
            sink,
        })
    }
}

/// What a run came to.
#[derive(Drop)]
struct Told {
    status: Status,
    sink: MemSink,
    disk: MemDisk,
}

/// What a run over a disk comes to.
fn tell<R: Threads + Wait + Sync>(rt: &R, alloc: Global, given: Given, rig: Rig) -> Told {
    let Given {
        words,
        mut source,
        mut sink,
    } = given;
    let Ran { status, disk } = run(rt, alloc, &words, &mut source, &mut sink, rig.disk, &NoGate);
    Told { status, sink, disk }
}

/// What a command comes to over a disk.
fn told_of<R: Threads + Wait + Sync>(
    rt: &R,
    alloc: Global,
    rig: Rig,
    words: &[&str],
    script: &[u8],
) -> Result<Told, NoMemory> {
    let given = Given::new(alloc, words, script)?;
    Ok(tell(rt, alloc, given, rig))
}

/// Asserts what a run wrote, and its status. Answers the disk.
fn check_told(rt: &impl Abort, told: Told, status: Status, text: &str) -> MemDisk {
    assert!(rt; told.sink.written() == text.as_bytes());
    assert_eq!(rt; told.status, status);
    told.disk
}

/// Asserts what a command writes over a disk, and its status. Answers the disk.
fn check_command<R: Threads + Wait + Sync + Abort>(
    rt: &R,
    alloc: Global,
    rig: Rig,
    words: &[&str],
    script: &[u8],
    status: Status,
    text: &str,
) -> Result<MemDisk, Fail> {
    let told = told_of(rt, alloc, rig, words, script)?;
    Ok(check_told(rt, told, status, text))
}

/// Asserts what a replay over a new disk writes, and its status. Answers the disk.
fn check_replay<R: Threads + Wait + Sync + Abort>(
    rt: &R,
    alloc: Global,
    script: &str,
    status: Status,
    text: &str,
) -> Result<MemDisk, Fail> {
    let rig = Rig::new(alloc)?;
    check_command(rt, alloc, rig, &["replay"], script.as_bytes(), status, text)
}

/// Asserts what is recovered once a crash left no more than what is stable.
fn check_crash<R: Threads + Wait + Sync + Abort>(
    rt: &R,
    alloc: Global,
    disk: MemDisk,
    store: &str,
) -> Result<(), Fail> {
    let rig = Rig::after_crash(rt, alloc, disk);
    check_command(rt, alloc, rig, &["recover"], b"", Status::Done, store)?;
    Ok(())
}

/// Asserts what a replay over a disk writes, its status, and what the log of WAL 1 then has.
fn check_log<R: Threads + Wait + Sync + Abort>(
    rt: &R,
    alloc: Global,
    rig: Rig,
    script: &[u8],
    status: Status,
    text: &str,
    log: Option<&[u8]>,
) -> Result<(), Fail> {
    let disk = check_command(rt, alloc, rig, &["replay"], script, status, text)?;
    assert!(rt; log_at(&disk, 1) == log);
    assert!(rt; segment_at(&disk, 1).is_none());
    Ok(())
}

/// The log of one batch that sets `a` to `1`.
const FIRST_LOG: &[u8] = b"\x1a\x4a\xb2\xe4\x11\x00\x09\x01\x00\x00\x00\
    \x00\x00\x00\x00\x00\x00\x00\x00\
    \x0a\x00\x00\x00\x00\x00\x00\x00\x01\x00\x00\x00\
    \x01\x01\x61\x01\x31";

/// The record of a batch that sets a key to a digit.
fn record_of(first: u8, key: u8, digit: u8) -> [u8; 17] {
    let mut record = *b"\0\0\0\0\0\0\0\0\x01\0\0\0\x01\x01\0\x01\0";
    record[0] = first;
    record[14] = key;
    record[16] = digit;
    record
}

/// Adds one chunk of a log to a segment.
fn append(segment: &mut Buf, log: u32, payload: &[u8]) -> Result<(), NoMemory>
    requires { length payload.now ≤ 100 }
{
    let mut chunk = [0u8; 111];
    let len = put_chunk(&mut chunk, ChunkKind::Full, log, payload);
    segment.append(&chunk[..len])
}

/// Adds one sync chunk of a log to a segment, as the program writes it.
fn append_sync(segment: &mut Buf, log: u32, offset: u64, payload: &[u8]) -> Result<(), NoMemory>
    requires { length payload.now ≤ 100 }
{
    let mut chunk = [0u8; 119];
    let len = put_sync_chunk(&mut chunk, ChunkKind::Full, log, offset, payload);
    segment.append(&chunk[..len])
}

/// A segment of batches that set `a`, as the program writes it: each has a sync offset.
fn written_of(alloc: Global, log: u32, batches: &[(u8, u8, u64)]) -> Result<Buf, NoMemory> {
    let mut segment = Buf::new(alloc)?;
    for (first, digit, offset) in batches {
        append_sync(&mut segment, log, *offset, &record_of(*first, b'a', *digit))?;
    }
    Ok(segment)
}

/// A segment of such batches without sync offsets.
fn segment_of(alloc: Global, log: u32, batches: &[(u8, u8)]) -> Result<Buf, NoMemory> {
    let mut segment = Buf::new(alloc)?;
    for (first, digit) in batches {
        append(&mut segment, log, &record_of(*first, b'a', *digit))?;
    }
    Ok(segment)
}

/// Segment 0 of WAL 1 on the primary side, and segment 1 on the secondary side.
fn rig_of(
    rt: &impl Abort,
    alloc: Global,
    first: &[u8],
    second: Option<&[u8]>,
) -> Result<Rig, NoMemory> {
    let mut rig = Rig::new(alloc)?;
    rig.put(rt, Side::Primary, SegName { wal: 1, index: 0 }, first);
    if let Some(second) = second {
        rig.put(rt, Side::Secondary, SegName { wal: 1, index: 1 }, second);
    }
    Ok(rig)
}
