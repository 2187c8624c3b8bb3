ghost use Rattle.std.specs.Prelude.{◌≡◌, IsTrue, OnOk, None};
ghost use Rattle.disk_face.specs.declared.Side.TheVariants.{Primary};
ghost use Rattle.disk_face.specs.View.{segment, files, IsFree};
ghost use Rattle.disk_face.specs.Calls.{place_of};
ghost use Rattle.disk_face.specs.Answers.{MayStartOn};
ghost use Rattle.mem_disk.specs.Changes.{FlightsStay, IsPerformed};

mod tables;

use crate::{CrashPick, FilePick, FilePicks, MemDisk};
use crc_chunk::{ChunkKind, HEADER, put_chunk, put_sync_chunk};
use disk_face::{Disk, DiskErr, DiskOp, Listed, Progress, ScriptDisk, SegName, Side, StallDisk};
use std::alloc::Global;
use std::process::Abort;
use wal_base::{Blob, NoMemory};

const NAME: SegName = SegName { wal: 7, index: 1 };

const OTHER: SegName = SegName { wal: 8, index: 0 };

/// A segment of the log 1.
const LOG: SegName = SegName { wal: 1, index: 0 };

/// How a run of operations ended early.
#[derive(Clone, Copy, Debug, PartialEq, Eq)]
enum Stopped {
    At(Progress),
    NoMemory,
}

impl From<NoMemory> for Stopped {
    fn from(_: NoMemory) -> Self {
        Stopped::NoMemory
    }
}

/// Starts one operation and polls it once.
fn perform<D: Disk>(disk: &mut D, op: DiskOp<'_>) -> Result<(), Stopped>
    requires free { IsFree (D.view disk.old) (place_of op) }
    requires may { IsTrue D.tells → MayStartOn op (D.view disk.old) }
    ensures flights { OnOk result (FlightsStay (D.view disk.old) (D.view disk.new)) }
    ensures done { OnOk result (IsPerformed D.tells op.entry (D.view disk.old) (D.view disk.new)) }
{
    let id = disk.start(op)?;
    match disk.poll(id) {
        Progress::Done => Ok(()),
        other => Err(Stopped::At(other)),
    }
}

/// Makes a segment, writes two pieces to it, syncs it, and writes a third one.
fn store_and_write<D: Disk>(
    disk: &mut D,
    side: Side,
    name: SegName,
    pieces: [&[u8]; 3],
) -> Result<(), Stopped>
    requires free { IsFree (D.view disk.old) (segment side name) }
    requires absent { IsTrue D.tells → files (D.view disk.old) (segment side name) ≡ None }
{
    let [first, second, third] = pieces;
    perform(disk, DiskOp::Create { side, name })?;
    perform(
        disk,
        DiskOp::Write {
            side,
            name,
            bytes: first,
        },
    )?;
    perform(
        disk,
        DiskOp::Write {
            side,
            name,
            bytes: second,
        },
    )?;
    perform(disk, DiskOp::Sync { side, name })?;
    perform(
        disk,
        DiskOp::Write {
            side,
            name,
            bytes: third,
        },
    )
}

/// Starts a creation on a side that is stalled for one poll, and polls it twice.
fn create_stalled<D: StallDisk>(
    disk: &mut D,
    side: Side,
    name: SegName,
) -> Result<[Progress; 2], NoMemory>
    requires free { IsFree (D.view disk.old) (segment side name) }
    requires absent { IsTrue D.tells → files (D.view disk.old) (segment side name) ≡ None }
{
    disk.stall(side, 1);
    let id = disk.start(DiskOp::Create { side, name })?;
    let first = disk.poll(id);
    let second = match first {
        Progress::Pending => disk.poll(id),
        other => other,
    };
    Ok([first, second])
}

#[test]
fn an_operation_fails_at_its_number(rt: HostRuntime) -> Result<(), Stopped> {
    let mut disk = MemDisk::new(rt.alloc())?;
    disk.fail_op(2)?;
    let stored = store_and_write(&mut disk, Side::Primary, NAME, [b"ab", b"cd", b"ef"]);
    let is_left = disk.content(Side::Primary, NAME) == Some(b"ab".as_slice());
    assert!(rt; stored == Err(Stopped::At(Progress::Failed)) && is_left);
    Ok(())
}

#[test]
fn a_stalled_operation_is_pending(rt: HostRuntime) -> Result<(), NoMemory> {
    let mut disk = MemDisk::new(rt.alloc())?;
    let polled = create_stalled(&mut disk, Side::Secondary, NAME)?;
    assert!(rt; polled == [Progress::Pending, Progress::Done]);
    Ok(())
}

#[test]
fn a_script_stalls_an_operation(rt: HostRuntime) -> Result<(), NoMemory> {
    let mut disk = ScriptDisk::new(MemDisk::new(rt.alloc())?);
    let polled = create_stalled(&mut disk, Side::Secondary, NAME)?;
    let disk = disk.into_inner();
    let is_made = disk.content(Side::Secondary, NAME) == Some(b"".as_slice());
    assert!(rt; polled == [Progress::Pending, Progress::Done] && is_made);
    Ok(())
}

#[test]
fn files_are_listed_in_order_and_calls_fail_at_their_numbers(
    rt: HostRuntime,
) -> Result<(), NoMemory> {
    let mut disk = MemDisk::new(rt.alloc())?;
    disk.put_file(Side::Primary, OTHER, b"abc")?;
    disk.put_file(Side::Primary, NAME, b"de")?;
    disk.fail_call(1)?;
    list_and_read(&rt, &mut disk);
    Ok(())
}

fn list_and_read(rt: &impl Abort, disk: &mut MemDisk) {
    let listed = [
        Listed { name: NAME, len: 2 },
        Listed {
            name: OTHER,
            len: 3,
        },
    ];
    assert!(rt; has_listed(disk, &listed));
    let mut buf = *b"....";
    let failed = disk.read(Side::Primary, NAME, 0, &mut buf);
    let read = disk.read(Side::Primary, NAME, 1, &mut buf);
    assert!(rt; failed == Err(DiskErr::Failed) && read == Ok(1) && buf == *b"e...");
}

/// Whether the primary side lists just these.
fn has_listed(disk: &mut MemDisk, wanted: &[Listed]) -> bool {
    match disk.list(Side::Primary) {
        Ok(names) => names.as_slice() == wanted,
        Err(_) => false,
    }
}

/// Picks of segments of the primary side.
fn picks_of(alloc: Global, tails: &[(SegName, Option<&[u8]>)]) -> Result<CrashPick, NoMemory> {
    let mut files = FilePicks::new(alloc);
    for (name, tail) in tails {
        let name = *name;
        let tail = match tail {
            Some(bytes) => Some(Blob::copy_of(alloc, bytes)?),
            None => None,
        };
        let pick = FilePick {
            side: Side::Primary,
            name,
            tail,
        };
        if files.push(pick).is_err() {
            return Err(NoMemory);
        }
    }
    Ok(CrashPick { files })
}

/// A record of 17 bytes as a chunk of the log 1.
fn chunk_of(first: u8) -> [u8; 28] {
    let record = [first, 0, 0, 0, 0, 0, 0, 0, 1, 0, 0, 0, 1, 1, 0x61, 1, 0x31];
    let mut chunk = [0; 28];
    put_chunk(&mut chunk, ChunkKind::Full, 1, &record);
    chunk
}

/// A record of nine bytes as a chunk of the log 1 with a sync offset.
fn sync_chunk_of(offset: u64) -> [u8; 28] {
    let mut chunk = [0; 28];
    put_sync_chunk(&mut chunk, ChunkKind::Full, 1, offset, b"a record.");
    chunk
}

/// A disk with a segment of which two chunks are stable, and a third one was sent.
fn with_chunks(alloc: Global) -> Result<MemDisk, Stopped> {
    let chunks = [chunk_of(10), chunk_of(11), chunk_of(12)];
    let mut disk = MemDisk::new(alloc)?;
    let [first, second, third] = &chunks;
    store_and_write(&mut disk, Side::Primary, LOG, [first, second, third])?;
    Ok(disk)
}

/// Whether an image with this tail is free of chance, and whether a crash leaves the tail after the stable bytes.
fn crash_to_tail(alloc: Global, tail: &[u8]) -> Result<[bool; 2], Stopped> {
    let pick = picks_of(alloc, &[(LOG, Some(tail))])?;
    let disk = with_chunks(alloc)?;
    let is_free = disk.chance_free(&pick)?;
    let disk = disk.crash(&pick)?;
    Ok([is_free, ends_with(&disk, tail)])
}

fn ends_with(disk: &MemDisk, tail: &[u8]) -> bool {
    match disk.content(Side::Primary, LOG) {
        Some(content) => {
            content.len() == 84
                && content.get(56..) == Some(tail)
                && disk.sent(Side::Primary, LOG) == Some(content)
        }
        None => false,
    }
}

#[test]
fn a_crash_leaves_the_stable_bytes_and_the_tail(rt: HostRuntime) -> Result<(), Stopped> {
    let alloc = rt.alloc();
    let mut changed = chunk_of(12);
    changed[HEADER + 3] = 1;
    assert!(rt; crash_to_tail(alloc, &chunk_of(12))? == [true, true]);
    // No chunk, by its checksum; and one that was not sent.
    assert!(rt; crash_to_tail(alloc, &changed)? == [true, true]);
    assert!(rt; crash_to_tail(alloc, &chunk_of(13))? == [false, true]);
    // The checksum covers a sync offset.
    let mut changed = sync_chunk_of(56);
    changed[HEADER] = 28;
    assert!(rt; crash_to_tail(alloc, &sync_chunk_of(56))? == [false, true]);
    assert!(rt; crash_to_tail(alloc, &changed)? == [true, true]);
    Ok(())
}

/// Crashes a disk, and puts a file that it did not have.
fn crash_and_put(disk: MemDisk, pick: &CrashPick, name: SegName) -> Result<MemDisk, NoMemory>
    requires absent { files (⟦<MemDisk as Disk>⟧.view disk) (segment Primary name) ≡ None }
{
    let mut crashed = disk.crash(pick)?;
    crashed.put_file(Side::Primary, name, b"")?;
    Ok(crashed)
}

#[test]
fn the_first_pick_of_a_file_counts(rt: HostRuntime) -> Result<(), NoMemory> {
    let (one, two) = (Some(b"1".as_slice()), Some(b"2".as_slice()));
    let pick = picks_of(rt.alloc(), &[(NAME, one), (NAME, two)])?;
    let mut disk = MemDisk::new(rt.alloc())?;
    disk.put_file(Side::Primary, NAME, b"abcd")?;
    let disk = crash_and_put(disk, &pick, OTHER)?;
    assert!(rt; disk.content(Side::Primary, NAME) == Some(b"abcd1".as_slice()));
    Ok(())
}
