//! What a program does that keeps its log by these libraries, to copy from: it recovers two directories, adds a batch that
//! is synced before it goes on, and reads a log of which it was handed the bytes.
//!
//! Stands on `wal_recovery` to recover, on `failover_writer` with `batch_repr` to write, on `block_record` with
//! `batch_repr` to read, and on `file_disk` for the two directories `wal` and `wal_secondary` of the folder that it runs in.
#![tactic(auto)]

ghost use Rattle.std.specs.Prelude.{◌≤◌, IfOk, IsTrue};
ghost use Rattle.disk_face.specs.View.{NothingInFlight};
ghost use Rattle.disk_face.specs.declared.names.TheConstants.{WAL_MAX};
ghost use Rattle.failover_writer.specs.Ranges.{AreUnsent};

use batch_repr::{BatchBuilder, BatchFault, BuildFault, NUMBER_MAX, decode};
use block_record::read_out;
use disk_face::{Disk, WAL_MAX};
use failover_writer::{Journal, JournalFault};
use file_disk::FileDisk;
use std::alloc::Global;
use std::process::ExitCode;
use std::{fs, io};
use thiserror::Error;
use wal_base::NoMemory;
use wal_recovery::{Mode, RecoverFault, recover};

/// From how many pending polls on a segment counts as hung, and the log moves to the other directory.
const THRESHOLD: u32 = 3;

/// Why a program ends early.
#[derive(Debug, Drop, Error)]
enum LogError {
    #[error("the directories do not recover: {0}")]
    Recover(#[from] RecoverFault),
    #[error("the batch cannot be built: {0}")]
    Build(#[from] BuildFault),
    #[error("the log cannot be written: {0}")]
    Write(#[from] JournalFault),
    #[error("a record is no batch: {0}")]
    Read(#[from] BatchFault),
    #[error("the text cannot be printed: {0}")]
    Print(#[from] io::Error),
    #[error("no number is left for a batch, or for a WAL")]
    Full,
    #[error("out of memory")]
    NoMemory(#[from] NoMemory),
}

/// Writes a batch of two entries to a new log, and answers the number after it and the disk, once all of it is synced.
fn append<D: Disk + Drop>(alloc: Global, disk: D, wal: u64, next: u64) -> Result<(u64, D), LogError>
    requires idle { NothingInFlight (D.view disk) }
    requires wal { wal ≤ WAL_MAX }
    requires absent { IsTrue D.tells → AreUnsent wal 0 (D.view disk) }
    ensures { IfOk result (λ ended. NothingInFlight (D.view ended.1)) }
{
    let mut builder = BatchBuilder::new(alloc)?;
    builder.set(b"fruit", b"apple")?;
    builder.delete(b"stone")?;
    let Ok(batch) = builder.finish() else {
        return Err(LogError::Full);
    };
    if next > NUMBER_MAX - u64::from(batch.count()) {
        return Err(LogError::Full);
    }
    let Ok(mut journal) = Journal::start(alloc, disk, wal, next, THRESHOLD) else {
        return Err(LogError::NoMemory(NoMemory));
    };
    // Room first, so that a batch that has its number is never lost.
    journal.reserve()?;
    let numbered = batch.number(next);
    let end = numbered.end();
    journal.push(numbered, true);
    // It steps, and moves to the other directory where one hangs or fails, until all is synced or nothing is left to try.
    journal.close()?;
    Ok((end, journal.into_disk()))
}

/// Counts the entries that take a number in a log of which these are the bytes of one segment.
fn count_in(alloc: Global, log: u32, bytes: &[u8]) -> Result<u64, LogError> {
    let mut count = 0u64;
    for record in read_out(alloc, log, bytes)?.records.as_slice() {
        let batch = decode(alloc, record.bytes.as_slice())?;
        count = count.saturating_add(batch.count());
    }
    Ok(count)
}

/// Recovers the directories, says what they hold, and answers the WAL and the number that come next.
fn find<D: Disk>(rt: &HostRuntime, disk: &mut D) -> Result<(u64, u64), LogError>
    requires { NothingInFlight (D.view disk.old) }
    ensures { NothingInFlight (D.view disk.new) }
{
    let found = recover(rt.alloc(), disk, Mode::Strict)?;
    println!(rt;
        "found {} batches, next {}",
        found.batches.len(),
        found.next
    )?;
    Ok((found.next_wal, found.next))
}

fn run(rt: &HostRuntime) -> Result<(), LogError> {
    let mut disk = FileDisk::new(rt)?;
    let (wal, next) = find(rt, &mut disk)?;
    if wal > WAL_MAX {
        return Err(LogError::Full);
    }
    let (end, mut disk) = append(rt.alloc(), disk, wal, next)?;
    println!(rt; "wrote up to {end}")?;
    find(rt, &mut disk)?;
    let bytes = fs::read(rt, "wal/000001.log")?;
    println!(rt;
        "read {} entries",
        count_in(rt.alloc(), 1, bytes.as_slice())?
    )?;
    Ok(())
}

fn main(rt: HostRuntime) -> ExitCode {
    match run(&rt) {
        Ok(()) => ExitCode::SUCCESS,
        Err(error) => {
            let _ = eprintln!(rt; "{error}");
            ExitCode::FAILURE
        }
    }
}
