//! Frames records of four lengths and reads them back, 1 MB of each, and prints how many were read; with a word after
//! the program's name 64 MB of each, with the microseconds of the fastest round of framing and of reading.
//!
//! Stands on `block_record` for framing and reading, and on `wal_base` for the buffer. The bench beside it in `bench/frame`
//! runs it with that word.
#![tactic(auto)]

use block_record::{Framer, RECORD_MAX, read_out};
use std::alloc::Global;
use std::time::Instant;
use std::{env, io};
use wal_base::{Buf, NoMemory};

/// The log number of the chunks.
const LOG: u32 = 1;

/// How many bytes are framed of each length, and how often, where no time is asked for.
const FEW: usize = 1 << 20;

/// The same where times are asked for.
const MANY: usize = 64 << 20;

const ROUNDS: usize = 5;

/// A record of so many bytes.
fn record_of(alloc: Global, len: usize) -> Result<Buf, NoMemory> {
    let mut record = Buf::new(alloc)?;
    let mut byte: u8 = 1;
    for _ in 0..len {
        record.append(&[byte])?;
        byte = byte.wrapping_add(7);
    }
    Ok(record)
}

/// So many records, framed one after another.
fn framed(alloc: Global, record: &[u8], count: usize) -> Result<Buf, NoMemory> {
    let mut segment = Buf::new(alloc)?;
    let mut framer = Framer::new(LOG);
    if record.len() <= RECORD_MAX {
        for _ in 0..count {
            framer.frame(record, 0, &mut segment)?;
        }
    }
    Ok(segment)
}

/// How many records were read in the last round, and the microseconds of the fastest framing and reading.
fn measured(
    rt: &HostRuntime,
    record: &[u8],
    count: usize,
    rounds: usize,
) -> io::Result<(usize, u128, u128)> {
    let mut framing = u128::MAX;
    let mut reading = u128::MAX;
    let mut read = 0;
    for _ in 0..rounds {
        let start = Instant::now(rt)?;
        let Ok(segment) = framed(rt.alloc(), record, count) else {
            return Err(io::ErrorKind::OutOfMemory.into());
        };
        framing = framing.min(start.elapsed(rt)?.as_micros());
        let start = Instant::now(rt)?;
        let Ok(found) = read_out(rt.alloc(), LOG, segment.as_slice()) else {
            return Err(io::ErrorKind::OutOfMemory.into());
        };
        reading = reading.min(start.elapsed(rt)?.as_micros());
        read = found.records.as_slice().len();
    }
    Ok((read, framing, reading))
}

fn main(rt: HostRuntime) -> io::Result<()> {
    let times = env::args(&rt)?.skip(1).next().is_some();
    let (total, rounds) = if times { (MANY, ROUNDS) } else { (FEW, 1) };
    for len in [100usize, 1_000, 100_000, 1_000_000] {
        let Ok(record) = record_of(rt.alloc(), len) else {
            return Err(io::ErrorKind::OutOfMemory.into());
        };
        let (read, framing, reading) = measured(&rt, record.as_slice(), total / len, rounds)?;
        if times {
            println!(rt; "{len} {read} {framing} {reading}")?;
        } else {
            println!(rt; "{len} {read}")?;
        }
    }
    Ok(())
}
