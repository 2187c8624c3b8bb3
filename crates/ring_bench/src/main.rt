//! Hands batches from hand to hand between threads, over the commit ring and over an `ArrayQueue` of the same capacity:
//! with no word 100,000 batches by 4 threads, and it prints what each run came to; with a word after the program's name
//! many batches by 1, 2 and 4 threads, with the microseconds of both.
//!
//! Stands on `commit_queue` for the ring, on `shard_gate` and `memtable_shards` for the shards where batches are applied
//! before they are marked, on `batch_repr` for the batches, and on `crossbeam_queue` for the queue. The bench beside it in `bench/ring` runs it with that word.
//!
//! In both runs a thread takes a lock, gives its batch the next number and puts it in, and lets the lock go. Over the
//! ring it then applies its batch, marks it and publishes from the front; over the queue it takes out what is at the front. The
//! number of turns of each thread is bounded.
#![tactic(auto)]

ghost use Rattle.std.specs.Prelude.{◌<◌, ◌≤◌};
ghost use Rattle.batch_repr.specs.declared.limits.TheConstants.{SESSIONS_MAX};

mod batches;
mod locked;
mod queue_run;
mod ring_name;
mod ring_run;
mod worker;

use batch_repr::NUMBER_FIRST;
use std::alloc::Global;
use std::sync::Wait;
use std::thread::Threads;
use std::time::{Clock, Instant};
use std::{env, io};

/// How many threads and batches there are where no times are asked for.
const FEW_THREADS: u32 = 4;

const FEW: u64 = 100_000;

/// How many batches there are where times are asked for. One table takes no more than 1,048,576.
const MANY: u64 = 1_000_000;

/// The visible number and the microseconds of a run over the ring.
fn ring_timed<R: Threads + Wait + Clock + Sync>(
    rt: &R,
    alloc: Global,
    threads: u32,
    batches: u64,
) -> io::Result<(u64, u128)>
    requires { (1 ≤ threads) × (threads ≤ SESSIONS_MAX) }
{
    let start = Instant::now(rt)?;
    let Ok(visible) = ring_run::run(rt, alloc, threads, batches) else {
        return Err(io::ErrorKind::OutOfMemory.into());
    };
    Ok((visible, start.elapsed(rt)?.as_micros()))
}

/// The number of batches taken out and the microseconds of a run over the queue.
fn queue_timed<R: Threads + Wait + Clock + Sync>(
    rt: &R,
    alloc: Global,
    threads: u32,
    batches: u64,
) -> io::Result<(u64, u128)>
    requires { 0 < threads }
{
    let start = Instant::now(rt)?;
    let Ok(taken) = queue_run::run(rt, alloc, threads, batches) else {
        return Err(io::ErrorKind::OutOfMemory.into());
    };
    Ok((taken, start.elapsed(rt)?.as_micros()))
}

fn main(rt: HostRuntime) -> io::Result<()> {
    let times = env::args(&rt)?.skip(1).next().is_some();
    if !times {
        let (visible, _) = ring_timed(&rt, rt.alloc(), FEW_THREADS, FEW)?;
        let (taken, _) = queue_timed(&rt, rt.alloc(), FEW_THREADS, FEW)?;
        println!(rt; "ring {visible}")?;
        println!(rt; "queue {taken}")?;
        return Ok(());
    }
    for threads in [1u32, 2, 4] {
        let (visible, ring) = ring_timed(&rt, rt.alloc(), threads, MANY)?;
        let (taken, queue) = queue_timed(&rt, rt.alloc(), threads, MANY)?;
        let published = visible.saturating_sub(NUMBER_FIRST);
        println!(rt; "{threads} {published} {ring} {taken} {queue}")?;
    }
    Ok(())
}
