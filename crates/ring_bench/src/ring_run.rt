//! A run over the ring.
ghost use Rattle.std.specs.Prelude.{◌≡◌, ◌≤◌, [], All, IfOk, replicate};
ghost use Rattle.memtable_shards.specs.declared.sharding.TheConstants.{SHARDS};
ghost use Rattle.batch_repr.specs.declared.limits.TheConstants.{NUMBER_FIRST, SESSIONS_MAX};
ghost use Rattle.commit_queue.specs.Tables.{table_id_of};
ghost use Rattle.commit_queue.specs.Seats.{IsNewProducer};
ghost use Rattle.ring_bench.specs.Placings.{IsIdleOf};

use crate::batches::turns_for;
use crate::locked::Locked;
use crate::ring_name::RingName;
use crate::worker::{Ring, Worker};
use batch_repr::NUMBER_FIRST;
use commit_queue::{PipeTable, ProducerSeat, SessionSeats, Shards};
use memtable_shards::{SHARDS, Shard};
use std::alloc::Global;
use std::marker::{Brand, PhantomData};
use std::sync::{Mutex, Wait};
use std::thread;
use std::thread::Threads;
use wal_base::{ListOf, NoMemory};

/// How many batches a ring has at most.
const RING: u32 = 64;

/// So many threads place so many batches in all and publish them. Answers the visible number at the
/// end.
pub(crate) fn run<R: Threads + Wait + Sync>(
    rt: &R,
    alloc: Global,
    threads: u32,
    batches: u64,
) -> Result<u64, NoMemory>
    requires { (1 ≤ threads) × (threads ≤ SESSIONS_MAX) }
{
    let made = PipeTable::new(alloc, threads, NUMBER_FIRST, eight(alloc)?)?;
    let (table, producer, _flush, seats) = made;
    over_table::<Brand, R>(rt, alloc, table, producer, seats, batches)
}

/// Eight shards without a version.
fn eight(alloc: Global) -> Result<Shards, NoMemory>
    ensures { IfOk result (λ shards. shards ≡ replicate SHARDS []) }
{
    let mut shards = ListOf::new(alloc);
    for _ in 0..SHARDS {
        shards.push(Shard::new(alloc)?).map_err(|_| NoMemory)?;
    }
    Ok(shards)
}

/// The run over a new table, whose name is picked.
fn over_table<N: RingName + Send + Sync, R: Threads + Wait + Sync>(
    rt: &R,
    alloc: Global,
    table: PipeTable,
    producer: ProducerSeat,
    seats: SessionSeats,
    batches: u64,
) -> Result<u64, NoMemory>
    requires named { table_id_of table ≡ N.table }
    requires producer { IsNewProducer table NUMBER_FIRST (replicate SHARDS []) producer }
    requires sessions { All (IsIdleOf N.table) seats }
{
    let lock = Mutex::new(Locked::<N> {
        producer,
        next: NUMBER_FIRST,
        placed: 0,
        limit: batches,
        name: PhantomData,
    });
    let ring = Ring { table, lock };
    let mut workers = seated::<N>(alloc, seats)?;
    let turns = turns_for(batches);
    let count = workers.len().max(1);
    thread::for_each_mut(
        rt,
        workers.as_mut_slice(),
        count,
        &|_, worker: &mut Worker<N>| worker.play(rt, &ring, turns),
    );
    for worker in &workers {
        if worker.starved {
            return Err(NoMemory);
        }
    }
    let Some(mut last) = workers.pop() else {
        return Err(NoMemory);
    };
    last.publish(&ring.table, RING);
    Ok(ring.table.visible(&mut last.seat))
}

/// A thread for each seat.
fn seated<N: RingName>(alloc: Global, seats: SessionSeats) -> Result<Vec<Worker<N>>, NoMemory>
    requires { All (IsIdleOf N.table) seats }
{
    let mut seats = seats.into_vec();
    let mut workers = Vec::with_capacity(alloc, seats.len())?;
    let mut key = 0u8;
    while let Some(seat) = seats.pop() {
        key = key.wrapping_add(1);
        workers.push(Worker::<N> {
            alloc,
            seat,
            key,
            starved: false,
            name: PhantomData,
        })?;
    }
    Ok(workers)
}
