//! A thread of a run over the ring.
ghost use Rattle.std.specs.Prelude.{◌≡◌};
ghost use Rattle.commit_queue.specs.Tables.{table_id_of};
ghost use Rattle.commit_queue.specs.Seats.{session_table, session_view};
ghost use Rattle.ring_bench.specs.Placings.{IsVacant};

use crate::batches::{TRIES, one_entry};
use crate::locked::{Locked, Placing};
use crate::ring_name::RingName;
use batch_repr::Unnumbered;
use commit_queue::{PipeTable, Published, SessionSeat};
use memtable_shards::split;
use shard_gate::ShardGate;
use std::alloc::Global;
use std::marker::PhantomData;
use std::sync::{Mutex, Wait};
use std::thread;
use wal_base::NoMemory;

/// What all threads of a run share.
#[derive(Drop)]
pub(crate) struct Ring<N: RingName> {
    pub(crate) table: PipeTable,
    pub(crate) lock: Mutex<Locked<N>>,
    ghost named: { table_id_of table ≡ N.table },
}

/// A thread with its session's seat, which holds no batch between two turns.
#[derive(Drop)]
pub(crate) struct Worker<N: RingName> {
    pub(crate) alloc: Global,
    pub(crate) seat: SessionSeat,
    /// The key of its next batch.
    pub(crate) key: u8,
    /// It ran out of memory and stopped.
    pub(crate) starved: bool,
    pub(crate) name: PhantomData<N>,
    ghost named: { session_table seat ≡ N.table },
    ghost idle: { IsVacant (session_view seat) },
}

impl<N: RingName> Worker<N> {
    /// Takes so many turns, or as many as there are batches to place.
    pub(crate) fn play<R: Wait>(&mut self, rt: &R, ring: &Ring<N>, turns: u64) {
        for _ in 0..turns {
            match self.turn(rt, ring) {
                Ok(true) => {}
                Ok(false) => return,
                Err(NoMemory) => {
                    self.starved = true;
                    return;
                }
            }
        }
    }

    /// Places a batch if a slot is free, and else lets it go, and publishes. Answers whether the run goes on.
    fn turn<R: Wait>(&mut self, rt: &R, ring: &Ring<N>) -> Result<bool, NoMemory> {
        let (batch, entries) = self.make()?.into_parts();
        let pieces = split(self.alloc, entries)?;
        let placing = ring
            .lock
            .lock(rt)
            .place_next(rt, &ring.table, &mut self.seat, batch, pieces);
        let mut full = false;
        match placing {
            Placing::Adopted { pieces } => {
                let gate = ShardGate::over(self.alloc, &ring.table);
                gate.apply_all(rt, &mut self.seat, pieces);
                ring.table.mark(&mut self.seat);
            }
            Placing::Full => full = true,
            Placing::Over => return Ok(false),
        }
        if !self.publish(&ring.table, TRIES) && full {
            thread::yield_now();
        }
        Ok(true)
    }

    /// A batch under the next key, which goes to the next shard.
    fn make(&mut self) -> Result<Unnumbered, NoMemory> {
        self.key = self.key.wrapping_add(1);
        one_entry(self.alloc, self.key)
    }

    /// Publishes from the front, so many batches at most. Answers whether it published one.
    pub(crate) fn publish(&mut self, table: &PipeTable, tries: u32) -> bool
        requires table { table_id_of table.now ≡ N.table }
    {
        let mut any = false;
        for _ in 0..tries {
            match table.try_publish(&mut self.seat) {
                Published::Raised { .. } => any = true,
                Published::NotReady { .. } | Published::Raced { .. } => return any,
            }
        }
        any
    }
}
