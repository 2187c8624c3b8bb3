//! What is behind the lock: the producer's seat, and the number of the next batch.
ghost use Rattle.std.specs.Prelude.{◌≡◌};
ghost use Rattle.memtable_shards.specs.Pieces.{whole_pieces};
ghost use Rattle.commit_queue.specs.Calls.{AwaitsBatch};
ghost use Rattle.commit_queue.specs.Tables.{table_id_of};
ghost use Rattle.commit_queue.specs.Seats.{producer_table, producer_view, session_table, session_view};
ghost use Rattle.ring_bench.specs.Placings.{IsVacant, IsPlaced};

use crate::ring_name::RingName;
use batch_repr::{BATCHES_MAX, NUMBER_MAX, UnnumberedBytes};
use commit_queue::{PipeTable, ProducerSeat, SessionSeat};
use memtable_shards::Pieces;
use std::marker::PhantomData;
use std::sync::Wait;

/// What a try to place a batch came to.
#[derive(Drop)]
pub(crate) enum Placing {
    /// The session's seat holds it, and none of these pieces is applied.
    Adopted { pieces: Pieces },
    /// The ring is full.
    Full,
    /// All batches of the run are placed.
    Over,
}

/// What is behind the lock. Between two calls the producer's seat holds no batch.
#[derive(Drop)]
pub(crate) struct Locked<N: RingName> {
    pub(crate) producer: ProducerSeat,
    pub(crate) next: u64,
    pub(crate) placed: u64,
    /// How many batches the run places.
    pub(crate) limit: u64,
    pub(crate) name: PhantomData<N>,
    ghost named: { producer_table producer ≡ N.table },
    ghost awaits: { AwaitsBatch (producer_view producer) next placed },
}

impl<N: RingName> Locked<N> {
    /// Numbers the batch, places and admits it, and hands it over to the session's seat, if the slot
    /// at head is free.
    pub(crate) fn place_next<R: Wait>(
        &mut self,
        rt: &R,
        table: &PipeTable,
        seat: &mut SessionSeat,
        batch: UnnumberedBytes,
        mut pieces: Pieces,
    ) -> Placing
        requires table { table_id_of table.now ≡ N.table }
        requires seat { session_table seat.old ≡ N.table }
        requires pieces { pieces ≡ whole_pieces batch }
        requires idle { IsVacant (session_view seat.old) }
        ensures same { session_table seat.new ≡ session_table seat.old }
        ensures placed { IsPlaced result (session_view seat.new) }
    {
        let count = u64::from(batch.count());
        if self.placed >= self.limit || self.placed >= BATCHES_MAX {
            return Placing::Over;
        }
        if self.next > NUMBER_MAX || count > NUMBER_MAX - self.next {
            return Placing::Over;
        }
        if !table.slot_free(&mut self.producer) {
            return Placing::Full;
        }
        pieces.number(self.next);
        let numbered = batch.number(self.next);
        table.place(&mut self.producer, &numbered);
        table.admit(&mut self.producer);
        self.next = numbered.end();
        self.placed += 1;
        let note = table.hand_over(rt, &mut self.producer);
        table.adopt(seat, note);
        Placing::Adopted { pieces }
    }
}
