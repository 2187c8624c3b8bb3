//! The producer's calls: a batch is placed in the ring, admitted, and handed to a session.
ghost use Rattle.std.specs.Prelude.{◌≡◌, ◌*◌, ◌<◌, [], Some, IfOk, OnErr};

use crate::layout::{ENDS, HALF, RING_FROM};
use crate::pipe_table::{PipeTable, TableSeat};
use crate::seats::{Handed, ProducerSeat};
use crate::steps::{Admit, HandOver, LoadSlot, Naming, StoreBatch};
use batch_repr::Numbered;
use publish_core::SLOTS;
use std::marker::Brand;
use wal_base::NoMemory;

impl PipeTable {
    ghost use Rattle.commit_queue.specs.Views.{placed_view, admitted_view};
    ghost use Rattle.commit_queue.specs.Views.{without_batch, handed_view};
    ghost use Rattle.commit_queue.specs.Calls.{ReadsHeadSlot, CanPlace, HasPlaced, HoldsAdmitted};
    ghost use Rattle.commit_queue.specs.Tables.{IsOfTable, IsSeatOf, IsSameSeat};
    ghost use Rattle.commit_queue.specs.Seats.{producer_table, producer_view, HandsOver};

    /// Whether the ring slot at head was read as 0 in this call.
    pub fn slot_free(&self, p: &mut ProducerSeat) -> bool
        requires table { IsOfTable self.now (producer_table p.old) }
        ensures same { producer_table p.new ≡ producer_table p.old }
        ensures read { ReadsHeadSlot (producer_view p.old) result (producer_view p.new) }
    {
        let at = (p.head % SLOTS) as usize;
        let word = self
            .table
            .shared
            .load::<LoadSlot>(&mut p.seat, at + RING_FROM);
        word == 0
    }

    /// Appends exactly this batch to the history, by storing twice its end in the slot at head.
    pub fn place(&self, p: &mut ProducerSeat, batch: &Numbered)
        requires table { IsOfTable self.now (producer_table p.old) }
        requires fits { CanPlace (producer_view p.old) batch.now }
        ensures same { producer_table p.new ≡ producer_table p.old }
        ensures placed { producer_view p.new ≡ placed_view (producer_view p.old) batch.now }
    {
        self.store_batch::<Brand>(p, batch);
    }

    fn store_batch<M: Naming>(&self, p: &mut ProducerSeat, batch: &Numbered)
        requires table { IsOfTable self.now (producer_table p.old) }
        requires named { batch.now ≡ M.batch }
        requires fits { CanPlace (producer_view p.old) batch.now }
        ensures same { producer_table p.new ≡ producer_table p.old }
        ensures placed { producer_view p.new ≡ placed_view (producer_view p.old) M.batch }
    {
        // A batch takes a number at least, which its count alone tells.
        let _some = batch.count();
        let at = (p.head % SLOTS) as usize;
        let end = batch.end();
        p.end = end;
        self.table
            .shared
            .store::<StoreBatch<M>>(&mut p.seat, at + RING_FROM, 2 * end);
    }

    /// Raises head by one, and answers the index of the batch that was placed, from 0.
    pub fn admit(&self, p: &mut ProducerSeat) -> u64
        requires table { IsOfTable self.now (producer_table p.old) }
        requires placed { HasPlaced (producer_view p.old) }
        ensures same { producer_table p.new ≡ producer_table p.old }
        ensures admitted { producer_view p.new ≡ admitted_view (producer_view p.old) }
        ensures index { result ≡ (producer_view p.old).head }
    {
        let index = p.head;
        self.table
            .shared
            .fetch_add::<Admit>(&mut p.seat, ENDS, HALF);
        p.head = index + 1;
        index
    }

    /// Gives the admitted batch away as a note. On `Err` the seat still holds it.
    pub fn hand(&self, p: &mut ProducerSeat) -> Result<Handed, NoMemory>
        requires table { IsOfTable self.now (producer_table p.old) }
        requires holds { HoldsAdmitted (producer_view p.old) }
        ensures same { producer_table p.new ≡ producer_table p.old }
        ensures given { IfOk result (λ note. HandsOver p.old note p.new) }
        ensures err { OnErr result (producer_view p.new ≡ producer_view p.old) }
    {
        let index = p.head - 1;
        let seat = self.hand_at(&mut p.seat, index);
        Ok(Handed {
            seat,
            index,
            end: p.end,
        })
    }

    /// The producer's batch goes to a note.
    fn hand_at(&self, seat: &mut TableSeat, index: u64) -> TableSeat
        requires table { IsSeatOf self.now seat.old }
        requires producer { seat.old.id ≡ 0 }
        requires holds { (seat.old.me.0.seat.held ≡ Some index) × (index < seat.old.me.0.head) }
        ensures same { IsSameSeat seat.old seat.new }
        ensures left { seat.new.me ≡ (without_batch seat.old.me.0, seat.old.me.1) }
        ensures table { result.table_id ≡ seat.old.table_id }
        ensures note { result.me ≡ (handed_view seat.old.me.0, []) }
    {
        self.table.shared.split_seat::<HandOver>(seat)
    }
}
