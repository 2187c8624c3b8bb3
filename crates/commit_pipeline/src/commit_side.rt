//! What is behind the commit lock, where batches get their numbers.
ghost use Rattle.std.specs.Prelude.{◌≡◌, ◌+◌, ◌<◌, None};
ghost use Rattle.batch_repr.specs.declared.limits.TheConstants.{NUMBER_MAX, BATCHES_MAX};
ghost use Rattle.batch_repr.specs.Batches.{count_of};
ghost use Rattle.commit_queue.specs.Tables.{table_id_of};
ghost use Rattle.commit_queue.specs.Shown.{session_shown};
ghost use Rattle.commit_queue.specs.Seats.{session_table};
ghost use Rattle.commit_pipeline.specs.Numbering.{Numbers, CausesNumbering, SendsWhereNumbered};
ghost use Rattle.commit_pipeline.specs.Numbering.{IsExhausted, added};
ghost use Rattle.commit_pipeline.specs.Desks.{IsDeskIdle, Raises};

use crate::desk::Desk;
use crate::entering::enter;
use crate::log_side::LogSide;
use crate::name::PipeName;
use batch_repr::{BATCHES_MAX, NUMBER_MAX, UnnumberedBytes};
use commit_queue::{PipeTable, ProducerSeat};
use disk_face::Disk;
use record_flow::SendPass;
use record_queue::RecordNode;
use std::marker::Model;
use std::sync::Wait;
use std::sync::ledger::{Book, Ledger, Share};

/// What a try to number a batch came to.
#[derive(Drop)]
pub(crate) enum Numbering {
    /// The seat holds the batch, with this first number and at this place.
    Done {
        first: u64,
        index: u64,
    },
    /// The ring is full. The batch and its node come back.
    Busy {
        batch: UnnumberedBytes,
        node: RecordNode,
    },
    /// As many batches are numbered as there may be, of which this is the end.
    TooMany {
        next: u64,
    },
    /// The batch would end past the numbers, of which this one comes next.
    Exhausted {
        next: u64,
    },
}

/// The seat that numbers batches, the pass that sends them on their way to the journal, and the book of
/// their ledger.
#[derive(Drop)]
pub(crate) struct CommitSide<N: PipeName> {
    /// The number of the next batch.
    pub(crate) next: u64,
    /// How many batches are numbered.
    pub(crate) placed: u64,
    pub(crate) producer: ProducerSeat,
    pub(crate) sends: SendPass,
    /// Counts the batches.
    pub(crate) batches: Book<N>,
    /// No part of the ledger, to gather the sessions' shares in.
    pub(crate) own: Share<N>,
}

impl<N: PipeName> Model for CommitSide<N> {
    ghost use Rattle.commit_queue.specs.Seats.{producer_table, producer_view};
    ghost use Rattle.record_flow.specs.Passes.{send_queue, send_view};
    ghost use Rattle.commit_pipeline.specs.Sides.{CommitView};
    ghost use Rattle.commit_pipeline.specs.Ties.{Enrols, IsSpareShare};

    ghost Value = { CommitView };

    ghost view = { λ l. record { next = l.next; placed = l.placed; sent = (send_view l.sends).sent } };

    ghost invariant = { λ l.
        Enrols N.table N.queue N.opening (producer_table l.producer) (producer_view l.producer)
        (send_queue l.sends) (send_view l.sends) l.next l.placed l.batches.total × IsSpareShare l.own };
}

impl<N: PipeName> CommitSide<N> {
    /// Gives the batch the next number, hands it to the session's seat, and sends it on its way to the
    /// journal, if no limit is reached and a slot of the ring is free.
    pub(crate) fn number<D: Disk, M: Ledger, R: Wait>(
        &mut self,
        rt: &R,
        table: &PipeTable,
        log: &LogSide<D, N, M>,
        desk: &mut Desk<N, M>,
        batch: UnnumberedBytes,
        node: RecordNode,
        sync: bool,
    ) -> Numbering
        requires table { table_id_of table.now ≡ N.table }
        requires desk { IsDeskIdle N.table N.opening desk.old }
        requires node { node ≡ None }
        ensures same { session_table desk.new.seat ≡ session_table desk.old.seat }
        ensures told { Numbers batch (session_shown desk.old.seat) result (session_shown desk.new.seat) }
        ensures cause { CausesNumbering batch self.old result }
        ensures sends { SendsWhereNumbered batch sync self.old self.new result }
        ensures own { Raises desk.old.own (added result) desk.new.own }
        ensures dead { desk.new.dead ≡ desk.old.dead }
        ensures met { desk.new.told ≡ desk.old.told }
    {
        let next = self.next;
        if self.placed >= BATCHES_MAX {
            table.show(&mut self.producer, &mut desk.seat);
            return Numbering::TooMany { next };
        }
        if u64::from(batch.count()) > NUMBER_MAX - next {
            return self.tell_exhausted(table, desk, batch, node);
        }
        if !table.slot_free(&mut self.producer) {
            return Numbering::Busy { batch, node };
        }
        let numbered = batch.number(next);
        self.next = numbered.end();
        let mut node = node;
        let index = enter(
            rt,
            table,
            &mut self.producer,
            &mut desk.seat,
            numbered,
            &mut node,
            sync,
        );
        self.placed = index + 1;
        log.send(rt, table, &mut self.sends, node);
        self.batches.add(&mut desk.own, 1);
        Numbering::Done { first: next, index }
    }

    /// Shows the session that so many numbers are used up that the batch has no room. The visible
    /// number is not above the next one, which the look makes known.
    fn tell_exhausted<M: Ledger>(
        &mut self,
        table: &PipeTable,
        desk: &mut Desk<N, M>,
        batch: UnnumberedBytes,
        node: RecordNode,
    ) -> Numbering
        requires table { table_id_of table.now ≡ N.table }
        requires desk { IsDeskIdle N.table N.opening desk.old }
        requires node { node ≡ None }
        requires over { NUMBER_MAX < self.old.next + count_of batch }
        requires few { self.old.placed < BATCHES_MAX }
        ensures same { session_table desk.new.seat ≡ session_table desk.old.seat }
        ensures told { Numbers batch (session_shown desk.old.seat) result (session_shown desk.new.seat) }
        ensures exhausted { IsExhausted self.old.next result }
        ensures own { desk.new.own ≡ desk.old.own }
        ensures dead { desk.new.dead ≡ desk.old.dead }
        ensures met { desk.new.told ≡ desk.old.told }
        ensures side { self.new ≡ self.old }
    {
        let next = self.next;
        if table.visible(&mut desk.seat) > next {
            return Numbering::Busy { batch, node };
        }
        table.show(&mut self.producer, &mut desk.seat);
        Numbering::Exhausted { next }
    }
}
