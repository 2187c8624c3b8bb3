//! The way to the log: the queue of the records, and the journal behind its lock.
//!
//! Who finds the lock taken leaves what is to be done to whoever has it, who looks again once it is let go.
//!
//! A thread may take this lock while it has the commit lock, and never the other way round: nothing here is
//! handed the commit lock.
ghost use Rattle.std.specs.Prelude.{◌≡◌, None, IfErr, IfSome};
ghost use Rattle.record_flow.specs.Passes.{flow_id, send_queue, send_view};
ghost use Rattle.record_flow.specs.Flows.{CanSend, SendsRecord};
ghost use Rattle.commit_queue.specs.Tables.{table_id_of};
ghost use Rattle.commit_pipeline.specs.Commits.{TellsDeath};
ghost use Rattle.commit_pipeline.specs.Desks.{Raises, known, TellsFault, deaths_led};
ghost use Rattle.commit_pipeline.specs.Meeting.{deaths_heard};

use crate::bells::Bells;
use crate::desk::Desk;
use crate::flush_side::FlushSide;
use crate::name::PipeName;
use commit_queue::{PipeTable, rest};
use crossbeam_utils::CachePadded;
use disk_face::Disk;
use failover_writer::{DeadMark, JournalFault};
use record_flow::{RecordFlow, SendPass};
use record_queue::RecordNode;
use std::sync::atomic::{AtomicBool, Ordering};
use std::sync::ledger::Ledger;
use std::sync::{Mutex, MutexGuard, Wait};

/// So often in a row a thread writes what others left to it.
const TURNS: u32 = 8;

/// The queue and what is behind the flush lock.
#[derive(Drop)]
pub(crate) struct LogSide<D: Disk, N: PipeName, M: Ledger> {
    pub(crate) flow: RecordFlow,
    pub(crate) lock: CachePadded<Mutex<FlushSide<D, N, M>>>,
    /// Whether the journal was found dead. It is set before the lock is let go.
    pub(crate) died: AtomicBool,
    /// Whether a record was left to whoever has the lock.
    pub(crate) left: CachePadded<AtomicBool>,
    /// Where sessions sleep until their batches are synced.
    pub(crate) bells: Bells,
    ghost named: { flow_id flow ≡ N.queue },
}

impl<D: Disk, N: PipeName, M: Ledger> LogSide<D, N, M> {
    /// Sends a record after all others. Where there is no memory for its place, those on their way are moved into
    /// the journal, which may give memory back.
    pub(crate) fn send<R: Wait>(
        &self,
        rt: &R,
        table: &PipeTable,
        sends: &mut SendPass,
        node: RecordNode,
    )
        requires table { table_id_of table.now ≡ N.table }
        requires queue { send_queue sends.old ≡ N.queue }
        requires next { CanSend (send_view sends.old) node }
        ensures queue { send_queue sends.new ≡ send_queue sends.old }
        ensures sent { SendsRecord node (send_view sends.old) (send_view sends.new) }
    {
        let mut node = node;
        for _ in rt.forever() {
            match self.flow.send(rt, sends, node) {
                Ok(()) => return,
                Err(back) => node = back,
            }
            let mut side = self.lock.lock(rt);
            side.take_in(rt, &self.flow);
            self.release(rt, table, side);
            rest(rt);
        }
        unreachable!()
    }

    /// The mark of a journal that is dead, which the session then knows of. `None` where it lives, or where
    /// none knows yet that it does not: then the session knew of no death. Where no death is known the lock is
    /// not taken.
    pub(crate) fn refuses<R: Wait>(
        &self,
        rt: &R,
        table: &PipeTable,
        desk: &mut Desk<N, M>,
    ) -> Option<DeadMark>
        requires table { table_id_of table.now ≡ N.table }
        requires part { desk.old.dead.parts ≡ 1 }
        ensures told { IfSome result (λ mark. TellsDeath mark.side mark.faults) }
        ensures seat { desk.new.seat ≡ desk.old.seat }
        ensures own { desk.new.own ≡ desk.old.own }
        ensures dead { Raises desk.old.dead (deaths_heard result) desk.new.dead }
        ensures met { Raises desk.old.told 0 desk.new.told }
        ensures lives { result ≡ None → known desk.old ≡ 0 }
    {
        if !self.died.load(Ordering::SeqCst) && !desk.knows_death() {
            return None;
        }
        let mut side = self.lock.lock(rt);
        let mark = side.refuses(desk);
        self.release(rt, table, side);
        mark
    }

    /// Moves the records found, and does what the journal can do without waiting. Where another thread has the
    /// lock, that one does it.
    pub(crate) fn drive<R: Wait>(&self, rt: &R, table: &PipeTable)
        requires table { table_id_of table.now ≡ N.table }
    {
        if !self.left.load(Ordering::SeqCst) {
            self.left.store(true, Ordering::SeqCst);
        }
        self.drive_left(rt, table);
    }

    /// Does what was left to whoever has the lock, where no other thread has it by now. After some turns it is left
    /// to the sessions that go on committing, so that this one is not kept for them.
    fn drive_left<R: Wait>(&self, rt: &R, table: &PipeTable)
        requires table { table_id_of table.now ≡ N.table }
    {
        for _ in 0..TURNS {
            if !self.left.load(Ordering::SeqCst) {
                return;
            }
            let Some(mut side) = self.lock.try_lock() else {
                return;
            };
            self.left.store(false, Ordering::SeqCst);
            side.drive(rt, table, &self.flow);
            self.let_go(side);
        }
    }

    /// Steps the journal until the batch of this place is synced, for all whose batches are. `None` where another
    /// thread has the lock. A fault counts where the batch is not synced then.
    pub(crate) fn lead<R: Wait>(
        &self,
        rt: &R,
        table: &PipeTable,
        session: u32,
        desk: &mut Desk<N, M>,
        index: u64,
    ) -> Option<Result<(), JournalFault>>
        requires table { table_id_of table.now ≡ N.table }
        requires part { desk.old.dead.parts ≡ 1 }
        ensures seat { desk.new.seat ≡ desk.old.seat }
        ensures own { desk.new.own ≡ desk.old.own }
        ensures dead { Raises desk.old.dead (deaths_led result) desk.new.dead }
        ensures met { desk.new.told ≡ desk.old.told }
        ensures fault { IfSome result (λ led. IfErr led TellsFault) }
    {
        let mut side = self.lock.try_lock()?;
        self.bells.leave(session);
        let led = side.lead(rt, table, &self.flow, desk, index);
        self.release(rt, table, side);
        Some(led)
    }

    /// Lets the lock go, and does what was left to this thread meanwhile.
    pub(crate) fn release<R: Wait>(
        &self,
        rt: &R,
        table: &PipeTable,
        side: MutexGuard<'_, FlushSide<D, N, M>>,
    )
        requires table { table_id_of table.now ≡ N.table }
    {
        self.let_go(side);
        self.drive_left(rt, table);
    }

    /// Lets the lock go, and wakes those who have something to do then. Where the journal is dead, the word is set
    /// before.
    fn let_go(&self, side: MutexGuard<'_, FlushSide<D, N, M>>) {
        if side.is_dead() {
            self.died.store(true, Ordering::SeqCst);
        }
        let synced = side.journal.acked();
        drop(side);
        self.bells.ring(synced);
    }
}
