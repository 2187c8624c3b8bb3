//! What is behind the flush lock, where the log is written. Nothing here is handed the commit lock.
ghost use Rattle.std.specs.Prelude.{◌≡◌, ◌↔◌, ◌+◌, ◌<◌, ◌≤◌, true, IsTrue, None, IsSome, OnOk, IfErr, IfSome};
ghost use Rattle.disk_face.specs.Calls.{Stalls};
ghost use Rattle.failover_writer.specs.State.{acked};
ghost use Rattle.record_flow.specs.Passes.{flow_id, flush_queue, take_view, send_queue, send_view};
ghost use Rattle.record_flow.specs.Flows.{WasEmpty, HasEnded, TookAll};
ghost use Rattle.commit_queue.specs.Tables.{table_id_of};
ghost use Rattle.commit_pipeline.specs.Desks.{Raises, known, TellsFault, deaths_stepped};
ghost use Rattle.commit_pipeline.specs.Meeting.{HearDeaths, deaths_heard};
ghost use Rattle.commit_pipeline.specs.Openings.{IsDeadBy};
ghost use Rattle.commit_pipeline.specs.Sides.{MovesNodes, MovesIn, AcksSynced, HasAckedSynced};
ghost use Rattle.commit_pipeline.specs.Sides.{DrivesJournal, StepsFor};
ghost use Rattle.commit_pipeline.specs.Logging.{SettlesJournal, FallsUnlessAcked};
ghost use Rattle.commit_pipeline.specs.Ties.{IsNextTo};

use crate::desk::{DeathCount, Desk};
use crate::name::PipeName;
use crate::session::Session;
use commit_queue::{FlushSeat, PipeTable, rest};
use disk_face::{Disk, Side, StallDisk};
use failover_writer::{DeadMark, Journal, JournalFault, Step, a_journal_at_hand};
use record_flow::{FlushPass, RecordFlow, SendPass};
use std::marker::{Model, PhantomData};
use std::sync::Wait;
use std::sync::ledger::{Book, Ledger, Share};

/// So many steps that have to wait are made between two rests.
const WAITS: u32 = 64;

/// The journal with the seat that tells what is synced, the pass that takes records off their way, and the
/// book of the other ledger.
#[derive(Drop)]
pub(crate) struct FlushSide<D: Disk, N: PipeName, M: Ledger> {
    pub(crate) journal: Journal<D>,
    pub(crate) flush: FlushSeat,
    pub(crate) pops: FlushPass,
    /// Counts the answers and the meetings that told of a death.
    pub(crate) answers: Book<M>,
    /// No part of the ledger, to gather the sessions' shares in.
    pub(crate) dead: Share<M>,
    pub(crate) name: PhantomData<N>,
}

impl<D: Disk, N: PipeName, M: Ledger> Model for FlushSide<D, N, M> {
    ghost use Rattle.commit_queue.specs.Seats.{flush_table, flush_seat_view};
    ghost use Rattle.record_flow.specs.Passes.{flush_queue, take_view};
    ghost use Rattle.commit_pipeline.specs.Sides.{FlushView};
    ghost use Rattle.commit_pipeline.specs.Ties.{Flushes, IsSpareShare};

    ghost Value = { FlushView D };

    ghost view = { λ l. record { journal = l.journal; flow = take_view l.pops; seat = flush_seat_view l.flush } };

    ghost invariant = { λ l.
        Flushes D.tells N.table N.queue N.opening l.journal.state (D.view l.journal.disk) (flush_table l.flush)
        (flush_seat_view l.flush) (flush_queue l.pops) (take_view l.pops) l.answers.total × IsSpareShare l.dead };
}

/// Moves the records found on their way into the journal, until none is found. It writes nothing, and takes
/// no memory.
fn move_all<D: Disk, R: Wait>(
    rt: &R,
    flow: &RecordFlow,
    pops: &mut FlushPass,
    journal: &mut Journal<D>,
)
    requires queue { flush_queue pops.old ≡ flow_id flow.now }
    requires next { IsNextTo (take_view pops.old) journal.old.state }
    ensures same { flush_queue pops.new ≡ flush_queue pops.old }
    ensures next { IsNextTo (take_view pops.new) journal.new.state }
    ensures moves { MovesNodes D.tells D.view (take_view pops.old) journal.old (take_view pops.new) journal.new }
    ensures empty { WasEmpty (take_view pops.new) }
    ensures all { HasEnded (take_view pops.new) → TookAll (take_view pops.new) }
{
    for _ in rt.forever() {
        match flow.take(rt, pops) {
            Some(node) => journal.push_node(node),
            None => return,
        };
    }
    unreachable!()
}

impl<D: Disk, N: PipeName, M: Ledger> FlushSide<D, N, M> {
    /// Moves the records found on their way into the journal.
    pub(crate) fn take_in<R: Wait>(&mut self, rt: &R, flow: &RecordFlow)
        requires queue { flow_id flow.now ≡ N.queue }
        ensures moves { MovesIn D.tells D.view self.old self.new }
        ensures empty { WasEmpty self.new.flow }
        ensures all { HasEnded self.new.flow → TookAll self.new.flow }
    {
        move_all(rt, flow, &mut self.pops, &mut self.journal);
    }

    /// The mark of a journal that is dead, which the session then knows of. `None` where it lives: then the
    /// session knew of no death.
    pub(crate) fn refuses(&mut self, desk: &mut Desk<N, M>) -> Option<DeadMark>
        requires part { desk.old.dead.parts ≡ 1 }
        ensures mark { result ≡ self.old.journal.state.dead }
        ensures dead_by { IfSome result (IsDeadBy self.old.journal.state) }
        ensures seat { desk.new.seat ≡ desk.old.seat }
        ensures own { desk.new.own ≡ desk.old.own }
        ensures dead { Raises desk.old.dead (deaths_heard result) desk.new.dead }
        ensures met { Raises desk.old.told 0 desk.new.told }
        ensures lives { result ≡ None → known desk.old ≡ 0 }
        ensures side { self.new ≡ self.old }
    {
        audit(&mut self.answers, &mut desk.dead, &mut desk.told);
        let mark = self.journal.dead()?;
        desk.dead.count(&mut self.answers);
        Some(mark)
    }

    /// Moves the records found, and does what the journal can do without waiting, which the acked word
    /// follows. A fault is not told here: a later commit, or the wait of this one, meets it.
    pub(crate) fn drive<R: Wait>(&mut self, rt: &R, table: &PipeTable, flow: &RecordFlow)
        requires table { table_id_of table.now ≡ N.table }
        requires queue { flow_id flow.now ≡ N.queue }
        ensures drives { DrivesJournal D.tells D.view self.old self.new }
    {
        self.take_in(rt, flow);
        self.settle(table);
    }

    /// Steps the journal as long as a step moves, which the acked word follows.
    fn settle(&mut self, table: &PipeTable)
        requires table { table_id_of table.now ≡ N.table }
        ensures settles { SettlesJournal D.view self.old.journal self.new.journal }
        ensures acks { AcksSynced self.old self.new }
        ensures flow { self.new.flow ≡ self.old.flow }
    {
        let _answer = self.journal.settle();
        table.raise_acked(&mut self.flush, self.journal.acked());
    }

    /// Moves the records found, and steps the journal once, which the acked word follows. A fault is told,
    /// and a death counts, only where the batch of this place is not synced then.
    pub(crate) fn step_for<R: Wait>(
        &mut self,
        rt: &R,
        table: &PipeTable,
        flow: &RecordFlow,
        desk: &mut Desk<N, M>,
        index: u64,
    ) -> Result<Step, JournalFault>
        requires table { table_id_of table.now ≡ N.table }
        requires queue { flow_id flow.now ≡ N.queue }
        requires part { desk.old.dead.parts ≡ 1 }
        ensures seat { desk.new.seat ≡ desk.old.seat }
        ensures own { desk.new.own ≡ desk.old.own }
        ensures dead { Raises desk.old.dead (deaths_stepped result) desk.new.dead }
        ensures met { desk.new.told ≡ desk.old.told }
        ensures steps { StepsFor D.tells D.view index self.old self.new result }
        ensures unacked { IfErr result (λ fault. acked self.new.journal.state ≤ index) }
        ensures fault { IfErr result TellsFault }
    {
        self.take_in(rt, flow);
        self.step_once(table, desk, index)
    }

    /// Steps the journal once, which the acked word follows. A sync that ends in the step in which the journal
    /// is found dead is not lost.
    fn step_once(
        &mut self,
        table: &PipeTable,
        desk: &mut Desk<N, M>,
        index: u64,
    ) -> Result<Step, JournalFault>
        requires table { table_id_of table.now ≡ N.table }
        requires part { desk.old.dead.parts ≡ 1 }
        ensures seat { desk.new.seat ≡ desk.old.seat }
        ensures own { desk.new.own ≡ desk.old.own }
        ensures dead { Raises desk.old.dead (deaths_stepped result) desk.new.dead }
        ensures met { desk.new.told ≡ desk.old.told }
        ensures falls { FallsUnlessAcked D.view index self.old.journal self.new.journal result }
        ensures unacked { IfErr result (λ fault. acked self.new.journal.state ≤ index) }
        ensures acks { AcksSynced self.old self.new }
        ensures flow { self.new.flow ≡ self.old.flow }
        ensures fault { IfErr result TellsFault }
    {
        let answer = self.journal.step();
        let acked = self.journal.acked();
        table.raise_acked(&mut self.flush, acked);
        a_journal_at_hand(&self.journal);
        match answer {
            Ok(step) => Ok(step),
            Err(_) if acked > index => Ok(Step::Moved),
            Err(fault) => {
                if let JournalFault::Dead { .. } = fault {
                    desk.dead.count(&mut self.answers);
                }
                Err(fault)
            }
        }
    }

    /// Does what the journal can do without waiting, and steps it until the batch of this place is synced. A step
    /// that has to wait is made again, some times at once and then after a rest. A fault is told, and a death
    /// counts, only where the batch is not synced then.
    pub(crate) fn lead<R: Wait>(
        &mut self,
        rt: &R,
        table: &PipeTable,
        flow: &RecordFlow,
        desk: &mut Desk<N, M>,
        index: u64,
    ) -> Result<(), JournalFault>
        requires table { table_id_of table.now ≡ N.table }
        requires queue { flow_id flow.now ≡ N.queue }
        requires part { desk.old.dead.parts ≡ 1 }
        ensures seat { desk.new.seat ≡ desk.old.seat }
        ensures own { desk.new.own ≡ desk.old.own }
        ensures dead { Raises desk.old.dead (deaths_stepped result) desk.new.dead }
        ensures met { desk.new.told ≡ desk.old.told }
        ensures acked { OnOk result (index < acked self.new.journal.state) }
        ensures acks { HasAckedSynced self.old self.new }
        ensures unacked { IfErr result (λ fault. acked self.new.journal.state ≤ index) }
        ensures fault { IfErr result TellsFault }
    {
        self.drive(rt, table, flow);
        let mut waits = 0u32;
        for _ in rt.forever() {
            if self.journal.acked() > index {
                return Ok(());
            }
            if self.step_for(rt, table, flow, desk, index)? != Step::Moved {
                waits = waits.wrapping_add(1);
                if waits % WAITS == 0 {
                    rest(rt);
                }
            }
        }
        unreachable!()
    }

    /// Whether the journal is dead.
    pub(crate) fn is_dead(&self) -> bool
        ensures { IsTrue result ↔ IsSome self.now.journal.state.dead }
    {
        self.journal.dead().is_some()
    }

    /// Nothing more is sent: all that was is moved into the journal.
    pub(crate) fn take_last<R: Wait>(&mut self, rt: &R, flow: &RecordFlow, sends: SendPass)
        requires queue { flow_id flow.now ≡ N.queue }
        requires sends { send_queue sends ≡ N.queue }
        ensures all { self.new.flow.taken ≡ (send_view sends).sent }
    {
        flow.end(rt, &mut self.pops, sends);
        move_all(rt, flow, &mut self.pops, &mut self.journal);
    }

    /// Tells each session that the journal is dead, where it is. Where it lives, none knows of a death.
    pub(crate) fn tell_deaths(&mut self, sessions: &mut [Session<N, M>])
        ensures side { self.new ≡ self.old }
        ensures told { HearDeaths self.old.journal.state.dead sessions.old sessions.new }
    {
        for session in sessions.iter_mut() {
            self.tell_death(&mut session.desk);
        }
    }

    /// Tells a session that the journal is dead, where it is.
    fn tell_death(&mut self, desk: &mut Desk<N, M>)
        requires part { desk.old.told.parts ≡ 1 }
        ensures seat { desk.new.seat ≡ desk.old.seat }
        ensures own { desk.new.own ≡ desk.old.own }
        ensures dead { Raises desk.old.dead 0 desk.new.dead }
        ensures told { Raises desk.old.told (deaths_heard self.old.journal.state.dead) desk.new.told }
        ensures lives { self.old.journal.state.dead ≡ None → known desk.old ≡ 0 }
        ensures side { self.new ≡ self.old }
    {
        audit(&mut self.answers, &mut desk.dead, &mut desk.told);
        if let Some(_) = self.journal.dead() {
            desk.told.count(&mut self.answers);
            return;
        }
    }
}

/// Where no death was counted, a session knows of none.
fn audit<M: Ledger>(answers: &mut Book<M>, dead: &mut DeathCount<M>, told: &mut DeathCount<M>)
    ensures total { answers.new.total ≡ answers.old.total }
    ensures dead { Raises dead.old 0 dead.new }
    ensures told { Raises told.old 0 told.new }
    ensures none { answers.old.total ≡ 0 → dead.old.amount + told.old.amount ≡ 0 }
{
    dead.audit(answers);
    told.audit(answers);
}

impl<D: StallDisk, N: PipeName, M: Ledger> FlushSide<D, N, M> {
    /// Leaves polls of a side to stall.
    pub(crate) fn stall(&mut self, side: Side, polls: u32)
        requires { N.opening.start.may_stall ≡ true }
        ensures state { self.new.journal.state ≡ self.old.journal.state }
        ensures flow { self.new.flow ≡ self.old.flow }
        ensures seat { self.new.seat ≡ self.old.seat }
        ensures stalled { Stalls side polls (D.view self.old.journal.disk) (D.view self.new.journal.disk) }
    {
        self.journal.stall(side, polls);
    }
}
