//! The pipeline, and its commits.
ghost use Rattle.std.specs.Prelude.{◌≡◌, ◌+◌, None, Err, true};
ghost use Rattle.memtable_shards.specs.Pieces.{whole_pieces};
ghost use Rattle.commit_queue.specs.Tables.{table_id_of};
ghost use Rattle.commit_queue.specs.Calls.{HoldsUnapplied};
ghost use Rattle.commit_queue.specs.Shown.{session_shown};
ghost use Rattle.commit_queue.specs.Seats.{session_table, session_view};
ghost use Rattle.commit_pipeline.specs.Commits.{TellsCommit};
ghost use Rattle.commit_pipeline.specs.Desks.{IsDeskIdle, Raises, TellsFault, known};
ghost use Rattle.commit_pipeline.specs.Desks.{deaths_by};
ghost use Rattle.commit_pipeline.specs.Ending.{StillKeeps};
ghost use Rattle.commit_pipeline.specs.Waits.{GetsNumber, StartsCommit, IsHeldEnd, PublishesHeld};
ghost use Rattle.commit_pipeline.specs.Waits.{WaitsFor, IsUnsynced};
ghost use Rattle.commit_pipeline.specs.Waits.{numbers_got, numbers_started, StartsLiving};
ghost use Rattle.commit_pipeline.specs.Waits.{deaths_started, deaths_waited};

use crate::commit_side::{CommitSide, Numbering};
use crate::desk::Desk;
use crate::fault::{CommitFault, Committed};
use crate::gate::{Gate, GatePoint};
use crate::log_side::LogSide;
use crate::name::PipeName;
use crate::session::Session;
use batch_repr::{BATCHES_MAX, Unnumbered, UnnumberedBytes};
use commit_queue::PipeTable;
use crossbeam_utils::CachePadded;
use disk_face::{Disk, Side, StallDisk};
use failover_writer::{Journal, JournalFault};
use memtable_shards::{Pieces, split};
use record_queue::RecordNode;
use shard_gate::ShardGate;
use std::alloc::Global;
use std::sync::ledger::Ledger;
use std::sync::{Mutex, Wait};

/// Why a batch got no number.
#[derive(Drop)]
pub(crate) enum Refusal {
    /// As many batches are numbered as there may be, of which this is the end.
    TooMany { next: u64 },
    /// The batch would end past the numbers, of which this one comes next.
    Exhausted { next: u64 },
}

/// A commit pipeline that its sessions share.
#[derive(Drop)]
pub struct Pipeline<'a, D: Disk, G: Gate, N: PipeName, M: Ledger> {
    pub(crate) alloc: Global,
    pub(crate) table: PipeTable,
    pub(crate) commits: CachePadded<Mutex<CommitSide<N>>>,
    pub(crate) log: LogSide<D, N, M>,
    pub(crate) gate: &'a G,
    ghost named: { table_id_of table ≡ N.table },
}

impl<'a, D: Disk, G: Gate, N: PipeName, M: Ledger> Pipeline<'a, D, G, N, M> {
    /// Commits a batch. With `sync` it waits until a sync covers the batch. `Dead`,
    /// `TooManyBatches` and `SeqExhausted` are looked for in this order, before the batch is
    /// numbered; a batch that is numbered is visible, whatever is answered.
    pub fn commit<R: Wait>(
        &self,
        rt: &R,
        session: &mut Session<N, M>,
        batch: Unnumbered,
        sync: bool,
    ) -> Result<Committed, CommitFault>
        ensures { TellsCommit N.opening batch sync session.old result session.new }
    {
        let (bytes, entries) = batch.into_parts();
        let pieces = split(self.alloc, entries)?;
        let node = RecordNode::empty(self.alloc)?;
        self.commit_pieces(rt, session, bytes, pieces, node, sync)
    }

    /// Commits a batch that is cut into pieces, and whose record goes into this node.
    fn commit_pieces<R: Wait>(
        &self,
        rt: &R,
        session: &mut Session<N, M>,
        batch: UnnumberedBytes,
        mut pieces: Pieces,
        node: RecordNode,
        sync: bool,
    ) -> Result<Committed, CommitFault>
        requires pieces { pieces ≡ whole_pieces batch }
        requires node { node ≡ None }
        ensures { TellsCommit N.opening batch sync session.old result session.new }
    {
        let count = batch.count();
        let desk = &mut session.desk;
        let (first, index) = self.start(rt, desk, batch, node, sync)?;
        self.gate.pass(session.number, GatePoint::Numbered);
        pieces.number(first);
        self.publish(rt, session.number, desk, pieces, first + u64::from(count));
        if sync {
            let numbers = Numbers {
                first,
                count,
                index,
            };
            self.wait_acked(rt, session.number, desk, numbers)?;
        } else {
            self.log.drive(rt, &self.table);
        }
        Ok(Committed {
            first,
            count,
            synced: sync,
        })
    }

    /// Numbers the batch and sends its record, or tells why not. A limit is told once all that made it is published.
    fn start<R: Wait>(
        &self,
        rt: &R,
        desk: &mut Desk<N, M>,
        batch: UnnumberedBytes,
        node: RecordNode,
        sync: bool,
    ) -> Result<(u64, u64), CommitFault>
        requires desk { IsDeskIdle N.table N.opening desk.old }
        requires node { node ≡ None }
        ensures same { session_table desk.new.seat ≡ session_table desk.old.seat }
        ensures started { StartsCommit N.opening batch (session_shown desk.old.seat) result (session_shown desk.new.seat) }
        ensures own { Raises desk.old.own (numbers_started result) desk.new.own }
        ensures dead { Raises desk.old.dead (deaths_started result) desk.new.dead }
        ensures met { Raises desk.old.told 0 desk.new.told }
        ensures lives { StartsLiving (known desk.old) result }
    {
        if let Some(mark) = self.log.refuses(rt, &self.table, desk) {
            return Err(CommitFault::Dead {
                side: mark.side,
                faults: mark.faults,
            });
        }
        match self.take_number(rt, desk, batch, node, sync) {
            Ok(numbers) => Ok(numbers),
            Err(Refusal::TooMany { next }) => {
                self.table.publish_until(rt, &mut desk.seat, next);
                Err(CommitFault::TooManyBatches { count: BATCHES_MAX })
            }
            Err(Refusal::Exhausted { next }) => {
                self.table.publish_until(rt, &mut desk.seat, next);
                Err(CommitFault::SeqExhausted { next })
            }
        }
    }

    /// Takes the commit lock until the batch is numbered or refused: again where the ring is full.
    pub(crate) fn take_number<R: Wait>(
        &self,
        rt: &R,
        desk: &mut Desk<N, M>,
        batch: UnnumberedBytes,
        node: RecordNode,
        sync: bool,
    ) -> Result<(u64, u64), Refusal>
        requires desk { IsDeskIdle N.table N.opening desk.old }
        requires node { node ≡ None }
        ensures same { session_table desk.new.seat ≡ session_table desk.old.seat }
        ensures taken { GetsNumber batch (session_shown desk.old.seat) result (session_shown desk.new.seat) }
        ensures own { Raises desk.old.own (numbers_got result) desk.new.own }
        ensures dead { desk.new.dead ≡ desk.old.dead }
        ensures met { desk.new.told ≡ desk.old.told }
    {
        let mut batch = batch;
        let mut node = node;
        let mut waiter = self.table.await_published();
        for _ in rt.forever() {
            let numbering = self
                .commits
                .lock(rt)
                .number(rt, &self.table, &self.log, desk, batch, node, sync);
            match numbering {
                Numbering::Done { first, index } => return Ok((first, index)),
                Numbering::Busy {
                    batch: again,
                    node: unused,
                } => {
                    batch = again;
                    node = unused;
                }
                Numbering::TooMany { next } => return Err(Refusal::TooMany { next }),
                Numbering::Exhausted { next } => return Err(Refusal::Exhausted { next }),
            }
            waiter.wait(rt);
        }
        unreachable!()
    }

    /// Applies the batch that the seat holds, marks it, and publishes until it is published.
    pub(crate) fn publish<R: Wait>(
        &self,
        rt: &R,
        session: u32,
        desk: &mut Desk<N, M>,
        pieces: Pieces,
        end: u64,
    )
        requires table { session_table desk.old.seat ≡ N.table }
        requires no_turn { (session_shown desk.old.seat).turn ≡ None }
        requires holds { HoldsUnapplied (session_view desk.old.seat) pieces }
        requires end { IsHeldEnd (session_shown desk.old.seat) end }
        ensures same { session_table desk.new.seat ≡ session_table desk.old.seat }
        ensures own { desk.new.own ≡ desk.old.own }
        ensures dead { desk.new.dead ≡ desk.old.dead }
        ensures met { desk.new.told ≡ desk.old.told }
        ensures published { PublishesHeld (session_shown desk.old.seat) (session_shown desk.new.seat) }
    {
        let seat = &mut desk.seat;
        ShardGate::over(self.alloc, &self.table).apply_all(rt, seat, pieces);
        self.gate.pass(session, GatePoint::Applied);
        self.table.mark(seat);
        self.gate.pass(session, GatePoint::Marked);
        self.table.publish_until(rt, seat, end);
        self.gate.pass(session, GatePoint::Published);
    }

    /// Waits until the batch is synced, or tells why it is not. Whoever finds the flush lock free steps the journal
    /// until its own batch is synced, and the others sleep meanwhile.
    fn wait_acked<R: Wait>(
        &self,
        rt: &R,
        session: u32,
        desk: &mut Desk<N, M>,
        numbers: Numbers,
    ) -> Result<(), CommitFault>
        requires desk { IsDeskIdle N.table N.opening desk.old }
        ensures same { session_table desk.new.seat ≡ session_table desk.old.seat }
        ensures waited { WaitsFor numbers (session_shown desk.old.seat) result (session_shown desk.new.seat) }
        ensures own { desk.new.own ≡ desk.old.own }
        ensures dead { Raises desk.old.dead (deaths_waited result) desk.new.dead }
        ensures met { desk.new.told ≡ desk.old.told }
    {
        let bells = &self.log.bells;
        let mut waiter = bells.waiter(session);
        for _ in rt.forever() {
            if self.table.acked(&mut desk.seat) > numbers.index {
                bells.leave(session);
                return Ok(());
            }
            let led = self.log.lead(rt, &self.table, session, desk, numbers.index);
            match led {
                Some(Ok(())) => {}
                Some(Err(fault)) => return Err(numbers.unsynced(fault)),
                None => {
                    bells.wait_for(session, numbers.index.saturating_add(1));
                    waiter.wait(rt);
                }
            }
        }
        unreachable!()
    }

    /// Gives the journal up as it stands.
    pub fn into_journal(self) -> Journal<D>
        ensures { StillKeeps D.tells D.view N.opening result }
    {
        let LogSide {
            flow: _flow,
            lock,
            died: _died,
            left: _left,
            bells: _bells,
        } = self.log;
        lock.into_inner().into_inner().journal
    }
}

/// What a batch was numbered with.
#[derive(Clone, Copy)]
pub(crate) struct Numbers {
    first: u64,
    count: u32,
    index: u64,
}

impl Numbers {
    /// Why the batch is not known to be synced.
    fn unsynced(self, fault: JournalFault) -> CommitFault
        requires { TellsFault fault }
        ensures told { IsUnsynced self result }
        ensures deaths { deaths_waited (Err result) ≡ deaths_by fault }
    {
        match fault {
            JournalFault::Dead { side, faults } => CommitFault::Unsynced {
                first: self.first,
                count: self.count,
                side,
                faults,
            },
            JournalFault::NoMemory => CommitFault::NoMemorySync {
                first: self.first,
                count: self.count,
            },
        }
    }
}

impl<'a, D: StallDisk, G: Gate, N: PipeName, M: Ledger> Pipeline<'a, D, G, N, M> {
    /// Leaves polls of a side to stall.
    pub fn stall<R: Wait>(&self, rt: &R, side: Side, polls: u32)
        requires { N.opening.start.may_stall ≡ true }
    {
        let mut log = self.log.lock.lock(rt);
        log.stall(side, polls);
        self.log.release(rt, &self.table, log);
    }
}
