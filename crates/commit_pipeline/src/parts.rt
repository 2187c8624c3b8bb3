//! The parts of a pipeline, which have no name yet, and the pipeline that is made of them.
ghost use Rattle.std.specs.Prelude.{◌≡◌, ◌+◌, ◌<◌, ◌≤◌, length, IfOk, IfErr, OnOk};
ghost use Rattle.batch_repr.specs.declared.limits.TheConstants.{NUMBER_MAX, SESSIONS_MAX};
ghost use Rattle.batch_repr.specs.Batches.{count_of};
ghost use Rattle.failover_writer.specs.State.{len};
ghost use Rattle.memtable_shards.specs.declared.sharding.TheConstants.{SHARDS};
ghost use Rattle.memtable_shards.specs.Versions.{AreShardsOf};
ghost use Rattle.commit_pipeline.specs.Openings.{EndsBefore, opening_on};
ghost use Rattle.commit_pipeline.specs.Parts.{ArePartsOf, AreNew, AreSeatsOf, HaveReached, GainBatch};
ghost use Rattle.commit_pipeline.specs.Ties.{IsSpare};

use crate::bells::Bells;
use crate::commit_side::CommitSide;
use crate::desk::{DeathCount, Desk};
use crate::flush_side::FlushSide;
use crate::gate::Gate;
use crate::log_side::LogSide;
use crate::name::PipeName;
use crate::pipeline::Pipeline;
use crate::session::{Session, Sessions};
use batch_repr::{Batch, Batches};
use commit_queue::{FlushSeat, PipeTable, ProducerSeat, SessionSeats, Shards};
use crossbeam_utils::CachePadded;
use disk_face::Disk;
use failover_writer::Journal;
use memtable_shards::{SHARDS, Shard, split};
use record_flow::{FlushPass, RecordFlow, SendPass};
use std::alloc::Global;
use std::marker::{Model, PhantomData};
use std::snapshot::Snapshot;
use std::sync::Mutex;
use std::sync::atomic::AtomicBool;
use std::sync::ledger::{Blank, Ledger, Share};
use wal_base::{ListOf, NoMemory};

/// What a pipeline is made of, beside its journal.
#[derive(Drop)]
pub struct Parts {
    alloc: Global,
    base: Snapshot<Batches>,
    next: u64,
    table: PipeTable,
    producer: ProducerSeat,
    flush: FlushSeat,
    seats: SessionSeats,
    flow: RecordFlow,
    sends: SendPass,
    pops: FlushPass,
    batches: Blank,
    answers: Blank,
}

impl Model for Parts {
    ghost use Rattle.std.specs.Prelude.{◌≡◌, ◌+◌};
    ghost use Rattle.commit_queue.specs.Tables.{table_id_of};
    ghost use Rattle.record_flow.specs.Passes.{flow_id, OpensFlow};
    ghost use Rattle.commit_pipeline.specs.Parts.{PartsView, FitTogether};

    ghost Value = { PartsView };

    ghost view = { λ p. record {
      base = p.base.value;
      next = p.next;
      sessions = p.batches.parts;
      table = table_id_of p.table;
      queue = flow_id p.flow;
      batches = p.batches.name;
      answers = p.answers.name;
    } };

    ghost invariant = { λ p.
        FitTogether p.base.value p.next p.batches.parts p.table p.producer p.flush p.seats
        × OpensFlow p.next p.flow p.sends p.pops × (p.answers.parts ≡ p.batches.parts + p.batches.parts) };
}

impl Parts {
    /// The parts of a pipeline with so many sessions. `base` are the batches before those of the
    /// journal, which reads will see: the shards take their bytes over. `next` is the number after them.
    pub fn new(alloc: Global, base: Batches, next: u64, sessions: usize) -> Result<Parts, NoMemory>
        requires sessions { (1 ≤ sessions) × (sessions ≤ SESSIONS_MAX) }
        requires within { next ≤ NUMBER_MAX }
        requires base { EndsBefore base next }
        ensures { IfOk result (λ parts. ArePartsOf base next sessions parts) }
    {
        let seen = Snapshot::of(&base);
        let shards = load(alloc, base, next)?;
        let made = PipeTable::new(alloc, sessions as u32, next, shards)?;
        let (table, producer, flush, seats) = made;
        let (flow, sends, pops) = RecordFlow::new(alloc, next)?;
        Ok(Parts {
            alloc,
            base: seen,
            next,
            table,
            producer,
            flush,
            seats,
            flow,
            sends,
            pops,
            batches: Blank::new(sessions as u64),
            answers: Blank::new(2 * sessions as u64),
        })
    }
}

/// The versions of the batches, in eight shards, which take their bytes over.
fn load(alloc: Global, base: Batches, next: u64) -> Result<Shards, NoMemory>
    requires base { EndsBefore base next }
    requires within { next ≤ NUMBER_MAX }
    ensures eight { IfOk result (λ shards. length shards ≡ SHARDS) }
    ensures loaded { IfOk result (λ shards. AreShardsOf shards base) }
{
    let mut shards = Vec::with_capacity(alloc, SHARDS)?;
    for _ in 0..SHARDS {
        shards.push(Shard::new(alloc)?)?;
    }
    for batch in base.into_vec() {
        apply(alloc, &mut shards, batch)?;
    }
    // Here it is done shard by shard, and no read has to.
    for place in 0..SHARDS {
        shards[place].settle()?;
    }
    let mut list = ListOf::with_capacity(alloc, SHARDS)?;
    for shard in shards {
        list.push(shard).map_err(|_| NoMemory)?;
    }
    Ok(list)
}

/// Adds the versions of a batch, whose first number is the next one.
fn apply(alloc: Global, shards: &mut Vec<Shard>, batch: Batch) -> Result<(), NoMemory>
    requires some { 0 < count_of batch.entries }
    requires within { batch.first + count_of batch.entries ≤ NUMBER_MAX }
    requires reached { HaveReached batch.first shards.old.items }
    ensures { OnOk result (GainBatch batch shards.old.items shards.new.items) }
{
    let entries = batch.entries.to_entries(alloc)?;
    let mut pieces = split(alloc, entries)?;
    pieces.number(batch.first);
    while let Some((shard, piece)) = pieces.take() {
        shards[shard].apply(piece);
    }
    Ok(())
}

impl<'a, D: Disk, G: Gate, N: PipeName, M: Ledger> Pipeline<'a, D, G, N, M> {
    /// The pipeline of these parts, over a journal that has no record, and its sessions. It makes no
    /// disk call. `Err` means out of memory and hands the journal back.
    pub fn new(
        journal: Journal<D>,
        parts: Parts,
        gate: &'a G,
    ) -> Result<(Pipeline<'a, D, G, N, M>, Sessions<N, M>), Journal<D>>
        requires opening { N.opening ≡ opening_on D.view parts.base journal N.opening.start.may_stall }
        requires table { parts.table ≡ N.table }
        requires queue { parts.queue ≡ N.queue }
        requires batches { (parts.batches ≡ N.name) × (parts.sessions ≡ N.parts) }
        requires answers { (parts.answers ≡ M.name) × (parts.sessions + parts.sessions ≡ M.parts) }
        requires empty { len journal.state ≡ 0 }
        requires next { journal.state.next ≡ parts.next }
        ensures sessions { IfOk result (λ made. AreNew parts.sessions made.1.items) }
        ensures err { IfErr result (λ back. back ≡ journal) }
    {
        let Parts {
            alloc,
            base: _,
            next,
            table,
            producer,
            flush,
            seats,
            flow,
            sends,
            pops,
            batches,
            answers,
        } = parts;
        // Of a journal of no record no segment is begun, and it lives.
        let _none = journal.len();
        let (batches, mut own) = batches.open::<N>();
        let (answers, mut dead) = answers.open::<M>();
        let Ok(sessions) = seated(alloc, seats, &mut own, &mut dead) else {
            return Err(journal);
        };
        let commits = CachePadded::new(Mutex::new(CommitSide::<N> {
            next,
            placed: 0,
            producer,
            sends,
            batches,
            own,
        }));
        let lock = CachePadded::new(Mutex::new(FlushSide::<D, N, M> {
            journal,
            flush,
            pops,
            answers,
            dead,
            name: PhantomData,
        }));
        let pipeline = Pipeline {
            alloc,
            table,
            commits,
            log: LogSide {
                flow,
                lock,
                died: AtomicBool::new(false),
                left: CachePadded::new(AtomicBool::new(false)),
                bells: Bells::new(),
            },
            gate,
        };
        Ok((pipeline, sessions))
    }
}

/// A session for each seat, with a part of the ledger of batches, and two of the other.
fn seated<N: PipeName, M: Ledger>(
    alloc: Global,
    seats: SessionSeats,
    own: &mut Share<N>,
    dead: &mut Share<M>,
) -> Result<Sessions<N, M>, NoMemory>
    requires seats { AreSeatsOf N.table N.opening seats }
    requires few { length seats ≤ SESSIONS_MAX }
    requires own { (own.old.parts ≡ length seats) × (own.old.amount ≡ 0) }
    requires dead { (dead.old.parts ≡ length seats + length seats) × (dead.old.amount ≡ 0) }
    ensures new { IfOk result (λ sessions. AreNew (length seats) sessions.items) }
    ensures own { OnOk result (IsSpare own.new.parts own.new.amount) }
    ensures dead { OnOk result (IsSpare dead.new.parts dead.new.amount) }
{
    let mut sessions = Vec::with_capacity(alloc, seats.len())?;
    for seat in seats.into_vec() {
        let number = sessions.len() as u32;
        let desk = Desk {
            seat,
            own: own.split_off(1, 0),
            dead: DeathCount::none(dead.split_off(1, 0)),
            told: DeathCount::none(dead.split_off(1, 0)),
        };
        sessions.push(Session::<N, M> { number, desk })?;
    }
    Ok(sessions)
}
