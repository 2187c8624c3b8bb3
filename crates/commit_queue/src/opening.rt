//! A table is made, with its seats.
ghost use Rattle.std.specs.Prelude.{◌≡◌, ◌<◌, ◌≤◌, [], true, length, map, Some, IfOk};
ghost use Rattle.publish_core.specs.declared.seat.Kind.TheVariants.{Worker};
ghost use Rattle.batch_repr.specs.declared.limits.TheConstants.{SESSIONS_MAX};
ghost use Rattle.memtable_shards.specs.declared.sharding.TheConstants.{SHARDS};
ghost use Rattle.commit_queue.specs.Shards.{NumberedBelow};
ghost use Rattle.commit_queue.specs.Views.{first_view, IsJustOpened};
ghost use Rattle.commit_queue.specs.Views.{telling_view, shown_view, flush_view};

use crate::layout::{VISIBLE, WORDS};
use crate::pipe_table::{AtomicTable, PipeTable, Shards, TableOpening, TableSeat};
use crate::seats::{FlushSeat, ProducerSeat, SessionSeat, SessionSeats};
use crate::steps::{SeatFlush, SeatSession};
use atomic_table::Table;
use crossbeam_utils::CachePadded;
use crossbeam_utils::sync::EventCount;
use memtable_shards::Shard;
use std::alloc::Global;
use std::array;
use std::snapshot::Snapshot;
use wal_base::{ListOf, NoMemory};

impl PipeTable {
    ghost use Rattle.commit_queue.specs.Tables.{IsOfTable};
    ghost use Rattle.commit_queue.specs.Seats.{producer_table, producer_view, IsNewProducer};
    ghost use Rattle.commit_queue.specs.Seats.{flush_table, flush_seat_view, IsNewFlush};
    ghost use Rattle.commit_queue.specs.Seats.{session_table, session_view, AreNewSessions};

    /// A table whose first number is `base`, over shards that have no version numbered `base` or
    /// above, with the producer's seat, the flush seat and a seat for each session.
    pub fn new(
        alloc: Global,
        sessions: u32,
        base: u64,
        shards: Shards,
    ) -> Result<(PipeTable, ProducerSeat, FlushSeat, SessionSeats), NoMemory>
        requires sessions { (1 ≤ sessions) × (sessions ≤ SESSIONS_MAX) }
        requires eight { length shards ≡ SHARDS }
        requires below { NumberedBelow base shards }
        ensures producer { IfOk result (λ made. IsNewProducer made.0 base shards made.1) }
        ensures flush { IfOk result (λ made. IsNewFlush made.0 base shards made.2) }
        ensures sessions { IfOk result (λ made. AreNewSessions made.0 base shards sessions made.3) }
    {
        let (table, mut p) = PipeTable::over(alloc, base, shards)?;
        let flush = table.seat_flush(&mut p);
        let seats = table.seat_sessions(alloc, &mut p, sessions)?;
        Ok((table, p, flush, seats))
    }

    /// The table, with the producer's seat alone.
    fn over(alloc: Global, base: u64, shards: Shards) -> Result<(PipeTable, ProducerSeat), NoMemory>
        requires eight { length shards ≡ SHARDS }
        requires below { NumberedBelow base shards }
        ensures table { IfOk result (λ made. IsOfTable made.0 (producer_table made.1)) }
        ensures view { IfOk result (λ made. producer_view made.1 ≡ first_view base shards) }
    {
        let mut words = [0u64; WORDS];
        words[VISIBLE] = base;
        let opening = TableOpening {
            base,
            shards: Snapshot::of(&shards),
        };
        let slots = into_slots(alloc, shards)?;
        let made: Result<(AtomicTable, TableSeat), _> = Table::new(alloc, &words, slots, &opening);
        let Ok((table, seat)) = made else {
            return Err(NoMemory);
        };
        let p = ProducerSeat {
            seat,
            head: 0,
            end: 0,
            turn: None,
        };
        let table = PipeTable {
            table,
            published: CachePadded::new(EventCount::new()),
            returned: array::from_fn(|_| CachePadded::new(EventCount::new())),
        };
        Ok((table, p))
    }

    /// The flush seat, which is made before any session's.
    fn seat_flush(&self, p: &mut ProducerSeat) -> FlushSeat
        requires table { IsOfTable self.now (producer_table p.old) }
        requires alone { (producer_view p.old).acked_known.alone ≡ true }
        requires calm { (producer_view p.old).absorbed ≡ [] }
        ensures same { producer_table p.new ≡ producer_table p.old }
        ensures view { producer_view p.new ≡ telling_view (producer_view p.old) }
        ensures table { flush_table result ≡ producer_table p.old }
        ensures flush { flush_seat_view result ≡ flush_view (producer_view p.old) }
    {
        FlushSeat {
            seat: self.table.shared.split_seat::<SeatFlush>(&mut p.seat),
        }
    }

    /// A session's seat.
    fn seat_session(&self, p: &mut ProducerSeat) -> SessionSeat
        requires table { IsOfTable self.now (producer_table p.old) }
        ensures same { producer_table p.new ≡ producer_table p.old }
        ensures view { producer_view p.new ≡ telling_view (producer_view p.old) }
        ensures table { session_table result ≡ producer_table p.old }
        ensures session { session_view result ≡ shown_view Worker (producer_view p.old) }
    {
        SessionSeat {
            seat: self.table.shared.split_seat::<SeatSession>(&mut p.seat),
            index: 0,
            end: 0,
            turn: None,
        }
    }

    /// The seats of so many sessions.
    fn seat_sessions(
        &self,
        alloc: Global,
        p: &mut ProducerSeat,
        sessions: u32,
    ) -> Result<SessionSeats, NoMemory>
        requires table { IsOfTable self.now (producer_table p.old) }
        requires opened { IsJustOpened (producer_view p.old) }
        ensures same { producer_table p.new ≡ producer_table p.old }
        ensures view { producer_view p.new ≡ producer_view p.old }
        ensures new { IfOk result (AreNewSessions self.now (producer_view p.old).base (producer_view p.old).opening sessions) }
    {
        let mut seats = ListOf::with_capacity(alloc, sessions as usize)?;
        for _ in 0..sessions {
            let seat = self.seat_session(p);
            seats.push(seat).map_err(|_| NoMemory)?;
        }
        Ok(seats)
    }
}

/// The shards as a table keeps them: each in a slot of its own.
fn into_slots(alloc: Global, shards: Shards) -> Result<Vec<Option<Shard>>, NoMemory>
    ensures { IfOk result (λ slots. slots.items ≡ map Some shards) }
{
    let mut slots = Vec::with_capacity(alloc, shards.len())?;
    for shard in shards.into_vec() {
        slots.push(Some(shard))?;
    }
    Ok(slots)
}
