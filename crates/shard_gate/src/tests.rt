//! What the gate does, by examples.
ghost use Rattle.std.specs.Prelude.{◌≡◌, [], None, replicate};
ghost use Rattle.memtable_shards.specs.declared.sharding.TheConstants.{SHARDS};
ghost use Rattle.memtable_shards.specs.Pieces.{whole_pieces};
ghost use Rattle.commit_queue.specs.Calls.{AwaitsBatch, HoldsAdmitted, HoldsUnapplied};
ghost use Rattle.commit_queue.specs.Tables.{IsOfTable};
ghost use Rattle.commit_queue.specs.Seats.{producer_table, producer_view, HoldsNothing};
ghost use Rattle.commit_queue.specs.Seats.{session_table, session_view};
ghost use Rattle.shard_gate.specs.Gates.{gate_table};

use crate::{PieceBusy, ReadBusy, ShardGate};
use batch_repr::{BATCHES_MAX, NUMBER_MAX, UnnumberedBytes};
use commit_queue::{PipeTable, ProducerSeat, Published, SessionSeat, Shards};
use memtable_shards::{Pieces, SHARDS, Shard, shard_index, split};
use std::alloc::Global;
use std::process::Abort;
use std::sync::Wait;
use test_rigs::{Change, batch_of};
use wal_base::{Blob, ListOf};

const FIRST: u64 = 10;

/// A table whose first number is 10, with two sessions.
#[derive(Drop)]
struct Rig {
    alloc: Global,
    table: PipeTable,
    producer: ProducerSeat,
    one: SessionSeat,
    other: SessionSeat,
    next: u64,
    placed: u64,
    ghost producer_of: { IsOfTable table (producer_table producer) },
    ghost one_of: { IsOfTable table (session_table one) },
    ghost other_of: { IsOfTable table (session_table other) },
    ghost awaits: { AwaitsBatch (producer_view producer) next placed },
    ghost other_idle: { HoldsNothing (session_view other) },
}

/// Eight shards without a version.
fn eight(rt: &impl Abort, alloc: Global) -> Shards
    ensures { result ≡ replicate SHARDS [] }
{
    let mut shards = ListOf::new(alloc);
    for _ in 0..SHARDS {
        let shard = Shard::new(alloc).expect(rt, "memory");
        if shards.push(shard).is_err() {
            panic!(rt; "memory");
        }
    }
    shards
}

/// A batch of one entry, not numbered yet, with its pieces.
#[derive(Drop)]
struct Ready {
    batch: UnnumberedBytes,
    pieces: Pieces,
    ghost whole: { pieces ≡ whole_pieces batch },
}

/// A batch that sets the key, or that deletes it.
fn one_entry(rt: &impl Abort, alloc: Global, key: &[u8], value: Option<&[u8]>) -> Ready {
    let change = match value {
        Some(value) => Change::Set(key, value),
        None => Change::Delete(key),
    };
    let batch = batch_of(alloc, &[change]).expect(rt, "memory");
    let (batch, entries) = batch.into_parts();
    let pieces = split(alloc, entries).expect(rt, "memory");
    Ready { batch, pieces }
}

impl Rig {
    fn open(rt: &impl Abort, alloc: Global) -> Rig
        ensures idle { HoldsNothing (session_view result.one) }
        ensures none { (session_view result.one).pieces ≡ [] }
    {
        let made = PipeTable::new(alloc, 2, FIRST, eight(rt, alloc));
        let Ok((table, producer, _flush, mut sessions)) = made else {
            panic!(rt; "memory");
        };
        let (Some(other), Some(one)) = (sessions.pop(), sessions.pop()) else {
            panic!(rt; "two sessions");
        };
        Rig {
            alloc,
            table,
            producer,
            one,
            other,
            next: FIRST,
            placed: 0,
        }
    }

    /// Places and admits the batch, hands it over to the session, and answers its pieces.
    fn send<R: Wait + Abort>(&mut self, rt: &R, ready: Ready) -> Pieces
        requires idle { HoldsNothing (session_view self.old.one) }
        requires none { (session_view self.old.one).pieces ≡ [] }
        ensures admitted { HoldsAdmitted (session_view self.new.one) }
        ensures holds { HoldsUnapplied (session_view self.new.one) result }
        ensures no_turn { (session_view self.new.one).seat.turn ≡ None }
    {
        let Ready { batch, mut pieces } = ready;
        if self.placed >= BATCHES_MAX || self.next > NUMBER_MAX {
            panic!(rt; "a batch left");
        }
        if u64::from(batch.count()) > NUMBER_MAX - self.next {
            panic!(rt; "a number left");
        }
        if !self.table.slot_free(&mut self.producer) {
            panic!(rt; "a free slot");
        }
        pieces.number(self.next);
        let numbered = batch.number(self.next);
        self.table.place(&mut self.producer, &numbered);
        self.table.admit(&mut self.producer);
        self.next = numbered.end();
        self.placed += 1;
        let note = self.table.hand_over(rt, &mut self.producer);
        self.table.adopt(&mut self.one, note);
        pieces
    }

    /// The session commits a batch of one entry, and publishes it.
    fn commit<R: Wait + Abort>(&mut self, rt: &R, key: &[u8], value: Option<&[u8]>)
        requires idle { HoldsNothing (session_view self.old.one) }
        requires none { (session_view self.old.one).pieces ≡ [] }
        ensures idle { HoldsNothing (session_view self.new.one) }
        ensures none { (session_view self.new.one).pieces ≡ [] }
    {
        let ready = one_entry(rt, self.alloc, key, value);
        let pieces = self.send(rt, ready);
        ShardGate::over(self.alloc, &self.table).apply_all(rt, &mut self.one, pieces);
        self.table.mark(&mut self.one);
        let end = self.next;
        self.table.publish_until(rt, &mut self.one, end);
    }

    /// What the session reads of a key after all that is published.
    fn read(&mut self, key: &[u8]) -> Result<Option<Blob>, ReadBusy>
        requires no_turn { (session_view self.old.one).seat.turn ≡ None }
        ensures no_turn { (session_view self.new.one).seat.turn ≡ None }
    {
        let visible = self.table.visible(&mut self.one);
        ShardGate::over(self.alloc, &self.table).try_newest(&mut self.one, key, visible)
    }
}

/// A table whose first number is 10, with the producer's seat and one session.
fn with_one_session(rt: &impl Abort, alloc: Global) -> (PipeTable, ProducerSeat, SessionSeat)
    ensures producer { IsOfTable result.0 (producer_table result.1) }
    ensures session { IsOfTable result.0 (session_table result.2) }
    ensures awaits { AwaitsBatch (producer_view result.1) FIRST 0 }
    ensures idle { HoldsNothing (session_view result.2) }
    ensures none { (session_view result.2).pieces ≡ [] }
{
    let made = PipeTable::new(alloc, 1, FIRST, eight(rt, alloc));
    let Ok((table, producer, _flush, mut sessions)) = made else {
        panic!(rt; "memory");
    };
    let Some(session) = sessions.pop() else {
        panic!(rt; "a session");
    };
    (table, producer, session)
}

/// Applies the one piece of the batch that the session holds, and marks the batch.
fn apply_and_mark(
    rt: &impl Abort,
    gate: &ShardGate<'_>,
    session: &mut SessionSeat,
    mut pieces: Pieces,
)
    requires table { session_table session.old ≡ gate_table gate.now }
    requires no_turn { (session_view session.old).seat.turn ≡ None }
    requires holds { HoldsUnapplied (session_view session.old) pieces }
    ensures same { session_table session.new ≡ session_table session.old }
    ensures no_turn { (session_view session.new).seat.turn ≡ None }
{
    let Some((shard, piece)) = pieces.take() else {
        panic!(rt; "a piece");
    };
    let Ok(()) = gate.try_apply(session, shard, piece) else {
        panic!(rt; "a free shard");
    };
    let None = pieces.take() else {
        panic!(rt; "one piece");
    };
    gate.table.mark(session);
}

/// What an attempt to publish tells that found these ends, and this word at the front.
fn not_ready(head: u32, tail: u32, word: u64) -> Published {
    Published::NotReady { head, tail, word }
}

#[test]
fn one_session_publishes_a_batch_step_by_step_and_reads_it(rt: HostRuntime) {
    let alloc = rt.alloc();
    let (table, mut producer, mut session) = with_one_session(&rt, alloc);
    assert_eq!(rt; table.try_publish(&mut session), not_ready(0, 0, 0));
    let Ready { batch, mut pieces } = one_entry(&rt, alloc, b"a", Some(b"1"));
    if !table.slot_free(&mut producer) {
        panic!(rt; "a free slot");
    }
    pieces.number(FIRST);
    table.place(&mut producer, &batch.number(FIRST));
    assert_eq!(rt; table.admit(&mut producer), 0);
    let Ok(note) = table.hand(&mut producer) else {
        panic!(rt; "memory");
    };
    table.adopt(&mut session, note);
    assert_eq!(rt; table.try_publish(&mut session), not_ready(1, 0, 22));
    let gate = ShardGate::over(alloc, &table);
    apply_and_mark(&rt, &gate, &mut session, pieces);
    let Published::Raised { index, visible } = table.try_publish(&mut session) else {
        panic!(rt; "a batch at the front");
    };
    assert_eq!(rt; (index, visible), (0, 11));
    let value = gate
        .try_newest(&mut session, b"a", visible)
        .expect(&rt, "a free shard");
    let value = value.expect(&rt, "a value");
    assert_eq!(rt; value.as_slice(), b"1".as_slice());
}

#[test]
fn a_batch_is_read_once_it_is_applied_and_published(rt: HostRuntime) {
    let rig = &mut Rig::open(&rt, rt.alloc());
    let ready = one_entry(&rt, rig.alloc, b"a", Some(b"1"));
    let pieces = rig.send(&rt, ready);
    let unmarked = Published::NotReady {
        head: 1,
        tail: 0,
        word: 22,
    };
    assert_eq!(rt; rig.table.try_publish(&mut rig.other), unmarked);
    let gate = ShardGate::over(rig.alloc, &rig.table);
    gate.apply_all(&rt, &mut rig.one, pieces);
    rig.table.mark(&mut rig.one);
    let raised = Published::Raised {
        index: 0,
        visible: 11,
    };
    assert_eq!(rt; rig.table.try_publish(&mut rig.one), raised);
    let visible = rig.table.visible(&mut rig.one);
    assert_eq!(rt; visible, 11);
    let value = gate
        .try_newest(&mut rig.one, b"a", visible)
        .expect(&rt, "a free shard");
    let value = value.expect(&rt, "a value");
    assert_eq!(rt; value.as_slice(), b"1".as_slice());
}

#[test]
fn a_read_answers_the_newest_value_and_none_of_a_key_that_was_deleted(rt: HostRuntime) {
    let mut rig = Rig::open(&rt, rt.alloc());
    rig.commit(&rt, b"a", Some(b"1"));
    rig.commit(&rt, b"b", Some(b"2"));
    rig.commit(&rt, b"a", Some(b"3"));
    rig.commit(&rt, b"b", None);
    let value = rig
        .read(b"a")
        .expect(&rt, "a free shard")
        .expect(&rt, "a value");
    assert_eq!(rt; value.as_slice(), b"3".as_slice());
    assert!(rt; rig.read(b"b").expect(&rt, "a free shard").is_none());
    assert!(rt; rig.read(b"c").expect(&rt, "a free shard").is_none());
}

#[test]
fn a_piece_waits_while_another_session_has_the_shard(rt: HostRuntime) {
    let rig = &mut Rig::open(&rt, rt.alloc());
    let ready = one_entry(&rt, rig.alloc, b"a", Some(b"1"));
    let mut pieces = rig.send(&rt, ready);
    let Some((shard, piece)) = pieces.take() else {
        panic!(rt; "a piece");
    };
    assert_eq!(rt; shard, shard_index(b"a"));
    let Some(taken) = rig.table.take_shard(&mut rig.other, shard) else {
        panic!(rt; "a free shard");
    };
    let gate = ShardGate::over(rig.alloc, &rig.table);
    let Err(PieceBusy { piece }) = gate.try_apply(&mut rig.one, shard, piece) else {
        panic!(rt; "another session has the shard");
    };
    rig.table.give_shard(&mut rig.other, taken, false);
    assert!(rt; gate.try_apply(&mut rig.one, shard, piece).is_ok());
    assert!(rt; pieces.take().is_none());
}

#[test]
fn a_read_is_busy_while_another_session_has_the_shard(rt: HostRuntime) {
    let rig = &mut Rig::open(&rt, rt.alloc());
    let Some(taken) = rig.table.take_shard(&mut rig.other, shard_index(b"a")) else {
        panic!(rt; "a free shard");
    };
    let visible = rig.table.visible(&mut rig.one);
    let gate = ShardGate::over(rig.alloc, &rig.table);
    let read = gate.try_newest(&mut rig.one, b"a", visible);
    assert_eq!(rt; read.err(), Some(ReadBusy::Busy));
    rig.table.give_shard(&mut rig.other, taken, false);
    let value = gate
        .try_newest(&mut rig.one, b"a", visible)
        .expect(&rt, "a free shard");
    assert!(rt; value.is_none());
}
