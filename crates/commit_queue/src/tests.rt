//! What the ring does, by examples.
ghost use Rattle.std.specs.Prelude.{◌≡◌, ◌<◌, ℕ, [], All, None, Some, replicate};
ghost use Rattle.memtable_shards.specs.declared.sharding.TheConstants.{SHARDS};
ghost use Rattle.memtable_shards.specs.Pieces.{whole_pieces};
ghost use Rattle.commit_queue.specs.Calls.{AwaitsBatch, HoldsUnapplied, IsUnapplied, IsAppliedAll};
ghost use Rattle.commit_queue.specs.Tables.{IsOfTable};
ghost use Rattle.commit_queue.specs.Seats.{producer_table, producer_view, flush_table};
ghost use Rattle.commit_queue.specs.Seats.{session_table, session_view, note_table, note_view};
ghost use Rattle.commit_queue.specs.Seats.{HoldsNothing};
ghost use Rattle.commit_queue.specs.Views.{but_turns};

use crate::waiting::LOOKS;
use crate::{
    FlushSeat, Handed, Holder, PipeTable, ProducerSeat, Published, SessionSeat, Shards, Waiter,
};
use batch_repr::{BATCHES_MAX, NUMBER_MAX, Numbered};
use memtable_shards::{Found, Pieces, SHARDS, Shard, shard_index, split};
use std::alloc::Global;
use std::process::Abort;
use std::sync::Wait;
use test_rigs::{Change, batch_of};
use wal_base::ListOf;

const FIRST: u64 = 10;

/// A batch on its way to a session, with its pieces, of which none is applied.
#[derive(Drop)]
struct Parcel {
    note: Handed,
    pieces: Pieces,
    ghost unapplied: { IsUnapplied (note_view note) pieces },
}

/// A table whose first number is 10, with two sessions, and the batches that no session adopted
/// yet.
#[derive(Drop)]
struct Rig {
    alloc: Global,
    table: PipeTable,
    producer: ProducerSeat,
    flush: FlushSeat,
    one: SessionSeat,
    other: SessionSeat,
    parcels: Vec<Parcel>,
    next: u64,
    placed: u64,
    ghost producer_of: { IsOfTable table (producer_table producer) },
    ghost flush_of: { IsOfTable table (flush_table flush) },
    ghost one_of: { IsOfTable table (session_table one) },
    ghost other_of: { IsOfTable table (session_table other) },
    ghost parcels_of: { All (λ parcel. IsOfTable table (note_table parcel.note)) parcels.items },
    ghost awaits: { AwaitsBatch (producer_view producer) next placed },
    ghost no_turn: { (producer_view producer).seat.turn ≡ None },
    ghost one_idle: { HoldsNothing (session_view one) },
    ghost one_clean: { (session_view one).pieces ≡ [] },
    ghost other_idle: { HoldsNothing (session_view other) },
    ghost other_clean: { (session_view other).pieces ≡ [] },
}

/// Eight shards without a version.
fn eight(rt: &impl Abort, alloc: Global) -> Shards
    ensures { result ≡ replicate SHARDS [] }
{
    let mut shards = ListOf::new(alloc);
    for _ in 0..SHARDS {
        let shard = Shard::new(alloc).expect(rt, "memory");
        if shards.push(shard).is_err() {
            panic!(rt; "memory");
        }
    }
    shards
}

/// The batch that takes this one number, and its pieces.
fn next_batch(rt: &impl Abort, alloc: Global, next: u64) -> (Numbered, Pieces)
    ensures first { result.0.first ≡ next }
    ensures pieces { result.1 ≡ record (whole_pieces result.0.entries) { first = Some result.0.first } }
{
    let batch = batch_of(alloc, &[Change::Set(b"k", b"v")]).expect(rt, "memory");
    if next > NUMBER_MAX || u64::from(batch.count()) > NUMBER_MAX - next {
        panic!(rt; "a number left");
    }
    let (batch, entries) = batch.into_parts();
    let mut pieces = split(alloc, entries).expect(rt, "memory");
    pieces.number(next);
    (batch.number(next), pieces)
}

/// Applies all pieces of the batch that the seat holds. No shard is with another seat.
fn apply_all<H: Holder>(rt: &impl Abort, table: &PipeTable, h: &mut H, mut pieces: Pieces)
    requires table { IsOfTable table.now (H.table_id h.old) }
    requires no_turn { (H.view h.old).seat.turn ≡ None }
    requires unapplied { HoldsUnapplied (H.view h.old) pieces }
    ensures same { H.table_id h.new ≡ H.table_id h.old }
    ensures only { but_turns (H.view h.new) ≡ but_turns (H.view h.old) }
    ensures no_turn { (H.view h.new).seat.turn ≡ None }
    ensures applied { (i : ℕ) → (H.view h.old).seat.held ≡ Some i → IsAppliedAll (H.view h.new) i }
{
    while let Some((index, piece)) = pieces.take() {
        let Some(mut shard) = table.take_shard(h, index) else {
            panic!(rt; "a shard at home");
        };
        shard.apply(piece);
        table.give_shard(h, shard, true);
    }
}

/// Whether the seat gets the shard, which it gives back at once.
fn gets<H: Holder>(table: &PipeTable, h: &mut H, index: usize) -> bool
    requires table { IsOfTable table.now (H.table_id h.old) }
    requires small { index < SHARDS }
    requires no_turn { (H.view h.old).seat.turn ≡ None }
    ensures same { H.table_id h.new ≡ H.table_id h.old }
    ensures only { but_turns (H.view h.new) ≡ but_turns (H.view h.old) }
    ensures no_turn { (H.view h.new).seat.turn ≡ None }
    ensures pieces { (H.view h.new).pieces ≡ (H.view h.old).pieces }
{
    let Some(shard) = table.take_shard(h, index) else {
        return false;
    };
    table.give_shard(h, shard, false);
    true
}

/// One that waits as far as saying that it will sleep, and sleeps at its next call unless it was woken since.
fn about_to_sleep<'e>(rt: &impl Wait, mut waiter: Waiter<'e>) -> Waiter<'e> {
    for _ in 0..=LOOKS {
        waiter.wait(rt);
    }
    waiter
}

impl Rig {
    fn open(rt: &impl Abort, alloc: Global) -> Rig {
        let made = PipeTable::new(alloc, 2, FIRST, eight(rt, alloc));
        let Ok((table, producer, flush, mut sessions)) = made else {
            panic!(rt; "memory");
        };
        let (Some(other), Some(one)) = (sessions.pop(), sessions.pop()) else {
            panic!(rt; "two sessions");
        };
        Rig {
            alloc,
            table,
            producer,
            flush,
            one,
            other,
            parcels: Vec::new(alloc),
            next: FIRST,
            placed: 0,
        }
    }

    /// Places, admits and hands over the next batch, and answers its index, where its slot is free.
    fn send_next(&mut self, rt: &impl Abort) -> Option<u64> {
        if self.placed >= BATCHES_MAX {
            panic!(rt; "a batch left");
        }
        if !self.table.slot_free(&mut self.producer) {
            return None;
        }
        let (batch, pieces) = next_batch(rt, self.alloc, self.next);
        self.table.place(&mut self.producer, &batch);
        let index = self.table.admit(&mut self.producer);
        let Ok(note) = self.table.hand(&mut self.producer) else {
            panic!(rt; "memory");
        };
        let parcel = Parcel { note, pieces };
        self.parcels.push(parcel).expect(rt, "memory");
        self.next = batch.end();
        self.placed += 1;
        Some(index)
    }

    /// The session adopts the batch of the parcel at that place, applies it, and marks it.
    fn mark(&mut self, rt: &impl Abort, at: usize) {
        if at >= self.parcels.len() {
            panic!(rt; "a parcel");
        }
        let Parcel { note, pieces } = self.parcels.remove(at);
        self.table.adopt(&mut self.one, note);
        apply_all(rt, &self.table, &mut self.one, pieces);
        self.table.mark(&mut self.one);
    }

    /// The index of the batch of the parcel at that place.
    fn index_at(&self, rt: &impl Abort, at: usize) -> u64 {
        match self.parcels.get(at) {
            Some(parcel) => parcel.note.index,
            None => panic!(rt; "a parcel"),
        }
    }

    /// The same, while another thread is about to sleep for the shard of the batch's key, and a third one for the batch
    /// to be published. Neither sleeps then.
    fn mark_and_wake(&mut self, rt: &(impl Abort + Wait), end: u64) {
        if self.parcels.is_empty() {
            panic!(rt; "a parcel");
        }
        let Parcel { note, pieces } = self.parcels.remove(0);
        self.table.adopt(&mut self.one, note);
        let mut for_shard = about_to_sleep(rt, self.table.await_shard(shard_index(b"k")));
        apply_all(rt, &self.table, &mut self.one, pieces);
        for_shard.wait(rt);
        self.table.mark(&mut self.one);
        let mut for_batch = about_to_sleep(rt, self.table.await_published());
        self.table.publish_until(rt, &mut self.one, end);
        for_batch.wait(rt);
    }

    /// The session gives a shard back as it was, for which another thread is about to sleep. It does not sleep then.
    fn give_back_and_wake(&mut self, rt: &(impl Abort + Wait), index: usize)
        requires { index < SHARDS }
    {
        let Some(shard) = self.table.take_shard(&mut self.one, index) else {
            panic!(rt; "a shard at home");
        };
        let mut waiter = about_to_sleep(rt, self.table.await_shard(index));
        self.table.give_shard(&mut self.one, shard, false);
        waiter.wait(rt);
    }

    /// The session tries to publish.
    fn publish(&mut self) -> Published {
        self.table.try_publish(&mut self.one)
    }

    /// The session publishes until the visible number is at least this.
    fn publish_until(&mut self, rt: &impl Wait, end: u64) {
        self.table.publish_until(rt, &mut self.one, end);
    }

    /// The producer commits the next batch by itself, and tries to publish.
    fn commit_alone(&mut self, rt: &impl Abort) -> Option<Published> {
        if self.placed >= BATCHES_MAX {
            panic!(rt; "a batch left");
        }
        if !self.table.slot_free(&mut self.producer) {
            return None;
        }
        let (batch, pieces) = next_batch(rt, self.alloc, self.next);
        self.table.place(&mut self.producer, &batch);
        self.table.admit(&mut self.producer);
        apply_all(rt, &self.table, &mut self.producer, pieces);
        self.table.mark(&mut self.producer);
        self.next = batch.end();
        self.placed += 1;
        Some(self.table.try_publish(&mut self.producer))
    }

    /// Both sessions meet.
    fn meet(&mut self, rt: &impl Abort) {
        if self.table.meet(&mut self.one, &mut self.other).is_err() {
            panic!(rt; "memory");
        }
    }

    /// The producer shows the other session what it has seen.
    fn show(&mut self) {
        self.table.show(&mut self.producer, &mut self.other);
    }

    /// What the other session sees published.
    fn other_visible(&mut self) -> u64 {
        self.table.visible(&mut self.other)
    }

    /// The flush seat raises the acked word.
    fn raise_acked(&mut self, n: u64) -> u64 {
        self.table.raise_acked(&mut self.flush, n)
    }

    /// What the other session sees acked.
    fn other_acked(&mut self) -> u64 {
        self.table.acked(&mut self.other)
    }

    /// Whether the other session gets the shard that the one has, and then once it is back.
    fn other_gets(&mut self, rt: &impl Abort, index: usize) -> [bool; 2]
        requires { index < SHARDS }
    {
        let Some(shard) = self.table.take_shard(&mut self.one, index) else {
            panic!(rt; "a shard at home");
        };
        let meanwhile = gets(&self.table, &mut self.other, index);
        self.table.give_shard(&mut self.one, shard, false);
        let then = gets(&self.table, &mut self.other, index);
        [meanwhile, then]
    }

    /// The number of the version that the other session finds of the key of each batch.
    fn other_finds(&mut self, rt: &impl Abort, below: u64) -> Option<u64> {
        let Some(shard) = self.table.take_shard(&mut self.other, shard_index(b"k")) else {
            panic!(rt; "a shard at home");
        };
        let found = match shard.newest(b"k", below) {
            Found::Value { seq, .. } => Some(seq),
            Found::Gone { .. } | Found::Nothing => None,
        };
        self.table.give_shard(&mut self.other, shard, false);
        found
    }

    /// The sessions go back to the producer's seat, and then the flush seat. Answers what the
    /// producer's seat sees published.
    fn close(self) -> u64 {
        let Rig {
            table,
            mut producer,
            flush,
            one,
            other,
            ..
        } = self;
        table.retire(&mut producer, one);
        table.retire(&mut producer, other);
        table.retire(&mut producer, flush);
        table.visible(&mut producer)
    }
}

#[test]
fn a_batch_is_published_once_it_is_marked(rt: HostRuntime) {
    let mut rig = Rig::open(&rt, rt.alloc());
    let early = Published::NotReady {
        head: 0,
        tail: 0,
        word: 0,
    };
    assert_eq!(rt; rig.publish(), early);
    assert_eq!(rt; rig.send_next(&rt), Some(0));
    let unmarked = Published::NotReady {
        head: 1,
        tail: 0,
        word: 22,
    };
    assert_eq!(rt; rig.publish(), unmarked);
    rig.mark(&rt, 0);
    let raised = Published::Raised {
        index: 0,
        visible: 11,
    };
    assert_eq!(rt; rig.publish(), raised);
    rig.meet(&rt);
    assert_eq!(rt; rig.other_visible(), 11);
}

/// Whether one of the first type may be shared by threads, and one of each other may go to them.
fn go_to_threads<T: Sync, P: Send, F: Send, S: Send, N: Send>() -> bool {
    true
}

#[test]
fn a_table_is_shared_by_threads_and_seats_go_to_them(rt: HostRuntime) {
    assert!(rt; go_to_threads::<PipeTable, ProducerSeat, FlushSeat, SessionSeat, Handed>());
}

#[test]
fn a_session_publishes_until_its_batch_is_visible_and_what_is_ready(rt: HostRuntime) {
    let mut rig = Rig::open(&rt, rt.alloc());
    for index in 0..3u64 {
        assert_eq!(rt; rig.send_next(&rt), Some(index));
    }
    for at in [1, 0] {
        rig.mark(&rt, at);
    }
    rig.publish_until(&rt, 11);
    assert_eq!(rt; rig.other_visible(), 12);
    rig.mark(&rt, 0);
    rig.publish_until(&rt, 13);
    assert_eq!(rt; rig.other_visible(), 13);
}

#[test]
fn the_producer_publishes_by_itself_and_shows_it(rt: HostRuntime) {
    let mut rig = Rig::open(&rt, rt.alloc());
    for index in 0..3u64 {
        let raised = Published::Raised {
            index,
            visible: FIRST + index + 1,
        };
        assert_eq!(rt; rig.commit_alone(&rt), Some(raised));
    }
    rig.show();
    assert_eq!(rt; rig.other_visible(), 13);
}

#[test]
fn a_full_ring_is_freed_from_the_front(rt: HostRuntime) {
    let mut rig = Rig::open(&rt, rt.alloc());
    for index in 0..64u64 {
        assert_eq!(rt; rig.send_next(&rt), Some(index));
    }
    for index in 0..64u64 {
        assert_eq!(rt; rig.send_next(&rt), None);
        rig.mark(&rt, 0);
        assert_eq!(rt; rig.send_next(&rt), None);
        let raised = Published::Raised {
            index,
            visible: FIRST + index + 1,
        };
        assert_eq!(rt; rig.publish(), raised);
        assert_eq!(rt; rig.send_next(&rt), Some(index + 64));
    }
}

#[test]
fn a_shard_is_with_one_seat_at_a_time(rt: HostRuntime) {
    let mut rig = Rig::open(&rt, rt.alloc());
    for index in 0..SHARDS {
        assert_eq!(rt; rig.other_gets(&rt, index), [false, true]);
    }
}

/// Whoever is not woken sleeps for ever here.
#[test]
fn who_waits_for_a_shard_or_a_batch_is_woken(rt: HostRuntime) {
    let mut rig = Rig::open(&rt, rt.alloc());
    for index in 0..SHARDS {
        rig.give_back_and_wake(&rt, index);
    }
    assert_eq!(rt; rig.send_next(&rt), Some(0));
    rig.mark_and_wake(&rt, 11);
    assert_eq!(rt; rig.other_visible(), 11);
}

#[test]
fn what_one_seat_applies_another_finds(rt: HostRuntime) {
    let mut rig = Rig::open(&rt, rt.alloc());
    assert_eq!(rt; rig.send_next(&rt), Some(0));
    assert_eq!(rt; rig.send_next(&rt), Some(1));
    assert_eq!(rt; rig.other_finds(&rt, 12), None);
    rig.mark(&rt, 1);
    assert_eq!(rt; rig.other_finds(&rt, 12), Some(11));
    assert_eq!(rt; rig.other_finds(&rt, 11), None);
    rig.mark(&rt, 0);
    assert_eq!(rt; rig.other_finds(&rt, 12), Some(11));
    assert_eq!(rt; rig.other_finds(&rt, 11), Some(10));
}

#[test]
fn the_acked_word_is_raised_to_head_at_most_and_each_seat_goes_back(rt: HostRuntime) {
    let mut rig = Rig::open(&rt, rt.alloc());
    let none = rig.raise_acked(1);
    assert_eq!(rt; rig.send_next(&rt), Some(0));
    let acked = rig.other_acked();
    let raised = rig.raise_acked(2);
    assert_eq!(rt; [none, acked, raised, rig.other_acked()], [0, 0, 1, 1]);
    rig.mark(&rt, 0);
    rig.publish_until(&rt, 11);
    assert_eq!(rt; rig.close(), 11);
}

/// Sends eight batches, marks them in the order that the number picks among all, and publishes
/// after each mark what is marked at the front.
fn publishes_in_order(rt: &impl Abort, rig: &mut Rig, order: u32) {
    for _ in 0..8 {
        assert!(rt; rig.send_next(rt).is_some(), "a free slot");
    }
    let first = rig.index_at(rt, 0);
    let mut marked = [false; 8];
    let mut front = 0usize;
    let mut rest = order;
    for left in (1..=8u32).rev() {
        let at = (rest % left) as usize;
        rest /= left;
        let index = rig.index_at(rt, at);
        if let Some(mark) = marked.get_mut(index.wrapping_sub(first) as usize) {
            *mark = true;
        }
        rig.mark(rt, at);
        front = published_from(rt, rig, marked, first, front);
    }
    assert_eq!(rt; front, 8);
}

/// Publishes as many of the eight batches as are marked in a row from there on, and not one more. Answers where the
/// row ends.
fn published_from(
    rt: &impl Abort,
    rig: &mut Rig,
    marked: [bool; 8],
    first: u64,
    from: usize,
) -> usize {
    let mut front = from;
    for at in from..8 {
        if marked.get(at) != Some(&true) {
            break;
        }
        let index = first.wrapping_add(at as u64);
        let raised = Published::Raised {
            index,
            visible: index.wrapping_add(FIRST + 1),
        };
        assert_eq!(rt; rig.publish(), raised);
        front = at.saturating_add(1);
    }
    assert!(rt; matches!(rig.publish(), Published::NotReady { .. }));
    front
}

#[test]
fn batches_are_published_in_order_whatever_the_order_of_their_marks(rt: HostRuntime) {
    let mut rig = Rig::open(&rt, rt.alloc());
    for order in 0..40_320 {
        publishes_in_order(&rt, &mut rig, order);
    }
}
