//! How a thread waits, and the calls that may: for memory, or until a batch is visible.
ghost use Rattle.std.specs.Prelude.{◌≡◌, ◌<◌};
ghost use Rattle.memtable_shards.specs.declared.sharding.TheConstants.{SHARDS};

use crate::pipe_table::PipeTable;
use crate::published::Published;
use crate::seats::{Handed, ProducerSeat, SessionSeat};
use crossbeam_utils::Backoff;
use crossbeam_utils::sync::{EventCount, Key};
use publish_core::SLOTS;
use std::sync::Wait;
use std::thread::Parker;
use std::time::Duration;

/// So often a thread looks before it sleeps.
pub(crate) const LOOKS: u32 = 7;

/// For so many microseconds a thread rests that nobody will wake.
const REST: u64 = 50;

/// How a thread waits for what others bring about: it looks, and calls `wait` after each look that was in vain. It
/// looks some times, and then sleeps between two looks until it is told. Whoever brings it about does so first, and
/// notifies then; so no wake is lost, since a look comes after a thread says that it will sleep.
#[derive(Drop)]
pub struct Waiter<'e> {
    event: &'e EventCount,
    backoff: Backoff,
    looks: u32,
    key: Option<Key<'e>>,
}

impl<'e> Waiter<'e> {
    /// One that did not look yet, and is told by this event.
    pub fn on(event: &'e EventCount) -> Waiter<'e> {
        Waiter {
            event,
            backoff: Backoff::new(),
            looks: 0,
            key: None,
        }
    }

    /// Ends at once, soon, or where it was said before the last look that this thread will sleep, with the first
    /// notification since.
    pub fn wait<R: Wait>(&mut self, rt: &R) {
        if let Some(key) = self.key.take() {
            key.wait(rt);
        } else if self.looks < LOOKS {
            self.looks += 1;
            self.backoff.spin();
        } else {
            self.key = Some(self.event.prepare_wait());
        }
    }
}

/// Sleeps for a moment, where nobody is there to tell of what is waited for.
pub fn rest<R: Wait>(rt: &R) {
    Parker::new().park_timeout(rt, Duration::from_micros(REST));
}

impl PipeTable {
    ghost use Rattle.commit_queue.specs.Calls.{ViewGoesOn, PublishesTo, HoldsAdmitted};
    ghost use Rattle.commit_queue.specs.Tables.{IsOfTable};
    ghost use Rattle.commit_queue.specs.Seats.{session_table, session_view};
    ghost use Rattle.commit_queue.specs.Seats.{producer_table, producer_view, HandsOver};

    /// Gives the admitted batch away as a note, as soon as there is memory for it.
    pub fn hand_over<R: Wait>(&self, rt: &R, p: &mut ProducerSeat) -> Handed
        requires table { IsOfTable self.now (producer_table p.old) }
        requires holds { HoldsAdmitted (producer_view p.old) }
        ensures same { producer_table p.new ≡ producer_table p.old }
        ensures given { HandsOver p.old result p.new }
    {
        for _ in rt.forever() {
            if let Ok(note) = self.hand(p) {
                return note;
            }
            rest(rt);
        }
        unreachable!()
    }

    /// Publishes until the visible number is at least `end`.
    pub fn publish_until<R: Wait>(&self, rt: &R, s: &mut SessionSeat, end: u64)
        requires table { IsOfTable self.now (session_table s.old) }
        ensures same { session_table s.new ≡ session_table s.old }
        ensures on { ViewGoesOn (session_view s.old) (session_view s.new) }
        ensures published { PublishesTo (session_view s.old) end (session_view s.new) }
    {
        let mut waiter = self.await_published();
        for _ in rt.forever() {
            self.publish_ready(s);
            if end <= self.visible(s) {
                return;
            }
            waiter.wait(rt);
        }
        unreachable!()
    }

    /// Publishes the batches at the front that are ready, whosever they are, and tells those who wait for them.
    fn publish_ready(&self, s: &mut SessionSeat)
        requires table { IsOfTable self.now (session_table s.old) }
        ensures same { session_table s.new ≡ session_table s.old }
        ensures on { ViewGoesOn (session_view s.old) (session_view s.new) }
    {
        let mut published = false;
        for _ in 0..SLOTS {
            match self.try_publish(s) {
                Published::Raised { .. } => published = true,
                Published::Raced { .. } => {}
                Published::NotReady { .. } => break,
            }
        }
        if published {
            self.published.notify_all();
        }
    }

    /// How a thread waits for batches to be published, and so for a free slot.
    pub fn await_published(&self) -> Waiter<'_> {
        Waiter::on(&self.published)
    }

    /// How a thread waits for a shard to be given back. Each time one alone of those who wait for it is woken.
    pub fn await_shard(&self, shard: usize) -> Waiter<'_>
        requires small { shard < SHARDS }
    {
        Waiter::on(&self.returned[shard])
    }
}
