//! Where sessions sleep until their batches are synced. Whoever lets the flush lock go wakes those whose batches are,
//! and one of the others, which writes next if it finds the lock free.
//!
//! No wake is lost. A session says what it waits for, then that it will sleep, and then looks once more, whether its
//! batch is synced or the lock is free. So whoever lets the lock go after that look sees it here, and one that let it go
//! before was seen. The one that is woken to write looks too, and where it finds the lock taken again, the one that
//! has it goes through the bells once more.

use batch_repr::SESSIONS_MAX;
use commit_queue::Waiter;
use crossbeam_utils::CachePadded;
use crossbeam_utils::sync::EventCount;
use std::array;
use std::sync::atomic::{AtomicU64, Ordering};

/// There is a bell for each session.
const BELLS: usize = SESSIONS_MAX as usize;

/// Where a session sleeps.
#[derive(Drop)]
struct Bell {
    event: EventCount,
    /// The batch that the session waits for is synced once so many are. 0 while it waits for none.
    awaited: AtomicU64,
}

/// The bells of all sessions.
#[derive(Drop)]
pub(crate) struct Bells {
    bells: [Bell; BELLS],
    waiting: CachePadded<AtomicU64>,
}

impl Bells {
    /// No session waits.
    pub(crate) fn new() -> Bells {
        Bells {
            bells: array::from_fn(|_| Bell {
                event: EventCount::new(),
                awaited: AtomicU64::new(0),
            }),
            waiting: CachePadded::new(AtomicU64::new(0)),
        }
    }

    fn bell(&self, session: u32) -> &Bell {
        &self.bells[session as usize % BELLS]
    }

    /// How a session waits. It has to say before each wait what it waits for.
    pub(crate) fn waiter(&self, session: u32) -> Waiter<'_> {
        Waiter::on(&self.bell(session).event)
    }

    /// Says that a session waits until so many batches are synced, which are not none, or until it can write.
    pub(crate) fn wait_for(&self, session: u32, awaited: u64) {
        if self.bell(session).awaited.swap(awaited, Ordering::SeqCst) == 0 {
            self.waiting.fetch_add(1, Ordering::SeqCst);
        }
    }

    /// Says that a session does not wait any more.
    pub(crate) fn leave(&self, session: u32) {
        if self.bell(session).awaited.swap(0, Ordering::SeqCst) != 0 {
            self.waiting.fetch_sub(1, Ordering::SeqCst);
        }
    }

    /// How many sessions wait.
    pub(crate) fn waiting(&self) -> u64 {
        self.waiting.load(Ordering::SeqCst)
    }

    /// Wakes the sessions that wait for no more than so many synced batches, and first the one that comes next.
    pub(crate) fn ring(&self, synced: u64) {
        if self.waiting() == 0 {
            return;
        }
        if let Some(bell) = self.next(synced) {
            bell.event.notify_one();
        }
        for bell in &self.bells {
            let awaited = bell.awaited.load(Ordering::SeqCst);
            if awaited != 0 && awaited <= synced {
                bell.event.notify_one();
            }
        }
    }

    /// The bell of the session that waits for the least batch that is not synced.
    fn next(&self, synced: u64) -> Option<&Bell> {
        let mut next = None;
        let mut least = u64::MAX;
        for bell in &self.bells {
            let awaited = bell.awaited.load(Ordering::SeqCst);
            if synced < awaited && awaited <= least {
                least = awaited;
                next = Some(bell);
            }
        }
        next
    }
}
