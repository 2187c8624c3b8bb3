//! Records that stay on their way to the journal while the flush lock is held.

use super::{Act, counted, new_journal, one_set, run};
use crate::{Gate, NoGate, PipeName, Pipeline, Session};
use disk_face::Disk;
use memtable_shards::split;
use record_queue::RecordNode;
use std::alloc::Global;
use std::process::Abort;
use std::sync::Wait;
use std::sync::atomic::{AtomicU64, Ordering};
use std::sync::ledger::Ledger;

/// So many records are on their way at a time: more than a block of the queue has places.
const MANY: u64 = 100;

/// Numbers a batch and publishes it, as a commit does, and leaves its record on its way to the journal. Answers its place.
fn commit_unwritten<D: Disk, G: Gate, N: PipeName, M: Ledger, R: Wait + Abort>(
    rt: &R,
    alloc: Global,
    pipe: &Pipeline<'_, D, G, N, M>,
    session: &mut Session<N, M>,
) -> u64 {
    let batch = one_set(rt, alloc, 0, 0);
    let (batch, entries) = batch.into_parts();
    let count = batch.count();
    let mut pieces = split(alloc, entries).expect(rt, "memory");
    let node = RecordNode::empty(alloc).expect(rt, "memory");
    let desk = &mut session.desk;
    if let Some(_) = pipe.log.refuses(rt, &pipe.table, desk) {
        panic!(rt; "a journal that lives");
    }
    match pipe.take_number(rt, desk, batch, node, false) {
        Ok((first, index)) => {
            pieces.number(first);
            let end = first + u64::from(count);
            pipe.publish(rt, session.number, desk, pieces, end);
            index
        }
        Err(_) => panic!(rt; "a number"),
    }
}

/// The second session holds the flush lock until the first one has numbered and published all its batches.
#[derive(Drop)]
struct SendsMany {
    held: AtomicU64,
    published: AtomicU64,
}

impl SendsMany {
    /// Holds the lock. Answers whether so many were published meanwhile, and none was moved.
    fn holds<D: Disk, G: Gate, N: PipeName, M: Ledger, R: Wait>(
        &self,
        rt: &R,
        pipe: &Pipeline<'_, D, G, N, M>,
    ) -> bool {
        let log = pipe.log.lock.lock(rt);
        self.held.store(1, Ordering::SeqCst);
        counted(&self.published, MANY) && log.journal.len() == 0
    }
}

impl<G: Gate> Act<G> for SendsMany {
    fn act<D: Disk, N: PipeName, M: Ledger, R: Wait + Abort>(
        &self,
        rt: &R,
        alloc: Global,
        pipe: &Pipeline<'_, D, G, N, M>,
        session: &mut Session<N, M>,
    ) {
        if session.number == 1 {
            assert!(rt; self.holds(rt, pipe));
            return;
        }
        assert!(rt; counted(&self.held, 1));
        for place in 0..MANY {
            assert_eq!(rt; commit_unwritten(rt, alloc, pipe, session), place);
            self.published.fetch_add(1, Ordering::SeqCst);
        }
    }
}

#[test]
fn no_record_waits_for_the_flush_lock_and_what_is_left_is_finished(rt: HostRuntime) {
    let act = SendsMany {
        held: AtomicU64::new(0),
        published: AtomicU64::new(0),
    };
    let alloc = rt.alloc();
    let batches = run(&rt, alloc, &NoGate, new_journal(&rt, alloc), 2, &act);
    assert_eq!(rt; batches, MANY);
}
