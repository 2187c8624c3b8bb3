use crate::{RecordNode, RecordQueue};
use batch_repr::Numbered;
use std::alloc::Global;
use std::process::Abort;
use test_rigs::numbered_set;
use wal_base::NoMemory;

/// The batch of one Set that takes this number.
fn numbered(alloc: Global, first: u32) -> Result<Numbered, NoMemory> {
    numbered_set(alloc, u64::from(first), b"a", b"1")
}

/// Hands over the records of these numbers, record k with the number 10 + k.
fn push_on(rt: &impl Abort, alloc: Global, queue: &mut RecordQueue, from: u32, to: u32) {
    for k in from..to {
        let first = k.saturating_add(10);
        queue.reserve().expect(rt, "memory");
        queue.push(numbered(alloc, first).expect(rt, "memory"));
    }
}

/// Hands over the record of this number in a node, if there is memory for the two.
fn push_in_node(
    rt: &impl Abort,
    alloc: Global,
    queue: &mut RecordQueue,
    first: u32,
) -> Result<(), NoMemory> {
    let rec = numbered(alloc, first)?;
    let mut node = RecordNode::empty(alloc)?;
    node.fill(rec, false);
    if queue.end() >= 1000 || node.filled().is_none() {
        panic!(rt; "a short queue");
    }
    queue.push_node(node);
    Ok(())
}

/// Hands over the records of these numbers in nodes. A node that is refused is made at the second try.
fn push_nodes_on(rt: &impl Abort, alloc: Global, queue: &mut RecordQueue, from: u32, to: u32) {
    for k in from..to {
        let first = k.saturating_add(10);
        if push_in_node(rt, alloc, queue, first).is_err() {
            push_in_node(rt, alloc, queue, first).expect(rt, "memory");
        }
    }
}

/// Drops the records below a number that is at most the end.
fn release(rt: &impl Abort, queue: &mut RecordQueue, upto: u64) {
    let end = queue.end();
    assert!(rt; upto <= end);
    queue.release(upto);
}

/// The number of the record at that place.
fn number_at(queue: &RecordQueue, k: u64) -> Option<u64> {
    match queue.get(k) {
        Some(rec) => Some(rec.first()),
        None => None,
    }
}

/// The queue holds the records from the one number to the other, and no others near them.
fn holds(rt: &impl Abort, queue: &RecordQueue, from: u64, to: u64) {
    assert_eq!(rt; (queue.start(), queue.end()), (from, to));
    for k in 0..64u64 {
        let wanted = if from <= k && k < to {
            Some(k + 10)
        } else {
            None
        };
        assert_eq!(rt; number_at(queue, k), wanted, "record {k}");
    }
}

/// Records that could not be settled are there as before.
fn settle(rt: &impl Abort, queue: &mut RecordQueue, from: u64, to: u64) {
    if queue.settle().is_err() {
        holds(rt, queue, from, to);
        queue.settle().expect(rt, "memory");
    }
    holds(rt, queue, from, to);
}

#[test]
fn pushes_and_releases_go_round(rt: HostRuntime) {
    let mut queue = RecordQueue::new(rt.alloc()).expect(&rt, "memory");
    push_on(&rt, rt.alloc(), &mut queue, 0, 16);
    release(&rt, &mut queue, 12);
    push_on(&rt, rt.alloc(), &mut queue, 16, 28);
    holds(&rt, &queue, 12, 28);
    // The room of the first 16 is full, and half of what it holds stands at its front: it grows.
    push_on(&rt, rt.alloc(), &mut queue, 28, 40);
    holds(&rt, &queue, 12, 40);
    release(&rt, &mut queue, 30);
    push_on(&rt, rt.alloc(), &mut queue, 40, 60);
    holds(&rt, &queue, 30, 60);
}

/// Room is made after nodes, too.
#[test]
fn nodes_come_after_the_others_and_are_settled(rt: HostRuntime) {
    let mut queue = RecordQueue::new(rt.alloc()).expect(&rt, "memory");
    push_on(&rt, rt.alloc(), &mut queue, 0, 3);
    push_nodes_on(&rt, rt.alloc(), &mut queue, 3, 23);
    push_on(&rt, rt.alloc(), &mut queue, 23, 24);
    push_nodes_on(&rt, rt.alloc(), &mut queue, 24, 30);
    holds(&rt, &queue, 0, 30);
    release(&rt, &mut queue, 5);
    settle(&rt, &mut queue, 5, 30);
}

/// An allocation is refused only where that is asked for, and then once: `rt try --test --fail-alloc N`.
#[test]
fn a_queue_of_nodes_that_lacks_memory_keeps_its_records(rt: HostRuntime) {
    let Ok(mut queue) = RecordQueue::new(rt.alloc()) else {
        return;
    };
    push_nodes_on(&rt, rt.alloc(), &mut queue, 0, 20);
    settle(&rt, &mut queue, 0, 20);
    push_nodes_on(&rt, rt.alloc(), &mut queue, 20, 40);
    settle(&rt, &mut queue, 0, 40);
}
