//! That records pass from thread to thread in order, that any number of them waits in the queue, and that what is left
//! at the end is taken or dropped.
ghost use Rattle.std.specs.Prelude.{◌≡◌, ◌<◌, ◌≤◌, length};
ghost use Rattle.batch_repr.specs.Batches.{count_of};
ghost use Rattle.record_flow.specs.Views.{send_opened};
ghost use Rattle.record_flow.specs.Flows.{next_to_send};
ghost use Rattle.record_flow.specs.Passes.{flow_id, flush_queue, send_queue, send_view};

use crate::{FlushPass, RecordFlow, SendPass};
use batch_repr::Numbered;
use record_queue::RecordNode;
use std::alloc::Global;
use std::process::Abort;
use std::sync::Wait;
use std::thread;
use std::thread::Threads;
use test_rigs::numbered_set;

/// The number of the first record.
const FIRST: u64 = 10;

/// How many records go from thread to thread.
const MANY: u64 = 4_000;

/// How many records wait in the queue at a time: more than six of its blocks hold.
const WAITING: u64 = 200;

/// The batch of one Set that takes this number.
fn numbered(rt: &impl Abort, alloc: Global, first: u64) -> Numbered
    requires { first ≤ 100000 }
    ensures first { result.first ≡ first }
    ensures count { count_of result.entries ≡ 1 }
{
    numbered_set(alloc, first, b"a", b"1").expect(rt, "memory")
}

/// The first number of the record in a node.
fn first_of(node: &RecordNode) -> Option<u64> {
    match node.filled() {
        Some(filled) => Some(filled.rec.first()),
        None => None,
    }
}

/// The side that sends: the number of its next record, and how many it sent.
#[derive(Drop)]
struct Sender {
    pass: SendPass,
    alloc: Global,
    next: u64,
    sent: u64,
    ghost next_is: { next ≡ next_to_send (send_view pass) },
    ghost count: { sent ≡ length (send_view pass).sent },
}

/// The sender of a new queue.
fn sender_of(alloc: Global, pass: SendPass) -> Sender
    requires { send_view pass ≡ send_opened FIRST }
    ensures { send_queue result.pass ≡ send_queue pass }
{
    Sender {
        pass,
        alloc,
        next: FIRST,
        sent: 0,
    }
}

/// A queue with its two sides.
fn opened(rt: &impl Abort, alloc: Global) -> (RecordFlow, Sender, FlushPass)
    ensures sends { send_queue result.1.pass ≡ flow_id result.0 }
    ensures takes { flush_queue result.2 ≡ flow_id result.0 }
{
    let (flow, sends, pops) = RecordFlow::new(alloc, FIRST).expect(rt, "memory");
    (flow, sender_of(alloc, sends), pops)
}

/// Sends the record of the next number. Answers whether there was memory.
fn send_next<R: Abort + Wait>(rt: &R, flow: &RecordFlow, sender: &mut Sender) -> bool
    requires { send_queue sender.old.pass ≡ flow_id flow.now }
    ensures { send_queue sender.new.pass ≡ flow_id flow.now }
{
    if sender.sent > 10_000 || sender.next > 20_000 {
        panic!(rt; "a few records");
    }
    let mut node = RecordNode::empty(sender.alloc).expect(rt, "memory");
    node.fill(numbered(rt, sender.alloc, sender.next), true);
    match flow.send(rt, &mut sender.pass, node) {
        Ok(()) => {
            sender.next += 1;
            sender.sent += 1;
            true
        }
        Err(back) => {
            assert_eq!(rt; first_of(&back), Some(sender.next));
            false
        }
    }
}

/// Sends so many records. Where memory for one was lacking, it is sent again.
fn send_some<R: Abort + Wait>(rt: &R, flow: &RecordFlow, sender: &mut Sender, count: u64)
    requires { send_queue sender.old.pass ≡ flow_id flow.now }
    ensures { send_queue sender.new.pass ≡ flow_id flow.now }
{
    for _ in 0..count {
        if !send_next(rt, flow, sender) {
            let sent = send_next(rt, flow, sender);
            assert!(rt; sent, "there is memory");
        }
    }
}

/// Takes the record of this number.
fn take_next<R: Abort + Wait>(rt: &R, flow: &RecordFlow, pass: &mut FlushPass, number: u64)
    requires { flush_queue pass.old ≡ flow_id flow.now }
    ensures { flush_queue pass.new ≡ flow_id flow.now }
{
    let Some(node) = flow.take(rt, pass) else {
        panic!(rt; "a record is left");
    };
    assert_eq!(rt; first_of(&node), Some(number));
}

/// Takes the records of the numbers from `first` on, short of `end`.
fn take_some<R: Abort + Wait>(rt: &R, flow: &RecordFlow, pass: &mut FlushPass, first: u64, end: u64)
    requires { flush_queue pass.old ≡ flow_id flow.now }
    ensures { flush_queue pass.new ≡ flow_id flow.now }
{
    for number in first..end {
        take_next(rt, flow, pass, number);
    }
}

/// Sends many records with the pass of a new queue, and waits where memory is lacking.
fn send_all<R: Abort + Wait>(rt: &R, flow: &RecordFlow, alloc: Global, pass: SendPass) -> SendPass
    requires queue { send_queue pass ≡ flow_id flow.now }
    requires new { send_view pass ≡ send_opened FIRST }
    ensures { send_queue result ≡ flow_id flow.now }
{
    let mut sender = sender_of(alloc, pass);
    for _ in rt.forever() {
        if sender.sent >= MANY {
            break;
        }
        if !send_next(rt, flow, &mut sender) {
            thread::yield_now();
        }
    }
    let Sender { pass, .. } = sender;
    pass
}

/// Takes many records, each with the number that comes next.
fn take_all<R: Abort + Wait>(rt: &R, flow: &RecordFlow, mut pass: FlushPass) -> FlushPass
    requires { flush_queue pass ≡ flow_id flow.now }
    ensures { flush_queue result ≡ flow_id flow.now }
{
    let mut next = FIRST;
    for _ in rt.forever() {
        if next >= FIRST + MANY {
            break;
        }
        match flow.take(rt, &mut pass) {
            Some(node) => {
                assert_eq!(rt; first_of(&node), Some(next));
                next = next.saturating_add(1);
            }
            None => thread::yield_now(),
        }
    }
    pass
}

/// Many records go from one thread to another.
fn between_threads<R: Threads + Abort + Wait + Sync>(rt: &R, alloc: Global) {
    let (flow, sends, pops) = RecordFlow::new(alloc, FIRST).expect(rt, "memory");
    let shared = &flow;
    let (sends, mut pops) = thread::join(
        rt,
        move ||
            requires { (send_queue sends ≡ flow_id shared.now) × (send_view sends ≡ send_opened FIRST) }
            ensures { send_queue result ≡ flow_id shared.entry.now }
        { send_all(rt, shared, alloc, sends) },
        move ||
            requires { flush_queue pops ≡ flow_id shared.now }
            ensures { flush_queue result ≡ flow_id shared.entry.now }
        { take_all(rt, shared, pops) },
    );
    flow.end(rt, &mut pops, sends);
    assert!(rt; flow.take(rt, &mut pops).is_none());
}

#[test]
fn records_pass_between_two_threads_in_order(rt: HostRuntime) {
    between_threads(&rt, rt.alloc());
}

/// Nobody takes until the last one is sent; and what is sent to an empty queue is left at the end.
#[test]
fn any_number_of_records_waits_in_order_and_what_is_left_at_the_end_is_taken(rt: HostRuntime) {
    let (flow, mut sender, mut pops) = opened(&rt, rt.alloc());
    send_some(&rt, &flow, &mut sender, WAITING);
    take_some(&rt, &flow, &mut pops, FIRST, FIRST + WAITING);
    let empty = flow.take(&rt, &mut pops).is_none();
    send_some(&rt, &flow, &mut sender, 3);
    take_next(&rt, &flow, &mut pops, FIRST + WAITING);
    let Sender { pass, .. } = sender;
    flow.end(&rt, &mut pops, pass);
    take_some(
        &rt,
        &flow,
        &mut pops,
        FIRST + WAITING + 1,
        FIRST + WAITING + 3,
    );
    assert!(rt; empty && flow.take(&rt, &mut pops).is_none());
}

/// The records are left in several blocks, of which the first is taken in part.
#[test]
fn a_queue_may_be_dropped_with_records_left(rt: HostRuntime) {
    let (flow, mut sender, mut pops) = opened(&rt, rt.alloc());
    send_some(&rt, &flow, &mut sender, WAITING);
    take_next(&rt, &flow, &mut pops, FIRST);
    drop(flow);
}

/// An allocation is refused only where that is asked for, and then once: `rt try --test --fail-alloc N`.
#[test]
fn a_queue_that_lacks_memory_is_not_made(rt: HostRuntime) {
    let lacked = RecordFlow::new(rt.alloc(), FIRST).is_err();
    let made = RecordFlow::new(rt.alloc(), FIRST).is_ok();
    assert!(rt; made || !lacked);
}
