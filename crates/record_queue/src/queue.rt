//! The records of a run from a number on.

ghost use Rattle.std.specs.Prelude.{◌≡◌, ◌+◌, ◌-◌, ◌^◌, ◌<◌, ◌≤◌, ◌↔◌, [], ◌∷◌, ◌++◌, drop, length, max, Some, slice_get, IfOk, IfSome, IsSome, OnErr, OnOk};
ghost use Rattle.std.specs.VecDeque.{deque_capacity, deque_len};
ghost use Rattle.record_queue.specs.Queue.{queue_end, Holds, IsRecordOf};
ghost use Rattle.record_queue.specs.Nodes.{linked_in, AreFilled, IsFilledNode};
ghost use Rattle.record_queue.specs.declared.node.Filled.{Filled};

use crate::node::{Filled, RecordNode};
use batch_repr::Numbered;
use std::alloc::Global;
use std::collections::{LinkedList, VecDeque};
use std::marker::Model;
use wal_base::NoMemory;

/// How many records a new queue has room for, and the least that it grows by.
const FIRST_ROOM: usize = 16;

/// The records of a run from a number on. Contracts see that number, the records, and how many more fit without
/// memory.
#[derive(Debug, Drop)]
pub struct RecordQueue {
    start: u64,
    records: VecDeque<Numbered>,
    /// Those that were added in nodes of their own, after the others. Each node is filled.
    linked: LinkedList<Option<Filled>>,
    /// So many records may be pushed without memory. None while nodes are linked.
    spare: u64,
}

impl Model for RecordQueue {
    ghost use Rattle.std.specs.Prelude.{◌≡◌, ◌+◌, ◌<◌, ◌≤◌, ◌++◌, length};
    ghost use Rattle.std.specs.VecDeque.{deque_capacity, deque_len};
    ghost use Rattle.record_queue.specs.Queue.{Queue, NUMBERS_END};
    ghost use Rattle.record_queue.specs.Nodes.{linked_in, AreFilled};

    ghost Value = { Queue };

    ghost view = { λ a. record {
      start = a.start;
      records = a.records.items ++ linked_in a.linked;
      spare = a.spare;
    } };

    ghost invariant = { λ a.
        (a.start + deque_len a.records + length a.linked + a.spare ≤ NUMBERS_END)
        × (deque_len a.records + a.spare ≤ deque_capacity a.records)
        × AreFilled a.linked
        × (0 < length a.linked → a.spare ≡ 0) };
}

/// Drops so many records from the front, in time that grows with how many they are.
fn drop_front(records: &mut VecDeque<Numbered>, count: usize)
    ensures items { records.new.items ≡ drop count records.old.items }
    ensures len { deque_len records.new ≡ deque_len records.old - count }
    ensures capacity { deque_capacity records.new ≡ deque_capacity records.old }
{
    for _ in 0..count {
        records.pop_front();
    }
}

/// Drops so many nodes from the front.
fn drop_linked(linked: &mut LinkedList<Option<Filled>>, count: usize)
    ensures { linked.new ≡ drop count linked.old }
{
    for _ in 0..count {
        linked.pop_front();
    }
}

/// Moves the records of all nodes after the others.
fn move_linked(records: &mut VecDeque<Numbered>, linked: &mut LinkedList<Option<Filled>>)
    requires filled { AreFilled linked.old }
    requires room { deque_len records.old + length linked.old ≤ deque_capacity records.old }
    ensures items { records.new.items ≡ records.old.items ++ linked_in linked.old }
    ensures len { deque_len records.new ≡ deque_len records.old + length linked.old }
    ensures capacity { deque_capacity records.new ≡ deque_capacity records.old }
    ensures none { linked.new ≡ [] }
{
    while let Some(node) = linked.pop_front() {
        if let Some(filled) = node {
            records.push_back_reserved(filled.rec);
        }
    }
}

/// Moves the records of all nodes after the others, where room for them is made first. `NoMemory` moves none.
fn settle_in(
    records: &mut VecDeque<Numbered>,
    linked: &mut LinkedList<Option<Filled>>,
) -> Result<(), NoMemory>
    requires filled { AreFilled linked.old }
    ensures items { records.new.items ++ linked_in linked.new ≡ records.old.items ++ linked_in linked.old }
    ensures none { OnOk result (linked.new ≡ []) }
    ensures len { OnOk result (deque_len records.new ≡ deque_len records.old + length linked.old) }
    ensures room { deque_capacity records.old ≤ deque_capacity records.new }
    ensures left { OnErr result (linked.new ≡ linked.old) }
    ensures kept { OnErr result (records.new.items ≡ records.old.items) }
    ensures as_many { OnErr result (deque_len records.new ≡ deque_len records.old) }
    ensures as_roomy { OnErr result (deque_capacity records.new ≡ deque_capacity records.old) }
    ensures some { OnErr result (0 < length linked.old) }
{
    let more = linked.len();
    if records.capacity() - records.len() < more {
        let room = records.len().max(FIRST_ROOM).max(more);
        records.reserve_exact(room)?;
    }
    move_linked(records, linked);
    Ok(())
}

/// The record in the node at a place. `None` exactly where there are no more nodes than that.
fn linked_at(linked: &LinkedList<Option<Filled>>, place: usize) -> Option<&Numbered>
    requires filled { AreFilled linked.now }
    ensures found { IfSome result (λ rec. slice_get (linked_in linked.now) place ≡ Some rec.now) }
    ensures held { IsSome result ↔ place < length linked.now }
{
    let mut left = place;
    let mut rest = linked.iter();
    while let Some(node) = rest.next() {
        if left == 0 {
            return match node {
                Some(filled) => Some(&filled.rec),
                None => None,
            };
        }
        left -= 1;
    }
    None
}

impl RecordQueue {
    /// Holds the records from 0 to 0: none.
    pub fn new(alloc: Global) -> Result<RecordQueue, NoMemory>
        ensures start { IfOk result (λ queue. queue.start ≡ 0) }
        ensures records { IfOk result (λ queue. queue.records ≡ []) }
    {
        let records = VecDeque::with_capacity(alloc, FIRST_ROOM)?;
        Ok(RecordQueue {
            start: 0,
            records,
            linked: LinkedList::new(alloc),
            spare: 0,
        })
    }

    /// The number of the first record that is held, or of the next one where none is.
    pub fn start(&self) -> u64
        ensures { result ≡ self.now.start }
    {
        self.start
    }

    /// The number after the last record: the next one pushed has it.
    pub fn end(&self) -> u64
        ensures { result ≡ queue_end self.now }
    {
        self.start + self.records.len() as u64 + self.linked.len() as u64
    }

    /// Makes room for one more record. `NoMemory` also where the numbers of records are used up, which is where the
    /// end stands at the greatest `u64`.
    pub fn reserve(&mut self) -> Result<(), NoMemory>
        ensures room { OnOk result (1 ≤ self.new.spare) }
        ensures start { self.new.start ≡ self.old.start }
        ensures records { self.new.records ≡ self.old.records }
        ensures spare { self.old.spare ≤ self.new.spare }
        ensures err { OnErr result (self.new ≡ self.old) }
        ensures full { OnErr result (self.old.spare ≡ 0) }
    {
        settle_in(&mut self.records, &mut self.linked)?;
        if self.spare > 0 {
            return Ok(());
        }
        let end = self.end();
        if end == u64::MAX {
            return Err(NoMemory);
        }
        if self.records.len() == self.records.capacity() {
            // It doubles. An exact step says that the room stays as it was where memory runs out.
            let more = self.records.len().max(FIRST_ROOM);
            self.records.reserve_exact(more)?;
        }
        let room = self.records.capacity() - self.records.len();
        self.spare = (room as u64).min(u64::MAX - end);
        Ok(())
    }

    /// Adds a record at the end. It takes no memory.
    pub fn push(&mut self, rec: Numbered)
        requires { 1 ≤ self.old.spare }
        ensures start { self.new.start ≡ self.old.start }
        ensures records { self.new.records ≡ self.old.records ++ rec ∷ [] }
        ensures spare { self.new.spare + 1 ≡ self.old.spare }
    {
        self.records.push_back_reserved(rec);
        self.spare -= 1;
    }

    /// Adds the record of a filled node at the end: the node itself is linked in. It takes no memory. No room is left
    /// for a push after it: `reserve` makes some.
    pub fn push_node(&mut self, node: RecordNode)
        requires filled { IsFilledNode node }
        requires few { queue_end self.old < 2 ^ 63 - 1 }
        ensures start { self.new.start ≡ self.old.start }
        ensures records { (f : Filled) → node ≡ Some f → self.new.records ≡ self.old.records ++ f.rec ∷ [] }
        ensures spare { self.new.spare ≡ 0 }
    {
        let RecordNode { mut nodes } = node;
        let _linked = self.linked.append(&mut nodes);
        self.spare = 0;
    }

    /// Moves the records that were added in nodes to where the others stand, so that they are found by their number at
    /// once. The records are the same after it, also after `NoMemory`.
    pub fn settle(&mut self) -> Result<(), NoMemory>
        ensures { self.new ≡ self.old }
    {
        settle_in(&mut self.records, &mut self.linked)
    }

    /// The record of a number. `None` exactly where that number is not held.
    pub fn get(&self, number: u64) -> Option<&Numbered>
        ensures found { IfSome result (λ rec. IsRecordOf self.now number rec.now) }
        ensures held { IsSome result ↔ Holds self.now number }
    {
        let place = number.checked_sub(self.start)? as usize;
        let settled = self.records.len();
        if place < settled {
            return self.records.get(place);
        }
        linked_at(&self.linked, place - settled)
    }

    /// Drops every record below a number. It takes no memory, and time that grows with what is dropped, not with what
    /// is held.
    pub fn release(&mut self, upto: u64)
        requires { upto ≤ queue_end self.old }
        ensures start { self.new.start ≡ max self.old.start upto }
        ensures records { self.new.records ≡ drop (upto - self.old.start) self.old.records }
        ensures end { queue_end self.new ≡ queue_end self.old }
        ensures spare { self.old.spare ≤ self.new.spare }
    {
        if self.start < upto {
            let count = (upto - self.start) as usize;
            let settled = self.records.len();
            drop_front(&mut self.records, count.min(settled));
            drop_linked(&mut self.linked, count.saturating_sub(settled));
            self.start = upto;
        }
    }
}
