//! A store, and the numbers at which it is held.

ghost use Rattle.std.specs.Prelude.{◌≡◌, ◌↔◌, ◌<◌, ◌≤◌, ◌+◌, ◌++◌, ◌∷◌, [], ℕ, List, Option, Some, None, Ok, Err, Contains, IsTrue, IfOk, OnOk, OnErr, length, option_map};
ghost use Rattle.std.specs.List.{slice_set};
ghost use Rattle.std.specs.List.Sorted.{IsNonDecreasing};
ghost use Rattle.batch_repr.specs.Batches.{end_after};
ghost use Rattle.batch_repr.specs.Versions.{answer_at};
ghost use Rattle.arena_list.specs.Versions.{KeyVersion, AscendVersions};
ghost use Rattle.arena_list.specs.Marks.{KeepsMarked};
ghost use Rattle.snapshot_view.specs.declared.fault.HoldFault.TheVariants as faults;
ghost use Rattle.arena_list.specs.Newest.{version_found};
ghost use Rattle.snapshot_view.specs.Views.{CanBeViewed, HoldsAt, HoldStands, IsScanOf, LeaveVersion, numbers_shown, value_shown};

use crate::building::{add_batches, end_of_batches};
use crate::fault::HoldFault;
use crate::scan::Scan;
use arena_list::{ArenaList, Found, Marks};
use batch_repr::Batches;
use range_cover::RangeCover;
use std::alloc::Global;
use std::marker::Model;
use std::snapshot::Snapshot;
use wal_base::NoMemory;

/// The number of a hold, from 0 on in the order of the holds.
#[derive(Clone, Copy, Debug, PartialEq, Eq)]
pub struct SnapId {
    pub number: usize,
}

/// The versions of keys, and the numbers at which they are held.
#[derive(Drop)]
pub struct View {
    /// What it was built of, for contracts alone.
    batches: Snapshot<Batches>,
    versions: ArenaList,
    ranges: RangeCover,
    /// The held numbers and the next one, in ascending order.
    marks: Marks,
    /// The number of each hold, and none once it is released.
    holds: Vec<Option<u64>>,
    floor: u64,
    next: u64,
}

impl Model for View {
    ghost use Rattle.snapshot_view.specs.Views.{View, IsView};

    ghost Value = { View };

    ghost view = { λ a. record {
      batches = a.batches.value;
      floor = a.floor;
      next = a.next;
      holds = a.holds.items;
      versions = a.versions.versions;
    } };

    ghost invariant = { λ a. IsView (record {
      batches = a.batches.value;
      floor = a.floor;
      next = a.next;
      holds = a.holds.items;
      versions = a.versions.versions;
    }) a.ranges a.marks };
}

/// Whether a number is among others, which ascend.
fn is_among(numbers: &[u64], number: u64) -> bool
    requires { IsNonDecreasing numbers.now }
    ensures { IsTrue result ↔ Contains numbers.now number }
{
    numbers.binary_search(&number).is_ok()
}

/// The value that is shown of a key: that of its newest version, where no newer range delete is over it.
fn value_shown(found: Found<'_>, newest: Option<u64>) -> Option<&[u8]>
    ensures { (key : List ℕ) → option_map (λ bytes. bytes.now) result
        ≡ value_shown (version_found key found.entry) newest }
{
    match found {
        Found::Nothing | Found::Gone { .. } => None,
        Found::Value { seq, bytes } => match newest {
            Some(number) if seq < number => None,
            _ => Some(bytes),
        },
    }
}

impl View {
    /// The store after the batches. Numbers below the floor can't be held.
    pub fn build(alloc: Global, batches: &Batches, floor: u64) -> Result<View, NoMemory>
        requires { CanBeViewed batches.now floor }
        ensures batches { IfOk result (λ view. view.batches ≡ batches.now) }
        ensures floor { IfOk result (λ view. view.floor ≡ floor) }
        ensures next { IfOk result (λ view. view.next ≡ end_after floor batches.now) }
        ensures holds { IfOk result (λ view. view.holds ≡ []) }
        ensures versions { IfOk result (λ view. (version : KeyVersion)
            → Contains view.versions version ↔ LeaveVersion batches.now version) }
        ensures ascend { IfOk result (λ view. AscendVersions view.versions) }
    {
        let next = end_of_batches(batches.as_slice(), floor);
        let mut versions = ArenaList::new(alloc)?;
        let mut ranges = RangeCover::new(alloc)?;
        add_batches(&mut versions, &mut ranges, batches.as_slice())?;
        // They are in order.
        let _walk = versions.walk();
        let mut marks = Marks::new(alloc);
        marks.insert(next)?;
        Ok(View {
            batches: Snapshot::of(batches),
            versions,
            ranges,
            marks,
            holds: Vec::new(alloc),
            floor,
            next,
        })
    }

    /// Holds the store as it was at a number, which is refused above the next number, and below the floor where no hold
    /// stands at it. It costs at most the number of the holds.
    pub fn hold(&mut self, at: u64) -> Result<SnapId, HoldFault>
        ensures held { OnOk result (self.new ≡ record self.old { holds = self.old.holds ++ Some at ∷ [] }) }
        ensures id { IfOk result (λ id. id.number ≡ length self.old.holds) }
        ensures above { (next : ℕ) → result ≡ Err (faults.Above next)
            → (next ≡ self.old.next) × (next < at) }
        ensures gone { (floor : ℕ) → result ≡ Err (faults.Gone floor)
            → (floor ≡ self.old.floor) × (at < floor) × (Contains self.old.holds (Some at) → ⊥) }
        ensures taken { OnOk result ((at ≤ self.old.next)
            × (at < self.old.floor → Contains self.old.holds (Some at))) }
        ensures same { OnErr result (self.new ≡ self.old) }
    {
        if at > self.next {
            return Err(HoldFault::Above { next: self.next });
        }
        if at < self.floor && !is_among(self.marks.as_slice(), at) {
            return Err(HoldFault::Gone { floor: self.floor });
        }
        if self.holds.reserve(1).is_err() {
            return Err(HoldFault::NoMemory);
        }
        self.marks.insert(at)?;
        let number = self.holds.len();
        self.holds.push_reserved(Some(at));
        Ok(SnapId { number })
    }

    /// The number at which a hold stands.
    pub fn number_of(&self, id: SnapId) -> u64
        requires { HoldStands self.now.holds id.number }
        ensures { HoldsAt self.now.holds id.number result }
    {
        match self.holds[id.number] {
            Some(number) => number,
            None => unreachable!(),
        }
    }

    /// The value of a key as it was at a held number. It takes no memory.
    pub fn get(&self, id: SnapId, key: &[u8]) -> Option<&[u8]>
        requires { HoldStands self.now.holds id.number }
        ensures { (at : ℕ) → HoldsAt self.now.holds id.number at
            → option_map (λ bytes. bytes.now) result ≡ answer_at self.now.batches at key.now }
    {
        let at = self.number_of(id);
        let found = self.versions.newest(key, at);
        value_shown(found, self.ranges.newest(key, at))
    }

    /// Goes over the keys at or above `from` that had a value at a held number. It takes no memory.
    pub fn scan(&self, id: SnapId, from: &[u8]) -> Scan<'_>
        requires { HoldStands self.now.holds id.number }
        ensures { (at : ℕ) → HoldsAt self.now.holds id.number at
            → IsScanOf self.now.batches from.now at result }
    {
        // Its versions are in order.
        let _walk = self.versions.walk();
        let at = self.number_of(id);
        Scan::new(self.versions.walk_from(from, u64::MAX), &self.ranges, at)
    }

    /// Lets a hold go, and no other one. It takes no memory.
    pub fn release(&mut self, id: SnapId)
        requires { HoldStands self.old.holds id.number }
        ensures { self.new ≡ record self.old { holds = slice_set self.old.holds id.number None } }
    {
        let number = self.number_of(id);
        self.marks.remove(number);
        self.holds[id.number] = None;
    }

    /// Takes the versions of keys out that no held number shows, nor the next one, and answers how many. From then on no
    /// number below the next one can be held anew. Range deletes stay. It takes no memory.
    pub fn purge(&mut self) -> u64
        ensures purged { self.new ≡ record self.old { floor = self.old.next; versions = self.new.versions } }
        ensures kept { KeepsMarked self.old.versions (numbers_shown self.old) self.new.versions }
        ensures ascend { AscendVersions self.new.versions }
        ensures fewer { result + length self.new.versions ≡ length self.old.versions }
    {
        self.floor = self.next;
        let removed = self.versions.keep_for(&self.marks);
        // What is left is in order.
        let _walk = self.versions.walk();
        removed
    }
}
