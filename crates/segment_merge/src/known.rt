//! Batches that are known, each of which is found by its first number.

ghost use Rattle.std.specs.Prelude.{◌≡◌, ◌↔◌, ◌≤◌, ◌∷◌, ◌++◌, [], IsTrue, MatchBool, OnErr, OnOk};
ghost use Rattle.batch_repr.specs.Batches.{end_of, end_after};
ghost use Rattle.segment_merge.specs.Merging.{AscendByNumber};
ghost use Rattle.segment_merge.specs.Rows.{IsNumbered};
ghost use Rattle.segment_merge.specs.Promises.{HasKept};

use batch_repr::{Batch, Batches};
use std::alloc::Global;
use std::marker::Model;
use wal_base::NoMemory;

/// Batches in the order of their numbers, and the number that comes next.
#[derive(Debug, Drop)]
pub struct KnownBatches {
    batches: Batches,
    next: u64,
}

impl Model for KnownBatches {
    ghost use Rattle.segment_merge.specs.Keeping.{Kept, AreKept};

    ghost Value = { Kept };

    ghost view = { λ a. record { batches = a.batches; next = a.next } };

    ghost invariant = { λ a. AreKept a.batches a.next };
}

impl KnownBatches {
    /// Nothing is known yet, and this number comes next.
    pub fn new(alloc: Global, next: u64) -> KnownBatches
        ensures batches { result.batches ≡ [] }
        ensures next { result.next ≡ next }
    {
        KnownBatches {
            batches: Batches::new(alloc),
            next,
        }
    }

    /// The number that comes next.
    pub fn next(&self) -> u64
        ensures { result ≡ self.now.next }
    {
        self.next
    }

    /// Whether the batch is known. It is compared with one other at most, which is found by its first number.
    pub fn has(&self, batch: &Batch) -> bool
        ensures { MatchBool result (HasKept self.now batch.now) (HasKept self.now batch.now → ⊥) }
    {
        let batches = self.batches.as_slice();
        let first = batch.first;
        let place = batches.partition_point(|kept| kept.first < first);
        match batches.get(place) {
            Some(kept) => kept.same_as(batch),
            None => false,
        }
    }

    /// Takes one batch more.
    pub fn push(&mut self, batch: Batch) -> Result<(), NoMemory>
        requires numbered { IsNumbered batch }
        requires above { self.old.next ≤ batch.first }
        ensures batches { OnOk result (self.new.batches ≡ self.old.batches ++ batch ∷ []) }
        ensures next { OnOk result (self.new.next ≡ end_of batch) }
        ensures unchanged { OnErr result (self.new ≡ self.old) }
    {
        let next = batch.end();
        match self.batches.push(batch) {
            Ok(()) => {
                self.next = next;
                Ok(())
            }
            Err(_) => Err(NoMemory),
        }
    }

    /// Whether no batch is known yet.
    pub fn is_empty(&self) -> bool
        ensures { IsTrue result ↔ (self.now.batches ≡ []) }
    {
        self.batches.is_empty()
    }

    /// Takes all batches of a list over where none is known yet, as the list that they are. It takes no memory.
    pub fn take_over(&mut self, batches: Batches, next: u64)
        requires none { self.old.batches ≡ [] }
        requires ascending { AscendByNumber self.old.next batches }
        requires next { next ≡ end_after self.old.next batches }
        ensures { self.new ≡ record { batches = batches; next = next } }
    {
        self.batches = batches;
        self.next = next;
    }

    /// The batches, in the order of their numbers.
    pub fn batches(&self) -> &Batches
        ensures { result.now ≡ self.now.batches }
    {
        &self.batches
    }

    /// Gives the batches up.
    pub fn into_batches(self) -> Batches
        ensures { result ≡ self.batches }
    {
        self.batches
    }
}
