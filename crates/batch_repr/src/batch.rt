//! Batches, and how many numbers their entries take.

ghost use Rattle.std.specs.Prelude.{◌≡◌, ◌≢◌, ◌≤◌, ◌<◌, ◌^◌, length, IfOk, MatchBool};
ghost use Rattle.batch_repr.specs.declared.limits.TheConstants.{NUMBER_MAX};
ghost use Rattle.batch_repr.specs.Batches.{count_of, end_of};

use crate::shared_entries::SharedEntries;
use wal_base::{Entry, ListOf, NoMemory};

/// A first number, and the entries that take numbers from there on.
#[derive(Debug, Drop)]
pub struct Batch {
    pub first: u64,
    pub entries: SharedEntries,
}

impl Batch {
    /// The same batch, whose entries are shared and not copied.
    pub fn share(&self) -> Result<Batch, NoMemory>
        ensures { IfOk result (λ batch. batch ≡ self.now) }
    {
        Ok(Batch {
            first: self.first,
            entries: self.entries.share()?,
        })
    }

    /// How many numbers it takes: one for each entry but the notes.
    pub fn count(&self) -> u64
        ensures { result ≡ count_of self.now.entries }
    {
        counted(self.entries.as_slice())
    }

    /// The number after it.
    pub fn end(&self) -> u64
        requires { end_of self.now ≤ NUMBER_MAX }
        ensures { result ≡ end_of self.now }
    {
        self.first + self.count()
    }

    /// Whether the batches are one: the same first number, and the same entries, notes included.
    pub fn same_as(&self, other: &Batch) -> bool
        ensures { MatchBool result (self.now ≡ other.now) (self.now ≢ other.now) }
    {
        self.first == other.first && same_entries(self.entries.as_slice(), other.entries.as_slice())
    }
}

/// Batches, in their order.
pub type Batches = ListOf<Batch>;

fn same_entries(entries: &[Entry], others: &[Entry]) -> bool
    ensures { MatchBool result (entries.now ≡ others.now) (entries.now ≢ others.now) }
{
    if entries.len() != others.len() {
        return false;
    }
    for i in 0..entries.len() {
        if !entries[i].same_as(&others[i]) {
            return false;
        }
    }
    true
}

fn counted(entries: &[Entry]) -> u64
    ensures counted { result ≡ count_of entries.now }
    ensures within { result ≤ length entries.now }
{
    let mut found = 0;
    for entry in entries {
        match entry {
            Entry::Note { .. } => {}
            Entry::Set { .. } | Entry::Delete { .. } | Entry::RangeDelete { .. } => found += 1,
        }
    }
    found
}

/// How many of the entries take a number.
pub(crate) fn count(entries: &[Entry]) -> u32
    requires { length entries.now < 2 ^ 32 }
    ensures { result ≡ count_of entries.now }
{
    counted(entries) as u32
}
