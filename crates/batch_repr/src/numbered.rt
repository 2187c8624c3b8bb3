//! A batch as it is written.

ghost use Rattle.std.specs.Prelude.{◌≡◌, ◌<◌, ◌≤◌};
ghost use Rattle.batch_repr.specs.declared.limits.TheConstants.{NUMBER_MAX};
ghost use Rattle.batch_repr.specs.Batches.{count_of, end_of};
ghost use Rattle.batch_repr.specs.Spelling.{SpellsBatch};
ghost use Rattle.batch_repr.specs.Written.{written};

use std::fmt;
use std::marker::Model;
use std::snapshot::Snapshot;
use wal_base::Entries;

/// A batch as it is written. Contracts see the batch that its bytes spell, of whose entries only a snapshot
/// without bytes is kept.
#[derive(Drop)]
pub struct Numbered {
    pub(crate) first: u64,
    pub(crate) count: u32,
    pub(crate) bytes: Vec<u8>,
    pub(crate) entries: Snapshot<Entries>,
}

impl Model for Numbered {
    ghost use Rattle.batch_repr.specs.declared.batch.Batch.{Batch};
    ghost use Rattle.batch_repr.specs.Draft.{IsWritten};

    ghost Value = { Batch };

    ghost view = { λ a. record { first = a.first; entries = a.entries.value } };

    ghost invariant = { λ a.
        IsWritten a.bytes.items (record { first = a.first; entries = a.entries.value }) a.count };
}

impl Numbered {
    /// The first number that the batch takes.
    pub fn first(&self) -> u64
        ensures { result ≡ self.now.first }
    {
        self.first
    }

    /// How many numbers the batch takes: at least 1.
    pub fn count(&self) -> u32
        ensures count { result ≡ count_of self.now.entries }
        ensures some { 0 < result }
    {
        self.count
    }

    /// The number after the last one that the batch takes.
    pub fn end(&self) -> u64
        ensures end { result ≡ end_of self.now }
        ensures within { result ≤ NUMBER_MAX }
    {
        self.first() + u64::from(self.count)
    }

    /// The bytes that go to the log: the one written spelling of the batch.
    pub fn bytes(&self) -> &[u8]
        ensures written { result.now ≡ written self.now }
        ensures spells { SpellsBatch result.now self.now }
    {
        self.bytes.as_slice()
    }
}

impl fmt::Debug for Numbered {
    fn fmt<W: fmt::Write>(&self, f: &mut fmt::Formatter<W>) -> fmt::Result {
        f.debug_struct("Numbered")
            .field("first", &self.first())
            .field("count", &self.count())
            .field("bytes", &self.bytes())
            .finish()
    }
}
