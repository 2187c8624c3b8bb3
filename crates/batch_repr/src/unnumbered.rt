//! A batch that has no numbers yet.

ghost use Rattle.std.specs.Prelude.{◌≡◌, ◌+◌, ◌<◌, ◌≤◌};
ghost use Rattle.batch_repr.specs.declared.limits.TheConstants.{NUMBER_MAX};
ghost use Rattle.batch_repr.specs.Batches.{count_of};
ghost use Rattle.batch_repr.specs.Written.{written_len};
ghost use Rattle.batch_repr.specs.Building.{FitsBatch};

use crate::numbered::Numbered;
use crate::writing::put_header;
use std::marker::Model;
use std::snapshot::Snapshot;
use wal_base::Entries;

/// A batch that has no numbers yet: its entries, and their bytes after a header that is not written.
/// Contracts see the list of the entries.
#[derive(Debug, Drop)]
pub struct Unnumbered {
    pub(crate) bytes: Vec<u8>,
    pub(crate) entries: Entries,
    pub(crate) count: u32,
}

impl Model for Unnumbered {
    ghost use Rattle.std.specs.Prelude.{List};
    ghost use Rattle.wal_base.specs.declared.entry.Entry.{Entry};
    ghost use Rattle.batch_repr.specs.Draft.{IsCountedDraft};

    ghost Value = { List Entry };

    ghost view = { λ a. a.entries };

    ghost invariant = { λ a. IsCountedDraft a.bytes.items a.entries a.count };
}

impl Unnumbered {
    /// How many numbers the batch takes: at least 1.
    pub fn count(&self) -> u32
        ensures count { result ≡ count_of self.now }
        ensures some { 0 < result }
    {
        self.count
    }

    /// How many bytes the batch has as it is written.
    pub fn size(&self) -> usize
        ensures size { result ≡ written_len self.now }
        ensures fits { FitsBatch self.now }
    {
        self.bytes.len()
    }

    /// Shows the entries.
    pub fn entries(&self) -> &Entries
        ensures { result.now ≡ self.now }
    {
        &self.entries
    }

    /// Takes the batch apart: what is to be numbered and written to the log, and its entries, for who moves their bytes
    /// elsewhere.
    pub fn into_parts(self) -> (UnnumberedBytes, Entries)
        ensures bytes { result.0 ≡ self }
        ensures entries { result.1 ≡ self }
    {
        let Unnumbered {
            bytes,
            entries,
            count,
        } = self;
        let text = UnnumberedBytes {
            bytes,
            entries: Snapshot::of(&entries),
            count,
        };
        (text, entries)
    }

    /// Gives the batch its first number, and lets its entries go. It takes no memory.
    pub fn number(self, first: u64) -> Numbered
        requires { first + count_of self ≤ NUMBER_MAX }
        ensures { result ≡ record { first = first; entries = self } }
    {
        let (bytes, _) = self.into_parts();
        bytes.number(first)
    }
}

/// The bytes of a batch that has no numbers yet, after a header that is not written. Contracts see the list of its
/// entries, of which only a snapshot is kept.
#[derive(Drop)]
pub struct UnnumberedBytes {
    bytes: Vec<u8>,
    entries: Snapshot<Entries>,
    count: u32,
}

impl Model for UnnumberedBytes {
    ghost use Rattle.std.specs.Prelude.{List};
    ghost use Rattle.wal_base.specs.declared.entry.Entry.{Entry};
    ghost use Rattle.batch_repr.specs.Draft.{IsCountedDraft};

    ghost Value = { List Entry };

    ghost view = { λ a. a.entries.value };

    ghost invariant = { λ a. IsCountedDraft a.bytes.items a.entries.value a.count };
}

impl UnnumberedBytes {
    /// How many numbers the batch takes: at least 1.
    pub fn count(&self) -> u32
        ensures count { result ≡ count_of self.now }
        ensures some { 0 < result }
    {
        self.count
    }

    /// Gives the batch its first number, by writing it into the header. It takes no memory.
    pub fn number(self, first: u64) -> Numbered
        requires { first + count_of self ≤ NUMBER_MAX }
        ensures { result ≡ record { first = first; entries = self } }
    {
        let UnnumberedBytes {
            mut bytes,
            entries,
            count,
        } = self;
        put_header(&mut bytes, first, count);
        Numbered {
            first,
            count,
            bytes,
            entries,
        }
    }
}
