//! Entries that are to be one batch.

ghost use Rattle.std.specs.Prelude.{◌≡◌, ◌+◌, ◌<◌, [], ◌∷◌, ◌++◌, IfOk, OnOk, OnErr, MatchResult};
ghost use Rattle.wal_base.specs.declared.entry.Entry.TheVariants.{Set, Delete, Note, RangeDelete};
ghost use Rattle.batch_repr.specs.Batches.{count_of};
ghost use Rattle.batch_repr.specs.Limits.{IsWithinLimits};
ghost use Rattle.batch_repr.specs.Written.{written_len};
ghost use Rattle.batch_repr.specs.Draft.{IsDraft};
ghost use Rattle.batch_repr.specs.Building.{room_fault, refusal, RefusedAs};

use crate::batch::count;
use crate::fault::BuildFault;
use crate::limits::{BATCH_MAX, HEADER, KEY_MAX, VALUE_MAX};
use crate::unnumbered::Unnumbered;
use crate::writing::push_entry;
use std::alloc::Global;
use std::marker::Model;
use wal_base::{Blob, Entries, Entry, NoMemory};

/// Adds an entry to a draft. An `Err` changes nothing.
fn add(bytes: &mut Vec<u8>, entries: &mut Entries, entry: Entry) -> Result<(), BuildFault>
    requires draft { IsDraft bytes.old.items entries.old }
    requires limits { IsWithinLimits entry }
    ensures draft { IsDraft bytes.new.items entries.new }
    ensures ok { OnOk result (entries.new ≡ entries.old ++ entry ∷ []) }
    ensures err { OnErr result (entries.new ≡ entries.old) }
    ensures fault { RefusedAs result (room_fault (written_len (entries.old ++ entry ∷ []))) }
{
    let mark = bytes.len();
    if push_entry(bytes, &entry).is_err() {
        bytes.truncate(mark);
        return Err(BuildFault::NoMemory);
    }
    let len = bytes.len();
    if len > BATCH_MAX {
        bytes.truncate(mark);
        return Err(BuildFault::BatchTooLong { len: len as u64 });
    }
    if entries.push(entry).is_err() {
        bytes.truncate(mark);
        return Err(BuildFault::NoMemory);
    }
    Ok(())
}

/// How many bytes a new builder has room for: a header and one short entry.
const FIRST_ROOM: usize = 64;

/// Entries that are to be one batch. Contracts see the list of them.
#[derive(Debug, Drop)]
pub struct BatchBuilder {
    alloc: Global,
    bytes: Vec<u8>,
    entries: Entries,
}

impl Model for BatchBuilder {
    ghost use Rattle.std.specs.Prelude.{List};
    ghost use Rattle.wal_base.specs.declared.entry.Entry.{Entry};
    ghost use Rattle.batch_repr.specs.Draft.{IsDraft};

    ghost Value = { List Entry };

    ghost view = { λ a. a.entries };

    ghost invariant = { λ a. IsDraft a.bytes.items a.entries };
}

impl BatchBuilder {
    /// Holds no entry. Room for the first one is made now.
    pub fn new(alloc: Global) -> Result<BatchBuilder, NoMemory>
        ensures { IfOk result (λ builder. builder ≡ []) }
    {
        let mut bytes = Vec::with_capacity(alloc, FIRST_ROOM)?;
        bytes.extend_from_slice(&[0u8; HEADER])?;
        let entries = Entries::with_capacity(alloc, 1)?;
        Ok(BatchBuilder {
            alloc,
            bytes,
            entries,
        })
    }

    /// Adds a Set of the key to the value. It is refused exactly where the key, else the value, else the
    /// written batch would be longer than its limit, and then says how long that is.
    pub fn set(&mut self, key: &[u8], value: &[u8]) -> Result<(), BuildFault>
        ensures ok { OnOk result (self.new ≡ self.old ++ Set key.now value.now ∷ []) }
        ensures err { OnErr result (self.new ≡ self.old) }
        ensures fault { RefusedAs result (refusal self.old (Set key.now value.now)) }
    {
        if key.len() > KEY_MAX {
            let len = key.len() as u64;
            return Err(BuildFault::KeyTooLong { len });
        }
        if value.len() > VALUE_MAX {
            let len = value.len() as u64;
            return Err(BuildFault::ValueTooLong { len });
        }
        let key = Blob::copy_of(self.alloc, key)?;
        let value = Blob::copy_of(self.alloc, value)?;
        add(
            &mut self.bytes,
            &mut self.entries,
            Entry::Set { key, value },
        )
    }

    /// Adds a Delete of the key. It is refused exactly where the key, else the written batch would be longer
    /// than its limit, and then says how long that is.
    pub fn delete(&mut self, key: &[u8]) -> Result<(), BuildFault>
        ensures ok { OnOk result (self.new ≡ self.old ++ Delete key.now ∷ []) }
        ensures err { OnErr result (self.new ≡ self.old) }
        ensures fault { RefusedAs result (refusal self.old (Delete key.now)) }
    {
        let len = key.len();
        if len > KEY_MAX {
            return Err(BuildFault::KeyTooLong { len: len as u64 });
        }
        let key = Blob::copy_of(self.alloc, key)?;
        add(&mut self.bytes, &mut self.entries, Entry::Delete { key })
    }

    /// Adds a Note of the bytes, which takes no number. It is refused exactly where the bytes, else the
    /// written batch would be longer than their limit, that of a value, and then says how long that is.
    pub fn note(&mut self, bytes: &[u8]) -> Result<(), BuildFault>
        ensures ok { OnOk result (self.new ≡ self.old ++ Note bytes.now ∷ []) }
        ensures err { OnErr result (self.new ≡ self.old) }
        ensures fault { RefusedAs result (refusal self.old (Note bytes.now)) }
    {
        let len = bytes.len();
        if len > VALUE_MAX {
            return Err(BuildFault::ValueTooLong { len: len as u64 });
        }
        let bytes = Blob::copy_of(self.alloc, bytes)?;
        add(&mut self.bytes, &mut self.entries, Entry::Note { bytes })
    }

    /// Adds a RangeDelete from the start on and before the end, which may cover nothing. It is refused exactly where the
    /// start, else the end, else the written batch would be longer than its limit, and then says how long that is.
    pub fn delete_range(&mut self, start: &[u8], end: &[u8]) -> Result<(), BuildFault>
        ensures ok { OnOk result (self.new ≡ self.old ++ RangeDelete start.now end.now ∷ []) }
        ensures err { OnErr result (self.new ≡ self.old) }
        ensures fault { RefusedAs result (refusal self.old (RangeDelete start.now end.now)) }
    {
        if start.len() > KEY_MAX {
            let len = start.len() as u64;
            return Err(BuildFault::KeyTooLong { len });
        }
        if end.len() > KEY_MAX {
            let len = end.len() as u64;
            return Err(BuildFault::KeyTooLong { len });
        }
        let start = Blob::copy_of(self.alloc, start)?;
        let end = Blob::copy_of(self.alloc, end)?;
        add(
            &mut self.bytes,
            &mut self.entries,
            Entry::RangeDelete { start, end },
        )
    }

    /// The batch of these entries. It hands the builder back exactly where no entry takes a number.
    pub fn finish(self) -> Result<Unnumbered, BatchBuilder>
        ensures { MatchResult result
            (λ batch. (batch ≡ self) × (0 < count_of self))
            (λ builder. (builder ≡ self) × (count_of self ≡ 0)) }
    {
        let count = count(self.entries.as_slice());
        if count == 0 {
            return Err(self);
        }
        let BatchBuilder {
            alloc: _,
            bytes,
            entries,
        } = self;
        Ok(Unnumbered {
            bytes,
            entries,
            count,
        })
    }
}
