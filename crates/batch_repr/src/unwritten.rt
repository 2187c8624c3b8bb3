//! A batch of which nothing is written yet.

ghost use Rattle.std.specs.Prelude.{◌≡◌, ◌↔◌, ◌<◌, ◌≤◌, ◌+◌, ◌^◌, ◌++◌, IfOk, IfSome, IfNone, OnOk, IsTrue, All, length};
ghost use Rattle.batch_repr.specs.declared.limits.TheConstants.{KEY_MAX, VALUE_MAX};
ghost use Rattle.batch_repr.specs.Limits.{IsWithinLimits};
ghost use Rattle.batch_repr.specs.Written.{varint, byte_string, written_entry, written_entries};
ghost use Rattle.batch_repr.specs.Building.{FitsBatch, MakesBatch, FitsIn};

use crate::batch::count;
use crate::limits::{BATCH_MAX, HEADER, KEY_MAX, VALUE_MAX};
use crate::unnumbered::Unnumbered;
use crate::writing::push_entries;
use std::alloc::Global;
use std::marker::Model;
use wal_base::{Entries, Entry, NoMemory};

/// Whether each string of an entry is within its limit.
fn is_within_limits(entry: &Entry) -> bool
    ensures { IsTrue result ↔ IsWithinLimits entry.now }
{
    match entry {
        Entry::Set { key, value } => {
            key.as_slice().len() <= KEY_MAX && value.as_slice().len() <= VALUE_MAX
        }
        Entry::Delete { key } => key.as_slice().len() <= KEY_MAX,
        Entry::Note { bytes } => bytes.as_slice().len() <= VALUE_MAX,
        Entry::RangeDelete { start, end } => {
            start.as_slice().len() <= KEY_MAX && end.as_slice().len() <= KEY_MAX
        }
    }
}

/// How many bytes the shortest spelling of a number has.
fn varint_size(n: usize) -> usize
    ensures size { result ≡ length (varint n) }
    ensures within { result ≤ 5 }
{
    match n {
        0..=0x7f => 1,
        0x80..=0x3fff => 2,
        0x4000..=0x1f_ffff => 3,
        0x20_0000..=0xfff_ffff => 4,
        _ => 5,
    }
}

/// How many bytes a byte string has after its length.
fn string_size(text: &[u8]) -> usize
    requires { length text.now < 2 ^ 32 }
    ensures size { result ≡ length (byte_string text.now) }
    ensures within { result ≤ 5 + length text.now }
{
    varint_size(text.len()) + text.len()
}

/// How many bytes an entry has as it is written.
#[tactic(auto, unfolding(crate::specs::Written::written_entry))]
fn entry_size(entry: &Entry) -> usize
    requires { IsWithinLimits entry.now }
    ensures size { result ≡ length (written_entry entry.now) }
    ensures within { result ≤ 11 + KEY_MAX + VALUE_MAX }
{
    match entry {
        Entry::Set { key, value } => {
            1 + string_size(key.as_slice()) + string_size(value.as_slice())
        }
        Entry::Delete { key } => 1 + string_size(key.as_slice()),
        Entry::Note { bytes } => 1 + string_size(bytes.as_slice()),
        Entry::RangeDelete { start, end } => {
            1 + string_size(start.as_slice()) + string_size(end.as_slice())
        }
    }
}

/// How many bytes a batch of these entries has as it is written. `None` exactly where they fit none.
fn batch_size(entries: &[Entry]) -> Option<usize>
    ensures some { IfSome result (FitsIn entries.now) }
    ensures none { IfNone result (FitsBatch entries.now → ⊥) }
{
    let mut size = HEADER;
    for entry in entries {
        if !is_within_limits(entry) {
            return None;
        }
        size += entry_size(entry);
        if size > BATCH_MAX {
            return None;
        }
    }
    Some(size)
}

/// A batch of which nothing is written yet: its entries, and how many bytes it will have. Contracts see the list of the
/// entries.
#[derive(Debug, Drop)]
pub struct Unwritten {
    entries: Entries,
    size: usize,
}

impl Model for Unwritten {
    ghost use Rattle.std.specs.Prelude.{◌≡◌, List};
    ghost use Rattle.wal_base.specs.declared.entry.Entry.{Entry};
    ghost use Rattle.batch_repr.specs.Written.{written_len};
    ghost use Rattle.batch_repr.specs.Building.{MakesBatch};

    ghost Value = { List Entry };

    ghost view = { λ a. a.entries };

    ghost invariant = { λ a. MakesBatch a.entries × (a.size ≡ written_len a.entries) };
}

impl Unwritten {
    /// The batch of these entries. `None` exactly where they make none: where one of them or the batch as it is written is
    /// past its limit, or none of them takes a number.
    pub fn of(entries: Entries) -> Option<Unwritten>
        ensures some { IfSome result (λ batch. batch ≡ entries) }
        ensures makes { IfSome result MakesBatch }
        ensures none { IfNone result (MakesBatch entries → ⊥) }
    {
        let size = batch_size(entries.as_slice())?;
        if count(entries.as_slice()) == 0 {
            return None;
        }
        Some(Unwritten { entries, size })
    }

    /// Writes its entries, after room for a header.
    pub fn write(self, alloc: Global) -> Result<Unnumbered, NoMemory>
        ensures { IfOk result (λ batch. batch ≡ self) }
    {
        let Unwritten { entries, size } = self;
        let mut bytes = Vec::with_capacity(alloc, size)?;
        bytes.extend_from_slice(&[0u8; HEADER])?;
        push_entries(&mut bytes, entries.as_slice())?;
        let count = count(entries.as_slice());
        Ok(Unnumbered {
            bytes,
            entries,
            count,
        })
    }
}
