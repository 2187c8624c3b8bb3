//! Entries as they are written, and the header of a batch.

ghost use Rattle.std.specs.Prelude.{◌≡◌, ◌<◌, ◌≤◌, ◌^◌, ◌++◌, All, length, take, drop, OnOk};
ghost use Rattle.std.specs.Int.{w32, w64, to_le_bytes};
ghost use Rattle.wal_base.specs.declared.entry.Entry.TheVariants.{Set};
ghost use Rattle.batch_repr.specs.Limits.{IsWithinLimits};
ghost use Rattle.batch_repr.specs.Building.{FitsBatch};
ghost use Rattle.batch_repr.specs.Written.{varint, byte_string, written, written_entry, written_entries, written_set};

use crate::batch::{Batch, count};
use crate::limits::HEADER;
use std::alloc::AllocError;
use wal_base::{Entry, NoMemory};

/// Adds the shortest spelling of a number. After an `Err` more bytes may stand after the old ones.
fn push_varint(out: &mut Vec<u8>, n: u32) -> Result<(), AllocError>
    ensures ok { OnOk result (out.new.items ≡ out.old.items ++ varint n) }
    ensures kept { take (length out.old.items) out.new.items ≡ out.old.items }
{
    let mut rest = n;
    while rest >= 128 {
        out.push((rest % 128 + 128) as u8)?;
        rest /= 128;
    }
    out.push(rest as u8)?;
    Ok(())
}

/// Adds a byte string after its length.
fn push_string(out: &mut Vec<u8>, text: &[u8]) -> Result<(), AllocError>
    requires { length text.now < 2 ^ 32 }
    ensures ok { OnOk result (out.new.items ≡ out.old.items ++ byte_string text.now) }
    ensures kept { take (length out.old.items) out.new.items ≡ out.old.items }
{
    push_varint(out, text.len() as u32)?;
    out.extend_from_slice(text)
}

/// Adds an entry. After an `Err` more bytes may stand after the old ones.
#[tactic(auto, unfolding(crate::specs::Written::written_entry))]
pub(crate) fn push_entry(out: &mut Vec<u8>, entry: &Entry) -> Result<(), AllocError>
    requires { IsWithinLimits entry.now }
    ensures ok { OnOk result (out.new.items ≡ out.old.items ++ written_entry entry.now) }
    ensures kept { take (length out.old.items) out.new.items ≡ out.old.items }
{
    match entry {
        Entry::Set { key, value } => push_set(out, key.as_slice(), value.as_slice()),
        Entry::Delete { key } => {
            out.push(0)?;
            push_string(out, key.as_slice())
        }
        Entry::Note { bytes } => {
            out.push(3)?;
            push_string(out, bytes.as_slice())
        }
        Entry::RangeDelete { start, end } => {
            out.push(15)?;
            push_string(out, start.as_slice())?;
            push_string(out, end.as_slice())
        }
    }
}

/// Adds a Set, as an entry. After an `Err` more bytes may stand after the old ones.
#[tactic(auto, unfolding(crate::specs::Written::written_entry))]
fn push_set(out: &mut Vec<u8>, key: &[u8], value: &[u8]) -> Result<(), AllocError>
    requires { IsWithinLimits (Set key.now value.now) }
    ensures ok { OnOk result
        (out.new.items ≡ out.old.items ++ written_entry (Set key.now value.now)) }
    ensures kept { take (length out.old.items) out.new.items ≡ out.old.items }
{
    out.push(1)?;
    push_string(out, key)?;
    push_string(out, value)
}

/// Adds the text of a batch of one Set: the one written spelling. The key and the value are copied to there alone.
///
/// After an `Err` more bytes may stand after the old ones.
pub fn put_set(out: &mut Vec<u8>, first: u64, key: &[u8], value: &[u8]) -> Result<(), NoMemory>
    requires { IsWithinLimits (Set key.now value.now) }
    ensures { OnOk result (out.new.items ≡ out.old.items ++ written_set first key.now value.now) }
{
    out.extend_from_slice(&first.to_le_bytes())?;
    out.extend_from_slice(&1u32.to_le_bytes())?;
    push_set(out, key, value)?;
    Ok(())
}

/// Writes a header over the first bytes.
pub(crate) fn put_header(bytes: &mut [u8], first: u64, count: u32)
    requires { 12 ≤ length bytes.old }
    ensures { bytes.new ≡ to_le_bytes w64 first ++ to_le_bytes w32 count ++ drop 12 bytes.old }
{
    bytes[..8].copy_from_slice(&first.to_le_bytes());
    bytes[8..HEADER].copy_from_slice(&count.to_le_bytes());
}

/// Adds entries. After an `Err` more bytes may stand after the old ones.
pub(crate) fn push_entries(out: &mut Vec<u8>, entries: &[Entry]) -> Result<(), AllocError>
    requires { All IsWithinLimits entries.now }
    ensures { OnOk result (out.new.items ≡ out.old.items ++ written_entries entries.now) }
{
    for entry in entries {
        push_entry(out, entry)?;
    }
    Ok(())
}

/// Adds the header of a batch. After an `Err` a part of it may stand there.
fn push_header(out: &mut Vec<u8>, first: u64, count: u32) -> Result<(), AllocError>
    ensures { OnOk result (out.new.items ≡ out.old.items ++ to_le_bytes w64 first ++ to_le_bytes w32 count) }
{
    out.extend_from_slice(&first.to_le_bytes())?;
    out.extend_from_slice(&count.to_le_bytes())
}

/// Adds the one written spelling of a batch, of count 0 too. After an `Err` a part of it may stand there.
pub fn push_batch(out: &mut Vec<u8>, batch: &Batch) -> Result<(), NoMemory>
    requires { FitsBatch batch.now.entries }
    ensures { OnOk result (out.new.items ≡ out.old.items ++ written batch.now) }
{
    let entries = batch.entries.as_slice();
    push_header(out, batch.first, count(entries))?;
    push_entries(out, entries)?;
    Ok(())
}
