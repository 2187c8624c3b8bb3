//! Whether batches are those of a table: one Set each, numbered in a row, of keys that ascend, each as it is written.

ghost use Rattle.std.specs.Prelude.{◌≡◌, ◌↔◌, ◌≤◌, ◌+◌, ℕ, List, [], ◌∷◌, length, IfOk, IfSome, IfNone, IsTrue};
ghost use Rattle.wal_base.specs.declared.entry.Entry.TheVariants.{Set};
ghost use Rattle.batch_repr.specs.declared.limits.TheConstants.{NUMBER_MAX};
ghost use Rattle.batch_repr.specs.Limits.{IsWithinLimits};
ghost use Rattle.block_record.specs.ReadOut.{bytes_of};
ghost use Rattle.table_text.specs.Reading.{TellsKey, IsBeforeLater, IsWrittenFor, DecidesSets};

use batch_repr::{Batch, KEY_MAX, VALUE_MAX, put_set};
use block_record::Rec;
use std::alloc::Global;
use wal_base::{Entry, NoMemory};

/// The key and the value of the one entry, if that is a Set, and the only one.
fn only_set(entries: &[Entry]) -> Option<(&[u8], &[u8])>
    ensures some { IfSome result (λ set. entries.now ≡ Set set.0.now set.1.now ∷ []) }
    ensures none { IfNone result ((key value : List ℕ) → ¬ (entries.now ≡ Set key value ∷ [])) }
{
    match entries {
        [Entry::Set { key, value }] => Some((key.as_slice(), value.as_slice())),
        _ => None,
    }
}

/// Whether bytes are what is written for a key with its value, by this number. `text` is room to write it in.
fn is_written(
    text: &mut Vec<u8>,
    number: u64,
    key: &[u8],
    value: &[u8],
    bytes: &[u8],
) -> Result<bool, NoMemory>
    requires { IsWithinLimits (Set key.now value.now) }
    ensures { IfOk result (λ is. IsTrue is ↔ IsWrittenFor number key.now value.now bytes.now) }
{
    text.clear();
    put_set(text, number, key, value)?;
    Ok(text.as_slice() == bytes)
}

/// The key of a batch, if it is one Set of this number, and the bytes are what is written for it. `text` is room to
/// write it in.
fn key_of<'a>(
    text: &mut Vec<u8>,
    number: u64,
    batch: &'a Batch,
    bytes: &[u8],
) -> Result<Option<&'a [u8]>, NoMemory>
    ensures { IfOk result (TellsKey number bytes.now batch.now) }
{
    let Some((key, value)) = only_set(batch.entries.as_slice()) else {
        return Ok(None);
    };
    if batch.first != number || key.len() > KEY_MAX || value.len() > VALUE_MAX {
        return Ok(None);
    }
    if !is_written(text, number, key, value, bytes)? {
        return Ok(None);
    }
    Ok(Some(key))
}

/// Whether a key stands before the later one.
fn is_before(key: &[u8], later: Option<&[u8]>) -> bool
    ensures { IsTrue result ↔ IsBeforeLater key.now later.entry }
{
    match later {
        None => true,
        Some(later) => key.cmp(later).is_lt(),
    }
}

/// Whether the batches are those of some keys, numbered from here on, and the records are what is written for them.
/// It goes from the last to the first.
pub(crate) fn are_sets(
    alloc: Global,
    number: u64,
    batches: &[Batch],
    records: &[Rec],
) -> Result<bool, NoMemory>
    requires same { length batches.now ≡ length records.now }
    requires numbers { number + length batches.now ≤ NUMBER_MAX }
    ensures { IfOk result (DecidesSets number batches.now (bytes_of records.now)) }
{
    let mut text = Vec::new(alloc);
    let mut later: Option<&[u8]> = None;
    let mut at = batches.len();
    while at > 0 {
        at -= 1;
        let bytes = records[at].bytes.as_slice();
        let Some(key) = key_of(&mut text, number + at as u64, &batches[at], bytes)? else {
            return Ok(false);
        };
        if !is_before(key, later) {
            return Ok(false);
        }
        later = Some(key);
    }
    Ok(true)
}
