//! Reading a batch back from its bytes, from left to right.

ghost use Rattle.std.specs.Prelude.{◌≡◌, ◌+◌, ◌<◌, ◌≤◌, ◌^◌, [], length, IfOk, IfErr, OnOk, IfSome, IfNone, MatchResult};
ghost use Rattle.batch_repr.specs.declared.batch.Batch.{Batch};
ghost use Rattle.batch_repr.specs.declared.fault.BatchFault.{BatchFault};
ghost use Rattle.batch_repr.specs.declared.limits.TheConstants.{BATCH_MAX, NUMBER_MAX};
ghost use Rattle.batch_repr.specs.Batches.{end_of};
ghost use Rattle.batch_repr.specs.Spelling.{SpellsBatch};
ghost use Rattle.batch_repr.specs.Written.{written};
ghost use Rattle.batch_repr.specs.Building.{FitsBatch};
ghost use Rattle.batch_repr.specs.Reading.{number_at, string_at, entry_at, IsBytes, EndsWith, HasEntryFault, IsFirstFault, ReadsAs, first_said, count_said};
ghost use Rattle.batch_repr.specs.Blocks.{AddsEntries, AddsBatch};
ghost use Rattle.batch_repr.specs.Returned.{Gives, GivesOrMemory, MemoryOr, OkOrMemory, ErrOrMemory};

use crate::batch::{Batch, count};
use crate::fault::{BatchFault, VarintFault};
use crate::limits::{BATCH_MAX, HEADER, KEY_MAX, NUMBER_MAX, VALUE_MAX};
use crate::shared_entries::SharedEntries;
use std::alloc::Global;
use std::cmp;
use wal_base::{Blob, Entry};

/// The number at the front, in any spelling, and the bytes after it.
fn number_of(bytes: &[u8]) -> Result<(u32, &[u8]), VarintFault>
    ensures exact { Gives (λ x. (x.0, x.1.now)) result (number_at bytes.now) }
    ensures shorter { IfOk result (λ x. length x.1.now < length bytes.now) }
{
    let mut rest = bytes;
    let mut value = 0u64;
    let mut weight = 1u64;
    for _ in 0..5u32 {
        let Some((byte, after)) = rest.split_first() else {
            return Err(VarintFault::Ended);
        };
        value += weight * u64::from(*byte % 128);
        if *byte < 128 {
            return match u32::try_from(value) {
                Ok(value) => Ok((value, after)),
                Err(_) => Err(VarintFault::Wrong),
            };
        }
        weight *= 128;
        rest = after;
    }
    Err(VarintFault::Wrong)
}

/// A byte string of the entry whose kind byte stands at a place, and the bytes after it. From the length of the
/// whole the place of the string's own length is known.
#[tactic(auto, unfolding(crate::specs::Reading::string_at))]
fn string_of(
    whole: usize,
    entry: u64,
    limit: usize,
    bytes: &[u8],
) -> Result<(&[u8], &[u8]), BatchFault>
    requires { length bytes.now ≤ whole }
    ensures exact { Gives (λ x. (x.0.now, x.1.now)) result (string_at whole entry limit bytes.now) }
    ensures shorter { IfOk result (λ x. length x.1.now < length bytes.now) }
{
    let at = (whole - bytes.len()) as u64;
    match number_of(bytes) {
        Err(VarintFault::Ended) => Err(BatchFault::ShortEntry { at: entry }),
        Err(VarintFault::Wrong) => Err(BatchFault::BadVarint { at }),
        Ok((len, rest)) => {
            let len = len as usize;
            if limit < len {
                Err(BatchFault::TooLong { at })
            } else if rest.len() < len {
                Err(BatchFault::ShortEntry { at: entry })
            } else {
                Ok(rest.split_at(len))
            }
        }
    }
}

/// The same byte string as a part of the text, which ends with the bytes.
fn part_of<'a>(
    text: &Blob,
    entry: u64,
    limit: usize,
    bytes: &'a [u8],
) -> Result<(Blob, &'a [u8]), BatchFault>
    requires { EndsWith text.now bytes.now }
    ensures exact { GivesOrMemory (λ x. (x.0, x.1.now)) result (string_at (length text.now) entry limit bytes.now) }
    ensures rest { IfOk result (λ x. EndsWith text.now x.1.now) }
    ensures shorter { IfOk result (λ x. length x.1.now < length bytes.now) }
{
    let whole = text.as_slice().len();
    let (string, rest) = string_of(whole, entry, limit, bytes)?;
    let end = whole - rest.len();
    let part = text.part(end - string.len(), end)?;
    Ok((part, rest))
}

/// The entry at the front of what is left of the text, and the bytes after it. It shares the text's bytes.
#[tactic(auto, unfolding(crate::specs::Reading::entry_at, crate::specs::Reading::set_at, crate::specs::Reading::delete_at, crate::specs::Reading::note_at, crate::specs::Reading::range_delete_at))]
fn entry_of<'a>(text: &Blob, bytes: &'a [u8]) -> Result<(Entry, &'a [u8]), BatchFault>
    requires { EndsWith text.now bytes.now }
    ensures exact { GivesOrMemory (λ x. (x.0, x.1.now)) result (entry_at (length text.now) bytes.now) }
    ensures rest { IfOk result (λ x. EndsWith text.now x.1.now) }
    ensures shorter { IfOk result (λ x. length x.1.now < length bytes.now) }
{
    let whole = text.as_slice().len();
    let at = (whole - bytes.len()) as u64;
    let Some((kind, rest)) = bytes.split_first() else {
        return Err(BatchFault::ShortEntry { at: whole as u64 });
    };
    match *kind {
        0 => {
            let (key, rest) = part_of(text, at, KEY_MAX, rest)?;
            Ok((Entry::Delete { key }, rest))
        }
        1 => {
            let (key, rest) = part_of(text, at, KEY_MAX, rest)?;
            let (value, rest) = part_of(text, at, VALUE_MAX, rest)?;
            Ok((Entry::Set { key, value }, rest))
        }
        3 => {
            let (bytes, rest) = part_of(text, at, VALUE_MAX, rest)?;
            Ok((Entry::Note { bytes }, rest))
        }
        15 => {
            let (start, rest) = part_of(text, at, KEY_MAX, rest)?;
            let (end, rest) = part_of(text, at, KEY_MAX, rest)?;
            Ok((Entry::RangeDelete { start, end }, rest))
        }
        kind => Err(BatchFault::UnknownKind { at, kind }),
    }
}

/// Adds the entries after the header, to the end. After an `Err` more of them may stand after the old ones.
fn read_entries(entries: &mut Vec<Entry>, text: &Blob) -> Result<(), BatchFault>
    requires size { length text.now ≤ BATCH_MAX }
    requires header { 12 ≤ length text.now }
    ensures found { OnOk result (AddsEntries text.now entries.old.items entries.new.items []) }
    ensures short { OnOk result (length entries.new.items < length entries.old.items + 2 ^ 32) }
    ensures fault { IfErr result (MemoryOr (HasEntryFault text.now)) }
{
    let mut rest = &text.as_slice()[HEADER..];
    while !rest.is_empty() {
        let (entry, after) = entry_of(text, rest)?;
        entries.push(entry)?;
        rest = after;
    }
    Ok(())
}

/// What the header says: the first number, and how many entries take one. `None` exactly where the bytes are too few for
/// a header.
fn header_of(bytes: &[u8]) -> Option<(u64, u32)>
    ensures some { IfSome result (λ said. 12 ≤ length bytes.now) }
    ensures first { IfSome result (λ said. said.0 ≡ first_said bytes.now) }
    ensures count { IfSome result (λ said. said.1 ≡ count_said bytes.now) }
    ensures none { IfNone result (length bytes.now < 12) }
{
    let (head, rest) = bytes.split_first_chunk::<8>()?;
    let (said, _) = rest.split_first_chunk::<4>()?;
    let first = u64::from_le_bytes(*head);
    let said = u32::from_le_bytes(*said);
    Some((first, said))
}

/// How many entries a block has at most, unless one batch has more.
pub(crate) const BLOCK: usize = 1024;

/// How many bytes the texts of the batches of a block have at most, unless one batch has more. A block keeps them all
/// until the last of its batches is let go.
pub(crate) const BLOCK_TEXT: usize = 1 << 17;

/// For how many entries a batch gets room before they are read. That is what its header says, which may be wrong: so no
/// more than a block, or four times the memory of the text, since an entry takes 64 bytes there.
pub(crate) fn room_of(text: &[u8]) -> usize {
    match header_of(text) {
        Some((_, said)) => cmp::min(said as usize, cmp::max(BLOCK, text.len() / 16)),
        None => 0,
    }
}

/// Adds the entries of the batch that the bytes read as, and answers its first number; else the first fault. All ways out
/// of reading end in one contract here, from which those of [`decode`] follow. After an `Err` more entries may stand after
/// the old ones.
pub(crate) fn read_batch(entries: &mut Vec<Entry>, text: &Blob) -> Result<u64, BatchFault>
    ensures found { IfOk result (AddsBatch text.now entries.old.items entries.new.items) }
    ensures fault { IfErr result (MemoryOr (IsFirstFault text.now)) }
    ensures bytes { IsBytes text.now }
{
    let bytes = text.as_slice();
    if bytes.len() > BATCH_MAX {
        return Err(BatchFault::TooLong { at: 0 });
    }
    let Some((first, said)) = header_of(bytes) else {
        return Err(BatchFault::ShortHeader);
    };
    let from = entries.len();
    read_entries(entries, text)?;
    let found = count(&entries[from..]);
    if said != found {
        return Err(BatchFault::Count { said, found });
    }
    if first > NUMBER_MAX - u64::from(found) {
        return Err(BatchFault::SeqRange { first });
    }
    Ok(first)
}

/// What reading the bytes meets: a batch, or the first fault.
fn outcome(alloc: Global, text: &Blob) -> Result<Batch, BatchFault>
    ensures met { MatchResult result (ReadsAs text.now) (MemoryOr (IsFirstFault text.now)) }
    ensures bytes { OnOk result (IsBytes text.now) }
{
    let mut entries = Vec::with_capacity(alloc, room_of(text.as_slice()))?;
    let first = read_batch(&mut entries, text)?;
    let entries = SharedEntries::of(alloc, entries)?;
    Ok(Batch { first, entries })
}

/// The batch that the bytes spell, in any spelling that is read. A batch of count 0 is one too.
///
/// A fault is the first one from left to right: too many bytes in all, else too few for a header, else the
/// first fault of the first entry that has one, else the count, else the numbers. `NoMemory` may come at any
/// time.
pub fn decode(alloc: Global, bytes: &[u8]) -> Result<Batch, BatchFault>
    // What is read is spelled so, and what is spelled so is read.
    ensures found { IfOk result (SpellsBatch bytes.now) }
    ensures only { (batch : Batch) → SpellsBatch bytes.now batch → OkOrMemory result batch }
    // What was built and numbered is read back from the bytes that are written for it.
    ensures written { (batch : Batch) → FitsBatch batch.entries → end_of batch ≤ NUMBER_MAX → bytes.now ≡ written batch → OkOrMemory result batch }
    // A fault is the first one, and where there is a first fault it is answered.
    ensures fault { IfErr result (MemoryOr (IsFirstFault bytes.now)) }
    ensures first { (fault : BatchFault) → IsFirstFault bytes.now fault → ErrOrMemory result fault }
{
    let text = Blob::copy_of(alloc, bytes)?;
    decode_shared(alloc, &text)
}

/// The batch that the text spells, as [`decode`] reads it. Its keys, values and notes are parts of the text, whose
/// bytes are shared and not copied.
pub fn decode_shared(alloc: Global, text: &Blob) -> Result<Batch, BatchFault>
    ensures found { IfOk result (SpellsBatch text.now) }
    ensures only { (batch : Batch) → SpellsBatch text.now batch → OkOrMemory result batch }
    ensures written { (batch : Batch) → FitsBatch batch.entries → end_of batch ≤ NUMBER_MAX → text.now ≡ written batch → OkOrMemory result batch }
    ensures fault { IfErr result (MemoryOr (IsFirstFault text.now)) }
    ensures first { (fault : BatchFault) → IsFirstFault text.now fault → ErrOrMemory result fault }
{
    outcome(alloc, text)
}
