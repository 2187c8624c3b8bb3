//! Reading a table: whether the records of bytes are exactly those of one.

ghost use Rattle.std.specs.Prelude.{ℕ, ◌<◌, ◌^◌, IfOk, IfSome, IfNone};
ghost use Rattle.block_record.specs.ReadOut.{bytes_of};
ghost use Rattle.table_text.specs.Reading.{TellsTable, TellsWritten, TellsRecords, TellsMore, TellsBatches, IsHead};

use crate::sets::are_sets;
use crate::writing::{head_of, log_of};
use batch_repr::{BatchFault, BatchReader, Batches, NUMBER_FIRST, NUMBER_MAX};
use block_record::{Rec, read_out_shared};
use std::alloc::Global;
use wal_base::{Blob, NoMemory};

/// A table that was read.
#[derive(Debug, Drop)]
pub struct TableRead {
    /// The number that comes next.
    pub next: u64,
    /// How many keys it has.
    pub keys: u64,
    /// A batch for each key, in order of bytes. Their keys and values are parts of the bytes that were read.
    pub batches: Batches,
}

/// The table that the bytes of a file hold, which covers the segments up to a WAL.
///
/// `None` exactly where they are not whole: where the records in them are not exactly those of a table. What follows
/// the last record counts for nothing.
pub fn read_table(alloc: Global, upto: u64, bytes: Vec<u8>) -> Result<Option<TableRead>, NoMemory>
    ensures found { IfOk result (TellsTable upto bytes.items) }
    ensures written { IfOk result (TellsWritten upto bytes.items) }
{
    let read = read_out_shared(alloc, log_of(upto), bytes)?;
    let table = table_of(alloc, read.records.as_slice())?;
    Ok(table)
}

/// The table whose records these are, if they are those of one.
fn table_of(alloc: Global, records: &[Rec]) -> Result<Option<TableRead>, NoMemory>
    ensures { IfOk result (TellsRecords (bytes_of records.now)) }
{
    let Some((head, sets)) = records.split_first() else {
        return Ok(None);
    };
    let keys = sets.len() as u64;
    let Some(next) = next_in(head.bytes.as_slice(), keys) else {
        return Ok(None);
    };
    let Some(batches) = read_batches(alloc, sets)? else {
        return Ok(None);
    };
    if !are_sets(alloc, next - keys, batches.as_slice(), sets)? {
        return Ok(None);
    }
    Ok(Some(TableRead {
        next,
        keys,
        batches,
    }))
}

/// The `next` of a table's first record, which is to say that so many keys follow.
fn next_in(bytes: &[u8], keys: u64) -> Option<u64>
    requires { keys < 2 ^ 63 }
    ensures some { IfSome result (IsHead bytes.now keys) }
    ensures none { IfNone result ((next : ℕ) → ¬ IsHead bytes.now keys next) }
{
    let (front, _) = bytes.split_first_chunk::<8>()?;
    let next = u64::from_le_bytes(*front);
    if bytes != head_of(next, keys).as_slice() {
        return None;
    }
    if next < NUMBER_FIRST + keys || next > NUMBER_MAX {
        return None;
    }
    Some(next)
}

/// Reads one batch more. `None` only where the text is not what is written for one.
fn read_more(reader: BatchReader, text: &Blob) -> Result<Option<BatchReader>, NoMemory>
    ensures { IfOk result (TellsMore text.now reader) }
{
    match reader.add(text) {
        Ok(more) => Ok(Some(more)),
        Err(BatchFault::NoMemory) => Err(NoMemory),
        Err(_) => Ok(None),
    }
}

/// The batches that the records spell. `None` only where they are not what is written for some.
fn read_batches(alloc: Global, records: &[Rec]) -> Result<Option<Batches>, NoMemory>
    ensures { IfOk result (TellsBatches (bytes_of records.now)) }
{
    let mut reader = BatchReader::with_capacity(alloc, records.len())?;
    for rec in records {
        let Some(more) = read_more(reader, &rec.bytes)? else {
            return Ok(None);
        };
        reader = more;
    }
    let batches = reader.finish()?;
    Ok(Some(batches))
}
