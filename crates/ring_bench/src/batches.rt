//! The batches that are handed over, and how long a thread goes on.
use batch_repr::{BatchBuilder, Unnumbered};
use std::alloc::Global;
use wal_base::NoMemory;

/// The turns of a thread for each batch of the run. A thread needs few more than one, but has to
/// wait through many where the thread with the batch at the front is not running.
const TURNS_FOR_EACH: u64 = 1_024;

/// How many batches a thread takes from the front in a turn, at most.
pub(crate) const TRIES: u32 = 4;

/// The turns of a thread where the run has so many batches.
pub(crate) fn turns_for(batches: u64) -> u64 {
    batches.saturating_mul(TURNS_FOR_EACH)
}

/// A batch that takes one number, under the key of one byte.
pub(crate) fn one_entry(alloc: Global, key: u8) -> Result<Unnumbered, NoMemory> {
    let mut builder = BatchBuilder::new(alloc)?;
    if builder.set(&[key], b"v").is_err() {
        return Err(NoMemory);
    }
    builder.finish().map_err(|_| NoMemory)
}
