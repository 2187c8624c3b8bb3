//! Merging: the segments of a WAL, which may repeat one another, as one list of batches.
//!
//! Stands on `batch_repr` for the batches and on `wal_base` for lists and `NoMemory`. The layer above uses one
//! contract: `merge` gives the one list that is contiguous from a number and has exactly the batches of all
//! segments, and refuses a row exactly where there is none, at its first wrong batch. `merge_lenient` is the same
//! for rows with gaps, and `LenientMerge` goes on with one from row to row. `KnownBatches` tells whether a batch is
//! one of those that are known.
//!
//! What holds of each value here: of the batches that were kept so far, each takes a number and begins at or above
//! the end of the one before it.
#![tactic(auto)]

mod fault;
mod known;
mod lenient;
mod merging;
mod segment;
mod theorems;

pub use fault::MergeFault;
pub use known::KnownBatches;
pub use lenient::{LenientMerge, merge_lenient};
pub use merging::merge;
pub use segment::{SegmentRead, Segments};
pub use theorems::{rows_have_one_answer, rows_with_gaps_have_one_answer};

#[cfg(test)]
mod tests;
