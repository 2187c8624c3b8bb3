//! The queue of numbered batches between a journal and its segments.
//!
//! A run's records are counted from 0. The queue holds those from a number on: what a segment may still have to
//! write, or to write anew. Room for a record is made before the record is numbered, so that handing it over can't
//! fail: in the queue itself, or in a node that goes into the queue with its record.
//!
//! It stands on `batch_repr` for the records and on `wal_base` for `NoMemory`. The layer above uses one
//! contract: a queue is a list from a start; after `reserve` one `push` takes no memory, and a filled node never does.
//!
//! What holds of each value here: the number after the last record fits a `u64`; each node of a queue is filled.
#![tactic(auto)]

mod node;
mod queue;
#[cfg(test)]
mod tests;

pub use node::{Filled, RecordNode};
pub use queue::RecordQueue;
