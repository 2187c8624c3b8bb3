//! A store as it was at held numbers: gets, scans, and a purge that keeps what a held number shows.
//!
//! Stands on `arena_list` for the versions of keys and for the list of held numbers, on `range_cover` for the range
//! deletes, on `batch_repr` for the batches, and on `wal_base` for bytes. The layer above uses one contract: what a held
//! number answers is what the entries of the batches below it answer, before and after any purge.
//!
//! What holds of each value here: the versions are some of those that the batches leave, and have, at each held number and
//! from the floor up to the next number, each key's newest one; all range deletes are there; and the held numbers ascend,
//! with the next one.
#![tactic(auto)]

mod building;
mod fault;
mod scan;
mod theorems;
mod view;

pub use fault::HoldFault;
pub use scan::{Pair, Scan};
pub use theorems::{ends_answer_alike, scans_are_exact};
pub use view::{SnapId, View};

#[cfg(test)]
mod tests;
