//! Recovery: what the two directories hold, as one list of batches.
//!
//! Stands on `disk_face` for the directories, `block_record` and `batch_repr` for what a segment holds, and
//! `segment_merge` for the one list that its segments give. The layers above use one contract: `recover` gives the
//! batches that the directories recover to, with a report on each segment, and refuses them exactly where they
//! recover to none. `recover_listed` does so of two listings from a WAL on, behind batches that are there already.
//! Neither changes a byte of a file.
//!
//! What holds of each value here: the segments of a listing stand in the order of their names, no name twice, and
//! each is read whole into one piece of memory that is let go once its batches are decoded.
#![tactic(auto)]

mod decoding;
mod fault;
#[cfg(test)]
mod first_reasons;
#[cfg(test)]
mod going_on;
mod listing;
mod merging;
mod reading;
mod recovering;
mod reports;
mod syncing;
#[cfg(test)]
mod tests;
mod wals;

pub use fault::RecoverFault;
pub use listing::{Sides, list_sides};
pub use recovering::{recover, recover_listed};
pub use reports::{Mode, Recovered, SegReport, SegReports, Start};
