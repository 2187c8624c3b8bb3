//! The verdict on the current segment of a log: to stay with it, to begin the next one, or to give up.
//!
//! Stands on nothing of this repository. The layer above uses one contract: `decide` answers exactly by the five things
//! that it is shown, and knows no time: how long a segment hangs is counted in polls that were answered pending.
//!
//! No value of this crate is kept.
#![tactic(auto)]

#[cfg(test)]
mod tests;
mod verdict;

pub use verdict::{MonitorView, SEGMENTS_MAX, THRESHOLD_MAX, Verdict, decide};
