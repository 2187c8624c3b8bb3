//! The journal: the records of a run, written to segments in two directories, of which the next one is begun where the
//! current one hangs or fails.
//!
//! Stands on `log_writer` for one segment, on `stall_monitor` for when to leave one, on `record_queue` for the records
//! that are still to be written, and on `disk_face` for the disk that it owns. The layer above uses one contract: a step
//! does what the rules of the step say and nothing else, and each call keeps that the segments and the queue hold the
//! records, from which it follows what a stop leaves.
//!
//! What holds of each journal: each segment stands under its own name and on its own side, and begins at most at the end
//! of what those before it have synced; its file has the frames of its records as far as its writer says; each record
//! that a segment may still have to write is queued; and nothing is in flight on the disk but on these segments.
#![tactic(auto)]

mod driving;
mod fault;
mod journal;
#[cfg(test)]
mod tests;
mod theorems;

pub use fault::{DeadMark, JournalFault, Step};
pub use journal::Journal;
pub use theorems::{
    a_journal_at_hand, a_journal_keeps_its_base, a_journal_keeps_its_run,
    a_journal_without_failures_reads_as_an_image, stable_files_open_a_journal,
};
