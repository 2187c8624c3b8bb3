//! The writer of one segment of a log, whose operations stay in flight between its calls.
//!
//! A segment is to have the records of a run from a number on. `LogWriter::begin` starts its next operation, of which
//! the caller says by a [`Goal`] how far it is to go: the creation, a sync, or a write of all records that it has not.
//! `LogWriter::poll` asks after the operation in flight. Records are read in a queue and framed in one buffer, which
//! the disk is handed as it is.
//!
//! It stands on `disk_face` for what a disk is, on `record_queue` for the records, on `block_record` for the framing,
//! on `batch_repr` for what a record's bytes are, on `crc_chunk` for the words of the premise on checksums, and on
//! `wal_base` for buffers. The layer above uses one contract: a writer that fits its disk fits it after each call, and at
//! each moment of a call every image that no torn chunk deceives reads out as a prefix of the records, with all that was
//! synced before the call.
//!
//! What holds of each value here: its pending answers are counted to 1,000 and no further. All else that holds is said
//! of a writer and a disk together (`Fits`).
#![tactic(auto)]

mod beginning;
mod goal;
mod phase;
mod polling;
#[cfg(test)]
mod tests;
mod theorems;
mod writer;

pub use goal::Goal;
pub use polling::WAITING_MAX;
pub use theorems::{
    a_fitting_writer_has_its_file, a_fitting_writer_keeps_its_segment, a_synced_file_is_kept,
    fits_as_records_come, fits_beside_other_operations,
};
pub use writer::LogWriter;
