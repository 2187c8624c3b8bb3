//! The lines that the program prints of what a log holds: bytes, batches, segments, tables, a store, and refusals.
//!
//! Stands on `batch_repr` for batches and what a store answers after them, and on `disk_face` for the names of
//! segments and tables. The layer above uses one contract: each call adds to a text exactly the line that its definition says, and
//! of a store one line for each key that has a value, in order of bytes; on out of memory it leaves the text as it was.
//! `live_keys` gives these keys themselves, with their values.
//!
//! No value of this crate is kept: a text is the list of its bytes.
#![tactic(auto)]

mod batches;
mod pieces;
mod printed;
mod refusals;
mod segments;
mod store;
#[cfg(test)]
mod tests;

pub use batches::put_batch;
pub use pieces::{Piece, put_pieces};
pub use printed::{put_number, put_printed};
pub use refusals::{put_bad_batch, put_conflict, put_corrupt, put_duplicate, put_gap};
pub use segments::{SegmentLine, TableLine, put_recovered_end, put_segment, put_table, side_name};
pub use store::{LiveKeys, live_keys, put_store};
