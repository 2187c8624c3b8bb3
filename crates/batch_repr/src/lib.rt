//! The text of a batch: entries are built, numbered, and stand as the bytes that go to the log; and bytes are
//! read back as the batch that they spell.
//!
//! Stands on `wal_base` alone. The layers above use three contracts: the bytes of a numbered batch are the one
//! written spelling of what was built, and numbering takes no memory; `put_set` adds that spelling of one Set to
//! a text; and reading answers the batch exactly where the bytes spell one, and otherwise the first fault from
//! left to right.
//!
//! What holds of each value here: a builder and an unnumbered batch hold entries within their limits, spelled
//! after a header that is not written yet; a numbered batch holds its written text, and an entry of it is
//! counted.
#![tactic(auto)]

mod batch;
mod builder;
mod decoding;
mod fault;
mod limits;
mod numbered;
mod reader;
mod shared_entries;
mod theorems;
mod unnumbered;
mod unwritten;
mod writing;

pub use batch::{Batch, Batches};
pub use builder::BatchBuilder;
pub use decoding::{decode, decode_shared};
pub use fault::{BatchFault, BuildFault};
pub use limits::{
    BATCH_MAX, BATCHES_MAX, KEY_MAX, NUMBER_FIRST, NUMBER_MAX, SESSIONS_MAX, VALUE_MAX,
};
pub use numbered::Numbered;
pub use reader::BatchReader;
pub use shared_entries::SharedEntries;
pub use theorems::{
    batches_with_a_spelling_are_spelled, bytes_have_one_reading, fits_exactly_where_not_refused,
    shortest_is_written,
};
pub use unnumbered::{Unnumbered, UnnumberedBytes};
pub use unwritten::Unwritten;
pub use writing::{push_batch, put_set};

#[cfg(test)]
mod tests;
