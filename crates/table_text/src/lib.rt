//! The text of a table: the live keys of a store in one file, which stands for all batches before it.
//!
//! Stands on `block_record` for records and their framing, on `batch_repr` for the batch that is written for a key
//! with its value, on `text_lines` for the keys that have a value after batches, and on `disk_face` for the log number.
//! The layer above uses two contracts: `put_table_text` makes the one text of a table, and `read_table` answers the
//! table exactly where bytes are those of a whole one.
//!
//! What holds of a table that was read: its keys ascend, each batch has one of them, and the last one ends at `next`.
#![tactic(auto)]

mod reading;
mod sets;
#[cfg(test)]
mod tests;
mod theorems;
mod writing;

pub use reading::{TableRead, read_table};
pub use theorems::{
    bytes_have_one_table, first_records_are_no_other_table, live_keys_are_within,
    no_part_is_another_table, numbers_are_enough, table_ends_at_next, table_stands_for_store,
    written_table_is_read,
};
pub use writing::put_table_text;
