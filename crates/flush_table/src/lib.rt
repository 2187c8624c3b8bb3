//! The store of directories with tables, as one list of batches, and that store written into one table.
//!
//! Stands on `disk_face` for the directories, `table_text` for what a table holds, `text_lines` for which keys are live,
//! and `wal_recovery` for what the segments above a table recover to. The layers above use two contracts.
//! `recover_store` gives the store, with what was listed, what was seen of the table that it begins with, and a report
//! on each segment above it; it refuses the directories exactly where they have no store, and changes no byte of a
//! file. `flush` puts the table of the store and removes what that covers, and whatever a crash leaves at any moment of
//! it answers every key as before.
//!
//! What holds of each value here: tables are looked at from the greatest number down, each is read whole into one
//! piece of memory, and one that is not whole is let go before the next is read. What is removed was listed before.
#![tactic(auto)]

mod beginning;
mod flushing;
mod putting;
mod recovering;
mod removing;
mod reports;
mod tables;
#[cfg(test)]
mod tests;
mod theorems;

pub use flushing::{Flushed, flush};
pub use recovering::recover_store;
pub use reports::{StoreRead, TableSeen};
pub use theorems::{directories_have_one_store, directories_use_one_table};
