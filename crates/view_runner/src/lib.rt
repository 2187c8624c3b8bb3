//! The replies to the lines of a view, as one text.
//!
//! Stands on `snapshot_view` for a store as it was at held numbers, on `view_script` for the lines, on `text_lines` for how
//! keys, values and numbers are printed, and on `batch_repr` and `wal_base` for batches and bytes. The layer above uses one
//! contract: `view_text` answers the one text that the lines have over the batches.
//!
//! `texts` adds the line of one reply, `reading` what a get and a scan answer, and `run` carries the lines out, one after
//! another. What a run keeps: of each line that asked for a hold the hold of the view, and none where it was refused or is
//! released.
#![tactic(auto)]

mod reading;
mod run;
mod texts;
mod theorems;

pub use run::view_text;
pub use theorems::views_have_one_text;

#[cfg(test)]
mod tests;
