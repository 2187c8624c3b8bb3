//! The script that a replay runs: rounds of what sessions do, and the polls that are stalled.
//!
//! Stands on `session_replies` for what a script is once it is read, on `line_words` for how lines and words are cut, on
//! `batch_repr` for the batches, on `disk_face` for the two sides, and on `wal_base` for bytes and lists. The layer above
//! uses one contract: `read_script` answers which script the bytes are, or the number of the first line that is bad.
//!
//! A script is read in one pass, line by line, and each word once: `words` takes names and numbers off the pieces of a
//! line, `entries` the entries of a batch, `sayings` what one line says, and `reading` joins what the lines say into
//! rounds. The bytes are copied once, and a key, a value or a note is a part of the copy.
#![tactic(auto)]

mod entries;
mod fault;
mod reading;
mod saying;
mod sayings;
mod theorems;
mod words;

pub use fault::ScriptFault;
pub use reading::read_script;
pub use saying::POLLS_MAX;
pub use theorems::{
    a_script_counts_its_sessions_and_few_numbers, bytes_are_one_script,
    bytes_have_one_first_bad_line,
};

#[cfg(test)]
mod tests;
