//! The lines that the command `view` takes: numbers to hold, what to read at them, and purges.
//!
//! Stands on `line_words` for how lines and words are cut, and on `wal_base` for bytes and lists. The layer above uses one
//! contract: `read_view` answers what the lines of a text ask for, in their order, or the number of the first line that is
//! not accepted.
//!
//! A text is read in one pass, line by line: `words` takes numbers and keys off the words of a line, `asking` says what one
//! line asks for, and `reading` goes through the lines. The bytes are copied once, and each key is a part of the copy.
#![tactic(auto)]

mod asking;
mod fault;
mod reading;
mod theorems;
mod view_line;
mod words;

pub use fault::ViewFault;
pub use reading::read_view;
pub use theorems::{asked_lines_are_not_bad, bytes_are_one_view, one_line_is_first_bad};
pub use view_line::{ViewLine, ViewLines};

#[cfg(test)]
mod tests;
