//! The command line: which command the words are.
//!
//! Stands on `clap` for which word is a command, an option or a value, on `stall_monitor` for the greatest threshold, and
//! on `wal_base` for what is answered out of memory. The layer above uses one contract: `read_command` answers the command that the
//! words are, and `Usage` only where they are none.
//!
//! No value of this crate is kept.
#![tactic(auto)]

mod asked;
mod command;
mod numbers;
mod parse;
mod program;
mod theorems;
mod words;

pub use command::{Command, LOAD_MAX, THRESHOLD_DEFAULT, WordsFault};
pub use theorems::words_are_one_command;
pub use words::read_command;

#[cfg(test)]
mod tests;
