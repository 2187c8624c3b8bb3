//! The top call: `run` does all that the program does, over streams, a disk and a gate that are handed in.
//!
//! Stands on `command_line` for what the words ask for, on `flush_table` for the store of the directories and its flush,
//! on `wal_recovery` for how they are refused, on `wal_ship` for how batches are one stream, on `view_script` for what the
//! lines of a view ask for, on `view_runner` for their replies, on `session_script` for what a script says, on `made_load`
//! for what a load is, on `script_runner` for their run over a journal, on `session_replies` for the last line of a replay,
//! on `text_lines` for how a store and segments are printed, on `disk_face` for what a disk is, and on `wal_base` for bytes
//! and streams. The program above uses one contract, that of `run`: which text is written, with which status, and which
//! journal is left, by the words, the source and the disk.
//!
//! A run goes through the rooms in this order, and writes no text before the last: `commands` (which command the words
//! are), and the room of that command, `replay`, `load`, `recover`, `dump`, `flush`, `view` or `ship`; of a replay and a
//! view `reading` (the source's bytes); of a replay and a load `working` (what it comes to over what the directories
//! recover to); `said` (which text and status); `writing` (the text, built whole by then). A room of a command names no
//! other.
#![tactic(auto)]

mod commands;
mod reading;
mod said;
mod status;
mod top;
mod working;
mod writing;

pub use commit_pipeline::{Gate, GatePoint, NoGate};
pub use reading::SCRIPT_MAX;
pub use status::{Ran, Status};
pub use top::run;

#[cfg(test)]
mod tests;
