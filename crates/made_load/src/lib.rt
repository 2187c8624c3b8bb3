//! The generated load: a script that nobody writes, which a seed and the numbers of its batches fix.
//!
//! Stands on `session_replies` for lines and rounds, on `batch_repr` for the batches, on `text_lines` for how a line is
//! put together, and on `wal_base` for bytes and lists. The layer above uses two contracts: `Load` hands out the rounds of
//! a load, one after another, and `LoadLines` makes the lines of one session of a round, or of all.
//!
//! `load` hands out the rounds, `every_nth` says which batches of a round are whose, `load_lines` makes their lines, and
//! `load_end` has the line that is printed at the end.
#![tactic(auto)]

mod digits;
mod every_nth;
mod load;
mod load_end;
mod load_lines;
mod theorems;

pub use load::{
    LOAD_BATCH_STEP, LOAD_KEYS, LOAD_ROUND, LOAD_SEED_STEP, LOAD_SESSIONS, Load, LoadRound,
    load_key, load_number, load_script,
};
pub use load_end::{LoadEnd, put_load_end};
pub use load_lines::LoadLines;
pub use theorems::a_load_asks_for_few;

#[cfg(test)]
mod tests;
