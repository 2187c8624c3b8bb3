//! The rounds of a run, played by sessions beside one another: the sessions that have lines in a
//! round do them on threads, which are kept over rounds, and between two rounds all sessions meet. A
//! session without a line needs no thread, and a single session with lines plays in place.
//!
//! Stands on `commit_pipeline` for commits and reads, on `session_replies` for lines, replies and what is legal, on
//! `made_load` for the lines of a load, and on `lent_work` for turns that another thread plays. The layer above uses the
//! contracts of two types. `Players` has all sessions of a pipeline: a call plays a round, of a script or of a load, whose
//! lines the sessions make themselves, and then has all sessions meet. `Readers` has them, and the pipeline, after the last
//! round: its end tells that what was played is legal, that each batch answered synced is acked, and that a journal that
//! died stays dead.
#![tactic(auto)]

mod course;
mod crew;
mod handing;
mod hands;
mod parts;
mod players;
mod playing;
mod readers;
mod transcript;
mod turns;

pub use course::Course;
pub use players::Players;
pub use readers::Readers;
pub use transcript::Transcript;

#[cfg(test)]
mod tests;
