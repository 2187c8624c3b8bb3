//! The run of a script or of a generated load over a commit pipeline: round by round its sessions commit and read beside
//! one another, and each of their lines has its reply.
//!
//! Stands on `session_rounds` for the rounds that sessions play, on `commit_pipeline` for the pipeline below them, on
//! `session_replies` for the rounds and the lines of the replies, on `made_load` for the load, and on `failover_writer` for
//! the journal. The layer above uses one contract, that of `run_work`: the lines of all rounds are answered, each round's stalls first and
//! then its sessions beside one another, the replies are legal, and the journal is closed and holds what they say. A
//! script's replies are kept as text. A load's are not: its rounds are made one after another, and in the end its live keys
//! are counted.
#![tactic(auto)]

mod loads;
mod performing;
mod rounds;
mod run;
#[cfg(test)]
mod tests;
mod work;

pub use performing::Told;
pub use run::{Outcome, Run, run_work};
pub use work::Work;
