//! The commit pipeline on threads: sessions commit and read beside one another. Only to number a
//! batch and to write the log they take turns, each at a lock of its own, so that numbering waits for
//! no disk; batches are applied, marked and published, and keys are read, without either.
//!
//! Stands on `commit_queue` and `shard_gate` for the ring and the shards, on `record_flow` for the
//! queue of records from the one lock to the other, and on `failover_writer` for the journal. The
//! layer above uses one contract: what a session has seen and what is its own is told after each of
//! its calls; and `finish` tells that the journal holds the batches of all sessions, each once, and
//! that what each has seen is a prefix of them.
//!
//! The flush lock may be taken under the commit lock, where memory is short, and never the other way
//! round: what is behind the flush lock (`log_side`, `flush_side`) is never handed the commit lock.
//!
//! What holds behind the commit lock: what was sent is what the producer's seat has placed, in their
//! order, and a book counts them. Behind the flush lock: the journal's records are what was taken, and a
//! book counts the answers that told of a death.
#![tactic(auto)]

mod bells;
mod commit_side;
mod desk;
mod entering;
mod fault;
mod finishing;
mod flush_side;
mod gate;
mod log_side;
mod meeting;
mod name;
mod parts;
mod pipeline;
mod reading;
mod session;
mod settling;
mod standing;
mod theorems;

pub use fault::{CommitFault, Committed, Reply};
pub use finishing::Finished;
pub use gate::{Gate, GatePoint, NoGate};
pub use name::PipeName;
pub use parts::Parts;
pub use pipeline::Pipeline;
pub use session::{Session, Sessions};
pub use standing::Standing;
pub use theorems::an_opened_base_is_kept;

#[cfg(test)]
mod tests;
