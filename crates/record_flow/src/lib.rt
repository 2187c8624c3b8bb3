//! The records on their way from the thread that numbers batches to whoever writes the log: a queue in which each is
//! pushed behind the commit lock and popped behind the flush lock, in order, without a lock of its own. It has no
//! bound, so who numbers batches never waits for who writes them.
//!
//! Stands on `crossbeam_queue` for a queue that keeps a rule of its caller's, and on `atomic_blocks` for which queue a
//! pass is of; on `record_queue` for the nodes that carry the records, on `batch_repr` for these, and on `wal_base` for
//! `NoMemory`. The layer above uses one contract: what was popped is a prefix of what was pushed, so each record that
//! comes out begins where the one before it ends.
//!
//! What holds between any two steps: each node on its way is filled; what was popped and then what is on its way is
//! what was pushed; and the pushed records are numbered one after another from the first number on. One pass pushes,
//! and one pops; no other pass does either.
#![tactic(auto)]

mod flow;
mod moving;
mod opening;
mod passes;
mod rule;
mod theorems;

pub use flow::RecordFlow;
pub use passes::{FlushPass, SendPass};
pub use rule::FlowView;
pub use theorems::taken_is_a_prefix_of_sent;

#[cfg(test)]
mod tests;
