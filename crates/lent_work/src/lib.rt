//! Work that is lent to another thread and comes back, time after time: one thread puts it on a desk, another takes it, does it
//! and puts it back.
//!
//! Stands on `crossbeam_queue` for a queue of one place that keeps a rule of its caller's, and on `commit_queue` for how a
//! thread waits. The layer above uses one contract, that of `Desk::await_back`: what comes back is the very work that was lent
//! last, either as it was or done.
#![tactic(auto)]

mod desk;
mod ends;
mod lending;
mod rule;
mod working;

pub use desk::Desk;
pub use ends::{Back, Lender, Worker};
pub use rule::Doing;

#[cfg(test)]
mod tests;
