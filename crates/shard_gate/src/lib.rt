//! A batch's pieces are applied in the shards that lie in a table's slots, and keys are read there.
//! Each call takes one shard out and gives it back, without a lock: where another seat has it, the
//! call answers so at once.
//!
//! Stands on `commit_queue` for the table, its seats and the turns on its shards; on
//! `memtable_shards` for shards and pieces; and on `batch_repr` for the batches. The layer above uses
//! one contract: a piece that was applied is one of the shard's, for whoever takes it; and a read
//! answers the newest version of its key below a number up to which the seat has seen all published.
//!
//! What holds between two calls: the seat has no turn.
#![tactic(auto)]

mod applying;
mod gate;
mod reading;
mod settling;

pub use applying::PieceBusy;
pub use gate::ShardGate;
pub use reading::ReadBusy;

#[cfg(test)]
mod tests;
