//! The versions that batches leave their keys with, in eight shards, where a key is read below any number.
//!
//! Stands on `arena_list` for the versions that are settled, on `batch_repr` for batches and on `wal_base` for
//! bytes and entries. The layers above use one contract: eight shards that were given the pieces of batches in a
//! row answer, below the end of the first n of them, what the store answers after these.
//!
//! What holds of each value here: pieces have the versions of their entries, each in a node of its own; what waits
//! in a shard to be settled has numbers of its own, which no settled version has.
#![tactic(auto)]

mod found;
mod moving;
mod part;
mod pieces;
mod shard;
mod sharding;
mod theorems;
mod waiting;

pub use arena_list::{ArenaList, Found};
pub use pieces::{PieceNode, Pieces, split};
pub use shard::Shard;
pub use sharding::{SHARDS, shard_index};
pub use theorems::{
    new_shards_are_of_no_batch, pieces_add_a_batch, settled_shards_are_the_same,
    shards_answer_as_the_store,
};

#[cfg(test)]
mod tests;
