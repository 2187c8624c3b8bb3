//! A list of batches as a stream of bytes, and a follower that takes such a stream in pieces.
//!
//! Stands on `batch_repr` for how a batch is spelled, on `segment_merge` to find known batches, on `crc_chunk` for the
//! checksum, and on `wal_base` for bytes. The layer above uses two contracts: `put_stream` adds exactly the stream of a
//! list; and a follower has taken, after any feeds, the new batches of the longest row of whole right frames at the
//! front of the bytes fed, and tells the first fault of these bytes, however they were cut.
//!
//! What holds of each value here: a follower holds no more of the stream than one frame that is not whole yet; the batches
//! that it was given and those that it took are contiguous, and it knows the number after them.
#![tactic(auto)]

mod fault;
mod follower;
mod frame;
mod stream;
mod theorems;

pub use fault::FollowFault;
pub use follower::Follower;
pub use stream::put_stream;
pub use theorems::{followers_come_to_one, frames_are_a_union, rows_are_taken, streams_are_taken};

#[cfg(test)]
mod tests;
