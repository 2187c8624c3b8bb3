//! What finds the newest range delete over a key, however many there are.
//!
//! Stands on `arena_list` for the keys where the newest range delete changes, on `batch_repr` for what it is that a key
//! is within a range, and on `wal_base` for bytes and for `NoMemory`. The layer above uses one contract: of the range
//! deletes that a cover was given, and that a key is within, it tells the greatest number below a bound, and none exactly
//! where there is none.
//!
//! What holds of each value here: the range deletes stand in the order of their numbers; and for each key, the last edge
//! at it or before it tells the newest range delete over that key.
#![tactic(auto)]

mod cover;
mod edges;
mod mark;
mod within;

pub use cover::RangeCover;
pub use mark::RangeMark;
pub use within::is_within;

#[cfg(test)]
mod tests;
