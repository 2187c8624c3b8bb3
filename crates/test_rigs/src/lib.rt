//! What the tests of several crates build: batches of a few entries, and disks in memory on which nothing is in flight, or
//! that hold polls back.
//!
//! Stands on `wal_base`, for `NoMemory`, on `batch_repr`, whose batches it builds, and on `disk_face` and `mem_disk`, for
//! disks. The layers above take all of it in their tests, and nowhere else. A failure is answered, since a test alone may
//! give up.
//!
//! What holds: on a [`Fresh`] disk nothing stands and nothing is in flight, and a [`Late`] disk tells what the disk within
//! does, but for the polls that it answers by itself.
#![tactic(auto)]

mod batches;
mod fresh;
mod late;

pub use batches::{Change, batch_of, numbered_set};
pub use fresh::Fresh;
pub use late::Late;

#[cfg(test)]
mod tests;
