//! A disk in memory, which tells everything: its files, its operations in flight, and its files at each earlier
//! moment. Stalls and failures come where they are asked for, and a crash leaves the image that a pick names.
//!
//! Stands on `wal_base`, for `NoMemory` and lists, on `disk_face`, whose traits `Disk`, `StallDisk` and `TableDisk`
//! it meets, and on `crc_chunk`, to find the chunks of an image. The layers above run on [`MemDisk`] in their tests
//! and simulations: [`MemDisk::crash`] leaves a [`CrashPick`]'s image, [`MemDisk::chance_free`] tests the premise
//! on checksums of it, and [`each_image_has_a_pick`] says that no image is left out in which tables, and files
//! whose removal failed, stand as they read.
//!
//! What holds of each such disk: at each place there is one file, the segments of a side and the tables are in
//! ascending order, what is stable was done, and what was done was sent.
#![tactic(auto)]

mod chance;
mod counts;
mod crash;
mod files;
mod listing;
mod memory;
mod moments;
mod ops;
mod order;
mod parts;
mod picks;
mod theorems;

pub use memory::{MemDisk, Planned};
pub use picks::{CrashPick, FilePick, FilePicks};
pub use theorems::each_image_has_a_pick;

#[cfg(test)]
mod tests;
