//! A disk over the files of the system: the directories `./wal`, with the tables, and `./wal_secondary`.
//!
//! Stands on `wal_base`, for bytes and `NoMemory`, and on `disk_face`, whose traits `Disk` and `TableDisk` it meets.
//! The programs above run their log on [`FileDisk`]. It is part of the trusted edge: what the system does with a file
//! is not proved, and it tells no content. What no clause can say of it is tested: that a refusal of the system is
//! answered as a failure, that new names are synced, that a table is written and synced before it has its name, and
//! that a write to a segment held open opens no path.
//!
//! What holds of each such disk: an operation ends at its first poll, a failure is answered only where the count
//! of its side rose, and a listing is in ascending order and holds names in range alone.
#![tactic(auto)]

mod directory;
mod file_disk;
mod flights;
mod locks;
mod order;
mod paths;
mod system;

pub use file_disk::FileDisk;
pub use locks::LockFiles;

#[cfg(test)]
mod tests;
