//! The disk as the log sees it: two directories of segments, the tables in the primary one, and operations
//! that are started and polled.
//!
//! Stands on `wal_base`: its lists, its `NoMemory`, and its rule that a fault is answered only where a
//! count of faults rose. The layers above use the traits [`Disk`], [`TableDisk`] and [`StallDisk`], [`ScriptDisk`]
//! where a script says which polls are stalled, [`Scripted`] to say which of them it answers itself, and [`NoDisk`]
//! where nothing is to be kept.
//!
//! What holds of each disk here: only so many places have a file, what is stable was done, what was done was
//! sent, a read begins with what was done, no moment is forgotten, and no count falls but the polls left.
#![tactic(auto)]

mod by_side;
mod call_log;
mod disk;
mod names;
mod no_disk;
mod script_disk;
mod table_disk;

pub use by_side::BySide;
pub use call_log::CallLog;
pub use disk::{Disk, StallDisk};
pub use names::{INDEX_MAX, WAL_MAX};
pub use no_disk::NoDisk;
pub use script_disk::{ScriptDisk, Scripted};
pub use table_disk::TableDisk;
use thiserror::Error;
use wal_base::{ListOf, NoMemory};

/// Which of the two directories. Tables stand in the primary one.
#[derive(Clone, Copy, Debug, PartialEq, Eq, PartialOrd, Ord)]
pub enum Side {
    /// The directory that is written while all is well.
    Primary,
    /// The directory that is written while the primary one is slow or fails.
    Secondary,
}

/// The name of a segment: the number of its WAL, at most 999,999,999,999, and its index in that WAL, at most
/// 999. Names are ordered by the WAL, and in one WAL by the index.
#[derive(Clone, Copy, Debug, PartialEq, Eq, PartialOrd, Ord)]
pub struct SegName {
    /// The number of the WAL.
    pub wal: u64,
    /// The index of the segment in its WAL.
    pub index: u32,
}

/// The name of a table: the number of the last WAL whose batches it holds, at most 999,999,999,999.
#[derive(Clone, Copy, Debug, PartialEq, Eq)]
pub struct TableName {
    /// The number.
    pub upto: u64,
}

/// Where a file stands.
#[derive(Clone, Copy, Debug, PartialEq, Eq)]
pub enum FilePlace {
    /// A segment, in one of the two directories.
    Segment {
        /// In which directory.
        side: Side,
        /// Which segment.
        name: SegName,
    },
    /// A table, in the primary directory.
    Table {
        /// The number of the last WAL whose batches it holds, at most 999,999,999,999.
        upto: u64,
    },
}

/// A segment of a listing.
#[derive(Clone, Copy, Debug, PartialEq, Eq)]
pub struct Listed {
    /// Its name.
    pub name: SegName,
    /// How many bytes a read gives.
    pub len: u64,
}

/// A table of a listing.
#[derive(Clone, Copy, Debug, PartialEq, Eq)]
pub struct TableListed {
    /// The number of the last WAL whose batches it holds, at most 999,999,999,999.
    pub upto: u64,
    /// How many bytes a read gives.
    pub len: u64,
}

/// Segments with their lengths.
pub type Names = ListOf<Listed>;

/// Tables with their lengths.
pub type TableNames = ListOf<TableListed>;

/// An operation on one segment.
#[derive(Clone, Copy, Debug)]
pub enum DiskOp<'b> {
    /// Makes the file, without bytes.
    Create {
        /// In which directory.
        side: Side,
        /// Which segment.
        name: SegName,
    },
    /// Puts bytes at the end of the file.
    Write {
        /// In which directory.
        side: Side,
        /// Which segment.
        name: SegName,
        /// The bytes.
        bytes: &'b [u8],
    },
    /// Makes what the completed writes cover last through a crash.
    Sync {
        /// In which directory.
        side: Side,
        /// Which segment.
        name: SegName,
    },
}

/// An operation that was started. The disk gives no two of the operations in flight the same one.
#[derive(Clone, Copy, Debug, PartialEq, Eq)]
pub struct OpId {
    /// The directory that it works in.
    pub side: Side,
    /// Its number, which the disk chose.
    pub number: u64,
}

/// How an operation stands.
#[derive(Clone, Copy, Debug, PartialEq, Eq)]
pub enum Progress {
    /// It is still in flight.
    Pending,
    /// It ended as it was to.
    Done,
    /// It ended without success, and its side counted a fault.
    Failed,
}

/// Why a call answered nothing.
#[derive(Clone, Copy, Debug, PartialEq, Eq, Error)]
pub enum DiskErr {
    /// The disk failed, and counted it.
    #[error("the disk failed")]
    Failed,
    /// There was no memory for the answer.
    #[error("out of memory")]
    NoMemory,
}

impl From<NoMemory> for DiskErr {
    ghost use Rattle.std.specs.Prelude.{◌≡◌};
    ghost use Rattle.disk_face.specs.declared.DiskErr.TheVariants.{NoMemory};

    ghost from_gives = { λ _ err. err ≡ NoMemory };

    fn from(_: NoMemory) -> Self {
        DiskErr::NoMemory
    }
}

#[cfg(test)]
mod tests;
