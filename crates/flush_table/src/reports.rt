use batch_repr::Batches;
use disk_face::{Names, TableNames};
use wal_recovery::SegReports;

/// What is told of the table that a store begins with.
#[derive(Clone, Copy, Debug, PartialEq, Eq)]
pub struct TableSeen {
    /// Its number: the greatest WAL that it covers.
    pub upto: u64,
    /// How many keys it has.
    pub keys: u64,
    /// The number that comes next after its batches.
    pub next: u64,
}

/// The store of the directories.
#[derive(Debug, Drop)]
pub struct StoreRead {
    /// The batches: those of the used table, and those of the segments above it.
    pub batches: Batches,
    /// The used table; `None` where no table is whole.
    pub table: Option<TableSeen>,
    /// The number after the last batch; where there is none, the `next` of the used table, and else the first of all.
    pub next: u64,
    /// 1 more than the greatest number of a WAL and of a table that is listed; 1 where none is.
    pub next_wal: u64,
    /// A report on each segment above the used table.
    pub segments: SegReports,
    /// The tables, as the disk listed them, whole or not.
    pub tables: TableNames,
    /// The segments of the primary side, as the disk listed them.
    pub primary: Names,
    /// Those of the secondary side.
    pub secondary: Names,
}
