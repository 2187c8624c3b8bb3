use batch_repr::Batches;
use disk_face::{SegName, Side};
use wal_base::ListOf;

/// Whether gaps between the numbers are accepted, and segments that are corrupt.
#[derive(Clone, Copy, Debug, PartialEq, Eq)]
pub enum Mode {
    /// No gap is accepted and no corrupt segment, and what is read is synced.
    Strict,
    /// Gaps are accepted, corrupt segments are read up to where they are corrupt, and nothing is synced.
    Lenient,
}

/// Where recovery begins.
#[derive(Debug, Drop)]
pub struct Start {
    /// The least number of a WAL that is read: segments of lesser ones are passed over.
    pub wal: u64,
    /// The number that the segments go on from, at most `NUMBER_MAX`.
    pub number: u64,
    /// The batches that are there already: numbered one after another, the last of them up to `number`.
    pub base: Batches,
}

/// What one segment holds.
#[derive(Debug, Drop)]
pub struct SegReport {
    /// The directory in which it stands.
    pub side: Side,
    /// Its name.
    pub name: SegName,
    /// How many bytes it has.
    pub len: u64,
    /// The place after its last whole record, counted from its front.
    pub ends_at: u64,
    /// Whether a byte from there on is not zero.
    pub torn: bool,
    /// Its batches, those that take no number included.
    pub batches: Batches,
}

/// Reports, by WAL and index.
pub type SegReports = ListOf<SegReport>;

/// What the directories recover to.
#[derive(Debug, Drop)]
pub struct Recovered {
    /// The batches, merged, behind those that were there already.
    pub batches: Batches,
    /// The number after the last batch; the one that recovery begins with where there is none.
    pub next: u64,
    /// 1 more than the greatest number of a WAL that is listed; 1 where none is.
    pub next_wal: u64,
    /// A report on each segment.
    pub segments: SegReports,
}
