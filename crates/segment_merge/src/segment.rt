use batch_repr::Batches;
use wal_base::ListOf;

/// What was read of one segment: its index among the segments of its WAL, and its batches, in order.
#[derive(Debug, Drop)]
pub struct SegmentRead {
    pub index: u32,
    pub batches: Batches,
}

/// A row of segments, by their index.
pub type Segments = ListOf<SegmentRead>;
