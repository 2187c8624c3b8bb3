//! What a segment is to have.

/// What a segment is to have, in numbers of records that are counted from 0 over the whole run.
#[derive(Clone, Copy, Debug)]
pub struct Goal {
    /// How many records there are. A write takes all of them that the segment has not.
    pub len: u64,
    /// How many of them a sync is wanted for.
    pub want: u64,
    /// How many of them a sync has covered, in this segment or in another.
    pub acked: u64,
}
