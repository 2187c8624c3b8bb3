//! The records of a segment as they are read.

use wal_base::{Blob, ListOf};

/// A record that was read.
#[derive(Debug, Drop)]
pub struct Rec {
    /// The place of its first chunk, counted from the segment's front.
    pub at: u64,
    /// Its bytes.
    pub bytes: Blob,
}

/// The records of a segment, in their order.
pub type Records = ListOf<Rec>;

/// What shows that a segment is corrupt.
#[derive(Clone, Copy, Debug, PartialEq, Eq)]
pub struct Shown {
    /// The place at which reading stopped, whose bytes are corrupt.
    pub at: u64,
    /// The place of a later chunk that was written when a sync had covered them.
    pub shown_at: u64,
}

/// What a segment holds.
#[derive(Debug, Drop)]
pub struct ReadOut {
    /// The records that are whole.
    pub records: Records,
    /// The place after the last of them, counted from the segment's front.
    pub ends_at: u64,
    /// Whether a byte from there on is not zero.
    pub torn: bool,
    /// What shows that the bytes at which reading stopped are corrupt, if something does.
    pub shown: Option<Shown>,
}
