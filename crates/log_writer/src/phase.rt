//! How a writer stands between its calls.

use disk_face::OpId;

/// What an operation does.
#[derive(Clone, Copy, Debug)]
pub enum Operation {
    /// Makes the segment.
    Create,
    /// Writes the records that were not sent.
    Write,
    /// Makes what is written last through a crash.
    Sync,
}

/// Whether an operation is in flight, and which.
#[derive(Clone, Copy, Debug)]
pub enum Phase {
    /// Nothing was started.
    New,
    /// This operation is in flight.
    InFlight(Operation, OpId),
    /// The segment is there, and nothing is in flight.
    Idle,
    /// An operation has failed.
    Broken,
}
