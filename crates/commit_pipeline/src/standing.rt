//! What contracts see of a session. No value of it is made: a clause reads an array as a list of any
//! length.

use batch_repr::Batch;

/// What contracts see of a session.
pub struct Standing {
    /// The batches after the base that it has seen published, from the first on.
    pub seen: [Batch; 0],
    /// The places of its own batches among those, the last one first.
    pub own: [u64; 0],
    /// So many batches it has seen acked.
    pub acked: u64,
    /// So many of its commits were answered `Dead` or `Unsynced`.
    pub dead: u64,
    /// So many meetings told it of a death.
    pub told: u64,
}
