//! What a seat knows. No value of these types is made: contracts alone speak of them, and read an
//! array as a list of any length.

use batch_repr::Batch;
use memtable_shards::Shard;
use publish_core::SeatState;

/// What a seat knows of the acked word, which the flush seat alone raises.
pub struct AckedKnown {
    /// The seat is the flush seat.
    pub is_flush: bool,
    /// What the flush seat has raised the word to, so far.
    pub raised: u64,
    /// What a flush seat that it took in last had raised the word to.
    pub retired: Option<u64>,
    /// No other seat was made yet.
    pub alone: bool,
}

/// What a seat of a table knows.
pub struct View {
    /// The seat as the machine of the ring sees it.
    pub seat: SeatState,
    /// The table's first number.
    pub base: u64,
    /// The versions of each shard as the table was made.
    pub opening: [Shard; 0],
    /// So many batches are admitted, where the seat is the producer's.
    pub head: u64,
    /// The batches that it has seen, from the first on.
    pub history: [Batch; 0],
    /// The history of the seat that it took in last, until a load settles it.
    pub absorbed: [Batch; 0],
    /// The first number that the seat taken in last knew.
    pub absorbed_base: u64,
    /// What it knows of the acked word.
    pub acked_known: AckedKnown,
    /// The versions of the shard as the seat took it.
    pub taken: Shard,
    /// The shards where the batch that the seat holds is applied.
    pub pieces: [u64; 0],
}
