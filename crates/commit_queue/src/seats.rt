//! The seats of a table, and the note that a batch travels in.
ghost use Rattle.commit_queue.specs.Stands.{ProducerStands, SessionStands, NoteStands, FlushStands};

use crate::pipe_table::TableSeat;
use wal_base::ListOf;

/// The seat that places and admits batches.
#[derive(Drop)]
pub struct ProducerSeat {
    pub(crate) seat: TableSeat,
    pub(crate) head: u64,
    /// The end of the batch that it holds.
    pub(crate) end: u64,
    /// The shard whose turn it has.
    pub(crate) turn: Option<usize>,
    ghost stands: { ProducerStands seat.id seat.me head end turn },
}

/// A session's seat. Between two calls it claims no batch of the front.
#[derive(Drop)]
pub struct SessionSeat {
    pub(crate) seat: TableSeat,
    /// The index of the batch that it holds.
    pub(crate) index: u64,
    /// The end of the batch that it holds.
    pub(crate) end: u64,
    /// The shard whose turn it has.
    pub(crate) turn: Option<usize>,
    ghost stands: { SessionStands seat.me index end turn },
}

/// The seats of all sessions.
pub type SessionSeats = ListOf<SessionSeat>;

/// A batch on its way to a session.
#[derive(Drop)]
pub struct Handed {
    pub(crate) seat: TableSeat,
    pub(crate) index: u64,
    pub(crate) end: u64,
    ghost stands: { NoteStands seat.me index end },
}

/// The one seat that raises the acked word.
#[derive(Drop)]
pub struct FlushSeat {
    pub(crate) seat: TableSeat,
    ghost stands: { FlushStands seat.me },
}
