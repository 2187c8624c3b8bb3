//! What a commit and a read answer.

use disk_face::Side;
use thiserror::Error;
use wal_base::{Blob, NoMemory};

/// A batch that was committed.
#[derive(Clone, Copy, Debug, PartialEq, Eq)]
pub struct Committed {
    /// Its first number.
    pub first: u64,
    /// How many numbers it takes.
    pub count: u32,
    /// Whether it was asked, and waited, that a sync covers it.
    pub synced: bool,
}

/// What is read of a key.
#[derive(Debug, Drop)]
pub struct Reply {
    /// The number after all batches that the read saw.
    pub visible: u64,
    /// The value of the key after them.
    pub value: Option<Blob>,
}

/// Why a commit is not what was asked for. With the first four nothing was numbered; with the other
/// two the batch is numbered and visible, and no sync is known to cover it.
#[derive(Clone, Copy, Debug, PartialEq, Eq, Error)]
pub enum CommitFault {
    /// The journal was dead before the batch was numbered.
    #[error("the journal is dead, on the side {side:?}, after {faults} failures")]
    Dead {
        side: Side,
        faults: u64,
    },
    /// The journal has as many records as it may have.
    #[error("the journal has {count} records, and takes no more")]
    TooManyBatches {
        count: u64,
    },
    /// The batch would end past the numbers, of which this one comes next.
    #[error("the numbers are used up at {next}")]
    SeqExhausted {
        next: u64,
    },
    /// Memory ran out before the batch was numbered.
    #[error("out of memory")]
    NoMemory,
    /// The journal was found dead before a sync covered the batch.
    #[error("the batch at {first} is not synced: the journal is dead")]
    Unsynced {
        first: u64,
        count: u32,
        side: Side,
        faults: u64,
    },
    /// Memory ran out before a sync covered the batch.
    #[error("the batch at {first} is not synced: out of memory")]
    NoMemorySync {
        first: u64,
        count: u32,
    },
}

impl From<NoMemory> for CommitFault {
    ghost use Rattle.std.specs.Prelude.{◌≡◌};
    ghost use Rattle.commit_pipeline.specs.declared.fault.CommitFault.TheVariants as faults;

    ghost from_gives = { λ _ e. e ≡ faults.NoMemory };

    fn from(_: NoMemory) -> CommitFault {
        CommitFault::NoMemory
    }
}
