use batch_repr::BatchFault;
use disk_face::Side;
use thiserror::Error;
use wal_base::NoMemory;

/// Why the directories were not recovered: the first reason in the order in which recovery looks. Duplicates come
/// before everything that is read.
#[derive(Clone, Copy, Debug, PartialEq, Eq, Error)]
pub enum RecoverFault {
    /// A call on this side failed, and its count of faults rose.
    #[error("the side {side:?} failed")]
    Disk {
        side: Side,
    },
    /// A segment with this WAL and index stands on both sides. Of several it is the least.
    #[error("segment {index} of WAL {wal} stands on both sides")]
    DuplicateSegment {
        wal: u64,
        index: u32,
    },
    /// The record at this place of the segment, counted from the segment's front, is no batch.
    #[error("segment {index} of WAL {wal} has no batch at {place}: {fault}")]
    BadBatch {
        wal: u64,
        index: u32,
        place: u64,
        fault: BatchFault,
    },
    /// A batch of the segment begins at `found`, above the number that is expected there.
    #[error("segment {index} of WAL {wal} goes on at {found}, not at {expected}")]
    Gap {
        wal: u64,
        index: u32,
        expected: u64,
        found: u64,
    },
    /// The batch of the segment with this first number is another than the one that was there before.
    #[error("segment {index} of WAL {wal} has another batch at {first}")]
    Conflict {
        wal: u64,
        index: u32,
        first: u64,
    },
    /// Memory ran out.
    #[error("out of memory")]
    NoMemory,
    /// The bytes of the segment at `at` are corrupt: a sync had covered them when the chunk at `shown_at` was written.
    /// Both places are counted from the segment's front. Only where no gap is accepted.
    #[error("segment {index} of WAL {wal} is corrupt at {at}, as the chunk at {shown_at} shows")]
    Corrupt {
        wal: u64,
        index: u32,
        at: u64,
        shown_at: u64,
    },
}

impl From<NoMemory> for RecoverFault {
    ghost use Rattle.std.specs.Prelude.{◌≡◌};
    ghost use Rattle.wal_recovery.specs.declared.fault.RecoverFault.TheVariants as faults;

    ghost from_gives = { λ _ e. e ≡ faults.NoMemory };

    fn from(_: NoMemory) -> RecoverFault {
        RecoverFault::NoMemory
    }
}
