use thiserror::Error;
use wal_base::NoMemory;

/// Why a row of segments was not merged: the first reason in the order of the row. An index is a segment's own.
#[derive(Clone, Copy, Debug, PartialEq, Eq, Error)]
pub enum MergeFault {
    /// In the segment, a batch begins at `found`, above the number that comes next there.
    #[error("segment {index} goes on at {found}, not at {expected}")]
    Gap {
        index: u32,
        expected: u64,
        found: u64,
    },
    /// In the segment, the batch with this first number begins below the number that comes next there, and is none
    /// of those before it.
    #[error("segment {index} has another batch at {first}")]
    Conflict {
        index: u32,
        first: u64,
    },
    /// Memory ran out.
    #[error("out of memory")]
    NoMemory,
}

impl From<NoMemory> for MergeFault {
    ghost use Rattle.std.specs.Prelude.{◌≡◌};
    ghost use Rattle.segment_merge.specs.declared.fault.MergeFault.TheVariants as faults;

    ghost from_gives = { λ _ e. e ≡ faults.NoMemory };

    fn from(_: NoMemory) -> MergeFault {
        MergeFault::NoMemory
    }
}
