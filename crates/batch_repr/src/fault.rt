use std::alloc::{AllocError, AllocFailed};
use thiserror::Error;
use wal_base::NoMemory;

/// Why an entry was not added. The builder is as it was.
#[derive(Clone, Copy, Debug, PartialEq, Eq, Error)]
pub enum BuildFault {
    /// The key has so many bytes, more than [`crate::KEY_MAX`].
    #[error("the key has {len} bytes, too many")]
    KeyTooLong { len: u64 },
    /// The value has so many bytes, more than [`crate::VALUE_MAX`].
    #[error("the value has {len} bytes, too many")]
    ValueTooLong { len: u64 },
    /// The written batch would have so many bytes, more than [`crate::BATCH_MAX`].
    #[error("the batch would have {len} bytes, too many")]
    BatchTooLong { len: u64 },
    /// Memory ran out.
    #[error("out of memory")]
    NoMemory,
}

/// What is wrong with the bytes of a batch: the first fault in the order of reading. Every place is counted
/// from the first byte, which has place 0.
#[derive(Clone, Copy, Debug, PartialEq, Eq, Error)]
pub enum BatchFault {
    /// There are fewer than the 12 bytes of a header.
    #[error("the header is cut short")]
    ShortHeader,
    /// The bytes end within the entry whose kind byte stands at the place.
    #[error("the entry at {at} is cut short")]
    ShortEntry { at: u64 },
    /// The length that begins at the place has over five bytes, or is 2^32 or more.
    #[error("no length stands at {at}")]
    BadVarint { at: u64 },
    /// The length that begins at the place is over the limit of its key, value or note. At 0 it is the
    /// bytes themselves that are more than [`crate::BATCH_MAX`].
    #[error("what begins at {at} is too long")]
    TooLong { at: u64 },
    /// The byte at the place is no kind of an entry.
    #[error("the kind {kind} at {at} is unknown")]
    UnknownKind { at: u64, kind: u8 },
    /// The header says one count, and another one is found.
    #[error("the header says {said} counted entries, there are {found}")]
    Count { said: u32, found: u32 },
    /// From this first number on, the batch would end past [`crate::NUMBER_MAX`].
    #[error("the numbers from {first} on go too far")]
    SeqRange { first: u64 },
    /// Memory ran out.
    #[error("out of memory")]
    NoMemory,
}

/// Why no number was read.
#[derive(Clone, Copy)]
pub(crate) enum VarintFault {
    /// The bytes end within it.
    Ended,
    /// It has over five bytes, or is 2^32 or more.
    Wrong,
}

impl From<NoMemory> for BuildFault {
    ghost use Rattle.std.specs.Prelude.{◌≡◌};
    ghost use Rattle.batch_repr.specs.declared.fault.BuildFault.TheVariants as faults;

    ghost from_gives = { λ _ e. e ≡ faults.NoMemory };

    fn from(_: NoMemory) -> BuildFault {
        BuildFault::NoMemory
    }
}

impl From<AllocError> for BuildFault {
    ghost use Rattle.std.specs.Prelude.{◌≡◌};
    ghost use Rattle.batch_repr.specs.declared.fault.BuildFault.TheVariants as faults;

    ghost from_gives = { λ _ e. e ≡ faults.NoMemory };

    fn from(_: AllocError) -> BuildFault {
        BuildFault::NoMemory
    }
}

impl From<NoMemory> for BatchFault {
    ghost use Rattle.std.specs.Prelude.{◌≡◌};
    ghost use Rattle.batch_repr.specs.declared.fault.BatchFault.TheVariants as faults;

    ghost from_gives = { λ _ e. e ≡ faults.NoMemory };

    fn from(_: NoMemory) -> BatchFault {
        BatchFault::NoMemory
    }
}

impl From<AllocError> for BatchFault {
    ghost use Rattle.std.specs.Prelude.{◌≡◌};
    ghost use Rattle.batch_repr.specs.declared.fault.BatchFault.TheVariants as faults;

    ghost from_gives = { λ _ e. e ≡ faults.NoMemory };

    fn from(_: AllocError) -> BatchFault {
        BatchFault::NoMemory
    }
}

impl<T: Drop> From<AllocFailed<T>> for BatchFault {
    ghost use Rattle.std.specs.Prelude.{◌≡◌};
    ghost use Rattle.batch_repr.specs.declared.fault.BatchFault.TheVariants as faults;

    ghost from_gives = { λ _ e. e ≡ faults.NoMemory };

    fn from(_: AllocFailed<T>) -> BatchFault {
        BatchFault::NoMemory
    }
}
