use disk_face::Side;
use thiserror::Error;
use wal_base::NoMemory;

/// The end of a journal: its last segment is broken, and no other may be begun.
#[derive(Clone, Copy, Debug, PartialEq, Eq)]
pub struct DeadMark {
    /// The side of the broken segment.
    pub side: Side,
    /// How many polls of this journal were answered with a failure, at least 1.
    pub faults: u64,
}

/// Why a journal did not step.
#[derive(Clone, Copy, Debug, PartialEq, Eq, Error)]
pub enum JournalFault {
    /// The last segment that may be begun is broken. The same is answered for good.
    #[error("the last segment is broken, on the side {side:?}, after {faults} failures")]
    Dead { side: Side, faults: u64 },
    /// Memory ran out. What this call's polls answered counts, and nothing was started.
    #[error("out of memory")]
    NoMemory,
}

impl From<NoMemory> for JournalFault {
    ghost use Rattle.std.specs.Prelude.{◌≡◌};
    ghost use Rattle.failover_writer.specs.declared.fault.JournalFault.TheVariants as faults;

    ghost from_gives = { λ _ e. e ≡ faults.NoMemory };

    fn from(_: NoMemory) -> JournalFault {
        JournalFault::NoMemory
    }
}

/// What a step came to.
#[derive(Clone, Copy, Debug, PartialEq, Eq)]
pub enum Step {
    /// A poll was answered or an operation was started, and no poll was pending.
    Moved,
    /// A poll of this step was pending.
    Waited,
    /// Nothing was in flight, and there was no work. No disk call was made.
    Idle,
}
