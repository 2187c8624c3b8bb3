//! Why lines, or one of them, are not read.

use thiserror::Error;
use wal_base::NoMemory;

/// Why lines are not read.
#[derive(Clone, Copy, Debug, PartialEq, Eq, Error)]
pub enum ViewFault {
    /// The first line that is not accepted, counted from 1.
    #[error("line {line} is not accepted")]
    BadLine { line: u64 },
    /// Memory ran out.
    #[error("out of memory")]
    NoMemory,
}

/// Why a line is not read.
#[derive(Clone, Copy, Debug, PartialEq, Eq, Error)]
pub(crate) enum LineFault {
    /// The line is not accepted.
    #[error("the line is not accepted")]
    Bad,
    /// Memory ran out.
    #[error("out of memory")]
    NoMemory,
}

impl From<NoMemory> for LineFault {
    ghost use Rattle.std.specs.Prelude.{◌≡◌};
    ghost use Rattle.view_script.specs.declared.fault.LineFault.TheVariants as faults;

    ghost from_gives = { λ _ e. e ≡ faults.NoMemory };

    fn from(_: NoMemory) -> LineFault {
        LineFault::NoMemory
    }
}

impl From<NoMemory> for ViewFault {
    ghost use Rattle.std.specs.Prelude.{◌≡◌};
    ghost use Rattle.view_script.specs.declared.fault.ViewFault.TheVariants as faults;

    ghost from_gives = { λ _ e. e ≡ faults.NoMemory };

    fn from(_: NoMemory) -> ViewFault {
        ViewFault::NoMemory
    }
}
