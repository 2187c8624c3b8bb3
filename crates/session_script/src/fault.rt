//! Why a script or a line of it is not read.

use thiserror::Error;
use wal_base::NoMemory;

/// Why a script is not read.
#[derive(Clone, Copy, Debug, PartialEq, Eq, Error)]
pub enum ScriptFault {
    /// The first bad line, counted from 1.
    #[error("line {line} is bad")]
    BadLine { line: u64 },
    /// Memory ran out.
    #[error("out of memory")]
    NoMemory,
}

/// Why a line is not read.
#[derive(Clone, Copy, Debug, PartialEq, Eq, Error)]
pub(crate) enum LineFault {
    /// The line is bad.
    #[error("the line is bad")]
    Bad,
    /// Memory ran out.
    #[error("out of memory")]
    NoMemory,
}

impl From<NoMemory> for LineFault {
    ghost use Rattle.std.specs.Prelude.{◌≡◌};
    ghost use Rattle.session_script.specs.declared.fault.LineFault.TheVariants as faults;

    ghost from_gives = { λ _ e. e ≡ faults.NoMemory };

    fn from(_: NoMemory) -> LineFault {
        LineFault::NoMemory
    }
}

impl From<NoMemory> for ScriptFault {
    ghost use Rattle.std.specs.Prelude.{◌≡◌};
    ghost use Rattle.session_script.specs.declared.fault.ScriptFault.TheVariants as faults;

    ghost from_gives = { λ _ e. e ≡ faults.NoMemory };

    fn from(_: NoMemory) -> ScriptFault {
        ScriptFault::NoMemory
    }
}
