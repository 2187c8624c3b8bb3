//! Where the bytes of a run come from, and where they go.

ghost use Rattle.std.specs.Prelude.{◌≡◌, ◌<◌, ◌≤◌, ℕ, List, [], length, take, Option, IfOk, OnErr, IsErr, IsErrOf};
ghost use Rattle.wal_base.specs.Faults.{HasCause, StaysUnless};
ghost use Rattle.wal_base.specs.Told.{HandsOut, EndsAtNone, Took};

use thiserror::Error;

/// A source failed.
#[derive(Clone, Copy, Debug, PartialEq, Eq, Error)]
#[error("the source failed")]
pub struct ReadFault;

/// Why a sink took nothing.
#[derive(Clone, Copy, Debug, PartialEq, Eq, Error)]
pub enum PutErr {
    /// The sink failed, and counted it.
    #[error("the sink failed")]
    Failed,
    /// The sink had no memory for the piece.
    #[error("the sink is out of memory")]
    NoMemory,
}

/// Where bytes come from.
pub trait Source {
    /// The bytes that are left, where the source tells them.
    ghost left: { Self → Option (List ℕ) };

    /// How often it has failed. The count stops at 2^64 - 1.
    ghost faults: { Self → ℕ };

    /// Puts bytes at the front of the buffer, and answers how many. None into a buffer with room is the end.
    fn take(&mut self, buf: &mut [u8]) -> Result<usize, ReadFault>
        ensures within { IfOk result (λ n. n ≤ length buf.old) }
        ensures taken { IfOk result (HandsOut (left self.old) (left self.new) buf.new) }
        ensures end { IfOk result (EndsAtNone (left self.old) buf.old) }
        ensures err { OnErr result (left self.new ≡ left self.old) }
        ensures cause { HasCause (IsErr result) (faults self.old) (faults self.new) }
        ensures steady { StaysUnless (IsErr result) (faults self.old) (faults self.new) };
}

/// Where bytes go.
pub trait Sink {
    /// The bytes that were written, where the sink tells them.
    ghost written: { Self → Option (List ℕ) };

    /// How often it has failed. The count stops at 2^64 - 1.
    ghost faults: { Self → ℕ };

    /// How often it has been out of memory. The count stops at 2^64 - 1.
    ghost shortages: { Self → ℕ };

    /// Takes bytes from the front of a piece, and answers how many: at least one of a piece that is not empty.
    fn put(&mut self, bytes: &[u8]) -> Result<usize, PutErr>
        ensures within { IfOk result (λ n. n ≤ length bytes.now) }
        ensures some { IfOk result (λ n. 0 < length bytes.now → 0 < n) }
        ensures taken { IfOk result (Took (written self.old) (written self.new) bytes.now) }
        ensures err { OnErr result (written self.new ≡ written self.old) }
        ensures cause { HasCause (IsErrOf result PutErr.Failed) (faults self.old) (faults self.new) }
        ensures steady { StaysUnless (IsErrOf result PutErr.Failed) (faults self.old) (faults self.new) }
        ensures shortage { HasCause (IsErrOf result PutErr.NoMemory) (shortages self.old) (shortages self.new) }
        ensures supplied { StaysUnless (IsErrOf result PutErr.NoMemory) (shortages self.old) (shortages self.new) };
}
