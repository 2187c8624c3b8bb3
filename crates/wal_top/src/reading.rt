//! The bytes of a script, read to the source's end.

ghost use Rattle.std.specs.Prelude.{◌≡◌, ◌<◌, ◌≤◌, ◌+◌, [], length, IfSome, IfOk, IsErrOf};
ghost use Rattle.wal_base.specs.Faults.{Rose};
ghost use Rattle.wal_top.specs.Reading.{AddsPiece, TookAtMost, ReadsWhole, ReadsTooMuch};

use std::alloc::{AllocError, Global};
use thiserror::Error;
use wal_base::{Buf, NoMemory, Source};

/// The most bytes of a script.
pub const SCRIPT_MAX: usize = 8_388_608;

/// The most bytes that are asked for at once.
const PIECE: usize = 65_536;

/// Why a script was not read.
#[derive(Clone, Copy, Debug, PartialEq, Eq, Error)]
pub(crate) enum ReadError {
    /// The source failed.
    #[error("the source failed")]
    Fault,
    /// The source has more than the greatest length.
    #[error("the script is too long")]
    TooLong,
    /// Memory ran out.
    #[error("out of memory")]
    NoMemory,
}

impl From<NoMemory> for ReadError {
    ghost use Rattle.std.specs.Prelude.{◌≡◌};
    ghost use Rattle.wal_top.specs.declared.reading.ReadError.TheVariants as errors;

    ghost from_gives = { λ _ e. e ≡ errors.NoMemory };

    fn from(_: NoMemory) -> ReadError {
        ReadError::NoMemory
    }
}

impl From<AllocError> for ReadError {
    ghost use Rattle.std.specs.Prelude.{◌≡◌};
    ghost use Rattle.wal_top.specs.declared.reading.ReadError.TheVariants as errors;

    ghost from_gives = { λ _ e. e ≡ errors.NoMemory };

    fn from(_: AllocError) -> ReadError {
        ReadError::NoMemory
    }
}

/// A buffer of so many bytes.
fn buffer_of(alloc: Global, len: usize) -> Result<Vec<u8>, AllocError>
    ensures { IfOk result (λ buffer. length buffer.items ≡ len) }
{
    vec![in alloc; 0u8; len]
}

/// Takes a piece of the source, and adds it to the script. Answers how many bytes it has.
fn add_piece<S: Source>(src: &mut S, piece: &mut [u8], script: &mut Buf) -> Result<usize, ReadError>
    ensures within { IfOk result (λ count. count ≤ length piece.old) }
    ensures added { IfOk result (λ count. AddsPiece count (S.left src.old) (S.left src.new)
        script.old script.new) }
    ensures end { IfOk result (λ count. count ≡ 0 → 0 < length piece.old
        → IfSome (S.left src.old) (λ bytes. bytes ≡ [])) }
    ensures fault { IsErrOf result ReadError.Fault → Rose (S.faults src.old) (S.faults src.new) }
    ensures too_long { IsErrOf result ReadError.TooLong → ⊥ }
    ensures took { TookAtMost (length piece.old) (S.left src.old) (S.left src.new) }
    ensures later { S.faults src.old ≤ S.faults src.new }
{
    match src.take(piece) {
        Ok(count) => {
            script.append(&piece[..count])?;
            Ok(count)
        }
        Err(_) => Err(ReadError::Fault),
    }
}

/// Reads a source to its end by a buffer for one piece.
fn read_by<S: Source>(alloc: Global, src: &mut S, piece: &mut [u8]) -> Result<Buf, ReadError>
    requires { 0 < length piece.old }
    ensures whole { IfOk result (λ script. ReadsWhole (S.left src.old) script (S.left src.new)) }
    ensures within { IfOk result (λ script. length script ≤ SCRIPT_MAX) }
    ensures fault { IsErrOf result ReadError.Fault → Rose (S.faults src.old) (S.faults src.new) }
    ensures too_long { IsErrOf result ReadError.TooLong
        → ReadsTooMuch (S.left src.old) (S.left src.new) }
    ensures took { TookAtMost (SCRIPT_MAX + 1) (S.left src.old) (S.left src.new) }
{
    let mut script = Buf::new(alloc)?;
    let mut room = SCRIPT_MAX + 1;
    while room > 0 {
        let most = room.min(piece.len());
        let count = add_piece(src, &mut piece[..most], &mut script)?;
        if count == 0 {
            return Ok(script);
        }
        room -= count;
    }
    Err(ReadError::TooLong)
}

/// Reads a source to its end, and takes one byte more than the greatest length at the most.
pub(crate) fn read_script_bytes<S: Source>(alloc: Global, src: &mut S) -> Result<Buf, ReadError>
    ensures whole { IfOk result (λ script. ReadsWhole (S.left src.old) script (S.left src.new)) }
    ensures within { IfOk result (λ script. length script ≤ SCRIPT_MAX) }
    ensures fault { IsErrOf result ReadError.Fault → Rose (S.faults src.old) (S.faults src.new) }
    ensures too_long { IsErrOf result ReadError.TooLong
        → ReadsTooMuch (S.left src.old) (S.left src.new) }
    ensures took { TookAtMost (SCRIPT_MAX + 1) (S.left src.old) (S.left src.new) }
{
    let mut piece = buffer_of(alloc, PIECE)?;
    read_by(alloc, src, piece.as_mut_slice())
}
