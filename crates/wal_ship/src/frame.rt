//! Reading the frame that is begun, once enough of it stands there.

ghost use Rattle.std.specs.Prelude.{◌≡◌, ℕ, ◌<◌, ◌≤◌, ◌++◌, List, length, IfOk, IfSome, IfNone};
ghost use Rattle.batch_repr.specs.Spelling.{SpellsBatch};
ghost use Rattle.wal_ship.specs.Following.{IsBegun, IsFull, len_said, next_after};
ghost use Rattle.wal_ship.specs.Taking.{IsAtMostWhole, Judges, Reads};

use crate::fault::FollowFault;
use crate::stream::HEAD;
use batch_repr::{BATCH_MAX, Batch, BatchFault, decode};
use crc_chunk::{crc32c, masked};
use segment_merge::KnownBatches;
use std::alloc::Global;
use wal_base::NoMemory;

/// What the bytes of a frame say.
pub(crate) enum Frame {
    /// More of them are wanted.
    Begun,
    /// The stream ends.
    End,
    /// A batch that is known already, or takes no number.
    Known,
    /// A batch that comes next.
    New { batch: Batch },
    /// They are wrong.
    Wrong { fault: FollowFault },
}

/// How many bytes a frame says that its text has, once so many of its bytes stand there.
fn said_len(frame: &[u8]) -> Option<u32>
    ensures some { IfSome result (λ len. (4 ≤ length frame.now) × (len ≡ len_said frame.now)) }
    ensures none { IfNone result (length frame.now < 4) }
{
    let (head, _) = frame.split_first_chunk::<4>()?;
    Some(u32::from_le_bytes(*head))
}

/// How many more bytes of a frame are wanted before it is looked at: those of its length, and then all others.
pub(crate) fn wanted(frame: &[u8]) -> usize
    requires { IsBegun frame.now }
    ensures some { 0 < result }
    ensures whole { (more : List ℕ) → length more ≤ result → IsAtMostWhole (frame.now ++ more) }
{
    match said_len(frame) {
        None => 4 - frame.len(),
        Some(len) => HEAD + len as usize - frame.len(),
    }
}

/// What a batch is to those before it.
fn judge(at: u64, batch: Batch, local: &KnownBatches, taken: &KnownBatches) -> Frame
    requires { taken.now.next ≡ next_after (local.now.batches ++ taken.now.batches) }
    ensures { Judges (local.now.batches ++ taken.now.batches) at batch result }
{
    if batch.count() == 0 {
        return Frame::Known;
    }
    let expected = taken.next();
    let first = batch.first;
    if first > expected {
        let found = first;
        let fault = FollowFault::Gap {
            at,
            expected,
            found,
        };
        return Frame::Wrong { fault };
    }
    if first == expected {
        return Frame::New { batch };
    }
    if local.has(&batch) || taken.has(&batch) {
        return Frame::Known;
    }
    let fault = FollowFault::Conflict { at, first };
    Frame::Wrong { fault }
}

/// What a whole frame says.
fn read_whole(
    alloc: Global,
    at: u64,
    frame: &[u8],
    local: &KnownBatches,
    taken: &KnownBatches,
) -> Result<Frame, NoMemory>
    requires next { taken.now.next ≡ next_after (local.now.batches ++ taken.now.batches) }
    requires full { IsFull frame.now }
    ensures { IfOk result (Reads (local.now.batches ++ taken.now.batches) at frame.now) }
{
    let text = &frame[HEAD..];
    let sum = masked(crc32c(text)).to_le_bytes();
    if frame[4..HEAD] != sum[..] {
        let fault = FollowFault::Sum { at };
        return Ok(Frame::Wrong { fault });
    }
    if text.is_empty() {
        return Ok(Frame::End);
    }
    match decode(alloc, text) {
        Ok(batch) => Ok(judge(at, batch, local, taken)),
        Err(BatchFault::NoMemory) => Err(NoMemory),
        Err(fault) => {
            let fault = FollowFault::Batch { at, fault };
            Ok(Frame::Wrong { fault })
        }
    }
}

/// What the bytes of a frame say that begins at a place, of which as many stand there as were wanted, or fewer.
pub(crate) fn read_frame(
    alloc: Global,
    at: u64,
    frame: &[u8],
    local: &KnownBatches,
    taken: &KnownBatches,
) -> Result<Frame, NoMemory>
    requires next { taken.now.next ≡ next_after (local.now.batches ++ taken.now.batches) }
    requires whole { IsAtMostWhole frame.now }
    ensures { IfOk result (Reads (local.now.batches ++ taken.now.batches) at frame.now) }
{
    let Some(len) = said_len(frame) else {
        return Ok(Frame::Begun);
    };
    if len as usize > BATCH_MAX {
        let fault = FollowFault::Length { at, len };
        return Ok(Frame::Wrong { fault });
    }
    if frame.len() < HEAD + len as usize {
        return Ok(Frame::Begun);
    }
    read_whole(alloc, at, frame, local, taken)
}
