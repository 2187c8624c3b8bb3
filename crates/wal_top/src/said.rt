//! What a run has to say, and what it says where the directories do not recover.

ghost use Rattle.std.specs.Prelude.{◌≡◌, IfOk};
ghost use Rattle.wal_top.specs.Recovery.{disk_fault_text};
ghost use Rattle.wal_top.specs.Faults.{SaysFault};

use crate::status::Status;
use batch_repr::BatchFault;
use disk_face::{SegName, Side};
use std::alloc::Global;
use text_lines::{put_bad_batch, put_conflict, put_corrupt, put_duplicate, put_gap};
use wal_base::{Buf, NoMemory};
use wal_recovery::RecoverFault;

/// What a run has to say: the whole text, and the status that goes with it.
#[derive(Drop)]
pub(crate) struct Said {
    pub(crate) status: Status,
    pub(crate) text: Buf,
}

/// What a run has to say, if memory allows, and the disk as it stands then.
#[derive(Drop)]
pub(crate) struct Answered<D> {
    pub(crate) said: Result<Said, NoMemory>,
    pub(crate) disk: D,
}

/// What is said by this text alone.
pub(crate) fn saying(alloc: Global, status: Status, text: &str) -> Result<Said, NoMemory>
    ensures { IfOk result (λ said. (said.status ≡ status) × (said.text ≡ text.now)) }
{
    let mut buf = Buf::new(alloc)?;
    buf.append(text.as_bytes())?;
    Ok(Said { status, text: buf })
}

/// The text where a side failed in recovery.
fn fault_text(side: Side) -> &'static str
    ensures { result.now ≡ disk_fault_text side }
{
    match side {
        Side::Primary => "disk fault primary\n",
        Side::Secondary => "disk fault secondary\n",
    }
}

/// What a run has to say where recovery failed, or the directories are refused.
pub(crate) fn unrecovered(alloc: Global, fault: RecoverFault) -> Result<Said, NoMemory>
    ensures { IfOk result (λ said. SaysFault fault said.status said.text) }
{
    let mut text = Buf::new(alloc)?;
    match fault {
        RecoverFault::Disk { side } => return saying(alloc, Status::Disk, fault_text(side)),
        RecoverFault::DuplicateSegment { wal, index } => {
            put_duplicate(&mut text, SegName { wal, index })?;
        }
        RecoverFault::BadBatch {
            fault: BatchFault::NoMemory,
            ..
        }
        | RecoverFault::NoMemory => return Err(NoMemory),
        RecoverFault::BadBatch {
            wal,
            index,
            place,
            fault,
        } => put_bad_batch(&mut text, SegName { wal, index }, place, fault)?,
        RecoverFault::Gap {
            wal,
            index,
            expected,
            found,
        } => put_gap(&mut text, SegName { wal, index }, expected, found)?,
        RecoverFault::Conflict { wal, index, first } => {
            put_conflict(&mut text, SegName { wal, index }, first)?;
        }
        RecoverFault::Corrupt {
            wal,
            index,
            at,
            shown_at,
        } => put_corrupt(&mut text, SegName { wal, index }, at, shown_at)?,
    }
    Ok(Said {
        status: Status::Refused,
        text,
    })
}
