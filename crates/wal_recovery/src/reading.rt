//! The bytes of one segment.

ghost use Rattle.std.specs.Prelude.{◌≡◌, [], ◌∷◌, length, IfOk, IfErr, OnOk, IsErrOf};
ghost use Rattle.disk_face.specs.Calls.{GoesOn, SameDisk};
ghost use Rattle.wal_recovery.specs.Answers.{FaultRose, NoFaultRose};
ghost use Rattle.wal_recovery.specs.Rows.{IsDiskOrMemory};
ghost use Rattle.wal_recovery.specs.Asking.{ReadsOnly};
ghost use Rattle.wal_recovery.specs.Promises.{ReadsIfWithin, SideRose, AreBytesOf, FillsBuffer};

use crate::fault::RecoverFault;
use crate::listing::Found;
use disk_face::{Disk, DiskErr};
use std::alloc::{AllocError, Global};

/// A buffer of so many bytes.
fn buffer_of(alloc: Global, len: usize) -> Result<Vec<u8>, AllocError>
    ensures { IfOk result (λ buffer. length buffer.items ≡ len) }
{
    vec![in alloc; 0u8; len]
}

/// Reads a segment into the buffer by one call, and answers how many bytes it read. An empty one is not read.
fn fill<D: Disk>(disk: &mut D, segment: Found, buffer: &mut [u8]) -> Result<usize, DiskErr>
    ensures goes_on { GoesOn (D.view disk.old) (D.view disk.new) }
    ensures asks { ReadsIfWithin (length buffer.old) segment (D.view disk.old) (D.view disk.new) }
    ensures same { SameDisk (D.view disk.old) (D.view disk.new) }
    ensures failed { IsErrOf result DiskErr.Failed → SideRose segment.side (D.view disk.old)
        (D.view disk.new) }
    ensures calm { OnOk result (NoFaultRose (D.view disk.old) (D.view disk.new)) }
    ensures bytes { IfOk result (FillsBuffer D.tells (D.view disk.old) segment buffer.old
        buffer.new) }
{
    if buffer.is_empty() {
        return Ok(0);
    }
    disk.read(segment.side, segment.name, 0, buffer)
}

/// Reads a segment: as many bytes as were listed, in one piece of memory.
pub(crate) fn read_bytes<D: Disk>(
    alloc: Global,
    disk: &mut D,
    segment: Found,
) -> Result<Vec<u8>, RecoverFault>
    ensures goes_on { GoesOn (D.view disk.old) (D.view disk.new) }
    ensures asks { ReadsOnly (segment ∷ []) (D.view disk.old) (D.view disk.new) }
    ensures same { SameDisk (D.view disk.old) (D.view disk.new) }
    ensures fault { IfErr result IsDiskOrMemory }
    ensures rose { IfErr result (FaultRose (D.view disk.old) (D.view disk.new)) }
    ensures calm { OnOk result (NoFaultRose (D.view disk.old) (D.view disk.new)) }
    ensures bytes { IfOk result (λ bytes. AreBytesOf D.tells (D.view disk.old) segment segment.len
        bytes.items) }
{
    let Ok(len) = usize::try_from(segment.len) else {
        return Err(RecoverFault::NoMemory);
    };
    let Ok(mut buffer) = buffer_of(alloc, len) else {
        return Err(RecoverFault::NoMemory);
    };
    match fill(disk, segment, buffer.as_mut_slice()) {
        Ok(count) => {
            buffer.truncate(count);
            Ok(buffer)
        }
        Err(DiskErr::Failed) => Err(RecoverFault::Disk { side: segment.side }),
        Err(DiskErr::NoMemory) => Err(RecoverFault::NoMemory),
    }
}
