//! Syncs of what was read.

ghost use Rattle.std.specs.Prelude.{◌≡◌, [], IfErr, IsSome, IsTrue, OnOk};
ghost use Rattle.disk_face.specs.View.{NothingInFlight};
ghost use Rattle.disk_face.specs.Calls.{GoesOn, SameDisk};
ghost use Rattle.wal_recovery.specs.Answers.{FaultRose, NoFaultRose};
ghost use Rattle.wal_recovery.specs.Rows.{IsDiskOrMemory};
ghost use Rattle.wal_recovery.specs.Resting.{EndsBy};
ghost use Rattle.wal_recovery.specs.Asking.{ReadsOnly};
ghost use Rattle.wal_recovery.specs.Promises.{MaySync, MaySyncEach, HasSyncedOne, HasSyncedEach};
ghost use Rattle.wal_recovery.specs.Promises.{OnlySyncsThroughout};

use crate::fault::RecoverFault;
use crate::listing::Found;
use disk_face::{Disk, DiskOp, OpId, Progress};
use wal_base::NoMemory;

/// Polls an operation until it has ended, and says whether it was done.
fn wait<D: Disk>(disk: &mut D, id: OpId) -> bool
    requires { IsSome ((D.view disk.old).in_flight id) }
    ensures asks { ReadsOnly [] (D.view disk.old) (D.view disk.new) }
    ensures goes_on { GoesOn (D.view disk.old) (D.view disk.new) }
    ensures calm { IsTrue result → NoFaultRose (D.view disk.old) (D.view disk.new) }
    ensures ended { EndsBy D.tells id (D.view disk.old) (D.view disk.new) result }
{
    loop {
        match disk.poll(id) {
            Progress::Pending => {}
            Progress::Done => return true,
            Progress::Failed => return false,
        }
    }
}

/// Syncs one segment.
fn sync<D: Disk>(disk: &mut D, segment: Found) -> Result<(), RecoverFault>
    requires idle { NothingInFlight (D.view disk.old) }
    requires there { MaySync D.tells (D.view disk.old) segment }
    ensures asks { ReadsOnly [] (D.view disk.old) (D.view disk.new) }
    ensures goes_on { GoesOn (D.view disk.old) (D.view disk.new) }
    ensures idle { NothingInFlight (D.view disk.new) }
    ensures fault { IfErr result IsDiskOrMemory }
    ensures rose { IfErr result (FaultRose (D.view disk.old) (D.view disk.new)) }
    ensures calm { OnOk result (NoFaultRose (D.view disk.old) (D.view disk.new)) }
    ensures each_moment { OnlySyncsThroughout D.tells (D.view disk.old) (D.view disk.new) }
    ensures synced { OnOk result (HasSyncedOne D.tells (D.view disk.new) segment) }
{
    let Found { side, name, .. } = segment;
    let id = match disk.start(DiskOp::Sync { side, name }) {
        Ok(id) => id,
        Err(NoMemory) => return Err(RecoverFault::NoMemory),
    };
    if wait(disk, id) {
        Ok(())
    } else {
        Err(RecoverFault::Disk { side })
    }
}

/// Syncs each segment, one after another.
pub(crate) fn sync_all<D: Disk>(disk: &mut D, segments: &[Found]) -> Result<(), RecoverFault>
    requires idle { NothingInFlight (D.view disk.old) }
    requires there { MaySyncEach D.tells (D.view disk.old) segments.now }
    ensures asks { ReadsOnly [] (D.view disk.old) (D.view disk.new) }
    ensures goes_on { GoesOn (D.view disk.old) (D.view disk.new) }
    ensures idle { NothingInFlight (D.view disk.new) }
    ensures fault { IfErr result IsDiskOrMemory }
    ensures rose { IfErr result (FaultRose (D.view disk.old) (D.view disk.new)) }
    ensures calm { OnOk result (NoFaultRose (D.view disk.old) (D.view disk.new)) }
    ensures each_moment { OnlySyncsThroughout D.tells (D.view disk.old) (D.view disk.new) }
    ensures synced { OnOk result (HasSyncedEach D.tells (D.view disk.new) segments.now) }
    ensures none { segments.now ≡ [] → SameDisk (D.view disk.old) (D.view disk.new) }
{
    for segment in segments {
        sync(disk, *segment)?;
    }
    Ok(())
}
