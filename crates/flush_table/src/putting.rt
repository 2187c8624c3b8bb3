//! The table of a store, and putting it.

ghost use Rattle.std.specs.Prelude.{IfErr, IfOk, OnOk};
ghost use Rattle.disk_face.specs.View.{NothingInFlight};
ghost use Rattle.disk_face.specs.Calls.{GoesOn};
ghost use Rattle.disk_face.specs.Listing.{IsTableNumber};
ghost use Rattle.wal_recovery.specs.Answers.{FaultRose, NoFaultRose};
ghost use Rattle.wal_recovery.specs.Rows.{IsDiskOrMemory};
ghost use Rattle.flush_table.specs.Putting.{FitsTable, IsTextOf, PutsThroughout, HasPut, PutsOnce};
ghost use Rattle.flush_table.specs.Settling.{SettlesByCalls, SettlesThroughout, HasSettled};

use crate::reports::TableSeen;
use batch_repr::Batches;
use disk_face::{DiskErr, Side, TableDisk};
use std::alloc::Global;
use table_text::put_table_text;
use text_lines::live_keys;
use wal_base::{Buf, NoMemory};
use wal_recovery::RecoverFault;

/// The text of the table of what batches leave, and how many keys it has. The batches are let go, with the bytes that
/// were read.
fn text_of(alloc: Global, upto: u64, next: u64, batches: Batches) -> Result<(Buf, u64), NoMemory>
    requires { FitsTable next batches }
    ensures { IfOk result (λ made. IsTextOf upto next batches made.0 made.1) }
{
    let live = live_keys(alloc, batches.as_slice())?;
    let text = put_table_text(alloc, upto, next, &live)?;
    Ok((text, live.len() as u64))
}

/// Puts the table of what batches leave.
fn put_store<D: TableDisk>(
    alloc: Global,
    disk: &mut D,
    upto: u64,
    next: u64,
    batches: Batches,
) -> Result<TableSeen, RecoverFault>
    requires idle { NothingInFlight (D.view disk.old) }
    requires number { IsTableNumber upto }
    requires fits { FitsTable next batches }
    ensures goes_on { GoesOn (D.view disk.old) (D.view disk.new) }
    ensures idle { NothingInFlight (D.view disk.new) }
    ensures fault { IfErr result IsDiskOrMemory }
    ensures rose { IfErr result (FaultRose (D.view disk.old) (D.view disk.new)) }
    ensures calm { OnOk result (NoFaultRose (D.view disk.old) (D.view disk.new)) }
    ensures call { PutsOnce result upto next batches (D.view disk.old) (D.view disk.new) }
    ensures each_moment { PutsThroughout D.tells upto next batches
        (D.view disk.old) (D.view disk.new) }
    ensures put { IfOk result
        (HasPut D.tells upto next batches (D.view disk.old) (D.view disk.new)) }
{
    let (text, keys) = text_of(alloc, upto, next, batches)?;
    match disk.put_table(upto, text.as_slice()) {
        Ok(()) => Ok(TableSeen { upto, keys, next }),
        Err(DiskErr::Failed) => Err(RecoverFault::Disk {
            side: Side::Primary,
        }),
        Err(DiskErr::NoMemory) => Err(RecoverFault::NoMemory),
    }
}

/// Puts the table of what batches leave, unless the one that was seen covers that WAL.
pub(crate) fn settle_table<D: TableDisk>(
    alloc: Global,
    disk: &mut D,
    seen: Option<TableSeen>,
    wal: u64,
    next: u64,
    batches: Batches,
) -> Result<TableSeen, RecoverFault>
    requires idle { NothingInFlight (D.view disk.old) }
    requires number { IsTableNumber wal }
    requires fits { FitsTable next batches }
    ensures goes_on { GoesOn (D.view disk.old) (D.view disk.new) }
    ensures idle { NothingInFlight (D.view disk.new) }
    ensures fault { IfErr result IsDiskOrMemory }
    ensures rose { IfErr result (FaultRose (D.view disk.old) (D.view disk.new)) }
    ensures calm { OnOk result (NoFaultRose (D.view disk.old) (D.view disk.new)) }
    ensures calls { SettlesByCalls result seen wal next batches
        (D.view disk.old) (D.view disk.new) }
    ensures each_moment { SettlesThroughout D.tells seen wal next batches
        (D.view disk.old) (D.view disk.new) }
    ensures settled { IfOk result
        (HasSettled D.tells seen wal next batches (D.view disk.old) (D.view disk.new)) }
{
    match seen {
        Some(used) if wal <= used.upto => Ok(used),
        _ => put_store(alloc, disk, wal, next, batches),
    }
}
