//! The store as a whole.

ghost use Rattle.std.specs.Prelude.{◌≡◌, ◌≤◌, IfOk, IfErr, IfSome, OnOk};
ghost use Rattle.batch_repr.specs.declared.limits.TheConstants.{NUMBER_MAX};
ghost use Rattle.disk_face.specs.View.{NothingInFlight};
ghost use Rattle.disk_face.specs.Calls.{GoesOn, SameDisk};
ghost use Rattle.wal_recovery.specs.declared.reports.Mode.TheVariants.{Strict, Lenient};
ghost use Rattle.wal_recovery.specs.Answers.{FaultRose, NoFaultRose};
ghost use Rattle.wal_recovery.specs.Base.{AreWithinLimits};
ghost use Rattle.wal_recovery.specs.Promises.{OnlySyncsThroughout, AddsNoImageThroughout, UntouchedIfRefused};
ghost use Rattle.flush_table.specs.Asked.{AsksOfStore};
ghost use Rattle.flush_table.specs.Reading.{IsSomeUsed, start_with, seen_with};
ghost use Rattle.flush_table.specs.Promises.{IsStoreRead, FindsStore};
ghost use Rattle.flush_table.specs.Promises.{IsReasonToRefuseStore, AnswersStoreRefusal};
ghost use Rattle.flush_table.specs.Promises.{ReportsOnStore, HasNext, HasNextWalOfStore};
ghost use Rattle.flush_table.specs.Promises.{BeginsWithSeen, HasNoGapBehindSeen, EndsAtNext};
ghost use Rattle.flush_table.specs.Promises.{AreStoreNames, AreStoreListings};
ghost use Rattle.flush_table.specs.Promises.{ListsStore, ReadsNoneCovered};
ghost use Rattle.flush_table.specs.Promises.{StabilizesStoreIfStrict, IsQuietIfNoSegment};
ghost use Rattle.flush_table.specs.Flushing.{AnswersAsReadIfStrict};

use crate::beginning::begin;
use crate::reports::{StoreRead, TableSeen};
use crate::tables::{UsedTable, next_after};
use batch_repr::{Batches, NUMBER_FIRST};
use disk_face::TableDisk;
use std::alloc::Global;
use wal_recovery::{Mode, RecoverFault, Start, recover_listed};

/// What is told of the used table.
fn seen_of(used: &Option<UsedTable>) -> Option<TableSeen>
    ensures { result ≡ seen_with used.now }
{
    match used {
        Some(used) => Some(TableSeen {
            upto: used.upto,
            keys: used.read.keys,
            next: used.read.next,
        }),
        None => None,
    }
}

/// Where recovery begins: above the used table and behind its batches, and of all segments where no table is used.
fn start_of(alloc: Global, used: Option<UsedTable>) -> Start
    requires { IfSome used IsSomeUsed }
    ensures { result ≡ start_with used }
{
    match used {
        Some(UsedTable { upto, read }) => Start {
            wal: upto + 1,
            number: read.next,
            base: read.batches,
        },
        None => Start {
            wal: 0,
            number: NUMBER_FIRST,
            base: Batches::new(alloc),
        },
    }
}

/// Reads the store of the directories, and reports on each segment above the used table.
///
/// The tables are listed once, and then each side once, the primary one first. Then tables are read from the
/// greatest number down to the first that is whole: it is used, and its batches are the first of the store. One that
/// is not whole is passed over. The rest is `wal_recovery::recover_listed`, from the WAL above the used table and
/// from its `next` on, behind its batches; where no table is whole, of all segments from the first number of all.
/// So segments at or below the used table are neither read nor reported on, and no refusal comes of them. `Disk` is
/// answered at the call that failed, of the primary side for tables. `NoMemory` may come at any time.
pub fn recover_store<D: TableDisk>(
    alloc: Global,
    disk: &mut D,
    mode: Mode,
) -> Result<StoreRead, RecoverFault>
    requires { NothingInFlight (D.view disk.old) }
    ensures goes_on { GoesOn (D.view disk.old) (D.view disk.new) }
    ensures idle { NothingInFlight (D.view disk.new) }
    ensures disk { IfErr result (FaultRose (D.view disk.old) (D.view disk.new)) }
    ensures calm { OnOk result (NoFaultRose (D.view disk.old) (D.view disk.new)) }

    // The directories, as they read.
    ensures recovered { IfOk result (IsStoreRead D.tells mode (D.view disk.old)) }
    ensures complete { FindsStore D.tells mode (D.view disk.old) result }
    ensures refused { IfErr result (IsReasonToRefuseStore D.tells mode (D.view disk.old)) }
    ensures refusal { AnswersStoreRefusal D.tells mode (D.view disk.old) result }
    ensures reports { IfOk result (ReportsOnStore D.tells (D.view disk.old)) }
    ensures next { IfOk result HasNext }
    ensures next_wal { IfOk result (HasNextWalOfStore D.tells (D.view disk.old)) }
    ensures listings { IfOk result (AreStoreListings D.tells (D.view disk.old)) }

    // The batches, the numbers and the names, also where the disk does not tell its files.
    ensures begins { IfOk result BeginsWithSeen }
    ensures contiguous { mode ≡ Strict → IfOk result HasNoGapBehindSeen }
    ensures numbered { mode ≡ Strict → IfOk result EndsAtNext }
    ensures within { IfOk result (λ found. found.next ≤ NUMBER_MAX) }
    ensures limits { mode ≡ Strict → IfOk result (λ found. AreWithinLimits found.batches) }
    ensures names { IfOk result AreStoreNames }

    // The calls, of any disk: of each file no more bytes are asked for than it was listed with, and none of a file that
    // the used table makes needless.
    ensures asks { AsksOfStore (D.view disk.old) (D.view disk.new) }
    ensures lists { IfOk result (ListsStore (D.view disk.old) (D.view disk.new)) }
    ensures spares { IfOk result (ReadsNoneCovered (D.view disk.old) (D.view disk.new)) }

    // The files: nothing happens to any but a sync, so a crash may leave nothing new; refused directories are not
    // touched; and where no gap is accepted what was read is stable, so that every image answers what was read.
    ensures each_moment { AddsNoImageThroughout D.tells (D.view disk.old) (D.view disk.new) }
    ensures files { OnlySyncsThroughout D.tells (D.view disk.old) (D.view disk.new) }
    ensures stable { IfOk result
        (StabilizesStoreIfStrict D.tells mode (D.view disk.old) (D.view disk.new)) }
    ensures answers { IfOk result
        (AnswersAsReadIfStrict D.tells mode (D.view disk.old) (D.view disk.new)) }
    ensures untouched { IfErr result (UntouchedIfRefused (D.view disk.old) (D.view disk.new)) }
    ensures starts_nothing { mode ≡ Lenient → SameDisk (D.view disk.old) (D.view disk.new) }
    ensures quiet { IfOk result (IsQuietIfNoSegment (D.view disk.old) (D.view disk.new)) }
{
    let begun = begin(alloc, disk)?;
    let seen = seen_of(&begun.used);
    let start = start_of(alloc, begun.used);
    let found = recover_listed(alloc, disk, mode, &begun.sides, start)?;
    let next_wal = found.next_wal.max(next_after(begun.tables.as_slice()));
    Ok(StoreRead {
        batches: found.batches,
        table: seen,
        next: found.next,
        next_wal,
        segments: found.segments,
        tables: begun.tables,
        primary: begun.sides.primary,
        secondary: begun.sides.secondary,
    })
}
