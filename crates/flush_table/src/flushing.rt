//! The store written into one table, and what that covers removed.

ghost use Rattle.std.specs.Prelude.{◌≡◌, ◌++◌, IfErr, IfOk, Ok, None};
ghost use Rattle.disk_face.specs.View.{NothingInFlight};
ghost use Rattle.disk_face.specs.Calls.{GoesOn, SameDisk};
ghost use Rattle.disk_face.specs.Listing.{IsAscending, IsTableNumber};
ghost use Rattle.wal_recovery.specs.declared.reports.Mode.TheVariants.{Strict};
ghost use Rattle.wal_recovery.specs.Answers.{FaultRose};
ghost use Rattle.wal_recovery.specs.Rows.{IsDiskOrMemory};
ghost use Rattle.wal_recovery.specs.Promises.{UntouchedIfRefused};
ghost use Rattle.flush_table.specs.Promises.{IsReasonToRefuseStore, AnswersStoreRefusal};
ghost use Rattle.flush_table.specs.Promises.{AreStoreNames, sides_of};
ghost use Rattle.flush_table.specs.Putting.{FitsTable};
ghost use Rattle.flush_table.specs.Removing.{AreThere, covered_places};
ghost use Rattle.flush_table.specs.Settling.{AreUpTo, IsLastWalOf};
ghost use Rattle.flush_table.specs.Settling.{HasFlushed, FlushesThroughout, FlushesByCalls};
ghost use Rattle.flush_table.specs.Flushing.{KeepsAnswers, TellsFlush, FlushesInTurn};

use crate::putting::settle_table;
use crate::recovering::recover_store;
use crate::removing::{remove_covered, tables_below};
use crate::reports::StoreRead;
use disk_face::{Listed, TableDisk};
use std::alloc::Global;
use wal_recovery::{Mode, RecoverFault, Sides};

/// What a flush came to.
#[derive(Clone, Copy, Debug, PartialEq, Eq)]
pub struct Flushed {
    /// How many keys the table has that is used now.
    pub keys: u64,
    /// The number that comes next after its batches.
    pub next: u64,
    /// Its number: the greatest WAL that it covers.
    pub upto: u64,
    /// How many segments were removed.
    pub dropped: u64,
}

/// The greatest WAL of the listed segments of a side.
fn last_on(names: &[Listed]) -> Option<u64>
    requires { IsAscending names.now }
    ensures { IsLastWalOf names.now result }
{
    let last = names.last()?;
    Some(last.name.wal)
}

/// The greatest WAL of the listed segments of both sides.
fn last_wal(primary: &[Listed], secondary: &[Listed]) -> Option<u64>
    requires ones { IsAscending primary.now }
    requires others { IsAscending secondary.now }
    ensures { IsLastWalOf (primary.now ++ secondary.now) result }
{
    match (last_on(primary), last_on(secondary)) {
        (Some(one), Some(other)) => Some(one.max(other)),
        (one, None) => one,
        (None, other) => other,
    }
}

/// Settles the table that covers a store that was read, and removes what that table covers.
fn flush_read<D: TableDisk>(
    alloc: Global,
    disk: &mut D,
    found: StoreRead,
    wal: u64,
) -> Result<Flushed, RecoverFault>
    requires idle { NothingInFlight (D.view disk.old) }
    requires names { AreStoreNames found }
    requires number { IsTableNumber wal }
    requires greatest { AreUpTo wal (found.primary ++ found.secondary) }
    requires fits { FitsTable found.next found.batches }
    requires there { AreThere D.tells (covered_places (sides_of found) found.tables)
        (D.view disk.old) }
    ensures goes_on { GoesOn (D.view disk.old) (D.view disk.new) }
    ensures idle { NothingInFlight (D.view disk.new) }
    ensures fault { IfErr result IsDiskOrMemory }
    ensures rose { IfErr result (FaultRose (D.view disk.old) (D.view disk.new)) }
    ensures calls { FlushesByCalls found wal (D.view disk.old) (D.view disk.new) }
    ensures each_moment { FlushesThroughout D.tells found wal
        (D.view disk.old) (D.view disk.new) }
    ensures flushed { IfOk result
        (HasFlushed D.tells found wal (D.view disk.old) (D.view disk.new)) }
{
    let StoreRead {
        batches,
        table,
        next,
        segments,
        tables,
        primary,
        secondary,
        ..
    } = found;
    // The reports have lists of their own, which nothing here reads.
    drop(segments);
    let used = settle_table(alloc, disk, table, wal, next, batches)?;
    let sides = Sides { primary, secondary };
    remove_covered(disk, &sides, tables_below(tables.as_slice(), used.upto))?;
    Ok(Flushed {
        keys: used.keys,
        next: used.next,
        upto: used.upto,
        dropped: (sides.primary.len() + sides.secondary.len()) as u64,
    })
}

/// Writes the store of the directories into one table, and removes what that covers.
///
/// `None` is answered exactly where no segment is listed, and then nothing changes. Otherwise the store is read
/// strictly ([`recover_store`]). Where the greatest listed WAL is above the used table, a table of that number is put.
/// Then every segment is removed, those of the primary side first, and every table below that one. Whatever a crash
/// leaves at any moment of it answers every key as before, and has the same number next. `Disk` is answered at the call
/// that failed, of the primary side for tables; the rest is left as it stands, and a later flush goes on. `NoMemory` may
/// come at any time.
pub fn flush<D: TableDisk>(alloc: Global, disk: &mut D) -> Result<Option<Flushed>, RecoverFault>
    requires { NothingInFlight (D.view disk.old) }
    ensures goes_on { GoesOn (D.view disk.old) (D.view disk.new) }
    ensures idle { NothingInFlight (D.view disk.new) }
    ensures disk { IfErr result (FaultRose (D.view disk.old) (D.view disk.new)) }
    ensures refused { IfErr result (IsReasonToRefuseStore D.tells Strict (D.view disk.old)) }
    ensures refusal { AnswersStoreRefusal D.tells Strict (D.view disk.old) result }
    ensures untouched { IfErr result (UntouchedIfRefused (D.view disk.old) (D.view disk.new)) }
    ensures nothing { result ≡ Ok None → SameDisk (D.view disk.old) (D.view disk.new) }
    ensures flushed { IfOk result (TellsFlush D.tells (D.view disk.old) (D.view disk.new)) }
    ensures calls { FlushesInTurn (D.view disk.old) (D.view disk.new) }
    ensures each_moment { KeepsAnswers D.tells (D.view disk.old) (D.view disk.new) }
{
    let found = recover_store(alloc, disk, Mode::Strict)?;
    let Some(wal) = last_wal(found.primary.as_slice(), found.secondary.as_slice()) else {
        return Ok(None);
    };
    let flushed = flush_read(alloc, disk, found, wal)?;
    Ok(Some(flushed))
}
