//! What comes before the segments are read: the listings, and the table that is used.

ghost use Rattle.std.specs.Prelude.{◌≡◌, IfOk, IfErr, IfSome, OnOk, OnErr};
ghost use Rattle.disk_face.specs.Calls.{GoesOn, SameDisk};
ghost use Rattle.disk_face.specs.Listing.{AreTablesAscending, AreTableNumbers};
ghost use Rattle.wal_recovery.specs.Answers.{FaultRose, NoFaultRose};
ghost use Rattle.wal_recovery.specs.Rows.{IsDiskOrMemory};
ghost use Rattle.wal_recovery.specs.Sides.{AreSideNames, AreSidesOf};
ghost use Rattle.flush_table.specs.Asked.{AsksOfStore};
ghost use Rattle.flush_table.specs.Reading.{ListsTablesOnce, AreTablesOf, IsSomeUsed};
ghost use Rattle.flush_table.specs.Begun.{HasBegun, UsesOf};

use crate::tables::{UsedTable, used_table};
use disk_face::{DiskErr, Side, TableDisk, TableNames};
use std::alloc::Global;
use wal_recovery::{RecoverFault, Sides, list_sides};

/// What was listed, and the table that is used.
#[derive(Drop)]
pub(crate) struct Beginning {
    pub(crate) tables: TableNames,
    pub(crate) sides: Sides,
    pub(crate) used: Option<UsedTable>,
}

/// The listing of the tables.
fn list_tables<D: TableDisk>(disk: &mut D) -> Result<TableNames, RecoverFault>
    ensures goes_on { GoesOn (D.view disk.old) (D.view disk.new) }
    ensures same { SameDisk (D.view disk.old) (D.view disk.new) }
    ensures asks { ListsTablesOnce result (D.view disk.old) (D.view disk.new) }
    ensures fault { IfErr result IsDiskOrMemory }
    ensures rose { IfErr result (FaultRose (D.view disk.old) (D.view disk.new)) }
    ensures calm { OnOk result (NoFaultRose (D.view disk.old) (D.view disk.new)) }
    ensures ascending { IfOk result AreTablesAscending }
    ensures numbers { IfOk result AreTableNumbers }
    ensures tables { IfOk result (AreTablesOf D.tells (D.view disk.old)) }
{
    match disk.tables() {
        Ok(tables) => Ok(tables),
        Err(DiskErr::Failed) => Err(RecoverFault::Disk {
            side: Side::Primary,
        }),
        Err(DiskErr::NoMemory) => Err(RecoverFault::NoMemory),
    }
}

/// Lists the tables and then each side once, and reads tables down to the one that is used.
pub(crate) fn begin<D: TableDisk>(alloc: Global, disk: &mut D) -> Result<Beginning, RecoverFault>
    ensures goes_on { GoesOn (D.view disk.old) (D.view disk.new) }
    ensures same { SameDisk (D.view disk.old) (D.view disk.new) }
    ensures asks { OnErr result (AsksOfStore (D.view disk.old) (D.view disk.new)) }
    ensures begun { IfOk result (HasBegun (D.view disk.old) (D.view disk.new)) }
    ensures fault { IfErr result IsDiskOrMemory }
    ensures rose { IfErr result (FaultRose (D.view disk.old) (D.view disk.new)) }
    ensures calm { OnOk result (NoFaultRose (D.view disk.old) (D.view disk.new)) }
    ensures ascending { IfOk result (λ begun. AreTablesAscending begun.tables) }
    ensures numbers { IfOk result (λ begun. AreTableNumbers begun.tables) }
    ensures names { IfOk result (λ begun. AreSideNames begun.sides) }
    ensures tables { IfOk result (λ begun. AreTablesOf D.tells (D.view disk.old) begun.tables) }
    ensures sides { IfOk result (λ begun. AreSidesOf D.tells (D.view disk.new) begun.sides) }
    ensures used { IfOk result (UsesOf D.tells (D.view disk.old)) }
    ensures some { IfOk result (λ begun. IfSome begun.used IsSomeUsed) }
{
    let tables = list_tables(disk)?;
    let sides = list_sides(disk)?;
    let used = used_table(alloc, disk, tables.as_slice())?;
    Ok(Beginning {
        tables,
        sides,
        used,
    })
}
