//! Removing what a table covers, one file after another.

ghost use Rattle.std.specs.Prelude.{◌≡◌, ◌<◌, ltb, Contains, IfErr, OnOk};
ghost use Rattle.disk_face.specs.declared.TableListed.{TableListed as Item};
ghost use Rattle.disk_face.specs.View.{segment, table, NothingInFlight};
ghost use Rattle.disk_face.specs.Calls.{GoesOn};
ghost use Rattle.disk_face.specs.Listing.{IsAscending, AreTablesAscending, AreTableNumbers, IsTableNumber};
ghost use Rattle.disk_face.specs.Tables.{IsThere};
ghost use Rattle.wal_recovery.specs.Answers.{FaultRose, NoFaultRose};
ghost use Rattle.wal_recovery.specs.Rows.{IsDiskOrMemory};
ghost use Rattle.wal_recovery.specs.Sides.{AreSideNames};
ghost use Rattle.flush_table.specs.Removing.{segment_places, table_places, AreThere, AreGone};
ghost use Rattle.flush_table.specs.Removing.{ThinsThroughout, RemovesOne, IsNone, RemovesOnce, OnlyRemoves};
ghost use Rattle.flush_table.specs.Removing.{IsAmong, covered_places};

use disk_face::{DiskErr, Listed, SegName, Side, TableDisk, TableListed};
use wal_recovery::{RecoverFault, Sides};

/// Removes a segment.
fn remove_segment<D: TableDisk>(disk: &mut D, side: Side, name: SegName) -> Result<(), RecoverFault>
    requires idle { NothingInFlight (D.view disk.old) }
    requires there { IsThere D.tells (segment side name) (D.view disk.old) }
    ensures goes_on { GoesOn (D.view disk.old) (D.view disk.new) }
    ensures idle { NothingInFlight (D.view disk.new) }
    ensures fault { IfErr result IsDiskOrMemory }
    ensures rose { IfErr result (FaultRose (D.view disk.old) (D.view disk.new)) }
    ensures calm { OnOk result (NoFaultRose (D.view disk.old) (D.view disk.new)) }
    ensures call { RemovesOnce (segment side name) (D.view disk.old) (D.view disk.new) }
    ensures removes { RemovesOne D.tells (segment side name) (D.view disk.old) (D.view disk.new) }
    ensures gone { OnOk result (IsNone D.tells (segment side name) (D.view disk.new)) }
{
    match disk.drop_segment(side, name) {
        Ok(()) => Ok(()),
        Err(DiskErr::Failed) => Err(RecoverFault::Disk { side }),
        Err(DiskErr::NoMemory) => Err(RecoverFault::NoMemory),
    }
}

/// Removes a table.
fn remove_table<D: TableDisk>(disk: &mut D, upto: u64) -> Result<(), RecoverFault>
    requires idle { NothingInFlight (D.view disk.old) }
    requires number { IsTableNumber upto }
    requires there { IsThere D.tells (table upto) (D.view disk.old) }
    ensures goes_on { GoesOn (D.view disk.old) (D.view disk.new) }
    ensures idle { NothingInFlight (D.view disk.new) }
    ensures fault { IfErr result IsDiskOrMemory }
    ensures rose { IfErr result (FaultRose (D.view disk.old) (D.view disk.new)) }
    ensures calm { OnOk result (NoFaultRose (D.view disk.old) (D.view disk.new)) }
    ensures call { RemovesOnce (table upto) (D.view disk.old) (D.view disk.new) }
    ensures removes { RemovesOne D.tells (table upto) (D.view disk.old) (D.view disk.new) }
    ensures gone { OnOk result (IsNone D.tells (table upto) (D.view disk.new)) }
{
    match disk.drop_table(upto) {
        Ok(()) => Ok(()),
        Err(DiskErr::Failed) => Err(RecoverFault::Disk {
            side: Side::Primary,
        }),
        Err(DiskErr::NoMemory) => Err(RecoverFault::NoMemory),
    }
}

/// Removes the listed segments of a side, one after another.
pub(crate) fn remove_segments<D: TableDisk>(
    disk: &mut D,
    side: Side,
    names: &[Listed],
) -> Result<(), RecoverFault>
    requires idle { NothingInFlight (D.view disk.old) }
    requires ascending { IsAscending names.now }
    requires there { AreThere D.tells (segment_places side names.now) (D.view disk.old) }
    ensures goes_on { GoesOn (D.view disk.old) (D.view disk.new) }
    ensures idle { NothingInFlight (D.view disk.new) }
    ensures fault { IfErr result IsDiskOrMemory }
    ensures rose { IfErr result (FaultRose (D.view disk.old) (D.view disk.new)) }
    ensures calm { OnOk result (NoFaultRose (D.view disk.old) (D.view disk.new)) }
    ensures calls { OnlyRemoves (IsAmong (segment_places side names.now))
        (D.view disk.old) (D.view disk.new) }
    ensures each_moment { ThinsThroughout D.tells (segment_places side names.now)
        (D.view disk.old) (D.view disk.new) }
    ensures gone { OnOk result (AreGone D.tells (segment_places side names.now) (D.view disk.new)) }
{
    for item in names {
        remove_segment(disk, side, item.name)?;
    }
    Ok(())
}

/// Removes listed tables, one after another.
pub(crate) fn remove_tables<D: TableDisk>(
    disk: &mut D,
    tables: &[TableListed],
) -> Result<(), RecoverFault>
    requires idle { NothingInFlight (D.view disk.old) }
    requires ascending { AreTablesAscending tables.now }
    requires numbers { AreTableNumbers tables.now }
    requires there { AreThere D.tells (table_places tables.now) (D.view disk.old) }
    ensures goes_on { GoesOn (D.view disk.old) (D.view disk.new) }
    ensures idle { NothingInFlight (D.view disk.new) }
    ensures fault { IfErr result IsDiskOrMemory }
    ensures rose { IfErr result (FaultRose (D.view disk.old) (D.view disk.new)) }
    ensures calm { OnOk result (NoFaultRose (D.view disk.old) (D.view disk.new)) }
    ensures calls { OnlyRemoves (IsAmong (table_places tables.now))
        (D.view disk.old) (D.view disk.new) }
    ensures each_moment { ThinsThroughout D.tells (table_places tables.now)
        (D.view disk.old) (D.view disk.new) }
    ensures gone { OnOk result (AreGone D.tells (table_places tables.now) (D.view disk.new)) }
{
    for item in tables {
        remove_table(disk, item.upto)?;
    }
    Ok(())
}

/// The listed tables below a number.
pub(crate) fn tables_below(tables: &[TableListed], upto: u64) -> &[TableListed]
    requires ascending { AreTablesAscending tables.now }
    requires numbers { AreTableNumbers tables.now }
    ensures ascending { AreTablesAscending result.now }
    ensures numbers { AreTableNumbers result.now }
    ensures within { (item : Item) → Contains result.now item → Contains tables.now item }
    ensures below { (item : Item) → Contains result.now item → item.upto < upto }
    ensures all { (item : Item) → Contains tables.now item → item.upto < upto
        → Contains result.now item }
{
    let place = tables.partition_point(
        |item: &TableListed| -> bool
            ensures { result ≡ ltb item.now.upto upto }
        { item.upto < upto },
    );
    &tables[..place]
}

/// Removes the listed segments of both sides, the primary one's first, and then these tables.
pub(crate) fn remove_covered<D: TableDisk>(
    disk: &mut D,
    sides: &Sides,
    tables: &[TableListed],
) -> Result<(), RecoverFault>
    requires idle { NothingInFlight (D.view disk.old) }
    requires names { AreSideNames sides.now }
    requires ascending { AreTablesAscending tables.now }
    requires numbers { AreTableNumbers tables.now }
    requires there { AreThere D.tells (covered_places sides.now tables.now) (D.view disk.old) }
    ensures goes_on { GoesOn (D.view disk.old) (D.view disk.new) }
    ensures idle { NothingInFlight (D.view disk.new) }
    ensures fault { IfErr result IsDiskOrMemory }
    ensures rose { IfErr result (FaultRose (D.view disk.old) (D.view disk.new)) }
    ensures calm { OnOk result (NoFaultRose (D.view disk.old) (D.view disk.new)) }
    ensures calls { OnlyRemoves (IsAmong (covered_places sides.now tables.now))
        (D.view disk.old) (D.view disk.new) }
    ensures each_moment { ThinsThroughout D.tells (covered_places sides.now tables.now)
        (D.view disk.old) (D.view disk.new) }
    ensures gone { OnOk result
        (AreGone D.tells (covered_places sides.now tables.now) (D.view disk.new)) }
{
    remove_segments(disk, Side::Primary, sides.primary.as_slice())?;
    remove_segments(disk, Side::Secondary, sides.secondary.as_slice())?;
    remove_tables(disk, tables)
}
