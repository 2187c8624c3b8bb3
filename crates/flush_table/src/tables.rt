//! The table that a store begins with: the one of the greatest number that is whole.

ghost use Rattle.std.specs.Prelude.{◌≡◌, ◌≤◌, ◌∷◌, [], length, IfOk, IfErr, IfSome, OnOk, IsErrOf};
ghost use Rattle.disk_face.specs.Calls.{GoesOn, SameDisk};
ghost use Rattle.disk_face.specs.Listing.{IsTableNumber, AreTablesAscending, AreTableNumbers};
ghost use Rattle.wal_recovery.specs.Answers.{FaultRose, NoFaultRose};
ghost use Rattle.wal_recovery.specs.Rows.{IsDiskOrMemory};
ghost use Rattle.flush_table.specs.Asked.{ReadsTables, ReadsTablesFrom};
ghost use Rattle.flush_table.specs.Reading.{ReadsTableIfWithin, PrimaryRose, AreTableBytes, FillsByTable};
ghost use Rattle.flush_table.specs.Reading.{TellsListed, TellsOfSome, IsUsedOf, IsSomeUsed, IsAfterTables};
ghost use Rattle.flush_table.specs.Reading.{least_read_of};

use disk_face::{DiskErr, Side, TableDisk, TableListed};
use std::alloc::{AllocError, Global};
use table_text::{TableRead, read_table};
use wal_recovery::RecoverFault;

/// A whole table, with its number.
#[derive(Drop)]
pub(crate) struct UsedTable {
    pub(crate) upto: u64,
    pub(crate) read: TableRead,
}

/// A buffer of so many bytes.
fn buffer_of(alloc: Global, len: usize) -> Result<Vec<u8>, AllocError>
    ensures { IfOk result (λ buffer. length buffer.items ≡ len) }
{
    vec![in alloc; 0u8; len]
}

/// Reads a table into the buffer by one call, and answers how many bytes it read. An empty one is not read.
fn fill<D: TableDisk>(
    disk: &mut D,
    listed: TableListed,
    buffer: &mut [u8],
) -> Result<usize, DiskErr>
    requires { IsTableNumber listed.upto }
    ensures goes_on { GoesOn (D.view disk.old) (D.view disk.new) }
    ensures asks { ReadsTableIfWithin (length buffer.old) listed
        (D.view disk.old) (D.view disk.new) }
    ensures same { SameDisk (D.view disk.old) (D.view disk.new) }
    ensures failed { IsErrOf result DiskErr.Failed
        → PrimaryRose (D.view disk.old) (D.view disk.new) }
    ensures calm { OnOk result (NoFaultRose (D.view disk.old) (D.view disk.new)) }
    ensures bytes { IfOk result
        (FillsByTable D.tells (D.view disk.old) listed.upto buffer.old buffer.new) }
{
    if buffer.is_empty() {
        return Ok(0);
    }
    disk.read_table(listed.upto, 0, buffer)
}

/// Reads a table: as many bytes as were listed, in one piece of memory.
fn read_bytes<D: TableDisk>(
    alloc: Global,
    disk: &mut D,
    listed: TableListed,
) -> Result<Vec<u8>, RecoverFault>
    requires { IsTableNumber listed.upto }
    ensures goes_on { GoesOn (D.view disk.old) (D.view disk.new) }
    ensures asks { ReadsTables (listed ∷ []) (D.view disk.old) (D.view disk.new) }
    ensures same { SameDisk (D.view disk.old) (D.view disk.new) }
    ensures fault { IfErr result IsDiskOrMemory }
    ensures rose { IfErr result (FaultRose (D.view disk.old) (D.view disk.new)) }
    ensures calm { OnOk result (NoFaultRose (D.view disk.old) (D.view disk.new)) }
    ensures bytes { IfOk result
        (λ bytes. AreTableBytes D.tells (D.view disk.old) listed.upto listed.len bytes.items) }
{
    let Ok(len) = usize::try_from(listed.len) else {
        return Err(RecoverFault::NoMemory);
    };
    let Ok(mut buffer) = buffer_of(alloc, len) else {
        return Err(RecoverFault::NoMemory);
    };
    match fill(disk, listed, buffer.as_mut_slice()) {
        Ok(count) => {
            buffer.truncate(count);
            Ok(buffer)
        }
        Err(DiskErr::Failed) => Err(RecoverFault::Disk {
            side: Side::Primary,
        }),
        Err(DiskErr::NoMemory) => Err(RecoverFault::NoMemory),
    }
}

/// What a listed table holds; `None` where it is not whole.
fn read_whole<D: TableDisk>(
    alloc: Global,
    disk: &mut D,
    listed: TableListed,
) -> Result<Option<TableRead>, RecoverFault>
    requires { IsTableNumber listed.upto }
    ensures goes_on { GoesOn (D.view disk.old) (D.view disk.new) }
    ensures asks { ReadsTables (listed ∷ []) (D.view disk.old) (D.view disk.new) }
    ensures same { SameDisk (D.view disk.old) (D.view disk.new) }
    ensures fault { IfErr result IsDiskOrMemory }
    ensures rose { IfErr result (FaultRose (D.view disk.old) (D.view disk.new)) }
    ensures calm { OnOk result (NoFaultRose (D.view disk.old) (D.view disk.new)) }
    ensures told { IfOk result (TellsListed D.tells (D.view disk.old) listed) }
    ensures some { IfOk result (λ found. IfSome found TellsOfSome) }
{
    let bytes = read_bytes(alloc, disk, listed)?;
    let found = read_table(alloc, listed.upto, bytes)?;
    Ok(found)
}

/// The first whole table from the greatest number down; `None` where none is whole.
pub(crate) fn used_table<D: TableDisk>(
    alloc: Global,
    disk: &mut D,
    tables: &[TableListed],
) -> Result<Option<UsedTable>, RecoverFault>
    requires ascending { AreTablesAscending tables.now }
    requires numbers { AreTableNumbers tables.now }
    ensures goes_on { GoesOn (D.view disk.old) (D.view disk.new) }
    ensures asks { ReadsTablesFrom (least_read_of result) tables.now
        (D.view disk.old) (D.view disk.new) }
    ensures same { SameDisk (D.view disk.old) (D.view disk.new) }
    ensures fault { IfErr result IsDiskOrMemory }
    ensures rose { IfErr result (FaultRose (D.view disk.old) (D.view disk.new)) }
    ensures calm { OnOk result (NoFaultRose (D.view disk.old) (D.view disk.new)) }
    ensures used { IfOk result (IsUsedOf D.tells (D.view disk.old) tables.now) }
    ensures some { IfOk result (λ found. IfSome found IsSomeUsed) }
{
    let mut at = tables.len();
    while at > 0 {
        at -= 1;
        let listed = tables[at];
        if let Some(read) = read_whole(alloc, disk, listed)? {
            return Ok(Some(UsedTable {
                upto: listed.upto,
                read,
            }));
        }
    }
    Ok(None)
}

/// The number after that of the greatest table.
pub(crate) fn next_after(tables: &[TableListed]) -> u64
    requires ascending { AreTablesAscending tables.now }
    requires numbers { AreTableNumbers tables.now }
    ensures { IsAfterTables tables.now result }
{
    match tables.last() {
        Some(last) => last.upto + 1,
        None => 1,
    }
}
