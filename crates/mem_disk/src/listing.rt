//! The listings of one side and of the tables. The files stand in order, so each takes one walk over them.

ghost use Rattle.std.specs.Prelude.{◌≡◌, ◌++◌, IfOk, OnOk, IsErrOf};
ghost use Rattle.disk_face.specs.Listing.{IsAscending, AreSegmentNames, IsListing, AreTablesAscending, AreTableNumbers, IsTableListing};
ghost use Rattle.mem_disk.specs.Mem.{files_held, AreInOrder, listed_one, listed_of, table_one, tables_of, is_named};

use crate::files::read_len;
use crate::order::is_side;
use crate::parts::MemFile;
use disk_face::{
    DiskErr, FilePlace, INDEX_MAX, Listed, Names, SegName, Side, TableListed, TableNames, WAL_MAX,
};
use std::alloc::Global;
use wal_base::NoMemory;

fn is_segment_name(name: SegName) -> bool
    ensures { result ≡ is_named name }
{
    name.wal <= WAL_MAX && name.index <= INDEX_MAX
}

fn list_one(file: &MemFile, side: Side, names: &mut Names) -> Result<(), NoMemory>
    ensures { OnOk result (names.new ≡ names.old ++ listed_one side file.now) }
{
    let FilePlace::Segment {
        side: own_side,
        name,
    } = file.place
    else {
        return Ok(());
    };
    if !file.created || !is_side(own_side, side) || !is_segment_name(name) {
        return Ok(());
    }
    let item = Listed {
        name,
        len: file.done as u64,
    };
    match names.push(item) {
        Ok(()) => Ok(()),
        Err(_) => Err(NoMemory),
    }
}

fn collect(alloc: Global, files: &[MemFile], side: Side) -> Result<Names, NoMemory>
    ensures { IfOk result (λ names. names ≡ listed_of side files.now) }
{
    let mut names = Names::new(alloc);
    for file in files {
        list_one(file, side, &mut names)?;
    }
    Ok(names)
}

/// The created files of one side whose names are in range, each with how many bytes a read gives.
/// It never fails.
pub fn list_files(alloc: Global, files: &[MemFile], side: Side) -> Result<Names, DiskErr>
    requires ordered { AreInOrder files.now }
    ensures ascending { IfOk result IsAscending }
    ensures numbers { IfOk result AreSegmentNames }
    ensures listed { IfOk result (IsListing (files_held files.now) side) }
    ensures no_failure { IsErrOf result DiskErr.Failed → ⊥ }
{
    let names = collect(alloc, files, side)?;
    Ok(names)
}

fn list_table(file: &MemFile, tables: &mut TableNames) -> Result<(), NoMemory>
    ensures { OnOk result (tables.new ≡ tables.old ++ table_one file.now) }
{
    let FilePlace::Table { upto } = file.place else {
        return Ok(());
    };
    if upto > WAL_MAX {
        return Ok(());
    }
    let item = TableListed {
        upto,
        len: read_len(file) as u64,
    };
    match tables.push(item) {
        Ok(()) => Ok(()),
        Err(_) => Err(NoMemory),
    }
}

fn collect_tables(alloc: Global, files: &[MemFile]) -> Result<TableNames, NoMemory>
    ensures { IfOk result (λ tables. tables ≡ tables_of files.now) }
{
    let mut tables = TableNames::new(alloc);
    for file in files {
        list_table(file, &mut tables)?;
    }
    Ok(tables)
}

/// The tables whose numbers are in range, whole or not, each with how many bytes a read gives. It never fails.
pub fn list_tables(alloc: Global, files: &[MemFile]) -> Result<TableNames, DiskErr>
    requires ordered { AreInOrder files.now }
    ensures ascending { IfOk result AreTablesAscending }
    ensures numbers { IfOk result AreTableNumbers }
    ensures listed { IfOk result (IsTableListing (files_held files.now)) }
    ensures no_failure { IsErrOf result DiskErr.Failed → ⊥ }
{
    let tables = collect_tables(alloc, files)?;
    Ok(tables)
}
