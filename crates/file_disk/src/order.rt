//! Segments and tables in ascending order.

ghost use Rattle.std.specs.Prelude.{◌≡◌, ◌↔◌, IsTrue, IfOk, OnOk, map};
ghost use Rattle.std.specs.List.Sorted.{IsPermutation};
ghost use Rattle.std.specs.Ordering.{nat_cmp};
ghost use Rattle.std.specs.BTreeMap.{IsOrdered};
ghost use Rattle.disk_face.specs.Listing.{IsBefore, IsAscending, AreSegmentNames, AreTablesAscending, AreTableNumbers};
ghost use Rattle.file_disk.specs.Found.{NeverDescends, IsAfterLast, AddsIfLater, AreAmong, HasEachName};
ghost use Rattle.file_disk.specs.Found.{AreTablesFound, found_as};

use disk_face::{Listed, Names, SegName, TableListed, TableNames};
use std::alloc::Global;
use std::collections::BTreeMap;
use wal_base::NoMemory;

fn is_before(a: SegName, b: SegName) -> bool
    ensures { IsTrue result ↔ IsBefore a b }
{
    a < b
}

/// Whether a name stands after the last one of a list.
fn is_after_last(list: &[Listed], name: SegName) -> bool
    ensures { IsTrue result ↔ IsAfterLast list.now name }
{
    match list.last() {
        Some(last) => is_before(last.name, name),
        None => true,
    }
}

fn sort(found: &mut Vec<Listed>)
    ensures moved { IsPermutation found.old.items found.new.items }
    ensures sorted { NeverDescends found.new.items }
{
    found.sort_unstable_by_key(|item| item.name);
}

/// Adds a segment, where its name stands after the last one of the list.
fn add_if_later(names: &mut Names, item: Listed) -> Result<(), NoMemory>
    ensures { OnOk result (AddsIfLater names.old item names.new) }
{
    if is_after_last(names.as_slice(), item.name) && names.push(item).is_err() {
        return Err(NoMemory);
    }
    Ok(())
}

/// The segments of a list in order, each name once.
fn each_once(alloc: Global, sorted: &[Listed]) -> Result<Names, NoMemory>
    requires { NeverDescends sorted.now }
    ensures ascending { IfOk result IsAscending }
    ensures found { IfOk result (AreAmong sorted.now) }
    ensures all { IfOk result (HasEachName sorted.now) }
{
    let mut names = Names::with_capacity(alloc, sorted.len())?;
    for item in sorted {
        add_if_later(&mut names, *item)?;
    }
    Ok(names)
}

/// The segments that were found, in ascending order. One of each name: a directory that changes while it is listed
/// may tell a name twice.
pub fn names_of(alloc: Global, mut found: Vec<Listed>) -> Result<Names, NoMemory>
    requires { AreSegmentNames found.items }
    ensures ascending { IfOk result IsAscending }
    ensures numbers { IfOk result AreSegmentNames }
    ensures found { IfOk result (AreAmong found.items) }
    ensures all { IfOk result (HasEachName found.items) }
{
    sort(&mut found);
    each_once(alloc, found.as_slice())
}

/// The tables that were found, by number, in ascending order.
pub fn tables_of(alloc: Global, found: &BTreeMap<u64, u64>) -> Result<TableNames, NoMemory>
    requires { AreTablesFound found.now }
    ensures ascending { IfOk result AreTablesAscending }
    ensures numbers { IfOk result AreTableNumbers }
    ensures found { IfOk result (λ tables. tables ≡ map found_as found.now.entries) }
{
    gather(alloc, found)
}

/// The entries of a map as tables, in its order.
fn gather(alloc: Global, found: &BTreeMap<u64, u64>) -> Result<TableNames, NoMemory>
    ensures found { IfOk result (λ tables. tables ≡ map found_as found.now.entries) }
    ensures ordered { IsOrdered nat_cmp found.now }
{
    let mut tables = TableNames::with_capacity(alloc, found.len())?;
    for (upto, len) in found {
        let table = TableListed {
            upto: *upto,
            len: *len,
        };
        tables.push(table).map_err(|_| NoMemory)?;
    }
    Ok(tables)
}
