//! The segments of both sides in one row, by their names.

ghost use Rattle.std.specs.Prelude.{◌≡◌, ◌≤◌, ltb, [], ◌∷◌, All, Contains, MatchBool, IfOk, IfErr, OnOk};
ghost use Rattle.disk_face.specs.declared.Listed.{Listed as Item};
ghost use Rattle.disk_face.specs.declared.SegName.{SegName};
ghost use Rattle.disk_face.specs.View.{Files};
ghost use Rattle.disk_face.specs.Image.{dirs_as_read};
ghost use Rattle.disk_face.specs.Asked.{length_among};
ghost use Rattle.disk_face.specs.Listing.{IsBefore, IsAscending, AreSegmentNames, IsSegmentName};
ghost use Rattle.disk_face.specs.Calls.{GoesOn, SameDisk};
ghost use Rattle.wal_recovery.specs.declared.listing.Found.{Found};
ghost use Rattle.wal_recovery.specs.Listing.{IsNextWal, from_wal};
ghost use Rattle.wal_recovery.specs.Answers.{FaultRose, NoFaultRose, DiskMemoryOr};
ghost use Rattle.wal_recovery.specs.Rows.{Ascends, IsRowOf, IsNext, Weaves, MeetsOrMemory, IsDiskOrMemory};
ghost use Rattle.wal_recovery.specs.Rows.{files_from, RefusesTwice};
ghost use Rattle.wal_recovery.specs.Gathered.{IsNoDisk};
ghost use Rattle.wal_recovery.specs.Asking.{AsksOnce, OnlyLists};
ghost use Rattle.wal_recovery.specs.Sides.{AreSideNames, AreListings, AreSidesOf, ListsBoth, IsAfter};
ghost use Rattle.wal_recovery.specs.Sides.{IsAsLongAsListed, HasNoByteBelow, IsBareIf};
ghost use Rattle.wal_recovery.specs.Promises.{ListsSideOnce, IsSideListing};

use crate::fault::RecoverFault;
use disk_face::{Disk, DiskErr, Listed, Names, SegName, Side};
use std::alloc::Global;
use wal_base::ListOf;

/// The segments of both sides, as the disk lists them.
#[derive(Debug, Drop)]
pub struct Sides {
    /// Those of the primary side.
    pub primary: Names,
    /// Those of the secondary one.
    pub secondary: Names,
}

/// A segment that is listed on a side.
#[derive(Clone, Copy)]
pub(crate) struct Found {
    pub(crate) side: Side,
    pub(crate) name: SegName,
    pub(crate) len: u64,
}

/// Segments of both sides.
pub(crate) type Row = ListOf<Found>;

/// What comes next of two listings.
#[derive(Clone, Copy)]
enum Next<'a> {
    Nothing,
    /// Both begin with a segment of this name.
    Twice(SegName),
    /// A segment of one of them, and what is left of both.
    Segment(Found, &'a [Listed], &'a [Listed]),
}

fn on_side(side: Side, item: &Listed) -> Found
    ensures { result ≡ record { side = side; name = item.now.name; len = item.now.len } }
{
    Found {
        side,
        name: item.name,
        len: item.len,
    }
}

fn stands_before(a: SegName, b: SegName) -> bool
    ensures { MatchBool result (IsBefore a b) (IsBefore a b → ⊥) }
{
    a.wal < b.wal || (a.wal == b.wal && a.index < b.index)
}

/// The first segment of lesser name, or the name that both first ones have.
fn next_of<'a>(primary: &'a [Listed], secondary: &'a [Listed]) -> Next<'a>
    ensures { IsNext result primary.now secondary.now }
{
    let Some((one, ones)) = primary.split_first() else {
        return match secondary.split_first() {
            Some((other, others)) => {
                Next::Segment(on_side(Side::Secondary, other), primary, others)
            }
            None => Next::Nothing,
        };
    };
    let Some((other, others)) = secondary.split_first() else {
        return Next::Segment(on_side(Side::Primary, one), ones, secondary);
    };
    if stands_before(one.name, other.name) {
        return Next::Segment(on_side(Side::Primary, one), ones, secondary);
    }
    if stands_before(other.name, one.name) {
        return Next::Segment(on_side(Side::Secondary, other), primary, others);
    }
    Next::Twice(one.name)
}

/// Two ascending listings in one row, by the names.
fn in_order(alloc: Global, primary: &[Listed], secondary: &[Listed]) -> Result<Row, RecoverFault>
    ensures woven { IfOk result (λ row. Weaves row primary.now secondary.now [] []) }
    ensures refused { IfErr result (MeetsOrMemory primary.now secondary.now) }
{
    let mut row = Row::new(alloc);
    let mut ones = primary;
    let mut others = secondary;
    loop {
        match next_of(ones, others) {
            Next::Nothing => return Ok(row),
            Next::Twice(name) => {
                return Err(RecoverFault::DuplicateSegment {
                    wal: name.wal,
                    index: name.index,
                });
            }
            Next::Segment(found, ones_left, others_left) => {
                if row.push(found).is_err() {
                    return Err(RecoverFault::NoMemory);
                }
                ones = ones_left;
                others = others_left;
            }
        }
    }
}

/// The listing of one side.
fn names_on<D: Disk>(disk: &mut D, side: Side) -> Result<Names, RecoverFault>
    ensures goes_on { GoesOn (D.view disk.old) (D.view disk.new) }
    ensures same { SameDisk (D.view disk.old) (D.view disk.new) }
    ensures asks { ListsSideOnce side result (D.view disk.old) (D.view disk.new) }
    ensures fault { IfErr result IsDiskOrMemory }
    ensures rose { IfErr result (FaultRose (D.view disk.old) (D.view disk.new)) }
    ensures calm { OnOk result (NoFaultRose (D.view disk.old) (D.view disk.new)) }
    ensures ascending { IfOk result IsAscending }
    ensures numbers { IfOk result AreSegmentNames }
    ensures names { IfOk result (IsSideListing D.tells (D.view disk.old) side) }
{
    match disk.list(side) {
        Ok(names) => Ok(names),
        Err(DiskErr::Failed) => Err(RecoverFault::Disk { side }),
        Err(DiskErr::NoMemory) => Err(RecoverFault::NoMemory),
    }
}

/// Lists each side once, the primary one first.
///
/// `Disk` comes where the disk failed, and `NoMemory` may come at any time.
pub fn list_sides<D: Disk>(disk: &mut D) -> Result<Sides, RecoverFault>
    ensures goes_on { GoesOn (D.view disk.old) (D.view disk.new) }
    ensures same { SameDisk (D.view disk.old) (D.view disk.new) }
    ensures asks { AsksOnce (D.view disk.old) (D.view disk.new) }
    ensures only { OnlyLists (D.view disk.old) (D.view disk.new) }
    ensures lists { IfOk result (λ sides. ListsBoth sides (D.view disk.old) (D.view disk.new)) }
    ensures fault { IfErr result IsDiskOrMemory }
    ensures rose { IfErr result (FaultRose (D.view disk.old) (D.view disk.new)) }
    ensures calm { OnOk result (NoFaultRose (D.view disk.old) (D.view disk.new)) }
    ensures names { IfOk result AreSideNames }
    ensures sides { IfOk result (AreSidesOf D.tells (D.view disk.new)) }
{
    let primary = names_on(disk, Side::Primary)?;
    let secondary = names_on(disk, Side::Secondary)?;
    Ok(Sides { primary, secondary })
}

/// The segments of a listing whose WAL is not below a number.
fn names_from(names: &[Listed], least: u64) -> &[Listed]
    requires { IsAscending names.now }
    ensures ascending { IsAscending result.now }
    ensures within { (item : Item) → Contains result.now item → Contains names.now item }
    ensures from { (item : Item) → Contains result.now item → least ≤ item.name.wal }
    ensures all { (item : Item) → Contains names.now item → least ≤ item.name.wal
        → Contains result.now item }
    ensures shorter { (name : SegName)
        → length_among name result.now ≤ length_among name names.now }
{
    let place = names.partition_point(
        |item: &Listed| -> bool
            ensures { result ≡ ltb item.now.name.wal least }
        { item.name.wal < least },
    );
    &names[place..]
}

/// The segments of both sides whose WAL is not below a number, by their names.
pub(crate) fn row_from(alloc: Global, sides: &Sides, least: u64) -> Result<Row, RecoverFault>
    requires { AreSideNames sides.now }
    ensures ascends { IfOk result Ascends }
    ensures numbers { IfOk result (All (λ (f : Found). IsSegmentName f.name)) }
    ensures lengths { IfOk result (λ row. IsAsLongAsListed row sides.now) }
    ensures below { IfOk result (HasNoByteBelow least) }
    ensures bare { IfOk result (IsBareIf sides.now) }
    ensures no_disk { IfErr result IsNoDisk }
    ensures listed { (files : Files) → AreListings files sides.now
        → IfOk result (λ row. IsRowOf (files_from least files) row) }
    ensures refused { (files : Files) → AreListings files sides.now
        → IfErr result (DiskMemoryOr (RefusesTwice (from_wal least (dirs_as_read files)))) }
{
    let primary = names_from(sides.primary.as_slice(), least);
    let secondary = names_from(sides.secondary.as_slice(), least);
    in_order(alloc, primary, secondary)
}

/// The number of the WAL that may be begun after the segments of a listing.
fn next_wal_after(names: &[Listed]) -> u64
    requires ascending { IsAscending names.now }
    requires numbers { AreSegmentNames names.now }
    ensures { IsAfter names.now result }
{
    match names.last() {
        Some(last) => last.name.wal + 1,
        None => 1,
    }
}

/// The number of the WAL that may be begun after the segments of both sides.
pub(crate) fn next_wal(sides: &Sides) -> u64
    requires { AreSideNames sides.now }
    ensures { (files : Files) → AreListings files sides.now
        → IsNextWal (dirs_as_read files) result }
{
    let primary = next_wal_after(sides.primary.as_slice());
    primary.max(next_wal_after(sides.secondary.as_slice()))
}
