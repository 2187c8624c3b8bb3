//! The order of the files: segments of one side ascend by their names, and tables by their numbers.

ghost use Rattle.std.specs.Prelude.{◌≡◌, ◌≤◌, length, insert, OnOk, OnErr, None};
ghost use Rattle.mem_disk.specs.declared.parts.MemFile.{MemFile};
ghost use Rattle.disk_face.specs.View.{segment, table};
ghost use Rattle.mem_disk.specs.Changes.{PutsFile};
ghost use Rattle.mem_disk.specs.Mem.{IsPutAt, files_held, is_at, is_table, is_before, precedes, side_eq, goes_before, AreInOrder};

use crate::parts::MemFile;
use disk_face::{FilePlace, SegName, Side};
use wal_base::NoMemory;

/// Whether both are the same side.
pub fn is_side(a: Side, b: Side) -> bool
    ensures { result ≡ side_eq a b }
{
    match (a, b) {
        (Side::Primary, Side::Primary) => true,
        (Side::Secondary, Side::Secondary) => true,
        _ => false,
    }
}

/// Whether both are the same place.
pub fn is_place(a: FilePlace, b: FilePlace) -> bool
    ensures { result ≡ is_at a b }
{
    match a {
        FilePlace::Segment { side, name } => is_segment(b, side, name),
        FilePlace::Table { upto } => is_table_of(b, upto),
    }
}

fn is_segment(place: FilePlace, side: Side, name: SegName) -> bool
    ensures { result ≡ is_at (segment side name) place }
{
    match place {
        FilePlace::Segment {
            side: other_side,
            name: other,
        } => is_side(side, other_side) && name.wal == other.wal && name.index == other.index,
        FilePlace::Table { .. } => false,
    }
}

fn is_table_of(place: FilePlace, upto: u64) -> bool
    ensures { result ≡ is_at (table upto) place }
{
    match place {
        FilePlace::Segment { .. } => false,
        FilePlace::Table { upto: other } => upto == other,
    }
}

/// Whether a table stands there.
pub fn is_table_place(place: FilePlace) -> bool
    ensures { result ≡ is_table place }
{
    match place {
        FilePlace::Segment { .. } => false,
        FilePlace::Table { .. } => true,
    }
}

fn stands_before(a: SegName, b: SegName) -> bool
    ensures { result ≡ is_before a b }
{
    a.wal < b.wal || (a.wal == b.wal && a.index < b.index)
}

// Whether a file at the first place may stand before one at the second.
fn may_precede(a: FilePlace, b: FilePlace) -> bool
    ensures { result ≡ precedes a b }
{
    match (a, b) {
        (
            FilePlace::Segment { side, name },
            FilePlace::Segment {
                side: other_side,
                name: other,
            },
        ) => !is_side(side, other_side) || stands_before(name, other),
        (FilePlace::Table { upto }, FilePlace::Table { upto: other }) => upto < other,
        _ => true,
    }
}

// Where a file of that place goes.
fn index_for(files: &Vec<MemFile>, place: FilePlace) -> usize
    ensures within { result ≤ length files.now.items }
    ensures at { IsPutAt place files.now.items result }
{
    let mut at = 0;
    while at < files.len() && may_precede(files[at].place, place) {
        at += 1;
    }
    at
}

/// Puts in a file, where there is none of its place.
pub fn insert_file(files: &mut Vec<MemFile>, file: MemFile) -> Result<(), NoMemory>
    requires absent { files_held files.old.items file.place ≡ None }
    ensures ok { OnOk result (PutsFile file files.old.items files.new.items) }
    ensures err { OnErr result (files.new.items ≡ files.old.items) }
    ensures ordered { AreInOrder files.old.items → AreInOrder files.new.items }
{
    let at = index_for(files, file.place);
    files.insert(at, file)?;
    Ok(())
}
