//! Where the files stand.

ghost use Rattle.std.specs.Prelude.{◌≡◌, ◌++◌, codes, IfOk};
ghost use Rattle.disk_face.specs.Calls as spec;
ghost use Rattle.file_disk.specs.Paths.{side_of_file, directory_text, path_text};

use disk_face::{DiskOp, FilePlace, Side, TableName};
use std::alloc::Global;
use wal_base::{Buf, NoMemory};

/// The directory in which both stand.
pub const PARENT: &str = ".";

/// Where a table is written before it takes its name. No segment and no table has this name.
pub const UNNAMED_TABLE: &str = "./wal/table.tmp";

/// The directory of a side.
pub fn directory_of(side: Side) -> &'static str
    ensures { result.now ≡ directory_text side }
{
    match side {
        Side::Primary => "./wal",
        Side::Secondary => "./wal_secondary",
    }
}

/// The directory of a side, with the slash that the system takes after nothing but a directory.
pub fn slashed_directory_of(side: Side) -> &'static str
    ensures { result.now ≡ directory_text side ++ codes "/" }
{
    match side {
        Side::Primary => "./wal/",
        Side::Secondary => "./wal_secondary/",
    }
}

/// The side in whose directory a file stands.
pub fn side_of(place: FilePlace) -> Side
    ensures { result ≡ side_of_file place }
{
    match place {
        FilePlace::Segment { side, .. } => side,
        FilePlace::Table { .. } => Side::Primary,
    }
}

/// The place of the segment that an operation works on.
pub fn place_of(op: DiskOp<'_>) -> FilePlace
    ensures place { result ≡ spec.place_of op.entry }
    ensures side { side_of_file result ≡ spec.side_of op.entry }
{
    match op {
        DiskOp::Create { side, name }
        | DiskOp::Write { side, name, .. }
        | DiskOp::Sync { side, name } => FilePlace::Segment { side, name },
    }
}

/// The path of a file.
pub fn path_of(alloc: Global, place: FilePlace) -> Result<Buf, NoMemory>
    ensures { IfOk result (λ path. path ≡ path_text place) }
{
    let mut path = Buf::new(alloc)?;
    path.append(directory_of(side_of(place)).as_bytes())?;
    path.append(b"/")?;
    match place {
        FilePlace::Segment { name, .. } => name.put(&mut path)?,
        FilePlace::Table { upto } => TableName { upto }.put(&mut path)?,
    }
    Ok(path)
}
