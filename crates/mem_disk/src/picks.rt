//! Which image a crash leaves: a tail for each file that is to have one.

ghost use Rattle.std.specs.Prelude.{◌≡◌, ◌≤◌, length, OnOk, IfNone, IfSome, Some, None};
ghost use Rattle.std.specs.Option.{option_copied};
ghost use Rattle.disk_face.specs.View.{segment};
ghost use Rattle.disk_face.specs.Image.{as_read};
ghost use Rattle.mem_disk.specs.Mem.{is_at, file_of};
ghost use Rattle.mem_disk.specs.Picks.{tail_of, tail_left, stands_as_read, MayHave, ReadsFront, LeavesNone, LeavesFront, IsWithTail};

use crate::files::read_len;
use crate::order::{is_place, is_table_place};
use crate::parts::MemFile;
use disk_face::{FilePlace, SegName, Side};
use wal_base::{Blob, ListOf, NoMemory};

/// What a crash is to leave of one segment. Without a tail, a created one is left its stable bytes alone, and one
/// whose creation was only started is left out. One whose removal failed stands as it reads, whatever a pick says.
#[derive(Debug, Drop)]
pub struct FilePick {
    /// In which directory.
    pub side: Side,
    /// Which segment.
    pub name: SegName,
    /// The bytes after the stable ones.
    pub tail: Option<Blob>,
}

/// Picks, of which the first of each file counts.
pub type FilePicks = ListOf<FilePick>;

/// An image, out of those that a crash may leave. A file that no pick names has no tail, and a pick of a file
/// that is not there is passed over.
#[derive(Debug, Drop)]
pub struct CrashPick {
    /// The picks of files.
    pub files: FilePicks,
}

fn is_pick_of(pick: &FilePick, place: FilePlace) -> bool
    ensures { result ≡ is_at (segment pick.now.side pick.now.name) place }
{
    let FilePick { side, name, .. } = *pick;
    is_place(FilePlace::Segment { side, name }, place)
}

fn tail_in(pick: &FilePick) -> Option<&[u8]>
    ensures { option_copied result ≡ pick.now.tail }
{
    match &pick.tail {
        Some(tail) => Some(tail.as_slice()),
        None => None,
    }
}

// The tail that the picks give the file of that place.
fn tail_for(picks: &[FilePick], place: FilePlace) -> Option<&[u8]>
    ensures { option_copied result ≡ tail_of picks.now place }
{
    for pick in picks {
        if is_pick_of(pick, place) {
            return tail_in(pick);
        }
    }
    None
}

fn is_left_as_read(file: &MemFile) -> bool
    ensures { result ≡ stands_as_read file.now.place (file_of file.now) }
{
    is_table_place(file.place) || file.leaving
}

/// The tail of the file, if it is to have one. A file that stands as it reads has none.
pub fn tail_of_file<'p>(picks: &'p [FilePick], file: &MemFile) -> Option<&'p [u8]>
    ensures tail { option_copied result ≡ tail_left picks.now file.now }
    ensures may { MayHave file.now (option_copied result) }
{
    if is_left_as_read(file) {
        return None;
    }
    tail_for(picks, file.place)
}

/// How many of its bytes a crash leaves of a file, in front of the tail. `None` where it leaves no file.
pub fn kept_len(file: &MemFile, tail: Option<&[u8]>) -> Option<usize>
    requires { MayHave file.now (option_copied tail) }
    ensures none { IfNone result (LeavesNone file.now (option_copied tail.entry)) }
    ensures some { IfSome result (LeavesFront file.now (option_copied tail.entry)) }
    ensures within { IfSome result (λ kept. kept ≤ length file.now.sent.items) }
{
    if is_left_as_read(file) {
        return len_as_read(file);
    }
    if file.created {
        return Some(file.stable);
    }
    match tail {
        Some(_) => Some(0),
        None => None,
    }
}

// How many bytes the file has as it reads. `None` where a read finds no file.
fn len_as_read(file: &MemFile) -> Option<usize>
    ensures none { IfNone result (as_read file.now.place (Some (file_of file.now)) ≡ None) }
    ensures some { IfSome result (ReadsFront file.now) }
    ensures within { IfSome result (λ len. len ≤ length file.now.sent.items) }
{
    if file.created || is_table_place(file.place) {
        Some(read_len(file))
    } else {
        None
    }
}

/// Adds the tail, if there is one.
pub fn add_tail(bytes: &mut Vec<u8>, tail: Option<&[u8]>) -> Result<(), NoMemory>
    ensures { OnOk result (IsWithTail bytes.old.items (option_copied tail.entry) bytes.new.items) }
{
    let Some(tail) = tail else {
        return Ok(());
    };
    bytes.extend_from_slice(tail)?;
    Ok(())
}
