//! What a crash leaves of the files.

ghost use Rattle.std.specs.Prelude.{IfOk, OnOk};
ghost use Rattle.mem_disk.specs.Mem.{AreInOrder};
ghost use Rattle.mem_disk.specs.Picks.{LeaveWhole};
ghost use Rattle.mem_disk.specs.Leaving.{IsLeft, IsOneMoreLeft, AreLeft};

use crate::parts::MemFile;
use crate::picks::{FilePick, add_tail, kept_len, tail_of_file};
use std::alloc::Global;
use wal_base::NoMemory;

// The bytes are kept where they are: what is not stable is cut off, and the tail put after it.
fn left_of(file: MemFile, picks: &[FilePick]) -> Result<Option<MemFile>, NoMemory>
    ensures { IfOk result (IsLeft picks.now file) }
{
    let tail = tail_of_file(picks, &file);
    let Some(kept) = kept_len(&file, tail) else {
        return Ok(None);
    };
    let MemFile {
        place,
        mut sent,
        ..
    } = file;
    sent.truncate(kept);
    add_tail(&mut sent, tail)?;
    let len = sent.len();
    Ok(Some(MemFile {
        place,
        sent,
        done: len,
        stable: len,
        created: true,
        leaving: false,
    }))
}

fn push_left(left: &mut Vec<MemFile>, file: MemFile, picks: &[FilePick]) -> Result<(), NoMemory>
    ensures { OnOk result (IsOneMoreLeft picks.now file left.old.items left.new.items) }
{
    let Some(file) = left_of(file, picks)? else {
        return Ok(());
    };
    left.push(file)?;
    Ok(())
}

fn all_left(
    alloc: Global,
    files: Vec<MemFile>,
    picks: &[FilePick],
) -> Result<Vec<MemFile>, NoMemory>
    ensures { IfOk result (λ left. AreLeft picks.now files.items left.items) }
{
    let mut left = Vec::with_capacity(alloc, files.len())?;
    for file in files {
        push_left(&mut left, file, picks)?;
    }
    Ok(left)
}

/// The files that a crash leaves, by the picks. Each is whole. `Err` means out of memory.
pub fn files_left(
    alloc: Global,
    files: Vec<MemFile>,
    picks: &[FilePick],
) -> Result<Vec<MemFile>, NoMemory>
    requires ordered { AreInOrder files.items }
    ensures files { IfOk result (λ left. LeaveWhole files.items picks.now left.items) }
    ensures ordered { IfOk result (λ left. AreInOrder left.items) }
{
    all_left(alloc, files, picks)
}
