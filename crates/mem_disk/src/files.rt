//! The files of a disk in memory, and what one operation does to them.

ghost use Rattle.std.specs.Prelude.{◌≡◌, ◌+◌, ◌≤◌, ◌<◌, false, length, take, drop, OnOk, OnErr, IsErrOf, IsTrue, IfNone, IfSome, Some, None};
ghost use Rattle.disk_face.specs.View.{segment, table};
ghost use Rattle.disk_face.specs.Image.{as_read};
ghost use Rattle.disk_face.specs.Calls.{MayStart, flight_of, place_of, fresh, FillsFrom};
ghost use Rattle.disk_face.specs.Tables.{whole};
ghost use Rattle.mem_disk.specs.Failing.{AnswersIf, half_put, left_over};
ghost use Rattle.mem_disk.specs.Changes.{PutsAt, PutsFile, IsPuttingAt, RemovesAt, LeavesAt, ChangesAsDone, SettlesAt, BeginsAt, ExtendsAt, HeldReads, HeldSent, HeldFills};
ghost use Rattle.mem_disk.specs.Mem.{files_held, file_of, is_table, index_at, FoundAt, IsUncreated, IsCreated, AreInOrder};

use crate::order::{insert_file, is_place, is_table_place};
use crate::parts::{MemAct, MemFile};
use disk_face::{DiskErr, DiskOp, FilePlace, SegName, Side};
use std::alloc::Global;
use wal_base::NoMemory;

fn first_at(files: &[MemFile], place: FilePlace) -> Option<usize>
    ensures { result ≡ index_at place files.now }
{
    for (i, file) in files.iter().enumerate() {
        if is_place(file.place, place) {
            return Some(i);
        }
    }
    None
}

/// Where the file of that place stands.
pub fn find(files: &[MemFile], place: FilePlace) -> Option<usize>
    ensures none { IfNone result (files_held files.now place ≡ None) }
    ensures some { IfSome result (FoundAt place files.now) }
{
    first_at(files, place)
}

// The operation on this segment is done.
fn settle_file(file: &mut MemFile, act: MemAct)
    requires { is_table file.old.place ≡ false }
    ensures settled { ChangesAsDone act file.old file.new }
    ensures place { file.new.place ≡ file.old.place }
{
    match act {
        MemAct::Create => {
            if !file.created {
                file.created = true;
                file.done = 0;
                file.sent.clear();
                file.stable = 0;
            }
        }
        MemAct::Write => {
            file.done = file.sent.len();
        }
        MemAct::Sync => {
            file.stable = file.done;
        }
    }
}

/// The operation on this file is done.
pub fn settle(files: &mut Vec<MemFile>, side: Side, name: SegName, act: MemAct)
    ensures changes { SettlesAt side name act files.old.items files.new.items }
    ensures ordered { AreInOrder files.old.items → AreInOrder files.new.items }
{
    let Some(at) = find(files, FilePlace::Segment { side, name }) else {
        return;
    };
    settle_file(&mut files[at], act);
}

/// Starts an operation: what it does to the files at once.
pub fn begin(alloc: Global, files: &mut Vec<MemFile>, op: DiskOp<'_>) -> Result<(), NoMemory>
    requires { MayStart (flight_of op).act (files_held files.old.items (place_of op)) }
    ensures ok { OnOk result (BeginsAt op.entry files.old.items files.new.items) }
    ensures err { OnErr result (files_held files.new.items ≡ files_held files.old.items) }
    ensures ordered { AreInOrder files.old.items → AreInOrder files.new.items }
{
    match op {
        DiskOp::Create { side, name } => create(alloc, files, side, name),
        DiskOp::Write { side, name, bytes } => extend(files, side, name, bytes),
        DiskOp::Sync { .. } => Ok(()),
    }
}

fn create(
    alloc: Global,
    files: &mut Vec<MemFile>,
    side: Side,
    name: SegName,
) -> Result<(), NoMemory>
    requires { IsUncreated (files_held files.old.items (segment side name)) }
    ensures ok { OnOk result (PutsAt (segment side name) fresh files.old.items files.new.items) }
    ensures err { OnErr result (files.new.items ≡ files.old.items) }
    ensures ordered { AreInOrder files.old.items → AreInOrder files.new.items }
{
    let place = FilePlace::Segment { side, name };
    match find(files, place) {
        Some(at) => {
            begin_again(&mut files[at]);
            Ok(())
        }
        None => add(alloc, files, place),
    }
}

// Another creation of a segment that is not created yet.
fn begin_again(file: &mut MemFile)
    requires segment { is_table file.old.place ≡ false }
    requires not_yet { file.old.created ≡ false }
    ensures fresh { file_of file.new ≡ fresh }
    ensures place { file.new.place ≡ file.old.place }
{
    file.leaving = false;
}

fn add(alloc: Global, files: &mut Vec<MemFile>, place: FilePlace) -> Result<(), NoMemory>
    requires segment { is_table place ≡ false }
    requires absent { files_held files.old.items place ≡ None }
    ensures ok { OnOk result (PutsAt place fresh files.old.items files.new.items) }
    ensures err { OnErr result (files.new.items ≡ files.old.items) }
    ensures ordered { AreInOrder files.old.items → AreInOrder files.new.items }
{
    let file = MemFile {
        place,
        sent: Vec::new(alloc),
        done: 0,
        stable: 0,
        created: false,
        leaving: false,
    };
    insert_file(files, file)
}

// Puts a file over that of its place, or in its order where none is.
fn put_over(files: &mut Vec<MemFile>, file: MemFile) -> Result<(), NoMemory>
    ensures ok { OnOk result (PutsFile file files.old.items files.new.items) }
    ensures err { OnErr result (files.new.items ≡ files.old.items) }
    ensures ordered { AreInOrder files.old.items → AreInOrder files.new.items }
{
    match find(files, file.place) {
        Some(at) => {
            files[at] = file;
            Ok(())
        }
        None => insert_file(files, file),
    }
}

/// Places a whole file, in place of one that is there, whatever state that is in.
pub fn place_whole(
    alloc: Global,
    files: &mut Vec<MemFile>,
    place: FilePlace,
    bytes: &[u8],
) -> Result<(), NoMemory>
    ensures ok { OnOk result (PutsAt place (whole bytes.now) files.old.items files.new.items) }
    ensures err { OnErr result (files.new.items ≡ files.old.items) }
    ensures ordered { AreInOrder files.old.items → AreInOrder files.new.items }
{
    let sent = Vec::from_slice(alloc, bytes)?;
    let file = MemFile {
        place,
        sent,
        done: bytes.len(),
        stable: bytes.len(),
        created: true,
        leaving: false,
    };
    put_over(files, file)
}

fn extend(files: &mut [MemFile], side: Side, name: SegName, bytes: &[u8]) -> Result<(), NoMemory>
    requires { IsCreated (files_held files.old (segment side name)) }
    ensures ok { OnOk result (ExtendsAt side name bytes.now files.old files.new) }
    ensures err { OnErr result (files_held files.new ≡ files_held files.old) }
    ensures ordered { AreInOrder files.old → AreInOrder files.new }
{
    let Some(at) = find(files, FilePlace::Segment { side, name }) else {
        return Err(NoMemory);
    };
    let file = &mut files[at];
    file.sent.extend_from_slice(bytes)?;
    Ok(())
}

/// How many of its bytes a read of the file gives.
pub fn read_len(file: &MemFile) -> usize
    ensures reads { (file_of file.now).reads ≡ take result file.now.sent.items }
    ensures len { length (file_of file.now).reads ≡ result }
    ensures within { result ≤ length file.now.sent.items }
{
    let is_table = is_table_place(file.place);
    if is_table && file.created {
        return file.sent.len();
    }
    if is_table || file.created {
        return file.done;
    }
    0
}

/// What a read gives. `None` exactly where no file of that segment is created.
pub fn content_of(files: &Vec<MemFile>, side: Side, name: SegName) -> Option<&[u8]>
    ensures some { IfSome result (λ bytes. HeldReads files.now.items side name bytes.now) }
    ensures none { IfNone result (as_read (segment side name)
        (files_held files.now.items (segment side name)) ≡ None) }
{
    let at = find(files, FilePlace::Segment { side, name })?;
    let found = &files[at];
    if found.created {
        Some(&found.sent[..found.done])
    } else {
        None
    }
}

/// What was sent to a file. That is nothing to a segment until it is created.
pub fn sent_in(file: &MemFile) -> &[u8]
    ensures { result.now ≡ (file_of file.now).sent }
{
    if file.created || is_table_place(file.place) {
        &file.sent
    } else {
        &file.sent[..0]
    }
}

/// What was sent. `None` exactly where no file of that segment is.
pub fn sent_of(files: &Vec<MemFile>, side: Side, name: SegName) -> Option<&[u8]>
    ensures some { IfSome result (λ bytes. HeldSent files.now.items side name bytes.now) }
    ensures none { IfNone result (files_held files.now.items (segment side name) ≡ None) }
{
    let at = find(files, FilePlace::Segment { side, name })?;
    Some(sent_in(&files[at]))
}

fn copy_out(content: &[u8], at: u64, buf: &mut [u8]) -> usize
    ensures fills { FillsFrom content.now at buf.new result }
    ensures within { result ≤ length buf.new }
    ensures beyond { drop result buf.new ≡ drop result buf.old }
{
    let at = at as usize;
    if at >= content.len() {
        return 0;
    }
    let rest = &content[at..];
    let count = rest.len().min(buf.len());
    buf[..count].copy_from_slice(&rest[..count]);
    count
}

/// Reads from there in a file into the front of the buffer.
pub fn read_file(files: &Vec<MemFile>, place: FilePlace, at: u64, buf: &mut [u8]) -> usize
    ensures fills { HeldFills files.now.items place at buf.new result }
    ensures no_file { files_held files.now.items place ≡ None → result ≡ 0 }
    ensures within { result ≤ length buf.new }
    ensures beyond { drop result buf.new ≡ drop result buf.old }
{
    let Some(i) = find(files, place) else {
        return 0;
    };
    let file = &files[i];
    copy_out(&file.sent[..read_len(file)], at, buf)
}

// The removal of this file has begun.
fn leave_file(file: &mut MemFile)
    ensures left { file_of file.new ≡ left_over (file_of file.old) }
    ensures place { file.new.place ≡ file.old.place }
{
    file.leaving = true;
}

/// The removal of the file of that place has begun.
pub fn leave(files: &mut Vec<MemFile>, place: FilePlace)
    ensures leaves { LeavesAt place files.old.items files.new.items }
    ensures ordered { AreInOrder files.old.items → AreInOrder files.new.items }
{
    let Some(at) = find(files, place) else {
        return;
    };
    leave_file(&mut files[at]);
}

/// Takes the file of that place away.
pub fn remove(files: &mut Vec<MemFile>, place: FilePlace)
    requires ordered { AreInOrder files.old.items }
    ensures removes { RemovesAt place files.old.items files.new.items }
    ensures ordered { AreInOrder files.new.items }
{
    let Some(at) = first_at(files, place) else {
        return;
    };
    files.remove(at);
}

// Puts the first half of a table.
fn put_half(
    alloc: Global,
    files: &mut Vec<MemFile>,
    upto: u64,
    bytes: &[u8],
) -> Result<(), NoMemory>
    requires absent { files_held files.old.items (table upto) ≡ None }
    ensures ok { OnOk result (PutsAt (table upto) (half_put bytes.now) files.old.items
        files.new.items) }
    ensures err { OnErr result (files.new.items ≡ files.old.items) }
    ensures ordered { AreInOrder files.old.items → AreInOrder files.new.items }
{
    let sent = Vec::from_slice(alloc, bytes)?;
    let file = MemFile {
        place: FilePlace::Table { upto },
        sent,
        done: bytes.len() / 2,
        stable: 0,
        created: false,
        leaving: false,
    };
    insert_file(files, file)
}

/// Puts a table: whole, or the first half of it where that is to fail.
pub fn put_as_planned(
    alloc: Global,
    files: &mut Vec<MemFile>,
    upto: u64,
    bytes: &[u8],
    fails: bool,
) -> Result<(), DiskErr>
    requires absent { files_held files.old.items (table upto) ≡ None }
    ensures ok { OnOk result (PutsAt (table upto) (whole bytes.now) files.old.items
        files.new.items) }
    ensures half { IsErrOf result DiskErr.Failed → PutsAt (table upto) (half_put bytes.now)
        files.old.items files.new.items }
    ensures no_memory { IsErrOf result DiskErr.NoMemory → files.new.items ≡ files.old.items }
    ensures putting { IsPuttingAt upto bytes.now files.old.items files.new.items }
    ensures fails { AnswersIf (IsTrue fails) result }
    ensures ordered { AreInOrder files.old.items → AreInOrder files.new.items }
{
    if fails {
        put_half(alloc, files, upto, bytes)?;
        return Err(DiskErr::Failed);
    }
    place_whole(alloc, files, FilePlace::Table { upto }, bytes)?;
    Ok(())
}
