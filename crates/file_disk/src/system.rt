//! The calls of the system. No clause can say what they do to a file.

ghost use Rattle.std.specs.Prelude.{◌≡◌, ◌≤◌, ◌<◌, length, take, drop, IfOk};
ghost use Rattle.std.specs.Io.KnownBytes.{Consumes, IsAtEnd, ReadConsumes};
ghost use Rattle.disk_face.specs.Listing.{IsAscending, AreSegmentNames, AreTablesAscending, AreTableNumbers};
ghost use Rattle.file_disk.specs.Found.{AreTablesFound};

use crate::order::{names_of, tables_of};
use crate::paths::{directory_of, path_of};
use disk_face::{DiskErr, FilePlace, Listed, Names, SegName, Side, TableName, TableNames};
use std::alloc::Global;
use std::collections::BTreeMap;
use std::fs::{DirEntry, File, OpenFile, OpenOptions, ReadDir};
use std::io::{ErrorKind, Read, Seek, SeekFrom, Write};
use std::rt::Files;
use std::{fs, io};
use wal_base::{Buf, NoMemory};

/// The last place that a file of the system can have.
const LAST_PLACE: u64 = (1 << 63) - 1;

/// How many bytes of a file are read from the system at once.
const PIECE: usize = 1 << 16;

/// A path as the system takes it. It is ASCII, so there is no error.
fn text_of(path: &Buf) -> io::Result<&str> {
    std::str::from_utf8(path.as_slice()).map_err(|_| ErrorKind::InvalidFilename.into())
}

/// Makes a directory where it is absent, and answers whether it was.
pub fn make_directory<R: Files>(rt: &R, path: &str) -> io::Result<bool> {
    if fs::exists(rt, path)? {
        return Ok(false);
    }
    fs::create_dir_all(rt, path)?;
    Ok(true)
}

/// Syncs a directory, so that new names in it last. A file system that knows no such sync is left to itself.
pub fn sync_directory<R: Files>(rt: &R, path: &str) -> io::Result<()> {
    match File::open(rt, path)?.sync_all() {
        Err(error) if is_unknown(error.kind()) => Ok(()),
        answer => answer,
    }
}

/// Whether the system does not know what it was asked for.
fn is_unknown(kind: ErrorKind) -> bool {
    matches!(kind, ErrorKind::InvalidInput | ErrorKind::Unsupported)
}

/// Makes a segment that is not there, open for appending.
pub fn create<R: Files>(rt: &R, path: &Buf) -> io::Result<R::File> {
    OpenOptions::new()
        .append(true)
        .create_new(true)
        .open(rt, text_of(path)?)
}

/// Opens a segment that is there for appending.
pub fn open<R: Files>(rt: &R, path: &Buf) -> io::Result<R::File> {
    OpenOptions::new().append(true).open(rt, text_of(path)?)
}

/// Syncs a segment that is not held open. It is opened for reading: a sync is to need no right to write.
pub fn sync<R: Files>(rt: &R, path: &Buf) -> io::Result<()> {
    File::open(rt, text_of(path)?)?.sync_all()
}

/// Puts a file of these bytes at a path, in place of one that stands there. It is written and synced at another path
/// first, over what an earlier stop left there. A failure clears that path, where it can.
pub fn replace<R: Files>(rt: &R, other: &str, path: &Buf, bytes: &[u8]) -> io::Result<()> {
    let replaced = write_and_rename(rt, other, path, bytes);
    if replaced.is_err() {
        let _cleared = fs::remove_file(rt, other);
    }
    replaced
}

fn write_and_rename<R: Files>(rt: &R, other: &str, path: &Buf, bytes: &[u8]) -> io::Result<()> {
    let mut file = File::create(rt, other)?;
    file.write_all(bytes)?;
    file.sync_all()?;
    drop(file);
    fs::rename(rt, other, text_of(path)?)
}

/// Removes a file.
pub fn remove<R: Files>(rt: &R, path: &Buf) -> io::Result<()> {
    fs::remove_file(rt, text_of(path)?)
}

/// What a refusal of the system is to the caller of a disk.
pub fn refusal(error: io::Error) -> DiskErr {
    match error.kind() {
        ErrorKind::OutOfMemory => DiskErr::NoMemory,
        _ => DiskErr::Failed,
    }
}

/// Whether nothing stands at a path, by what the system answered there. A link that leads nowhere is something.
fn is_absent<R: Files>(rt: &R, path: &str, answer: ErrorKind) -> bool {
    answer == ErrorKind::NotFound
        && fs::symlink_metadata(rt, path).is_err_and(|error| error.kind() == ErrorKind::NotFound)
}

/// The segments of a side. A directory that is not there has none.
pub fn list<R: Files + AllocGlobal + Clone + Drop>(rt: &R, side: Side) -> Result<Names, DiskErr>
    ensures ascending { IfOk result IsAscending }
    ensures numbers { IfOk result AreSegmentNames }
{
    let mut found = Vec::new(rt.alloc());
    let Some(entries) = entries_of(rt, directory_of(side))? else {
        return Ok(Names::new(rt.alloc()));
    };
    for entry in entries {
        match entry {
            Ok(entry) => add_segment(rt, &mut found, &entry)?,
            Err(error) => pass_over(error)?,
        }
    }
    Ok(names_of(rt.alloc(), found)?)
}

/// The tables. A directory that is not there has none.
pub fn tables<R: Files + AllocGlobal + Clone + Drop>(rt: &R) -> Result<TableNames, DiskErr>
    ensures ascending { IfOk result AreTablesAscending }
    ensures numbers { IfOk result AreTableNumbers }
{
    let mut found = BTreeMap::new(rt.alloc());
    let Some(entries) = entries_of(rt, directory_of(Side::Primary))? else {
        return Ok(TableNames::new(rt.alloc()));
    };
    for entry in entries {
        match entry {
            Ok(entry) => add_table(rt, &mut found, &entry)?,
            Err(error) => pass_over(error)?,
        }
    }
    Ok(tables_of(rt.alloc(), &found)?)
}

/// The entries of a directory, or `None` where it is not there.
fn entries_of<R: Files + AllocGlobal + Clone + Drop>(
    rt: &R,
    directory: &str,
) -> Result<Option<ReadDir<R, Global>>, DiskErr> {
    match fs::read_dir(rt, directory) {
        Ok(entries) => Ok(Some(entries)),
        Err(error) if is_absent(rt, directory, error.kind()) => Ok(None),
        Err(error) => Err(refusal(error)),
    }
}

/// Passes over an entry whose name is not text, and so is no file's. An error of the system has a number.
fn pass_over(error: io::Error) -> Result<(), DiskErr> {
    if error.kind() == ErrorKind::InvalidFilename && error.raw_os_error().is_none() {
        Ok(())
    } else {
        Err(refusal(error))
    }
}

/// Adds an entry of a directory to the list, where it is a segment.
fn add_segment<R: Files + AllocGlobal + Clone + Drop>(
    rt: &R,
    list: &mut Vec<Listed>,
    entry: &DirEntry<R, Global>,
) -> Result<(), DiskErr>
    requires { AreSegmentNames list.old.items }
    ensures { AreSegmentNames list.new.items }
{
    let Some(name) = SegName::parse(entry.file_name().as_bytes()) else {
        return Ok(());
    };
    if let Some(len) = length_of(rt, entry)? {
        list.push(Listed { name, len }).map_err(|_| NoMemory)?;
    }
    Ok(())
}

/// Adds an entry of a directory to the tables, where it is one.
fn add_table<R: Files + AllocGlobal + Clone + Drop>(
    rt: &R,
    tables: &mut BTreeMap<u64, u64>,
    entry: &DirEntry<R, Global>,
) -> Result<(), DiskErr>
    requires { AreTablesFound tables.old }
    ensures { AreTablesFound tables.new }
{
    let Some(name) = TableName::parse(entry.file_name().as_bytes()) else {
        return Ok(());
    };
    let Some(len) = length_of(rt, entry)? else {
        return Ok(());
    };
    match tables.insert(name.upto, len) {
        Ok(_) => Ok(()),
        Err(_) => Err(DiskErr::NoMemory),
    }
}

/// The length of an entry's file, or `None` where it is no file.
fn length_of<R: Files + AllocGlobal + Clone + Drop>(
    rt: &R,
    entry: &DirEntry<R, Global>,
) -> Result<Option<u64>, DiskErr> {
    let metadata = fs::metadata(rt, entry.path()).map_err(refusal)?;
    Ok(metadata.is_file().then_some(metadata.len()))
}

/// Reads from a place of a file, counted from 0, as far as the buffer or the file goes.
pub fn read<R: Files + AllocGlobal>(
    rt: &R,
    place: FilePlace,
    at: u64,
    buf: &mut [u8],
) -> Result<usize, DiskErr>
    ensures within { IfOk result (λ n. n ≤ length buf.new) }
    ensures beyond { IfOk result (λ n. drop n buf.new ≡ drop n buf.old) }
{
    let path = path_of(rt.alloc(), place)?;
    if at > LAST_PLACE {
        return Ok(0);
    }
    let path = text_of(&path).map_err(refusal)?;
    let mut file = match File::open(rt, path) {
        Ok(file) => file,
        Err(error) if is_absent(rt, path, error.kind()) => return Ok(0),
        Err(error) => return Err(refusal(error)),
    };
    file.seek(SeekFrom::Start(at)).map_err(refusal)?;
    let mut piece = vec![in rt.alloc(); 0; buf.len().min(PIECE)].map_err(|_| NoMemory)?;
    fill(&mut file, piece.as_mut_slice(), buf).map_err(refusal)
}

/// Reads to the front of the buffer until it is full or the input ends. What is read stands in a piece of memory
/// first: the system does not say what it leaves of a buffer after the bytes that it reads.
fn fill<I: Read>(input: &mut I, piece: &mut [u8], buf: &mut [u8]) -> io::Result<usize>
    requires { 0 < length buf.old → 0 < length piece.old }
    ensures within { IfOk result (λ n. n ≤ length buf.new) }
    ensures beyond { IfOk result (λ n. drop n buf.new ≡ drop n buf.old) }
    ensures read { IfOk result (λ n. Consumes (I.remaining input.old) (I.remaining input.new) (take n buf.new)) }
    ensures end { IfOk result (λ n. n < length buf.new → IsAtEnd (I.remaining input.new)) }
{
    let mut filled = 0;
    while filled < buf.len() {
        let room = (buf.len() - filled).min(piece.len());
        let count = read_again(input, &mut piece[..room])?;
        if count == 0 {
            break;
        }
        buf[filled..filled + count].copy_from_slice(&piece[..count]);
        filled += count;
    }
    Ok(filled)
}

/// Reads once, and again where a signal interrupted it.
fn read_again<I: Read>(input: &mut I, buf: &mut [u8]) -> io::Result<usize>
    ensures within { IfOk result (λ n. n ≤ length buf.new) }
    ensures passed { ReadConsumes (I.remaining input.old) (I.remaining input.new) result buf.new }
{
    for _ in 0..u64::MAX {
        match input.read(buf) {
            Err(error) if error.kind() == ErrorKind::Interrupted => {}
            answer => return answer,
        }
    }
    Err(ErrorKind::Interrupted.into())
}
