//! Tables in files, and files that are removed. Each answer `Failed` was counted, as the contract of a disk says.

ghost use Rattle.disk_face.specs.Listing.{IsTableNumber};

use super::watched::{CALLS_SEEN, Call, Watch, Watched, WatchedFile};
use super::{append, clear, create, create_of, end_each, has_listed, lists, operate, seg};
use crate::FileDisk;
use crate::directory::Directory;
use crate::paths::UNNAMED_TABLE;
use disk_face::{DiskErr, FilePlace, Progress, SegName, Side, TableDisk, TableName};
use std::fs;
use std::io::ErrorKind;
use std::os::unix::fs::symlink;
use std::process::Abort;
use std::rt::Files;
use std::test::Fail;
use wal_base::NoMemory;

/// Whether a disk lists just these tables, as number and length.
fn has_tables(disk: &mut FileDisk<HostRuntime>, wanted: &[(u64, u64)]) -> bool {
    match disk.tables() {
        Ok(tables) => {
            let listed = tables.as_slice();
            listed.len() == wanted.len()
                && listed.iter().zip(wanted.iter()).all(|(item, (upto, len))| {
                    item.upto == *upto && item.len == *len
                })
        }
        Err(_) => false,
    }
}

/// Whether a read from a place of a table answers this count, and leaves this of four dots.
fn reads_table(
    disk: &mut FileDisk<HostRuntime>,
    upto: u64,
    at: u64,
    count: usize,
    bytes: &[u8; 4],
) -> bool
    requires { IsTableNumber upto }
{
    let mut buf = *b"....";
    disk.read_table(upto, at, &mut buf) == Ok(count) && buf == *bytes
}

/// Removes a segment, on a disk of its own.
fn drop_segment(rt: &HostRuntime, side: Side, name: SegName) -> Result<(), DiskErr> {
    let mut disk = FileDisk::new(rt)?;
    let dropped = disk.drop_segment(side, name);
    drop(disk);
    dropped
}

#[test]
fn tables_are_kept_in_files(rt: HostRuntime) -> Result<(), Fail> {
    clear(&rt)?;
    let mut disk = FileDisk::new(&rt)?;
    let kept = keep_tables(&rt, &rt, &mut disk);
    drop(disk);
    kept
}

fn keep_tables(
    rt: &impl Abort,
    system: &HostRuntime,
    disk: &mut FileDisk<HostRuntime>,
) -> Result<(), Fail> {
    // Neither the directory nor a table is there.
    assert!(rt; has_tables(disk, &[]) && reads_table(disk, 3, 0, 0, b"...."));
    assert!(rt; disk.put_table(12, b"twelve").is_ok() && disk.put_table(3, b"abc").is_ok());
    assert!(rt; disk.put_table(1_234_567, b"").is_ok());
    add_near_names(system)?;
    assert!(rt; has_tables(disk, &[(3, 3), (12, 6), (1_234_567, 0)]));
    assert!(rt; has_listed(disk, Side::Primary, &[(3, 0, 5)]));
    assert!(rt; has_listed(disk, Side::Secondary, &[]));
    assert!(rt; reads_table(disk, 3, 1, 2, b"bc..") && reads_table(disk, 12, 2, 4, b"elve"));
    assert!(rt; reads_table(disk, 3, 3, 0, b"....") && reads_table(disk, 4, 0, 0, b"...."));
    // What an earlier stop left is written over, and gone.
    assert!(rt; disk.put_table(3, b"xy").is_ok() && !fs::exists(system, UNNAMED_TABLE)?);
    assert!(rt; reads_table(disk, 3, 0, 2, b"xy.."));
    assert!(rt; disk.drop_table(12).is_ok() && reads_table(disk, 12, 0, 0, b"...."));
    assert!(rt; has_tables(disk, &[(3, 2), (1_234_567, 0)]));
    assert!(rt; disk.drop_table(12) == Err(DiskErr::Failed));
    Ok(())
}

/// Puts files of other names beside the tables, and a directory of a table's name.
fn add_near_names(system: &HostRuntime) -> Result<(), Fail> {
    for path in [
        UNNAMED_TABLE,
        "./wal/000003.log",
        "./wal/4.tab",
        "./wal/0000004.tab",
        "./wal/000004-001.tab",
        "./wal/000004.tab.tmp",
        "./wal/1000000000000.tab",
        "./wal/000004.TAB",
    ] {
        fs::write(system, path, "bytes")?;
    }
    fs::create_dir(system, "./wal/000005.tab")?;
    fs::create_dir(system, "./wal_secondary")?;
    fs::write(system, "./wal_secondary/000006.tab", "bytes")?;
    Ok(())
}

#[test]
fn a_table_to_come_stands_under_the_name_of_no_file(rt: HostRuntime) {
    let name = UNNAMED_TABLE.strip_prefix("./wal/");
    assert!(rt; name.is_some_and(|name| TableName::parse(name.as_bytes()).is_none()));
    assert!(rt; name.is_some_and(|name| SegName::parse(name.as_bytes()).is_none()));
}

#[test]
fn a_segment_that_is_removed_is_let_go(rt: HostRuntime) -> Result<(), Fail> {
    clear(&rt)?;
    let mut directory = Directory::new(rt.alloc());
    let removed = remove_held(&rt, &rt, &mut directory);
    drop(directory);
    assert!(rt; removed?);
    end_each(&rt, &rt, &[create(0), create_of(2, 0)], Progress::Done)?;
    assert!(rt; drop_segment(&rt, Side::Primary, seg(1, 0)) == Ok(()));
    assert!(rt; drop_segment(&rt, Side::Primary, seg(1, 0)) == Err(DiskErr::Failed));
    assert!(rt; drop_segment(&rt, Side::Secondary, seg(2, 0)) == Err(DiskErr::Failed));
    assert!(rt; lists(&rt, Side::Primary, &[(2, 0, 0)])?);
    Ok(())
}

/// Whether a segment that was held open can be written until it is removed, and not afterwards.
fn remove_held(
    rt: &impl Abort,
    system: &HostRuntime,
    directory: &mut Directory<<HostRuntime as Files>::File>,
) -> Result<bool, NoMemory> {
    let place = FilePlace::Segment {
        side: Side::Primary,
        name: seg(1, 0),
    };
    let is_made = operate(system, directory, create(0))?;
    let is_written = operate(system, directory, append(b"ab"))?;
    assert!(rt; directory.remove(system, place).is_ok());
    let is_written_again = operate(system, directory, append(b"ab"))?;
    Ok(is_made && is_written && !is_written_again)
}

#[test]
fn a_refused_table_is_a_failure(rt: HostRuntime) -> Result<(), Fail> {
    clear(&rt)?;
    let mut disk = FileDisk::new(&rt)?;
    let refused = refuse_tables(&rt, &rt, &mut disk);
    drop(disk);
    refused
}

fn refuse_tables(
    rt: &impl Abort,
    system: &HostRuntime,
    disk: &mut FileDisk<HostRuntime>,
) -> Result<(), Fail> {
    let failed = Err(DiskErr::Failed);
    // A directory in the way of the name, and a link that leads nowhere.
    fs::create_dir(system, "./wal")?;
    fs::create_dir(system, "./wal/000001.tab")?;
    assert!(rt; disk.put_table(1, b"abc") == failed && !fs::exists(system, UNNAMED_TABLE)?);
    assert!(rt; disk.drop_table(1) == failed && has_tables(disk, &[]));
    symlink(system, "./nowhere", "./wal/000002.tab")?;
    let mut buf = *b"....";
    assert!(rt; disk.read_table(2, 0, &mut buf) == Err(DiskErr::Failed));
    assert!(rt; disk.tables().is_err());
    // A table takes the place of the link.
    assert!(rt; disk.put_table(2, b"abc") == Ok(()) && has_tables(disk, &[(2, 3)]));
    // A directory in which no file can be made, and a file in place of the directory.
    fs::remove_dir_all(system, "./wal")?;
    symlink(system, "/proc", "./wal")?;
    assert!(rt; disk.put_table(1, b"abc") == failed);
    fs::remove_file(system, "./wal")?;
    fs::write(system, "./wal", "a file")?;
    assert!(rt; disk.put_table(1, b"abc") == failed && disk.tables().is_err());
    fs::remove_file(system, "./wal")?;
    Ok(())
}

/// A put of two bytes, or a removal where there are none: the call that the system refuses meanwhile; then whether
/// it is done, whether the table reads so afterwards, and what was called.
struct Step(
    &'static [u8],
    Option<(Call, ErrorKind)>,
    bool,
    bool,
    &'static [Call],
);

const STEPS: &[Step] = &[
    Step(
        b"aa",
        None,
        true,
        true,
        &[
            Call::OpenFolder,
            Call::SyncParent,
            Call::Write,
            Call::SyncTable,
            Call::Rename,
            Call::SyncDirectory,
        ],
    ),
    // A table that is not written, synced and named leaves the one before as it was.
    Step(
        b"bb",
        Some((Call::Write, ErrorKind::StorageFull)),
        false,
        false,
        &[Call::Write, Call::Remove],
    ),
    Step(
        b"cc",
        Some((Call::SyncTable, ErrorKind::Other)),
        false,
        false,
        &[Call::Write, Call::SyncTable, Call::Remove],
    ),
    Step(
        b"dd",
        Some((Call::Rename, ErrorKind::PermissionDenied)),
        false,
        false,
        &[Call::Write, Call::SyncTable, Call::Rename, Call::Remove],
    ),
    // What is named may be lost until the directory is synced.
    Step(
        b"ee",
        Some((Call::SyncDirectory, ErrorKind::Other)),
        false,
        true,
        PUT,
    ),
    Step(
        b"ff",
        Some((Call::SyncDirectory, ErrorKind::Unsupported)),
        true,
        true,
        PUT,
    ),
    Step(
        b"",
        Some((Call::Remove, ErrorKind::PermissionDenied)),
        false,
        false,
        &[Call::Remove],
    ),
    Step(
        b"",
        Some((Call::SyncDirectory, ErrorKind::Other)),
        false,
        true,
        REMOVED,
    ),
    Step(b"gg", None, true, true, PUT),
    Step(b"", None, true, true, REMOVED),
];

const PUT: &[Call] = &[
    Call::Write,
    Call::SyncTable,
    Call::Rename,
    Call::SyncDirectory,
];

const REMOVED: &[Call] = &[Call::Remove, Call::SyncDirectory];

#[test]
fn a_table_is_synced_before_it_is_named(rt: HostRuntime) -> Result<(), Fail> {
    clear(&rt)?;
    let watch = Watch::new();
    let watched = Watched {
        system: &rt,
        watch: &watch,
    };
    let mut directory = Directory::new(rt.alloc());
    let taken = take_steps(&rt, &watched, &mut directory);
    drop(directory);
    taken
}

fn take_steps<'a>(
    rt: &impl Abort,
    system: &Watched<'a>,
    directory: &mut Directory<WatchedFile<'a>>,
) -> Result<(), Fail> {
    let mut stands: &[u8] = b"";
    for step in STEPS {
        system.watch.refused.set(step.1);
        system.watch.calls.set([None; CALLS_SEEN]);
        let done = if step.0.is_empty() {
            directory.remove(system, FilePlace::Table { upto: 1 })
        } else {
            directory.put_table(system, 1, step.0)
        };
        if step.3 {
            stands = step.0;
        }
        let is_as_told = done.is_ok() == step.2 && has_called(system.watch, step.4);
        assert!(rt;
            is_as_told && table_reads(system.system, stands),
            "at {:?}",
            step.0
        );
        assert!(rt;
            !fs::exists(system.system, UNNAMED_TABLE)?,
            "at {:?}",
            step.0
        );
    }
    Ok(())
}

/// Whether the first table has these bytes, or is not there where there are none.
fn table_reads(system: &HostRuntime, wanted: &[u8]) -> bool {
    match fs::read(system, "./wal/000001.tab") {
        Ok(bytes) => !wanted.is_empty() && bytes.as_slice() == wanted,
        Err(error) => wanted.is_empty() && error.kind() == ErrorKind::NotFound,
    }
}

/// Whether just these calls were seen, in this order.
fn has_called(watch: &Watch, wanted: &[Call]) -> bool {
    let calls = watch.calls.get();
    let count = calls.iter().filter(|call| call.is_some()).count();
    count == wanted.len()
        && calls
            .iter()
            .zip(wanted.iter())
            .all(|(seen, call)| *seen == Some(*call))
}

#[test]
fn a_second_disk_lists_no_tables(rt: HostRuntime) -> Result<(), Fail> {
    clear(&rt)?;
    let mut second = FileDisk::new(&rt)?;
    let kept = list_twice(&rt, &mut second);
    let alone = has_tables(&mut second, &[]);
    drop(second);
    assert!(rt; kept? && alone);
    Ok(())
}

/// Whether a disk lists its tables, and another one cannot meanwhile.
fn list_twice(system: &HostRuntime, second: &mut FileDisk<HostRuntime>) -> Result<bool, NoMemory> {
    let mut first = FileDisk::new(system)?;
    let is_first = has_tables(&mut first, &[]);
    let is_second = second.tables().is_ok();
    drop(first);
    Ok(is_first && !is_second)
}
