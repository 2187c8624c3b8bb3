//! What no clause can say of the files. A test that owns a disk or a directory works on it through a `&mut`, and lets
//! go of it by `drop` or `close`: at each early return of an owner a check would go through all the parts that are let go.

use crate::directory::Directory;
use crate::{FileDisk, LockFiles};
use disk_face::{Disk, DiskErr, DiskOp, Names, Progress, SegName, Side};
use std::io::ErrorKind;
use std::os::unix::fs::symlink;
use std::process::Abort;
use std::rt::Files;
use std::test::Fail;
use std::{fs, io};
use wal_base::NoMemory;
use watched::{Call, Watch, Watched, WatchedFile};

mod listings;
mod locks;
mod long;
mod tables;
mod watched;

/// Starts an operation on a disk of its own, and asks once how it stands.
fn run(rt: &HostRuntime, op: DiskOp<'_>) -> Result<Progress, NoMemory> {
    let mut disk = FileDisk::new(rt)?;
    let progress = match disk.start(op) {
        Ok(id) => Ok(disk.poll(id)),
        Err(error) => Err(error),
    };
    drop(disk);
    progress
}

/// Takes away what an earlier test left in this folder.
fn clear(rt: &HostRuntime) -> io::Result<()> {
    for directory in ["./wal", "./wal_secondary"] {
        if fs::exists(rt, directory)? {
            fs::remove_dir_all(rt, directory)?;
        }
    }
    Ok(())
}

fn seg(wal: u64, index: u32) -> SegName {
    SegName { wal, index }
}

/// Whether a listing has just these, as WAL, index and length.
fn are_listed(names: &Names, wanted: &[(u64, u32, u64)]) -> bool {
    let listed = names.as_slice();
    listed.len() == wanted.len()
        && listed.iter().zip(wanted.iter()).all(|(item, (wal, index, len))| {
            item.name.wal == *wal && item.name.index == *index && item.len == *len
        })
}

/// Whether a disk lists just these.
fn has_listed<R: LockFiles + AllocGlobal + Clone + Drop>(
    disk: &mut FileDisk<R>,
    side: Side,
    wanted: &[(u64, u32, u64)],
) -> bool {
    match disk.list(side) {
        Ok(names) => are_listed(&names, wanted),
        Err(_) => false,
    }
}

/// Whether a disk of its own lists just these.
fn lists<R: LockFiles + AllocGlobal + Clone + Drop>(
    rt: &R,
    side: Side,
    wanted: &[(u64, u32, u64)],
) -> Result<bool, NoMemory> {
    let mut disk = FileDisk::new(rt)?;
    let listed = has_listed(&mut disk, side, wanted);
    drop(disk);
    Ok(listed)
}

/// Lets go of a disk. `drop` alone is not covered by the check where the runtime has a lifetime.
fn close<R: LockFiles + AllocGlobal + Clone + Drop>(disk: FileDisk<R>) {
    drop(disk);
}

/// How many segments a listing has, or `None` where it was refused. With it a test that has several disks makes no early
/// return.
fn count_listed<R: LockFiles + AllocGlobal + Clone + Drop>(
    rt: &impl Abort,
    disk: &mut FileDisk<R>,
    side: Side,
) -> Option<usize> {
    match disk.list(side) {
        Ok(names) => Some(names.len()),
        Err(DiskErr::Failed) => None,
        Err(DiskErr::NoMemory) => panic!(rt; "memory"),
    }
}

#[test]
fn segments_are_kept_in_files(rt: HostRuntime) -> Result<(), Fail> {
    clear(&rt)?;
    let mut disk = FileDisk::new(&rt)?;
    let kept = keep_segments(&rt, &rt, &mut disk);
    drop(disk);
    kept
}

fn keep_segments(
    rt: &impl Abort,
    system: &HostRuntime,
    disk: &mut FileDisk<HostRuntime>,
) -> Result<(), Fail> {
    assert!(rt; has_listed(disk, Side::Primary, &[]));
    assert!(rt; reads(disk, 0, 0, b"........"));
    run_each(rt, system)?;
    fs::write(system, "./wal/notes.txt", "a note")?;
    fs::create_dir(system, "./wal/000003.log")?;
    let listed = [(1, 0, 5), (2, 0, 0), (2, 1, 0), (10, 0, 0)];
    assert!(rt; has_listed(disk, Side::Primary, &listed));
    assert!(rt; has_listed(disk, Side::Secondary, &[]));
    assert!(rt; reads(disk, 0, 5, b"abcde...") && reads(disk, 3, 2, b"de......"));
    assert!(rt; reads(disk, 5, 0, b"........"));
    let mut two = *b"..";
    let count = disk.read(Side::Primary, seg(1, 0), 1, &mut two);
    assert!(rt; count == Ok(2) && two == *b"bc");
    Ok(())
}

/// Whether a read from a place of the first segment answers this count, and leaves this of eight dots.
fn reads(disk: &mut FileDisk<HostRuntime>, at: u64, count: usize, bytes: &[u8; 8]) -> bool {
    let mut buf = *b"........";
    disk.read(Side::Primary, seg(1, 0), at, &mut buf) == Ok(count) && buf == *bytes
}

/// Fills a segment, and makes others; each operation runs on a disk of its own.
fn run_each(rt: &impl Abort, system: &HostRuntime) -> Result<(), NoMemory> {
    let (done, failed) = (Progress::Done, Progress::Failed);
    end_each(
        rt,
        system,
        &[create(0), append(b"ab"), append(b"cde"), sync(0)],
        done,
    )?;
    // Its count rose, as `poll` ensures of each `Failed`.
    end_each(rt, system, &[create(0), sync_of(2, 0)], failed)?;
    end_each(
        rt,
        system,
        &[create_of(10, 0), create_of(2, 1), create_of(2, 0)],
        done,
    )
}

/// Runs operations that end so, each on a disk of its own.
fn end_each(
    rt: &impl Abort,
    system: &HostRuntime,
    ops: &[DiskOp<'_>],
    progress: Progress,
) -> Result<(), NoMemory> {
    for op in ops {
        let ended = run(system, *op)?;
        assert!(rt; ended == progress, "at {op:?}");
    }
    Ok(())
}

/// Does an operation in a directory, and answers whether the system did it.
fn operate<R: Files>(
    rt: &R,
    directory: &mut Directory<R::File>,
    op: DiskOp<'_>,
) -> Result<bool, NoMemory> {
    let number = directory.begin(op)?;
    match directory.end(number) {
        Some(started) => Ok(directory.run(rt, started).is_ok()),
        None => Ok(false),
    }
}

const fn create_of(wal: u64, index: u32) -> DiskOp<'static> {
    DiskOp::Create {
        side: Side::Primary,
        name: SegName { wal, index },
    }
}

const fn create(index: u32) -> DiskOp<'static> {
    create_of(1, index)
}

const fn write_of(index: u32, bytes: &'static [u8]) -> DiskOp<'static> {
    DiskOp::Write {
        side: Side::Primary,
        name: SegName { wal: 1, index },
        bytes,
    }
}

const fn append(bytes: &'static [u8]) -> DiskOp<'static> {
    write_of(0, bytes)
}

const fn write(index: u32) -> DiskOp<'static> {
    write_of(index, b"abc")
}

const fn sync_of(wal: u64, index: u32) -> DiskOp<'static> {
    DiskOp::Sync {
        side: Side::Primary,
        name: SegName { wal, index },
    }
}

const fn sync(index: u32) -> DiskOp<'static> {
    sync_of(1, index)
}

/// What a step does to a segment of the first WAL.
#[derive(Clone, Copy)]
enum Act {
    Create,
    Write,
    Sync,
}

/// A step of a directory: what it does, to which segment, and the call that the system refuses meanwhile; then whether it
/// is done, how many files it opens, and how often it syncs the parent.
struct Step(Act, u32, Option<(Call, ErrorKind)>, bool, [u32; 2]);

impl Step {
    fn op(&self) -> DiskOp<'static> {
        match self.0 {
            Act::Create => create(self.1),
            Act::Write => write(self.1),
            Act::Sync => sync(self.1),
        }
    }
}

/// Takes steps in a directory that holds no segment open yet.
fn take(rt: &impl Abort, system: &HostRuntime, steps: &[Step]) -> Result<(), NoMemory> {
    let watch = Watch::new();
    let watched = Watched {
        system,
        watch: &watch,
    };
    let mut directory = Directory::new(system.alloc());
    let taken = take_each(rt, &watched, &mut directory, steps);
    drop(directory);
    taken
}

fn take_each<'a>(
    rt: &impl Abort,
    system: &Watched<'a>,
    directory: &mut Directory<WatchedFile<'a>>,
    steps: &[Step],
) -> Result<(), NoMemory> {
    for step in steps {
        let watch = system.watch;
        watch.refused.set(step.2);
        watch.opened.set(0);
        watch.parent_syncs.set(0);
        let op = step.op();
        let is_done = operate(system, directory, op)?;
        let seen = [watch.opened.get(), watch.parent_syncs.get()];
        assert!(rt; is_done == step.3 && seen == step.4, "at {op:?}");
    }
    Ok(())
}

const FULL: Option<(Call, ErrorKind)> = Some((Call::Write, ErrorKind::StorageFull));

const BROKEN: Option<(Call, ErrorKind)> = Some((Call::SyncSegment, ErrorKind::Other));

const KEPT_OPEN: &[Step] = &[
    // The parent, the segment, and its directory.
    Step(Act::Create, 0, None, true, [3, 1]),
    Step(Act::Write, 0, None, true, [0, 0]),
    Step(Act::Sync, 0, None, true, [0, 0]),
    // What was refused is let go.
    Step(Act::Write, 0, FULL, false, [0, 0]),
    Step(Act::Write, 0, None, true, [1, 0]),
    Step(Act::Sync, 0, BROKEN, false, [0, 0]),
    // Nor is a sync done that is refused of a segment that is not held.
    Step(Act::Sync, 0, BROKEN, false, [1, 0]),
    // What is only synced is not held.
    Step(Act::Sync, 0, None, true, [1, 0]),
    Step(Act::Write, 0, None, true, [1, 0]),
    Step(Act::Create, 2, None, true, [2, 0]),
    Step(Act::Write, 2, None, true, [0, 0]),
    Step(Act::Sync, 0, None, true, [1, 0]),
    Step(Act::Write, 2, None, true, [0, 0]),
    // What is written is held in place of another segment.
    Step(Act::Write, 0, None, true, [1, 0]),
    Step(Act::Write, 2, None, true, [1, 0]),
];

#[test]
fn a_segment_stays_open(rt: HostRuntime) -> Result<(), Fail> {
    clear(&rt)?;
    take(&rt, &rt, KEPT_OPEN)?;
    // Each write that is done stands whole, though the system took two bytes at a time.
    assert!(rt; lists(&rt, Side::Primary, &[(1, 0, 12), (1, 2, 9)])?);
    Ok(())
}

const NAMED: &[Step] = &[
    // The directory is there from the first creation on, and its name is owed until its parent is synced.
    Step(
        Act::Create,
        0,
        Some((Call::SyncParent, ErrorKind::Other)),
        false,
        [1, 0],
    ),
    Step(
        Act::Create,
        0,
        Some((Call::SyncParent, ErrorKind::PermissionDenied)),
        false,
        [1, 0],
    ),
    Step(Act::Create, 0, None, true, [3, 1]),
    Step(Act::Create, 1, None, true, [2, 0]),
    Step(
        Act::Create,
        2,
        Some((Call::SyncDirectory, ErrorKind::Other)),
        false,
        [2, 0],
    ),
    Step(
        Act::Create,
        3,
        Some((Call::SyncDirectory, ErrorKind::InvalidInput)),
        true,
        [2, 0],
    ),
    Step(
        Act::Create,
        4,
        Some((Call::SyncDirectory, ErrorKind::Unsupported)),
        true,
        [2, 0],
    ),
];

#[test]
fn new_names_are_synced(rt: HostRuntime) -> Result<(), Fail> {
    clear(&rt)?;
    take(&rt, &rt, NAMED)?;
    Ok(())
}

const THERE: &[Step] = &[
    Step(Act::Create, 0, None, true, [3, 1]),
    Step(Act::Create, 1, None, true, [2, 0]),
];

const NO_INPUT: &[Step] = &[
    Step(
        Act::Create,
        2,
        Some((Call::SyncParent, ErrorKind::InvalidInput)),
        true,
        [3, 0],
    ),
    Step(Act::Create, 3, None, true, [2, 0]),
];

const NOT_SUPPORTED: &[Step] = &[
    Step(
        Act::Create,
        4,
        Some((Call::SyncParent, ErrorKind::Unsupported)),
        true,
        [3, 0],
    ),
    Step(Act::Create, 5, None, true, [2, 0]),
];

#[test]
fn the_name_of_a_directory_that_is_there_is_synced(rt: HostRuntime) -> Result<(), Fail> {
    clear(&rt)?;
    fs::create_dir(&rt, "./wal")?;
    take(&rt, &rt, THERE)?;
    take(&rt, &rt, NO_INPUT)?;
    take(&rt, &rt, NOT_SUPPORTED)?;
    Ok(())
}

// Each of these answers was counted, as the contract of a disk says.
#[test]
fn a_refusal_is_a_failure(rt: HostRuntime) -> Result<(), Fail> {
    clear(&rt)?;
    let mut disk = FileDisk::new(&rt)?;
    let refused = refuse_segments(&rt, &rt, &mut disk);
    drop(disk);
    refused
}

fn refuse_segments(
    rt: &impl Abort,
    system: &HostRuntime,
    disk: &mut FileDisk<HostRuntime>,
) -> Result<(), Fail> {
    // A directory in place of a segment, and a link to a full device, are passed over by a listing.
    fs::create_dir(system, "./wal")?;
    fs::create_dir(system, "./wal/000001.log")?;
    symlink(system, "/dev/full", "./wal/000001-001.log")?;
    let failed = Progress::Failed;
    end_each(
        rt,
        system,
        &[create(0), write(0), create(1), write(1)],
        failed,
    )?;
    assert!(rt; has_listed(disk, Side::Primary, &[]));

    // A link that leads nowhere.
    symlink(system, "./nowhere", "./wal/000001-002.log")?;
    end_each(rt, system, &[create(2), write(2), sync(2)], failed)?;
    assert!(rt; fails_to_read(disk, 0) && fails_to_read(disk, 2));
    assert!(rt; count_listed(rt, disk, Side::Primary).is_none());
    refuse_directories(rt, system, disk)
}

fn fails_to_read(disk: &mut FileDisk<HostRuntime>, index: u32) -> bool {
    let mut buf = *b"...";
    disk.read(Side::Primary, seg(1, index), 0, &mut buf) == Err(DiskErr::Failed)
}

/// A file, or a link that leads nowhere, in place of a directory.
fn refuse_directories(
    rt: &impl Abort,
    system: &HostRuntime,
    disk: &mut FileDisk<HostRuntime>,
) -> Result<(), Fail> {
    fs::write(system, "./wal_secondary", "a file")?;
    refuse_secondary(rt, system, disk)?;
    fs::remove_file(system, "./wal_secondary")?;
    symlink(system, "./nowhere", "./wal_secondary")?;
    refuse_secondary(rt, system, disk)?;
    fs::remove_file(system, "./wal_secondary")?;
    Ok(())
}

fn refuse_secondary(
    rt: &impl Abort,
    system: &HostRuntime,
    disk: &mut FileDisk<HostRuntime>,
) -> Result<(), NoMemory> {
    let (side, name) = (Side::Secondary, seg(1, 0));
    end_each(
        rt,
        system,
        &[DiskOp::Create { side, name }],
        Progress::Failed,
    )?;
    assert!(rt; count_listed(rt, disk, side).is_none());
    Ok(())
}
