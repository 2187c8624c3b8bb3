//! Two disks in one folder, which are two runs to the system. Each answer `Failed` was counted, as `list` ensures.

use super::watched::{Call, Watch, Watched};
use super::{clear, close, count_listed, create, run};
use crate::FileDisk;
use disk_face::{Progress, Side};
use std::fs;
use std::io::ErrorKind;
use std::process::Abort;
use std::test::Fail;
use wal_base::NoMemory;

#[test]
fn a_second_disk_is_kept_out(rt: HostRuntime) -> Result<(), Fail> {
    clear(&rt)?;
    let mut second = FileDisk::new(&rt)?;
    let kept = keep_out(&rt, &rt, &mut second);
    drop(second);
    kept
}

fn keep_out(
    rt: &impl Abort,
    system: &HostRuntime,
    second: &mut FileDisk<HostRuntime>,
) -> Result<(), Fail> {
    let mut first = FileDisk::new(system)?;
    exclude(rt, system, &mut first, second);
    drop(first);
    assert!(rt; count_listed(rt, second, Side::Primary) == Some(1));
    let mut third = FileDisk::new(system)?;
    let listed = count_listed(rt, &mut third, Side::Secondary);
    drop(third);
    assert!(rt; listed.is_none());
    Ok(())
}

fn exclude(
    rt: &impl Abort,
    system: &HostRuntime,
    first: &mut FileDisk<HostRuntime>,
    second: &mut FileDisk<HostRuntime>,
) {
    // Neither directory is there, so it is the folder that is locked.
    assert!(rt; count_listed(rt, first, Side::Primary) == Some(0));
    assert!(rt; count_listed(rt, second, Side::Primary).is_none());
    assert!(rt; count_listed(rt, second, Side::Secondary).is_none());
    // What was refused has locked nothing.
    assert!(rt; count_listed(rt, first, Side::Secondary) == Some(0));
    assert!(rt; run(system, create(0)) == Ok(Progress::Done));
    assert!(rt; count_listed(rt, first, Side::Primary) == Some(1));
}

#[test]
fn folders_with_links_to_one_directory_exclude_each_other(rt: HostRuntime) -> Result<(), Fail> {
    clear(&rt)?;
    fs::create_dir(&rt, "./wal")?;
    fs::create_dir(&rt, "./wal_secondary")?;
    assert!(rt; list_elsewhere(&rt, &rt)? == [Some(0), None, Some(0)]);
    Ok(())
}

/// How many segments two disks list, the second one in a folder that leads to a directory of the first one's; then the
/// second one, when the first one is gone.
fn list_elsewhere(rt: &impl Abort, system: &HostRuntime) -> Result<[Option<usize>; 3], NoMemory> {
    let watch = Watch::new();
    watch.folder.set("./wal_secondary");
    let elsewhere = Watched {
        system,
        watch: &watch,
    };
    let mut second = FileDisk::new(&elsewhere).expect(rt, "memory");
    let both = list_both(rt, system, &mut second);
    let alone = count_listed(rt, &mut second, Side::Primary);
    close(second);
    let [first, second] = both?;
    Ok([first, second, alone])
}

fn list_both<'a>(
    rt: &impl Abort,
    system: &HostRuntime,
    second: &mut FileDisk<Watched<'a>>,
) -> Result<[Option<usize>; 2], NoMemory> {
    let mut first = FileDisk::new(system)?;
    let listed = [
        count_listed(rt, &mut first, Side::Primary),
        count_listed(rt, second, Side::Primary),
    ];
    drop(first);
    Ok(listed)
}

#[test]
fn a_lock_is_taken_once(rt: HostRuntime) -> Result<(), Fail> {
    clear(&rt)?;
    fs::create_dir(&rt, "./wal")?;
    let watch = Watch::new();
    let system = Watched {
        system: &rt,
        watch: &watch,
    };
    let mut disk = FileDisk::new(&system).expect(&rt, "memory");
    lock_once(&rt, &system, &mut disk);
    close(disk);
    Ok(())
}

fn lock_once<'a>(rt: &impl Abort, system: &Watched<'a>, disk: &mut FileDisk<Watched<'a>>) {
    let watch = system.watch;
    // Another has the folder, and then lets go of it.
    watch.refused.set(Some((Call::Lock, ErrorKind::WouldBlock)));
    assert!(rt; count_listed(rt, disk, Side::Primary).is_none());
    watch.refused.set(None);
    // The folder and the directory; nothing more at the next listing; then the other directory, once it is there.
    for side in &[Side::Primary, Side::Primary, Side::Secondary] {
        let listed = count_listed(rt, disk, *side);
        assert!(rt; listed == Some(0) && watch.locked.get() == 2, "at {side:?}");
    }
    assert!(rt; fs::create_dir(system.system, "./wal_secondary").is_ok());
    let listed = count_listed(rt, disk, Side::Secondary);
    assert!(rt; listed == Some(0) && watch.locked.get() == 3);
}

#[test]
fn a_folder_without_locks_is_listed(rt: HostRuntime) -> Result<(), Fail> {
    clear(&rt)?;
    run(&rt, create(0))?;
    let (other, denied) = (ErrorKind::Other, ErrorKind::PermissionDenied);
    let listed = [Some(1); 2];
    assert!(rt; list_twice(&rt, &rt, Call::Lock, ErrorKind::Unsupported) == listed);
    assert!(rt; list_twice(&rt, &rt, Call::Lock, other) == listed);
    assert!(rt; list_twice(&rt, &rt, Call::OpenFolder, ErrorKind::NotFound) == listed);
    assert!(rt; list_twice(&rt, &rt, Call::OpenFolder, denied) == [None; 2]);
    Ok(())
}

/// How many segments two listings of a disk have, while the system refuses a call.
fn list_twice(
    rt: &impl Abort,
    system: &HostRuntime,
    call: Call,
    kind: ErrorKind,
) -> [Option<usize>; 2] {
    let watch = Watch::new();
    watch.refused.set(Some((call, kind)));
    let watched = Watched {
        system,
        watch: &watch,
    };
    let mut disk = FileDisk::new(&watched).expect(rt, "memory");
    let first = count_listed(rt, &mut disk, Side::Primary);
    let second = count_listed(rt, &mut disk, Side::Primary);
    close(disk);
    [first, second]
}
