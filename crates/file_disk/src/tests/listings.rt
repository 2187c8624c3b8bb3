//! Directories that fail, and that tell odd names. Each answer `Failed` was counted, as `list` ensures.

use super::watched::{Call, Watch, Watched};
use super::{clear, close, count_listed, create, end_each, lists};
use crate::FileDisk;
use disk_face::{Progress, Side};
use std::fs;
use std::io::ErrorKind;
use std::process::Abort;
use std::test::Fail;
use wal_base::NoMemory;

// The system's numbers: no entry, an error of the device, a name that is too long.
const ENOENT: i32 = 2;

const EIO: i32 = 5;

const ENAMETOOLONG: i32 = 36;

#[test]
fn a_listing_that_fails_in_its_middle_is_a_fault(rt: HostRuntime) -> Result<(), Fail> {
    clear(&rt)?;
    end_each(&rt, &rt, &[create(1), create(0)], Progress::Done)?;
    let watch = Watch::new();
    let system = Watched {
        system: &rt,
        watch: &watch,
    };
    let mut disk = FileDisk::new(&system).expect(&rt, "memory");
    fail_in_the_middle(&rt, &watch, &mut disk);
    close(disk);
    Ok(())
}

fn fail_in_the_middle<'a>(rt: &impl Abort, watch: &Watch, disk: &mut FileDisk<Watched<'a>>) {
    for number in &[ENOENT, EIO, ENAMETOOLONG] {
        watch.names_end.set(Some(*number));
        assert!(rt;
            count_listed(rt, disk, Side::Primary).is_none(),
            "at {number}"
        );
    }
    watch.names_end.set(None);
    // A segment that is gone when its length is asked for.
    for kind in &[ErrorKind::NotFound, ErrorKind::InvalidFilename] {
        watch.refused.set(Some((Call::Metadata, *kind)));
        assert!(rt;
            count_listed(rt, disk, Side::Primary).is_none(),
            "at {kind:?}"
        );
    }
    watch.refused.set(None);
    assert!(rt; count_listed(rt, disk, Side::Primary) == Some(2));
}

#[test]
fn a_listing_has_each_segment_once(rt: HostRuntime) -> Result<(), Fail> {
    clear(&rt)?;
    let ops = [create(2), create(0), create(3), create(1)];
    end_each(&rt, &rt, &ops, Progress::Done)?;
    fs::write(&rt, "./wal/000001-002.log", "abc")?;
    let listed = [(1, 0, 0), (1, 1, 0), (1, 2, 3), (1, 3, 0)];
    assert!(rt; list_odd_names(&rt, &listed)?);
    Ok(())
}

/// Whether just these are listed of a directory that tells two names again, and one that is not text.
fn list_odd_names(system: &HostRuntime, wanted: &[(u64, u32, u64)]) -> Result<bool, NoMemory> {
    let watch = Watch::new();
    watch
        .first_names
        .set(b"000001-002.log\0\xff.log\x00000001.log\0");
    let watched = Watched {
        system,
        watch: &watch,
    };
    lists(&watched, Side::Primary, wanted)
}
