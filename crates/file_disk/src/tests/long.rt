//! A segment that is longer than what is read of it at once.

use super::{clear, has_listed, seg};
use crate::FileDisk;
use disk_face::{Disk, Side};
use std::alloc::Global;
use std::fs;
use std::process::Abort;
use std::test::Fail;

const LEN: usize = (3 << 20) + 5;

/// The byte at a place of the segment. No two pieces of it are alike.
fn byte_at(at: usize) -> u8 {
    ((at ^ (at >> 8) ^ (at >> 16)) & 0xff) as u8
}

#[test]
fn a_long_segment_is_listed_and_read(rt: HostRuntime) -> Result<(), Fail> {
    clear(&rt)?;
    fs::create_dir(&rt, "./wal")?;
    let bytes = long_bytes(&rt)?;
    let read = write_and_read(&rt, &rt, bytes.as_slice());
    drop(bytes);
    read
}

fn long_bytes(rt: &impl AllocGlobal) -> Result<Vec<u8>, Fail> {
    let mut bytes = Vec::with_capacity(rt.alloc(), LEN)?;
    for at in 0..LEN {
        bytes.push(byte_at(at))?;
    }
    Ok(bytes)
}

fn write_and_read(rt: &impl Abort, system: &HostRuntime, bytes: &[u8]) -> Result<(), Fail> {
    fs::write(system, "./wal/000001.log", bytes)?;
    let mut disk = FileDisk::new(system)?;
    let read = read_pieces(rt, system.alloc(), &mut disk, bytes);
    drop(disk);
    read
}

/// The whole, with room for more; from behind a mebibyte on; over several pieces; and the last bytes.
const PLACES: &[(usize, usize)] = &[
    (0, LEN + 9),
    ((1 << 20) + 7, LEN),
    ((2 << 20) - 3, 200_000),
    (LEN - 4, 4),
    (LEN - 4, 9),
    (LEN, 9),
];

fn read_pieces(
    rt: &impl Abort,
    alloc: Global,
    disk: &mut FileDisk<HostRuntime>,
    bytes: &[u8],
) -> Result<(), Fail> {
    assert!(rt; has_listed(disk, Side::Primary, &[(1, 0, LEN as u64)]));
    for (at, room) in PLACES {
        let mut buf = vec![in alloc; 0xee; *room]?;
        let is_read = reads_from(
            disk,
            bytes.get(*at..).unwrap_or(&[]),
            *at,
            buf.as_mut_slice(),
        );
        assert!(rt; is_read, "at {at}");
    }
    Ok(())
}

/// Whether a read from a place has what stands there, as far as the buffer goes, and leaves the rest of the buffer.
fn reads_from(disk: &mut FileDisk<HostRuntime>, wanted: &[u8], at: usize, buf: &mut [u8]) -> bool {
    let count = wanted.len().min(buf.len());
    let answer = disk.read(Side::Primary, seg(1, 0), at as u64, buf);
    let is_rest_left = match buf.get(count..) {
        Some(rest) => rest.iter().all(|byte| *byte == 0xee),
        None => false,
    };
    answer == Ok(count) && is_rest_left && wanted.get(..count) == buf.get(..count)
}
