use super::{
    Rig, append_sync, check_command, check_crash, check_replay, log_at, record_of, tail_of,
};
use crate::Status;
use disk_face::{SegName, Side};
use mem_disk::MemDisk;
use std::alloc::Global;
use std::process::Abort;
use std::sync::Wait;
use std::test::Fail;
use std::thread::Threads;
use wal_base::{Buf, NoMemory};

#[test]
fn a_halt_leaves_what_a_sync_covered(rt: HostRuntime) -> Result<(), Fail> {
    let none = "end batches 0 next 10\n";
    let one = "a = 1\nend batches 1 next 11\n";
    for (script, text, store) in [
        (
            "halt\n",
            "end visible 10 batches 0 acked 0 segments 0 halted\n",
            none,
        ),
        (
            "# at once\n\nhalt\n\n# nothing more",
            "end visible 10 batches 0 acked 0 segments 0 halted\n",
            none,
        ),
        (
            "commit 0 sync set a 1\nhalt\n",
            "s0 commit 10 1 synced\nend visible 11 batches 1 acked 1 segments 1 halted\n",
            one,
        ),
        (
            "commit 0 sync set a 1\nround\ncommit 1 nosync set b 2\nget 1 b\nhalt\n",
            "s0 commit 10 1 synced\n\
                s1 commit 11 1\n\
                s1 get b = 2 @12\n\
                end visible 12 batches 2 acked 1 segments 1 halted\n",
            one,
        ),
        // Its creation is not done.
        (
            "stall p 3\ncommit 0 nosync set a 1\nhalt\n",
            "s0 commit 10 1\nend visible 11 batches 1 acked 0 segments 1 halted\n",
            none,
        ),
        // The second segment is synced, and the creation of the first one still hangs.
        (
            "stall p 60\ncommit 0 sync set a 1\nhalt\n",
            "s0 commit 10 1 synced\nend visible 11 batches 1 acked 1 segments 2 halted\n",
            one,
        ),
        // Nothing is stalled where nothing is polled.
        (
            "stall p 60\nround\nstall s 60\nhalt\n",
            "end visible 10 batches 0 acked 0 segments 0 halted\n",
            none,
        ),
    ] {
        let disk = check_replay(&rt, rt.alloc(), script, Status::Done, text)?;
        check_crash(&rt, rt.alloc(), disk, store)?;
    }
    Ok(())
}

#[test]
fn a_replay_goes_on_where_a_halted_one_crashed(rt: HostRuntime) -> Result<(), Fail> {
    let alloc = rt.alloc();
    let script = "commit 0 sync set a 1\ncommit 0 nosync set a 2\nhalt\n";
    let text = "s0 commit 10 1 synced\n\
        s0 commit 11 1\n\
        end visible 12 batches 2 acked 1 segments 1 halted\n";
    let disk = check_replay(&rt, alloc, script, Status::Done, text)?;
    let rig = Rig::after_crash(&rt, alloc, disk);
    let script = b"get 0 a\ncommit 0 nosync set a 3\nround\nget 1 a\n";
    let text = "s0 get a = 1 @11\n\
        s0 commit 11 1\n\
        s1 get a = 3 @12\n\
        end visible 12 batches 1 acked 1 segments 1 closed\n";
    let disk = check_command(&rt, alloc, rig, &["replay"], script, Status::Done, text)?;
    assert_eq!(rt; log_at(&disk, 1).map(|log| log.len()), Some(36));
    assert_eq!(rt; log_at(&disk, 2).map(|log| log.len()), Some(36));
    check_crash(&rt, alloc, disk, "a = 3\nend batches 2 next 12\n")
}

/// The log of three batches, which set `a` to `1`, `b` to `2` and `c` to `3`. So many bytes were synced as the third was
/// written.
fn three_batches(alloc: Global, synced: u64) -> Result<Buf, NoMemory> {
    let mut log = Buf::new(alloc)?;
    for (first, key, digit, offset) in [
        (10, b'a', b'1', 0),
        (11, b'b', b'2', 0),
        (12, b'c', b'3', synced),
    ] {
        append_sync(&mut log, 1, offset, &record_of(first, key, digit))?;
    }
    Ok(log)
}

/// Bytes from one place to another.
fn part(log: &Buf, from: usize, to: usize) -> &[u8] {
    log.as_slice().get(from..to).unwrap_or(&[])
}

/// Bytes from a place on, with another byte at a place of the whole.
fn changed(alloc: Global, log: &Buf, from: usize, at: usize) -> Result<Buf, NoMemory> {
    let mut bytes = Buf::new(alloc)?;
    bytes.append(part(log, from, at))?;
    bytes.append(b"\xff")?;
    bytes.append(part(log, at.saturating_add(1), log.as_slice().len()))?;
    Ok(bytes)
}

/// What is recovered of the first batches of the three.
fn store_of(batches: usize) -> &'static str {
    match batches {
        0 => "end batches 0 next 10\n",
        1 => "a = 1\nend batches 1 next 11\n",
        2 => "a = 1\nb = 2\nend batches 2 next 12\n",
        _ => "a = 1\nb = 2\nc = 3\nend batches 3 next 13\n",
    }
}

/// Asserts that this log was sent, and how many of them are recovered once a crash left a tail after the stable
/// bytes. The crash meets the premise on checksums.
fn check_tail<R: Threads + Wait + Sync + Abort>(
    rt: &R,
    alloc: Global,
    disk: MemDisk,
    sent: &Buf,
    tail: &[u8],
    batches: usize,
) -> Result<(), Fail> {
    let name = SegName { wal: 1, index: 0 };
    assert!(rt; disk.sent(Side::Primary, name) == Some(sent.as_slice()));
    let pick = tail_of(alloc, tail)?;
    assert!(rt; disk.chance_free(&pick)?);
    let rig = Rig::after(rt, disk, &pick);
    let store = store_of(batches);
    check_command(rt, alloc, rig, &["recover"], b"", Status::Done, store)?;
    Ok(())
}

#[test]
fn a_crash_leaves_a_front_of_what_was_not_synced(rt: HostRuntime) -> Result<(), Fail> {
    let alloc = rt.alloc();
    let script =
        "commit 0 nosync set a 1\ncommit 0 nosync set b 2\ncommit 0 nosync set c 3\nhalt\n";
    let text = "s0 commit 10 1\n\
        s0 commit 11 1\n\
        s0 commit 12 1\n\
        end visible 13 batches 3 acked 0 segments 1 halted\n";
    let log = three_batches(alloc, 0)?;
    let wrong = changed(alloc, &log, 0, 40)?;
    for (tail, batches) in [
        (part(&log, 0, 108), 3),
        (part(&log, 0, 107), 2),
        (part(&log, 0, 72), 2),
        (part(&log, 0, 36), 1),
        (b"".as_slice(), 0),
        (wrong.as_slice(), 1),
    ] {
        let disk = check_replay(&rt, alloc, script, Status::Done, text)?;
        check_tail(&rt, alloc, disk, &log, tail, batches)?;
    }
    Ok(())
}

/// The disk after a script of which the first two batches were synced, and the third was not.
fn two_synced<R: Threads + Wait + Sync + Abort>(rt: &R, alloc: Global) -> Result<MemDisk, Fail> {
    let script = "commit 0 nosync set a 1\ncommit 0 sync set b 2\ncommit 0 nosync set c 3\nhalt\n";
    let text = "s0 commit 10 1\n\
        s0 commit 11 1 synced\n\
        s0 commit 12 1\n\
        end visible 13 batches 3 acked 2 segments 1 halted\n";
    check_replay(rt, alloc, script, Status::Done, text)
}

/// Asserts how many of those batches are recovered of their log, where a crash leaves this tail after what is stable.
fn check_left<R: Threads + Wait + Sync + Abort>(
    rt: &R,
    alloc: Global,
    log: &Buf,
    tail: &[u8],
    batches: usize,
) -> Result<(), Fail> {
    let disk = two_synced(rt, alloc)?;
    check_tail(rt, alloc, disk, log, tail, batches)
}

#[test]
fn a_crash_leaves_all_that_was_synced(rt: HostRuntime) -> Result<(), Fail> {
    let alloc = rt.alloc();
    let log = three_batches(alloc, 72)?;
    let wrong = changed(alloc, &log, 72, 107)?;
    check_left(&rt, alloc, &log, part(&log, 72, 108), 3)?;
    check_left(&rt, alloc, &log, part(&log, 72, 107), 2)?;
    check_left(&rt, alloc, &log, b"", 2)?;
    check_left(&rt, alloc, &log, b"\0\0\0\0\0\0\0\0\0\0\0\0", 2)?;
    check_left(&rt, alloc, &log, wrong.as_slice(), 2)?;
    // Where the tail has a whole chunk of another place, the premise is not met.
    let disk = two_synced(&rt, alloc)?;
    let pick = tail_of(alloc, part(&log, 0, 36))?;
    assert!(rt; !disk.chance_free(&pick)?);
    Ok(())
}
