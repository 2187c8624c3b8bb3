use super::{FIRST_LOG, Rig, append, check_command, log_at, record_of, rig_of, segment_of};
use crate::Status;
use disk_face::{SegName, Side};
use std::alloc::Global;
use std::test::Fail;
use wal_base::{Buf, NoMemory};

#[test]
fn segments_are_recovered(rt: HostRuntime) -> Result<(), Fail> {
    let alloc = rt.alloc();
    let first = segment_of(alloc, 1, &[(10, b'1'), (11, b'2'), (12, b'3')])?;
    let second = segment_of(alloc, 1, &[(11, b'2'), (12, b'3'), (13, b'4'), (14, b'5')])?;
    let rig = rig_of(&rt, alloc, first.as_slice(), Some(second.as_slice()))?;
    let store = "a = 5\nend batches 5 next 15\n";
    check_command(&rt, alloc, rig, &["recover"], b"", Status::Done, store)?;
    // The first segment is cut within its third chunk.
    let second = segment_of(alloc, 1, &[(11, b'2'), (12, b'3'), (13, b'4')])?;
    let first = first.as_slice().get(..70).unwrap_or(&[]);
    let rig = rig_of(&rt, alloc, first, Some(second.as_slice()))?;
    let store = "a = 4\nend batches 4 next 14\n";
    check_command(&rt, alloc, rig, &["recover"], b"", Status::Done, store)?;
    // It has zeros in the place of its third chunk.
    let mut first = segment_of(alloc, 1, &[(10, b'1'), (11, b'2')])?;
    first.append(&[0; 28])?;
    let rig = rig_of(&rt, alloc, first.as_slice(), Some(second.as_slice()))?;
    check_command(&rt, alloc, rig, &["recover"], b"", Status::Done, store)?;
    let rig = Rig::new(alloc)?;
    let store = "end batches 0 next 10\n";
    check_command(&rt, alloc, rig, &["recover"], b"", Status::Done, store)?;
    Ok(())
}

#[test]
fn segments_are_dumped(rt: HostRuntime) -> Result<(), Fail> {
    let alloc = rt.alloc();
    let mut segment = segment_of(alloc, 1, &[(10, b'1')])?;
    append(&mut segment, 7, &record_of(11, b'a', b'9'))?;
    let rig = rig_of(&rt, alloc, segment.as_slice(), None)?;
    let text =
        "segment 000001.log primary bytes 56 records 1 ends 28 torn\nbatch 10 1\nset a 1\nend batches 1 next 11\n";
    check_command(&rt, alloc, rig, &["dump"], b"", Status::Done, text)?;
    // A gap is accepted, and an empty segment and a batch without counted records are listed.
    let first = segment_of(alloc, 1, &[(10, b'1')])?;
    let mut second = segment_of(alloc, 1, &[(15, b'6')])?;
    append(&mut second, 1, b"\x09\0\0\0\0\0\0\0\0\0\0\0\x03\x01 ")?;
    let mut rig = rig_of(&rt, alloc, first.as_slice(), Some(second.as_slice()))?;
    rig.put(&rt, Side::Secondary, SegName { wal: 3, index: 0 }, b"");
    let text =
        "segment 000001.log primary bytes 28 records 1 ends 28 clean\nbatch 10 1\nset a 1\nsegment 000001-001.log secondary bytes 54 records 2 ends 54 clean\nbatch 15 1\nset a 6\nbatch 9 0\nnote \\x20\nsegment 000003.log secondary bytes 0 records 0 ends 0 clean\nend batches 2 next 16\n";
    check_command(&rt, alloc, rig, &["dump"], b"", Status::Done, text)?;
    Ok(())
}

#[test]
fn a_gap_is_dumped_and_not_recovered(rt: HostRuntime) -> Result<(), Fail> {
    let alloc = rt.alloc();
    let first = segment_of(alloc, 1, &[(10, b'1'), (11, b'2'), (12, b'3')])?;
    let second = segment_of(alloc, 1, &[(15, b'6')])?;
    let rig = rig_of(&rt, alloc, first.as_slice(), Some(second.as_slice()))?;
    let refused = "refused gap 000001-001.log expected 13 found 15\n";
    let disk = check_command(&rt, alloc, rig, &["recover"], b"", Status::Refused, refused)?;
    let rig = Rig::after_crash(&rt, alloc, disk);
    let text =
        "segment 000001.log primary bytes 84 records 3 ends 84 clean\nbatch 10 1\nset a 1\nbatch 11 1\nset a 2\nbatch 12 1\nset a 3\nsegment 000001-001.log secondary bytes 28 records 1 ends 28 clean\nbatch 15 1\nset a 6\nend batches 4 next 16\n";
    check_command(&rt, alloc, rig, &["dump"], b"", Status::Done, text)?;
    Ok(())
}

#[test]
fn directories_are_refused(rt: HostRuntime) -> Result<(), Fail> {
    let alloc = rt.alloc();
    let script = b"commit 0 nosync set a 1\n";
    let three = segment_of(alloc, 1, &[(10, b'1'), (11, b'2'), (12, b'3')])?;
    let gap = segment_of(alloc, 1, &[(15, b'6')])?;
    let conflict = segment_of(alloc, 1, &[(12, b'9')])?;
    let mut kind = Buf::new(alloc)?;
    append(&mut kind, 1, b"\x0a\0\0\0\0\0\0\0\x01\0\0\0\x02\x01a\x011")?;
    let gap_text = "refused gap 000001-001.log expected 13 found 15\n";
    let conflict_text = "refused conflict 000001-001.log 12\n";
    let kind_text = "refused batch 000001.log 0 unknown-kind 12 2\n";
    for (first, second, words, text) in [
        (&three, Some(gap.as_slice()), "recover", gap_text),
        (&three, Some(gap.as_slice()), "replay", gap_text),
        (&three, Some(conflict.as_slice()), "recover", conflict_text),
        (&three, Some(conflict.as_slice()), "dump", conflict_text),
        (&kind, None, "dump", kind_text),
    ] {
        let rig = rig_of(&rt, alloc, first.as_slice(), second)?;
        check_command(&rt, alloc, rig, &[words], script, Status::Refused, text)?;
    }
    for words in ["recover", "dump", "replay"] {
        let mut rig = rig_of(&rt, alloc, three.as_slice(), None)?;
        rig.put(
            &rt,
            Side::Secondary,
            SegName { wal: 1, index: 0 },
            three.as_slice(),
        );
        let text = "refused duplicate 000001.log\n";
        check_command(&rt, alloc, rig, &[words], script, Status::Refused, text)?;
    }
    Ok(())
}

#[test]
fn a_failing_directory_ends_a_recovery(rt: HostRuntime) -> Result<(), Fail> {
    let alloc = rt.alloc();
    for words in ["recover", "dump", "replay"] {
        let mut rig = Rig::new(alloc)?;
        rig.fail_call(&rt, 1);
        let text = "disk fault secondary\n";
        check_command(&rt, alloc, rig, &[words], b"", Status::Disk, text)?;
    }
    // The sync of a segment that was read fails.
    let mut rig = rig_of(&rt, alloc, FIRST_LOG, None)?;
    rig.fail_op(&rt, 0);
    let text = "disk fault primary\n";
    check_command(&rt, alloc, rig, &["recover"], b"", Status::Disk, text)?;
    Ok(())
}

#[test]
fn an_index_may_be_missing(rt: HostRuntime) -> Result<(), Fail> {
    let alloc = rt.alloc();
    let first = segment_of(alloc, 1, &[(10, b'1'), (11, b'2')])?;
    let third = segment_of(alloc, 1, &[(11, b'2'), (12, b'3')])?;
    let mut rig = rig_of(&rt, alloc, first.as_slice(), None)?;
    rig.put(
        &rt,
        Side::Secondary,
        SegName { wal: 1, index: 2 },
        third.as_slice(),
    );
    rig.put(&rt, Side::Primary, SegName { wal: 3, index: 0 }, b"");
    let store = "a = 3\nend batches 3 next 13\n";
    let disk = check_command(&rt, alloc, rig, &["recover"], b"", Status::Done, store)?;
    let rig = Rig::after_crash(&rt, alloc, disk);
    // The empty segment has a WAL of its own, and the log stands after it.
    let script = b"commit 0 nosync set a 4\n";
    let text = "s0 commit 13 1\nend visible 14 batches 1 acked 1 segments 1 closed\n";
    let disk = check_command(&rt, alloc, rig, &["replay"], script, Status::Done, text)?;
    assert_eq!(rt; log_at(&disk, 4).map(|log| log.len()), Some(36));
    Ok(())
}

/// A script that syncs a batch and then commits one of so many letters, which goes over a block's end.
fn two_commits(alloc: Global, letters: usize) -> Result<Buf, NoMemory> {
    let mut script = Buf::new(alloc)?;
    script.append(b"commit 0 sync set a 1\ncommit 0 sync set b ")?;
    for _ in 0..letters {
        script.append(b"v")?;
    }
    script.append(b"\n")?;
    Ok(script)
}

#[test]
fn a_chunk_shows_what_was_synced_and_is_corrupt(rt: HostRuntime) -> Result<(), Fail> {
    let alloc = rt.alloc();
    let script = two_commits(alloc, 40_000)?;
    let text = "s0 commit 10 1 synced\n\
        s0 commit 11 1 synced\n\
        end visible 12 batches 2 acked 2 segments 1 closed\n";
    let rig = Rig::new(alloc)?;
    let disk = check_command(
        &rt,
        alloc,
        rig,
        &["replay"],
        script.as_slice(),
        Status::Done,
        text,
    )?;
    let mut log = Buf::new(alloc)?;
    log.append(log_at(&disk, 1).unwrap_or(&[]))?;
    let mut wrong = Buf::new(alloc)?;
    wrong.append(&log.as_slice()[..20.min(log.as_slice().len())])?;
    wrong.append(b"\xff")?;
    wrong.append(log.as_slice().get(21..).unwrap_or(&[]))?;
    let rig = rig_of(&rt, alloc, wrong.as_slice(), None)?;
    let text = "refused corrupt 000001.log 0 32768\n";
    let disk = check_command(&rt, alloc, rig, &["recover"], b"", Status::Refused, text)?;
    let rig = Rig::after_crash(&rt, alloc, disk);
    let text =
        "segment 000001.log primary bytes 40092 records 0 ends 0 torn\nend batches 0 next 10\n";
    check_command(&rt, alloc, rig, &["dump"], b"", Status::Done, text)?;
    Ok(())
}
