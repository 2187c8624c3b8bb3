use super::{
    FIRST_LOG, Given, Rig, Told, check_command, check_crash, check_log, check_replay, check_told,
    log_at, segment_at, told_of,
};
use crate::{NoGate, Ran, Status, run};
use disk_face::{CallLog, Side};
use mem_disk::MemDisk;
use std::alloc::{AllocError, Global};
use std::process::Abort;
use std::sync::Wait;
use std::test::Fail;
use std::thread::Threads;
use test_rigs::Late;
use wal_base::NoMemory;

#[test]
fn a_script_gives_its_text(rt: HostRuntime) -> Result<(), Fail> {
    for (script, status, text) in [
        (
            "commit 0 nosync set a 1\nget 0 a\n",
            Status::Done,
            "s0 commit 10 1\ns0 get a = 1 @11\nend visible 11 batches 1 acked 1 segments 1 closed\n",
        ),
        (
            "",
            Status::Done,
            "end visible 10 batches 0 acked 0 segments 0 closed\n",
        ),
        (
            "get 0 a\ncommit 0 nosync set a 1\n# over it\n\ncommit\t0 nosync set a \\\nget 0 a\nget 0 b",
            Status::Done,
            "s0 get a none @10\ns0 commit 10 1\ns0 commit 11 1\ns0 get a = \\x5c @12\ns0 get b none @12\nend visible 12 batches 2 acked 2 segments 1 closed\n",
        ),
        ("commit 64 sync set a 1", Status::Script, "script line 1\n"),
        ("commit 0 sync note x", Status::Script, "script line 1\n"),
        ("get 0  a", Status::Script, "script line 1\n"),
        (
            "get 0 a\n\nget 0 a;\nget 0",
            Status::Script,
            "script line 3\n",
        ),
    ] {
        check_replay(&rt, rt.alloc(), script, status, text)?;
    }
    Ok(())
}

#[test]
fn a_run_leaves_its_log(rt: HostRuntime) -> Result<(), Fail> {
    let (alloc, rig) = (rt.alloc(), Rig::new(rt.alloc())?);
    let script = b"commit 0 nosync set a 1\nget 0 a\n";
    let text =
        "s0 commit 10 1\ns0 get a = 1 @11\nend visible 11 batches 1 acked 1 segments 1 closed\n";
    let log = Some(FIRST_LOG);
    check_log(&rt, alloc, rig, script, Status::Done, text, log)?;
    let rig = Rig::new(alloc)?;
    let end = "end visible 10 batches 0 acked 0 segments 0 closed\n";
    check_log(&rt, alloc, rig, b"", Status::Done, end, None)
}

/// Asserts that a run goes on with the next segment where the operation of that number fails, and what the first segment
/// then has.
fn check_next<R: Threads + Wait + Sync + Abort>(
    rt: &R,
    alloc: Global,
    number: u64,
    first: Option<&[u8]>,
) -> Result<(), Fail> {
    let script = b"commit 0 nosync set a 1\n";
    let text = "s0 commit 10 1\nend visible 11 batches 1 acked 1 segments 2 closed\n";
    let mut rig = Rig::new(alloc)?;
    rig.fail_op(rt, number);
    let disk = check_command(rt, alloc, rig, &["replay"], script, Status::Done, text)?;
    assert!(rt; segment_at(&disk, 0) == first);
    assert!(rt; segment_at(&disk, 1) == Some(FIRST_LOG));
    check_crash(rt, alloc, disk, "a = 1\nend batches 1 next 11\n")
}

#[test]
fn a_failing_segment_is_followed_by_the_next(rt: HostRuntime) -> Result<(), Fail> {
    // The creation, the write and the sync.
    check_next(&rt, rt.alloc(), 0, None)?;
    check_next(&rt, rt.alloc(), 1, Some(b""))?;
    check_next(&rt, rt.alloc(), 2, Some(FIRST_LOG))
}

const TWO_BATCHES: &[u8] = b"commit 0 nosync set a 1\ncommit 0 nosync set a 2\nget 0 a\n";

#[test]
fn ten_failing_syncs_end_the_journal(rt: HostRuntime) -> Result<(), Fail> {
    let alloc = rt.alloc();
    // The second write fails, and then the sync of each segment, so the journal dies as it is closed.
    let mut rig = Rig::new(alloc)?;
    for index in 0..10 {
        rig.fail_op(&rt, 2 + 3 * index);
    }
    let text =
        "s0 commit 10 1\ns0 commit 11 1\ns0 get a = 2 @12\nend visible 12 batches 2 acked 0 segments 10 dead\n";
    let words = &["replay"];
    let disk = check_command(&rt, alloc, rig, words, TWO_BATCHES, Status::Disk, text)?;
    check_crash(&rt, alloc, disk, "end batches 0 next 10\n")
}

#[test]
fn ten_failing_creations_end_the_journal(rt: HostRuntime) -> Result<(), Fail> {
    let alloc = rt.alloc();
    // The journal dies within the first commit.
    let mut rig = Rig::new(alloc)?;
    for number in 0..10 {
        rig.fail_op(&rt, number);
    }
    let text =
        "s0 commit 10 1\ns0 commit dead\ns0 get a = 1 @11\nend visible 11 batches 1 acked 0 segments 10 dead\n";
    let words = &["replay"];
    let disk = check_command(&rt, alloc, rig, words, TWO_BATCHES, Status::Disk, text)?;
    assert!(rt; segment_at(&disk, 0).is_none());
    Ok(())
}

/// Asserts what a run writes where the creation of segment 0 is pending so often, and what the two segments then have.
fn check_hanging<R: Threads + Wait + Sync + Abort>(
    rt: &R,
    alloc: Global,
    polls: u32,
    text: &str,
    first: &[u8],
    second: Option<&[u8]>,
) -> Result<(), Fail> {
    let mut rig = Rig::new(alloc)?;
    rig.stall(Side::Primary, polls);
    let script = b"commit 0 nosync set a 1\n";
    let disk = check_command(rt, alloc, rig, &["replay"], script, Status::Done, text)?;
    assert!(rt; segment_at(&disk, 0) == Some(first));
    assert!(rt; segment_at(&disk, 1) == second);
    Ok(())
}

#[test]
fn an_operation_hangs_from_the_third_pending_poll_on(rt: HostRuntime) -> Result<(), Fail> {
    let one = "s0 commit 10 1\nend visible 11 batches 1 acked 1 segments 1 closed\n";
    check_hanging(&rt, rt.alloc(), 2, one, FIRST_LOG, None)?;
    let two = "s0 commit 10 1\nend visible 11 batches 1 acked 1 segments 2 closed\n";
    check_hanging(&rt, rt.alloc(), 3, two, b"", Some(FIRST_LOG))
}

/// The disk after a run of three segments: the creation of segment 0 hangs, an operation of that number fails, and so many
/// polls of the other side are pending.
fn three_segments<R: Threads + Wait + Sync + Abort>(
    rt: &R,
    alloc: Global,
    fails: u64,
    hangs: u32,
) -> Result<MemDisk, Fail> {
    let mut rig = Rig::new(alloc)?;
    rig.stall(Side::Primary, 3);
    rig.stall(Side::Secondary, hangs);
    rig.fail_op(rt, fails);
    let script = b"commit 0 nosync set a 1\n";
    let text = "s0 commit 10 1\nend visible 11 batches 1 acked 1 segments 3 closed\n";
    check_command(rt, alloc, rig, &["replay"], script, Status::Done, text)
}

/// Asserts that segment 2 has the log, and segment 0 nothing.
fn check_third<R: Threads + Wait + Sync + Abort>(
    rt: &R,
    alloc: Global,
    disk: MemDisk,
) -> Result<(), Fail> {
    assert!(rt; segment_at(&disk, 0) == Some(b"".as_slice()));
    assert!(rt; segment_at(&disk, 2) == Some(FIRST_LOG));
    check_crash(rt, alloc, disk, "a = 1\nend batches 1 next 11\n")
}

#[test]
fn a_living_run_has_three_segments(rt: HostRuntime) -> Result<(), Fail> {
    let alloc = rt.alloc();
    // The creation of segment 1 fails, or hangs too and ends once segment 2 is begun.
    let disk = three_segments(&rt, alloc, 1, 0)?;
    assert!(rt; segment_at(&disk, 1).is_none());
    check_third(&rt, alloc, disk)?;
    let disk = three_segments(&rt, alloc, 1_000, 3)?;
    assert!(rt; segment_at(&disk, 1) == Some(b"".as_slice()));
    check_third(&rt, alloc, disk)
}

/// A disk on which the nine creations after the first sync fail.
fn nine_failing(rt: &impl Abort, alloc: Global) -> Result<Rig, NoMemory> {
    let mut rig = Rig::new(alloc)?;
    for number in 3..12 {
        rig.fail_op(rt, number);
    }
    Ok(rig)
}

/// What a run over a disk comes to where the sync of segment 0 hangs. In the step that finds the last of nine creations
/// failed, the sync is done at its twelfth poll.
fn tell_late<R: Threads + Wait + Sync>(rt: &R, alloc: Global, given: Given, rig: Rig) -> Told {
    let Given {
        words,
        mut source,
        mut sink,
    } = given;
    let late = Late {
        inner: rig.disk,
        op: 2,
        polls: 11,
        log: CallLog::new(),
    };
    let Ran { status, disk } = run(rt, alloc, &words, &mut source, &mut sink, late, &NoGate);
    Told {
        status,
        sink,
        disk: disk.inner,
    }
}

/// Asserts what a replay of a script of one commit writes where a late sync covers it as the journal dies.
fn check_late<R: Threads + Wait + Sync + Abort>(
    rt: &R,
    alloc: Global,
    script: &[u8],
    text: &str,
) -> Result<(), Fail> {
    let given = Given::new(alloc, &["replay"], script)?;
    let told = tell_late(rt, alloc, given, nine_failing(rt, alloc)?);
    let disk = check_told(rt, told, Status::Disk, text);
    check_crash(rt, alloc, disk, "a = 1\nend batches 1 next 11\n")
}

#[test]
fn a_late_sync_is_told_by_a_dead_run(rt: HostRuntime) -> Result<(), Fail> {
    let script = b"commit 0 nosync set a 1\n";
    let text = "s0 commit 10 1\nend visible 11 batches 1 acked 1 segments 10 dead\n";
    check_late(&rt, rt.alloc(), script, text)
}

#[test]
fn a_commit_is_synced_by_a_late_sync_though_the_journal_dies(rt: HostRuntime) -> Result<(), Fail> {
    let script = b"commit 0 sync set a 1\n";
    let text = "s0 commit 10 1 synced\nend visible 11 batches 1 acked 1 segments 10 dead\n";
    check_late(&rt, rt.alloc(), script, text)
}

#[test]
fn a_replay_goes_on_where_one_stopped(rt: HostRuntime) -> Result<(), Fail> {
    let (alloc, words) = (rt.alloc(), &["replay"]);
    let script = "commit 0 nosync set a 1\n";
    let text = "s0 commit 10 1\nend visible 11 batches 1 acked 1 segments 1 closed\n";
    let disk = check_replay(&rt, alloc, script, Status::Done, text)?;
    let rig = Rig::after_crash(&rt, alloc, disk);
    let script = b"get 0 a\ncommit 0 nosync set b 2\nget 0 b\n";
    let text =
        "s0 get a = 1 @11\ns0 commit 11 1\ns0 get b = 2 @12\nend visible 12 batches 1 acked 1 segments 1 closed\n";
    let disk = check_command(&rt, alloc, rig, words, script, Status::Done, text)?;
    let rig = Rig::after_crash(&rt, alloc, disk);
    let script = b"get 0 b\n";
    let text = "s0 get b = 2 @12\nend visible 12 batches 0 acked 0 segments 0 closed\n";
    let disk = check_command(&rt, alloc, rig, words, script, Status::Done, text)?;
    assert!(rt; log_at(&disk, 1) == Some(FIRST_LOG));
    assert_eq!(rt; log_at(&disk, 2).map(|log| log.len()), Some(36));
    assert!(rt; log_at(&disk, 3).is_none());
    check_crash(&rt, alloc, disk, "a = 1\nb = 2\nend batches 2 next 12\n")
}

/// A script of batches whose values have so many bytes.
fn script_of(alloc: Global, lens: &[usize]) -> Result<Vec<u8>, AllocError> {
    let mut script = Vec::new(alloc);
    for len in lens {
        script.extend_from_slice(b"commit 0 nosync set k ")?;
        for _ in 0..*len {
            script.push(b'v')?;
        }
        script.push(b'\n')?;
    }
    Ok(script)
}

/// The bytes at these places, where there are any.
fn bytes_at(log: &[u8], places: &[usize; 3]) -> [Option<u8>; 3] {
    places.map(|place| log.get(place).copied())
}

/// Asserts how long the log of such batches is, and which bytes stand at some places.
fn check_blocks<R: Threads + Wait + Sync + Abort>(
    rt: &R,
    alloc: Global,
    lens: &[usize],
    places: &[usize; 3],
    types: [Option<u8>; 3],
    len: usize,
) -> Result<(), Fail> {
    let disk = logged(rt, alloc, lens)?;
    let log = log_at(&disk, 1).unwrap_or(&[]);
    assert_eq!(rt; log.len(), len);
    assert!(rt; bytes_at(log, places) == types);
    Ok(())
}

/// The disk after a replay of such a script.
fn logged<R: Threads + Wait + Sync + Abort>(
    rt: &R,
    alloc: Global,
    lens: &[usize],
) -> Result<MemDisk, Fail> {
    let script = script_of(alloc, lens)?;
    let told = told_of(rt, alloc, Rig::new(alloc)?, &["replay"], &script)?;
    assert_eq!(rt; told.status, Status::Done);
    Ok(told.disk)
}

// Before its value a record has 18 bytes, or 16 where the value is short. So the first script has one record of
// 70,000 bytes, and the others one of 32,730 or 32,749 bytes and one of 17. A chunk's type is its byte 6.
#[test]
fn a_log_goes_on_in_the_next_block(rt: HostRuntime) -> Result<(), Fail> {
    let alloc = rt.alloc();
    let types = [Some(10), Some(11), Some(12)];
    check_blocks(&rt, alloc, &[69_982], &[6, 32_774, 65_542], types, 70_057)?;
    let types = [Some(9), Some(10), Some(12)];
    check_blocks(
        &rt,
        alloc,
        &[32_712, 1],
        &[6, 32_755, 32_774],
        types,
        32_804,
    )?;
    let types = [Some(9), Some(9), None];
    check_blocks(
        &rt,
        alloc,
        &[32_731, 1],
        &[6, 32_774, 32_804],
        types,
        32_804,
    )
}
