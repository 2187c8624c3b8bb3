use super::{FIRST_LOG, Rig, check_command, check_crash, segment_at};
use crate::Status;
use std::alloc::Global;
use std::process::Abort;
use std::test::Fail;
use wal_base::NoMemory;

/// A disk on which the sync of each segment fails.
fn unsyncing(rt: &impl Abort, alloc: Global) -> Result<Rig, NoMemory> {
    let mut rig = Rig::new(alloc)?;
    for index in 0..10 {
        rig.fail_op(rt, 2 + 3 * index);
    }
    Ok(rig)
}

#[test]
fn a_commit_whose_syncs_fail_is_unsynced_and_the_next_is_dead(rt: HostRuntime) -> Result<(), Fail> {
    let alloc = rt.alloc();
    for (script, text) in [
        (
            "commit 0 sync set a 1\ncommit 0 nosync set b 2\nget 0 a\n",
            "s0 commit 10 1 unsynced\n\
                s0 commit dead\n\
                s0 get a = 1 @11\n\
                end visible 11 batches 1 acked 0 segments 10 dead\n",
        ),
        // A script that halts over a dead journal is dead.
        (
            "commit 0 sync set a 1\nhalt\n",
            "s0 commit 10 1 unsynced\nend visible 11 batches 1 acked 0 segments 10 dead\n",
        ),
        // So it is for each session, and in each later round.
        (
            "commit 0 sync set a 1\n\
                round\n\
                commit 2 sync set b 2\n\
                get 2 a\n\
                commit 1 nosync set c 3\n\
                round\n\
                commit 1 nosync set c 3\n\
                get 1 c\n\
                get 0 a\n",
            "s0 commit 10 1 unsynced\n\
                s1 commit dead\n\
                s2 commit dead\n\
                s2 get a = 1 @11\n\
                s0 get a = 1 @11\n\
                s1 commit dead\n\
                s1 get c none @11\n\
                end visible 11 batches 1 acked 0 segments 10 dead\n",
        ),
    ] {
        let rig = unsyncing(&rt, alloc)?;
        let disk = check_command(
            &rt,
            alloc,
            rig,
            &["replay"],
            script.as_bytes(),
            Status::Disk,
            text,
        )?;
        assert!(rt; segment_at(&disk, 0) == Some(FIRST_LOG));
        assert!(rt; segment_at(&disk, 9) == Some(FIRST_LOG));
        assert!(rt; segment_at(&disk, 10).is_none());
        check_crash(&rt, alloc, disk, "end batches 0 next 10\n")?;
    }
    Ok(())
}

#[test]
fn what_was_synced_before_a_death_stays_synced(rt: HostRuntime) -> Result<(), Fail> {
    let alloc = rt.alloc();
    // Operation 2 is the sync of the first commit, and 3 is the write of the second one.
    let mut rig = Rig::new(alloc)?;
    for number in 3..13 {
        rig.fail_op(&rt, number);
    }
    let script = b"commit 0 sync set a 1\n\
        round\n\
        commit 1 sync set a 2\n\
        round\n\
        get 0 a\n\
        commit 0 sync set a 3\n";
    let text = "s0 commit 10 1 synced\n\
        s1 commit 11 1 unsynced\n\
        s0 get a = 2 @12\n\
        s0 commit dead\n\
        end visible 12 batches 2 acked 1 segments 10 dead\n";
    let disk = check_command(&rt, alloc, rig, &["replay"], script, Status::Disk, text)?;
    check_crash(&rt, alloc, disk, "a = 1\nend batches 1 next 11\n")
}

#[test]
fn a_failing_sync_of_a_script_is_made_good_by_the_next_segment(
    rt: HostRuntime,
) -> Result<(), Fail> {
    let alloc = rt.alloc();
    let mut rig = Rig::new(alloc)?;
    rig.fail_op(&rt, 2);
    let script = b"commit 3 sync set a 1\nhalt\n";
    let text = "s3 commit 10 1 synced\nend visible 11 batches 1 acked 1 segments 2 halted\n";
    let disk = check_command(&rt, alloc, rig, &["replay"], script, Status::Done, text)?;
    check_crash(&rt, alloc, disk, "a = 1\nend batches 1 next 11\n")
}

#[test]
fn one_failing_operation_of_the_journal_changes_no_reply(rt: HostRuntime) -> Result<(), Fail> {
    let alloc = rt.alloc();
    let made_good = "s0 commit 10 1 synced\nend visible 11 batches 1 acked 1 segments 2 closed\n";
    for (first, end, text, status) in [
        (0, 1, made_good, Status::Done),
        (1, 2, made_good, Status::Done),
        (2, 3, made_good, Status::Done),
        // The sync as the journal is closed.
        (
            3,
            4,
            "s0 commit 10 1 synced\nend visible 11 batches 1 acked 1 segments 1 closed\n",
            Status::Done,
        ),
        (
            0,
            9,
            "s0 commit 10 1 synced\nend visible 11 batches 1 acked 1 segments 10 closed\n",
            Status::Done,
        ),
        (
            0,
            10,
            "s0 commit 10 1 unsynced\nend visible 11 batches 1 acked 0 segments 10 dead\n",
            Status::Disk,
        ),
    ] {
        let mut rig = Rig::new(alloc)?;
        for number in first..end {
            rig.fail_op(&rt, number);
        }
        check_command(
            &rt,
            alloc,
            rig,
            &["replay"],
            b"commit 0 sync set a 1\n",
            status,
            text,
        )?;
    }
    Ok(())
}
