use super::{Rig, check_command, check_crash, check_replay, segment_at, written_of};
use crate::Status;
use disk_face::Side;
use std::test::Fail;

#[test]
fn the_third_pending_poll_begins_the_next_segment(rt: HostRuntime) -> Result<(), Fail> {
    let alloc = rt.alloc();
    // What stands before and after the number of polls, the text up to the number of segments, and how many there are
    // with two polls and with three. First the creation is stalled, then it is a write, and then the closing sync.
    for (before, after, text, two, three) in [
        (
            "stall p ",
            "\ncommit 0 sync set a 1\n",
            "s0 commit 10 1 synced\nend visible 11 batches 1 acked 1 segments ",
            1,
            2,
        ),
        (
            "commit 0 sync set a 1\nround\nstall p ",
            "\ncommit 0 sync set b 2\n",
            "s0 commit 10 1 synced\n\
                s0 commit 11 1 synced\n\
                end visible 12 batches 2 acked 2 segments ",
            1,
            2,
        ),
        (
            "commit 0 nosync set a 1\nround\nstall p ",
            "\n",
            "s0 commit 10 1\nend visible 11 batches 1 acked 1 segments ",
            1,
            2,
        ),
        // The log has moved to the other side.
        (
            "stall p 3\ncommit 0 sync set a 1\nround\nstall s ",
            "\ncommit 0 sync set b 2\n",
            "s0 commit 10 1 synced\n\
                s0 commit 11 1 synced\n\
                end visible 12 batches 2 acked 2 segments ",
            2,
            3,
        ),
        // The other side is stalled, and not polled.
        (
            "stall s ",
            "\ncommit 0 sync set a 1\n",
            "s0 commit 10 1 synced\nend visible 11 batches 1 acked 1 segments ",
            1,
            1,
        ),
        // The polls of two lines are added.
        (
            "stall p 1\nstall p ",
            "\nstall s 1\ncommit 0 sync set a 1\n",
            "s0 commit 10 1 synced\nend visible 11 batches 1 acked 1 segments ",
            2,
            2,
        ),
        // No step is made between two rounds, so polls are left for the next one.
        (
            "stall p ",
            "\ncommit 0 nosync set a 1\nround\ncommit 1 nosync set b 2\nround\nget 0 b\n",
            "s0 commit 10 1\n\
                s1 commit 11 1\n\
                s0 get b = 2 @12\n\
                end visible 12 batches 2 acked 2 segments ",
            1,
            2,
        ),
    ] {
        for (polls, segments) in [(2, two), (3, three)] {
            let script = format!(in alloc; "{before}{polls}{after}")?;
            let text = format!(in alloc; "{text}{segments} closed\n")?;
            check_replay(&rt, alloc, script.as_str(), Status::Done, text.as_str())?;
        }
    }
    Ok(())
}

#[test]
fn one_stalled_poll_begins_no_segment(rt: HostRuntime) -> Result<(), Fail> {
    let script = "stall p 1\ncommit 0 sync set a 1\n";
    let text = "s0 commit 10 1 synced\nend visible 11 batches 1 acked 1 segments 1 closed\n";
    check_replay(&rt, rt.alloc(), script, Status::Done, text)?;
    Ok(())
}

#[test]
fn the_log_moves_to_and_fro_from_round_to_round(rt: HostRuntime) -> Result<(), Fail> {
    let alloc = rt.alloc();
    let script = "stall p 3\n\
        commit 0 sync set a 1\n\
        round\n\
        stall s 2\n\
        commit 1 sync set a 2\n\
        round\n\
        stall s 3\n\
        commit 0 sync set a 3\n\
        round\n\
        get 0 a\n\
        round\n\
        stall p 3\n\
        stall s 2\n\
        commit 1 sync set a 4\n";
    let text = "s0 commit 10 1 synced\n\
        s1 commit 11 1 synced\n\
        s0 commit 12 1 synced\n\
        s0 get a = 3 @13\n\
        s1 commit 13 1 synced\n\
        end visible 14 batches 4 acked 4 segments 4 closed\n";
    let disk = check_replay(&rt, alloc, script, Status::Done, text)?;
    // Each segment begins with what was not synced as it was begun, and an operation that hung is done in the end.
    let second = written_of(alloc, 1, &[(10, b'1', 0), (11, b'2', 36), (12, b'3', 72)])?;
    let third = written_of(alloc, 1, &[(12, b'3', 0), (13, b'4', 36)])?;
    let fourth = written_of(alloc, 1, &[(13, b'4', 0)])?;
    assert!(rt; segment_at(&disk, 0) == Some(b"".as_slice()));
    assert!(rt; segment_at(&disk, 1) == Some(second.as_slice()));
    assert!(rt; segment_at(&disk, 2) == Some(third.as_slice()));
    assert!(rt; segment_at(&disk, 3) == Some(fourth.as_slice()));
    check_crash(&rt, alloc, disk, "a = 4\nend batches 4 next 14\n")
}

#[test]
fn the_tenth_segment_waits(rt: HostRuntime) -> Result<(), Fail> {
    let alloc = rt.alloc();
    let script = "stall p 60\nstall s 60\ncommit 0 sync set a 1\n";
    let text = "s0 commit 10 1 synced\nend visible 11 batches 1 acked 1 segments 10 closed\n";
    let disk = check_replay(&rt, alloc, script, Status::Done, text)?;
    let one = written_of(alloc, 1, &[(10, b'1', 0)])?;
    assert!(rt; segment_at(&disk, 9) == Some(one.as_slice()));
    check_crash(&rt, alloc, disk, "a = 1\nend batches 1 next 11\n")
}

#[test]
fn a_script_adds_to_the_polls_that_the_disk_was_left(rt: HostRuntime) -> Result<(), Fail> {
    let alloc = rt.alloc();
    for (polls, text) in [
        (
            1,
            "s0 commit 10 1 synced\nend visible 11 batches 1 acked 1 segments 1 closed\n",
        ),
        (
            2,
            "s0 commit 10 1 synced\nend visible 11 batches 1 acked 1 segments 2 closed\n",
        ),
    ] {
        let mut rig = Rig::new(alloc)?;
        rig.stall(Side::Primary, polls);
        let script = b"stall p 1\ncommit 0 sync set a 1\n";
        check_command(&rt, alloc, rig, &["replay"], script, Status::Done, text)?;
    }
    Ok(())
}
