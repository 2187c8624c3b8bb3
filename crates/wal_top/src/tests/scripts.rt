use super::{Rig, check_command, check_crash, check_replay, log_at, segment_at, written_of};
use crate::Status;
use std::test::Fail;

#[test]
fn the_sessions_of_a_round_answer_by_their_numbers(rt: HostRuntime) -> Result<(), Fail> {
    for (script, text) in [
        // The lines of a session keep their order, and a later round waits for an earlier one.
        (
            "get 63 a\n\
                get 5 a\n\
                round\n\
                commit 5 sync set a 5\n\
                get 5 a\n\
                round\n\
                commit 0 nosync set a 0\n\
                round\n\
                get 63 a\n\
                get 0 b\n\
                get 5 a\n\
                get 0 a\n\
                round\n\
                commit 5 nosync del a\n\
                round\n\
                get 63 a\n",
            "s5 get a none @10\n\
                s63 get a none @10\n\
                s5 commit 10 1 synced\n\
                s5 get a = 5 @11\n\
                s0 commit 11 1\n\
                s0 get b none @12\n\
                s0 get a = 0 @12\n\
                s5 get a = 0 @12\n\
                s63 get a = 0 @12\n\
                s5 commit 12 1\n\
                s63 get a none @13\n\
                end visible 13 batches 3 acked 3 segments 1 closed\n",
        ),
        // A round in which nothing is said is a round.
        (
            "round\nround\nget 7 a\nround",
            "s7 get a none @10\nend visible 10 batches 0 acked 0 segments 0 closed\n",
        ),
    ] {
        check_replay(&rt, rt.alloc(), script, Status::Done, text)?;
    }
    Ok(())
}

#[test]
fn a_stalled_round_is_written_to_both_segments(rt: HostRuntime) -> Result<(), Fail> {
    let alloc = rt.alloc();
    let script = "commit 0 nosync set a 1\nround\nstall p 10\ncommit 0 sync set a 2\n";
    let text = "s0 commit 10 1\n\
        s0 commit 11 1 synced\n\
        end visible 12 batches 2 acked 2 segments 2 closed\n";
    let disk = check_replay(&rt, alloc, script, Status::Done, text)?;
    // The write that hung is done as the journal is closed.
    let both = written_of(alloc, 1, &[(10, b'1', 0), (11, b'2', 0)])?;
    assert!(rt; segment_at(&disk, 0) == Some(both.as_slice()));
    assert!(rt; segment_at(&disk, 1) == Some(both.as_slice()));
    assert!(rt; segment_at(&disk, 2).is_none());
    check_crash(&rt, alloc, disk, "a = 2\nend batches 2 next 12\n")
}

#[test]
fn a_deleted_range_has_no_values(rt: HostRuntime) -> Result<(), Fail> {
    let alloc = rt.alloc();
    let script = "commit 0 sync set a 1 ; set b 2 ; set c 3\n\
        commit 0 nosync rdel a c ; set a 9\n\
        get 0 a\n\
        get 0 b\n\
        get 0 c\n";
    let text = "s0 commit 10 3 synced\n\
        s0 commit 13 2\n\
        s0 get a = 9 @15\n\
        s0 get b none @15\n\
        s0 get c = 3 @15\n\
        end visible 15 batches 2 acked 2 segments 1 closed\n";
    let disk = check_replay(&rt, alloc, script, Status::Done, text)?;
    check_crash(&rt, alloc, disk, "a = 9\nc = 3\nend batches 2 next 15\n")
}

#[test]
fn a_transfer_is_recovered_dumped_and_gone_on_from(rt: HostRuntime) -> Result<(), Fail> {
    let alloc = rt.alloc();
    let script = "# transfer\n\
        commit 0 sync set acct/1 90 ; set acct/2 110 ; note t7\n\
        get 0 acct/1\n\
        commit 0 nosync del acct/1\n\
        get 0 acct/1\n\
        get 0 acct/3\n";
    let text = "s0 commit 10 2 synced\n\
        s0 get acct/1 = 90 @12\n\
        s0 commit 12 1\n\
        s0 get acct/1 none @13\n\
        s0 get acct/3 none @13\n\
        end visible 13 batches 2 acked 2 segments 1 closed\n";
    let mut disk = check_replay(&rt, alloc, script, Status::Done, text)?;
    // What a reading leaves of the disk is read again.
    for (words, text) in [
        ("recover", "acct/2 = 110\nend batches 2 next 13\n"),
        (
            "dump",
            "segment 000001.log primary bytes 97 records 2 ends 97 clean\n\
                batch 10 2\n\
                set acct/1 90\n\
                set acct/2 110\n\
                note t7\n\
                batch 12 1\n\
                del acct/1\n\
                end batches 2 next 13\n",
        ),
    ] {
        let rig = Rig::after_crash(&rt, alloc, disk);
        disk = check_command(&rt, alloc, rig, &[words], b"", Status::Done, text)?;
    }
    let rig = Rig::after_crash(&rt, alloc, disk);
    let script = b"commit 0 sync set b 1\n";
    let text = "s0 commit 13 1 synced\nend visible 14 batches 1 acked 1 segments 1 closed\n";
    let disk = check_command(&rt, alloc, rig, &["replay"], script, Status::Done, text)?;
    assert_eq!(rt; log_at(&disk, 1).map(|log| log.len()), Some(97));
    assert_eq!(rt; log_at(&disk, 2).map(|log| log.len()), Some(36));
    check_crash(
        &rt,
        alloc,
        disk,
        "acct/2 = 110\nb = 1\nend batches 3 next 14\n",
    )
}

#[test]
fn the_last_entry_of_a_batch_about_a_key_counts(rt: HostRuntime) -> Result<(), Fail> {
    let script = "commit 2 nosync note a ; set a 1 ; del a ; set b 2 ; set b 3 ; set c \\\n\
        commit 2 sync del b ; note b\n\
        get 2 a\n\
        get 2 b\n\
        get 2 c\n";
    let text = "s2 commit 10 5\n\
        s2 commit 15 1 synced\n\
        s2 get a none @16\n\
        s2 get b none @16\n\
        s2 get c = \\x5c @16\n\
        end visible 16 batches 2 acked 2 segments 1 closed\n";
    let disk = check_replay(&rt, rt.alloc(), script, Status::Done, text)?;
    check_crash(&rt, rt.alloc(), disk, "c = \\x5c\nend batches 2 next 16\n")
}
