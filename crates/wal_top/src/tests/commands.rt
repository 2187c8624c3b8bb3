//! Commands and their words.

use super::{Rig, check_command, check_crash, segment_at, told_of};
use crate::Status;
use std::alloc::Global;
use std::process::Abort;
use std::sync::Wait;
use std::test::Fail;
use std::thread::Threads;

/// Commands, a line each, with a bar between two words.
const COMMANDS: &str = "\
    replay\n\
    replay|--threshold|1\n\
    replay|--threshold|1000\n\
    replay|--threshold|00000000000000000003\n\
    replay|--threshold=1\n\
    replay|--threshold=01\n\
    replay|--threshold=1000\n\
    replay|--threshold=00000000000000000003\n\
    recover\n\
    dump\n\
    load|7|1\n\
    load|0|001\n\
    load|18446744073709551615|2\n\
    load|00000000000000000007|00000000000000000001";

/// What is no command.
const OTHERS: &str = "\
    Replay\n\
    repla\n\
    replays\n\
    replay|\n\
    replay|3\n\
    replay|replay\n\
    replay|recover\n\
    replay|--threshold\n\
    replay|--threshold=\n\
    replay|--threshold|\n\
    replay|--threshold|0\n\
    replay|--threshold|1001\n\
    replay|--threshold|-1\n\
    replay|--threshold|+3\n\
    replay|--threshold| 3\n\
    replay|--threshold|three\n\
    replay|--threshold|000000000000000000003\n\
    replay|--threshold|18446744073709551619\n\
    replay|--threshold|3|3\n\
    replay|--threshold|3|\n\
    replay|--threshold|3|--threshold|3\n\
    replay|--threshold=3|--threshold=3\n\
    replay|--threshold|--threshold|3\n\
    replay|--threshold=0\n\
    replay|--threshold=1001\n\
    replay|--threshold=-1\n\
    replay|--thresh|3\n\
    replay|--thresh=3\n\
    replay|-threshold|3\n\
    replay|-t|3\n\
    replay|-\n\
    replay|--\n\
    replay|--threshold|3|--\n\
    replay|--help\n\
    replay|-h\n\
    --threshold|3|replay\n\
    --|replay\n\
    recover|\n\
    recover|recover\n\
    recover|--threshold|3\n\
    recover|--help\n\
    dump|dump\n\
    dump|1\n\
    dump|--\n\
    load\n\
    load|7\n\
    load|7|1|1\n\
    load|7|1|\n\
    load|7|1|--\n\
    load|--|7|1\n\
    load||1\n\
    load|7|\n\
    load|7|0\n\
    load|7|2000001\n\
    load|7|-1\n\
    load|7|+1\n\
    load|7|1 \n\
    load|0x7|1\n\
    load|-7|1\n\
    load|18446744073709551616|1\n\
    load|000000000000000000007|1\n\
    load|7|000000000000000000001\n\
    load|7|1|--threshold|3\n\
    load|--help\n\
    --help\n\
    -h\n\
    help\n\
    help|replay\n\
    --version\n\
    -V\n\
    version";

/// Asserts the status of a run with each line's words over a new disk.
fn check_lines<R: Threads + Wait + Sync + Abort>(
    rt: &R,
    alloc: Global,
    lines: &str,
    status: Status,
) -> Result<(), Fail> {
    for line in lines.split('\n') {
        let mut words = Vec::new(alloc);
        for word in line.split('|') {
            words.push(word)?;
        }
        let told = told_of(rt, alloc, Rig::new(alloc)?, words.as_slice(), b"")?;
        assert_eq!(rt; told.status, status);
    }
    Ok(())
}

#[test]
fn each_list_of_words_is_a_command_or_none(rt: HostRuntime) -> Result<(), Fail> {
    let alloc = rt.alloc();
    check_lines(&rt, alloc, COMMANDS, Status::Done)?;
    check_lines(&rt, alloc, OTHERS, Status::Usage)?;
    // One empty word.
    check_lines(&rt, alloc, "", Status::Usage)?;
    let told = told_of(&rt, alloc, Rig::new(alloc)?, &[], b"")?;
    assert_eq!(rt; told.status, Status::Usage);
    Ok(())
}

#[test]
fn a_replay_begins_the_next_segment_at_its_own_threshold(rt: HostRuntime) -> Result<(), Fail> {
    let alloc = rt.alloc();
    let script = b"stall p 1\ncommit 0 sync set a 1\n";
    for (words, segments) in [
        (&["replay", "--threshold", "1"] as &[&str], 2),
        (&["replay", "--threshold=1"], 2),
        (&["replay", "--threshold=02"], 1),
        (&["replay"], 1),
    ] {
        let rig = Rig::new(alloc)?;
        let text = format!(in alloc;
            "s0 commit 10 1 synced\n\
                end visible 11 batches 1 acked 1 segments {segments} closed\n"
        )?;
        let disk = check_command(&rt, alloc, rig, words, script, Status::Done, text.as_str())?;
        check_crash(&rt, alloc, disk, "a = 1\nend batches 1 next 11\n")?;
    }
    Ok(())
}

#[test]
fn a_load_goes_on_after_the_batches_of_the_one_before(rt: HostRuntime) -> Result<(), Fail> {
    let alloc = rt.alloc();
    let words = &["load", "7", "1"];
    let text = "load batches 1 visible 11 live 1 acked 1 segments 1 last 6a3dad3d18167a3b\n";
    let disk = check_command(&rt, alloc, Rig::new(alloc)?, words, b"", Status::Done, text)?;
    let rig = Rig::after_crash(&rt, alloc, disk);
    let text = "load batches 1 visible 12 live 1 acked 1 segments 1 last 6a3dad3d18167a3b\n";
    let disk = check_command(&rt, alloc, rig, words, b"", Status::Done, text)?;
    let value = "6a3dad3d18167a3b6a3dad3d18167a3b6a3dad3d18167a3b6a3dad3d18167a3b";
    let store = format!(in alloc; "k0000 = {value}\nend batches 2 next 12\n")?;
    check_crash(&rt, alloc, disk, store.as_str())
}

#[test]
fn a_load_whose_journal_dies_is_told_as_dead(rt: HostRuntime) -> Result<(), Fail> {
    let alloc = rt.alloc();
    let mut rig = Rig::new(alloc)?;
    for number in 0..100 {
        rig.fail_op(&rt, number);
    }
    let disk = check_command(
        &rt,
        alloc,
        rig,
        &["load", "7", "20"],
        b"",
        Status::Disk,
        "load dead\n",
    )?;
    assert!(rt; segment_at(&disk, 9).is_none());
    Ok(())
}

#[test]
fn a_load_of_many_batches_tells_what_it_came_to(rt: HostRuntime) -> Result<(), Fail> {
    let alloc = rt.alloc();
    let words = &["load", "7", "20000"];
    let text =
        "load batches 20000 visible 22510 live 875 acked 20000 segments 1 last 828850fe970534cc\n";
    check_command(&rt, alloc, Rig::new(alloc)?, words, b"", Status::Done, text)?;
    Ok(())
}
