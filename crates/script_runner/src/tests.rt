ghost use Rattle.std.specs.Prelude.{◌≤◌, IfOk};
ghost use Rattle.session_replies.specs.Rounds.{NamesItsSessions};
ghost use Rattle.script_runner.specs.Works.{NamesItsOwn};

use crate::{Outcome, Run, Work, run_work};
use commit_pipeline::NoGate;
use session_replies::{Script, put_run_end};
use session_script::{ScriptFault, read_script};
use std::alloc::Global;
use std::process::Abort;
use std::sync::Wait;
use std::test::Fail;
use std::thread::Threads;
use test_rigs::Fresh;
use wal_base::{Buf, ListOf, NoMemory};

mod numbers;
mod whole;

/// The script that a text is.
fn script_of(rt: &impl Abort, alloc: Global, text: &[u8]) -> Result<Script, NoMemory>
    ensures { IfOk result NamesItsSessions }
{
    match read_script(alloc, text) {
        Ok(script) => Ok(script),
        Err(ScriptFault::NoMemory) => Err(NoMemory),
        Err(ScriptFault::BadLine { line }) => panic!(rt; "line {line} is bad"),
    }
}

/// What some work comes to over a disk and no batches. A segment hangs from `threshold` pending polls on.
fn outcome_of<R: Threads + Wait + Sync>(
    rt: &R,
    alloc: Global,
    fresh: Fresh,
    threshold: u32,
    work: Work,
) -> Result<Outcome, NoMemory>
    requires threshold { (1 ≤ threshold) × (threshold ≤ 3) }
    requires sessions { NamesItsOwn work }
{
    let disk = fresh.into_disk();
    let Run { outcome, disk: _ } = run_work(
        rt,
        alloc,
        ListOf::new(alloc),
        10,
        1,
        threshold,
        work,
        disk,
        &NoGate,
    );
    outcome
}

/// What a script says over a disk, with the line of its end.
fn said_over<R: Threads + Wait + Sync + Abort>(
    rt: &R,
    alloc: Global,
    fresh: Fresh,
    threshold: u32,
    script: &[u8],
) -> Result<Buf, NoMemory>
    requires threshold { (1 ≤ threshold) × (threshold ≤ 3) }
{
    let work = Work::Script(script_of(rt, alloc, script)?);
    let Outcome { told, end } = outcome_of(rt, alloc, fresh, threshold, work)?;
    let mut said = told.text;
    put_run_end(&mut said, &end)?;
    Ok(said)
}

/// Asserts that what a script says over a disk is one of these texts.
fn check<R: Threads + Wait + Sync + Abort>(
    rt: &R,
    alloc: Global,
    fresh: Fresh,
    script: &[u8],
    texts: &[&str],
) -> Result<(), Fail> {
    let said = said_over(rt, alloc, fresh, 3, script)?;
    let said = said.as_slice();
    assert!(rt; texts.iter().any(|text| text.as_bytes() == said));
    Ok(())
}

/// Asserts how what a script says over an empty disk ends. The last line tells how many segments were begun.
fn check_segments<R: Threads + Wait + Sync + Abort>(
    rt: &R,
    alloc: Global,
    threshold: u32,
    script: &[u8],
    end: &str,
) -> Result<(), Fail>
    requires threshold { (1 ≤ threshold) × (threshold ≤ 3) }
{
    let said = said_over(rt, alloc, Fresh::new(alloc)?, threshold, script)?;
    assert!(rt; said.as_slice().ends_with(end.as_bytes()));
    Ok(())
}

#[test]
fn the_sessions_of_a_round_commit_in_either_order(rt: HostRuntime) -> Result<(), Fail> {
    let alloc = rt.alloc();
    let fresh = Fresh::new(alloc)?;
    let script = b"commit 1 nosync set b 2\ncommit 0 nosync set a 1\nhalt\n";
    let texts = [
        "s0 commit 10 1\ns1 commit 11 1\nend visible 12 batches 2 acked 0 segments 1 halted\n",
        "s0 commit 11 1\ns1 commit 10 1\nend visible 12 batches 2 acked 0 segments 1 halted\n",
    ];
    check(&rt, alloc, fresh, script, &texts)
}

#[test]
fn the_replies_of_a_round_stand_by_the_numbers_of_its_sessions(
    rt: HostRuntime,
) -> Result<(), Fail> {
    let alloc = rt.alloc();
    let fresh = Fresh::new(alloc)?;
    let script = b"commit 1 nosync set a 1\nround\nget 3 a\nget 0 a\nget 3 b\nget 2 b\n";
    let text = "s1 commit 10 1\n\
        s0 get a = 1 @11\n\
        s2 get b none @11\n\
        s3 get a = 1 @11\n\
        s3 get b none @11\n\
        end visible 11 batches 1 acked 1 segments 1 closed\n";
    check(&rt, alloc, fresh, script, &[text])
}

#[test]
fn a_commit_is_synced_though_all_polls_but_the_last_are_stalled(
    rt: HostRuntime,
) -> Result<(), Fail> {
    let alloc = rt.alloc();
    let fresh = Fresh::new(alloc)?;
    let script = b"stall p 60\nstall s 60\ncommit 0 sync set a 1\n";
    let said = said_over(&rt, alloc, fresh, 3, script)?;
    assert!(rt; said.as_slice().starts_with(b"s0 commit 10 1 synced\n"));
    Ok(())
}

#[test]
fn a_segment_is_left_from_the_threshold_on(rt: HostRuntime) -> Result<(), Fail> {
    let alloc = rt.alloc();
    check_segments(
        &rt,
        alloc,
        1,
        b"commit 0 sync set a 1\n",
        " segments 1 closed\n",
    )?;
    let one = b"stall p 1\ncommit 0 sync set a 1\n";
    check_segments(&rt, alloc, 1, one, " segments 2 closed\n")?;
    let two = b"stall p 2\ncommit 0 sync set a 1\n";
    check_segments(&rt, alloc, 3, two, " segments 1 closed\n")?;
    let three = b"stall p 2\nstall p 1\ncommit 0 sync set a 1\n";
    check_segments(&rt, alloc, 3, three, " segments 2 closed\n")
}

#[test]
fn the_stalls_of_a_round_come_before_its_lines(rt: HostRuntime) -> Result<(), Fail> {
    let alloc = rt.alloc();
    let other = b"stall s 3\ncommit 0 sync set a 1\n";
    check_segments(&rt, alloc, 3, other, " segments 1 closed\n")?;
    let both = b"commit 0 sync set a 1\nround\ncommit 0 sync set b 2\nstall s 3\nstall p 3\n";
    check_segments(&rt, alloc, 3, both, " segments 3 closed\n")?;
    let late = b"commit 0 sync set a 1\nround\nstall s 3\nstall p 3\n";
    check_segments(&rt, alloc, 3, late, " segments 1 closed\n")
}

#[test]
fn a_dead_journal_is_told_and_read(rt: HostRuntime) -> Result<(), Fail> {
    let alloc = rt.alloc();
    let mut fresh = Fresh::new(alloc)?;
    for index in 0..10 {
        fresh.fail_op(2 + 3 * index)?;
    }
    let script =
        b"commit 0 sync set a 1\ncommit 0 nosync set b 2\nget 0 a\nround\ncommit 1 sync set a 3\n";
    let text = "s0 commit 10 1 unsynced\n\
        s0 commit dead\n\
        s0 get a = 1 @11\n\
        s1 commit dead\n\
        end visible 11 batches 1 acked 0 segments 10 dead\n";
    check(&rt, alloc, fresh, script, &[text])
}
