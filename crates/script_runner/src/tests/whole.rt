//! Whole runs.

use super::{Fresh, check, outcome_of};
use crate::Work;
use made_load::Load;
use session_replies::RunEnd;
use std::alloc::Global;
use std::process::Abort;
use std::sync::Wait;
use std::test::Fail;
use std::thread::Threads;

/// Asserts how a load of seed 7 and so many batches ends over an empty disk.
fn check_load<R: Threads + Wait + Sync + Abort>(
    rt: &R,
    alloc: Global,
    batches: u32,
    visible: u64,
    live: u32,
) -> Result<(), Fail> {
    let load = Load::new(7, batches);
    let outcome = outcome_of(rt, alloc, Fresh::new(alloc)?, 3, Work::Load(load))?;
    assert!(rt; outcome.told.live == live);
    let RunEnd {
        visible: end,
        acked,
        ..
    } = outcome.end;
    assert!(rt; end == visible && acked == u64::from(batches));
    Ok(())
}

#[test]
fn a_load_deletes_every_eighth_key_of_its_last_round(rt: HostRuntime) -> Result<(), Fail> {
    check_load(&rt, rt.alloc(), 2_000, 2_260, 875)
}

#[test]
fn a_script_that_halts_leaves_its_journal_as_it_is(rt: HostRuntime) -> Result<(), Fail> {
    let alloc = rt.alloc();
    let fresh = Fresh::new(alloc)?;
    let script = b"commit 1 nosync set b 2\nround\ncommit 0 nosync set a 1\nhalt\n";
    let text =
        "s1 commit 10 1\ns0 commit 11 1\nend visible 12 batches 2 acked 0 segments 1 halted\n";
    check(&rt, alloc, fresh, script, &[text])
}

#[test]
fn a_script_that_does_not_halt_closes_its_journal(rt: HostRuntime) -> Result<(), Fail> {
    let alloc = rt.alloc();
    let fresh = Fresh::new(alloc)?;
    let script = b"commit 0 nosync set a 1\n";
    let text = "s0 commit 10 1\nend visible 11 batches 1 acked 1 segments 1 closed\n";
    check(&rt, alloc, fresh, script, &[text])
}
