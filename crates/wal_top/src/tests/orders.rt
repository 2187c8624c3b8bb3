//! Sessions of one round, which act in any order.

use super::{Rig, told_of};
use crate::Status;
use std::alloc::Global;
use std::process::Abort;
use std::sync::Wait;
use std::test::Fail;
use std::thread::Threads;

/// Asserts that a replay over a new disk is done, and that what it writes is one of these texts.
fn check_orders<R: Threads + Wait + Sync + Abort>(
    rt: &R,
    alloc: Global,
    script: &str,
    texts: &[&str],
) -> Result<(), Fail> {
    let told = told_of(rt, alloc, Rig::new(alloc)?, &["replay"], script.as_bytes())?;
    assert_eq!(rt; told.status, Status::Done);
    let written = told.sink.written();
    assert!(rt; texts.iter().any(|text| text.as_bytes() == written));
    Ok(())
}

#[test]
fn the_sessions_of_a_round_commit_in_either_order(rt: HostRuntime) -> Result<(), Fail> {
    let script = "commit 0 nosync set a 1\ncommit 1 nosync set b 2\nround\nget 0 b\nget 1 a\n";
    let first = "s0 commit 10 1\n\
        s1 commit 11 1\n\
        s0 get b = 2 @12\n\
        s1 get a = 1 @12\n\
        end visible 12 batches 2 acked 2 segments 1 closed\n";
    let second = "s0 commit 11 1\n\
        s1 commit 10 1\n\
        s0 get b = 2 @12\n\
        s1 get a = 1 @12\n\
        end visible 12 batches 2 acked 2 segments 1 closed\n";
    check_orders(&rt, rt.alloc(), script, &[first, second])
}

#[test]
fn a_session_reads_before_or_after_another_commits(rt: HostRuntime) -> Result<(), Fail> {
    let script = "get 1 a\ncommit 0 nosync set a 1\n";
    let before = "s0 commit 10 1\n\
        s1 get a none @10\n\
        end visible 11 batches 1 acked 1 segments 1 closed\n";
    let after = "s0 commit 10 1\n\
        s1 get a = 1 @11\n\
        end visible 11 batches 1 acked 1 segments 1 closed\n";
    check_orders(&rt, rt.alloc(), script, &[before, after])
}
