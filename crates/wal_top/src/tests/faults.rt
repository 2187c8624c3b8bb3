//! Each call of a recovery is made to fail once: the side is named, and the next recovery finds all.

use super::{Rig, Told, check_crash, rig_of, segment_of, told_of};
use crate::Status;
use std::alloc::Global;
use std::process::Abort;
use std::sync::Wait;
use std::test::Fail;
use std::thread::Threads;
use wal_base::NoMemory;

/// What is made to fail.
#[derive(Clone, Copy, Drop)]
enum Failing {
    /// A listing or a reading.
    Call,
    /// An operation, of which a recovery starts syncs alone.
    Operation,
}

/// More calls of each kind than a recovery of two short segments makes.
const CALLS_MAX: u64 = 100;

const STORE: &str = "a = 3\nend batches 3 next 13\n";

const PRIMARY: &[u8] = b"disk fault primary\n";

const SECONDARY: &[u8] = b"disk fault secondary\n";

/// Two segments on the two sides with a batch in common. The call of that number is to fail.
fn failing_at(
    rt: &impl Abort,
    alloc: Global,
    failing: Failing,
    number: u64,
) -> Result<Rig, NoMemory> {
    let first = segment_of(alloc, 1, &[(10, b'1'), (11, b'2')])?;
    let second = segment_of(alloc, 1, &[(11, b'2'), (12, b'3')])?;
    let mut rig = rig_of(rt, alloc, first.as_slice(), Some(second.as_slice()))?;
    match failing {
        Failing::Call => rig.fail_call(rt, number),
        Failing::Operation => rig.fail_op(rt, number),
    }
    Ok(rig)
}

/// Asserts that a run was done, or that it named the side whose call failed: the first call lists the primary side, and
/// the second one the other.
fn check_named(rt: &impl Abort, told: &Told, number: u64) {
    let written = told.sink.written();
    match told.status {
        Status::Done => {}
        Status::Disk if number == 0 => assert!(rt; written == PRIMARY),
        Status::Disk if number == 1 => assert!(rt; written == SECONDARY),
        Status::Disk => assert!(rt; written == PRIMARY || written == SECONDARY),
        status => panic!(rt; "call {number} gives {status:?}"),
    }
}

/// Runs a command once for each call that may fail, until all of them are past. Answers how many there were.
fn fail_each<R: Threads + Wait + Sync + Abort>(
    rt: &R,
    alloc: Global,
    word: &str,
    failing: Failing,
) -> Result<u64, Fail> {
    for number in 0..CALLS_MAX {
        let rig = failing_at(rt, alloc, failing, number)?;
        let told = told_of(rt, alloc, rig, &[word], b"")?;
        check_named(rt, &told, number);
        check_crash(rt, alloc, told.disk, STORE)?;
        if told.status == Status::Done {
            return Ok(number);
        }
    }
    panic!(rt; "{word} is never done")
}

#[test]
fn each_call_of_a_recovery_may_fail(rt: HostRuntime) -> Result<(), Fail> {
    for word in ["recover", "dump", "replay"] {
        // Both sides are listed, and then each of the two segments is read.
        let calls = fail_each(&rt, rt.alloc(), word, Failing::Call)?;
        assert!(rt; calls >= 4, "{word} makes {calls} calls");
    }
    Ok(())
}

#[test]
fn each_sync_of_a_recovery_may_fail(rt: HostRuntime) -> Result<(), Fail> {
    // Each of the two segments is synced, unless nothing is changed.
    for (word, syncs) in [("recover", 2), ("replay", 2), ("dump", 0)] {
        let made = fail_each(&rt, rt.alloc(), word, Failing::Operation)?;
        assert_eq!(rt; made, syncs, "{word}");
    }
    Ok(())
}
