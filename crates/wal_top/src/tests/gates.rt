//! That the sessions of a round run beside one another, over the whole of a run.

use super::{Rig, words_of};
use crate::{Gate, GatePoint, Ran, Status, run};
use std::alloc::Global;
use std::process::Abort;
use std::sync::Wait;
use std::sync::atomic::{AtomicBool, AtomicU64, Ordering};
use std::test::Fail;
use std::thread;
use std::thread::Threads;
use wal_base::{Blob, Buf, MemSink, MemSource, NoMemory};

/// The turns for which a gate holds a session at most.
const TURNS: u64 = 1_000_000;

/// A gate that holds one session once it has its number until another one has marked its batch, for
/// so many turns at most.
#[derive(Drop)]
struct Held {
    held: u32,
    other: u32,
    marked: AtomicBool,
    /// How many turns were left as the hold ended.
    left: AtomicU64,
}

impl Held {
    fn new(held: u32, other: u32) -> Held {
        Held {
            held,
            other,
            marked: AtomicBool::new(false),
            left: AtomicU64::new(0),
        }
    }
}

impl Gate for Held {
    fn pass(&self, session: u32, point: GatePoint) {
        if session == self.other && point == GatePoint::Marked {
            self.marked.store(true, Ordering::SeqCst);
        }
        if session == self.held && point == GatePoint::Numbered {
            for turn in 0..TURNS {
                if self.marked.load(Ordering::SeqCst) {
                    self.left.store(TURNS - turn, Ordering::SeqCst);
                    return;
                }
                thread::yield_now();
            }
        }
    }
}

/// What a replay of a script writes, where a gate holds the one session and waits for the other.
/// Fails where the turns ended the hold.
fn held_text<R: Threads + Wait + Sync + Abort>(
    rt: &R,
    alloc: Global,
    script: &[u8],
    held: u32,
    other: u32,
) -> Result<MemSink, Fail> {
    let words = words_of(alloc, &["replay"])?;
    let mut source = MemSource::new(Blob::copy_of(alloc, script)?);
    let mut sink = MemSink::new(alloc)?;
    let gate = Held::new(held, other);
    let disk = Rig::new(alloc)?.disk;
    let Ran { status, .. } = run(rt, alloc, &words, &mut source, &mut sink, disk, &gate);
    assert_eq!(rt; status, Status::Done);
    assert!(rt; gate.left.load(Ordering::SeqCst) > 0);
    Ok(sink)
}

/// Asserts what two sessions are answered where a gate holds the one and waits for the other: the numbers of the one
/// come first, or those of the other.
fn check_beside<R: Threads + Wait + Sync + Abort>(
    rt: &R,
    alloc: Global,
    held: u32,
    other: u32,
) -> Result<(), Fail> {
    let script = b"commit 0 nosync set a 1\ncommit 1 nosync set b 2\nround\nget 0 b\nget 1 a\n";
    let first = b"s0 commit 10 1\n\
        s1 commit 11 1\n\
        s0 get b = 2 @12\n\
        s1 get a = 1 @12\n\
        end visible 12 batches 2 acked 2 segments 1 closed\n";
    let second = b"s0 commit 11 1\n\
        s1 commit 10 1\n\
        s0 get b = 2 @12\n\
        s1 get a = 1 @12\n\
        end visible 12 batches 2 acked 2 segments 1 closed\n";
    let sink = held_text(rt, alloc, script, held, other)?;
    let text = sink.written();
    assert!(rt; text == first.as_slice() || text == second.as_slice());
    Ok(())
}

#[test]
fn two_sessions_commit_beside_each_other(rt: HostRuntime) -> Result<(), Fail> {
    check_beside(&rt, rt.alloc(), 0, 1)?;
    check_beside(&rt, rt.alloc(), 1, 0)
}

/// A script of one round in which so many sessions each set a key of their own.
fn script_of(alloc: Global, sessions: u32) -> Result<Buf, NoMemory> {
    let mut script = Buf::new(alloc)?;
    for session in 0..sessions {
        let line = format!(in alloc; "commit {session} nosync set k{session} 1\n")?;
        script.append(line.as_bytes())?;
    }
    Ok(script)
}

/// Each half of the sessions is played by a thread of its own, whose first one waits for no other.
#[test]
fn a_session_that_is_held_holds_up_none_of_another_thread(rt: HostRuntime) -> Result<(), Fail> {
    for sessions in [8u32, 64] {
        let script = script_of(rt.alloc(), sessions)?;
        for (held, other) in [(0, sessions / 2), (sessions - 1, 0)] {
            held_text(&rt, rt.alloc(), script.as_slice(), held, other)?;
        }
    }
    Ok(())
}
