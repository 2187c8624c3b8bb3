//! Rounds up to the last number. No log that can be tried ends near it, so they are played over a journal that begins
//! there, and not in a whole run.

ghost use Rattle.std.specs.Prelude.{◌≡◌, ◌+◌, ◌≤◌, true, IfOk};
ghost use Rattle.batch_repr.specs.declared.limits.TheConstants.{NUMBER_MAX};
ghost use Rattle.failover_writer.specs.State.{len};
ghost use Rattle.session_replies.specs.Rounds.{NamesItsSessions};
ghost use Rattle.commit_pipeline.specs.Openings.{opening_on};
ghost use Rattle.script_runner.specs.Works.{NamesItsOwn, work_sessions};

use super::script_of;
use crate::performing::perform;
use crate::{Told, Work};
use commit_pipeline::{NoGate, Parts, PipeName, Pipeline};
use disk_face::{Disk, StallDisk};
use failover_writer::Journal;
use mem_disk::MemDisk;
use session_replies::Script;
use std::alloc::Global;
use std::marker::Brand;
use std::process::Abort;
use std::sync::Wait;
use std::sync::ledger::Ledger;
use std::test::Fail;
use std::thread::Threads;
use wal_base::{ListOf, NoMemory};

/// A journal of no record, over an empty disk, where this number is the next one.
fn journal_from(alloc: Global, next: u64) -> Result<Journal<MemDisk>, NoMemory>
    requires within { next ≤ NUMBER_MAX }
    ensures empty { IfOk result (λ journal. len journal.state ≡ 0) }
    ensures next { IfOk result (λ journal. journal.state.next ≡ next) }
{
    let disk = MemDisk::new(alloc)?;
    Journal::start(alloc, disk, 1, next, 3).map_err(|_| NoMemory)
}

/// What a script tells over a journal of no record and no batches.
fn told_over<D: StallDisk + Drop + Send, R: Threads + Wait + Sync>(
    rt: &R,
    alloc: Global,
    journal: Journal<D>,
    script: Script,
) -> Result<Told, NoMemory>
    requires empty { len journal.state ≡ 0 }
    requires within { journal.state.next ≤ NUMBER_MAX }
    requires sessions { NamesItsSessions script }
{
    let base = ListOf::new(alloc);
    let parts = Parts::new(alloc, base, journal.next(), script.sessions as usize)?;
    with_table::<D, Brand, R>(rt, alloc, journal, parts, Work::Script(script))
}

/// The name of the table is picked.
fn with_table<D: StallDisk + Drop + Send, N: PipeName + Send + Sync, R: Threads + Wait + Sync>(
    rt: &R,
    alloc: Global,
    journal: Journal<D>,
    parts: Parts,
    work: Work,
) -> Result<Told, NoMemory>
    requires opening { N.opening ≡ opening_on D.view parts.base journal true }
    requires table { parts.table ≡ N.table }
    requires queue { parts.queue ≡ N.queue }
    requires batches { (parts.batches ≡ N.name) × (parts.sessions ≡ N.parts) }
    requires empty { len journal.state ≡ 0 }
    requires next { journal.state.next ≡ parts.next }
    requires sessions { NamesItsOwn work × (parts.sessions ≡ work_sessions work) }
{
    with_names::<D, N, Brand, R>(rt, alloc, journal, parts, work)
}

/// All names are picked.
fn with_names<
    D: StallDisk + Drop + Send,
    N: PipeName + Send + Sync,
    M: Ledger + Send + Sync,
    R: Threads + Wait + Sync,
>(rt: &R, alloc: Global, journal: Journal<D>, parts: Parts, work: Work) -> Result<Told, NoMemory>
    requires opening { N.opening ≡ opening_on D.view parts.base journal true }
    requires table { parts.table ≡ N.table }
    requires queue { parts.queue ≡ N.queue }
    requires batches { (parts.batches ≡ N.name) × (parts.sessions ≡ N.parts) }
    requires answers { (parts.answers ≡ M.name) × (parts.sessions + parts.sessions ≡ M.parts) }
    requires empty { len journal.state ≡ 0 }
    requires next { journal.state.next ≡ parts.next }
    requires sessions { NamesItsOwn work × (parts.sessions ≡ work_sessions work) }
{
    let made = Pipeline::<D, NoGate, N, M>::new(journal, parts, &NoGate);
    let Ok((pipe, sessions)) = made else {
        return Err(NoMemory);
    };
    match perform(rt, alloc, pipe, sessions, work) {
        Ok((_, told)) => Ok(told),
        Err(_) => Err(NoMemory),
    }
}

/// What a script tells where this number is the next one.
fn told_from<R: Threads + Wait + Sync + Abort>(
    rt: &R,
    alloc: Global,
    next: u64,
    script: &[u8],
) -> Result<Told, NoMemory>
    requires within { next ≤ NUMBER_MAX }
{
    let script = script_of(rt, alloc, script)?;
    let journal = journal_from(alloc, next)?;
    told_over(rt, alloc, journal, script)
}

/// Asserts what a script says where this number is the next one, and whether it tells of a limit.
fn check<R: Threads + Wait + Sync + Abort>(
    rt: &R,
    alloc: Global,
    next: u64,
    script: &[u8],
    text: &str,
    limited: bool,
) -> Result<(), Fail>
    requires within { next ≤ NUMBER_MAX }
{
    let told = told_from(rt, alloc, next, script)?;
    assert!(rt; told.text.as_slice() == text.as_bytes() && told.limited == limited);
    Ok(())
}

#[test]
fn each_session_is_told_of_the_limit_that_it_meets(rt: HostRuntime) -> Result<(), Fail> {
    // Three numbers are left.
    let next = 72_057_594_037_927_932;
    let script = b"commit 0 sync set a 0 ; set b 0 ; del c ; set d 0\n\
        round\n\
        commit 1 nosync set a 1 ; set b 1\n\
        get 1 a\n\
        round\n\
        commit 2 nosync set c 2 ; set d 2\n\
        round\n\
        commit 0 sync set c 0 ; note n\n\
        round\n\
        get 2 a\n\
        commit 1 nosync del a\n\
        get 1 c\n";
    let text = "s0 commit limit\n\
        s1 commit 72057594037927932 2\n\
        s1 get a = 1 @72057594037927934\n\
        s2 commit limit\n\
        s0 commit 72057594037927934 1 synced\n\
        s1 commit limit\n\
        s1 get c = 0 @72057594037927935\n\
        s2 get a = 1 @72057594037927935\n";
    check(&rt, rt.alloc(), next, script, text, true)?;
    // Batches that end at the last number are not limited.
    let script = b"commit 0 sync set a 0 ; set b 0 ; note n\nround\ncommit 1 nosync set b 1\n";
    let text = "s0 commit 72057594037927932 2 synced\ns1 commit 72057594037927934 1\n";
    check(&rt, rt.alloc(), next, script, text, false)
}
