//! The whole run of a script or of a load over a disk.

ghost use Rattle.std.specs.Prelude.{◌≡◌, ◌+◌, ◌≤◌, IfOk, OnOk, IsTrue};
ghost use Rattle.batch_repr.specs.declared.limits.TheConstants.{NUMBER_MAX};
ghost use Rattle.disk_face.specs.View.{files, NothingInFlight};
ghost use Rattle.disk_face.specs.Calls.{WentOn};
ghost use Rattle.disk_face.specs.declared.names.TheConstants.{WAL_MAX};
ghost use Rattle.stall_monitor.specs.declared.verdict.TheConstants.{THRESHOLD_MAX};
ghost use Rattle.failover_writer.specs.State.{len};
ghost use Rattle.failover_writer.specs.Ranges.{AreUnsent};
ghost use Rattle.failover_writer.specs.Running.{OthersSame};
ghost use Rattle.commit_pipeline.specs.Openings.{EndsBefore};
ghost use Rattle.script_runner.specs.Works.{work_rounds, work_sessions, NamesItsOwn};
ghost use Rattle.script_runner.specs.Runs.{StallNone, PollsNeverRise, GoesOnKept, RemainsDead};
ghost use Rattle.script_runner.specs.Runs.{IsShutUnless, EndsJournal, run_opening};
ghost use Rattle.script_runner.specs.Runs.{HandsOnOver, RunsOver, RunsWork};

use crate::performing::{Told, perform};
use crate::work::Work;
use batch_repr::Batches;
use commit_pipeline::{Finished, Gate, Parts, PipeName, Pipeline};
use disk_face::{Disk, ScriptDisk, StallDisk};
use failover_writer::{Journal, JournalFault};
use session_replies::RunEnd;
use std::alloc::Global;
use std::marker::Brand;
use std::sync::Wait;
use std::sync::ledger::Ledger;
use std::thread::Threads;
use wal_base::NoMemory;

/// What a run came to.
#[derive(Debug, Drop)]
pub struct Outcome {
    /// What was said between its opening and its end.
    pub told: Told,
    /// How it ended.
    pub end: RunEnd,
}

/// What a run came to, and the disk as it stands then. `Err` means that memory ran out, and that nothing is said.
#[derive(Debug, Drop)]
pub struct Run<D> {
    /// What it came to.
    pub outcome: Result<Outcome, NoMemory>,
    /// The disk as it stands.
    pub disk: D,
}

/// The same, with the journal in the place of its disk.
#[derive(Drop)]
struct Course<D: Disk> {
    outcome: Result<Outcome, NoMemory>,
    journal: Journal<D>,
}

/// Closes the journal, unless the script halted. A journal that is found dead is closed no further.
fn close_unless<D: Disk>(journal: &mut Journal<D>, halted: bool) -> Result<(), NoMemory>
    ensures goes_on { GoesOnKept D.tells D.view journal.old journal.new }
    ensures left { IsTrue halted → journal.new ≡ journal.old }
    ensures dies { OnOk result (RemainsDead journal.old.state journal.new.state) }
    ensures shut { OnOk result (IsShutUnless halted journal.new.state (D.view journal.new.disk)) }
{
    if halted {
        return Ok(());
    }
    match journal.close() {
        Ok(()) | Err(JournalFault::Dead { .. }) => Ok(()),
        Err(JournalFault::NoMemory) => Err(NoMemory),
    }
}

/// Closes the journal, unless the script halted, and tells how the run ended.
fn end_journal<D: Disk>(
    journal: &mut Journal<D>,
    halted: bool,
    visible: u64,
    batches: u64,
) -> Result<RunEnd, NoMemory>
    ensures goes_on { GoesOnKept D.tells D.view journal.old journal.new }
    ensures left { IsTrue halted → journal.new ≡ journal.old }
    ensures ends { IfOk result (EndsJournal D.view halted visible batches journal.old journal.new) }
{
    close_unless(journal, halted)?;
    // Whatever the journal holds, it is sound.
    let _len = journal.len();
    Ok(RunEnd {
        visible,
        batches,
        acked: journal.acked(),
        segments: journal.segments(),
        died: journal.dead().is_some(),
        halted,
    })
}

/// Does some work over a journal that has no record yet: of its sessions and the base the parts of a pipeline are made,
/// whose names are picked next.
fn run_over<D: StallDisk + Send, G: Gate + Sync, R: Threads + Wait + Sync>(
    rt: &R,
    alloc: Global,
    journal: Journal<D>,
    base: Batches,
    work: Work,
    gate: &G,
) -> Course<D>
    requires empty { len journal.state ≡ 0 }
    requires within { journal.state.next ≤ NUMBER_MAX }
    requires base { EndsBefore base journal.state.next }
    requires sessions { NamesItsOwn work }
    ensures hands_on { HandsOnOver D.tells D.view (work_rounds work) journal result.journal }
    ensures ran { IfOk result.outcome (RunsOver D.tells D.view base work journal result.journal) }
{
    let sessions = work.sessions() as usize;
    let Ok(parts) = Parts::new(alloc, base, journal.next(), sessions) else {
        return Course {
            outcome: Err(NoMemory),
            journal,
        };
    };
    over_table::<D, G, Brand, R>(rt, alloc, journal, parts, work, gate)
}

/// The same, with a name of the table and of the ledger of batches.
fn over_table<
    D: StallDisk + Send,
    G: Gate + Sync,
    N: PipeName + Send + Sync,
    R: Threads + Wait + Sync,
>(rt: &R, alloc: Global, journal: Journal<D>, parts: Parts, work: Work, gate: &G) -> Course<D>
    requires opening { N.opening ≡ run_opening D.view parts.base (work_rounds work) journal }
    requires table { parts.table ≡ N.table }
    requires queue { parts.queue ≡ N.queue }
    requires batches { (parts.batches ≡ N.name) × (parts.sessions ≡ N.parts) }
    requires empty { len journal.state ≡ 0 }
    requires next { journal.state.next ≡ parts.next }
    requires sessions { NamesItsOwn work × (parts.sessions ≡ work_sessions work) }
    ensures hands_on { HandsOnOver D.tells D.view (work_rounds work) journal result.journal }
    ensures ran { IfOk result.outcome (RunsOver D.tells D.view parts.base work journal result.journal) }
{
    over_names::<D, G, N, Brand, R>(rt, alloc, journal, parts, work, gate)
}

/// The same, with all names.
fn over_names<
    D: StallDisk + Send,
    G: Gate + Sync,
    N: PipeName + Send + Sync,
    M: Ledger + Send + Sync,
    R: Threads + Wait + Sync,
>(rt: &R, alloc: Global, journal: Journal<D>, parts: Parts, work: Work, gate: &G) -> Course<D>
    requires opening { N.opening ≡ run_opening D.view parts.base (work_rounds work) journal }
    requires table { parts.table ≡ N.table }
    requires queue { parts.queue ≡ N.queue }
    requires batches { (parts.batches ≡ N.name) × (parts.sessions ≡ N.parts) }
    requires answers { (parts.answers ≡ M.name) × (parts.sessions + parts.sessions ≡ M.parts) }
    requires empty { len journal.state ≡ 0 }
    requires next { journal.state.next ≡ parts.next }
    requires sessions { NamesItsOwn work × (parts.sessions ≡ work_sessions work) }
    ensures hands_on { HandsOnOver D.tells D.view (work_rounds work) journal result.journal }
    ensures ran { IfOk result.outcome (RunsOver D.tells D.view parts.base work journal result.journal) }
{
    let (pipe, sessions) = match Pipeline::<D, G, N, M>::new(journal, parts, gate) {
        Ok(made) => made,
        Err(journal) => {
            return Course {
                outcome: Err(NoMemory),
                journal,
            };
        }
    };
    let halted = work.halts();
    let (readers, told) = match perform(rt, alloc, pipe, sessions, work) {
        Ok(done) => done,
        Err(journal) => {
            return Course {
                outcome: Err(NoMemory),
                journal,
            };
        }
    };
    let Finished {
        mut journal,
        visible,
        batches,
        popped: _,
    } = readers.finish(rt);
    match end_journal(&mut journal, halted, visible, batches) {
        Ok(end) => Course {
            outcome: Ok(Outcome { told, end }),
            journal,
        },
        Err(NoMemory) => Course {
            outcome: Err(NoMemory),
            journal,
        },
    }
}

/// Does some work over a disk and the batches before it, of which `next` is the number after them: its commits go to the
/// journal of this WAL, whose segments hang from `threshold` pending polls on. The journal is closed at the end, unless it
/// is a script that halts. The sessions of a round run beside one another.
pub fn run_work<D: Disk + Send, G: Gate + Sync, R: Threads + Wait + Sync>(
    rt: &R,
    alloc: Global,
    base: Batches,
    next: u64,
    wal: u64,
    threshold: u32,
    work: Work,
    disk: D,
    gate: &G,
) -> Run<D>
    requires base { EndsBefore base next }
    requires within { next ≤ NUMBER_MAX }
    requires wal { wal ≤ WAL_MAX }
    requires threshold { (1 ≤ threshold) × (threshold ≤ THRESHOLD_MAX) }
    requires idle { NothingInFlight (D.view disk) }
    requires absent { IsTrue D.tells → AreUnsent wal 0 (D.view disk) }
    requires sessions { NamesItsOwn work }
    ensures went_on { WentOn (D.view disk) (D.view result.disk) }
    ensures polls { StallNone (work_rounds work) → PollsNeverRise (D.view disk) (D.view result.disk) }
    ensures others { IsTrue D.tells → OthersSame wal (files (D.view disk)) (files (D.view result.disk)) }
    ensures ran { IfOk result.outcome
        (RunsWork base next work wal threshold D.tells (D.view disk) (D.view result.disk)) }
{
    let stalled = ScriptDisk::new(disk);
    let journal = match Journal::start(alloc, stalled, wal, next, threshold) {
        Ok(journal) => journal,
        Err(back) => {
            return Run {
                outcome: Err(NoMemory),
                disk: back.into_inner(),
            };
        }
    };
    let Course { outcome, journal } = run_over(rt, alloc, journal, base, work, gate);
    let stalled = journal.into_disk();
    Run {
        outcome,
        disk: stalled.into_inner(),
    }
}
