//! The work of a command that writes a journal, done over the store of the directories.

ghost use Rattle.std.specs.Prelude.{◌≡◌, ◌≤◌, IfOk, IsOkAnd};
ghost use Rattle.disk_face.specs.View.{NothingInFlight};
ghost use Rattle.disk_face.specs.Calls.{WentOn};
ghost use Rattle.stall_monitor.specs.declared.verdict.TheConstants.{THRESHOLD_MAX};
ghost use Rattle.script_runner.specs.Works.{work_rounds, NamesItsOwn};
ghost use Rattle.script_runner.specs.Runs.{StallNone, PollsNeverRise};
ghost use Rattle.wal_top.specs.Call.{change_in};
ghost use Rattle.wal_top.specs.Work.{status_after, ChangesNextWal};
ghost use Rattle.wal_top.specs.declared.working.Worked.TheVariants as comes;
ghost use Rattle.wal_top.specs.Worked.{WorkComesTo};

use crate::said::{Said, saying, unrecovered};
use crate::status::Status;
use commit_pipeline::Gate;
use disk_face::{TableDisk, WAL_MAX};
use flush_table::recover_store;
use script_runner::{Outcome, Run, Work, run_work};
use std::alloc::Global;
use std::sync::Wait;
use std::thread::Threads;
use wal_base::NoMemory;
use wal_recovery::Mode;

/// The status of a run whose work was done.
pub(crate) fn status_of(outcome: &Outcome) -> Status
    ensures { result ≡ status_after outcome.now }
{
    if outcome.end.died {
        Status::Disk
    } else if outcome.told.limited {
        Status::Limit
    } else {
        Status::Done
    }
}

/// What work comes to: it was done, or it is not begun, and this is said.
#[derive(Drop)]
pub(crate) enum Worked {
    Done(Outcome),
    Unbegun(Said),
}

/// What work comes to, if memory allows, and the disk as it stands then.
#[derive(Drop)]
pub(crate) struct WorkedOver<D> {
    pub(crate) worked: Result<Worked, NoMemory>,
    pub(crate) disk: D,
}

/// Work that was done.
fn done(outcome: Result<Outcome, NoMemory>) -> Result<Worked, NoMemory>
    ensures { IfOk result (λ it. IsOkAnd outcome (λ outcome. it ≡ comes.Done outcome)) }
{
    Ok(Worked::Done(outcome?))
}

/// Work that is not begun.
fn unbegun(said: Result<Said, NoMemory>) -> Result<Worked, NoMemory>
    ensures { IfOk result (λ it. IsOkAnd said (λ said. it ≡ comes.Unbegun said)) }
{
    Ok(Worked::Unbegun(said?))
}

/// The work that is done over the store of the directories. A segment hangs from `threshold` pending polls on.
pub(crate) fn work_over<D: TableDisk + Send, G: Gate + Sync, R: Threads + Wait + Sync>(
    rt: &R,
    alloc: Global,
    work: Work,
    threshold: u32,
    mut disk: D,
    gate: &G,
) -> WorkedOver<D>
    requires threshold { (1 ≤ threshold) × (threshold ≤ THRESHOLD_MAX) }
    requires sessions { NamesItsOwn work }
    requires idle { NothingInFlight (D.view disk) }
    ensures went_on { WentOn (D.view disk) (D.view result.disk) }
    ensures polls { StallNone (work_rounds work) → PollsNeverRise (D.view disk) (D.view result.disk) }
    ensures others { ChangesNextWal D.tells (change_in D.view disk result.disk) }
    ensures comes_to { let over = change_in D.view disk result.disk in
        IfOk result.worked (WorkComesTo work threshold D.tells over) }
{
    match recover_store(alloc, &mut disk, Mode::Strict) {
        Ok(found) => {
            if found.next_wal > WAL_MAX {
                return WorkedOver {
                    worked: unbegun(saying(alloc, Status::Limit, "limit wal\n")),
                    disk,
                };
            }
            let Run { outcome, disk } = run_work(
                rt,
                alloc,
                found.batches,
                found.next,
                found.next_wal,
                threshold,
                work,
                disk,
                gate,
            );
            WorkedOver {
                worked: done(outcome),
                disk,
            }
        }
        Err(fault) => WorkedOver {
            worked: unbegun(unrecovered(alloc, fault)),
            disk,
        },
    }
}
