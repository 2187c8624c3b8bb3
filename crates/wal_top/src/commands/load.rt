//! `load`: the generated load is run over the store of the directories.

ghost use Rattle.std.specs.Prelude.{◌≡◌, IfOk, IsOkAnd};
ghost use Rattle.disk_face.specs.View.{NothingInFlight};
ghost use Rattle.disk_face.specs.Calls.{WentOn};
ghost use Rattle.wal_top.specs.Call.{change_in};
ghost use Rattle.wal_top.specs.Worked.{TellsWorked};
ghost use Rattle.wal_top.specs.Load.{load_end_of, ended_text, load_text, SaysLoad, LeavesLoad};

use crate::said::{Answered, Said};
use crate::working::{Worked, WorkedOver, status_of, work_over};
use command_line::THRESHOLD_DEFAULT;
use commit_pipeline::Gate;
use disk_face::TableDisk;
use made_load::{Load, LoadEnd, load_number, put_load_end};
use script_runner::{Outcome, Work};
use std::alloc::Global;
use std::sync::Wait;
use std::thread::Threads;
use wal_base::{Buf, NoMemory};

/// What is printed at the end of a load.
fn load_end(seed: u64, batches: u32, outcome: &Outcome) -> LoadEnd
    ensures { result ≡ load_end_of seed batches outcome.now }
{
    LoadEnd {
        batches: outcome.end.batches,
        visible: outcome.end.visible,
        live: outcome.told.live,
        acked: outcome.end.acked,
        segments: outcome.end.segments,
        last: load_number(seed, batches.saturating_sub(1)),
    }
}

/// The text of a load.
fn text_of(alloc: Global, end: &LoadEnd, died: bool, limited: bool) -> Result<Buf, NoMemory>
    ensures { IfOk result (λ text. text ≡ ended_text died limited end.now) }
{
    let mut text = Buf::new(alloc)?;
    if died {
        text.append(b"load dead\n")?;
    } else if limited {
        text.append(b"load limit\n")?;
    } else {
        put_load_end(&mut text, end)?;
    }
    Ok(text)
}

/// What is said of a load's work.
fn work_said(
    alloc: Global,
    seed: u64,
    batches: u32,
    worked: Result<Worked, NoMemory>,
) -> Result<Said, NoMemory>
    ensures { IfOk result (λ said. IsOkAnd worked (λ worked.
        TellsWorked (load_text seed batches) worked said.status said.text)) }
{
    match worked? {
        Worked::Done(outcome) => {
            let status = status_of(&outcome);
            let end = load_end(seed, batches, &outcome);
            let text = text_of(alloc, &end, outcome.end.died, outcome.told.limited)?;
            Ok(Said { status, text })
        }
        Worked::Unbegun(said) => Ok(said),
    }
}

/// What a load of this seed and so many batches has to say.
pub(crate) fn loaded<D: TableDisk + Send, G: Gate + Sync, R: Threads + Wait + Sync>(
    rt: &R,
    alloc: Global,
    seed: u64,
    batches: u32,
    disk: D,
    gate: &G,
) -> Answered<D>
    requires { NothingInFlight (D.view disk) }
    ensures went_on { WentOn (D.view disk) (D.view result.disk) }
    ensures says { let over = change_in D.view disk result.disk in
        IfOk result.said (λ said. SaysLoad seed batches D.tells over said.status said.text) }
    ensures leaves { LeavesLoad D.tells (change_in D.view disk result.disk) }
{
    let load = Load::new(seed, batches);
    let work = Work::Load(load);
    let WorkedOver { worked, disk } = work_over(rt, alloc, work, THRESHOLD_DEFAULT, disk, gate);
    let said = work_said(alloc, seed, batches, worked);
    Answered { said, disk }
}
