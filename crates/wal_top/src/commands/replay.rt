//! `replay`: the script of the source is run over the store of the directories.

ghost use Rattle.std.specs.Prelude.{◌≡◌, ◌+◌, ◌≤◌, ℕ, Err, IfOk, IsOkAnd};
ghost use Rattle.disk_face.specs.View.{NothingInFlight};
ghost use Rattle.disk_face.specs.Calls.{WentOn};
ghost use Rattle.stall_monitor.specs.declared.verdict.TheConstants.{THRESHOLD_MAX};
ghost use Rattle.session_script.specs.declared.fault.ScriptFault.TheVariants as faults;
ghost use Rattle.line_words.specs.Words.{lines_of};
ghost use Rattle.session_script.specs.Script.{IsScript, IsFirstBad};
ghost use Rattle.session_replies.specs.Rounds.{NamesItsSessions};
ghost use Rattle.wal_top.specs.declared.reading.TheConstants.{SCRIPT_MAX};
ghost use Rattle.wal_top.specs.declared.status.Status.TheVariants as statuses;
ghost use Rattle.wal_top.specs.Call.{call_of, change_in};
ghost use Rattle.wal_top.specs.Reading.{TookAtMost};
ghost use Rattle.wal_top.specs.Worked.{TellsWorked};
ghost use Rattle.wal_top.specs.Replay.{bad_line_text, replay_text, SaysReplay, LeavesReplay, TakesScript};

use crate::reading::{ReadError, read_script_bytes};
use crate::said::{Answered, Said, saying};
use crate::status::Status;
use crate::working::{Worked, WorkedOver, status_of, work_over};
use commit_pipeline::Gate;
use disk_face::TableDisk;
use script_runner::Work;
use session_replies::{Script, put_run_end};
use session_script::{ScriptFault, read_script};
use std::alloc::Global;
use std::sync::Wait;
use std::thread::Threads;
use wal_base::{Buf, NoMemory, Source};

/// What was taken of a source: its script, or what is said instead.
#[derive(Drop)]
enum Taken {
    Script(Script),
    Said(Said),
}

/// What is said of a script with a bad line.
fn bad_line_said(alloc: Global, line: u64) -> Result<Said, NoMemory>
    ensures { IfOk result (λ said. (said.status ≡ statuses.Script)
        × (said.text ≡ bad_line_text line)) }
{
    let text = format!(in alloc; "script line {line}\n")?;
    saying(alloc, Status::Script, text.as_str())
}

/// The script that the bytes are. The bytes are let go, since a script has a copy of its own.
fn script_of(alloc: Global, bytes: Buf) -> Result<Script, ScriptFault>
    ensures script { IfOk result (IsScript bytes) }
    ensures sessions { IfOk result NamesItsSessions }
    ensures bad { (line : ℕ) → result ≡ Err (faults.BadLine line) → IsFirstBad (lines_of bytes) line }
{
    read_script(alloc, bytes.as_slice())
}

/// Takes the script of a source.
fn take_script<S: Source>(alloc: Global, src: &mut S) -> Result<Taken, NoMemory>
    ensures takes { IfOk result
        (TakesScript (change_in S.left src.old src.new) (change_in S.faults src.old src.new)) }
    ensures took { TookAtMost (SCRIPT_MAX + 1) (S.left src.old) (S.left src.new) }
{
    let bytes = match read_script_bytes(alloc, src) {
        Ok(bytes) => bytes,
        Err(ReadError::NoMemory) => return Err(NoMemory),
        Err(ReadError::Fault) => {
            return Ok(Taken::Said(saying(alloc, Status::Read, "read fault\n")?));
        }
        Err(ReadError::TooLong) => {
            return Ok(Taken::Said(saying(alloc, Status::Script, "script too long\n")?));
        }
    };
    match script_of(alloc, bytes) {
        Ok(script) => Ok(Taken::Script(script)),
        Err(ScriptFault::BadLine { line }) => Ok(Taken::Said(bad_line_said(alloc, line)?)),
        Err(ScriptFault::NoMemory) => Err(NoMemory),
    }
}

/// What is said of a script's work.
fn work_said(worked: Result<Worked, NoMemory>) -> Result<Said, NoMemory>
    ensures { IfOk result (λ said.
        IsOkAnd worked (λ worked. TellsWorked replay_text worked said.status said.text)) }
{
    match worked? {
        Worked::Done(outcome) => {
            let status = status_of(&outcome);
            let mut text = outcome.told.text;
            put_run_end(&mut text, &outcome.end)?;
            Ok(Said { status, text })
        }
        Worked::Unbegun(said) => Ok(said),
    }
}

/// What a replay has to say. A segment hangs from `threshold` pending polls on.
pub(crate) fn replayed<S: Source, D: TableDisk + Send, G: Gate + Sync, R: Threads + Wait + Sync>(
    rt: &R,
    alloc: Global,
    threshold: u32,
    src: &mut S,
    disk: D,
    gate: &G,
) -> Answered<D>
    requires threshold { (1 ≤ threshold) × (threshold ≤ THRESHOLD_MAX) }
    requires idle { NothingInFlight (D.view disk) }
    ensures went_on { WentOn (D.view disk) (D.view result.disk) }
    ensures says { let call = call_of S.left S.faults src.old src.new
        D.tells D.view disk result.disk in
        IfOk result.said (λ said. SaysReplay threshold call said.status said.text) }
    ensures leaves { LeavesReplay
        (call_of S.left S.faults src.old src.new D.tells D.view disk result.disk) }
{
    match take_script(alloc, src) {
        Ok(Taken::Script(script)) => {
            let work = Work::Script(script);
            let WorkedOver { worked, disk } = work_over(rt, alloc, work, threshold, disk, gate);
            let said = work_said(worked);
            Answered { said, disk }
        }
        Ok(Taken::Said(said)) => Answered {
            said: Ok(said),
            disk,
        },
        Err(NoMemory) => Answered {
            said: Err(NoMemory),
            disk,
        },
    }
}
