//! `view`: the store of the directories is read as it was at held numbers, by the lines of the source.

ghost use Rattle.std.specs.Prelude.{◌≡◌, ◌+◌, ℕ, Err, IfOk};
ghost use Rattle.disk_face.specs.View.{NothingInFlight};
ghost use Rattle.disk_face.specs.Calls.{WentOn};
ghost use Rattle.flush_table.specs.Stores.{number_after};
ghost use Rattle.script_runner.specs.Runs.{PollsNeverRise};
ghost use Rattle.view_script.specs.declared.fault.ViewFault.TheVariants as faults;
ghost use Rattle.view_script.specs.Asking.{view_lines, AreAsked, IsFirstBadLine};
ghost use Rattle.wal_recovery.specs.declared.reports.Mode.TheVariants.{Strict};
ghost use Rattle.wal_top.specs.declared.reading.TheConstants.{SCRIPT_MAX};
ghost use Rattle.wal_top.specs.declared.status.Status.TheVariants as statuses;
ghost use Rattle.wal_top.specs.Call.{call_of, change_in};
ghost use Rattle.wal_top.specs.Reading.{TookAtMost};
ghost use Rattle.wal_top.specs.Recovery.{SaysShown, WritesNoJournal};
ghost use Rattle.wal_top.specs.View.{bad_view_text, ShowsView, SaysView, LeavesView, TakesLines};

use crate::reading::{ReadError, read_script_bytes};
use crate::said::{Said, saying, unrecovered};
use crate::status::Status;
use batch_repr::NUMBER_FIRST;
use disk_face::TableDisk;
use flush_table::{StoreRead, TableSeen, recover_store};
use std::alloc::Global;
use view_runner::view_text;
use view_script::{ViewFault, ViewLines, read_view};
use wal_base::{Buf, NoMemory, Source};
use wal_recovery::Mode;

/// What was taken of a source: what its lines ask for, or what is said instead.
#[derive(Drop)]
enum Asked {
    Lines(ViewLines),
    Said(Said),
}

/// What is said where a line is bad.
fn bad_line_said(alloc: Global, line: u64) -> Result<Said, NoMemory>
    ensures { IfOk result (λ said. (said.status ≡ statuses.Script)
        × (said.text ≡ bad_view_text line)) }
{
    let text = format!(in alloc; "view line {line}\n")?;
    saying(alloc, Status::Script, text.as_str())
}

/// What the lines of the bytes ask for. The bytes are let go, since the lines have a copy of their own.
fn lines_of(alloc: Global, bytes: Buf) -> Result<ViewLines, ViewFault>
    ensures asked { IfOk result (AreAsked (view_lines bytes)) }
    ensures bad { (line : ℕ) → result ≡ Err (faults.BadLine line)
        → IsFirstBadLine (view_lines bytes) line }
{
    read_view(alloc, bytes.as_slice())
}

/// Takes the lines of a source.
fn take_lines<S: Source>(alloc: Global, src: &mut S) -> Result<Asked, NoMemory>
    ensures takes { IfOk result
        (TakesLines (change_in S.left src.old src.new) (change_in S.faults src.old src.new)) }
    ensures took { TookAtMost (SCRIPT_MAX + 1) (S.left src.old) (S.left src.new) }
{
    let bytes = match read_script_bytes(alloc, src) {
        Ok(bytes) => bytes,
        Err(ReadError::NoMemory) => return Err(NoMemory),
        Err(ReadError::Fault) => {
            return Ok(Asked::Said(saying(alloc, Status::Read, "read fault\n")?));
        }
        Err(ReadError::TooLong) => {
            return Ok(Asked::Said(saying(alloc, Status::Script, "view too long\n")?));
        }
    };
    match lines_of(alloc, bytes) {
        Ok(lines) => Ok(Asked::Lines(lines)),
        Err(ViewFault::BadLine { line }) => Ok(Asked::Said(bad_line_said(alloc, line)?)),
        Err(ViewFault::NoMemory) => Err(NoMemory),
    }
}

/// The number below which nothing can be held: what a table says of lower numbers is no history.
fn floor_of(table: Option<TableSeen>) -> u64
    ensures { result ≡ number_after table }
{
    match table {
        Some(seen) => seen.next,
        None => NUMBER_FIRST,
    }
}

/// Recovers with no gap, and answers the lines.
fn viewed<D: TableDisk>(alloc: Global, lines: &ViewLines, disk: &mut D) -> Result<Said, NoMemory>
    requires { NothingInFlight (D.view disk.old) }
    ensures went_on { WentOn (D.view disk.old) (D.view disk.new) }
    ensures says { let over = change_in D.view disk.old disk.new in
        IfOk result (λ said. SaysShown Strict D.tells over
        (ShowsView D.tells over lines.now said.text) said.status said.text) }
    ensures polls { PollsNeverRise (D.view disk.old) (D.view disk.new) }
    ensures no_journal { WritesNoJournal D.tells (change_in D.view disk.old disk.new) }
{
    match recover_store(alloc, disk, Mode::Strict) {
        Ok(found) => {
            let StoreRead {
                batches,
                table,
                segments,
                ..
            } = found;
            // The reports have lists of their own, which nothing here reads.
            drop(segments);
            Ok(Said {
                status: Status::Done,
                text: view_text(alloc, &batches, floor_of(table), lines)?,
            })
        }
        Err(fault) => unrecovered(alloc, fault),
    }
}

/// What a view has to say. The lines are read and checked before the disk is touched.
pub(crate) fn view_said<S: Source, D: TableDisk>(
    alloc: Global,
    src: &mut S,
    disk: &mut D,
) -> Result<Said, NoMemory>
    requires { NothingInFlight (D.view disk.old) }
    ensures went_on { WentOn (D.view disk.old) (D.view disk.new) }
    ensures says { let call = call_of S.left S.faults src.old src.new
        D.tells D.view disk.old disk.new in
        IfOk result (λ said. SaysView call said.status said.text) }
    ensures leaves { LeavesView
        (call_of S.left S.faults src.old src.new D.tells D.view disk.old disk.new) }
{
    match take_lines(alloc, src)? {
        Asked::Lines(lines) => viewed(alloc, &lines, disk),
        Asked::Said(said) => Ok(said),
    }
}
