//! `dump`: the used table is shown, and the segments above it, with their batches.

ghost use Rattle.std.specs.Prelude.{◌≡◌, ◌++◌, IfOk, OnOk};
ghost use Rattle.disk_face.specs.View.{NothingInFlight};
ghost use Rattle.disk_face.specs.Calls.{WentOn};
ghost use Rattle.wal_top.specs.Call.{change_in};
ghost use Rattle.wal_top.specs.Dump.{report_lines, segments_text, used_text, SaysDump, LeavesDump};

use crate::said::{Said, unrecovered};
use crate::status::Status;
use disk_face::{TableDisk, TableName};
use flush_table::{StoreRead, TableSeen, recover_store};
use std::alloc::Global;
use text_lines::{SegmentLine, TableLine, put_batch, put_recovered_end, put_segment, put_table};
use wal_base::{Buf, NoMemory};
use wal_recovery::{Mode, SegReport, SegReports};

/// Adds what is said of the used table, where there is one.
fn put_used(text: &mut Buf, used: Option<TableSeen>) -> Result<(), NoMemory>
    ensures { OnOk result (text.new ≡ text.old ++ used_text used) }
{
    match used {
        Some(TableSeen { upto, keys, next }) => {
            let name = TableName { upto };
            put_table(text, &TableLine { name, keys, next })
        }
        None => Ok(()),
    }
}

/// Adds what is said of a segment and its batches. Each batch is let go once its lines stand.
fn put_report(text: &mut Buf, report: SegReport) -> Result<(), NoMemory>
    ensures { OnOk result (text.new ≡ text.old ++ report_lines report) }
{
    let SegReport {
        side,
        name,
        len,
        ends_at,
        torn,
        batches,
    } = report;
    let line = SegmentLine {
        side,
        name,
        len,
        ends_at,
        torn,
    };
    put_segment(text, &line, batches.len())?;
    for batch in batches.into_vec() {
        put_batch(text, &batch)?;
    }
    Ok(())
}

/// The lines of all segments.
fn put_reports(text: &mut Buf, reports: SegReports) -> Result<(), NoMemory>
    ensures { OnOk result (text.new ≡ text.old ++ segments_text reports) }
{
    for report in reports.into_vec() {
        put_report(text, report)?;
    }
    Ok(())
}

/// Recovers with gaps, and says what the used table and each segment above it hold.
pub(crate) fn segments_said<D: TableDisk>(alloc: Global, disk: &mut D) -> Result<Said, NoMemory>
    requires { NothingInFlight (D.view disk.old) }
    ensures went_on { WentOn (D.view disk.old) (D.view disk.new) }
    ensures says { let over = change_in D.view disk.old disk.new in
        IfOk result (λ said. SaysDump D.tells over said.status said.text) }
    ensures leaves { LeavesDump D.tells (change_in D.view disk.old disk.new) }
{
    match recover_store(alloc, disk, Mode::Lenient) {
        Ok(found) => {
            let StoreRead {
                batches,
                table,
                next,
                segments,
                ..
            } = found;
            // Only their number is printed. They hold the segments' bytes, which are to go as the text grows.
            let count = batches.len();
            drop(batches);
            let mut text = Buf::new(alloc)?;
            put_used(&mut text, table)?;
            put_reports(&mut text, segments)?;
            put_recovered_end(&mut text, count, next)?;
            Ok(Said {
                status: Status::Done,
                text,
            })
        }
        Err(fault) => unrecovered(alloc, fault),
    }
}
