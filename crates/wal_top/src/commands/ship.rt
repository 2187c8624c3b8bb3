//! `ship`: the store's batches are written as a stream.

ghost use Rattle.std.specs.Prelude.{◌≡◌, All, IfOk};
ghost use Rattle.batch_repr.specs.Building.{HasSpelling};
ghost use Rattle.disk_face.specs.View.{NothingInFlight};
ghost use Rattle.disk_face.specs.Calls.{WentOn};
ghost use Rattle.wal_ship.specs.Stream.{stream_of};
ghost use Rattle.wal_top.specs.Call.{change_in};
ghost use Rattle.wal_top.specs.Ship.{SaysOfStore, SaysShip, LeavesShip};

use crate::said::{Said, saying, unrecovered};
use crate::status::Status;
use batch_repr::Batches;
use disk_face::TableDisk;
use flush_table::{StoreRead, recover_store};
use std::alloc::Global;
use wal_base::{Buf, NoMemory};
use wal_recovery::Mode;
use wal_ship::put_stream;

/// The stream of the batches. They are let go then, and with them the log's bytes.
fn stream_text(alloc: Global, batches: Batches) -> Result<Buf, NoMemory>
    requires { All HasSpelling batches }
    ensures { IfOk result (λ text. text ≡ stream_of batches) }
{
    let mut text = Buf::new(alloc)?;
    put_stream(alloc, &mut text, &batches)?;
    Ok(text)
}

/// What is said of a store that was read. That of a table is refused: the batches that stand for its keys are no log.
fn shipped(alloc: Global, found: StoreRead) -> Result<Said, NoMemory>
    requires { All HasSpelling found.batches }
    ensures { IfOk result (λ said. SaysOfStore found.table found.batches said.status said.text) }
{
    let StoreRead {
        batches,
        table,
        segments,
        ..
    } = found;
    // The reports have lists of their own, which nothing here reads.
    drop(segments);
    match table {
        Some(_) => saying(alloc, Status::Refused, "refused table\n"),
        None => Ok(Said {
            status: Status::Done,
            text: stream_text(alloc, batches)?,
        }),
    }
}

/// Recovers with no gap, and writes the store as a stream.
pub(crate) fn ship_said<D: TableDisk>(alloc: Global, disk: &mut D) -> Result<Said, NoMemory>
    requires { NothingInFlight (D.view disk.old) }
    ensures went_on { WentOn (D.view disk.old) (D.view disk.new) }
    ensures says { let over = change_in D.view disk.old disk.new in
        IfOk result (λ said. SaysShip D.tells over said.status said.text) }
    ensures leaves { LeavesShip D.tells (change_in D.view disk.old disk.new) }
{
    match recover_store(alloc, disk, Mode::Strict) {
        Ok(found) => shipped(alloc, found),
        Err(fault) => unrecovered(alloc, fault),
    }
}
