//! `recover`: the store of the directories is shown.

ghost use Rattle.std.specs.Prelude.{◌≡◌, ◌++◌, length, IfOk};
ghost use Rattle.disk_face.specs.View.{NothingInFlight};
ghost use Rattle.disk_face.specs.Calls.{WentOn};
ghost use Rattle.text_lines.specs.Lines.{recovered_end};
ghost use Rattle.text_lines.specs.Store.{IsStoreText};
ghost use Rattle.wal_top.specs.Call.{change_in};
ghost use Rattle.wal_top.specs.Recover.{SaysRecover, LeavesRecover};

use crate::said::{Said, unrecovered};
use crate::status::Status;
use batch_repr::Batch;
use disk_face::TableDisk;
use flush_table::{StoreRead, recover_store};
use std::alloc::Global;
use text_lines::{put_recovered_end, put_store};
use wal_base::{Buf, NoMemory};
use wal_recovery::Mode;

/// The text of a store.
fn store_text(alloc: Global, batches: &[Batch], next: u64) -> Result<Buf, NoMemory>
    ensures { IfOk result (λ text. (store : _) × IsStoreText batches.now store
        × (text ≡ store ++ recovered_end (length batches.now) next)) }
{
    let mut text = Buf::new(alloc)?;
    put_store(alloc, &mut text, batches)?;
    put_recovered_end(&mut text, batches.len(), next)?;
    Ok(text)
}

/// Recovers with no gap, and says which keys have a value.
pub(crate) fn store_said<D: TableDisk>(alloc: Global, disk: &mut D) -> Result<Said, NoMemory>
    requires { NothingInFlight (D.view disk.old) }
    ensures went_on { WentOn (D.view disk.old) (D.view disk.new) }
    ensures says { let over = change_in D.view disk.old disk.new in
        IfOk result (λ said. SaysRecover D.tells over said.status said.text) }
    ensures leaves { LeavesRecover D.tells (change_in D.view disk.old disk.new) }
{
    match recover_store(alloc, disk, Mode::Strict) {
        Ok(found) => {
            let StoreRead {
                batches,
                next,
                segments,
                ..
            } = found;
            // The reports have lists of their own, which nothing here reads.
            drop(segments);
            Ok(Said {
                status: Status::Done,
                text: store_text(alloc, batches.as_slice(), next)?,
            })
        }
        Err(fault) => unrecovered(alloc, fault),
    }
}
