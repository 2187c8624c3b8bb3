//! `flush`: the store is written into one table, and the segments that it covers are removed.

ghost use Rattle.std.specs.Prelude.{◌≡◌, ◌++◌, IfOk, OnOk};
ghost use Rattle.disk_face.specs.View.{NothingInFlight};
ghost use Rattle.disk_face.specs.Calls.{WentOn};
ghost use Rattle.wal_top.specs.Call.{change_in};
ghost use Rattle.wal_top.specs.Flush.{flush_text, SaysFlush, LeavesFlush};

use crate::said::{Said, unrecovered};
use crate::status::Status;
use disk_face::TableDisk;
use flush_table::{Flushed, flush};
use std::alloc::Global;
use text_lines::{Piece, put_pieces};
use wal_base::{Buf, NoMemory};

/// Adds the line that says what a flush came to.
fn put_flushed(text: &mut Buf, flushed: Option<Flushed>) -> Result<(), NoMemory>
    ensures { OnOk result (text.new ≡ text.old ++ flush_text flushed) }
{
    let Some(
        Flushed {
            keys,
            next,
            upto,
            dropped,
        },
    ) = flushed
    else {
        return text.append(b"flush nothing\n");
    };
    let line = [
        Piece::Text(b"flush keys "),
        Piece::Number(keys),
        Piece::Text(b" next "),
        Piece::Number(next),
        Piece::Text(b" upto "),
        Piece::Number(upto),
        Piece::Text(b" dropped "),
        Piece::Number(dropped),
        Piece::Text(b"\n"),
    ];
    put_pieces(text, &line)
}

/// Flushes the store, and says what that came to.
pub(crate) fn flush_said<D: TableDisk>(alloc: Global, disk: &mut D) -> Result<Said, NoMemory>
    requires { NothingInFlight (D.view disk.old) }
    ensures went_on { WentOn (D.view disk.old) (D.view disk.new) }
    ensures says { let over = change_in D.view disk.old disk.new in
        IfOk result (λ said. SaysFlush D.tells over said.status said.text) }
    ensures leaves { LeavesFlush D.tells (change_in D.view disk.old disk.new) }
{
    match flush(alloc, disk) {
        Ok(flushed) => {
            let mut text = Buf::new(alloc)?;
            put_flushed(&mut text, flushed)?;
            Ok(Said {
                status: Status::Done,
                text,
            })
        }
        Err(fault) => unrecovered(alloc, fault),
    }
}
