//! The commands: what their words ask for is told from one another here, once, and done in a file for each.

ghost use Rattle.std.specs.Prelude.{◌≡◌, map, IfOk};
ghost use Rattle.std.specs.String.{string_bytes};
ghost use Rattle.disk_face.specs.View.{NothingInFlight};
ghost use Rattle.wal_top.specs.Call.{call_of};
ghost use Rattle.wal_top.specs.ByCommand.{ReadsSource};
ghost use Rattle.wal_top.specs.Rightly.{SaysRightly};
ghost use Rattle.wal_top.specs.Run.{Leaves};

mod dump;
mod flush;
mod load;
mod recover;
mod replay;
mod ship;
mod view;

use crate::commands::dump::segments_said;
use crate::commands::flush::flush_said;
use crate::commands::load::loaded;
use crate::commands::recover::store_said;
use crate::commands::replay::replayed;
use crate::commands::ship::ship_said;
use crate::commands::view::view_said;
use crate::said::{Answered, saying};
use crate::status::Status;
use command_line::{Command, WordsFault, read_command};
use commit_pipeline::Gate;
use disk_face::TableDisk;
use std::alloc::Global;
use std::sync::Wait;
use std::thread::Threads;
use wal_base::{NoMemory, Source};

const USAGE: &str =
    "usage: replay [--threshold N] | recover | dump | load SEED COUNT | flush | view | ship\n";

/// Everything of a run before its first byte is written. The sessions of a round run beside one another, and have met
/// before it answers.
pub(crate) fn answered<S: Source, D: TableDisk + Send, G: Gate + Sync, R: Threads + Wait + Sync>(
    rt: &R,
    alloc: Global,
    words: &[String],
    src: &mut S,
    mut disk: D,
    gate: &G,
) -> Answered<D>
    requires { NothingInFlight (D.view disk) }
    ensures says { let call = call_of S.left S.faults src.old src.new
        D.tells D.view disk result.disk in
        IfOk result.said (λ said.
        SaysRightly (map string_bytes words.now) call said.status said.text) }
    ensures leaves { let call = call_of S.left S.faults src.old src.new
        D.tells D.view disk result.disk in
        Leaves (map string_bytes words.now) call }
    ensures unread { (ReadsSource (map string_bytes words.now) → ⊥) → src.new ≡ src.old }
{
    match read_command(alloc, words) {
        Ok(Command::Replay { threshold }) => replayed(rt, alloc, threshold, src, disk, gate),
        Ok(Command::Load { seed, batches }) => loaded(rt, alloc, seed, batches, disk, gate),
        Ok(Command::Recover) => {
            let said = store_said(alloc, &mut disk);
            Answered { said, disk }
        }
        Ok(Command::Dump) => {
            let said = segments_said(alloc, &mut disk);
            Answered { said, disk }
        }
        Ok(Command::Flush) => {
            let said = flush_said(alloc, &mut disk);
            Answered { said, disk }
        }
        Ok(Command::View) => {
            let said = view_said(alloc, src, &mut disk);
            Answered { said, disk }
        }
        Ok(Command::Ship) => {
            let said = ship_said(alloc, &mut disk);
            Answered { said, disk }
        }
        Err(WordsFault::Usage) => Answered {
            said: saying(alloc, Status::Usage, USAGE),
            disk,
        },
        Err(WordsFault::NoMemory) => Answered {
            said: Err(NoMemory),
            disk,
        },
    }
}
