//! The top call, and the order in which a run meets what it may meet.

ghost use Rattle.std.specs.Prelude.{◌≡◌, ℕ, List, map};
ghost use Rattle.std.specs.String.{string_bytes};
ghost use Rattle.disk_face.specs.View.{NothingInFlight};
ghost use Rattle.wal_top.specs.Call.{Invocation, call_of, run_of, change_in};
ghost use Rattle.wal_top.specs.ByCommand.{ReadsSource};
ghost use Rattle.wal_top.specs.Rightly.{SaysRightly};
ghost use Rattle.wal_top.specs.Run.{Says, YieldsTo, ComesExactly, Leaves};

use crate::commands::answered;
use crate::said::{Answered, Said};
use crate::status::{Ran, Status};
use crate::writing::write_all;
use commit_pipeline::Gate;
use disk_face::TableDisk;
use std::alloc::Global;
use std::sync::Wait;
use std::thread::Threads;
use wal_base::{NoMemory, PutErr, Sink, Source};

/// Writes what a run has to say, and answers the status after it.
fn ended<K: Sink>(out: &mut K, said: &Said) -> Status
    ensures says { (words : List (List ℕ)) (call : Invocation)
        → SaysRightly words call said.now.status said.now.text
        → Says words (run_of call K.written K.faults K.shortages out.old out.new) result }
    ensures yields { YieldsTo (change_in K.faults out.old out.new) said.now.status result }
{
    match write_all(out, said.text.as_slice()) {
        Ok(()) => said.status,
        Err(PutErr::Failed) => Status::Write,
        Err(PutErr::NoMemory) => Status::NoMemory,
    }
}

/// Does all that the program does. `words` are those after the program's name. Nothing is in flight on the
/// disk, which is handed back as it stands at the end.
pub fn run<S: Source, K: Sink, D: TableDisk + Send, G: Gate + Sync, R: Threads + Wait + Sync>(
    rt: &R,
    alloc: Global,
    words: &[String],
    src: &mut S,
    out: &mut K,
    disk: D,
    gate: &G,
) -> Ran<D>
    requires idle { NothingInFlight (D.view disk) }

    // What the status says by the command of the words: why it came, and which text is written.
    ensures says { let call = call_of S.left S.faults src.old src.new
        D.tells D.view disk result.disk in
        let run = run_of call K.written K.faults K.shortages out.old out.new in
        Says (map string_bytes words.now) run result.status }

    // When a status has to come, unless the sink fails or memory runs out.
    ensures comes { let call = call_of S.left S.faults src.old src.new
        D.tells D.view disk result.disk in
        let run = run_of call K.written K.faults K.shortages out.old out.new in
        ComesExactly (map string_bytes words.now) run result.status }

    // What is left, whatever the status.
    ensures leaves { let call = call_of S.left S.faults src.old src.new
        D.tells D.view disk result.disk in
        Leaves (map string_bytes words.now) call }
    ensures unread { (ReadsSource (map string_bytes words.now) → ⊥) → src.new ≡ src.old }
{
    let Answered { said, disk } = answered(rt, alloc, words, src, disk, gate);
    match said {
        Ok(said) => {
            let status = ended(out, &said);
            Ran { status, disk }
        }
        Err(NoMemory) => Ran {
            status: Status::NoMemory,
            disk,
        },
    }
}
