//! Lines, carried out one after another.

ghost use Rattle.std.specs.Prelude.{◌≡◌, ◌++◌, ◌∷◌, [], ℕ, Some, OnOk, IfOk, IfSome, IfNone, slice_get};
ghost use Rattle.snapshot_view.specs.declared.view.SnapId.{SnapId};
ghost use Rattle.snapshot_view.specs.Views.{CanBeViewed};
ghost use Rattle.view_script.specs.declared.view_line.ViewLine.TheVariants as asked;
ghost use Rattle.view_runner.specs.Replies.{IsViewText};
ghost use Rattle.view_runner.specs.Running.{CanGoOn, AnswersFrom};

use crate::reading::{put_get, put_scan};
use crate::texts::{put_above, put_gone, put_hold, put_not_held, put_purge, put_release};
use batch_repr::Batches;
use snapshot_view::{HoldFault, SnapId, View};
use std::alloc::Global;
use view_script::{ViewLine, ViewLines};
use wal_base::{Buf, NoMemory};

/// A view, and what its lines have come to so far.
#[derive(Drop)]
struct Run {
    view: View,
    /// The hold of each line that asked for one, and none where it was refused or is released.
    holds: Vec<Option<SnapId>>,
    /// The replies.
    text: Buf,
}

/// The hold of the hold line of this number, where it stands.
fn id_of(holds: &[Option<SnapId>], hold: u64) -> Option<SnapId>
    ensures some { IfSome result (λ id. slice_get holds.now hold ≡ Some (Some id)) }
    ensures none { IfNone result ((id : SnapId) → slice_get holds.now hold ≡ Some (Some id) → ⊥) }
{
    match holds.get(hold as usize) {
        Some(Some(id)) => Some(*id),
        _ => None,
    }
}

/// Adds the hold of a hold line, or none.
fn add_hold(holds: &mut Vec<Option<SnapId>>, id: Option<SnapId>) -> Result<(), NoMemory>
    ensures { OnOk result (holds.new.items ≡ holds.old.items ++ id ∷ []) }
{
    match holds.push(id) {
        Ok(()) => Ok(()),
        Err(_) => Err(NoMemory),
    }
}

impl Run {
    /// Holds the store as it was at a number.
    fn hold(&mut self, at: u64) -> Result<(), NoMemory>
        requires { CanGoOn self.old }
        ensures { OnOk result (AnswersFrom self.old (asked.Hold at) self.new) }
    {
        let number = self.holds.as_slice().len() as u64;
        match self.view.hold(at) {
            Ok(id) => {
                put_hold(&mut self.text, number, at)?;
                add_hold(&mut self.holds, Some(id))
            }
            Err(HoldFault::Above { next }) => {
                put_above(&mut self.text, next)?;
                add_hold(&mut self.holds, None)
            }
            Err(HoldFault::Gone { floor }) => {
                put_gone(&mut self.text, floor)?;
                add_hold(&mut self.holds, None)
            }
            Err(HoldFault::NoMemory) => Err(NoMemory),
        }
    }

    /// Reads a key at a hold.
    fn get(&mut self, hold: u64, key: &[u8]) -> Result<(), NoMemory>
        requires { CanGoOn self.old }
        ensures { OnOk result (AnswersFrom self.old (asked.Get hold key.now) self.new) }
    {
        match id_of(&self.holds, hold) {
            Some(id) => put_get(&mut self.text, &self.view, id, key),
            None => put_not_held(&mut self.text),
        }
    }

    /// Reads the keys from one on at a hold.
    fn scan(&mut self, hold: u64, from: &[u8]) -> Result<(), NoMemory>
        requires { CanGoOn self.old }
        ensures { OnOk result (AnswersFrom self.old (asked.Scan hold from.now) self.new) }
    {
        match id_of(&self.holds, hold) {
            Some(id) => put_scan(&mut self.text, &self.view, id, from),
            None => put_not_held(&mut self.text),
        }
    }

    /// Lets a hold go.
    fn release(&mut self, hold: u64) -> Result<(), NoMemory>
        requires { CanGoOn self.old }
        ensures { OnOk result (AnswersFrom self.old (asked.Release hold) self.new) }
    {
        match id_of(&self.holds, hold) {
            Some(id) => {
                self.view.release(id);
                self.holds[hold as usize] = None;
                put_release(&mut self.text, hold)
            }
            None => put_not_held(&mut self.text),
        }
    }

    /// Lets go what no hold shows.
    fn purge(&mut self) -> Result<(), NoMemory>
        requires { CanGoOn self.old }
        ensures { OnOk result (AnswersFrom self.old asked.Purge self.new) }
    {
        let count = self.view.purge();
        put_purge(&mut self.text, count)
    }

    /// Carries a line out, and adds its reply.
    fn answer(&mut self, line: &ViewLine) -> Result<(), NoMemory>
        requires { CanGoOn self.old }
        ensures { OnOk result (AnswersFrom self.old line.now self.new) }
    {
        match line {
            ViewLine::Hold { at } => self.hold(*at),
            ViewLine::Get { hold, key } => self.get(*hold, key.as_slice()),
            ViewLine::Scan { hold, from } => self.scan(*hold, from.as_slice()),
            ViewLine::Release { hold } => self.release(*hold),
            ViewLine::Purge => self.purge(),
        }
    }
}

/// The text of the replies to the lines, over a view of the batches from a floor on.
pub fn view_text(
    alloc: Global,
    batches: &Batches,
    floor: u64,
    lines: &ViewLines,
) -> Result<Buf, NoMemory>
    requires { CanBeViewed batches.now floor }
    ensures { IfOk result (IsViewText batches.now floor lines.now) }
{
    let view = View::build(alloc, batches, floor)?;
    let text = Buf::new(alloc)?;
    let mut run = Run {
        view,
        holds: Vec::new(alloc),
        text,
    };
    for line in lines.as_slice() {
        run.answer(line)?;
    }
    Ok(run.text)
}
