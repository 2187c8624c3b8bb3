//! The calls that were made of a disk, for its view. Only proofs read them.

ghost use Rattle.std.specs.Prelude.{◌≡◌, List, [], ◌∷◌, is_ok};
ghost use Rattle.std.specs.Borrow.{ftrue};
ghost use Rattle.disk_face.specs.View.{Call, was_listed, was_read, was_started, was_polled};
ghost use Rattle.disk_face.specs.View.{tables_were_listed, table_was_read, table_was_put, was_removed};
ghost use Rattle.disk_face.specs.Asked.{answered};
ghost use Rattle.disk_face.specs.Calls.{flight_of};

use crate::{Disk, DiskErr, DiskOp, FilePlace, Names, OpId, Progress, SegName, Side, TableNames};
use std::fmt;
use std::marker::Model;

/// The calls so far, the last one first. It has no bytes, and its methods do nothing when they run.
#[derive(Drop)]
pub struct CallLog {
    pub ghost calls: { List Call },
}

impl Model for CallLog {
    ghost also_owns = { λ _. ftrue };
}

// It owns nothing.
unsafe impl Send for CallLog {}

impl CallLog {
    /// No calls yet.
    pub fn new() -> CallLog
        ensures { result.calls ≡ [] }
    {
        CallLog {}
    }

    /// The calls that were made of this disk.
    pub fn of<D: Disk>(disk: &D) -> CallLog
        ensures { result.calls ≡ (D.view disk.now).calls }
    {
        CallLog::new().made(disk, &())
    }

    /// A side was listed, with this answer.
    pub fn note_listing(&mut self, side: Side, answer: &Result<Names, DiskErr>)
        ensures { self.new.calls ≡ was_listed side (answered answer.now) ∷ self.old.calls }
    {
        *self = self.made(&side, answer);
    }

    /// So many bytes of a segment were asked for.
    pub fn note_read(&mut self, side: Side, name: SegName, len: usize)
        ensures { self.new.calls ≡ was_read side name len ∷ self.old.calls }
    {
        *self = self.made(&side, &(name, len));
    }

    /// The tables were listed, with this answer.
    pub fn note_tables(&mut self, answer: &Result<TableNames, DiskErr>)
        ensures { self.new.calls ≡ tables_were_listed (answered answer.now) ∷ self.old.calls }
    {
        *self = self.made(answer, &());
    }

    /// So many bytes of a table were asked for.
    pub fn note_table_read(&mut self, upto: u64, len: usize)
        ensures { self.new.calls ≡ table_was_read upto len ∷ self.old.calls }
    {
        *self = self.made(&upto, &len);
    }

    /// A table was to be put with these bytes, with this answer.
    pub fn note_put(&mut self, upto: u64, bytes: &[u8], answer: &Result<(), DiskErr>)
        ensures { self.new.calls ≡ table_was_put upto bytes.now (is_ok answer.now) ∷ self.old.calls }
    {
        *self = self.made(&(upto, bytes), answer);
    }

    /// A file was to be removed, with this answer.
    pub fn note_removal(&mut self, place: FilePlace, answer: &Result<(), DiskErr>)
        ensures { self.new.calls ≡ was_removed place (is_ok answer.now) ∷ self.old.calls }
    {
        *self = self.made(&place, answer);
    }

    /// This operation was put in flight.
    pub fn note_start(&mut self, id: OpId, op: DiskOp<'_>)
        ensures { self.new.calls ≡ was_started id (flight_of op.entry) ∷ self.old.calls }
    {
        *self = self.made(&id, &op);
    }

    /// It was asked how an operation stands, and gave this answer.
    pub fn note_poll(&mut self, id: OpId, answer: Progress)
        ensures { self.new.calls ≡ was_polled id answer ∷ self.old.calls }
    {
        *self = self.made(&id, &answer);
    }

    // A log of the calls that the caller's proof makes of this one and of the two values.
    fn made<A, B>(&self, _first: &A, _second: &B) -> CallLog
        ghost calls: { List Call }
        ensures { result.calls ≡ calls }
    {
        CallLog {}
    }
}

impl fmt::Debug for CallLog {
    fn fmt<W: fmt::Write>(&self, f: &mut fmt::Formatter<W>) -> fmt::Result {
        f.write_str("CallLog")
    }
}
