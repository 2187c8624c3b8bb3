//! What one seat has seen goes to another: a session adopts a batch, and two sessions meet.
ghost use Rattle.std.specs.Prelude.{◌≡◌, ◌⊎◌, [], None, IfOk, OnErr};
ghost use Rattle.publish_core.specs.declared.seat.Kind.TheVariants.{Note, Worker};
ghost use Rattle.publish_core.specs.Machine.{Acts};

use crate::layout::ENDS;
use crate::pipe_table::{PipeTable, TableSeat};
use crate::seats::{Handed, ProducerSeat, SessionSeat};
use crate::steps::{Settle, TakeIn, Tell};
use wal_base::NoMemory;

impl PipeTable {
    ghost use Rattle.commit_queue.specs.Views.{shown_view, telling_view, joined_view};
    ghost use Rattle.commit_queue.specs.Shown.{told_view};
    ghost use Rattle.commit_queue.specs.Calls.{SettlesView, TakesIn};
    ghost use Rattle.commit_queue.specs.Tables.{IsOfTable, IsSeatOf, IsSameSeat};
    ghost use Rattle.commit_queue.specs.Seats.{session_table, session_view, HasMet, HasSeenNoLess};
    ghost use Rattle.commit_queue.specs.Seats.{note_table, note_view};
    ghost use Rattle.commit_queue.specs.Seats.{producer_table, producer_view};

    /// Takes the note in. The seat then holds the note's batch, and has seen all that the note has
    /// seen.
    pub fn adopt(&self, s: &mut SessionSeat, h: Handed)
        requires table { IsOfTable self.now (session_table s.old) }
        requires note { IsOfTable self.now (note_table h) }
        requires idle { (session_view s.old).seat.held ≡ None }
        ensures same { session_table s.new ≡ session_table s.old }
        ensures adopted { TakesIn (session_view s.old) (note_view h) (session_view s.new) }
    {
        let Handed { seat, index, end } = h;
        self.take_in_at(&mut s.seat, seat);
        s.index = index;
        s.end = end;
    }

    /// Each of the two has then seen all that both had seen. On `Err` neither has seen less than
    /// before.
    pub fn meet(&self, a: &mut SessionSeat, b: &mut SessionSeat) -> Result<(), NoMemory>
        requires table_a { IsOfTable self.now (session_table a.old) }
        requires table_b { IsOfTable self.now (session_table b.old) }
        requires idle_a { (session_view a.old).seat.held ≡ None }
        requires idle_b { (session_view b.old).seat.held ≡ None }
        ensures same_a { session_table a.new ≡ session_table a.old }
        ensures same_b { session_table b.new ≡ session_table b.old }
        ensures met_a { IfOk result (λ _. HasMet a.old b.old a.new) }
        ensures met_b { IfOk result (λ _. HasMet b.old a.old b.new) }
        ensures less_a { OnErr result (HasSeenNoLess a.old a.new) }
        ensures less_b { OnErr result (HasSeenNoLess b.old b.new) }
    {
        let from_a = self.tell_at(&mut a.seat);
        let from_b = self.tell_at(&mut b.seat);
        self.take_in_at(&mut a.seat, from_b);
        self.take_in_at(&mut b.seat, from_a);
        Ok(())
    }

    /// Shows a session all that the producer's seat has seen, which is each batch that was placed.
    pub fn show(&self, p: &mut ProducerSeat, s: &mut SessionSeat)
        requires producer { IsOfTable self.now (producer_table p.old) }
        requires table { IsOfTable self.now (session_table s.old) }
        requires idle { (session_view s.old).seat.held ≡ None }
        ensures same_producer { producer_table p.new ≡ producer_table p.old }
        ensures same { session_table s.new ≡ session_table s.old }
        ensures left { producer_view p.new ≡ telling_view (producer_view p.old) }
        ensures shown { TakesIn (session_view s.old) (told_view (producer_view p.old)) (session_view s.new) }
    {
        let note = self.tell_at(&mut p.seat);
        self.take_in_at(&mut s.seat, note);
    }

    /// A note that shows what the seat has seen.
    fn tell_at(&self, seat: &mut TableSeat) -> TableSeat
        requires table { IsSeatOf self.now seat.old }
        requires acts { Acts seat.old.me.0.seat }
        ensures same { IsSameSeat seat.old seat.new }
        ensures left { seat.new.me ≡ (telling_view seat.old.me.0, seat.old.me.1) }
        ensures table { result.table_id ≡ seat.old.table_id }
        ensures note { result.me ≡ (shown_view Note seat.old.me.0, []) }
    {
        self.table.shared.split_seat::<Tell>(seat)
    }

    /// The seat takes in the note, and has then seen what both had seen.
    fn take_in_at(&self, seat: &mut TableSeat, note: TableSeat)
        requires table { IsSeatOf self.now seat.old × IsSeatOf self.now note }
        requires worker { seat.old.me.0.seat.kind ≡ Worker }
        requires note { (note.me.0.seat.kind ≡ Note) × (note.me.1 ≡ []) }
        requires calm { (seat.old.me.0.absorbed ≡ []) × (note.me.0.absorbed ≡ []) }
        requires one { (seat.old.me.0.seat.held ≡ None) ⊎ (note.me.0.seat.held ≡ None) }
        ensures same { IsSameSeat seat.old seat.new × (seat.new.me.1 ≡ seat.old.me.1) }
        ensures told { TakesIn seat.old.me.0 note.me.0 seat.new.me.0 }
    {
        self.join_at(seat, note);
        self.settle_at(seat);
    }

    fn join_at(&self, seat: &mut TableSeat, note: TableSeat)
        requires table { IsSeatOf self.now seat.old × IsSeatOf self.now note }
        requires worker { seat.old.me.0.seat.kind ≡ Worker }
        requires note { (note.me.0.seat.kind ≡ Note) × (note.me.1 ≡ []) }
        requires calm { (seat.old.me.0.absorbed ≡ []) × (note.me.0.absorbed ≡ []) }
        requires one { (seat.old.me.0.seat.held ≡ None) ⊎ (note.me.0.seat.held ≡ None) }
        ensures same { IsSameSeat seat.old seat.new }
        ensures told { seat.new.me ≡ (joined_view seat.old.me.0 note.me.0, seat.old.me.1) }
    {
        self.table.shared.join_seat::<TakeIn>(seat, note);
    }

    /// What the seat took in is among what it has seen.
    pub(crate) fn settle_at(&self, seat: &mut TableSeat)
        requires table { IsSeatOf self.now seat.old }
        requires acts { Acts seat.old.me.0.seat }
        ensures same { IsSameSeat seat.old seat.new }
        ensures told { (seat.new.me.1 ≡ seat.old.me.1) × SettlesView seat.old.me.0 seat.new.me.0 }
    {
        self.table.shared.load::<Settle>(seat, ENDS);
    }
}
