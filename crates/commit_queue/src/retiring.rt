//! Seats go back to the producer's, for good; and the producer's seat shows a session what it has
//! seen.
ghost use Rattle.std.specs.Prelude.{◌≡◌, ◌≤◌, [], length};
ghost use Rattle.atomic_table.specs.Seated.{TableId};
ghost use Rattle.publish_core.specs.declared.seat.Claim.TheVariants.{Free};
ghost use Rattle.publish_core.specs.declared.seat.Kind.TheVariants.{Producer, Worker};
ghost use Rattle.commit_queue.specs.declared.view.View.{View};
ghost use Rattle.commit_queue.specs.Views.{joined_view};
ghost use Rattle.commit_queue.specs.Calls.{TakesBack};
ghost use Rattle.commit_queue.specs.Tables.{IsOfTable, IsSeatOf, IsSameSeat};
ghost use Rattle.commit_queue.specs.Seats.{producer_table, producer_view, HoldsNothing};

use crate::pipe_table::{PipeTable, TableSeat};
use crate::seats::{FlushSeat, ProducerSeat, SessionSeat};
use crate::steps::TakeIn;

/// A seat that goes back to the producer's, for good.
pub trait Retired {
    /// What the seat knows.
    ghost view: { Self → View };

    /// The table that the seat is of.
    ghost table_id: { Self → TableId };

    /// The seat may go: a session's holds no batch and has no turn.
    ghost may_go: { Self → Type 0 };

    /// Joins the seat into the producer's.
    fn retire_into(self, table: &PipeTable, p: &mut ProducerSeat)
        requires table { IsOfTable table.now (producer_table p.old) }
        requires seat { IsOfTable table.now (table_id self) }
        requires goes { may_go self }
        ensures same { producer_table p.new ≡ producer_table p.old }
        ensures back { TakesBack (producer_view p.old) (view self) (producer_view p.new) };
}

impl Retired for SessionSeat {
    ghost view = { λ s. s.seat.me.0 };

    ghost table_id = { λ s. s.seat.table_id };

    ghost may_go = { λ s. HoldsNothing s.seat.me.0 };

    fn retire_into(self, table: &PipeTable, p: &mut ProducerSeat) {
        table.take_back_at(p, self.seat);
    }
}

impl Retired for FlushSeat {
    ghost view = { λ f. f.seat.me.0 };

    ghost table_id = { λ f. f.seat.table_id };

    ghost may_go = { λ f. Unit {0} };

    fn retire_into(self, table: &PipeTable, p: &mut ProducerSeat) {
        table.take_back_at(p, self.seat);
    }
}

impl PipeTable {
    /// Joins a seat into the producer's, whose are then the batches of that seat. A session's seat
    /// goes when it holds no batch and has no turn; the flush seat goes last.
    pub fn retire<R: Retired>(&self, p: &mut ProducerSeat, s: R)
        requires table { IsOfTable self.now (producer_table p.old) }
        requires seat { IsOfTable self.now (R.table_id s) }
        requires goes { R.may_go s }
        ensures same { producer_table p.new ≡ producer_table p.old }
        ensures back { TakesBack (producer_view p.old) (R.view s) (producer_view p.new) }
    {
        s.retire_into(self, p);
    }

    /// Joins a bare seat into the producer's, and settles what the producer's seat has seen.
    fn take_back_at(&self, p: &mut ProducerSeat, seat: TableSeat)
        requires table { IsOfTable self.now (producer_table p.old) }
        requires seat { IsSeatOf self.now seat }
        requires worker { seat.me.0.seat.kind ≡ Worker }
        requires calm { seat.me.0.absorbed ≡ [] }
        requires free { seat.me.0.seat.claim ≡ Free }
        requires idle { HoldsNothing seat.me.0 }
        requires none_out { seat.me.1 ≡ [] }
        requires within { seat.me.0.seat.published ≤ length seat.me.0.history }
        ensures same { producer_table p.new ≡ producer_table p.old }
        ensures back { TakesBack (producer_view p.old) seat.me.0 (producer_view p.new) }
    {
        self.retire_at(&mut p.seat, seat);
        self.settle_at(&mut p.seat);
    }

    /// Joins a bare seat into the producer's.
    fn retire_at(&self, seat: &mut TableSeat, back: TableSeat)
        requires table { IsSeatOf self.now seat.old }
        requires seat { IsSeatOf self.now back }
        requires producer { (seat.old.id ≡ 0) × (seat.old.me.0.seat.kind ≡ Producer) }
        requires calm { (seat.old.me.0.absorbed ≡ []) × (back.me.0.absorbed ≡ []) }
        requires worker { back.me.0.seat.kind ≡ Worker }
        requires free { back.me.0.seat.claim ≡ Free }
        requires idle { HoldsNothing back.me.0 }
        requires none_out { back.me.1 ≡ [] }
        ensures same { IsSameSeat seat.old seat.new }
        ensures told { seat.new.me ≡ (joined_view seat.old.me.0 back.me.0, seat.old.me.1) }
    {
        self.table.shared.join_seat::<TakeIn>(seat, back);
    }
}
