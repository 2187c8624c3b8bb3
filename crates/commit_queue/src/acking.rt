//! The acked word is raised by the flush seat, and read by the sessions.
ghost use Rattle.std.specs.Prelude.{◌≡◌, None, true};
ghost use Rattle.publish_core.specs.declared.seat.Kind.TheVariants.{Worker};
ghost use Rattle.publish_core.specs.Machine.{Acts};

use crate::layout::{ACKED, ENDS, HALF};
use crate::pipe_table::{PipeTable, TableSeat};
use crate::seats::{FlushSeat, SessionSeat};
use crate::steps::{LoadAcked, LoadEnds, RaiseAcked};

impl PipeTable {
    ghost use Rattle.commit_queue.specs.Calls.{RaisesAcked, SeesAcked};
    ghost use Rattle.commit_queue.specs.Tables.{IsOfTable, IsSeatOf, IsSameSeat};
    ghost use Rattle.commit_queue.specs.Seats.{flush_table, flush_seat_view};
    ghost use Rattle.commit_queue.specs.Seats.{session_table, session_view};

    /// Raises the acked word to at least the lesser of `n` and head, and answers that lesser
    /// number.
    pub fn raise_acked(&self, f: &mut FlushSeat, n: u64) -> u64
        requires table { IsOfTable self.now (flush_table f.old) }
        ensures same { flush_table f.new ≡ flush_table f.old }
        ensures raised { RaisesAcked (flush_seat_view f.old) n result (flush_seat_view f.new) }
    {
        self.raise_acked_at(&mut f.seat, n)
    }

    /// The acked number, which is at least all that the seat has seen.
    pub fn acked(&self, s: &mut SessionSeat) -> u64
        requires table { IsOfTable self.now (session_table s.old) }
        ensures same { session_table s.new ≡ session_table s.old }
        ensures seen { SeesAcked (session_view s.old) result (session_view s.new) }
    {
        self.acked_at(&mut s.seat)
    }

    fn raise_acked_at(&self, seat: &mut TableSeat, n: u64) -> u64
        requires table { IsSeatOf self.now seat.old }
        requires flush { seat.old.me.0.acked_known.is_flush ≡ true }
        requires worker { seat.old.me.0.seat.kind ≡ Worker }
        ensures same { IsSameSeat seat.old seat.new × (seat.new.me.1 ≡ seat.old.me.1) }
        ensures raised { RaisesAcked seat.old.me.0 n result seat.new.me.0 }
    {
        let both = self.table.shared.load::<LoadEnds>(seat, ENDS);
        let head = both / HALF;
        let to = n.min(head);
        self.table.shared.fetch_max::<RaiseAcked>(seat, ACKED, to);
        to
    }

    fn acked_at(&self, seat: &mut TableSeat) -> u64
        requires table { IsSeatOf self.now seat.old }
        requires acts { Acts seat.old.me.0.seat }
        requires calm { seat.old.me.0.acked_known.retired ≡ None }
        ensures same { IsSameSeat seat.old seat.new × (seat.new.me.1 ≡ seat.old.me.1) }
        ensures seen { SeesAcked seat.old.me.0 result seat.new.me.0 }
    {
        self.table.shared.load::<LoadAcked>(seat, ACKED)
    }
}
