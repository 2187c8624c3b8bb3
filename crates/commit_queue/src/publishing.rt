//! A batch is marked, and taken from the front and made visible: the steps, by any seat.
ghost use Rattle.std.specs.Prelude.{◌≡◌, suc, ◌<◌, [], Some};
ghost use Rattle.publish_core.specs.Machine.{Acts, ends};
ghost use Rattle.publish_core.specs.declared.seat.Kind.TheVariants.{Producer};
ghost use Rattle.publish_core.specs.declared.seat.Claim.TheVariants.{Free};
ghost use Rattle.publish_core.specs.declared.state.TheConstants.{END_LIMIT};

use crate::layout::{ENDS, HALF, RING_FROM, VISIBLE};
use crate::pipe_table::{PipeTable, TableSeat};
use crate::published::Published;
use crate::steps::{Claim, EmptySlot, LoadEnds, LoadSlot, LoadVisible, Mark, RaiseVisible};
use publish_core::SLOTS;

impl PipeTable {
    ghost use Rattle.commit_queue.specs.Rule.{numbers};
    ghost use Rattle.commit_queue.specs.Views.{marked_view};
    ghost use Rattle.commit_queue.specs.Tells.{SeesVisible};
    ghost use Rattle.commit_queue.specs.Calls.{Tries, IsAppliedAll};
    ghost use Rattle.commit_queue.specs.Tables.{IsSeatOf, IsSameSeat};

    /// Marks the batch of the index, which the seat holds.
    pub(crate) fn mark_at(&self, seat: &mut TableSeat, index: u64, end: u64)
        requires table { IsSeatOf self.now seat.old }
        requires acts { Acts seat.old.me.0.seat }
        requires holds { seat.old.me.0.seat.held ≡ Some index }
        requires admitted { seat.old.me.0.seat.kind ≡ Producer → index < seat.old.me.0.head }
        requires calm { seat.old.me.0.absorbed ≡ [] }
        requires applied { IsAppliedAll seat.old.me.0 index }
        requires end { end ≡ ends numbers seat.old.me.0.base seat.old.me.0.history (suc index) }
        requires small { end < END_LIMIT }
        ensures same { IsSameSeat seat.old seat.new × (seat.new.me.1 ≡ seat.old.me.1) }
        ensures marked { seat.new.me.0 ≡ marked_view seat.old.me.0 index }
    {
        let at = (index % SLOTS) as usize;
        self.table
            .shared
            .store::<Mark>(seat, at + RING_FROM, 2 * end + 1);
    }

    /// Tries to take one batch from the front and to make it visible.
    pub(crate) fn try_publish_at(&self, seat: &mut TableSeat) -> Published
        requires table { IsSeatOf self.now seat.old }
        requires acts { Acts seat.old.me.0.seat }
        requires free { seat.old.me.0.seat.claim ≡ Free }
        ensures same { IsSameSeat seat.old seat.new × (seat.new.me.1 ≡ seat.old.me.1) }
        ensures tried { Tries seat.old.me.0 result seat.new.me.0 }
    {
        let words = &self.table.shared;
        let both = words.load::<LoadEnds>(seat, ENDS);
        let head = (both / HALF) as u32;
        let tail = (both % HALF) as u32;
        if head == tail {
            return Published::NotReady {
                head,
                tail,
                word: 0,
            };
        }
        let at = (tail as u64 % SLOTS) as usize;
        let word = words.load::<LoadSlot>(seat, at + RING_FROM);
        if word % 2 == 0 {
            return Published::NotReady { head, tail, word };
        }
        let found = words.compare_exchange::<Claim>(seat, ENDS, both, both + 1);
        if found != both {
            return Published::Raced {
                head: (found / HALF) as u32,
                tail: (found % HALF) as u32,
            };
        }
        words.store::<EmptySlot>(seat, at + RING_FROM, 0);
        let visible = word / 2;
        words.fetch_max::<RaiseVisible>(seat, VISIBLE, visible);
        Published::Raised {
            index: tail as u64,
            visible,
        }
    }

    /// The visible number. The seat has then seen so much published, and no less than before.
    pub(crate) fn visible_at(&self, seat: &mut TableSeat) -> u64
        requires table { IsSeatOf self.now seat.old }
        requires acts { Acts seat.old.me.0.seat }
        ensures same { IsSameSeat seat.old seat.new × (seat.new.me.1 ≡ seat.old.me.1) }
        ensures seen { SeesVisible seat.old.me.0 result seat.new.me.0 }
    {
        self.table.shared.load::<LoadVisible>(seat, VISIBLE)
    }
}
