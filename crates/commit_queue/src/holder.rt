//! The seats that may hold a batch, and the calls over either kind.
ghost use Rattle.std.specs.Prelude.{◌≡◌, ◌<◌, None, MatchOption};
ghost use Rattle.memtable_shards.specs.declared.sharding.TheConstants.{SHARDS};
ghost use Rattle.atomic_table.specs.Seated.{TableId};
ghost use Rattle.commit_queue.specs.declared.view.View.{View};
ghost use Rattle.commit_queue.specs.Views.{busy_view};
ghost use Rattle.commit_queue.specs.Tells.{SeesVisible, TakesShard};
ghost use Rattle.commit_queue.specs.Calls.{CanMark, MarksHeld, Tries, GivesBack, EndsTurn};
ghost use Rattle.commit_queue.specs.Tables.{IsOfTable};

use crate::pipe_table::PipeTable;
use crate::published::Published;
use crate::seats::{ProducerSeat, SessionSeat};
use memtable_shards::Shard;

/// A seat that may hold a batch, and that publishes.
pub trait Holder {
    /// What the seat knows.
    ghost view: { Self → View };

    /// The table that the seat is of.
    ghost table_id: { Self → TableId };

    /// Marks the batch that the seat holds.
    fn mark_on(&mut self, table: &PipeTable)
        requires table { IsOfTable table.now (table_id self.old) }
        requires applied { CanMark (view self.old) }
        ensures same { table_id self.new ≡ table_id self.old }
        ensures marked { MarksHeld (view self.old) (view self.new) };

    /// Tries to publish the batch at the front.
    fn try_publish_on(&mut self, table: &PipeTable) -> Published
        requires table { IsOfTable table.now (table_id self.old) }
        ensures same { table_id self.new ≡ table_id self.old }
        ensures tried { Tries (view self.old) result (view self.new) };

    /// Reads the visible number.
    fn visible_on(&mut self, table: &PipeTable) -> u64
        requires table { IsOfTable table.now (table_id self.old) }
        ensures same { table_id self.new ≡ table_id self.old }
        ensures seen { SeesVisible (view self.old) result (view self.new) };

    /// Takes a shard out of its slot.
    fn take_shard_on(&mut self, table: &PipeTable, shard: usize) -> Option<Shard>
        requires table { IsOfTable table.now (table_id self.old) }
        requires small { shard < SHARDS }
        requires no_turn { (view self.old).seat.turn ≡ None }
        ensures same { table_id self.new ≡ table_id self.old }
        ensures taken { MatchOption result (view self.new ≡ busy_view (view self.old)) (λ x. TakesShard (view self.old) shard x (view self.new)) };

    /// Gives a shard back into its slot.
    fn give_shard_on(&mut self, table: &PipeTable, shard: Shard, applied: bool)
        requires table { IsOfTable table.now (table_id self.old) }
        requires gives { GivesBack (view self.old) shard applied }
        ensures same { table_id self.new ≡ table_id self.old }
        ensures ended { EndsTurn (view self.old) applied (view self.new) };
}

impl Holder for ProducerSeat {
    ghost view = { λ p. p.seat.me.0 };

    ghost table_id = { λ p. p.seat.table_id };

    fn mark_on(&mut self, table: &PipeTable) {
        let index = self.head - 1;
        table.mark_at(&mut self.seat, index, self.end);
    }

    fn try_publish_on(&mut self, table: &PipeTable) -> Published {
        table.try_publish_at(&mut self.seat)
    }

    fn visible_on(&mut self, table: &PipeTable) -> u64 {
        table.visible_at(&mut self.seat)
    }

    fn take_shard_on(&mut self, table: &PipeTable, shard: usize) -> Option<Shard> {
        let taken = table.take_shard_at(&mut self.seat, shard)?;
        self.turn = Some(shard);
        Some(taken)
    }

    fn give_shard_on(&mut self, table: &PipeTable, shard: Shard, applied: bool) {
        let Some(place) = self.turn else {
            unreachable!();
        };
        if applied {
            table.give_applied_at(&mut self.seat, place, shard);
        } else {
            table.give_shard_at(&mut self.seat, place, shard);
        }
        self.turn = None;
    }
}

impl Holder for SessionSeat {
    ghost view = { λ s. s.seat.me.0 };

    ghost table_id = { λ s. s.seat.table_id };

    fn mark_on(&mut self, table: &PipeTable) {
        table.mark_at(&mut self.seat, self.index, self.end);
    }

    fn try_publish_on(&mut self, table: &PipeTable) -> Published {
        table.try_publish_at(&mut self.seat)
    }

    fn visible_on(&mut self, table: &PipeTable) -> u64 {
        table.visible_at(&mut self.seat)
    }

    fn take_shard_on(&mut self, table: &PipeTable, shard: usize) -> Option<Shard> {
        let taken = table.take_shard_at(&mut self.seat, shard)?;
        self.turn = Some(shard);
        Some(taken)
    }

    fn give_shard_on(&mut self, table: &PipeTable, shard: Shard, applied: bool) {
        let Some(place) = self.turn else {
            unreachable!();
        };
        if applied {
            table.give_applied_at(&mut self.seat, place, shard);
        } else {
            table.give_shard_at(&mut self.seat, place, shard);
        }
        self.turn = None;
    }
}

impl PipeTable {
    /// Marks the batch that the seat holds, by storing twice its end and 1 more in its slot.
    pub fn mark<H: Holder>(&self, h: &mut H)
        requires table { IsOfTable self.now (H.table_id h.old) }
        requires applied { CanMark (H.view h.old) }
        ensures same { H.table_id h.new ≡ H.table_id h.old }
        ensures marked { MarksHeld (H.view h.old) (H.view h.new) }
    {
        h.mark_on(self);
    }

    /// Takes one batch from the front and makes it visible, where it is marked and no other seat is
    /// first.
    pub fn try_publish<H: Holder>(&self, h: &mut H) -> Published
        requires table { IsOfTable self.now (H.table_id h.old) }
        ensures same { H.table_id h.new ≡ H.table_id h.old }
        ensures tried { Tries (H.view h.old) result (H.view h.new) }
    {
        h.try_publish_on(self)
    }

    /// The visible number, which is at least all that the seat has seen.
    pub fn visible<H: Holder>(&self, h: &mut H) -> u64
        requires table { IsOfTable self.now (H.table_id h.old) }
        ensures same { H.table_id h.new ≡ H.table_id h.old }
        ensures seen { SeesVisible (H.view h.old) result (H.view h.new) }
    {
        h.visible_on(self)
    }

    /// Hands out a shard, with the turn on it. `None` exactly where its word was 1 at this call's
    /// step: another seat has the turn.
    pub fn take_shard<H: Holder>(&self, h: &mut H, shard: usize) -> Option<Shard>
        requires table { IsOfTable self.now (H.table_id h.old) }
        requires small { shard < SHARDS }
        requires no_turn { (H.view h.old).seat.turn ≡ None }
        ensures same { H.table_id h.new ≡ H.table_id h.old }
        ensures taken { MatchOption result (H.view h.new ≡ busy_view (H.view h.old)) (λ x. TakesShard (H.view h.old) shard x (H.view h.new)) }
    {
        h.take_shard_on(self, shard)
    }

    /// Ends the turn. With `applied` the shard has the versions of the batch that the seat holds
    /// beside those that it was taken with.
    pub fn give_shard<H: Holder>(&self, h: &mut H, shard: Shard, applied: bool)
        requires table { IsOfTable self.now (H.table_id h.old) }
        requires gives { GivesBack (H.view h.old) shard applied }
        ensures same { H.table_id h.new ≡ H.table_id h.old }
        ensures ended { EndsTurn (H.view h.old) applied (H.view h.new) }
    {
        h.give_shard_on(self, shard, applied);
    }
}
