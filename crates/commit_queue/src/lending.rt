//! A shard is taken out of its slot, and given back.
ghost use Rattle.std.specs.Prelude.{◌≡◌, ◌<◌, [], None, Some, true, MatchOption};
ghost use Rattle.memtable_shards.specs.declared.sharding.TheConstants.{SHARDS};
ghost use Rattle.publish_core.specs.Machine.{Acts};

use crate::layout::TURNS_FROM;
use crate::pipe_table::{PipeTable, TableSeat};
use crate::steps::{GiveApplied, GiveShard, TakeShard};
use memtable_shards::Shard;

impl PipeTable {
    ghost use Rattle.commit_queue.specs.Views.{busy_view, given_view};
    ghost use Rattle.commit_queue.specs.Stands.{slots_out};
    ghost use Rattle.commit_queue.specs.Tells.{TakesShard};
    ghost use Rattle.commit_queue.specs.Calls.{GivesSame, GivesApplied, EndsTurn};
    ghost use Rattle.commit_queue.specs.Tables.{IsSeatOf, IsSameSeat};

    /// Takes a shard where its word is 0, and finds it taken otherwise.
    pub(crate) fn take_shard_at(&self, seat: &mut TableSeat, shard: usize) -> Option<Shard>
        requires table { IsSeatOf self.now seat.old }
        requires small { shard < SHARDS }
        requires acts { Acts seat.old.me.0.seat }
        requires no_turn { seat.old.me.0.seat.turn ≡ None }
        requires none_out { seat.old.me.1 ≡ [] }
        ensures same { IsSameSeat seat.old seat.new }
        ensures out { MatchOption result (seat.new.me.1 ≡ []) (λ _. seat.new.me.1 ≡ slots_out (Some shard)) }
        ensures taken { MatchOption result (seat.new.me.0 ≡ busy_view seat.old.me.0) (λ x. TakesShard seat.old.me.0 shard x seat.new.me.0) }
    {
        let words = &self.table.shared;
        let nothing: Option<Shard> = None;
        if words.compare_exchange::<TakeShard>(seat, shard + TURNS_FROM, 0, 1) != 0 {
            return nothing;
        }
        words.exchange(seat, shard, nothing)
    }

    /// Gives a shard back with the versions that it was taken with.
    pub(crate) fn give_shard_at(&self, seat: &mut TableSeat, shard: usize, value: Shard)
        requires table { IsSeatOf self.now seat.old }
        requires acts { Acts seat.old.me.0.seat }
        requires small { shard < SHARDS }
        requires turn { seat.old.me.0.seat.turn ≡ Some shard }
        requires out { seat.old.me.1 ≡ slots_out (Some shard) }
        requires gives { GivesSame seat.old.me.0 value }
        ensures same { IsSameSeat seat.old seat.new }
        ensures home { seat.new.me.1 ≡ [] }
        ensures ended { seat.new.me.0 ≡ given_view seat.old.me.0 }
    {
        let words = &self.table.shared;
        match words.exchange(seat, shard, Some(value)) {
            None => {}
            Some(_) => unreachable!(),
        }
        words.store::<GiveShard>(seat, shard + TURNS_FROM, 0);
        self.returned[shard].notify_one();
    }

    /// Gives a shard back with the piece of the batch that the seat holds.
    pub(crate) fn give_applied_at(&self, seat: &mut TableSeat, shard: usize, value: Shard)
        requires table { IsSeatOf self.now seat.old }
        requires acts { Acts seat.old.me.0.seat }
        requires small { shard < SHARDS }
        requires turn { seat.old.me.0.seat.turn ≡ Some shard }
        requires out { seat.old.me.1 ≡ slots_out (Some shard) }
        requires gives { GivesApplied seat.old.me.0 value }
        ensures same { IsSameSeat seat.old seat.new }
        ensures home { seat.new.me.1 ≡ [] }
        ensures ended { EndsTurn seat.old.me.0 true seat.new.me.0 }
    {
        let words = &self.table.shared;
        match words.exchange(seat, shard, Some(value)) {
            None => {}
            Some(_) => unreachable!(),
        }
        words.store::<GiveApplied>(seat, shard + TURNS_FROM, 0);
        self.returned[shard].notify_one();
    }
}
