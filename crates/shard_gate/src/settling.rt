//! A shard is settled, so that no read has to do it.

ghost use Rattle.std.specs.Prelude.{◌≡◌, ◌<◌, None};
ghost use Rattle.memtable_shards.specs.declared.sharding.TheConstants.{SHARDS};
ghost use Rattle.commit_queue.specs.Seats.{session_table, session_view};
ghost use Rattle.commit_queue.specs.Shown.{session_shown};
ghost use Rattle.shard_gate.specs.Gates.{gate_table};

use crate::gate::ShardGate;
use commit_queue::SessionSeat;

impl<'t> ShardGate<'t> {
    /// Settles a shard, unless it is with another seat. What finds no memory goes on waiting there. Nothing of it is seen.
    pub fn try_settle(&self, s: &mut SessionSeat, shard: usize)
        requires table { session_table s.old ≡ gate_table self.now }
        requires no_turn { (session_view s.old).seat.turn ≡ None }
        requires small { shard < SHARDS }
        ensures same { session_table s.new ≡ session_table s.old }
        ensures shown { session_shown s.new ≡ session_shown s.old }
    {
        if let Some(mut taken) = self.table.take_shard(s, shard) {
            let _ = taken.settle();
            self.table.give_shard(s, taken, false);
        }
    }
}
