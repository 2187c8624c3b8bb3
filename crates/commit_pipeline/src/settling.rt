//! The shards are settled by sessions beside one another, so that no read has to do it.
ghost use Rattle.std.specs.Prelude.{◌≡◌};
ghost use Rattle.commit_pipeline.specs.Meeting.{AreAsBefore};

use crate::gate::Gate;
use crate::name::PipeName;
use crate::pipeline::Pipeline;
use crate::session::Session;
use disk_face::Disk;
use memtable_shards::SHARDS;
use shard_gate::ShardGate;
use std::sync::ledger::Ledger;
use std::thread;
use std::thread::Threads;

impl<'a, D: Disk, G: Gate, N: PipeName, M: Ledger> Pipeline<'a, D, G, N, M> {
    /// A session settles each shard that it finds free, from this one on.
    fn settle_from(&self, session: &mut Session<N, M>, first: usize)
        ensures { session.new ≡ session.old }
    {
        let shards = ShardGate::over(self.alloc, &self.table);
        let seat = &mut session.desk.seat;
        for step in 0..SHARDS {
            shards.try_settle(seat, (first % SHARDS + step) % SHARDS);
        }
    }
}

impl<
    'a,
    D: Disk + Send,
    G: Gate + Sync,
    N: PipeName + Send + Sync,
    M: Ledger + Send + Sync,
> Pipeline<'a, D, G, N, M> {
    /// Sessions settle the shards, each on a thread beside the others, and each from another shard on. What finds no memory goes
    /// on waiting in its shard. Nothing of it is seen.
    pub fn settle<R: Threads + Sync>(&self, rt: &R, sessions: &mut [Session<N, M>])
        ensures { sessions.new ≡ sessions.old }
    {
        self.settle_beside(rt, sessions);
    }

    /// The same, said of each session.
    fn settle_beside<R: Threads + Sync>(&self, rt: &R, sessions: &mut [Session<N, M>])
        ensures { AreAsBefore sessions.old sessions.new }
    {
        thread::for_each_mut(
            rt,
            sessions,
            SHARDS,
            &|place, session: &mut Session<N, M>| self.settle_from(session, place),
        );
    }
}
