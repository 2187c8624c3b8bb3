//! Reads.
ghost use Rattle.std.specs.Prelude.{IfOk, OnErr};
ghost use Rattle.commit_pipeline.specs.Commits.{TellsRead, MissesRead};

use crate::fault::Reply;
use crate::gate::Gate;
use crate::name::PipeName;
use crate::pipeline::Pipeline;
use crate::session::Session;
use disk_face::Disk;
use memtable_shards::shard_index;
use shard_gate::{ReadBusy, ShardGate};
use std::sync::Wait;
use std::sync::ledger::Ledger;
use wal_base::NoMemory;

impl<'a, D: Disk, G: Gate, N: PipeName, M: Ledger> Pipeline<'a, D, G, N, M> {
    /// Reads a key after all batches that are published now.
    pub fn get<R: Wait>(
        &self,
        rt: &R,
        session: &mut Session<N, M>,
        key: &[u8],
    ) -> Result<Reply, NoMemory>
        ensures answers { IfOk result (λ reply. TellsRead N.opening key.now reply session.old session.new) }
        ensures err { OnErr result (MissesRead session.old session.new) }
    {
        let seat = &mut session.desk.seat;
        let visible = self.table.visible(seat);
        let shards = ShardGate::over(self.alloc, &self.table);
        let mut waiter = self.table.await_shard(shard_index(key));
        for _ in rt.forever() {
            match shards.try_newest(seat, key, visible) {
                Ok(value) => return Ok(Reply { visible, value }),
                Err(ReadBusy::Busy) => waiter.wait(rt),
                Err(ReadBusy::NoMemory) => return Err(NoMemory),
            }
        }
        unreachable!()
    }
}
