//! The gate to the shards of a table.

ghost use Rattle.std.specs.Prelude.{◌≡◌};
ghost use Rattle.commit_queue.specs.Tables.{table_id_of};
ghost use Rattle.shard_gate.specs.Gates.{gate_table};

use commit_queue::PipeTable;
use std::alloc::Global;

/// The shards of a table, for the seats of that table.
#[derive(Drop)]
pub struct ShardGate<'t> {
    pub(crate) alloc: Global,
    pub(crate) table: &'t PipeTable,
}

impl<'t> ShardGate<'t> {
    /// The gate to the shards of this table.
    pub fn over(alloc: Global, table: &PipeTable) -> ShardGate<'_>
        ensures { gate_table result ≡ table_id_of table.now }
    {
        ShardGate { alloc, table }
    }
}
