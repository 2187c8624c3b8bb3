//! How the queue is made, with its two passes.
ghost use Rattle.std.specs.Prelude.{◌≡◌, IfOk};
ghost use Rattle.crossbeam_queue.specs.SegTies.{IsSegPassOf};
ghost use Rattle.record_flow.specs.Views.{opening_view};
ghost use Rattle.record_flow.specs.Passes.{OpensFlow};

use crate::flow::{Nodes, RecordFlow};
use crate::passes::{FlushPass, NodePass, SendPass};
use crate::rule::{Opening, Roles};
use std::alloc::Global;
use std::marker::Brand;
use wal_base::NoMemory;

/// Splits the pass of a new queue into one that pushes and one that pops.
fn opened<K: Opening>(first: u64, nodes: Nodes, pass: NodePass) -> (RecordFlow, SendPass, FlushPass)
    requires first { first ≡ K.first }
    requires pass { IsSegPassOf nodes pass }
    requires opening { pass.me.view.client ≡ opening_view }
    ensures { OpensFlow first result.0 result.1 result.2 }
{
    let mut pass = pass;
    let pops = nodes.another::<Roles<K>>(&mut pass);
    (
        RecordFlow { nodes },
        SendPass { pass },
        FlushPass { pass: pops },
    )
}

impl RecordFlow {
    /// A queue for the records from the number `first` on, with the pass that sends into it and the pass that takes
    /// out of it. `NoMemory` if there is no memory for its two ends and its first block.
    pub fn new(alloc: Global, first: u64) -> Result<(RecordFlow, SendPass, FlushPass), NoMemory>
        ensures { IfOk result (λ made. OpensFlow first made.0 made.1 made.2) }
    {
        let (nodes, pass) = Nodes::with_rule(alloc)?;
        Ok(opened::<Brand>(first, nodes, pass))
    }
}
