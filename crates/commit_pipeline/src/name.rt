//! The name of a pipeline. What stands behind a lock is known by its type alone, so the type names
//! what the pipeline was made of.
ghost use Rattle.atomic_table.specs.Seated.{TableId};
ghost use Rattle.record_flow.specs.Passes.{FlowId};
ghost use Rattle.commit_pipeline.specs.Openings.{Opening};

use std::marker::Brand;
use std::sync::ledger::Ledger;

/// What a pipeline was made of, for contracts. The ledger is that of the batches. Each pipeline has
/// a name of its own, which is picked when its parts are at hand.
pub trait PipeName: Ledger {
    /// The table of the commit ring.
    ghost table: { TableId };

    /// The queue of the records on their way to the journal.
    ghost queue: { FlowId };

    /// The batches of the store, the journal and its disk as they were.
    ghost opening: { Opening };
}

impl PipeName for Brand {
    ghost use Rattle.commit_pipeline.specs.Names.{unnamed_table, unnamed_queue, unnamed_opening};

    ghost table = { unnamed_table };

    ghost queue = { unnamed_queue };

    ghost opening = { unnamed_opening };
}
