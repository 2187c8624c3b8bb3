//! The queue between the two locks.
use crate::rule::{FlowView, InOrder};
use crossbeam_queue::RuledSegQueue;
use record_queue::RecordNode;

/// A queue of nodes under the rule.
pub(crate) type Nodes = RuledSegQueue<RecordNode, FlowView, InOrder>;

/// The queue between the two locks. Both sides share it. It has room for as many nodes as there is memory for.
pub struct RecordFlow {
    pub(crate) nodes: Nodes,
}

impl Drop for RecordFlow {
    /// Drops the nodes that are still on their way, and frees the queue.
    fn drop(self) {
        let Self { nodes } = self;
        nodes.destroy();
    }
}
