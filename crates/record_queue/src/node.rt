//! A node for one record, made before the record is there. With it the record goes into a queue without memory.

ghost use Rattle.std.specs.Prelude.{◌≡◌, Some, None, IfOk, MatchOption};

use batch_repr::Numbered;
use std::alloc::Global;
use std::collections::LinkedList;
use std::marker::Model;
use wal_base::NoMemory;

/// A record, and whether it is to be synced.
#[derive(Debug, Drop)]
pub struct Filled {
    pub rec: Numbered,
    pub sync: bool,
}

/// Room for one record: a list of one node, which a queue takes in as it is. Contracts see what it is filled with, if
/// it is.
#[derive(Debug, Drop)]
pub struct RecordNode {
    pub(crate) nodes: LinkedList<Option<Filled>>,
}

impl Model for RecordNode {
    ghost use Rattle.std.specs.Prelude.{◌≡◌, Option, length};
    ghost use Rattle.record_queue.specs.declared.node.Filled.{Filled};
    ghost use Rattle.record_queue.specs.Nodes.{in_first};

    ghost Value = { Option Filled };

    ghost view = { λ n. in_first n.nodes };

    ghost invariant = { λ n. length n.nodes ≡ 1 };
}

impl RecordNode {
    /// A node that is not filled. `NoMemory` where there is no room for it.
    pub fn empty(alloc: Global) -> Result<RecordNode, NoMemory>
        ensures { IfOk result (λ node. node ≡ None) }
    {
        let mut nodes = LinkedList::new(alloc);
        match nodes.push_back(None) {
            Ok(()) => Ok(RecordNode { nodes }),
            Err(_) => Err(NoMemory),
        }
    }

    /// Puts a record into it. It takes no memory.
    pub fn fill(&mut self, rec: Numbered, sync: bool)
        requires { self.old ≡ None }
        ensures { self.new ≡ Some record { rec = rec; sync = sync } }
    {
        if let Some(slot) = self.nodes.front_mut() {
            *slot = Some(Filled { rec, sync });
        }
    }

    /// What it is filled with. `None` exactly where it is not filled.
    pub fn filled(&self) -> Option<&Filled>
        ensures { MatchOption result (self.now ≡ None) (λ f. self.now ≡ Some f.now) }
    {
        match self.nodes.front() {
            Some(Some(filled)) => Some(filled),
            _ => None,
        }
    }
}
