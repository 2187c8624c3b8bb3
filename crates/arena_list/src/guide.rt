//! One of the entries that a search looks at first.

ghost use Rattle.std.specs.Prelude.{◌≡◌, ◌↔◌, ◌<◌, IsTrue, length};
ghost use Rattle.std.specs.Ordering.{nat_cmp};
ghost use Rattle.std.specs.Cmp.Lexicographic.{slice_cmp};
ghost use Rattle.arena_list.specs.Versions.{GoesBefore};
ghost use Rattle.arena_list.specs.Nodes.{node_at, version_in, version_at};
ghost use Rattle.arena_list.specs.Fronts.{HasFront, IsNodeTold};
ghost use Rattle.arena_list.specs.Tops.{TellsVersion};

use crate::lead::{lead, length_in_lead, rest_of};
use crate::node::{Node, Place};
use crate::sought::Sought;
use std::cmp::Ordering;
use std::mem::size_of;

/// A node with a high tower: what is compared of its version, so that a search that looks at many mostly reads no node.
#[derive(Drop)]
pub(crate) struct Guide {
    lead: u64,
    number: u64,
    pub(crate) place: Place,
    /// The length of what follows the front in its key, where that ends within the lead. Front, lead and length tell such
    /// a key whole.
    len: Option<u8>,
    /// Whether its tower has all levels.
    pub(crate) is_tall: bool,
}

const _: () = prove!(size_of::<Guide>() == 24);

impl Guide {
    /// What is compared of a node's version, whose key has a front of so many bytes, and where the node stands.
    pub(crate) fn of(node: &Node, place: Place, is_tall: bool, shared: usize) -> Guide
        ensures place { result.place ≡ place }
        ensures tall { result.is_tall ≡ is_tall }
        ensures tells { TellsVersion shared result (version_in node.now) }
    {
        let rest = rest_of(node.held.key(), shared);
        Guide {
            lead: lead(rest),
            number: node.seq,
            place,
            len: length_in_lead(rest),
            is_tall,
        }
    }

    /// How the key of its node stands to the one that is sought. The node is read only where both keys go on after equal
    /// leads.
    fn order(&self, nodes: &[Node], sought: &Sought<'_>) -> Ordering
        requires node { self.now.place < length nodes.now }
        requires tells { TellsVersion sought.now.shared self.now
            (version_at nodes.now self.now.place) }
        requires told { IsNodeTold (node_at nodes.now self.now.place) sought.now }
        requires front { HasFront sought.now.shared (node_at nodes.now self.now.place) }
        ensures { result
            ≡ slice_cmp nat_cmp (version_at nodes.now self.now.place).key sought.now.key.now }
    {
        if self.lead < sought.lead {
            return Ordering::Less;
        }
        if self.lead > sought.lead {
            return Ordering::Greater;
        }
        match self.len {
            Some(len) if sought.extent > 0 => usize::from(len).cmp(
                &(sought.key.len() - sought.shared),
            ),
            None if sought.key.len() <= sought.extent => Ordering::Greater,
            _ => nodes[self.place as usize].order(sought),
        }
    }

    /// Whether the version of its node goes before what is sought.
    pub(crate) fn is_before(&self, nodes: &[Node], sought: &Sought<'_>) -> bool
        requires node { self.now.place < length nodes.now }
        requires tells { TellsVersion sought.now.shared self.now
            (version_at nodes.now self.now.place) }
        requires told { IsNodeTold (node_at nodes.now self.now.place) sought.now }
        requires front { HasFront sought.now.shared (node_at nodes.now self.now.place) }
        ensures { IsTrue result
            ↔ GoesBefore (version_at nodes.now self.now.place) sought.now.key.now sought.now.number }
    {
        match self.order(nodes, sought) {
            Ordering::Less => true,
            Ordering::Equal => sought.number < self.number,
            Ordering::Greater => false,
        }
    }
}
