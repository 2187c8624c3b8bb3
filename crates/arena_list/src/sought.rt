//! What a search looks for.

ghost use Rattle.std.specs.Prelude.{◌≡◌, ◌+◌, ◌<◌, ◌≤◌, length};

use crate::front::{front_of, lead_behind};
use crate::lead::{LEAD_SIZE, lead, rest_of};
use crate::node::Node;

/// A key and a number, whose spot in a list is sought. What is compared of the key stands beside it, so that it is
/// computed once a search, and not at each comparison.
#[derive(Drop)]
pub(crate) struct Sought<'k> {
    /// The lead of what follows the front. For a key that does not begin with the front it is the least or the greatest
    /// that there is: such a key stands before or after all that the list holds.
    pub(crate) lead: u64,
    /// How long a key is at most that is told whole by front, lead and length, and 0 where the key does not begin with the
    /// front.
    pub(crate) extent: usize,
    /// The length of the front.
    pub(crate) shared: usize,
    pub(crate) key: &'k [u8],
    pub(crate) number: u64,
    ghost begins: { 0 < extent → (extent ≡ shared + 8) × (shared ≤ length key.now) },
}

impl<'k> Sought<'k> {
    ghost use Rattle.std.specs.Prelude.{◌≡◌, ◌<◌, ◌≤◌, List, length, take, drop};
    ghost use Rattle.arena_list.specs.declared.node.Node.{Node as Item};
    ghost use Rattle.arena_list.specs.Leads.{lead_of, AreBytes};
    ghost use Rattle.arena_list.specs.Nodes.{IsLinked};
    ghost use Rattle.arena_list.specs.Fronts.{AllLed, ShareFront, AreTold};

    /// What is sought among nodes whose keys begin with the first bytes of this one.
    pub(crate) fn behind(shared: usize, key: &'k [u8], number: u64) -> Sought<'k>
        requires { shared ≤ length key.now }
        ensures key { result.key.now ≡ key.now }
        ensures number { result.number ≡ number }
        ensures shared { result.shared ≡ shared }
        ensures lead { result.lead ≡ lead_of (drop shared key.now) }
        ensures bytes { AreBytes key.now }
        ensures told { (nodes : List Item) → AllLed (take shared key.now) nodes → AreTold nodes
            result }
    {
        Sought {
            lead: lead(rest_of(key, shared)),
            extent: shared + LEAD_SIZE,
            shared,
            key,
            number,
        }
    }

    /// What is sought among nodes whose keys have so many first bytes in common.
    pub(crate) fn among(nodes: &[Node], shared: usize, key: &'k [u8], number: u64) -> Sought<'k>
        requires head { 0 < length nodes.now }
        requires linked { IsLinked nodes.now }
        requires front { ShareFront shared nodes.now }
        ensures key { result.key.now ≡ key.now }
        ensures number { result.number ≡ number }
        ensures shared { result.shared ≡ shared }
        ensures told { AreTold nodes.now result }
    {
        let (lead, extent) = match front_of(nodes, shared) {
            Some(front) => lead_behind(key, front),
            None => (0, 0),
        };
        Sought {
            lead,
            extent,
            shared,
            key,
            number,
        }
    }
}
