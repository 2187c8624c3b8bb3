//! The front that the keys of a list have in common.
//!
//! Keys that begin alike, as those of one table do, would have the same lead. So a list keeps how many first bytes are the
//! same in all its keys, and leads are of what follows. Nothing else tells the front: it is read from the first key.

ghost use Rattle.std.specs.Prelude.{◌≡◌, ◌+◌, ◌<◌, ◌≤◌, [], IfSome, IfNone, length, take};
ghost use Rattle.arena_list.specs.declared.node.Node.{Node as Item};
ghost use Rattle.arena_list.specs.Leads.{LeadsTell};
ghost use Rattle.arena_list.specs.Nodes.{key_of, places_on, IsLinked};
ghost use Rattle.arena_list.specs.Fronts.{IsLed, AllLed, ShareFront, KeepsAllButLeads, LeadsAnew};
ghost use Rattle.arena_list.specs.Tops.{IsTop};

use crate::guide::Guide;
use crate::lead::{LEAD_SIZE, lead, rest_of, shared_len};
use crate::node::Node;
use crate::top::guide_anew;
use std::cmp::Ordering;

/// The front of so many bytes, and `None` where no key is held.
pub(crate) fn front_of(nodes: &[Node], shared: usize) -> Option<&[u8]>
    requires head { 0 < length nodes.now }
    requires linked { IsLinked nodes.now }
    requires front { ShareFront shared nodes.now }
    ensures len { IfSome result (λ front. length front.now ≡ shared) }
    ensures led { IfSome result (λ front. AllLed front.now nodes.now) }
    ensures none { IfNone result (places_on nodes.now 0 ≡ []) }
{
    let first = nodes[0].links[0];
    if first == 0 {
        return None;
    }
    if shared == 0 {
        return Some(&[]);
    }
    Some(&nodes[first as usize].held.key()[..shared])
}

/// A lead and an extent that tell how keys with this front stand to a key. Where it does not begin with the front, it goes
/// before or after them all.
pub(crate) fn lead_behind(key: &[u8], front: &[u8]) -> (u64, usize)
    ensures begins { 0 < result.1
        → (result.1 ≡ length front.now + 8) × (length front.now ≤ length key.now) }
    ensures tells { (node : Item) → IsLed front.now node
        → LeadsTell (key_of node.held) node.lead key.now result.0 result.1 }
{
    match key.strip_prefix(front) {
        Some(rest) => (lead(rest), front.len() + LEAD_SIZE),
        None => match key.cmp(front) {
            Ordering::Less => (0, 0),
            Ordering::Equal | Ordering::Greater => (u64::MAX, 0),
        },
    }
}

/// Makes all leads anew, of what follows so many bytes.
fn lead_anew(nodes: &mut [Node], shared: usize)
    ensures { LeadsAnew nodes.old shared (length nodes.old) nodes.new }
{
    for place in 0..nodes.len() {
        let node = &mut nodes[place];
        node.lead = lead(rest_of(node.held.key(), shared));
    }
}

/// Lowers the front to what a key begins with, too, and answers its length. That visits each node, but all such passes
/// together visit no more nodes than the keys have bytes: each key visited had the bytes that leave the front.
pub(crate) fn lower_front(nodes: &mut [Node], top: &mut [Guide], shared: usize, key: &[u8]) -> usize
    requires head { 0 < length nodes.old }
    requires linked { IsLinked nodes.old }
    requires front { ShareFront shared nodes.old }
    requires top { IsTop shared nodes.old top.old }
    ensures within { result ≤ length key.now }
    ensures len { length top.new ≡ length top.old }
    ensures kept { KeepsAllButLeads nodes.old nodes.new }
    ensures led { AllLed (take result key.now) nodes.new }
    ensures top { IsTop result nodes.new top.new }
{
    let left = match front_of(nodes, shared) {
        None => return key.len(),
        Some(front) if key.starts_with(front) => return shared,
        Some(front) => shared_len(key, front),
    };
    lead_anew(nodes, left);
    guide_anew(top, nodes, left);
    left
}
