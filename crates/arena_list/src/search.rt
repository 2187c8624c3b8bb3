//! The search for where a version stands, from a level down.

ghost use Rattle.std.specs.Prelude.{◌≡◌, ◌-◌, ◌<◌, ◌≤◌, length, slice_index, IfSome, IfNone, Contains};
ghost use Rattle.arena_list.specs.Nodes.{next_on, places_on, version_at, versions_on, IsLinked};
ghost use Rattle.arena_list.specs.Versions.{IsAt, HoldsVersion};
ghost use Rattle.arena_list.specs.Steps.{IsCut, MayGoOn, MayStop, AreCutsTo};
ghost use Rattle.arena_list.specs.Fronts.{AreTold};

use crate::node::{LEVELS, Node, Place};
use crate::sought::Sought;

/// Where a search of one level stopped: the last node that goes before what is sought, and the node after it.
#[derive(Clone, Copy)]
pub(crate) struct Stop {
    pub(crate) last: Place,
    pub(crate) next: Place,
}

/// Goes on along one level, from where the level above stopped. The node where that one stopped is not compared again.
fn seek_on_level(nodes: &[Node], level: usize, from: Stop, sought: &Sought<'_>) -> Stop
    requires level { level < LEVELS }
    requires head { 0 < length nodes.now }
    requires linked { IsLinked nodes.now }
    requires told { AreTold nodes.now sought.now }
    requires last { MayGoOn nodes.now level sought.now.key.now sought.now.number from.last }
    requires next { MayStop nodes.now sought.now.key.now sought.now.number from.next }
    ensures cut { IsCut nodes.now level sought.now.key.now sought.now.number result.last }
    ensures next { result.next ≡ next_on nodes.now level result.last }
{
    let mut last = from.last;
    let mut next = nodes[last as usize].links[level];
    while next != from.next && next != 0 && nodes[next as usize].is_before(sought) {
        last = next;
        next = nodes[last as usize].links[level];
    }
    Stop { last, next }
}

/// For each of so many levels the last node there that goes before what is sought, and for the others the head. It begins
/// along the highest of them between two places.
pub(crate) fn seek(
    nodes: &[Node],
    from: Stop,
    height: usize,
    sought: &Sought<'_>,
) -> [Place; LEVELS]
    requires height { height ≤ LEVELS }
    requires head { 0 < length nodes.now }
    requires linked { IsLinked nodes.now }
    requires told { AreTold nodes.now sought.now }
    requires last { MayGoOn nodes.now (height - 1) sought.now.key.now sought.now.number from.last }
    requires next { MayStop nodes.now sought.now.key.now sought.now.number from.next }
    ensures { AreCutsTo nodes.now sought.now.key.now sought.now.number height result }
{
    let mut lasts = [0; LEVELS];
    let mut stop = from;
    let mut level = height;
    while level > 0 {
        level -= 1;
        stop = seek_on_level(nodes, level, stop, sought);
        lasts[level] = stop.last;
    }
    lasts
}

/// The place of the version that is sought: the one that the last node before it leads on to. `None` exactly where it is
/// not held.
pub(crate) fn find(nodes: &[Node], lasts: &[Place; LEVELS], sought: &Sought<'_>) -> Option<Place>
    requires head { 0 < length nodes.now }
    requires linked { IsLinked nodes.now }
    requires told { AreTold nodes.now sought.now }
    requires cut { IsCut nodes.now 0 sought.now.key.now sought.now.number
        (slice_index lasts.now 0) }
    ensures held { IfSome result (Contains (places_on nodes.now 0)) }
    ensures next { IfSome result
        (λ place. place ≡ next_on nodes.now 0 (slice_index lasts.now 0)) }
    ensures at { IfSome result
        (λ place. IsAt (version_at nodes.now place) sought.now.key.now sought.now.number) }
    ensures none { IfNone result
        (HoldsVersion (versions_on nodes.now 0) sought.now.key.now sought.now.number → ⊥) }
{
    let place = nodes[lasts[0] as usize].links[0];
    if place == 0 || !nodes[place as usize].is_at(sought) {
        return None;
    }
    Some(place)
}
