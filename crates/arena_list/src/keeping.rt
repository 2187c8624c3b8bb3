//! Taking out, in one walk, the versions that no mark keeps.

ghost use Rattle.std.specs.Prelude.{◌≡◌, ◌≢◌, ◌↔◌, ◌<◌, leb, IsTrue, filter, length};
ghost use Rattle.std.specs.List.Sorted.{IsNonDecreasing};
ghost use Rattle.arena_list.specs.Nodes.{IsArena, node_at, version_at};
ghost use Rattle.arena_list.specs.Steps.{AreWithin};
ghost use Rattle.arena_list.specs.Fronts.{ShareFront, HaveFront};
ghost use Rattle.arena_list.specs.Keeping.{IsBetween, IsNewerFor, StepsOver, Sweeps, is_full};

use crate::guide::Guide;
use crate::links::{FreeList, take_out};
use crate::node::{LEVELS, Node, Place};

/// Whether a mark is above the number, and at most so high.
fn is_marked(marks: &[u64], number: u64, most: Option<u64>) -> bool
    requires { IsNonDecreasing marks.now }
    ensures { IsTrue result ↔ IsBetween marks.now number most }
{
    let place = marks.partition_point(
        |mark: &u64| -> bool
            ensures { result ≡ leb mark.now number }
        { *mark <= number },
    );
    if place >= marks.len() {
        return false;
    }
    match most {
        None => true,
        Some(most) => marks[place] <= most,
    }
}

/// The number of the version at a place where it is of the same key as the one at the next place: the next newer of that
/// one's key. The keys of both have a front of so many bytes.
fn newer_than(nodes: &[Node], place: Place, next: Place, shared: usize) -> Option<u64>
    requires place { place < length nodes.now }
    requires next { next < length nodes.now }
    requires front { next ≢ 0 → HaveFront shared (node_at nodes.now next)
        (node_at nodes.now place) }
    ensures { next ≢ 0 → IsNewerFor (version_at nodes.now place) (version_at nodes.now next)
        result }
{
    let version = &nodes[place as usize];
    if next != 0 && nodes[next as usize].has_key_of(version, shared) {
        Some(version.seq)
    } else {
        None
    }
}

/// Goes on past a place on each level where it comes next.
fn step_over(nodes: &[Node], lasts: &mut [Place; LEVELS], place: Place)
    requires { AreWithin nodes.now lasts.old }
    ensures { StepsOver nodes.now lasts.old place LEVELS lasts.new }
{
    for level in 0..LEVELS {
        if nodes[lasts[level] as usize].links[level] == place {
            lasts[level] = place;
        }
    }
}

/// Takes out the versions that are their key's newest below none of the marks, and answers how many.
pub(crate) fn sweep(nodes: &mut [Node], free: &mut FreeList, shared: usize, marks: &[u64]) -> u64
    requires arena { IsArena nodes.old free.old.first free.old.count }
    requires front { ShareFront shared nodes.old }
    requires marks { IsNonDecreasing marks.now }
    ensures swept { Sweeps nodes.old free.old marks.now nodes.new free.new result }
    ensures front { ShareFront shared nodes.new }
{
    let mut lasts = [0; LEVELS];
    let mut place = nodes[0].links[0];
    let mut newer = None;
    let mut removed = 0;
    while place != 0 {
        let node = &nodes[place as usize];
        let next = node.links[0];
        let wanted = is_marked(marks, node.seq, newer);
        newer = newer_than(nodes, place, next, shared);
        if wanted {
            step_over(nodes, &mut lasts, place);
        } else {
            take_out(nodes, &lasts, place, free.first);
            free.first = place;
            free.count += 1;
            removed += 1;
        }
        place = next;
    }
    removed
}

/// Keeps the entries whose nodes hold a version.
pub(crate) fn keep_full(nodes: &[Node], top: &mut Vec<Guide>)
    ensures { top.new.items ≡ filter (λ guide. is_full nodes.now guide.place) top.old.items }
{
    top.retain(|guide| match nodes.get(guide.place as usize) {
        Some(node) => node.is_full(),
        None => false,
    });
}
