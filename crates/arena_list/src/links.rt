//! The links between nodes, and the list of free places.

ghost use Rattle.std.specs.Prelude.{◌≡◌, ◌≢◌, ℕ, ◌+◌, ◌^◌, ◌<◌, ◌≤◌, List, IfOk, OnOk, OnErr, IsOk, length, slice_index, vec_len, vec_capacity};
ghost use Rattle.arena_list.specs.Nodes.{node_at, next_on, AreFree};
ghost use Rattle.arena_list.specs.Steps.{AreWithin, AreOtherPlaces, LinksIn, LinksOut, MakesPlace, TakesPlace, PutsIn, TakesOut};

use crate::node::{Held, LEVELS, Node, Place};
use std::mem::replace;
use wal_base::NoMemory;

/// The free places, linked at level 0.
#[derive(Drop)]
pub(crate) struct FreeList {
    /// The first one's place, and 0 where there is none.
    pub(crate) first: Place,
    pub(crate) count: usize,
}

/// The links of a new node that follows these nodes, so many levels high.
fn links_after(nodes: &[Node], lasts: &[Place; LEVELS], height: usize) -> [Place; LEVELS]
    requires height { height ≤ LEVELS }
    requires within { AreWithin nodes.now lasts.now }
    ensures { (level : ℕ) → level < height
        → slice_index result level ≡ next_on nodes.now level (slice_index lasts.now level) }
{
    let mut links = [0; LEVELS];
    for level in 0..height {
        links[level] = nodes[lasts[level] as usize].links[level];
    }
    links
}

/// Makes these nodes lead on to a place, so many levels high.
fn link_in(nodes: &mut [Node], lasts: &[Place; LEVELS], place: Place, height: usize)
    requires height { height ≤ LEVELS }
    requires within { AreWithin nodes.old lasts.now }
    ensures { LinksIn nodes.old lasts.now place height nodes.new }
{
    for level in 0..height {
        let node = &mut nodes[lasts[level] as usize];
        node.links[level] = place;
    }
}

/// Makes these nodes lead on to what follows a place, on each level where they lead on to it.
fn link_out(nodes: &mut [Node], lasts: &[Place; LEVELS], place: Place)
    requires within { AreWithin nodes.old lasts.now }
    requires place { place < length nodes.old }
    ensures { LinksOut nodes.old lasts.now place LEVELS nodes.new }
{
    for level in 0..LEVELS {
        let next = nodes[place as usize].links[level];
        let node = &mut nodes[lasts[level] as usize];
        if node.links[level] == place {
            node.links[level] = next;
        }
    }
}

/// Makes room for one more node. It grows by an eighth, so that little of it stays empty: a long list takes at
/// most 100 bytes a version beside the `Blob`s of its key and value.
fn reserve_one(nodes: &mut Vec<Node>) -> Result<(), NoMemory>
    requires { vec_len nodes.old < 2 ^ 32 }
    ensures items { nodes.new.items ≡ nodes.old.items }
    ensures room { OnOk result (vec_len nodes.new < vec_capacity nodes.new) }
{
    if nodes.len() == nodes.capacity() {
        let more = nodes.len() / 8 + 4;
        nodes.reserve_exact(more)?;
    }
    Ok(())
}

/// Makes a new place. Its node holds nothing, and leads on to no other.
pub(crate) fn make_place(nodes: &mut Vec<Node>) -> Result<Place, NoMemory>
    requires { vec_len nodes.old < 2 ^ 32 }
    ensures made { IfOk result (λ place. MakesPlace nodes.old.items place nodes.new.items) }
    ensures nodes { OnErr result (nodes.new.items ≡ nodes.old.items) }
{
    let place = nodes.len();
    if place >= u32::MAX as usize {
        return Err(NoMemory);
    }
    reserve_one(nodes)?;
    nodes.push_reserved(Node::vacant(0));
    Ok(place as Place)
}

/// Takes a place off the free list, or makes a new one where there is none. Its node holds nothing.
pub(crate) fn take_place(nodes: &mut Vec<Node>, free: &mut FreeList) -> Result<Place, NoMemory>
    requires free { (frees : List ℕ) × AreFree nodes.old.items free.old.first free.old.count frees }
    requires few { vec_len nodes.old < 2 ^ 32 }
    ensures taken { IfOk result
        (λ place. TakesPlace nodes.old.items free.old place nodes.new.items free.new) }
    ensures room { free.old.first ≢ 0 → IsOk result }
    ensures nodes { OnErr result (nodes.new.items ≡ nodes.old.items) }
    ensures free { OnErr result (free.new ≡ free.old) }
{
    let place = free.first;
    if place != 0 {
        free.first = nodes[place as usize].links[0];
        free.count -= 1;
        return Ok(place);
    }
    make_place(nodes)
}

/// Puts a version into a place, and links it in after these nodes, so many levels high.
pub(crate) fn put_in(
    nodes: &mut [Node],
    lasts: &[Place; LEVELS],
    place: Place,
    height: usize,
    held: Held,
    lead: u64,
    seq: u64,
)
    requires height { height ≤ LEVELS }
    requires within { AreWithin nodes.old lasts.now }
    requires place { place < length nodes.old }
    requires apart { AreOtherPlaces lasts.now place }
    ensures { PutsIn nodes.old lasts.now place height held lead seq nodes.new }
{
    let links = links_after(nodes, lasts, height);
    nodes[place as usize] = Node {
        links,
        seq,
        lead,
        held,
    };
    link_in(nodes, lasts, place, height);
}

/// Links a place out, hands over what it held, and makes it lead on to the first free place.
pub(crate) fn take_out(
    nodes: &mut [Node],
    lasts: &[Place; LEVELS],
    place: Place,
    first: Place,
) -> Held
    requires within { AreWithin nodes.old lasts.now }
    requires place { place < length nodes.old }
    ensures out { TakesOut nodes.old lasts.now place first nodes.new }
    ensures held { result ≡ (node_at nodes.old place).held }
{
    link_out(nodes, lasts, place);
    let out = replace(&mut nodes[place as usize], Node::vacant(first));
    out.held
}
