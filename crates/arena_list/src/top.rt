//! The entries that a search looks at first.
//!
//! A tower has twelve levels at most, so in a long list many nodes are linked at the top one. Of the nodes with high
//! towers, one in 64, what is compared stands in a vector, side by side. A search finds its way in it by halves, mostly
//! without a look at a node, and goes on along the levels below.

ghost use Rattle.std.specs.Prelude.{◌≡◌, ◌⊎◌, ℕ, ◌-◌, ◌<◌, ◌≤◌, IsTrue, Contains, length, slice_index, take, drop, vec_len};
ghost use Rattle.arena_list.specs.declared.guide.Guide.{Guide as Entry};
ghost use Rattle.arena_list.specs.Nodes.{next_on, IsLinked};
ghost use Rattle.arena_list.specs.Steps.{AreCuts, AreCutsTo, AreLastsFor};
ghost use Rattle.arena_list.specs.Fronts.{ShareFront, AreTold};
ghost use Rattle.arena_list.specs.Tops.{places_of, IsTop, IsTopCut, PutsInTop, TakesFromTop, guide_at, GuidesAnew};

use crate::guide::Guide;
use crate::node::{GUIDE_HEIGHT, LEVELS, Node, Place};
use crate::search::{Stop, seek};
use crate::sought::Sought;

/// Where a version stands.
#[derive(Drop)]
pub(crate) struct Spot {
    /// For each level that was searched the last node there that goes before it, and for the others the head.
    pub(crate) lasts: [Place; LEVELS],
    /// How many entries of the top go before it.
    pub(crate) index: usize,
}

/// How many of the entries go before what is sought.
fn count_before(nodes: &[Node], top: &[Guide], sought: &Sought<'_>) -> usize
    requires linked { IsLinked nodes.now }
    requires front { ShareFront sought.now.shared nodes.now }
    requires top { IsTop sought.now.shared nodes.now top.now }
    requires told { AreTold nodes.now sought.now }
    ensures { IsTopCut nodes.now (places_of top.now) sought.now.key.now sought.now.number result }
{
    let mut low = 0;
    let mut high = top.len();
    while low < high {
        let middle = low + (high - low) / 2;
        if top[middle].is_before(nodes, sought) {
            low = middle + 1;
        } else {
            high = middle;
        }
    }
    low
}

/// The place of the entry before an index, and 0 where there is none.
fn place_before(top: &[Guide], index: usize) -> Place
    requires { index ≤ length top.now }
    ensures { (result ≡ 0) ⊎ Contains (take index (places_of top.now)) result }
{
    if index == 0 { 0 } else { top[index - 1].place }
}

/// The place of the entry at an index, and 0 where there is none.
fn place_from(top: &[Guide], index: usize) -> Place
    ensures { (result ≡ 0) ⊎ Contains (drop index (places_of top.now)) result }
{
    if index < top.len() {
        top[index].place
    } else {
        0
    }
}

/// The place of the last tall entry before an index, and 0 where there is none.
fn tall_before(top: &[Guide], index: usize) -> Place
    requires { index ≤ length top.now }
    ensures { (result ≡ 0)
        ⊎ ((entry : Entry) × Contains (take index top.now) entry × IsTrue entry.is_tall
        × (entry.place ≡ result)) }
{
    let mut left = index;
    while left > 0 {
        left -= 1;
        if top[left].is_tall {
            return top[left].place;
        }
    }
    0
}

/// For each level that a low tower has the last node there that goes before what is sought. It begins between the nodes of
/// the entries beside the index.
fn seek_low(nodes: &[Node], top: &[Guide], index: usize, sought: &Sought<'_>) -> [Place; LEVELS]
    requires head { 0 < length nodes.now }
    requires linked { IsLinked nodes.now }
    requires top { IsTop sought.now.shared nodes.now top.now }
    requires told { AreTold nodes.now sought.now }
    requires index { IsTopCut nodes.now (places_of top.now) sought.now.key.now sought.now.number
        index }
    ensures { AreCutsTo nodes.now sought.now.key.now sought.now.number GUIDE_HEIGHT result }
{
    let from = Stop {
        last: place_before(top, index),
        next: place_from(top, index),
    };
    seek(nodes, from, GUIDE_HEIGHT, sought)
}

/// For each level the last node there that goes before what is sought. It begins at the node of a tall entry.
fn seek_all(nodes: &[Node], top: &[Guide], index: usize, sought: &Sought<'_>) -> [Place; LEVELS]
    requires head { 0 < length nodes.now }
    requires linked { IsLinked nodes.now }
    requires top { IsTop sought.now.shared nodes.now top.now }
    requires told { AreTold nodes.now sought.now }
    requires index { IsTopCut nodes.now (places_of top.now) sought.now.key.now sought.now.number
        index }
    ensures { AreCuts nodes.now sought.now.key.now sought.now.number result }
{
    let from = Stop {
        last: tall_before(top, index),
        next: 0,
    };
    seek(nodes, from, LEVELS, sought)
}

/// Finds where the version that is sought stands on so many levels, held or not.
pub(crate) fn find_spot(nodes: &[Node], top: &[Guide], sought: &Sought<'_>, height: usize) -> Spot
    requires height { height ≤ LEVELS }
    requires head { 0 < length nodes.now }
    requires linked { IsLinked nodes.now }
    requires front { ShareFront sought.now.shared nodes.now }
    requires top { IsTop sought.now.shared nodes.now top.now }
    requires told { AreTold nodes.now sought.now }
    ensures lasts { AreCutsTo nodes.now sought.now.key.now sought.now.number height result.lasts }
    ensures index { IsTopCut nodes.now (places_of top.now) sought.now.key.now sought.now.number
        result.index }
{
    let index = count_before(nodes, top, sought);
    let lasts = if height > GUIDE_HEIGHT {
        seek_all(nodes, top, index, sought)
    } else {
        seek_low(nodes, top, index, sought)
    };
    Spot { lasts, index }
}

/// For each level where a place is linked the last node before it, from those of the levels that a low tower has. Only a
/// place that is linked at the highest of these can be linked above.
pub(crate) fn lasts_for(
    nodes: &[Node],
    top: &[Guide],
    spot: &Spot,
    place: Place,
    sought: &Sought<'_>,
) -> [Place; LEVELS]
    requires head { 0 < length nodes.now }
    requires linked { IsLinked nodes.now }
    requires top { IsTop sought.now.shared nodes.now top.now }
    requires told { AreTold nodes.now sought.now }
    requires lasts { AreCutsTo nodes.now sought.now.key.now sought.now.number GUIDE_HEIGHT
        spot.now.lasts }
    requires index { IsTopCut nodes.now (places_of top.now) sought.now.key.now sought.now.number
        spot.now.index }
    requires next { place ≡ next_on nodes.now 0 (slice_index spot.now.lasts 0) }
    ensures { AreLastsFor nodes.now sought.now.key.now sought.now.number place result }
{
    let level = GUIDE_HEIGHT - 1;
    if nodes[spot.lasts[level] as usize].links[level] == place {
        return seek_all(nodes, top, spot.index, sought);
    }
    spot.lasts
}

/// Puts an entry for a place in at an index, if its tower is high. Where there is no memory for it, searches go without it.
pub(crate) fn put_in_top(
    top: &mut Vec<Guide>,
    nodes: &[Node],
    index: usize,
    place: Place,
    height: usize,
    shared: usize,
)
    requires index { index ≤ vec_len top.old }
    requires place { place < length nodes.now }
    ensures { PutsInTop shared nodes.now top.old.items index place height top.new.items }
{
    if height >= GUIDE_HEIGHT {
        let guide = Guide::of(&nodes[place as usize], place, height == LEVELS, shared);
        let _ = top.insert(index, guide);
    }
}

/// Takes the entry for a place out if it stands at an index.
pub(crate) fn take_from_top(top: &mut Vec<Guide>, index: usize, place: Place)
    ensures { TakesFromTop top.old.items index place top.new.items }
{
    if index < top.len() && top[index].place == place {
        top.remove(index);
    }
}

/// Makes all entries anew, of keys with a front of so many bytes.
pub(crate) fn guide_anew(top: &mut [Guide], nodes: &[Node], shared: usize)
    requires { (k : ℕ) → k < length top.old → (guide_at top.old k).place < length nodes.now }
    ensures { GuidesAnew nodes.now shared (length top.old) top.old top.new }
{
    for index in 0..top.len() {
        let place = top[index].place;
        let is_tall = top[index].is_tall;
        top[index] = Guide::of(&nodes[place as usize], place, is_tall, shared);
    }
}
