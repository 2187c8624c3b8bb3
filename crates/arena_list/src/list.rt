//! The list.

ghost use Rattle.std.specs.Prelude.{◌≡◌, ◌↔◌, ◌+◌, ◌-◌, ◌<◌, ◌≤◌, [], IsTrue, IfOk, IfErr, OnOk, OnErr, IsOk, IfSome, IfNone, OnSome, option_map, length};
ghost use Rattle.std.specs.List.Sorted.{IsNonDecreasing};
ghost use Rattle.std.specs.Bool.{OnTrue, OnFalse};
ghost use Rattle.arena_list.specs.Versions.{version_with, version_shown, version_taken, AscendVersions, HoldsVersion, Adds, LeavesOut, AreSomeOf, IsRestFrom};
ghost use Rattle.arena_list.specs.Newest.{FindsNewestOfKey};
ghost use Rattle.arena_list.specs.Marks.{KeepsMarked};
ghost use Rattle.arena_list.specs.Spots.{IsLastBefore, IsFirstFrom};
ghost use Rattle.arena_list.specs.Arena.{on_level, places_in, UsesPlace, MakesRoom};

use crate::found::Found;
use crate::front::lower_front;
use crate::guide::Guide;
use crate::keeping::{keep_full, sweep};
use crate::links::{FreeList, make_place, put_in, take_out, take_place};
use crate::marks::Marks;
use crate::node::{GUIDE_HEIGHT, Held, LEVELS, Node};
use crate::search::find;
use crate::sought::Sought;
use crate::top::{find_spot, lasts_for, put_in_top, take_from_top};
use crate::version::Version;
use crate::walk::Walk;
use std::alloc::Global;
use std::marker::Model;
use wal_base::{Blob, NoMemory};

/// How many nodes a new list has room for.
const FIRST_ROOM: usize = 4;

/// The versions of keys, by key ascending and, within a key, by number descending. Contracts see the list of them, what
/// is linked at each level, and the number of free places.
#[derive(Drop)]
pub struct ArenaList {
    nodes: Vec<Node>,
    /// What is compared of nodes with high towers, in order, where a search begins.
    top: Vec<Guide>,
    /// How many first bytes are the same in all keys.
    shared: usize,
    free: FreeList,
    /// How many insertions there were.
    inserted: u64,
}

impl Model for ArenaList {
    ghost use Rattle.arena_list.specs.Arena.{Arena};
    ghost use Rattle.arena_list.specs.Nodes.{arena_of, IsArena};
    ghost use Rattle.arena_list.specs.Fronts.{ShareFront};
    ghost use Rattle.arena_list.specs.Tops.{IsTop};

    ghost Value = { Arena };

    ghost view = { λ a. arena_of a.nodes.items a.free.count };

    ghost invariant = { λ a. IsArena a.nodes.items a.free.first a.free.count
        × ShareFront a.shared a.nodes.items × IsTop a.shared a.nodes.items a.top.items };
}

/// The height of the tower of the n-th insertion: 1 plus the number of trailing zero bits of n, at most `LEVELS`.
fn tower_height(n: u64) -> usize
    ensures some { 0 < result }
    ensures most { result ≤ LEVELS }
{
    (n.trailing_zeros() as usize + 1).min(LEVELS)
}

impl ArenaList {
    /// Holds nothing. Memory for the first nodes is taken now.
    pub fn new(alloc: Global) -> Result<ArenaList, NoMemory>
        ensures versions { IfOk result (λ list. list.versions ≡ []) }
        ensures free { IfOk result (λ list. list.free ≡ 0) }
    {
        let mut nodes = Vec::with_capacity(alloc, FIRST_ROOM)?;
        nodes.push(Node::vacant(0))?;
        Ok(ArenaList {
            nodes,
            top: Vec::new(alloc),
            shared: 0,
            free: FreeList { first: 0, count: 0 },
            inserted: 0,
        })
    }

    /// Makes a place where none is free, so that the next insertion is not refused. After an error all is as it was.
    pub fn reserve_one(&mut self) -> Result<(), NoMemory>
        ensures room { OnOk result (MakesRoom self.old self.new) }
        ensures unchanged { OnErr result (self.new ≡ self.old) }
    {
        if self.free.count > 0 {
            return Ok(());
        }
        let place = make_place(&mut self.nodes)?;
        self.free = FreeList {
            first: place,
            count: 1,
        };
        Ok(())
    }

    /// Adds a version, whose key and number are not held. `Err` means out of memory or of places, hands key and value
    /// back, and changes nothing.
    pub fn insert(
        &mut self,
        key: Blob,
        seq: u64,
        value: Option<Blob>,
    ) -> Result<(), (Blob, Option<Blob>)>
        requires absent { HoldsVersion self.old.versions key seq → ⊥ }
        ensures added { OnOk result
            (Adds self.old.versions (version_with key seq value) self.new.versions) }
        ensures place { OnOk result (UsesPlace self.old self.new) }
        ensures room { 0 < self.old.free → IsOk result }
        ensures back { IfErr result (λ back. back ≡ (key, value)) }
        ensures unchanged { OnErr result (self.new ≡ self.old) }
    {
        let inserted = self.inserted.wrapping_add(1);
        let height = tower_height(inserted);
        let (nodes, top) = (self.nodes.as_mut_slice(), self.top.as_mut_slice());
        self.shared = lower_front(nodes, top, self.shared, key.as_slice());
        let sought = Sought::behind(self.shared, key.as_slice(), seq);
        let lead = sought.lead;
        let spot = find_spot(self.nodes.as_slice(), self.top.as_slice(), &sought, height);
        let Ok(place) = take_place(&mut self.nodes, &mut self.free) else {
            return Err((key, value));
        };
        self.inserted = inserted;
        let held = Held::of(key, value);
        let nodes = self.nodes.as_mut_slice();
        put_in(nodes, &spot.lasts, place, height, held, lead, seq);
        put_in_top(&mut self.top, nodes, spot.index, place, height, self.shared);
        Ok(())
    }

    /// The key's version with the greatest number below `below`. It takes no memory.
    pub fn newest(&self, key: &[u8], below: u64) -> Found<'_>
        ensures { FindsNewestOfKey self.now.versions key.now below result }
    {
        let Some(number) = below.checked_sub(1) else {
            return Found::Nothing;
        };
        let nodes = self.nodes.as_slice();
        let sought = Sought::among(nodes, self.shared, key, number);
        let spot = find_spot(nodes, self.top.as_slice(), &sought, 1);
        let place = nodes[spot.lasts[0] as usize].links[0];
        if place == 0 || !nodes[place as usize].has_key(&sought) {
            return Found::Nothing;
        }
        Found::one(&nodes[place as usize])
    }

    /// The last version that goes before the spot of a key and a number, where a version of these stands or not. It
    /// takes no memory.
    pub fn before(&self, key: &[u8], seq: u64) -> Option<Version<'_>>
        ensures { IsLastBefore self.now.versions key.now seq (option_map version_shown result) }
    {
        let nodes = self.nodes.as_slice();
        let sought = Sought::among(nodes, self.shared, key, seq);
        let spot = find_spot(nodes, self.top.as_slice(), &sought, 1);
        let place = spot.lasts[0];
        if place == 0 {
            return None;
        }
        Some(nodes[place as usize].version())
    }

    /// The first version that does not go before the spot of a key and a number. It takes no memory.
    pub fn from(&self, key: &[u8], seq: u64) -> Option<Version<'_>>
        ensures { IsFirstFrom self.now.versions key.now seq (option_map version_shown result) }
    {
        let nodes = self.nodes.as_slice();
        let sought = Sought::among(nodes, self.shared, key, seq);
        let spot = find_spot(nodes, self.top.as_slice(), &sought, 1);
        let place = nodes[spot.lasts[0] as usize].links[0];
        if place == 0 {
            return None;
        }
        Some(nodes[place as usize].version())
    }

    /// Goes over all versions, by key ascending and, within a key, by number descending. It takes no memory.
    pub fn walk(&self) -> Walk<'_>
        ensures versions { result ≡ self.now.versions }
        ensures ascend { AscendVersions self.now.versions }
    {
        self.walk_level(0)
    }

    /// Goes over the versions that are linked at a level, in the same order. It takes no memory.
    pub fn walk_level(&self, level: u32) -> Walk<'_>
        requires { level < LEVELS }
        ensures level { result ≡ on_level self.now level }
        ensures lowest { on_level self.now 0 ≡ self.now.versions }
        ensures ascend { AscendVersions (on_level self.now level) }
        ensures some { AreSomeOf (on_level self.now level) (on_level self.now (level - 1)) }
    {
        Walk::new(self.nodes.as_slice(), level as usize)
    }

    /// Goes over the versions that do not go before that of a key and a number, in the same order. It takes no memory.
    pub fn walk_from(&self, key: &[u8], seq: u64) -> Walk<'_>
        ensures { IsRestFrom self.now.versions key.now seq result }
    {
        let nodes = self.nodes.as_slice();
        let sought = Sought::among(nodes, self.shared, key, seq);
        let spot = find_spot(nodes, self.top.as_slice(), &sought, 1);
        Walk::from(nodes, nodes[spot.lasts[0] as usize].links[0])
    }

    /// Takes the version with this key and number out, and frees its place. False exactly where it was not held. It takes
    /// no memory.
    pub fn remove(&mut self, key: &[u8], seq: u64) -> bool
        ensures held { IsTrue result ↔ HoldsVersion self.old.versions key.now seq }
        ensures versions { LeavesOut self.old.versions key.now seq self.new.versions }
        ensures free { OnTrue result (self.new.free ≡ self.old.free + 1) }
        ensures places { places_in self.new ≡ places_in self.old }
        ensures unchanged { OnFalse result (self.new ≡ self.old) }
    {
        let (nodes, top) = (self.nodes.as_slice(), self.top.as_slice());
        let sought = Sought::among(nodes, self.shared, key, seq);
        let spot = find_spot(nodes, top, &sought, GUIDE_HEIGHT);
        let Some(place) = find(nodes, &spot.lasts, &sought) else {
            return false;
        };
        let lasts = lasts_for(nodes, top, &spot, place, &sought);
        take_out(self.nodes.as_mut_slice(), &lasts, place, self.free.first);
        take_from_top(&mut self.top, spot.index, place);
        self.free.first = place;
        self.free.count += 1;
        true
    }

    /// Takes the first version that does not go before the spot of a key and a number out, hands it over, and frees its
    /// place. `None` exactly where there is none. It takes no memory.
    pub fn take_from(&mut self, key: &[u8], seq: u64) -> Option<(Blob, u64, Option<Blob>)>
        ensures first { IsFirstFrom self.old.versions key.now seq
            (option_map version_taken result) }
        ensures versions { IfSome result
            (λ taken. LeavesOut self.old.versions taken.0 taken.1 self.new.versions) }
        ensures free { OnSome result (self.new.free ≡ self.old.free + 1) }
        ensures places { places_in self.new ≡ places_in self.old }
        ensures unchanged { IfNone result (self.new ≡ self.old) }
    {
        let (nodes, top) = (self.nodes.as_slice(), self.top.as_slice());
        let sought = Sought::among(nodes, self.shared, key, seq);
        let spot = find_spot(nodes, top, &sought, GUIDE_HEIGHT);
        let taken = nodes[spot.lasts[0] as usize].links[0];
        if taken == 0 {
            return None;
        }
        let seq = nodes[taken as usize].seq;
        let lasts = lasts_for(nodes, top, &spot, taken, &sought);
        let held = take_out(self.nodes.as_mut_slice(), &lasts, taken, self.free.first);
        take_from_top(&mut self.top, spot.index, taken);
        self.free = FreeList {
            first: taken,
            count: self.free.count + 1,
        };
        match held.into_parts() {
            Some((key, value)) => Some((key, seq, value)),
            None => unreachable!(),
        }
    }

    /// Keeps the versions that are their key's newest below one of the marks, takes out every other one, and answers how
    /// many. It goes over the list once, and takes no memory.
    pub fn keep_for(&mut self, marks: &Marks) -> u64
        requires { IsNonDecreasing marks.now }
        ensures kept { KeepsMarked self.old.versions marks.now self.new.versions }
        ensures fewer { result + length self.new.versions ≡ length self.old.versions }
        ensures freed { self.new.free ≡ self.old.free + result }
    {
        let nodes = self.nodes.as_mut_slice();
        let removed = sweep(nodes, &mut self.free, self.shared, marks.as_slice());
        keep_full(self.nodes.as_slice(), &mut self.top);
        removed
    }

    /// How many places there are: one for each version, and the free ones.
    pub fn places(&self) -> usize
        ensures { result ≡ places_in self.now }
    {
        self.nodes.len() - 1
    }

    /// How many places are free: so many insertions take no memory for a node.
    pub fn free_places(&self) -> usize
        ensures { result ≡ self.now.free }
    {
        self.free.count
    }
}
