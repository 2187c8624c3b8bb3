//! One node of a list.

ghost use Rattle.std.specs.Prelude.{◌≡◌, ◌↔◌, ℕ, ◌<◌, true, not, IsTrue, slice_index, option_map};
ghost use Rattle.std.specs.Ordering.{nat_cmp};
ghost use Rattle.std.specs.Cmp.Lexicographic.{slice_cmp};
ghost use Rattle.arena_list.specs.Versions.{IsAt, GoesBefore, version_shown};
ghost use Rattle.arena_list.specs.Nodes.{key_of, value_of, held_of, unless_vacant, is_vacant, version_in};
ghost use Rattle.arena_list.specs.Fronts.{HaveFront, IsNodeTold};

use crate::lead::{LEAD_SIZE, is_same_key, order_of_same_lead};
use crate::sought::Sought;
use crate::version::Version;
use std::cmp::Ordering;
use std::mem::size_of;
use wal_base::Blob;

/// How many levels a list has. The lowest one is level 0.
pub const LEVELS: usize = 12;

/// How high a tower is at least whose node has an entry among those that a search looks at first: that of one insertion
/// in 64.
pub(crate) const GUIDE_HEIGHT: usize = 7;

/// Where a node stands in the vector of them. Place 0 is the head's: as a link it stands for the end.
pub(crate) type Place = u32;

/// What a node holds.
#[derive(Drop)]
pub(crate) enum Held {
    /// No version: the node is the head, or free.
    Vacant,
    Deletion { key: Blob },
    Set { key: Blob, bytes: Blob },
}

/// A node, which has a place in the vector of them.
#[derive(Drop)]
pub(crate) struct Node {
    /// For each level the place of the next node there.
    pub(crate) links: [Place; LEVELS],
    /// The number of its version. It stands beside the links and the lead, so that a comparison mostly reads no more.
    pub(crate) seq: u64,
    /// The lead of its key, after the front that the keys of the list have in common. Most comparisons of keys end at that,
    /// and read no bytes from elsewhere.
    pub(crate) lead: u64,
    pub(crate) held: Held,
}

/// How many bytes a node takes beside those of its two `Blob`s.
const OWN_SIZE: usize = 72;

const _: () = prove!(size_of::<Node>() == OWN_SIZE + 2 * size_of::<Blob>());

impl Held {
    /// The version with this key and value, but for its number.
    pub(crate) fn of(key: Blob, value: Option<Blob>) -> Held
        ensures { result ≡ held_of key value }
    {
        match value {
            None => Held::Deletion { key },
            Some(bytes) => Held::Set { key, bytes },
        }
    }

    /// Hands over the key and the value of its version.
    pub(crate) fn into_parts(self) -> Option<(Blob, Option<Blob>)>
        ensures { option_map (λ parts. held_of parts.0 parts.1) result ≡ unless_vacant self }
    {
        match self {
            Held::Vacant => None,
            Held::Deletion { key } => Some((key, None)),
            Held::Set { key, bytes } => Some((key, Some(bytes))),
        }
    }

    pub(crate) fn key(&self) -> &[u8]
        ensures { result.now ≡ key_of self.now }
    {
        match self {
            Held::Vacant => &[],
            Held::Deletion { key } | Held::Set { key, .. } => key.as_slice(),
        }
    }

    /// The value that its version left the key with, and `None` for a deletion.
    pub(crate) fn value(&self) -> Option<&[u8]>
        ensures { option_map (λ bytes. bytes.now) result ≡ value_of self.now }
    {
        match self {
            Held::Vacant | Held::Deletion { .. } => None,
            Held::Set { bytes, .. } => Some(bytes.as_slice()),
        }
    }
}

impl Node {
    /// A node that holds nothing, and leads on to this place at level 0.
    pub(crate) fn vacant(next: Place) -> Node
        ensures vacant { is_vacant result.held ≡ true }
        ensures next { slice_index result.links 0 ≡ next }
        ensures others { (level : ℕ) → 0 < level → slice_index result.links level ≡ 0 }
    {
        let mut links = [0; LEVELS];
        links[0] = next;
        Node {
            links,
            seq: 0,
            lead: 0,
            held: Held::Vacant,
        }
    }

    /// How its key stands to the one that is sought. Nothing of its key is read unless the leads are equal. A search asks
    /// this of each node, so the leads are compared by two tests: `cmp` would make an answer first, which is then tested.
    pub(crate) fn order(&self, sought: &Sought<'_>) -> Ordering
        requires { IsNodeTold self.now sought.now }
        ensures { result ≡ slice_cmp nat_cmp (key_of self.now.held) sought.now.key.now }
    {
        if self.lead < sought.lead {
            return Ordering::Less;
        }
        if self.lead > sought.lead {
            return Ordering::Greater;
        }
        order_of_same_lead(self.held.key(), sought.key, sought.extent)
    }

    /// Whether its version goes before what is sought.
    pub(crate) fn is_before(&self, sought: &Sought<'_>) -> bool
        requires { IsNodeTold self.now sought.now }
        ensures { IsTrue result ↔ GoesBefore (version_in self.now) sought.now.key.now
            sought.now.number }
    {
        match self.order(sought) {
            Ordering::Less => true,
            Ordering::Equal => sought.number < self.seq,
            Ordering::Greater => false,
        }
    }

    /// Whether its version has the key that is sought. Nothing of its key is read unless the leads are equal.
    pub(crate) fn has_key(&self, sought: &Sought<'_>) -> bool
        requires { IsNodeTold self.now sought.now }
        ensures { IsTrue result ↔ ((version_in self.now).key ≡ sought.now.key.now) }
    {
        self.lead == sought.lead && is_same_key(self.held.key(), sought.key, sought.extent)
    }

    /// Whether its version has the key of another one's, where both have a front of so many bytes. Nothing of the keys is
    /// read unless the leads are equal.
    pub(crate) fn has_key_of(&self, other: &Node, shared: usize) -> bool
        requires { HaveFront shared self.now other.now }
        ensures { IsTrue result ↔ ((version_in self.now).key ≡ (version_in other.now).key) }
    {
        let key = self.held.key();
        self.lead == other.lead && is_same_key(key, other.held.key(), shared + LEAD_SIZE)
    }

    /// Whether it holds a version.
    pub(crate) fn is_full(&self) -> bool
        ensures { result ≡ not (is_vacant self.now.held) }
    {
        match self.held {
            Held::Vacant => false,
            Held::Deletion { .. } | Held::Set { .. } => true,
        }
    }

    /// Whether its version has the key and the number that are sought.
    pub(crate) fn is_at(&self, sought: &Sought<'_>) -> bool
        requires { IsNodeTold self.now sought.now }
        ensures { IsTrue result ↔ IsAt (version_in self.now) sought.now.key.now sought.now.number }
    {
        self.seq == sought.number && self.has_key(sought)
    }

    /// Shows its version.
    pub(crate) fn version(&self) -> Version<'_>
        ensures { version_shown result ≡ version_in self.now }
    {
        Version {
            key: self.held.key(),
            seq: self.seq,
            value: self.held.value(),
        }
    }
}
