//! A batch's versions, cut by shard before the batch has its numbers.

ghost use Rattle.std.specs.Prelude.{◌≡◌, ◌+◌, ◌<◌, ◌≤◌, [], ◌∷◌, None, Some, length};
ghost use Rattle.std.specs.Prelude.{IsSome, IfOk, OnOk, IfSome, IfNone};
ghost use Rattle.std.specs.Option.{option_to_list};
ghost use Rattle.batch_repr.specs.declared.limits.TheConstants.{NUMBER_MAX};
ghost use Rattle.batch_repr.specs.Batches.{count_of};
ghost use Rattle.memtable_shards.specs.Versions.{versions_from};
ghost use Rattle.memtable_shards.specs.Parts.{counted_from, MayWait};
ghost use Rattle.memtable_shards.specs.Parts.{AreByShard, AddsByShard, AddsToFirst};
ghost use Rattle.memtable_shards.specs.Parts.{AreEmptyBetween, IsFirstWithAny};
ghost use Rattle.memtable_shards.specs.Pieces.{whole_pieces, IsNextPiece, NoPieceIsLeft};

use crate::sharding::{SHARDS, shard_index};
use crate::waiting::{Change, WaitingVersion};
use std::alloc::Global;
use std::collections::LinkedList;
use std::marker::Model;
use std::snapshot::Snapshot;
use std::{array, mem};
use wal_base::{Entries, Entry, NoMemory};

/// The versions for each shard, at its place.
type Lists = [LinkedList<WaitingVersion>; SHARDS];

/// The versions that a batch has for one shard, in nodes that are linked without memory.
/// Contracts see the list of them.
#[derive(Drop)]
pub struct PieceNode {
    pub(crate) nodes: LinkedList<WaitingVersion>,
}

impl Model for PieceNode {
    ghost use Rattle.std.specs.Prelude.{List};
    ghost use Rattle.memtable_shards.specs.Versions.{Version};
    ghost use Rattle.memtable_shards.specs.Parts.{MayWait};

    ghost Value = { List Version };

    ghost view = { λ a. a.nodes };

    ghost invariant = { λ a. MayWait a.nodes };
}

/// A batch's versions in pieces, one for each shard that has any. Contracts see the entries, the first
/// number, if they are numbered, and the shard from which on pieces are left.
#[derive(Drop)]
pub struct Pieces {
    entries: Snapshot<Entries>,
    first: Option<u64>,
    from: usize,
    /// Those before `from` were handed out.
    lists: Lists,
}

impl Model for Pieces {
    ghost use Rattle.memtable_shards.specs.Pieces.{PiecesLeft};
    ghost use Rattle.memtable_shards.specs.Parts.{AreCut};

    ghost Value = { PiecesLeft };

    ghost view = { λ a. record { entries = a.entries.value; first = a.first; from = a.from } };

    ghost invariant = { λ a. AreCut a.entries.value a.first a.from a.lists };
}

impl Pieces {
    /// Gives each entry but the notes its number, from this one on. It takes no memory.
    pub fn number(&mut self, first: u64)
        requires fresh { self.old.first ≡ None }
        requires within { first + count_of self.old.entries ≤ NUMBER_MAX }
        ensures { self.new ≡ record self.old { first = Some first } }
    {
        self.first = Some(first);
    }

    /// Hands out the piece of the next shard that has one, with the shard. `None` exactly where all were
    /// handed out. It takes no memory.
    pub fn take(&mut self) -> Option<(usize, PieceNode)>
        requires numbered { IsSome self.old.first }
        ensures next { IfSome result (λ piece. IsNextPiece self.old piece.0 piece.1) }
        ensures handed { IfSome result (λ piece. self.new ≡ record self.old { from = piece.0 + 1 }) }
        ensures none { IfNone result (NoPieceIsLeft self.old) }
        ensures same { IfNone result (self.new ≡ self.old) }
    {
        let Some(first) = self.first else {
            unreachable!();
        };
        let shard = first_with_any(&self.lists, self.from)?;
        let nodes = number_nodes(take_list(&mut self.lists[shard]), first);
        self.from = shard + 1;
        Some((shard, PieceNode { nodes }))
    }
}

/// The first shard from this one on that has a version.
fn first_with_any(lists: &Lists, from: usize) -> Option<usize>
    requires { length lists.now ≡ SHARDS }
    ensures some { IfSome result (IsFirstWithAny lists.now from) }
    ensures none { IfNone result (AreEmptyBetween lists.now from SHARDS) }
{
    for shard in from..SHARDS {
        if !lists[shard].is_empty() {
            return Some(shard);
        }
    }
    None
}

/// Takes a list, and leaves an empty one. It takes no memory.
fn take_list(list: &mut LinkedList<WaitingVersion>) -> LinkedList<WaitingVersion>
    ensures taken { result ≡ list.old }
    ensures left { list.new ≡ [] }
{
    let empty = LinkedList::new(*list.allocator());
    mem::replace(list, empty)
}

/// Adds a first number to that of each version, and links the nodes anew. It takes no memory.
fn number_nodes(mut nodes: LinkedList<WaitingVersion>, first: u64) -> LinkedList<WaitingVersion>
    requires { MayWait (counted_from first nodes) }
    ensures { result ≡ counted_from first nodes }
{
    let mut numbered = LinkedList::new(*nodes.allocator());
    while let Some(version) = nodes.front_mut() {
        version.number += first;
        let Ok(rest) = nodes.split_off(1) else {
            unreachable!();
        };
        let Ok(()) = numbered.append(&mut nodes) else {
            unreachable!();
        };
        nodes = rest;
    }
    numbered
}

/// Cuts the versions of entries into pieces, which take their bytes over.
pub fn split(alloc: Global, entries: Entries) -> Result<Pieces, NoMemory>
    ensures { IfOk result (λ pieces. pieces ≡ whole_pieces entries) }
{
    let seen = Snapshot::of(&entries);
    Ok(Pieces {
        entries: seen,
        first: None,
        from: 0,
        lists: sort_versions(alloc, entries)?,
    })
}

/// A list of no version for each shard. It takes no memory.
fn empty_lists(alloc: Global) -> Lists
    ensures eight { length result ≡ SHARDS }
    ensures own { AreByShard [] result }
{
    array::from_fn(|_| LinkedList::new(alloc))
}

/// The version that an entry leaves under a number, which takes its bytes over: none where it is a note.
fn version_of(entry: Entry, number: u64) -> Option<WaitingVersion>
    ensures { option_to_list result ≡ versions_from number (entry ∷ []) }
{
    match entry {
        Entry::Set { key, value } => Some(WaitingVersion {
            change: Change::Key {
                key,
                value: Some(value),
            },
            number,
        }),
        Entry::Delete { key } => Some(WaitingVersion {
            change: Change::Key { key, value: None },
            number,
        }),
        Entry::Note { .. } => None,
        Entry::RangeDelete { start, end } => Some(WaitingVersion {
            change: Change::Range { start, end },
            number,
        }),
    }
}

/// Adds a version at the end of the list of each shard that it belongs to: that of its key, or each.
fn add_version(lists: &mut Lists, version: WaitingVersion) -> Result<(), NoMemory>
    requires eight { length lists.old ≡ SHARDS }
    ensures eight { length lists.new ≡ SHARDS }
    ensures added { OnOk result (AddsByShard version lists.old lists.new) }
{
    let Change::Key { key, .. } = &version.change else {
        return add_to_all(lists, &version);
    };
    let shard = shard_index(key.as_slice());
    lists[shard].push_back(version)?;
    Ok(())
}

/// Adds a version at the end of each list. Its bytes are shared, and not copied.
fn add_to_all(lists: &mut Lists, version: &WaitingVersion) -> Result<(), NoMemory>
    requires eight { length lists.old ≡ SHARDS }
    ensures eight { length lists.new ≡ SHARDS }
    ensures added { OnOk result (AddsToFirst version.now SHARDS lists.old lists.new) }
{
    for shard in 0..SHARDS {
        let same = version.share()?;
        lists[shard].push_back(same)?;
    }
    Ok(())
}

/// The versions of the entries, numbered from 0 on, by their shards.
fn sort_versions(alloc: Global, entries: Entries) -> Result<Lists, NoMemory>
    ensures eight { IfOk result (λ lists. length lists ≡ SHARDS) }
    ensures own { IfOk result (λ lists. AreByShard (versions_from 0 entries) lists) }
{
    let mut lists = empty_lists(alloc);
    let mut number = 0;
    for entry in entries.into_vec() {
        if let Some(version) = version_of(entry, number) {
            add_version(&mut lists, version)?;
            number += 1;
        }
    }
    Ok(lists)
}
