//! One shard.

ghost use Rattle.std.specs.Prelude.{◌≡◌, [], map, IfOk, OnOk};
ghost use Rattle.arena_list.specs.Versions.{AreSomeOf};
ghost use Rattle.memtable_shards.specs.Newest.{FindsNewest};
ghost use Rattle.memtable_shards.specs.Parts.{of_range, settled_in};
ghost use Rattle.memtable_shards.specs.Versions.{Gains, HasSameVersions, HaveOtherNumbers, IsSettled, key_versions};

use crate::found::newer_of;
use crate::moving::settle_first;
use crate::part::find_waiting;
use crate::pieces::PieceNode;
use crate::waiting::WaitingVersion;
use arena_list::{ArenaList, Found};
use range_cover::RangeCover;
use std::alloc::Global;
use std::collections::LinkedList;
use std::marker::Model;
use wal_base::NoMemory;

/// The versions of a shard. Contracts see the list of them. Its order says one thing alone: it is that of a walk
/// exactly where nothing waits, since what waits stands in it twice.
#[derive(Drop)]
pub struct Shard {
    index: ArenaList,
    /// The range deletes, beside the index.
    ranges: RangeCover,
    /// What was applied, and is neither in the index nor beside it yet.
    waiting: LinkedList<WaitingVersion>,
}

impl Model for Shard {
    ghost use Rattle.std.specs.Prelude.{◌++◌, List};
    ghost use Rattle.memtable_shards.specs.Versions.{Version};
    ghost use Rattle.memtable_shards.specs.Parts.{settled_in, IsShard};

    ghost Value = { List Version };

    ghost view = { λ a. settled_in a.index.versions a.ranges ++ a.waiting ++ a.waiting };

    ghost invariant = { λ a. IsShard (settled_in a.index.versions a.ranges) a.waiting };
}

/// What is found of a key in range deletes.
fn newest_range(ranges: &RangeCover, key: &[u8], below: u64) -> Found<'static>
    ensures { FindsNewest (map of_range ranges.now) key.now below result }
{
    match ranges.newest(key, below) {
        Some(seq) => Found::Gone { seq },
        None => Found::Nothing,
    }
}

/// What is found of a key in the index and beside it.
fn newest_settled<'a>(
    index: &'a ArenaList,
    ranges: &RangeCover,
    key: &[u8],
    below: u64,
) -> Found<'a>
    ensures { FindsNewest (settled_in index.now.versions ranges.now) key.now below result }
{
    newer_of(index.newest(key, below), newest_range(ranges, key, below))
}

impl Shard {
    /// Holds no version. Memory for the first nodes of its index is taken now.
    pub fn new(alloc: Global) -> Result<Shard, NoMemory>
        ensures { IfOk result (λ shard. shard ≡ []) }
    {
        Ok(Shard {
            index: ArenaList::new(alloc)?,
            ranges: RangeCover::new(alloc)?,
            waiting: LinkedList::new(alloc),
        })
    }

    /// Adds the versions of a piece, by linking its nodes. It takes no memory.
    pub fn apply(&mut self, mut piece: PieceNode)
        requires apart { HaveOtherNumbers self.old piece }
        ensures { Gains self.old piece self.new }
    {
        match self.waiting.append(&mut piece.nodes) {
            Ok(()) => {}
            Err(_) => unreachable!(),
        }
    }

    /// Moves what was applied into the index, and range deletes beside it. The versions are the same afterwards, on
    /// `Err` too, where the rest goes on waiting.
    pub fn settle(&mut self) -> Result<(), NoMemory>
        ensures same { HasSameVersions self.old self.new }
        ensures settled { OnOk result (IsSettled self.new) }
    {
        while settle_first(&mut self.index, &mut self.ranges, &mut self.waiting)? {}
        // That the index ascends is told by `walk`.
        let _walk = self.index.walk();
        Ok(())
    }

    /// The newest version of the key below a number. It looks at what is not settled, too.
    pub fn newest(&self, key: &[u8], below: u64) -> Found<'_>
        ensures { FindsNewest self.now key.now below result }
    {
        let settled = newest_settled(&self.index, &self.ranges, key, below);
        newer_of(settled, find_waiting(&self.waiting, key, below))
    }

    /// Lends what is settled of keys: all such versions, where none of them waits. It takes no memory.
    pub fn index(&self) -> &ArenaList
        ensures some { AreSomeOf result.now.versions (key_versions self.now) }
        ensures whole { IsSettled self.now → result.now.versions ≡ key_versions self.now }
    {
        &self.index
    }
}
