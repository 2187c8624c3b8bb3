//! What waits moves to where it is to stand, in the index or beside it: first room, then the move, so that where memory
//! runs out nothing is lost.

ghost use Rattle.std.specs.Prelude.{◌≡◌, ◌<◌, List, false, IfOk, OnErr};
ghost use Rattle.range_cover.specs.declared.mark.RangeMark.{RangeMark as Mark};
ghost use Rattle.memtable_shards.specs.Parts.{settled_in, IsShard, LacksNumber};
ghost use Rattle.memtable_shards.specs.Moving.{is_range, PutsRange, PutsKey, SettlesFirst};

use crate::waiting::{Change, WaitingVersion};
use arena_list::ArenaList;
use range_cover::{RangeCover, RangeMark};
use std::collections::LinkedList;
use wal_base::NoMemory;

/// Adds a version beside the index if it is of a range, whose keys are shared, and answers whether it is.
fn put_range(ranges: &mut RangeCover, version: &WaitingVersion) -> Result<bool, NoMemory>
    ensures put { IfOk result (PutsRange ranges.old version.now ranges.new) }
    ensures same { OnErr result (ranges.new ≡ ranges.old) }
{
    match &version.change {
        Change::Key { .. } => Ok(false),
        Change::Range { start, end } => {
            ranges.add(RangeMark {
                start: start.share()?,
                end: end.share()?,
                number: version.number,
            })?;
            Ok(true)
        }
    }
}

/// Moves a version of a key into an index in which a place is free.
fn put_key(index: &mut ArenaList, version: WaitingVersion)
    requires room { 0 < index.old.free }
    requires key { is_range version.entry ≡ false }
    requires absent { (ranges : List Mark) × LacksNumber (settled_in index.old.versions ranges) version.number }
    ensures { PutsKey index.old.versions version index.new.versions }
{
    let WaitingVersion { change, number } = version;
    let Change::Key { key, value } = change else {
        unreachable!();
    };
    let Ok(()) = index.insert(key, number, value) else {
        unreachable!();
    };
}

/// Moves the first version that waits to where it is to stand, and answers whether there was one. After an error all is as
/// it was.
pub(crate) fn settle_first(
    index: &mut ArenaList,
    ranges: &mut RangeCover,
    waiting: &mut LinkedList<WaitingVersion>,
) -> Result<bool, NoMemory>
    requires shard { IsShard (settled_in index.old.versions ranges.old) waiting.old }
    ensures { SettlesFirst
        (settled_in index.old.versions ranges.old) waiting.old
        result
        (settled_in index.new.versions ranges.new) waiting.new }
{
    let Some(version) = waiting.front() else {
        return Ok(false);
    };
    if put_range(ranges, version)? {
        let _ = waiting.pop_front();
        return Ok(true);
    }
    index.reserve_one()?;
    let Some(version) = waiting.pop_front() else {
        unreachable!();
    };
    put_key(index, version);
    Ok(true)
}
