//! What is found of a key in versions that are linked.

ghost use Rattle.std.specs.Prelude.{◌∷◌, []};
ghost use Rattle.memtable_shards.specs.Newest.{FindsNewest};

use crate::found::newer_of;
use crate::waiting::WaitingVersion;
use arena_list::Found;
use std::collections::LinkedList;

/// What is found of a key in one version.
fn find_in_one<'a>(version: &'a WaitingVersion, key: &[u8], below: u64) -> Found<'a>
    ensures { FindsNewest (version.now ∷ []) key.now below result }
{
    if version.number < below && version.is_about(key) {
        return version.found();
    }
    Found::Nothing
}

/// What is found of a key in versions that wait.
pub(crate) fn find_waiting<'a>(
    waiting: &'a LinkedList<WaitingVersion>,
    key: &[u8],
    below: u64,
) -> Found<'a>
    ensures { FindsNewest waiting.now key.now below result }
{
    let mut found = Found::Nothing;
    let mut rest = waiting.iter();
    while let Some(version) = rest.next() {
        found = newer_of(found, find_in_one(version, key, below));
    }
    found
}
