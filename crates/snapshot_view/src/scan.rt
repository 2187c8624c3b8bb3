//! A scan of the keys that have a value at a number.

ghost use Rattle.std.specs.Prelude.{◌≡◌, Option, Some, None, IsTrue, option_map};
ghost use Rattle.std.specs.Iterator.{YieldsFirstBy, item_count};
ghost use Rattle.arena_list.specs.Versions.{version_shown};
ghost use Rattle.snapshot_view.specs.Scans.{is_met, is_hidden, is_passed, open_value, pair_shown, pairs_left};

use arena_list::{Version, Walk};
use range_cover::RangeCover;
use std::marker::Model;

/// A key with its value.
#[derive(Clone, Copy, Debug, PartialEq, Eq)]
pub struct Pair<'a> {
    pub key: &'a [u8],
    pub value: &'a [u8],
}

/// Goes over the keys that have a value at a number, ascending. It looks at each version behind its beginning once, and
/// asks the range deletes once a key. Contracts see the list of those that are left.
#[derive(Drop)]
pub struct Scan<'a> {
    walk: Walk<'a>,
    ranges: &'a RangeCover,
    at: u64,
    /// The key whose newest version below the number was met last.
    met: Option<&'a [u8]>,
}

impl<'a> Model for Scan<'a> {
    ghost use Rattle.std.specs.Prelude.{List, option_map};
    ghost use Rattle.snapshot_view.specs.Scans.{KeyValue, pairs_left};

    ghost Value = { List KeyValue };

    ghost view = { λ a. pairs_left a.at a.ranges.now (option_map (λ key. key.now) a.met) a.walk };
}

/// Whether it is the key that was met.
fn is_key_met(met: Option<&[u8]>, key: &[u8]) -> bool
    ensures { result ≡ is_met (option_map (λ it. it.now) met.entry) key.now }
{
    match met {
        Some(it) => it == key,
        None => false,
    }
}

/// Whether a version is passed over: it is not below the number, or an older one of the key that was met.
fn is_passed(at: u64, met: Option<&[u8]>, version: &Version<'_>) -> bool
    ensures { result
        ≡ is_passed at (option_map (λ it. it.now) met.entry) (version_shown version.now) }
{
    version.seq >= at || is_key_met(met, version.key)
}

/// Whether a range delete below the number hides a version.
fn is_hidden(ranges: &RangeCover, at: u64, version: &Version<'_>) -> bool
    ensures { result ≡ is_hidden ranges.now at (version_shown version.now) }
{
    match ranges.newest(version.key, at) {
        Some(number) => version.seq < number,
        None => false,
    }
}

/// The value of a version, where no range delete below the number hides it.
fn open_value<'a>(ranges: &RangeCover, at: u64, version: &Version<'a>) -> Option<&'a [u8]>
    ensures { option_map (λ it. it.now) result
        ≡ open_value ranges.now at (version_shown version.now) }
{
    if is_hidden(ranges, at, version) {
        None
    } else {
        version.value
    }
}

impl<'a> Scan<'a> {
    /// No key is met yet.
    pub(crate) fn new(walk: Walk<'a>, ranges: &'a RangeCover, at: u64) -> Scan<'a>
        ensures { result ≡ pairs_left at ranges.now None walk.entry }
    {
        Scan {
            walk,
            ranges,
            at,
            met: None,
        }
    }
}

impl<'a> Iterator for Scan<'a> {
    type Item = Pair<'a>;

    ghost next_gives = { YieldsFirstBy pair_shown (λ s. s) };

    ghost remaining = { item_count (λ s. s) };

    fn next(&mut self) -> Option<Pair<'a>> {
        while let Some(version) = self.walk.next() {
            if is_passed(self.at, self.met, &version) {
                continue;
            }
            self.met = Some(version.key);
            if let Some(value) = open_value(self.ranges, self.at, &version) {
                return Some(Pair {
                    key: version.key,
                    value,
                });
            }
        }
        None
    }
}
