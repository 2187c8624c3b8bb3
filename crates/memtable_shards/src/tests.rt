ghost use Rattle.std.specs.Prelude.{◌≡◌, ◌<◌, [], length};
ghost use Rattle.memtable_shards.specs.Parts.{AreByShard};

use crate::{Found, SHARDS, Shard, shard_index, split};
use arena_list::ArenaList;
use batch_repr::Unnumbered;
use rand_core::SeedableRng;
use rand_core::utils::NextWord;
use rand_pcg::Pcg32;
use std::alloc::Global;
use std::collections::BTreeMap;
use std::marker::Model;
use std::process::Abort;
use test_rigs::{Change, batch_of};
use wal_base::{Blob, Entries, Entry, NoMemory};

/// Eight shards that were given batches in a row from 10 on, and the number after them.
#[derive(Drop)]
struct Rig {
    alloc: Global,
    shards: Vec<Shard>,
    next: u64,
}

impl Model for Rig {
    ghost use Rattle.std.specs.Prelude.{◌≡◌, ℕ, List};
    ghost use Rattle.batch_repr.specs.declared.batch.Batch.{Batch};
    ghost use Rattle.batch_repr.specs.Batches.{IsContiguous, end_after};
    ghost use Rattle.memtable_shards.specs.Versions.{AreShardsOf};

    ghost Value = { ℕ };

    ghost view = { λ a. a.next };

    ghost invariant = { λ a. (batches : List Batch) × IsContiguous 10 batches × (a.next ≡ end_after 10 batches) × AreShardsOf a.shards.items batches };
}

/// Eight shards that hold nothing.
fn new_shards(rt: &impl Abort, alloc: Global) -> Vec<Shard>
    ensures eight { length result.items ≡ SHARDS }
    ensures empty { AreByShard [] result.items }
{
    let mut shards = Vec::new(alloc);
    for _ in 0..SHARDS {
        let shard = Shard::new(alloc).expect(rt, "memory");
        shards.push(shard).expect(rt, "memory");
    }
    shards
}

impl Rig {
    fn new(rt: &impl Abort, alloc: Global) -> Rig {
        let shards = new_shards(rt, alloc);
        Rig {
            alloc,
            shards,
            next: 10,
        }
    }

    /// Gives the shards the next batch.
    fn add(&mut self, rt: &impl Abort, batch: Unnumbered) {
        let first = self.next;
        let count = u64::from(batch.count());
        assert!(rt; first < 1_000_000 && count < 1_000_000);
        let (_, entries) = batch.into_parts();
        let mut pieces = split(self.alloc, entries).expect(rt, "memory");
        pieces.number(first);
        while let Some((at, node)) = pieces.take() {
            self.shards[at].apply(node);
        }
        self.next = first + count;
    }

    fn settle(&mut self) -> Result<(), NoMemory> {
        for at in 0..SHARDS {
            self.shards[at].settle()?;
        }
        Ok(())
    }

    /// The shard of a key.
    fn shard(&self, key: &[u8]) -> &Shard {
        &self.shards[shard_index(key)]
    }

    fn read(&self, key: &[u8], below: u64) -> Found<'_> {
        self.shard(key).newest(key, below)
    }
}

/// Gives the shards a batch of these entries.
fn give(rt: &impl Abort, rig: &mut Rig, changes: &[Change<'_>]) {
    let batch = batch_of(rig.alloc, changes).expect(rt, "memory");
    rig.add(rt, batch);
}

const FIRST: [Change<'static>; 4] = [
    Change::Set(b"a", b"1"),
    Change::Note(b"n"),
    Change::Set(b"a", b"2"),
    Change::Set(b"b", b"3"),
];

const SECOND: [Change<'static>; 2] = [Change::Delete(b"a"), Change::Set(b"b", b"")];

/// What is read of a key below a number.
#[derive(Clone, Copy)]
struct Read {
    key: &'static [u8],
    below: u64,
    found: Found<'static>,
}

/// The reads of two batches from 10 on. `i` has the shard of `a`, and no version; a note is none, whatever its bytes.
const READS: &[Read] = &[
    Read {
        key: b"a",
        below: 10,
        found: Found::Nothing,
    },
    Read {
        key: b"a",
        below: 11,
        found: Found::Value {
            seq: 10,
            bytes: b"1",
        },
    },
    Read {
        key: b"a",
        below: 13,
        found: Found::Value {
            seq: 11,
            bytes: b"2",
        },
    },
    Read {
        key: b"a",
        below: 14,
        found: Found::Gone { seq: 13 },
    },
    Read {
        key: b"b",
        below: 14,
        found: Found::Value {
            seq: 12,
            bytes: b"3",
        },
    },
    Read {
        key: b"b",
        below: u64::MAX,
        found: Found::Value {
            seq: 14,
            bytes: b"",
        },
    },
    Read {
        key: b"i",
        below: u64::MAX,
        found: Found::Nothing,
    },
    Read {
        key: b"n",
        below: u64::MAX,
        found: Found::Nothing,
    },
];

fn reads_two_batches(rt: &impl Abort, rig: &Rig) {
    for read in READS {
        assert_eq!(rt; rig.read(read.key, read.below), read.found);
    }
}

/// What is applied can be read whether settling finds memory or not.
fn settles(rt: &impl Abort, rig: &mut Rig) {
    for _ in 0..4 {
        let settled = rig.settle().is_ok();
        reads_two_batches(rt, rig);
        if settled {
            return;
        }
    }
    panic!(rt; "settled");
}

/// What is found where this value was set under this number.
fn value<'a>(seq: u64, bytes: &'a [u8]) -> Found<'a> {
    Found::Value { seq, bytes }
}

/// What is read of four keys, once a range was deleted and one key within it set again.
fn reads_a_range(rt: &impl Abort, rig: &Rig) {
    assert_eq!(rt; rig.read(b"a", 13), value(10, b"1"));
    assert_eq!(rt; rig.read(b"a", 14), Found::Gone { seq: 13 });
    assert_eq!(rt; rig.read(b"a", 15), value(14, b"9"));
    assert_eq!(rt; rig.read(b"b", 13), value(11, b"2"));
    assert_eq!(rt; rig.read(b"b", 15), Found::Gone { seq: 13 });
    assert_eq!(rt; rig.read(b"c", 15), value(12, b"3"));
    // A key that was never set is within the range too, whatever its shard.
    assert_eq!(rt; rig.read(b"bb", 13), Found::Nothing);
    assert_eq!(rt; rig.read(b"bb", u64::MAX), Found::Gone { seq: 13 });
    assert_eq!(rt; rig.read(b"", u64::MAX), Found::Nothing);
}

const THREE: [Change<'static>; 3] = [
    Change::Set(b"a", b"1"),
    Change::Set(b"b", b"2"),
    Change::Set(b"c", b"3"),
];

const RANGE: [Change<'static>; 2] = [Change::RangeDelete(b"a", b"c"), Change::Set(b"a", b"9")];

#[test]
fn a_range_is_deleted_in_each_shard(rt: HostRuntime) {
    let alloc = rt.alloc();
    let mut rig = Rig::new(&rt, alloc);
    give(&rt, &mut rig, &THREE);
    give(&rt, &mut rig, &RANGE);
    reads_a_range(&rt, &rig);
    rig.settle().expect(&rt, "memory");
    reads_a_range(&rt, &rig);
}

#[test]
fn a_range_that_waits_hides_what_is_settled(rt: HostRuntime) {
    let alloc = rt.alloc();
    let mut rig = Rig::new(&rt, alloc);
    give(&rt, &mut rig, &THREE);
    rig.settle().expect(&rt, "memory");
    give(&rt, &mut rig, &RANGE);
    reads_a_range(&rt, &rig);
    rig.settle().expect(&rt, "memory");
    reads_a_range(&rt, &rig);
}

#[test]
fn a_range_that_runs_backwards_deletes_nothing(rt: HostRuntime) {
    let alloc = rt.alloc();
    let mut rig = Rig::new(&rt, alloc);
    give(&rt, &mut rig, &THREE);
    give(&rt, &mut rig, &[Change::RangeDelete(b"c", b"a")]);
    give(&rt, &mut rig, &[Change::RangeDelete(b"b", b"b")]);
    assert_eq!(&rt; rig.read(b"b", u64::MAX), value(11, b"2"));
    rig.settle().expect(&rt, "memory");
    assert_eq!(&rt; rig.read(b"b", u64::MAX), value(11, b"2"));
}

#[test]
fn a_range_has_a_piece_for_each_shard(rt: HostRuntime) {
    let alloc = rt.alloc();
    let batch = batch_of(alloc, &RANGE).expect(&rt, "memory");
    let (_, entries) = batch.into_parts();
    let mut pieces = split(alloc, entries).expect(&rt, "memory");
    pieces.number(13);
    for shard in 0..SHARDS {
        let (at, _) = pieces.take().expect(&rt, "a piece");
        assert_eq!(&rt; at, shard);
    }
    assert!(&rt; pieces.take().is_none());
}

/// The index of the shard of `a` has its versions, the newest first.
fn lends_in_order(rt: &impl Abort, index: &ArenaList) {
    let mut walk = index.walk();
    for seq in [13, 11, 10] {
        assert_eq!(rt; walk.next().map(|version| version.seq), Some(seq));
    }
    assert!(rt; walk.next().is_none());
}

#[test]
fn what_is_applied_is_kept_where_settling_finds_no_memory(rt: HostRuntime) {
    let mut rig = Rig::new(&rt, rt.alloc());
    give(&rt, &mut rig, &FIRST);
    give(&rt, &mut rig, &SECOND);
    reads_two_batches(&rt, &rig);
    settles(&rt, &mut rig);
    lends_in_order(&rt, rig.shard(b"a").index());
}

#[test]
fn entries_of_no_batch_are_cut_too(rt: HostRuntime) {
    let mut entries = Entries::new(rt.alloc());
    let key = Blob::copy_of(rt.alloc(), b"a").expect(&rt, "memory");
    entries.push(Entry::Delete { key }).expect(&rt, "memory");
    let mut pieces = split(rt.alloc(), entries).expect(&rt, "memory");
    pieces.number(20);
    let (at, _) = pieces.take().expect(&rt, "a piece");
    assert_eq!(&rt; at, 1);
}

const KEYS: [&[u8]; 8] = [b"", b"a", b"i", b"q", b"h", b"ab", b"ba", b"b"];

/// One of the keys, by chance.
fn key_of(dice: &mut Pcg32) -> &'static [u8] {
    KEYS[dice.next_word() as usize % 8]
}

/// What shards are to answer, as a plain program keeps it: for each key its values, by number.
type Plain = BTreeMap<&'static [u8], BTreeMap<u64, Option<&'static [u8]>>>;

fn plain_newest(plain: &Plain, key: &'static [u8], below: u64) -> Found<'static> {
    let Some(values) = plain.get(&key) else {
        return Found::Nothing;
    };
    match values.range(..below).next_back() {
        None => Found::Nothing,
        Some((seq, None)) => Found::Gone { seq: *seq },
        Some((seq, Some(bytes))) => Found::Value { seq: *seq, bytes },
    }
}

fn plain_put(
    alloc: Global,
    plain: &mut Plain,
    seq: u64,
    change: Change<'static>,
) -> Result<(), NoMemory> {
    match change {
        Change::Set(key, value) => plain_add(alloc, plain, seq, key, Some(value)),
        Change::Delete(key) => plain_add(alloc, plain, seq, key, None),
        Change::Note(_) => Ok(()),
        Change::RangeDelete(start, end) => {
            for key in KEYS {
                if start.cmp(&key).is_le() && key.cmp(&end).is_lt() {
                    plain_add(alloc, plain, seq, key, None)?;
                }
            }
            Ok(())
        }
    }
}

fn plain_add(
    alloc: Global,
    plain: &mut Plain,
    seq: u64,
    key: &'static [u8],
    value: Option<&'static [u8]>,
) -> Result<(), NoMemory> {
    if let Some(values) = plain.get_mut(&key) {
        values.insert(seq, value)?;
        return Ok(());
    }
    let mut values = BTreeMap::new(alloc);
    values.insert(seq, value)?;
    plain.insert(key, values)?;
    Ok(())
}

/// Gives both a batch of two entries, which may be about one key.
fn give_both(rt: &impl Abort, rig: &mut Rig, plain: &mut Plain, dice: &mut Pcg32) {
    let first = match dice.next_word() % 6 {
        0 => Change::RangeDelete(key_of(dice), key_of(dice)),
        1 | 2 => Change::Delete(key_of(dice)),
        _ => Change::Set(key_of(dice), key_of(dice)),
    };
    let second = Change::Set(key_of(dice), key_of(dice));
    let (alloc, seq) = (rig.alloc, rig.next);
    give(rt, rig, &[first, second]);
    plain_put(alloc, plain, seq, first).expect(rt, "memory");
    plain_put(alloc, plain, seq.saturating_add(1), second).expect(rt, "memory");
}

/// One step at random, on both: their answers agree.
fn step(rt: &impl Abort, rig: &mut Rig, plain: &mut Plain, dice: &mut Pcg32) {
    let kind = dice.next_word() % 8;
    if kind < 3 {
        give_both(rt, rig, plain, dice);
    } else if kind == 3 {
        rig.settle().expect(rt, "memory");
    } else {
        let (key, below) = (key_of(dice), u64::from(dice.next_word()) % 8_000);
        assert_eq!(rt; rig.read(key, below), plain_newest(plain, key, below));
    }
}

#[test]
fn shards_answer_as_a_map_does(rt: HostRuntime) {
    let alloc = rt.alloc();
    let mut rig = Rig::new(&rt, alloc);
    let mut plain = BTreeMap::new(alloc);
    let mut dice = Pcg32::seed_from_u64(7);
    for _ in 0..10_000 {
        step(&rt, &mut rig, &mut plain, &mut dice);
    }
}
