ghost use Rattle.std.specs.Prelude.{◌≡◌, ◌<◌, length};

use crate::{ArenaList, Found, Version, Walk};
use rand_core::SeedableRng;
use rand_core::utils::NextWord;
use rand_pcg::Pcg32;
use std::alloc::Global;
use std::collections::BTreeMap;
use std::process::Abort;
use wal_base::{Blob, NoMemory};

mod fronts;

fn blob(rt: &impl Abort, alloc: Global, bytes: &[u8]) -> Blob
    ensures { result ≡ bytes.now }
{
    Blob::copy_of(alloc, bytes).expect(rt, "memory")
}

fn value_of(rt: &impl Abort, alloc: Global, value: Option<&[u8]>) -> Option<Blob> {
    match value {
        Some(bytes) => Some(blob(rt, alloc, bytes)),
        None => None,
    }
}

/// A list, and what allocates for it.
#[derive(Drop)]
struct Rig {
    alloc: Global,
    list: ArenaList,
}

impl Rig {
    fn new(rt: &impl Abort, alloc: Global) -> Rig {
        let list = ArenaList::new(alloc).expect(rt, "memory");
        Rig { alloc, list }
    }

    /// Adds a version that is not held.
    fn put(&mut self, rt: &impl Abort, key: &[u8], seq: u64, value: Option<&[u8]>) {
        let held = self.list.remove(key, seq);
        assert!(rt; !held);
        let bytes = blob(rt, self.alloc, key);
        let value = value_of(rt, self.alloc, value);
        let inserted = self.list.insert(bytes, seq, value).is_ok();
        assert!(rt; inserted);
    }

    /// So many places there are, and so many of them are free.
    fn has_places(&self, rt: &impl Abort, places: usize, free: usize) {
        assert_eq!(rt; self.list.places(), places);
        assert_eq!(rt; self.list.free_places(), free);
    }
}

/// A walk shows just these versions, by key and number.
fn shows(rt: &impl Abort, walk: Walk<'_>, wanted: &[(&[u8], u64)]) {
    let mut walk = walk;
    for (key, seq) in wanted {
        let Some(version) = walk.next() else {
            panic!(rt; "a version");
        };
        assert_eq!(rt; version.key, *key);
        assert_eq!(rt; version.seq, *seq);
    }
    assert!(rt; walk.next().is_none());
}

#[test]
fn towers_are_as_high_as_the_insertions_count(rt: HostRuntime) {
    let mut rig = Rig::new(&rt, rt.alloc());
    rig.put(&rt, b"a", 10, Some(b"1"));
    rig.put(&rt, b"b", 11, Some(b"2"));
    rig.put(&rt, b"a", 12, None);
    shows(&rt, rig.list.walk(), &[(b"a", 12), (b"a", 10), (b"b", 11)]);
    shows(&rt, rig.list.walk_level(1), &[(b"b", 11)]);
    assert_eq!(&rt; rig.list.newest(b"a", 13), Found::Gone { seq: 12 });
    assert_eq!(&rt;
        rig.list.newest(b"a", 12),
        Found::Value {
            seq: 10,
            bytes: b"1"
        }
    );
    assert_eq!(&rt; rig.list.newest(b"a", 10), Found::Nothing);
    assert!(&rt; rig.list.remove(b"a", 12));
    assert!(&rt; !rig.list.remove(b"a", 12));
    assert_eq!(&rt;
        rig.list.newest(b"a", 13),
        Found::Value {
            seq: 10,
            bytes: b"1"
        }
    );
    rig.has_places(&rt, 3, 1);
    rig.put(&rt, b"c", 13, Some(b"3"));
    rig.has_places(&rt, 3, 0);
    shows(&rt, rig.list.walk_level(1), &[(b"b", 11), (b"c", 13)]);
    shows(&rt, rig.list.walk_level(2), &[(b"c", 13)]);
    shows(&rt, rig.list.walk_level(3), &[]);
}

#[test]
fn a_walk_shows_keys_numbers_and_values(rt: HostRuntime) {
    let mut rig = Rig::new(&rt, rt.alloc());
    rig.put(&rt, b"k", 1, Some(b"v"));
    rig.put(&rt, b"k", 2, None);
    let mut walk = rig.list.walk();
    let newer = Version {
        key: b"k",
        seq: 2,
        value: None,
    };
    let older = Version {
        key: b"k",
        seq: 1,
        value: Some(b"v"),
    };
    assert_eq!(&rt; walk.next(), Some(newer));
    assert_eq!(&rt; walk.next(), Some(older));
    assert_eq!(&rt; walk.next(), None);
}

#[test]
fn keys_that_are_prefixes_of_each_other_stay_apart(rt: HostRuntime) {
    let mut rig = Rig::new(&rt, rt.alloc());
    let keys: [&[u8]; 6] = [b"ab", b"", b"b", b"a", b"a\0", b"aa"];
    let mut seq = 0u64;
    for key in keys {
        rig.put(&rt, key, seq, Some(key));
        seq = seq.saturating_add(1);
    }
    shows(
        &rt,
        rig.list.walk(),
        &[
            (b"", 1),
            (b"a", 3),
            (b"a\0", 4),
            (b"aa", 5),
            (b"ab", 0),
            (b"b", 2),
        ],
    );
    assert_eq!(&rt;
        rig.list.newest(b"a", u64::MAX),
        Found::Value {
            seq: 3,
            bytes: b"a"
        }
    );
    assert_eq!(&rt; rig.list.newest(b"aaa", u64::MAX), Found::Nothing);
    assert_eq!(&rt; rig.list.newest(b"b", 0), Found::Nothing);
}

/// How many versions the test of one key has, and what its numbers are stepped by.
const MANY: u64 = 2_000;

const STEP: u64 = 617;

/// Gives one key versions with the numbers from 0 on, in a mixed order.
fn fill(rt: &impl Abort, rig: &mut Rig) {
    for k in 0..MANY {
        rig.put(rt, b"key", k * STEP % MANY, Some(b"value"));
    }
}

#[test]
fn one_key_has_many_versions_again_and_again(rt: HostRuntime) {
    let mut rig = Rig::new(&rt, rt.alloc());
    for _ in 0..2 {
        fill(&rt, &mut rig);
        rig.has_places(&rt, 2_000, 0);
        for k in 0..MANY {
            let wanted = Found::Value {
                seq: k,
                bytes: b"value",
            };
            assert_eq!(&rt; rig.list.newest(b"key", k + 1), wanted);
        }
        let mut below = MANY;
        for version in rig.list.walk() {
            assert_eq!(&rt; Some(version.seq), below.checked_sub(1));
            below = version.seq;
        }
        assert_eq!(&rt; below, 0);
        for k in 0..MANY {
            assert!(&rt; rig.list.remove(b"key", k));
        }
        rig.has_places(&rt, 2_000, 2_000);
        shows(&rt, rig.list.walk(), &[]);
        shows(&rt, rig.list.walk_level(11), &[]);
    }
}

/// As many versions as one key is asked to have.
const MOST: u64 = 100_000;

#[test]
fn one_key_has_a_hundred_thousand_versions(rt: HostRuntime) {
    let mut rig = Rig::new(&rt, rt.alloc());
    for k in 0..MOST {
        let key = blob(&rt, rt.alloc(), b"key");
        let held = rig.list.remove(b"key", k);
        assert!(&rt; !held);
        assert!(&rt; rig.list.insert(key, k, None).is_ok());
    }
    rig.has_places(&rt, 100_000, 0);
    for k in [1, 2, 617, 50_000, 99_999, 100_000] {
        assert_eq!(&rt; rig.list.newest(b"key", k), Found::Gone { seq: k - 1 });
    }
    let mut below = MOST;
    for version in rig.list.walk() {
        assert_eq!(&rt; Some(version.seq), below.checked_sub(1));
        below = version.seq;
    }
    assert_eq!(&rt; below, 0);
}

/// What a list is to hold: for each key its values, by number.
type Plain = BTreeMap<Vec<u8>, BTreeMap<u64, Option<Vec<u8>>>>;

fn plain_newest<'a>(plain: &'a Plain, key: &[u8], below: u64) -> Found<'a> {
    let Some(values) = plain.get(key) else {
        return Found::Nothing;
    };
    match values.range(..below).next_back() {
        None => Found::Nothing,
        Some((seq, None)) => Found::Gone { seq: *seq },
        Some((seq, Some(bytes))) => Found::Value {
            seq: *seq,
            bytes: bytes.as_slice(),
        },
    }
}

fn plain_holds(plain: &Plain, key: &[u8], seq: u64) -> bool {
    plain
        .get(key)
        .is_some_and(|values| values.contains_key(&seq))
}

fn plain_put(
    alloc: Global,
    plain: &mut Plain,
    key: &[u8],
    seq: u64,
    value: Option<&[u8]>,
) -> Result<(), NoMemory> {
    let value = match value {
        Some(bytes) => Some(Vec::from_slice(alloc, bytes)?),
        None => None,
    };
    if let Some(values) = plain.get_mut(key) {
        values.insert(seq, value)?;
        return Ok(());
    }
    let mut values = BTreeMap::new(alloc);
    values.insert(seq, value)?;
    let key = Vec::from_slice(alloc, key)?;
    plain.insert(key, values)?;
    Ok(())
}

fn plain_remove(plain: &mut Plain, key: &[u8], seq: u64) -> bool {
    match plain.get_mut(key) {
        Some(values) => values.remove(&seq).is_some(),
        None => false,
    }
}

/// Both show the same versions in the same order.
fn same_walk(rt: &impl Abort, list: &ArenaList, plain: &Plain) {
    let mut walk = list.walk();
    for (key, values) in plain {
        for (seq, value) in values.iter().rev() {
            let Some(version) = walk.next() else {
                panic!(rt; "a version");
            };
            assert_eq!(rt; version.key, key.as_slice());
            assert_eq!(rt; version.seq, *seq);
            assert_eq!(rt; version.value, value.as_ref().map(|bytes| bytes.as_slice()));
        }
    }
    assert!(rt; walk.next().is_none());
}

/// One step at random, on both, with one of these keys and a number below a bound: their answers agree.
fn step(
    rt: &impl Abort,
    rig: &mut Rig,
    plain: &mut Plain,
    dice: &mut Pcg32,
    keys: &[&[u8]],
    bound: u64,
)
    requires keys { 0 < length keys.now }
    requires bound { 0 < bound }
{
    let key = keys[dice.next_word() as usize % keys.len()];
    let seq = u64::from(dice.next_word()) % bound;
    match dice.next_word() % 5 {
        0 => assert_eq!(rt; rig.list.remove(key, seq), plain_remove(plain, key, seq)),
        1 => assert_eq!(rt; rig.list.newest(key, seq), plain_newest(plain, key, seq)),
        kind => {
            let value = if kind == 2 { None } else { Some(key) };
            if !plain_holds(plain, key, seq) {
                rig.put(rt, key, seq, value);
                plain_put(rig.alloc, plain, key, seq, value).expect(rt, "memory");
            }
        }
    }
}

#[test]
fn a_list_answers_as_a_map_does(rt: HostRuntime) {
    let alloc = rt.alloc();
    let mut rig = Rig::new(&rt, alloc);
    let mut plain = BTreeMap::new(alloc);
    let mut dice = Pcg32::seed_from_u64(7);
    let keys: [&[u8]; 8] = [b"", b"a", b"a\0", b"ab", b"abc", b"b", b"ba", b"c"];
    for k in 0..10_000 {
        step(&rt, &mut rig, &mut plain, &mut dice, &keys, 200);
        if k % 500 == 0 {
            same_walk(&rt, &rig.list, &plain);
        }
    }
    same_walk(&rt, &rig.list, &plain);
}

/// Tries to insert a version that is not held, and looks at the list where that is refused. Then it tries again.
fn put_twice(rt: &impl Abort, rig: &mut Rig, key: Blob, seq: u64) -> bool {
    let held = rig.list.remove(key.as_slice(), seq);
    assert!(rt; !held);
    let (places, free) = (rig.list.places(), rig.list.free_places());
    let Err((key, value)) = rig.list.insert(key, seq, None) else {
        return true;
    };
    assert_eq!(rt; key.as_slice(), b"key".as_slice());
    assert!(rt; value.is_none());
    rig.has_places(rt, places, free);
    assert_eq!(rt; rig.list.newest(b"key", seq), Found::Nothing);
    rig.list.insert(key, seq, value).is_ok()
}

/// An allocation is refused only where that is asked for, and then once: `rt try --test --fail-alloc N`.
#[test]
fn an_insertion_that_lacks_memory_changes_nothing(rt: HostRuntime) {
    let alloc = rt.alloc();
    let Ok(list) = ArenaList::new(alloc) else {
        return;
    };
    let mut rig = Rig { alloc, list };
    let mut held = 0usize;
    for k in 0..40u64 {
        let Ok(key) = Blob::copy_of(alloc, b"key") else {
            continue;
        };
        assert!(&rt; put_twice(&rt, &mut rig, key, 40 - k));
        held = held.saturating_add(1);
        rig.has_places(&rt, held, 0);
    }
}

#[test]
fn a_reservation_makes_one_place_for_the_next_insertion(rt: HostRuntime) {
    let mut rig = Rig::new(&rt, rt.alloc());
    for _ in 0..2 {
        assert!(&rt; rig.list.reserve_one().is_ok());
        rig.has_places(&rt, 1, 1);
        shows(&rt, rig.list.walk(), &[]);
    }
    rig.put(&rt, b"a", 1, Some(b"1"));
    rig.has_places(&rt, 1, 0);
    assert!(&rt; rig.list.reserve_one().is_ok());
    rig.has_places(&rt, 2, 1);
    shows(&rt, rig.list.walk(), &[(b"a", 1)]);
}

/// How many keys the test of near keys has.
const NEAR: usize = 26;

/// Keys of 0 to 11 bytes, many of which have the same first eight bytes, or the same but for zeros at the end.
fn near_keys() -> [&'static [u8]; NEAR] {
    [
        b"abcdefgh",
        b"",
        b"a\0\0",
        b"\xFF",
        b"abcdefgh\0",
        b"a",
        b"abcdefghij",
        b"\0\0\0\0\0\0\0\0",
        b"abcdefg",
        b"\0",
        b"\xFF\xFF\xFF\xFF\xFF\xFF\xFF\xFF\xFF",
        b"abcdefgi",
        b"a\0",
        b"abcdefgh\xFF",
        b"abc",
        b"hgfedcba",
        b"abcdefghi",
        b"\0\0\0\0\0\0\0\0\0",
        b"\xFF\xFF\xFF\xFF\xFF\xFF\xFF\xFF",
        b"abcd",
        b"ab",
        b"a\0\0\0\0\0\0\0",
        b"abcdef",
        b"abcde",
        b"\xFF\0",
        b"abcdefghijk",
    ]
}

/// How many steps a long list is tried by. It has some six thousand versions then, and a hundred of them have towers that
/// a search looks at first.
const STEPS: u64 = 20_000;

#[test]
fn a_long_list_answers_as_a_map_does_whatever_the_leads_of_its_keys(rt: HostRuntime) {
    let alloc = rt.alloc();
    let mut rig = Rig::new(&rt, alloc);
    let mut plain = BTreeMap::new(alloc);
    let mut dice = Pcg32::seed_from_u64(11);
    let keys = near_keys();
    for _ in 0..STEPS {
        step(&rt, &mut rig, &mut plain, &mut dice, &keys, 400);
    }
    same_walk(&rt, &rig.list, &plain);
    for key in keys {
        for below in 0..400u64 {
            assert_eq!(&rt;
                rig.list.newest(key, below),
                plain_newest(&plain, key, below)
            );
        }
    }
    for _ in 0..1_000u64 {
        let Some((key, seq, _)) = rig.list.take_from(b"abcdefgh", 200) else {
            panic!(&rt; "a version");
        };
        assert!(&rt; plain_remove(&mut plain, key.as_slice(), seq));
    }
    same_walk(&rt, &rig.list, &plain);
}

/// A walk shows the keys in the order of their bytes, and each of them is found.
fn has_near_keys(rt: &impl Abort, list: &ArenaList, keys: &[&[u8]]) {
    let mut last: Option<&[u8]> = None;
    let mut count = 0usize;
    for version in list.walk() {
        assert!(rt; last < Some(version.key));
        last = Some(version.key);
        count = count.saturating_add(1);
    }
    assert_eq!(rt; count, keys.len());
    for key in keys {
        let Found::Value { bytes, .. } = list.newest(*key, u64::MAX) else {
            panic!(rt; "a value");
        };
        assert_eq!(rt; bytes, *key);
    }
}

/// Puts keys in one after another, and takes them out. All the time those that are held are found, in order.
fn come_and_go(rt: &impl Abort, rig: &mut Rig, keys: &[&[u8]]) {
    for held in 0..keys.len() {
        assert_eq!(rt; rig.list.newest(keys[held], u64::MAX), Found::Nothing);
        rig.put(rt, keys[held], held as u64, Some(keys[held]));
        has_near_keys(rt, &rig.list, &keys[..held + 1]);
    }
    for held in 0..keys.len() {
        assert!(rt; rig.list.remove(keys[held], held as u64));
        assert_eq!(rt; rig.list.newest(keys[held], u64::MAX), Found::Nothing);
        has_near_keys(rt, &rig.list, &keys[held + 1..]);
    }
}

#[test]
fn keys_are_in_the_order_of_their_bytes_whatever_their_leads(rt: HostRuntime) {
    let mut rig = Rig::new(&rt, rt.alloc());
    come_and_go(&rt, &mut rig, &near_keys());
}

/// A version that is shown, by its key and number.
fn is_at(rt: &impl Abort, shown: Option<Version<'_>>, wanted: Option<(&[u8], u64)>) {
    assert_eq!(rt;
        shown.map(|version: Version<'_>| (version.key, version.seq)),
        wanted
    );
}

#[test]
fn what_stands_beside_a_spot_is_shown_and_taken(rt: HostRuntime) {
    let mut rig = Rig::new(&rt, rt.alloc());
    is_at(&rt, rig.list.before(b"b", 5), None);
    is_at(&rt, rig.list.from(b"b", 5), None);
    assert!(&rt; rig.list.take_from(b"", u64::MAX).is_none());
    rig.put(&rt, b"b", 5, Some(b"1"));
    rig.put(&rt, b"b", 7, None);
    rig.put(&rt, b"d", 6, Some(b"2"));
    is_at(&rt, rig.list.before(b"b", 7), None);
    is_at(&rt, rig.list.before(b"b", 6), Some((b"b", 7)));
    is_at(&rt, rig.list.before(b"c", 0), Some((b"b", 5)));
    is_at(&rt, rig.list.from(b"b", 7), Some((b"b", 7)));
    is_at(&rt, rig.list.from(b"b", 6), Some((b"b", 5)));
    is_at(&rt, rig.list.from(b"b", 4), Some((b"d", 6)));
    is_at(&rt, rig.list.from(b"d", 5), None);
    let Some((key, seq, value)) = rig.list.take_from(b"b", 6) else {
        panic!(&rt; "a version");
    };
    assert_eq!(&rt; key.as_slice(), b"b".as_slice());
    assert_eq!(&rt; seq, 5);
    assert_eq!(&rt;
        value.as_ref().map(|bytes| bytes.as_slice()),
        Some(b"1".as_slice())
    );
    rig.has_places(&rt, 3, 1);
    shows(&rt, rig.list.walk(), &[(b"b", 7), (b"d", 6)]);
    assert!(&rt; rig.list.take_from(b"d", 5).is_none());
    rig.has_places(&rt, 3, 1);
}
