ghost use Rattle.std.specs.Prelude.{◌<◌};

use crate::{RangeCover, RangeMark, is_within};
use rand_core::SeedableRng;
use rand_core::utils::NextWord;
use rand_pcg::Pcg32;
use std::alloc::Global;
use std::process::Abort;
use wal_base::Blob;

fn blob(rt: &impl Abort, alloc: Global, bytes: &[u8]) -> Blob {
    Blob::copy_of(alloc, bytes).expect(rt, "memory")
}

fn mark(rt: &impl Abort, alloc: Global, start: &[u8], end: &[u8], number: u64) -> RangeMark {
    RangeMark {
        start: blob(rt, alloc, start),
        end: blob(rt, alloc, end),
        number,
    }
}

/// A cover, and what allocates for it.
#[derive(Drop)]
struct Rig {
    alloc: Global,
    cover: RangeCover,
}

impl Rig {
    fn new(rt: &impl Abort, alloc: Global) -> Rig {
        let cover = RangeCover::new(alloc).expect(rt, "memory");
        Rig { alloc, cover }
    }

    fn put(&mut self, rt: &impl Abort, start: &[u8], end: &[u8], number: u64) {
        let mark = mark(rt, self.alloc, start, end, number);
        assert!(rt; self.cover.add(mark).is_ok());
    }
}

#[test]
fn the_newest_range_delete_below_a_bound_is_told(rt: HostRuntime) {
    let mut rig = Rig::new(&rt, rt.alloc());
    assert_eq!(&rt; rig.cover.newest(b"b", u64::MAX), None);
    rig.put(&rt, b"b", b"f", 10);
    assert_eq!(&rt; rig.cover.newest(b"a", u64::MAX), None);
    assert_eq!(&rt; rig.cover.newest(b"b", 11), Some(10));
    assert_eq!(&rt; rig.cover.newest(b"e\xFF", 11), Some(10));
    assert_eq!(&rt; rig.cover.newest(b"b", 10), None);
    assert_eq!(&rt; rig.cover.newest(b"f", u64::MAX), None);
    rig.put(&rt, b"d", b"z", 12);
    assert_eq!(&rt; rig.cover.newest(b"d", 13), Some(12));
    assert_eq!(&rt; rig.cover.newest(b"d", 12), Some(10));
    assert_eq!(&rt; rig.cover.newest(b"d", 10), None);
    assert_eq!(&rt; rig.cover.newest(b"c", 13), Some(10));
    // One that is late, and has a smaller number.
    rig.put(&rt, b"", b"m", 11);
    assert_eq!(&rt; rig.cover.newest(b"", 13), Some(11));
    assert_eq!(&rt; rig.cover.newest(b"c", 13), Some(11));
    assert_eq!(&rt; rig.cover.newest(b"e", 13), Some(12));
    assert_eq!(&rt; rig.cover.newest(b"e", 12), Some(11));
    assert_eq!(&rt; rig.cover.newest(b"e", 11), Some(10));
}

#[test]
fn a_range_that_runs_backwards_covers_nothing(rt: HostRuntime) {
    let mut rig = Rig::new(&rt, rt.alloc());
    rig.put(&rt, b"c", b"a", 3);
    rig.put(&rt, b"b", b"b", 4);
    assert_eq!(&rt; rig.cover.newest(b"b", u64::MAX), None);
    rig.put(&rt, b"a", b"c", 2);
    assert_eq!(&rt; rig.cover.newest(b"b", u64::MAX), Some(2));
}

#[test]
fn the_last_numbers_are_told_too(rt: HostRuntime) {
    let mut rig = Rig::new(&rt, rt.alloc());
    rig.put(&rt, b"a", b"c", u64::MAX - 3);
    assert_eq!(&rt; rig.cover.newest(b"b", u64::MAX), Some(u64::MAX - 3));
    rig.put(&rt, b"a", b"c", u64::MAX - 1);
    rig.put(&rt, b"b", b"c", u64::MAX - 2);
    rig.put(&rt, b"a", b"b", u64::MAX);
    rig.put(&rt, b"a", b"c", 0);
    assert_eq!(&rt; rig.cover.newest(b"b", u64::MAX), Some(u64::MAX - 1));
    assert_eq!(&rt; rig.cover.newest(b"b", u64::MAX - 1), Some(u64::MAX - 2));
    assert_eq!(&rt; rig.cover.newest(b"b", u64::MAX - 2), Some(u64::MAX - 3));
    assert_eq!(&rt; rig.cover.newest(b"b", u64::MAX - 3), Some(0));
    assert_eq!(&rt; rig.cover.newest(b"a", u64::MAX), Some(u64::MAX - 1));
}

#[test]
fn a_key_is_within_from_the_start_on_and_before_the_end(rt: HostRuntime) {
    assert!(&rt; is_within(b"a", b"b", b"a"));
    assert!(&rt; !is_within(b"a", b"b", b"b"));
    assert!(&rt; !is_within(b"a", b"b", b""));
    assert!(&rt; !is_within(b"b", b"a", b"a"));
}

/// A range delete as the test keeps it: the places of its two keys, and its number.
type Plain = (usize, usize, u64);

const KEYS: [&[u8]; 8] = [b"", b"a", b"a\0", b"ab", b"abc", b"b", b"ba", b"c"];

/// What a scan of all range deletes tells.
fn scan(plain: &[Plain], key: &[u8], below: u64) -> Option<u64> {
    let mut newest: Option<u64> = None;
    for (start, end, number) in plain {
        if *number < below && KEYS[*start % 8] <= key && key < KEYS[*end % 8] {
            newest = newest.max(Some(*number));
        }
    }
    newest
}

/// A number below a bound, by chance.
fn below(dice: &mut Pcg32, bound: u64) -> u64
    requires { 0 < bound }
{
    u64::from(dice.next_word()) % bound
}

/// The cover tells of each key what a scan tells, below some bounds.
fn tells_as_a_scan(rt: &impl Abort, cover: &RangeCover, plain: &[Plain], dice: &mut Pcg32) {
    for key in KEYS {
        for below in [0, below(dice, 80), below(dice, 80), u64::MAX] {
            assert_eq!(rt; cover.newest(key, below), scan(plain, key, below));
        }
    }
}

#[test]
fn random_range_deletes_are_told_as_a_scan_tells_them(rt: HostRuntime) {
    let alloc = rt.alloc();
    let mut dice = Pcg32::seed_from_u64(7);
    for _ in 0..60 {
        let mut rig = Rig::new(&rt, alloc);
        let mut plain: Vec<Plain> = Vec::new(alloc);
        for k in 0..30u64 {
            let (start, end) = (dice.next_word() as usize, dice.next_word() as usize);
            // Some are late, and some have a number that another one has.
            let number = if dice.next_word() % 3 == 0 {
                below(&mut dice, 60)
            } else {
                k
            };
            rig.put(&rt, KEYS[start % 8], KEYS[end % 8], number);
            assert!(&rt; plain.push((start, end, number)).is_ok());
            tells_as_a_scan(&rt, &rig.cover, plain.as_slice(), &mut dice);
        }
    }
}

/// An allocation is refused only where that is asked for, and then once: `rt try --test --fail-alloc N`.
#[test]
fn an_addition_that_lacks_memory_changes_nothing_told(rt: HostRuntime) {
    let alloc = rt.alloc();
    let Ok(cover) = RangeCover::new(alloc) else {
        return;
    };
    let mut rig = Rig { alloc, cover };
    let mut dice = Pcg32::seed_from_u64(11);
    let mut plain: Vec<Plain> = Vec::new(alloc);
    for number in 0..12u64 {
        let (start, end) = (dice.next_word() as usize, dice.next_word() as usize);
        let (Ok(first), Ok(last)) = (
            Blob::copy_of(alloc, KEYS[start % 8]),
            Blob::copy_of(alloc, KEYS[end % 8]),
        ) else {
            continue;
        };
        if plain.reserve(1).is_err() {
            continue;
        }
        let mark = RangeMark {
            start: first,
            end: last,
            number,
        };
        if rig.cover.add(mark).is_ok() {
            assert!(&rt; plain.push((start, end, number)).is_ok());
        }
        tells_as_a_scan(&rt, &rig.cover, plain.as_slice(), &mut dice);
    }
}

/// How many range deletes the test of many has.
const MANY: u64 = 3_000;

#[test]
fn many_range_deletes_that_grow_outward_are_told(rt: HostRuntime) {
    let mut rig = Rig::new(&rt, rt.alloc());
    for k in 0..MANY {
        let (start, end) = ((MANY - 1 - k).to_be_bytes(), (MANY + k).to_be_bytes());
        rig.put(&rt, start.as_slice(), end.as_slice(), k);
    }
    for k in 0..MANY {
        let key = (MANY - 1 - k).to_be_bytes();
        assert_eq!(&rt; rig.cover.newest(key.as_slice(), u64::MAX), Some(MANY - 1));
    }
    assert_eq!(&rt; rig.cover.newest(&MANY.to_be_bytes(), 3), Some(2));
}
