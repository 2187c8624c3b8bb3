ghost use Rattle.std.specs.Prelude.{◌≡◌};
ghost use Rattle.snapshot_view.specs.Views.{HoldStands};

use crate::{HoldFault, Pair, Scan, SnapId, View};
use batch_repr::{Batch, Batches, SharedEntries};
use std::alloc::Global;
use std::marker::Model;
use std::process::Abort;
use test_rigs::{Change, batch_of};
use wal_base::Entry;

/// Batches in a row from 10 on, and the number after them.
#[derive(Drop)]
struct Row {
    alloc: Global,
    batches: Batches,
    next: u64,
}

impl Model for Row {
    ghost use Rattle.std.specs.Prelude.{◌≡◌, ◌≤◌, List};
    ghost use Rattle.batch_repr.specs.declared.batch.Batch.{Batch};
    ghost use Rattle.batch_repr.specs.declared.limits.TheConstants.{NUMBER_MAX};
    ghost use Rattle.batch_repr.specs.Batches.{IsContiguous, end_after};

    ghost Value = { List Batch };

    ghost view = { λ a. a.batches };

    ghost invariant = { λ a. IsContiguous 10 a.batches × (a.next ≡ end_after 10 a.batches)
        × (a.next ≤ NUMBER_MAX) };
}

impl Row {
    fn new(alloc: Global) -> Row {
        Row {
            alloc,
            batches: Batches::new(alloc),
            next: 10,
        }
    }

    /// Adds a batch of these entries.
    fn add(&mut self, rt: &impl Abort, changes: &[Change<'_>]) {
        let batch = batch_of(self.alloc, changes).expect(rt, "memory");
        let (first, count) = (self.next, u64::from(batch.count()));
        assert!(rt; first < 1_000_000);
        assert!(rt; count < 1_000_000);
        let (_, entries) = batch.into_parts();
        let entries = SharedEntries::of(self.alloc, entries.into_vec()).expect(rt, "memory");
        let Ok(()) = self.batches.push(Batch { first, entries }) else {
            panic!(rt; "memory")
        };
        self.next = first + count;
    }

    /// The store after them, where each number from 10 on may be held.
    fn view(&self, rt: &impl Abort) -> Rig {
        let view = View::build(self.alloc, &self.batches, 10).expect(rt, "memory");
        Rig {
            view,
            stand: Vec::new(self.alloc),
        }
    }
}

/// A view, and of each hold whether it stands.
#[derive(Drop)]
struct Rig {
    view: View,
    stand: Vec<bool>,
}

impl Model for Rig {
    ghost use Rattle.std.specs.Prelude.{◌≡◌, ℕ, List, Option, Some, true, length, slice_get};
    ghost use Rattle.snapshot_view.specs.Views.{HoldStands};

    ghost Value = { List (Option ℕ) };

    ghost view = { λ a. a.view.holds };

    ghost invariant = { λ a. (length a.stand.items ≡ length a.view.holds)
        × ((number : ℕ) → slice_get a.stand.items number ≡ Some true → HoldStands a.view.holds number) };
}

impl Rig {
    /// Holds a number, and tells the hold's own.
    fn hold(&mut self, rt: &impl Abort, at: u64) -> Result<usize, HoldFault> {
        let id = self.view.hold(at)?;
        self.stand.push(true).expect(rt, "memory");
        Ok(id.number)
    }

    /// The hold of this number, which stands.
    fn id(&self, rt: &impl Abort, number: usize) -> SnapId
        ensures held { HoldStands self.now result.number }
        ensures number { result.number ≡ number }
    {
        match self.stand.get(number) {
            Some(true) => SnapId { number },
            _ => panic!(rt; "a hold"),
        }
    }

    fn get(&self, rt: &impl Abort, number: usize, key: &[u8]) -> Option<&[u8]> {
        let id = self.id(rt, number);
        self.view.get(id, key)
    }

    fn scan(&self, rt: &impl Abort, number: usize, from: &[u8]) -> Scan<'_> {
        let id = self.id(rt, number);
        self.view.scan(id, from)
    }

    fn release(&mut self, rt: &impl Abort, number: usize) {
        let id = self.id(rt, number);
        self.view.release(id);
        self.stand[number] = false;
    }

    fn purge(&mut self) -> u64 {
        self.view.purge()
    }
}

/// A key has this value at a hold.
fn reads(rt: &impl Abort, view: &Rig, number: usize, key: &[u8], value: Option<&[u8]>) {
    assert_eq!(rt; view.get(rt, number, key), value);
}

/// Keys with their values.
type Pairs = &'static [(&'static [u8], &'static [u8])];

/// A scan gives these keys with their values, and no more.
fn gives(rt: &impl Abort, mut scan: Scan<'_>, pairs: Pairs) {
    for (key, value) in pairs {
        assert_eq!(rt;
            scan.next(),
            Some(Pair {
                key: *key,
                value: *value
            })
        );
    }
    assert_eq!(rt; scan.next(), None);
}

/// Two accounts, of which one is closed by the second batch, at 12.
fn accounts(rt: &impl Abort, alloc: Global) -> Rig {
    let mut row = Row::new(alloc);
    let opened = [
        Change::Set(b"acct/1", b"90"),
        Change::Set(b"acct/2", b"110"),
        Change::Note(b"t7"),
    ];
    row.add(rt, &opened);
    row.add(rt, &[Change::Delete(b"acct/1"), Change::Note(b"t8")]);
    row.view(rt)
}

const BOTH: Pairs = &[(b"acct/1", b"90"), (b"acct/2", b"110")];

const SECOND: Pairs = &[(b"acct/2", b"110")];

#[test]
fn a_held_number_outlasts_a_purge(rt: HostRuntime) {
    let mut view = accounts(&rt, rt.alloc());
    assert_eq!(&rt; view.hold(&rt, 12), Ok(0));
    assert_eq!(&rt; view.hold(&rt, 13), Ok(1));
    reads(&rt, &view, 0, b"acct/1", Some(b"90"));
    reads(&rt, &view, 1, b"acct/1", None);
    gives(&rt, view.scan(&rt, 0, b""), BOTH);
    gives(&rt, view.scan(&rt, 0, b"acct/2"), SECOND);
    assert_eq!(&rt; view.purge(), 0);
    reads(&rt, &view, 0, b"acct/1", Some(b"90"));
    // Below the floor a number is held anew where it is held.
    assert_eq!(&rt; view.hold(&rt, 12), Ok(2));
    view.release(&rt, 0);
    assert_eq!(&rt; view.purge(), 0);
    view.release(&rt, 2);
    assert_eq!(&rt; view.purge(), 1);
    assert_eq!(&rt; view.hold(&rt, 12), Err(HoldFault::Gone { floor: 13 }));
    assert_eq!(&rt; view.hold(&rt, 14), Err(HoldFault::Above { next: 13 }));
    reads(&rt, &view, 1, b"acct/2", Some(b"110"));
    gives(&rt, view.scan(&rt, 1, b""), SECOND);
}

#[test]
fn no_batch_leaves_an_empty_store(rt: HostRuntime) {
    let mut view = Row::new(rt.alloc()).view(&rt);
    assert_eq!(&rt; view.hold(&rt, 11), Err(HoldFault::Above { next: 10 }));
    assert_eq!(&rt; view.hold(&rt, 9), Err(HoldFault::Gone { floor: 10 }));
    assert_eq!(&rt; view.hold(&rt, 10), Ok(0));
    reads(&rt, &view, 0, b"a", None);
    gives(&rt, view.scan(&rt, 0, b""), &[]);
    assert_eq!(&rt; view.purge(), 0);
}

#[test]
fn a_number_within_a_batch_is_held(rt: HostRuntime) {
    let mut row = Row::new(rt.alloc());
    let changes = [
        Change::Set(b"a", b"1"),
        Change::Note(b"n"),
        Change::Delete(b"a"),
        Change::Set(b"a", b"2"),
    ];
    row.add(&rt, &changes);
    let mut view = row.view(&rt);
    for at in 10..14 {
        assert!(&rt; view.hold(&rt, at).is_ok());
    }
    // A note takes no number.
    assert_eq!(&rt; view.hold(&rt, 14), Err(HoldFault::Above { next: 13 }));
    assert_eq!(&rt; view.purge(), 0);
    reads(&rt, &view, 0, b"a", None);
    reads(&rt, &view, 1, b"a", Some(b"1"));
    reads(&rt, &view, 2, b"a", None);
    reads(&rt, &view, 3, b"a", Some(b"2"));
    // Without the hold at 12 nothing shows the Delete.
    view.release(&rt, 2);
    assert_eq!(&rt; view.purge(), 1);
    reads(&rt, &view, 1, b"a", Some(b"1"));
}

/// Three keys from 10 on; then two of them lose their values at 13, and one has another from 14 on.
fn three_keys(rt: &impl Abort, alloc: Global) -> Rig {
    let mut row = Row::new(alloc);
    let set = [
        Change::Set(b"a", b"1"),
        Change::Set(b"b", b"2"),
        Change::Set(b"c", b"3"),
    ];
    row.add(rt, &set);
    row.add(
        rt,
        &[Change::RangeDelete(b"a", b"c"), Change::Set(b"a", b"9")],
    );
    row.view(rt)
}

const BEFORE: Pairs = &[(b"a", b"1"), (b"b", b"2"), (b"c", b"3")];

const WITHIN: Pairs = &[(b"c", b"3")];

const AFTER: Pairs = &[(b"a", b"9"), (b"c", b"3")];

/// What the holds at 13, 14 and 15 show of the three keys.
fn shows_three_keys(rt: &impl Abort, view: &Rig) {
    gives(rt, view.scan(rt, 0, b""), BEFORE);
    gives(rt, view.scan(rt, 1, b""), WITHIN);
    gives(rt, view.scan(rt, 2, b""), AFTER);
    reads(rt, view, 0, b"b", Some(b"2"));
    reads(rt, view, 1, b"a", None);
    reads(rt, view, 1, b"b", None);
    reads(rt, view, 2, b"a", Some(b"9"));
    reads(rt, view, 2, b"b", None);
}

#[test]
fn a_range_hides_from_its_number_on(rt: HostRuntime) {
    let mut view = three_keys(&rt, rt.alloc());
    for at in 13..16 {
        assert!(&rt; view.hold(&rt, at).is_ok());
    }
    shows_three_keys(&rt, &view);
    assert_eq!(&rt; view.purge(), 0);
    shows_three_keys(&rt, &view);
    // Without the holds before, the first Set of a is shown by none. What a range hides is kept.
    view.release(&rt, 0);
    view.release(&rt, 1);
    assert_eq!(&rt; view.purge(), 1);
    reads(&rt, &view, 2, b"a", Some(b"9"));
    reads(&rt, &view, 2, b"b", None);
}

#[test]
fn a_range_that_runs_backwards_hides_nothing(rt: HostRuntime) {
    let mut row = Row::new(rt.alloc());
    row.add(
        &rt,
        &[Change::Set(b"b", b"1"), Change::RangeDelete(b"c", b"a")],
    );
    row.add(&rt, &[Change::RangeDelete(b"b", b"b")]);
    let mut view = row.view(&rt);
    assert_eq!(&rt; view.hold(&rt, 13), Ok(0));
    reads(&rt, &view, 0, b"b", Some(b"1"));
    gives(&rt, view.scan(&rt, 0, b"a"), &[(b"b", b"1")]);
}

#[test]
fn one_of_two_equal_holds_goes(rt: HostRuntime) {
    let mut view = accounts(&rt, rt.alloc());
    assert_eq!(&rt; view.hold(&rt, 12), Ok(0));
    assert_eq!(&rt; view.hold(&rt, 12), Ok(1));
    view.release(&rt, 0);
    assert_eq!(&rt; view.purge(), 0);
    reads(&rt, &view, 1, b"acct/1", Some(b"90"));
    view.release(&rt, 1);
    assert_eq!(&rt; view.purge(), 1);
}

/// A pseudo-random number that follows another one.
fn after(x: u64) -> u64 {
    x.wrapping_mul(0x5851_F42D_4C95_7F2D)
        .wrapping_add(0x1405_7B7E_F767_814F)
}

const LETTERS: [&[u8]; 16] = [
    b"a", b"b", b"c", b"d", b"e", b"f", b"g", b"h", b"i", b"j", b"k", b"l", b"m", b"n", b"o", b"p",
];

/// One of the letters.
fn letter(x: u64) -> &'static [u8] {
    LETTERS[x as usize % 16]
}

/// What an entry leaves a key with that it is about.
fn left<'b>(entry: &'b Entry, key: &[u8]) -> Option<Option<&'b [u8]>> {
    match entry {
        Entry::Set { key: k, value } if k.as_slice() == key => Some(Some(value.as_slice())),
        Entry::Delete { key: k } if k.as_slice() == key => Some(None),
        Entry::RangeDelete { start, end }
            if start.as_slice().cmp(&key).is_le() && key.cmp(&end.as_slice()).is_lt() => {
            Some(None)
        }
        _ => None,
    }
}

/// Whether an entry takes a number.
fn is_counted(entry: &Entry) -> bool {
    match entry {
        Entry::Note { .. } => false,
        _ => true,
    }
}

/// The value of a key by the entries below a number: the last of them decides.
fn slow<'b>(batches: &'b Batches, below: u64, key: &[u8]) -> Option<&'b [u8]> {
    let mut found = None;
    for batch in batches.as_slice() {
        let mut number = batch.first;
        for entry in batch.entries.as_slice() {
            if number >= below {
                return found;
            }
            if let Some(value) = left(entry, key) {
                found = value;
            }
            if is_counted(entry) {
                number = number.saturating_add(1);
            }
        }
    }
    found
}

/// The view shows at a hold what the entries below the hold's number leave.
fn shows(rt: &impl Abort, view: &Rig, batches: &Batches, number: usize, at: u64) {
    let mut scan = view.scan(rt, number, b"");
    for x in 0..16 {
        let key = letter(x);
        let wanted = slow(batches, at, key);
        reads(rt, view, number, key, wanted);
        if let Some(value) = wanted {
            assert_eq!(rt; scan.next(), Some(Pair { key, value }));
        }
    }
    assert_eq!(rt; scan.next(), None);
}

/// A batch of one entry, by chance.
fn add_by_chance(rt: &impl Abort, row: &mut Row, x: u64) {
    let (key, end) = (letter(x >> 40), letter(x >> 44));
    match x >> 50 & 7 {
        0 => row.add(rt, &[Change::RangeDelete(key, end), Change::Note(b"n")]),
        1 | 2 => row.add(rt, &[Change::Delete(key)]),
        _ => row.add(rt, &[Change::Set(key, end)]),
    }
}

const HELD: [u64; 9] = [10, 11, 40, 41, 200, 333, 500, 609, 610];

#[test]
fn many_purges_change_no_held_answer(rt: HostRuntime) {
    let mut x = 7;
    let mut row = Row::new(rt.alloc());
    for _ in 0..600 {
        x = after(x);
        add_by_chance(&rt, &mut row, x);
    }
    let mut view = row.view(&rt);
    for at in HELD {
        assert!(&rt; view.hold(&rt, at).is_ok());
    }
    for turn in 0..HELD.len() {
        let removed = view.purge();
        assert!(&rt; turn > 0 || removed > 300);
        for k in turn..HELD.len() {
            shows(&rt, &view, &row.batches, k, HELD[k]);
        }
        view.release(&rt, turn);
    }
    view.purge();
    assert_eq!(&rt; view.purge(), 0);
}
