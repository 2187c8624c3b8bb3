//! Directories in which several things are wrong: the first reason is answered, in the order of the WALs.
//!
//! A batch is its first number and a digit; another digit under one number is another batch. The expected answers are
//! worked out by hand: duplicates before all; then WAL by WAL the first record that is cut short, by index and place,
//! or the first segment that lost synced bytes and has no such record (only where no gap is accepted); then the first
//! batch that leaves a gap (only where none is accepted) or that denies one before it.

use crate::RecoverFault;
use crate::tests::{CUT, LOST, Summary, primary, secondary, see};
use batch_repr::BatchFault;

const fn twice(wal: u64, index: u32) -> Summary {
    Err(RecoverFault::DuplicateSegment { wal, index })
}

/// The record at this place is cut short.
const fn bad(wal: u64, index: u32, place: u64) -> Summary {
    let fault = BatchFault::ShortEntry { at: 12 };
    Err(RecoverFault::BadBatch {
        wal,
        index,
        place,
        fault,
    })
}

/// The bytes from this place on are lost, as the chunk that begins the second block shows.
const fn corrupt(wal: u64, index: u32, at: u64) -> Summary {
    Err(RecoverFault::Corrupt {
        wal,
        index,
        at,
        shown_at: 32_768,
    })
}

const fn gap(wal: u64, index: u32, expected: u64, found: u64) -> Summary {
    Err(RecoverFault::Gap {
        wal,
        index,
        expected,
        found,
    })
}

const fn conflict(wal: u64, index: u32, first: u64) -> Summary {
    Err(RecoverFault::Conflict { wal, index, first })
}

/// A bad batch, a gap and a conflict, each in a WAL of its own. A gap is passed where gaps are accepted.
#[test]
fn the_first_wal_that_is_wrong_is_named(rt: HostRuntime) {
    let bad_gap_conflict = [
        primary(1, 0, &[(10, 1), (11, CUT)]),
        primary(2, 0, &[(13, 1)]),
        primary(3, 0, &[(13, 2)]),
    ];
    see(
        &rt,
        rt.alloc(),
        &bad_gap_conflict,
        bad(1, 0, 28),
        bad(1, 0, 28),
    );
    let gap_bad_conflict = [
        primary(1, 0, &[(10, 1), (12, 1)]),
        primary(2, 0, &[(13, 1), (14, CUT)]),
        primary(3, 0, &[(12, 2)]),
    ];
    see(
        &rt,
        rt.alloc(),
        &gap_bad_conflict,
        gap(1, 0, 11, 12),
        bad(2, 0, 28),
    );
    let gap_conflict_bad = [
        primary(1, 0, &[(10, 1), (12, 1)]),
        primary(2, 0, &[(12, 2)]),
        primary(3, 0, &[(13, CUT)]),
    ];
    see(
        &rt,
        rt.alloc(),
        &gap_conflict_bad,
        gap(1, 0, 11, 12),
        conflict(2, 0, 12),
    );
    let conflict_bad_gap = [
        primary(1, 0, &[(10, 1), (11, 1)]),
        secondary(1, 5, &[(11, 2)]),
        primary(2, 0, &[(12, CUT)]),
        primary(3, 0, &[(20, 1)]),
    ];
    see(
        &rt,
        rt.alloc(),
        &conflict_bad_gap,
        conflict(1, 5, 11),
        conflict(1, 5, 11),
    );
}

/// A duplicate, whatever is wrong in the WALs before it. Of two the least is named.
#[test]
fn a_duplicate_comes_before_all(rt: HostRuntime) {
    let behind_bad = [
        primary(1, 0, &[(10, CUT)]),
        primary(2, 0, &[(11, 1)]),
        secondary(2, 0, &[(11, 1)]),
    ];
    see(&rt, rt.alloc(), &behind_bad, twice(2, 0), twice(2, 0));
    let ahead = [
        primary(1, 0, &[(10, 1)]),
        secondary(1, 0, &[(10, 1)]),
        primary(2, 0, &[(11, CUT)]),
        primary(3, 0, &[(10, 2)]),
    ];
    see(&rt, rt.alloc(), &ahead, twice(1, 0), twice(1, 0));
    let two = [
        primary(1, 2, &[(10, CUT)]),
        primary(2, 0, &[]),
        secondary(2, 0, &[]),
        secondary(1, 2, &[]),
    ];
    see(&rt, rt.alloc(), &two, twice(1, 2), twice(1, 2));
}

/// The segments of one WAL are decoded before its row is merged.
#[test]
fn a_bad_batch_comes_before_what_its_own_wal_merges_to(rt: HostRuntime) {
    let behind_conflict = [
        primary(1, 0, &[(10, 1), (10, 2)]),
        secondary(1, 1, &[(11, CUT)]),
        primary(2, 0, &[(20, 1)]),
    ];
    see(
        &rt,
        rt.alloc(),
        &behind_conflict,
        bad(1, 1, 0),
        bad(1, 1, 0),
    );
    let behind_gap = [
        primary(1, 0, &[(10, 1)]),
        primary(2, 0, &[(12, 1)]),
        secondary(2, 3, &[(12, 1), (13, CUT)]),
    ];
    see(&rt, rt.alloc(), &behind_gap, bad(2, 3, 28), bad(2, 3, 28));
}

/// Of a gap and a conflict the first in the row is named, and gaps are passed where they are accepted.
#[test]
fn a_gap_and_a_conflict_are_named_by_their_places(rt: HostRuntime) {
    let in_one_segment = [
        primary(1, 0, &[(10, 1), (12, 1), (12, 2)]),
        primary(2, 0, &[(13, CUT)]),
    ];
    see(
        &rt,
        rt.alloc(),
        &in_one_segment,
        gap(1, 0, 11, 12),
        conflict(1, 0, 12),
    );
    let between_wals = [
        primary(1, 0, &[(10, 1)]),
        secondary(2, 0, &[(12, 1)]),
        primary(3, 5, &[(12, 2)]),
    ];
    see(
        &rt,
        rt.alloc(),
        &between_wals,
        gap(2, 0, 11, 12),
        conflict(3, 5, 12),
    );
    let below_the_first = [primary(1, 0, &[(9, 1)]), primary(2, 0, &[(9, 2)])];
    see(
        &rt,
        rt.alloc(),
        &below_the_first,
        conflict(1, 0, 9),
        conflict(2, 0, 9),
    );
    let above_the_first = [primary(1, 0, &[(11, 1)]), primary(2, 0, &[(12, CUT)])];
    see(
        &rt,
        rt.alloc(),
        &above_the_first,
        gap(1, 0, 10, 11),
        bad(2, 0, 0),
    );
    let a_repeated_wal = [
        primary(3, 0, &[(10, 1), (11, 2)]),
        secondary(7, 2, &[(10, 1), (12, 3)]),
    ];
    see(
        &rt,
        rt.alloc(),
        &a_repeated_wal,
        conflict(7, 2, 10),
        Ok((3, Some(b'3'), 13, 8)),
    );
    let only_a_gap = [
        primary(1, 0, &[(10, 1)]),
        primary(2, 0, &[(12, 2)]),
        secondary(3, 0, &[(12, 2), (13, 3)]),
    ];
    see(
        &rt,
        rt.alloc(),
        &only_a_gap,
        gap(2, 0, 11, 12),
        Ok((3, Some(b'3'), 14, 4)),
    );
}

/// Within a segment a bad batch comes first, and of two segments of a WAL the one of the lesser index.
#[test]
fn of_a_bad_batch_and_lost_bytes_the_first_is_named(rt: HostRuntime) {
    let within = [primary(1, 0, &[(10, CUT), (11, LOST)])];
    see(&rt, rt.alloc(), &within, bad(1, 0, 0), bad(1, 0, 0));
    let behind_bad = [
        primary(1, 0, &[(10, 1), (11, CUT)]),
        secondary(1, 1, &[(11, LOST)]),
    ];
    see(&rt, rt.alloc(), &behind_bad, bad(1, 0, 28), bad(1, 0, 28));
    let ahead_of_bad = [
        primary(1, 0, &[(10, 1), (11, LOST)]),
        secondary(1, 1, &[(11, CUT)]),
    ];
    see(
        &rt,
        rt.alloc(),
        &ahead_of_bad,
        corrupt(1, 0, 28),
        bad(1, 1, 0),
    );
    let twice_lost = [
        primary(1, 0, &[(10, 1)]),
        secondary(1, 1, &[(11, 2), (12, LOST)]),
        primary(1, 2, &[(11, 2), (12, 3), (13, LOST)]),
    ];
    see(
        &rt,
        rt.alloc(),
        &twice_lost,
        corrupt(1, 1, 28),
        Ok((3, Some(b'3'), 13, 2)),
    );
}

/// Lost bytes are looked for before the row of their WAL is merged, and once the WALs before it are.
#[test]
fn lost_bytes_come_before_what_their_own_wal_merges_to(rt: HostRuntime) {
    let behind_gap = [
        primary(1, 0, &[(10, 1), (12, 1)]),
        secondary(1, 3, &[(12, 1), (13, LOST)]),
    ];
    see(
        &rt,
        rt.alloc(),
        &behind_gap,
        corrupt(1, 3, 28),
        Ok((2, Some(b'1'), 13, 2)),
    );
    let behind_conflict = [primary(1, 0, &[(10, 1), (10, 2), (11, LOST)])];
    see(
        &rt,
        rt.alloc(),
        &behind_conflict,
        corrupt(1, 0, 56),
        conflict(1, 0, 10),
    );
    let of_a_later_wal = [
        primary(1, 0, &[(10, 1), (12, 1)]),
        primary(2, 0, &[(13, 1), (14, LOST)]),
    ];
    see(
        &rt,
        rt.alloc(),
        &of_a_later_wal,
        gap(1, 0, 11, 12),
        Ok((3, Some(b'1'), 14, 3)),
    );
}
