//! Recovery that goes on from batches that are there already: 10 and 11, with the digits 1 and 2.
//!
//! The segments of WALs from 2 on are read, and 12 comes next. The expected answers are worked out by hand.

use crate::tests::{CUT, Rig, Segment, Summary, primary, secondary, summary};
use crate::{Mode, RecoverFault};
use std::alloc::Global;
use std::process::Abort;

/// Directories with these segments recover to this, strictly and leniently.
fn see_behind(
    rt: &impl Abort,
    alloc: Global,
    segments: &[Segment<'_>],
    strict: Summary,
    lenient: Summary,
) {
    let mut before = Rig::of(rt, alloc, &[primary(1, 0, &[(10, 1), (11, 2)])]);
    let mut rig = Rig::of(rt, alloc, segments);
    let found = summary(rig.recover_onto(alloc, Mode::Strict, &mut before, 2));
    assert!(rt; found == strict);
    let found = summary(rig.recover_onto(alloc, Mode::Lenient, &mut before, 2));
    assert!(rt; found == lenient);
}

const fn conflict(first: u64) -> Summary {
    Err(RecoverFault::Conflict {
        wal: 2,
        index: 0,
        first,
    })
}

#[test]
fn segments_stand_behind_the_base(rt: HostRuntime) {
    let segments = [
        primary(1, 0, &[(10, CUT)]),
        primary(2, 0, &[(12, 3)]),
        secondary(2, 1, &[(12, 3), (13, 4)]),
    ];
    let all = Ok((4, Some(b'4'), 14, 3));
    see_behind(&rt, rt.alloc(), &segments, all, all);
}

#[test]
fn the_base_alone_is_recovered(rt: HostRuntime) {
    let base = Ok((2, Some(b'2'), 12, 1));
    see_behind(&rt, rt.alloc(), &[], base, base);
}

#[test]
fn a_gap_behind_the_base_is_accepted_only_leniently(rt: HostRuntime) {
    let gap = Err(RecoverFault::Gap {
        wal: 2,
        index: 0,
        expected: 12,
        found: 13,
    });
    let three = Ok((3, Some(b'4'), 14, 3));
    see_behind(&rt, rt.alloc(), &[primary(2, 0, &[(13, 4)])], gap, three);
}

#[test]
fn a_batch_of_the_base_is_passed_over_only_leniently(rt: HostRuntime) {
    let segments = [primary(2, 0, &[(11, 2), (12, 3)])];
    let three = Ok((3, Some(b'3'), 13, 3));
    see_behind(&rt, rt.alloc(), &segments, conflict(11), three);
}

#[test]
fn another_batch_below_the_end_of_the_base_is_a_conflict(rt: HostRuntime) {
    let segments = [primary(2, 0, &[(11, 9), (12, 3)])];
    see_behind(&rt, rt.alloc(), &segments, conflict(11), conflict(11));
}
