//! Stores that are flushed, with the answers of docs/formats/table.md, "Flushing".

use super::{Rig, TEXT, Told, framed, over_two, seen, set, summary};
use crate::{Flushed, StoreRead, flush};
use disk_face::Side;
use std::alloc::Global;
use std::process::Abort;
use wal_recovery::{Mode, RecoverFault};

/// The record of a batch that deletes the key `a`.
const fn delete(first: u8) -> [u8; 15] {
    [first, 0, 0, 0, 0, 0, 0, 0, 1, 0, 0, 0, 0, 1, b'a']
}

const PRIMARY_FAILED: RecoverFault = RecoverFault::Disk {
    side: Side::Primary,
};

/// What a flush answers of this disk.
fn flushed(alloc: Global, rig: &mut Rig) -> Result<Option<Flushed>, RecoverFault> {
    flush(alloc, &mut rig.disk)
}

/// The batches 10 and 11 in a segment of WAL 1, and 12 on the other side in one of WAL 2.
fn two_segments(rt: &impl Abort, alloc: Global) -> Rig {
    let mut rig = Rig::new(rt, alloc);
    let records = [&set(10, b'a', b'1')[..], &set(11, b'b', b'2')];
    rig.segment(rt, alloc, Side::Primary, 1, &records);
    rig.segment(rt, alloc, Side::Secondary, 2, &[&set(12, b'b', b'3')]);
    rig
}

/// The store of the disk is that of one table alone, with so many keys.
fn see_table(rt: &impl Abort, alloc: Global, rig: &mut Rig, upto: u64, keys: u64, next: u64) {
    let found: Result<StoreRead, RecoverFault> = rig.read(alloc, Mode::Strict);
    let found = summary(found).expect(rt, "a store");
    assert!(rt; found.table == seen(upto, keys, next));
    assert!(rt; found.next == next);
    assert!(rt; found.listed == (1, 0));
}

#[test]
fn a_flush_leaves_one_table(rt: HostRuntime) {
    let alloc = rt.alloc();
    let mut rig = two_segments(&rt, alloc);
    let done = Flushed {
        keys: 2,
        next: 13,
        upto: 2,
        dropped: 2,
    };
    assert!(rt; flushed(alloc, &mut rig) == Ok(Some(done)));
    see_table(&rt, alloc, &mut rig, 2, 2, 13);
    assert!(rt; flushed(alloc, &mut rig) == Ok(None));
    see_table(&rt, alloc, &mut rig, 2, 2, 13);
}

/// The table before it is removed, and a key that has no value is not in the new one.
#[test]
fn a_flush_over_a_table_goes_on_from_it(rt: HostRuntime) {
    let alloc = rt.alloc();
    let mut rig = over_two(&rt, alloc);
    rig.segment(&rt, alloc, Side::Primary, 3, &[&delete(14)]);
    let done = Flushed {
        keys: 1,
        next: 15,
        upto: 3,
        dropped: 1,
    };
    assert!(rt; flushed(alloc, &mut rig) == Ok(Some(done)));
    see_table(&rt, alloc, &mut rig, 3, 1, 15);
}

/// No table is put where the used one covers every segment: a flush that failed before is gone on with.
#[test]
fn segments_below_the_used_table_are_removed(rt: HostRuntime) {
    let alloc = rt.alloc();
    let mut rig = Rig::new(&rt, alloc);
    rig.segment(&rt, alloc, Side::Primary, 1, &[&set(10, b'b', b'9')]);
    rig.segment(&rt, alloc, Side::Secondary, 1, &[&set(10, b'b', b'9')]);
    rig.table(&rt, 1, &TEXT);
    let done = Flushed {
        keys: 1,
        next: 13,
        upto: 1,
        dropped: 2,
    };
    assert!(rt; flushed(alloc, &mut rig) == Ok(Some(done)));
    see_table(&rt, alloc, &mut rig, 1, 1, 13);
}

/// Without a segment nothing is done, though a lesser table is left over.
#[test]
fn without_a_segment_nothing_is_flushed(rt: HostRuntime) {
    let alloc = rt.alloc();
    let mut rig = over_two(&rt, alloc);
    rig.table(&rt, 1, &TEXT);
    assert!(rt; flushed(alloc, &mut rig) == Ok(None));
    let found = summary(rig.read(alloc, Mode::Strict)).expect(&rt, "a store");
    assert!(rt; found.listed == (2, 0));
}

#[test]
fn a_gap_is_not_flushed(rt: HostRuntime) {
    let alloc = rt.alloc();
    let mut rig = over_two(&rt, alloc);
    rig.segment(&rt, alloc, Side::Primary, 3, &[&set(15, b'a', b'3')]);
    let gap = RecoverFault::Gap {
        wal: 3,
        index: 0,
        expected: 14,
        found: 15,
    };
    assert!(rt; flushed(alloc, &mut rig) == Err(gap));
}

/// The listing fails, or the put, or a removal. The store ends at the same number, and the next flush goes on.
#[test]
fn a_flush_goes_on_where_one_failed(rt: HostRuntime) {
    let alloc = rt.alloc();
    for call in [0, 1, 2, 3] {
        let mut rig = two_segments(&rt, alloc);
        rig.fail_table_call(&rt, call);
        assert!(rt; flushed(alloc, &mut rig) == Err(failed_on(call)));
        let found: Result<Told, RecoverFault> = summary(rig.read(alloc, Mode::Strict));
        assert!(rt; found.expect(&rt, "a store").next == 13);
        let again = flushed(alloc, &mut rig).expect(&rt, "a flush");
        assert!(rt; again.is_some());
        see_table(&rt, alloc, &mut rig, 2, 2, 13);
    }
}

/// The side of which that call is: the last one removes the segment of the secondary side.
fn failed_on(call: u64) -> RecoverFault {
    match call {
        3 => RecoverFault::Disk {
            side: Side::Secondary,
        },
        _ => PRIMARY_FAILED,
    }
}

/// The text that a flush puts is that of the format's example.
#[test]
fn the_text_of_a_table_is_put(rt: HostRuntime) {
    let alloc = rt.alloc();
    let mut rig = Rig::new(&rt, alloc);
    let records = [
        &set(10, b'a', b'2')[..],
        &set(11, b'a', b'3'),
        &set(12, b'a', b'1'),
    ];
    rig.segment(&rt, alloc, Side::Primary, 1, &records);
    assert!(rt; flushed(alloc, &mut rig).is_ok());
    let mut bytes = [0u8; 80];
    let count = rig.read_table(1, &mut bytes).expect(&rt, "a read");
    assert!(rt; bytes.get(..count) == Some(&TEXT[..]));
}
