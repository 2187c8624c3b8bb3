ghost use Rattle.std.specs.Prelude.{All, IsTrue};
ghost use Rattle.segment_merge.specs.Rows.{IsNumbered, IsRow};

use crate::{KnownBatches, LenientMerge, MergeFault, SegmentRead, Segments, merge, merge_lenient};
use batch_repr::{Batch, Batches, NUMBER_MAX, SharedEntries};
use std::alloc::Global;
use std::process::Abort;
use wal_base::{Blob, Entries, Entry};

fn blob(rt: &impl Abort, alloc: Global, bytes: &[u8]) -> Blob {
    Blob::copy_of(alloc, bytes).expect(rt, "memory")
}

/// The batch with this first number of one Set, of the key `a` to one byte.
fn batch(rt: &impl Abort, alloc: Global, first: u64, value: u8) -> Batch {
    let key = blob(rt, alloc, b"a");
    let value = blob(rt, alloc, [value].as_slice());
    let mut entries = Entries::new(alloc);
    assert!(rt; entries.push(Entry::Set { key, value }).is_ok());
    let entries = SharedEntries::of(alloc, entries.into_vec()).expect(rt, "memory");
    Batch { first, entries }
}

/// It is that batch.
fn is_batch(found: &Batch, first: u64, value: u8) -> bool {
    match found.entries.as_slice() {
        [Entry::Set { key, value: set }] => {
            let is_set = key.as_slice() == b"a".as_slice() && set.as_slice() == [value].as_slice();
            found.first == first && is_set
        }
        _ => false,
    }
}

/// The batch takes a number and ends within the numbers.
fn is_numbered(batch: &Batch) -> bool
    ensures { IsTrue result → IsNumbered batch.now }
{
    let taken = batch.count();
    0 < taken && taken <= NUMBER_MAX && batch.first <= NUMBER_MAX - taken
}

/// Each batch does.
fn see_numbered(rt: &impl Abort, batches: &[Batch])
    ensures { All IsNumbered batches.now }
{
    for batch in batches {
        let numbered = is_numbered(batch);
        assert!(rt; numbered);
    }
}

/// The segments are a row that may be merged.
fn see_row(rt: &impl Abort, segments: &[SegmentRead])
    ensures { IsRow segments.now }
{
    for k in 1..segments.len() {
        assert!(rt; segments[k - 1].index < segments[k].index);
    }
    for segment in segments {
        see_numbered(rt, segment.batches.as_slice());
    }
}

/// The segment of this index, with the first numbers and values of its batches.
fn segment(rt: &impl Abort, alloc: Global, index: u32, numbers: &[(u64, u8)]) -> SegmentRead {
    let mut batches = Batches::new(alloc);
    for (first, value) in numbers {
        assert!(rt; batches.push(batch(rt, alloc, *first, *value)).is_ok());
    }
    SegmentRead { index, batches }
}

/// The row of these segments, each with its index and the first numbers and values of its batches.
fn row(rt: &impl Abort, alloc: Global, segments: &[(u32, &[(u64, u8)])]) -> Segments
    ensures { IsRow result }
{
    let mut row = Segments::new(alloc);
    for (index, numbers) in segments {
        assert!(rt; row.push(segment(rt, alloc, *index, *numbers)).is_ok());
    }
    see_row(rt, row.as_slice());
    row
}

/// They are the batches of these first numbers and values.
fn are_batches(found: &[Batch], wanted: &[(u64, u8)]) -> bool {
    for (batch, (first, value)) in found.iter().zip(wanted) {
        if !is_batch(batch, *first, *value) {
            return false;
        }
    }
    found.len() == wanted.len()
}

/// What was merged is these batches.
fn gives(rt: &impl Abort, answer: Result<Batches, MergeFault>, wanted: &[(u64, u8)]) {
    let Ok(merged) = answer else {
        panic!(rt; "a merged list");
    };
    assert!(rt; are_batches(merged.as_slice(), wanted));
}

/// Merging was refused.
fn refused(rt: &impl Abort, answer: Result<Batches, MergeFault>, fault: MergeFault) {
    assert!(rt; answer.err() == Some(fault));
}

/// Merges the two rows that accept gaps, one after the other.
fn merge_in_turn(
    rt: &impl Abort,
    alloc: Global,
    first: &[(u32, &[(u64, u8)])],
    second: &[(u32, &[(u64, u8)])],
) -> Result<Batches, MergeFault> {
    let merge = LenientMerge::new(alloc).add(row(rt, alloc, first))?;
    let merge = merge.add(row(rt, alloc, second))?;
    Ok(merge.into_batches())
}

#[test]
fn what_two_segments_share_is_kept_once(rt: HostRuntime) {
    let alloc = rt.alloc();
    let first = [(10, b'1'), (11, b'2'), (12, b'3')];
    let second = [(11, b'2'), (12, b'3'), (13, b'4'), (14, b'5')];
    let all = [(10, b'1'), (11, b'2'), (12, b'3'), (13, b'4'), (14, b'5')];
    // An empty segment and left out indexes change nothing.
    let segments = [(1, first.as_slice()), (4, &first[..0]), (5, &second)];
    let segments = segments.as_slice();
    gives(&rt, merge(alloc, 10, row(&rt, alloc, segments)), &all);
    gives(&rt, merge_lenient(alloc, row(&rt, alloc, segments)), &all);
}

#[test]
fn a_gap_is_refused_where_none_is_accepted(rt: HostRuntime) {
    let alloc = rt.alloc();
    let batches = [(10, b'1'), (11, b'2'), (12, b'3'), (15, b'6')];
    // The index that is told is the segment's own.
    let segments = [(2, &batches[..3]), (7, &batches[3..])];
    let segments = segments.as_slice();
    let gap = MergeFault::Gap {
        index: 7,
        expected: 13,
        found: 15,
    };
    refused(&rt, merge(alloc, 10, row(&rt, alloc, segments)), gap);
    gives(
        &rt,
        merge_lenient(alloc, row(&rt, alloc, segments)),
        &batches,
    );
}

#[test]
fn two_batches_of_one_number_are_refused(rt: HostRuntime) {
    let alloc = rt.alloc();
    let first = [(10, b'1'), (11, b'2'), (12, b'3')];
    let second = [(12, b'9')];
    let segments = [(0, first.as_slice()), (1, second.as_slice())];
    let segments = segments.as_slice();
    let fault = MergeFault::Conflict {
        index: 1,
        first: 12,
    };
    refused(&rt, merge(alloc, 10, row(&rt, alloc, segments)), fault);
    refused(&rt, merge_lenient(alloc, row(&rt, alloc, segments)), fault);
}

#[test]
fn a_merge_with_gaps_goes_on_from_row_to_row(rt: HostRuntime) {
    let alloc = rt.alloc();
    let batches = [(10, b'1'), (12, b'2'), (15, b'3')];
    // The second row repeats a batch of the first one, under the same index.
    let first = [(0, &batches[..2])];
    let second = [(0, &batches[1..])];
    gives(&rt, merge_in_turn(&rt, alloc, &first, &second), &batches);
    // The other one has another batch 12. Its index is told.
    let other = [(15, b'3'), (12, b'9')];
    let second = [(4, other.as_slice())];
    let fault = MergeFault::Conflict {
        index: 4,
        first: 12,
    };
    refused(&rt, merge_in_turn(&rt, alloc, &first, &second), fault);
}

#[test]
fn a_known_batch_is_found_by_its_number(rt: HostRuntime) {
    let alloc = rt.alloc();
    let mut known = KnownBatches::new(alloc, 10);
    assert!(rt; known.is_empty());
    let first = batch(&rt, alloc, 10, b'1');
    assert!(rt; is_numbered(&first) && known.next() <= first.first);
    assert!(rt; known.push(first).is_ok());
    assert_eq!(rt; (known.next(), known.batches().len()), (11, 1));
    assert!(rt; known.has(&batch(&rt, alloc, 10, b'1')));
    assert!(rt; !known.has(&batch(&rt, alloc, 10, b'2')));
    assert!(rt; !known.has(&batch(&rt, alloc, 11, b'1')));
}
