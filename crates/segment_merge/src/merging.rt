//! Merging without gaps, in one pass over the batches of a row.

ghost use Rattle.std.specs.Prelude.{◌≡◌, [], All, IfErr, IfOk, IfSome};
ghost use Rattle.segment_merge.specs.Rows.{IsNumbered, IsNumberedSegment, IsRow, batches_in};
ghost use Rattle.segment_merge.specs.Merging.{Merged};
ghost use Rattle.segment_merge.specs.Refusals.{IsRowRefused};
ghost use Rattle.segment_merge.specs.Returned.{MemoryOrRefusal};
ghost use Rattle.segment_merge.specs.Steps.{Steps};
ghost use Rattle.segment_merge.specs.Keeping.{IsWholeFrom};
ghost use Rattle.segment_merge.specs.Promises.{MergesSegment, FindsMerged, RefusesGap, RefusesConflict};

use crate::fault::MergeFault;
use crate::known::KnownBatches;
use crate::segment::{SegmentRead, Segments};
use batch_repr::{Batch, Batches};
use std::alloc::Global;

/// What the next batch of a segment does. It is appended where it begins at the number that comes next, and passed
/// over where it is kept already.
fn step(
    kept: &mut KnownBatches,
    expected: u64,
    is_first: bool,
    index: u32,
    batch: Batch,
) -> Result<(), MergeFault>
    requires { IsNumbered batch }
    ensures { Steps kept.old kept.new expected is_first index batch result }
{
    let first = batch.first;
    if first > expected {
        return Err(MergeFault::Gap {
            index,
            expected,
            found: first,
        });
    }
    if !is_first && first < expected {
        return Err(MergeFault::Conflict { index, first });
    }
    if first == kept.next() {
        kept.push(batch)?;
        return Ok(());
    }
    if !kept.has(&batch) {
        return Err(MergeFault::Conflict { index, first });
    }
    Ok(())
}

/// Merges one more segment, batch by batch.
fn merge_batches(kept: &mut KnownBatches, segment: SegmentRead) -> Result<(), MergeFault>
    requires { IsNumberedSegment segment }
    ensures { MergesSegment segment kept.old kept.new result }
{
    let index = segment.index;
    let mut expected = kept.next();
    let mut is_first = true;
    for batch in segment.batches.into_vec() {
        let behind = batch.end();
        step(kept, expected, is_first, index, batch)?;
        expected = behind;
        is_first = false;
    }
    Ok(())
}

/// The number after the batches, where they are contiguous from this one on.
fn contiguous_end(from: u64, batches: &[Batch]) -> Option<u64>
    requires { All IsNumbered batches.now }
    ensures { IfSome result (IsWholeFrom from batches.now) }
{
    let mut next = from;
    for batch in batches {
        if batch.first != next {
            return None;
        }
        next = batch.end();
    }
    Some(next)
}

/// The number after the batches of a segment, where nothing is kept yet and the merged list is the segment's own.
fn whole_end(kept: &KnownBatches, batches: &[Batch]) -> Option<u64>
    requires { All IsNumbered batches.now }
    ensures none { IfSome result (λ _. kept.now.batches ≡ []) }
    ensures end { IfSome result (IsWholeFrom kept.now.next batches.now) }
{
    if !kept.is_empty() {
        return None;
    }
    contiguous_end(kept.next(), batches)
}

/// Merges one more segment. What was kept so far is the merged list of those before it.
fn merge_segment(kept: &mut KnownBatches, segment: SegmentRead) -> Result<(), MergeFault>
    requires { IsNumberedSegment segment }
    ensures { MergesSegment segment kept.old kept.new result }
{
    match whole_end(kept, segment.batches.as_slice()) {
        Some(end) => {
            kept.take_over(segment.batches, end);
            Ok(())
        }
        None => merge_batches(kept, segment),
    }
}

/// The merged list of a row of segments: contiguous from `first`, with exactly the batches of all of them. Batches are
/// moved, not copied, and each is compared with one other at most.
///
/// `Gap` and `Conflict` come exactly where there is no such list, at the first batch with which there is none:
/// `Gap` where it begins above the number that is expected there, and `Conflict` where it does not.
pub fn merge(alloc: Global, first: u64, segs: Segments) -> Result<Batches, MergeFault>
    requires { IsRow segs }
    ensures found { IfOk result (λ merged. Merged first (batches_in segs) merged) }
    ensures merged { FindsMerged first segs result }
    ensures refused { IfErr result (MemoryOrRefusal (IsRowRefused first segs)) }
    ensures gap { RefusesGap first segs result }
    ensures conflict { RefusesConflict first segs result }
{
    let mut kept = KnownBatches::new(alloc, first);
    for segment in segs.into_vec() {
        merge_segment(&mut kept, segment)?;
    }
    Ok(kept.into_batches())
}
