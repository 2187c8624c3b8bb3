//! Merging that accepts gaps, in one pass over the batches of a row.

ghost use Rattle.std.specs.Prelude.{◌≡◌, [], All, IfErr, IfOk, IfSome};
ghost use Rattle.segment_merge.specs.Rows.{IsNumbered, IsNumberedSegment, IsRow, batches_in};
ghost use Rattle.segment_merge.specs.Lenient.{MergedLenient, IsRowLenientlyRefused};
ghost use Rattle.segment_merge.specs.Returned.{MemoryOrRefusal, IsNoGap};
ghost use Rattle.segment_merge.specs.Steps.{LenientSteps};
ghost use Rattle.segment_merge.specs.Keeping.{IsAscendingFrom};
ghost use Rattle.segment_merge.specs.Promises.{MergesSegmentLeniently, MergesRowLeniently};
ghost use Rattle.segment_merge.specs.Promises.{AddsRow, FindsMergedWithRow};
ghost use Rattle.segment_merge.specs.Promises.{RefusesWithRow, RefusesConflictWithRow};
ghost use Rattle.segment_merge.specs.Promises.{FindsLenientlyMerged, RefusesLenientConflict};

use crate::fault::MergeFault;
use crate::known::KnownBatches;
use crate::segment::{SegmentRead, Segments};
use batch_repr::{Batch, Batches};
use std::alloc::Global;
use std::marker::Model;

/// What the next batch does. It is appended where it begins after all that is kept, and passed over where it is
/// kept already.
fn step(kept: &mut KnownBatches, index: u32, batch: Batch) -> Result<(), MergeFault>
    requires { IsNumbered batch }
    ensures { LenientSteps kept.old kept.new index batch result }
{
    let first = batch.first;
    if first >= kept.next() {
        kept.push(batch)?;
        return Ok(());
    }
    if !kept.has(&batch) {
        return Err(MergeFault::Conflict { index, first });
    }
    Ok(())
}

/// Merges one more segment into what was kept of those before it, batch by batch.
fn merge_batches(kept: &mut KnownBatches, segment: SegmentRead) -> Result<(), MergeFault>
    requires { IsNumberedSegment segment }
    ensures { MergesSegmentLeniently segment kept.old kept.new result }
{
    let index = segment.index;
    for batch in segment.batches.into_vec() {
        step(kept, index, batch)?;
    }
    Ok(())
}

/// The number after the batches, where each begins at or above this one and the ends of those before it.
fn ascending_end(from: u64, batches: &[Batch]) -> Option<u64>
    requires { All IsNumbered batches.now }
    ensures { IfSome result (IsAscendingFrom from batches.now) }
{
    let mut next = from;
    for batch in batches {
        if batch.first < next {
            return None;
        }
        next = batch.end();
    }
    Some(next)
}

/// The number after the batches of a segment, where nothing is kept yet and none of them repeats another.
fn whole_end(kept: &KnownBatches, batches: &[Batch]) -> Option<u64>
    requires { All IsNumbered batches.now }
    ensures none { IfSome result (λ _. kept.now.batches ≡ []) }
    ensures end { IfSome result (IsAscendingFrom kept.now.next batches.now) }
{
    if !kept.is_empty() {
        return None;
    }
    ascending_end(kept.next(), batches)
}

/// Merges one more segment into what was kept of those before it.
fn merge_segment(kept: &mut KnownBatches, segment: SegmentRead) -> Result<(), MergeFault>
    requires { IsNumberedSegment segment }
    ensures { MergesSegmentLeniently segment kept.old kept.new result }
{
    match whole_end(kept, segment.batches.as_slice()) {
        Some(end) => {
            kept.take_over(segment.batches, end);
            Ok(())
        }
        None => merge_batches(kept, segment),
    }
}

/// Merges more segments into what was kept of those before them.
fn merge_row(kept: &mut KnownBatches, row: Segments) -> Result<(), MergeFault>
    requires { All IsNumberedSegment row }
    ensures { MergesRowLeniently row kept.old kept.new result }
{
    for segment in row.into_vec() {
        merge_segment(kept, segment)?;
    }
    Ok(())
}

/// A merge that accepts gaps and goes on, row by row. A contract sees the batches that it has merged so far.
#[derive(Drop)]
pub struct LenientMerge {
    kept: KnownBatches,
}

impl Model for LenientMerge {
    ghost use Rattle.std.specs.Prelude.{List};
    ghost use Rattle.batch_repr.specs.declared.batch.Batch.{Batch};
    ghost use Rattle.segment_merge.specs.Steps.{KeepsLenient};

    ghost Value = { List Batch };

    ghost view = { λ merge. merge.kept.batches };

    ghost invariant = { λ merge. KeepsLenient merge.kept.batches merge.kept };
}

impl LenientMerge {
    /// Nothing is merged yet.
    pub fn new(alloc: Global) -> LenientMerge
        ensures { result ≡ [] }
    {
        LenientMerge {
            kept: KnownBatches::new(alloc, 0),
        }
    }

    /// Goes on with more segments, in the time of a pass over their batches. Whatever segments were merged before,
    /// the answer is that of `merge_lenient` for these and the new ones as one row.
    pub fn add(self, row: Segments) -> Result<LenientMerge, MergeFault>
        requires { All IsNumberedSegment row }
        ensures found { AddsRow self row result }
        ensures merged { FindsMergedWithRow self row result }
        ensures refused { RefusesWithRow self row result }
        ensures conflict { RefusesConflictWithRow self row result }
    {
        let mut kept = self.kept;
        merge_row(&mut kept, row)?;
        Ok(LenientMerge { kept })
    }

    /// Gives the batches up.
    pub fn into_batches(self) -> Batches
        ensures { result ≡ self }
    {
        self.kept.into_batches()
    }
}

/// The batches of a row of segments, without repeated ones, whatever numbers are left out between them. Batches are
/// moved, not copied, and each is compared with one other at most.
///
/// `Conflict` comes exactly where there is no such list, at the first batch that begins below the end of one before
/// it and is none of those. `Gap` never comes.
pub fn merge_lenient(alloc: Global, segs: Segments) -> Result<Batches, MergeFault>
    requires { IsRow segs }
    ensures found { IfOk result (λ merged. MergedLenient (batches_in segs) merged) }
    ensures merged { FindsLenientlyMerged segs result }
    ensures refused { IfErr result (MemoryOrRefusal (IsRowLenientlyRefused segs)) }
    ensures conflict { RefusesLenientConflict segs result }
    ensures no_gap { IfErr result IsNoGap }
{
    let merge = LenientMerge::new(alloc).add(segs)?;
    Ok(merge.into_batches())
}
