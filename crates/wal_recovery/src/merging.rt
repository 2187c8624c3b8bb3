//! The segments of WALs as rows of batches, and the rows as one list.

ghost use Rattle.std.specs.Prelude.{◌≡◌, ◌≤◌, ◌∷◌, ◌++◌, [], All, Some, IfSome, IfNone, IfOk, IfErr, OnOk};
ghost use Rattle.wal_recovery.specs.Base.{IsBaseOf, BeginsWith, AreWithinLimits};
ghost use Rattle.batch_repr.specs.declared.limits.TheConstants.{NUMBER_MAX};
ghost use Rattle.batch_repr.specs.Batches.{end_after, IsContiguous};
ghost use Rattle.segment_merge.specs.Rows.{IsNumbered, IsRow};
ghost use Rattle.disk_face.specs.View.{files};
ghost use Rattle.disk_face.specs.Calls.{GoesOn, SameDisk};
ghost use Rattle.wal_recovery.specs.declared.reports.Mode.TheVariants.{Strict, Lenient};
ghost use Rattle.wal_recovery.specs.Listing.{AreByNumber};
ghost use Rattle.wal_recovery.specs.Recovering.{PassesOver};
ghost use Rattle.wal_recovery.specs.Answers.{FaultRose, NoFaultRose, DiskMemoryOr};
ghost use Rattle.wal_recovery.specs.Rows.{wals_in};
ghost use Rattle.wal_recovery.specs.Gathered.{IsReportOf, IsBadIn, AddsSegment};
ghost use Rattle.wal_recovery.specs.Gathered.{IsOwnWal, named_in_wal, IsNoDisk};
ghost use Rattle.wal_recovery.specs.Asking.{ReadsOnly, found_in};
ghost use Rattle.wal_recovery.specs.Promises.{IsBadSegment, IsWalByIndex, IsRowOfWal, IsBadWal};
ghost use Rattle.wal_recovery.specs.Promises.{MergesWal, ReportsOnWal, IsWalRefused, RefusesWalLeniently};
ghost use Rattle.wal_recovery.specs.Promises.{MergesReports, MergesWals, MergesWalsLeniently};
ghost use Rattle.wal_recovery.specs.Promises.{ReportsOnWals, AreWalsRefused};

use crate::decoding::{DecodeFault, batches_of, counted_of};
use crate::fault::RecoverFault;
use crate::listing::Found;
use crate::reading::read_bytes;
use crate::reports::{Mode, SegReport, SegReports};
use crate::wals::{FoundWal, FoundWals};
use batch_repr::{Batch, Batches};
use block_record::{Shown, read_out_shared};
use disk_face::Disk;
use segment_merge::{LenientMerge, MergeFault, SegmentRead, Segments, merge};
use std::alloc::Global;

/// What shows a segment corrupt, where it is not passed over.
fn refused_shown(mode: Mode, shown: Option<Shown>) -> Option<Shown>
    ensures refused { IfSome result (λ s. (mode ≡ Strict) × (shown ≡ Some s)) }
    ensures passes { IfNone result (PassesOver mode shown) }
{
    match mode {
        Mode::Strict => shown,
        Mode::Lenient => None,
    }
}

/// The report on a segment with these bytes.
fn report_of(
    alloc: Global,
    segment: Found,
    mode: Mode,
    bytes: Vec<u8>,
) -> Result<SegReport, RecoverFault>
    ensures report { IfOk result (IsReportOf mode segment bytes.items) }
    ensures bad { IfErr result (DiskMemoryOr (IsBadIn mode segment bytes.items)) }
    ensures rose { IfErr result IsNoDisk }
{
    let Found { side, name, len } = segment;
    let log = name.log();
    let out = read_out_shared(alloc, log, bytes)?;
    let batches = match batches_of(alloc, out.records.as_slice()) {
        Ok(batches) => batches,
        Err(DecodeFault::Bad { place, fault }) => {
            return Err(RecoverFault::BadBatch {
                wal: name.wal,
                index: name.index,
                place,
                fault,
            });
        }
        Err(DecodeFault::NoMemory) => return Err(RecoverFault::NoMemory),
    };
    if let Some(shown) = refused_shown(mode, out.shown) {
        return Err(RecoverFault::Corrupt {
            wal: name.wal,
            index: name.index,
            at: shown.at,
            shown_at: shown.shown_at,
        });
    }
    Ok(SegReport {
        side,
        name,
        len,
        ends_at: out.ends_at,
        torn: out.torn,
        batches,
    })
}

/// Reads one segment more: adds its report, and its batches to the row under this index.
fn read_segment<D: Disk>(
    alloc: Global,
    disk: &mut D,
    segment: Found,
    mode: Mode,
    index: u32,
    reports: &mut SegReports,
    row: &mut Segments,
) -> Result<(), RecoverFault>
    ensures goes_on { GoesOn (D.view disk.old) (D.view disk.new) }
    ensures asks { ReadsOnly (segment ∷ []) (D.view disk.old) (D.view disk.new) }
    ensures same { SameDisk (D.view disk.old) (D.view disk.new) }
    ensures rose { IfErr result (FaultRose (D.view disk.old) (D.view disk.new)) }
    ensures calm { OnOk result (NoFaultRose (D.view disk.old) (D.view disk.new)) }
    ensures added { OnOk result (AddsSegment D.tells mode (files (D.view disk.old)) segment index
        reports.old reports.new row.old row.new) }
    ensures bad { IfErr result (IsBadSegment D.tells mode (D.view disk.old) segment) }
{
    let bytes = read_bytes(alloc, disk, segment)?;
    let report = report_of(alloc, segment, mode, bytes)?;
    let batches = counted_of(alloc, report.batches.as_slice())?;
    if reports.push(report).is_err() {
        return Err(RecoverFault::NoMemory);
    }
    if row.push(SegmentRead { index, batches }).is_err() {
        return Err(RecoverFault::NoMemory);
    }
    Ok(())
}

/// Reads the segments of one WAL. In the row each has its own index.
fn read_wal<D: Disk>(
    alloc: Global,
    disk: &mut D,
    wal: &FoundWal,
    mode: Mode,
    reports: &mut SegReports,
) -> Result<Segments, RecoverFault>
    requires { IsWalByIndex (D.view disk.old) wal.now }
    ensures goes_on { GoesOn (D.view disk.old) (D.view disk.new) }
    ensures asks { ReadsOnly wal.now.segments.items (D.view disk.old) (D.view disk.new) }
    ensures same { SameDisk (D.view disk.old) (D.view disk.new) }
    ensures rose { IfErr result (FaultRose (D.view disk.old) (D.view disk.new)) }
    ensures calm { OnOk result (NoFaultRose (D.view disk.old) (D.view disk.new)) }
    ensures row { IfOk result IsRow }
    ensures gathered { IfOk result
        (IsRowOfWal D.tells mode (D.view disk.old) wal.now reports.old reports.new) }
    ensures bad { IfErr result (IsBadWal D.tells mode (D.view disk.old) wal.now) }
{
    let mut row = Segments::new(alloc);
    for segment in &wal.segments {
        read_segment(
            alloc,
            disk,
            *segment,
            mode,
            segment.name.index,
            reports,
            &mut row,
        )?;
    }
    Ok(row)
}

/// The refusal of a segment of this WAL.
fn refusal(wal: u64, fault: MergeFault) -> RecoverFault
    ensures { result ≡ named_in_wal wal fault }
{
    match fault {
        MergeFault::Gap {
            index,
            expected,
            found,
        } => RecoverFault::Gap {
            wal,
            index,
            expected,
            found,
        },
        MergeFault::Conflict { index, first } => RecoverFault::Conflict { wal, index, first },
        MergeFault::NoMemory => RecoverFault::NoMemory,
    }
}

/// Reads one WAL and merges it from this number on.
fn merge_wal<D: Disk>(
    alloc: Global,
    disk: &mut D,
    next: u64,
    wal: &FoundWal,
    reports: &mut SegReports,
) -> Result<Batches, RecoverFault>
    requires order { IsWalByIndex (D.view disk.old) wal.now }
    requires own { IsOwnWal wal.now }
    ensures goes_on { GoesOn (D.view disk.old) (D.view disk.new) }
    ensures asks { ReadsOnly wal.now.segments.items (D.view disk.old) (D.view disk.new) }
    ensures same { SameDisk (D.view disk.old) (D.view disk.new) }
    ensures rose { IfErr result (FaultRose (D.view disk.old) (D.view disk.new)) }
    ensures calm { OnOk result (NoFaultRose (D.view disk.old) (D.view disk.new)) }
    ensures numbered { IfOk result (All IsNumbered) }
    ensures contiguous { IfOk result (IsContiguous next) }
    ensures limits { IfOk result AreWithinLimits }
    ensures merged { IfOk result (MergesWal D.tells (D.view disk.old) wal.now next) }
    ensures reports { OnOk result (ReportsOnWal D.tells (D.view disk.old) wal.now reports.old
        reports.new) }
    ensures refused { IfErr result (IsWalRefused D.tells (D.view disk.old) wal.now next) }
{
    let row = read_wal(alloc, disk, wal, Mode::Strict, reports)?;
    match merge(alloc, next, row) {
        Ok(own) => Ok(own),
        Err(fault) => Err(refusal(wal.number, fault)),
    }
}

/// Adds batches after others, and moves them there: all at once where there are no others.
pub(crate) fn append(batches: &mut Batches, more: Batches) -> Result<(), RecoverFault>
    ensures added { OnOk result (batches.new ≡ batches.old ++ more) }
    ensures memory { IfErr result (λ fault. fault ≡ RecoverFault.NoMemory) }
{
    if batches.is_empty() {
        *batches = more;
        return Ok(());
    }
    for batch in more.into_vec() {
        if batches.push(batch).is_err() {
            return Err(RecoverFault::NoMemory);
        }
    }
    Ok(())
}

/// The number after the last of the batches, or this one where there is none.
fn next_after(from: u64, batches: &[Batch]) -> u64
    requires { All IsNumbered batches.now }
    ensures { result ≡ end_after from batches.now }
{
    match batches.last() {
        Some(last) => last.end(),
        None => from,
    }
}

/// What was merged, and the number that comes next.
#[derive(Drop)]
pub(crate) struct Merged {
    pub(crate) batches: Batches,
    pub(crate) next: u64,
}

/// Merges WAL by WAL, the first from this number on and each other from the end of those before it.
pub(crate) fn merge_strict<D: Disk>(
    alloc: Global,
    disk: &mut D,
    wals: &FoundWals,
    first: u64,
    reports: &mut SegReports,
) -> Result<Merged, RecoverFault>
    requires number { first ≤ NUMBER_MAX }
    requires order { AreByNumber 0 (wals_in (files (D.view disk.old)) wals.now) }
    requires own { All IsOwnWal wals.now }
    requires none { reports.old ≡ [] }
    ensures goes_on { GoesOn (D.view disk.old) (D.view disk.new) }
    ensures asks { ReadsOnly (found_in wals.now) (D.view disk.old) (D.view disk.new) }
    ensures same { SameDisk (D.view disk.old) (D.view disk.new) }
    ensures rose { IfErr result (FaultRose (D.view disk.old) (D.view disk.new)) }
    ensures calm { OnOk result (NoFaultRose (D.view disk.old) (D.view disk.new)) }
    ensures contiguous { IfOk result (λ merged. IsContiguous first merged.batches) }
    ensures limits { IfOk result (λ merged. AreWithinLimits merged.batches) }
    ensures next { IfOk result (λ merged. merged.next ≡ end_after first merged.batches) }
    ensures within { IfOk result (λ merged. merged.next ≤ NUMBER_MAX) }
    ensures merged { IfOk result (MergesWals D.tells (D.view disk.old) wals.now first) }
    ensures reports { OnOk result (ReportsOnWals D.tells (D.view disk.old) wals.now reports.new) }
    ensures refused { IfErr result
        (AreWalsRefused D.tells Strict first [] (D.view disk.old) wals.now) }
{
    let mut batches = Batches::new(alloc);
    let mut next = first;
    for wal in wals.as_slice() {
        let own = merge_wal(alloc, disk, next, wal, reports)?;
        next = next_after(next, own.as_slice());
        append(&mut batches, own)?;
    }
    Ok(Merged { batches, next })
}

/// Reads one WAL and goes on with the merge of those before it.
fn add_wal<D: Disk>(
    alloc: Global,
    disk: &mut D,
    so_far: LenientMerge,
    wal: &FoundWal,
    reports: &mut SegReports,
) -> Result<LenientMerge, RecoverFault>
    requires order { IsWalByIndex (D.view disk.old) wal.now }
    requires own { IsOwnWal wal.now }
    ensures goes_on { GoesOn (D.view disk.old) (D.view disk.new) }
    ensures asks { ReadsOnly wal.now.segments.items (D.view disk.old) (D.view disk.new) }
    ensures same { SameDisk (D.view disk.old) (D.view disk.new) }
    ensures rose { IfErr result (FaultRose (D.view disk.old) (D.view disk.new)) }
    ensures calm { OnOk result (NoFaultRose (D.view disk.old) (D.view disk.new)) }
    ensures merged { MergesReports reports.old reports.new so_far result }
    ensures reports { OnOk result (ReportsOnWal D.tells (D.view disk.old) wal.now reports.old
        reports.new) }
    ensures refused { RefusesWalLeniently D.tells (D.view disk.old) wal.now so_far result }
{
    let row = read_wal(alloc, disk, wal, Mode::Lenient, reports)?;
    match so_far.add(row) {
        Ok(more) => Ok(more),
        Err(fault) => Err(refusal(wal.number, fault)),
    }
}

/// A merge with gaps that has merged these batches.
fn merge_onto(alloc: Global, base: Batches, number: u64) -> Result<LenientMerge, RecoverFault>
    requires number { number ≤ NUMBER_MAX }
    requires base { IsBaseOf number base }
    ensures merged { IfOk result (λ merge. merge ≡ base) }
    ensures memory { IfErr result (λ fault. fault ≡ RecoverFault.NoMemory) }
{
    let mut row = Segments::new(alloc);
    if row
        .push(SegmentRead {
            index: 0,
            batches: base,
        })
        .is_err()
    {
        return Err(RecoverFault::NoMemory);
    }
    match LenientMerge::new(alloc).add(row) {
        Ok(merge) => Ok(merge),
        Err(MergeFault::NoMemory) => Err(RecoverFault::NoMemory),
        // Batches that are numbered one after another are accepted.
        Err(MergeFault::Gap { .. }) => unreachable!(),
        Err(MergeFault::Conflict { .. }) => unreachable!(),
    }
}

/// Merges all WALs with gaps, as one row that begins with a base, which ends before this number. Each is read only
/// once those before it are merged. Where there is no batch at all this number comes next.
pub(crate) fn merge_all<D: Disk>(
    alloc: Global,
    disk: &mut D,
    wals: &FoundWals,
    first: u64,
    base: Batches,
    reports: &mut SegReports,
) -> Result<Merged, RecoverFault>
    requires number { first ≤ NUMBER_MAX }
    requires base { IsBaseOf first base }
    requires order { AreByNumber 0 (wals_in (files (D.view disk.old)) wals.now) }
    requires own { All IsOwnWal wals.now }
    requires none { reports.old ≡ [] }
    ensures goes_on { GoesOn (D.view disk.old) (D.view disk.new) }
    ensures asks { ReadsOnly (found_in wals.now) (D.view disk.old) (D.view disk.new) }
    ensures same { SameDisk (D.view disk.old) (D.view disk.new) }
    ensures rose { IfErr result (FaultRose (D.view disk.old) (D.view disk.new)) }
    ensures calm { OnOk result (NoFaultRose (D.view disk.old) (D.view disk.new)) }
    ensures next { IfOk result (λ merged. merged.next ≡ end_after first merged.batches) }
    ensures within { IfOk result (λ merged. merged.next ≤ NUMBER_MAX) }
    ensures begins { IfOk result (λ merged. BeginsWith base merged.batches) }
    ensures merged { IfOk result (MergesWalsLeniently D.tells base (D.view disk.old) wals.now) }
    ensures reports { OnOk result (ReportsOnWals D.tells (D.view disk.old) wals.now reports.new) }
    ensures refused { IfErr result
        (AreWalsRefused D.tells Lenient first base (D.view disk.old) wals.now) }
{
    let begun = merge_onto(alloc, base, first)?;
    let mut so_far = begun;
    for wal in wals.as_slice() {
        so_far = add_wal(alloc, disk, so_far, wal, reports)?;
    }
    let batches = so_far.into_batches();
    let next = next_after(first, batches.as_slice());
    Ok(Merged { batches, next })
}
