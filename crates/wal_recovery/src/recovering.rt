//! Recovery as a whole.

ghost use Rattle.std.specs.Prelude.{◌≡◌, ◌≤◌, ℕ, [], All, IfOk, IfErr, OnOk, IsTrue};
ghost use Rattle.batch_repr.specs.declared.limits.TheConstants.{NUMBER_FIRST, NUMBER_MAX};
ghost use Rattle.batch_repr.specs.Batches.{end_after};
ghost use Rattle.disk_face.specs.View.{files, NothingInFlight};
ghost use Rattle.disk_face.specs.Listing.{IsSegmentName};
ghost use Rattle.disk_face.specs.Calls.{GoesOn, SameDisk};
ghost use Rattle.wal_recovery.specs.declared.listing.Found.{Found};
ghost use Rattle.wal_recovery.specs.declared.reports.Mode.TheVariants.{Strict, Lenient};
ghost use Rattle.wal_recovery.specs.Base.{IsBaseOf, BeginsWith};
ghost use Rattle.wal_recovery.specs.Answers.{FaultRose, NoFaultRose};
ghost use Rattle.wal_recovery.specs.Rows.{Ascends, IsRowOf, files_from};
ghost use Rattle.wal_recovery.specs.Sides.{AreSideNames, AreSidesOf, ReadsListed};
ghost use Rattle.wal_recovery.specs.Asking.{AsksOnce, ListsInTurn, ReadsOnly};
ghost use Rattle.wal_recovery.specs.Promises.{IsWhatRecoversFrom, FindsWhatRecoversFrom};
ghost use Rattle.wal_recovery.specs.Promises.{IsReasonToRefuseFrom, AnswersRefusalFrom};
ghost use Rattle.wal_recovery.specs.Promises.{IsRowFrom, ReportsOnSegmentsFrom, HasNoGapFrom};
ghost use Rattle.wal_recovery.specs.Promises.{IsWhatRecovers, FindsWhatRecovers};
ghost use Rattle.wal_recovery.specs.Promises.{IsReasonToRefuse, AnswersRefusal};
ghost use Rattle.wal_recovery.specs.Promises.{ReportsOnSegments, HasNextWal, HasNoGap};
ghost use Rattle.wal_recovery.specs.Promises.{OnlySyncsThroughout, AddsNoImageThroughout};
ghost use Rattle.wal_recovery.specs.Promises.{KeepsLimits, IsQuietIfBare};
ghost use Rattle.wal_recovery.specs.Promises.{StabilizesRestedFrom, StabilizesIfStrictFrom};
ghost use Rattle.wal_recovery.specs.Promises.{StabilizesIfStrict, UntouchedIfRefused};

use crate::fault::RecoverFault;
use crate::listing::{Found, Sides, list_sides, next_wal, row_from};
use crate::merging::{append, merge_all, merge_strict};
use crate::reports::{Mode, Recovered, SegReports, Start};
use crate::syncing::sync_all;
use crate::wals::by_wal;
use batch_repr::{Batches, NUMBER_FIRST};
use disk_face::Disk;
use std::alloc::Global;

/// Recovers with no gap, and syncs each segment.
fn recover_strict<D: Disk>(
    alloc: Global,
    disk: &mut D,
    segments: &[Found],
    start: Start,
    next_wal: u64,
) -> Result<Recovered, RecoverFault>
    requires idle { NothingInFlight (D.view disk.old) }
    requires number { start.number ≤ NUMBER_MAX }
    requires base { IsBaseOf start.number start.base }
    requires ascends { Ascends segments.now }
    requires numbers { All (λ (f : Found). IsSegmentName f.name) segments.now }
    requires listed { IsRowFrom start D.tells (D.view disk.old) segments.now }
    ensures goes_on { GoesOn (D.view disk.old) (D.view disk.new) }
    ensures idle { NothingInFlight (D.view disk.new) }
    ensures asks { ReadsOnly segments.now (D.view disk.old) (D.view disk.new) }
    ensures disk { IfErr result (FaultRose (D.view disk.old) (D.view disk.new)) }
    ensures calm { OnOk result (NoFaultRose (D.view disk.old) (D.view disk.new)) }
    ensures recovered { IfOk result (IsWhatRecoversFrom start D.tells Strict (D.view disk.old)) }
    ensures refused { IfErr result (IsReasonToRefuseFrom start D.tells Strict (D.view disk.old)) }
    ensures reports { IfOk result (ReportsOnSegmentsFrom start D.tells (D.view disk.old)) }
    ensures contiguous { IfOk result (HasNoGapFrom start) }
    ensures limits { IfOk result (KeepsLimits start) }
    ensures none { segments.now ≡ [] → SameDisk (D.view disk.old) (D.view disk.new) }
    ensures within { IfOk result (λ found. found.next ≤ NUMBER_MAX) }
    ensures next { IfOk result (λ found. found.next ≡ end_after start.number found.batches) }
    ensures next_wal { IfOk result (λ found. found.next_wal ≡ next_wal) }
    ensures each_moment { OnlySyncsThroughout D.tells (D.view disk.old) (D.view disk.new) }
    ensures untouched { IfErr result (UntouchedIfRefused (D.view disk.old) (D.view disk.new)) }
    ensures stable { OnOk result (StabilizesRestedFrom start D.tells (D.view disk.old)
        (D.view disk.new)) }
{
    let wals = by_wal(alloc, segments)?;
    let mut reports = SegReports::new(alloc);
    let merged = merge_strict(alloc, disk, &wals, start.number, &mut reports)?;
    let mut batches = start.base;
    append(&mut batches, merged.batches)?;
    sync_all(disk, segments)?;
    Ok(Recovered {
        batches,
        next: merged.next,
        next_wal,
        segments: reports,
    })
}

/// Recovers with gaps.
fn recover_lenient<D: Disk>(
    alloc: Global,
    disk: &mut D,
    segments: &[Found],
    start: Start,
    next_wal: u64,
) -> Result<Recovered, RecoverFault>
    requires idle { NothingInFlight (D.view disk.old) }
    requires number { start.number ≤ NUMBER_MAX }
    requires base { IsBaseOf start.number start.base }
    requires ascends { Ascends segments.now }
    requires numbers { All (λ (f : Found). IsSegmentName f.name) segments.now }
    requires listed { IsRowFrom start D.tells (D.view disk.old) segments.now }
    ensures goes_on { GoesOn (D.view disk.old) (D.view disk.new) }
    ensures idle { NothingInFlight (D.view disk.new) }
    ensures asks { ReadsOnly segments.now (D.view disk.old) (D.view disk.new) }
    ensures disk { IfErr result (FaultRose (D.view disk.old) (D.view disk.new)) }
    ensures calm { OnOk result (NoFaultRose (D.view disk.old) (D.view disk.new)) }
    ensures recovered { IfOk result (IsWhatRecoversFrom start D.tells Lenient (D.view disk.old)) }
    ensures refused { IfErr result (IsReasonToRefuseFrom start D.tells Lenient (D.view disk.old)) }
    ensures reports { IfOk result (ReportsOnSegmentsFrom start D.tells (D.view disk.old)) }
    ensures begins { IfOk result (λ found. BeginsWith start.base found.batches) }
    ensures within { IfOk result (λ found. found.next ≤ NUMBER_MAX) }
    ensures next { IfOk result (λ found. found.next ≡ end_after start.number found.batches) }
    ensures next_wal { IfOk result (λ found. found.next_wal ≡ next_wal) }
    ensures same { SameDisk (D.view disk.old) (D.view disk.new) }
{
    let wals = by_wal(alloc, segments)?;
    let mut reports = SegReports::new(alloc);
    let merged = merge_all(alloc, disk, &wals, start.number, start.base, &mut reports)?;
    Ok(Recovered {
        batches: merged.batches,
        next: merged.next,
        next_wal,
        segments: reports,
    })
}

/// Recovers the batches that the segments of the listed sides hold, from a WAL and a number on, behind those of a
/// base, and reports on each segment.
///
/// `DuplicateSegment` is looked for over all names from that WAL on, before any segment is read. Then the WALs are
/// read, decoded and merged in ascending order, each only once those before it are merged, and the first refusal
/// met is the answer. `Strict` merges each WAL from the end of those before it, the first from the end of the base,
/// and syncs every segment before it answers `Ok`. It refuses a segment that a chunk shows corrupt, once all its
/// records are known to be batches, and before its WAL is merged. `Lenient` merges the base and the segments of all
/// WALs as one row, accepts gaps and corrupt segments, and starts no operation. `Disk` is answered at the call that
/// failed, which is not tried again: a second sync may be answered well though bytes are lost. `NoMemory` may come
/// at any time. Nothing is in flight at the end, whatever is answered.
pub fn recover_listed<D: Disk>(
    alloc: Global,
    disk: &mut D,
    mode: Mode,
    sides: &Sides,
    start: Start,
) -> Result<Recovered, RecoverFault>
    requires idle { NothingInFlight (D.view disk.old) }
    requires number { start.number ≤ NUMBER_MAX }
    requires base { IsBaseOf start.number start.base }
    requires names { AreSideNames sides.now }
    requires sides { AreSidesOf D.tells (D.view disk.old) sides.now }
    ensures goes_on { GoesOn (D.view disk.old) (D.view disk.new) }
    ensures idle { NothingInFlight (D.view disk.new) }
    ensures disk { IfErr result (FaultRose (D.view disk.old) (D.view disk.new)) }
    ensures calm { OnOk result (NoFaultRose (D.view disk.old) (D.view disk.new)) }

    // The directories, as they read.
    ensures recovered { IfOk result (IsWhatRecoversFrom start D.tells mode (D.view disk.old)) }
    ensures complete { FindsWhatRecoversFrom start D.tells mode (D.view disk.old) result }
    ensures refused { IfErr result (IsReasonToRefuseFrom start D.tells mode (D.view disk.old)) }
    ensures refusal { AnswersRefusalFrom start D.tells mode (D.view disk.old) result }
    ensures reports { IfOk result (ReportsOnSegmentsFrom start D.tells (D.view disk.old)) }
    ensures next { IfOk result (λ found. found.next ≡ end_after start.number found.batches) }
    ensures next_wal { IfOk result (HasNextWal D.tells (D.view disk.old)) }

    // The base and the numbers, also where the disk does not tell its files.
    ensures begins { IfOk result (λ found. BeginsWith start.base found.batches) }
    ensures contiguous { mode ≡ Strict → IfOk result (HasNoGapFrom start) }
    ensures limits { mode ≡ Strict → IfOk result (KeepsLimits start) }
    ensures within { IfOk result (λ found. found.next ≤ NUMBER_MAX) }

    // The calls, of any disk: of each segment no more bytes are asked for than it is listed with, and none below the start.
    ensures asks { ReadsListed start.wal sides.now (D.view disk.old) (D.view disk.new) }

    // The files: nothing happens to any but a sync, so a crash may leave nothing new; refused directories are not touched, and what was read is stable where no gap is accepted.
    ensures each_moment { AddsNoImageThroughout D.tells (D.view disk.old) (D.view disk.new) }
    ensures files { OnlySyncsThroughout D.tells (D.view disk.old) (D.view disk.new) }
    ensures stable { OnOk result (StabilizesIfStrictFrom start D.tells mode (D.view disk.old)
        (D.view disk.new)) }
    ensures untouched { IfErr result (UntouchedIfRefused (D.view disk.old) (D.view disk.new)) }
    ensures starts_nothing { mode ≡ Lenient → SameDisk (D.view disk.old) (D.view disk.new) }
    ensures quiet { IsQuietIfBare sides.now (D.view disk.old) (D.view disk.new) }
{
    let segments = row_from(alloc, sides, start.wal)?;
    let next_wal = next_wal(sides);
    match mode {
        Mode::Strict => recover_strict(alloc, disk, segments.as_slice(), start, next_wal),
        Mode::Lenient => recover_lenient(alloc, disk, segments.as_slice(), start, next_wal),
    }
}

/// Recovers the batches that the two directories hold, and reports on each segment.
///
/// Each side is listed once, the primary one first. The rest is [`recover_listed`], of all segments, from the first
/// number of all, behind no batch.
pub fn recover<D: Disk>(alloc: Global, disk: &mut D, mode: Mode) -> Result<Recovered, RecoverFault>
    requires { NothingInFlight (D.view disk.old) }
    ensures goes_on { GoesOn (D.view disk.old) (D.view disk.new) }
    ensures idle { NothingInFlight (D.view disk.new) }
    ensures disk { IfErr result (FaultRose (D.view disk.old) (D.view disk.new)) }
    ensures calm { OnOk result (NoFaultRose (D.view disk.old) (D.view disk.new)) }

    // The directories, as they read.
    ensures recovered { IfOk result (IsWhatRecovers D.tells mode (D.view disk.old)) }
    ensures complete { FindsWhatRecovers D.tells mode (D.view disk.old) result }
    ensures refused { IfErr result (IsReasonToRefuse D.tells mode (D.view disk.old)) }
    ensures refusal { AnswersRefusal D.tells mode (D.view disk.old) result }
    ensures reports { IfOk result (ReportsOnSegments D.tells (D.view disk.old)) }
    ensures next { IfOk result (λ found. found.next ≡ end_after NUMBER_FIRST found.batches) }
    ensures next_wal { IfOk result (HasNextWal D.tells (D.view disk.old)) }

    // The numbers, also where the disk does not tell its files.
    ensures contiguous { mode ≡ Strict → IfOk result HasNoGap }
    ensures within { IfOk result (λ found. found.next ≤ NUMBER_MAX) }

    // The calls, of any disk: of each segment no more bytes are asked for than it was listed with.
    ensures asks { AsksOnce (D.view disk.old) (D.view disk.new) }
    ensures lists { OnOk result (ListsInTurn (D.view disk.old) (D.view disk.new)) }

    // The files: nothing happens to any but a sync, so a crash may leave nothing new; refused directories are not touched, and what was read is stable where no gap is accepted.
    ensures each_moment { AddsNoImageThroughout D.tells (D.view disk.old) (D.view disk.new) }
    ensures files { OnlySyncsThroughout D.tells (D.view disk.old) (D.view disk.new) }
    ensures stable { OnOk result (StabilizesIfStrict D.tells mode (D.view disk.old)
        (D.view disk.new)) }
    ensures untouched { IfErr result (UntouchedIfRefused (D.view disk.old) (D.view disk.new)) }
    ensures starts_nothing { mode ≡ Lenient → SameDisk (D.view disk.old) (D.view disk.new) }
{
    let sides = list_sides(disk)?;
    let all = Start {
        wal: 0,
        number: NUMBER_FIRST,
        base: Batches::new(alloc),
    };
    recover_listed(alloc, disk, mode, &sides, all)
}
