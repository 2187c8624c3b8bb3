ghost use Rattle.std.specs.Prelude.{◌≤◌};
ghost use Rattle.batch_repr.specs.declared.limits.TheConstants.{NUMBER_MAX};
ghost use Rattle.disk_face.specs.View.{NothingInFlight};
ghost use Rattle.wal_recovery.specs.Base.{IsBaseOf};

use crate::{Mode, RecoverFault, Recovered, Start, list_sides, recover, recover_listed};
use batch_repr::{BatchFault, Batches, NUMBER_MAX};
use crc_chunk::{BLOCK, ChunkKind, put_chunk, put_sync_chunk};
use disk_face::{Disk, SegName, Side};
use mem_disk::MemDisk;
use std::alloc::Global;
use std::marker::Model;
use std::process::Abort;
use wal_base::{Buf, Entry};

/// A segment of a WAL, with batches by their first numbers. Each sets `a` to one digit.
#[derive(Clone, Copy)]
pub(crate) struct Segment<'a> {
    pub(crate) side: Side,
    pub(crate) wal: u64,
    pub(crate) index: u32,
    pub(crate) batches: &'a [(u8, u8)],
}

pub(crate) fn primary<'a>(wal: u64, index: u32, batches: &'a [(u8, u8)]) -> Segment<'a> {
    Segment {
        side: Side::Primary,
        wal,
        index,
        batches,
    }
}

pub(crate) fn secondary<'a>(wal: u64, index: u32, batches: &'a [(u8, u8)]) -> Segment<'a> {
    Segment {
        side: Side::Secondary,
        wal,
        index,
        batches,
    }
}

/// In place of a digit: the record ends within its batch, in the entry at 12.
pub(crate) const CUT: u8 = 10;

/// In place of a digit, and last: the bytes up to the second block are lost, which a sync had covered before it began.
pub(crate) const LOST: u8 = 11;

/// The record of a batch.
fn record_of(first: u8, digit: u8) -> [u8; 17] {
    let mut record = *b"\x0a\0\0\0\0\0\0\0\x01\0\0\0\x01\x01a\x010";
    record[0] = first;
    if digit == CUT {
        record[15] = 2;
    } else {
        record[16] = b'0'.wrapping_add(digit);
    }
    record
}

/// Adds the chunk of a record.
fn append(rt: &impl Abort, bytes: &mut Buf, log: u32, record: &[u8; 17]) {
    let mut chunk = [0u8; 28];
    put_chunk(&mut chunk, ChunkKind::Full, log, record);
    bytes.append(&chunk).expect(rt, "memory");
}

/// Adds the sync chunk of a record.
fn append_sync(rt: &impl Abort, bytes: &mut Buf, log: u32, offset: u64, record: &[u8; 17]) {
    let mut chunk = [0u8; 36];
    put_sync_chunk(&mut chunk, ChunkKind::Full, log, offset, record);
    bytes.append(&chunk).expect(rt, "memory");
}

/// Adds zeros up to the second block.
fn lose_rest(rt: &impl Abort, bytes: &mut Buf) {
    let zeros = [0u8; BLOCK];
    if let Some(rest) = zeros.get(bytes.as_slice().len()..) {
        bytes.append(rest).expect(rt, "memory");
    }
}

/// The bytes of a segment.
fn bytes_of(rt: &impl Abort, alloc: Global, log: u32, batches: &[(u8, u8)]) -> Buf {
    let mut bytes = Buf::new(alloc).expect(rt, "memory");
    for (first, digit) in batches {
        if *digit == LOST {
            lose_rest(rt, &mut bytes);
            append_sync(rt, &mut bytes, log, 32_768, &record_of(*first, 0));
        } else {
            append(rt, &mut bytes, log, &record_of(*first, *digit));
        }
    }
    bytes
}

/// A disk on which nothing is in flight.
#[derive(Drop)]
pub(crate) struct Rig {
    disk: MemDisk,
}

impl Model for Rig {
    ghost use Rattle.disk_face.specs.View.{NothingInFlight};
    ghost use Rattle.mem_disk.specs.declared.memory.MemDisk.{MemDisk};

    ghost Value = { MemDisk };

    ghost view = { λ rig. rig.disk };

    ghost invariant = { λ rig. NothingInFlight (⟦<MemDisk as Disk>⟧.view rig.disk) };
}

impl Rig {
    fn new(rt: &impl Abort, alloc: Global) -> Rig {
        let disk = MemDisk::new(alloc).expect(rt, "memory");
        Rig { disk }
    }

    /// A disk with these segments.
    pub(crate) fn of(rt: &impl Abort, alloc: Global, segments: &[Segment<'_>]) -> Rig {
        let mut rig = Rig::new(rt, alloc);
        for segment in segments {
            let name = SegName {
                wal: segment.wal,
                index: segment.index,
            };
            let log = name.log();
            let bytes = bytes_of(rt, alloc, log, segment.batches);
            rig.put(rt, segment.side, name, bytes.as_slice());
        }
        rig
    }

    /// Puts a file.
    fn put(&mut self, rt: &impl Abort, side: Side, name: SegName, bytes: &[u8]) {
        assert!(rt; self.disk.sent(side, name).is_none());
        self.disk.put_file(side, name, bytes).expect(rt, "memory");
    }

    fn fail_call(&mut self, rt: &impl Abort, number: u64) {
        self.disk.fail_call(number).expect(rt, "memory");
    }

    fn fail_op(&mut self, rt: &impl Abort, number: u64) {
        self.disk.fail_op(number).expect(rt, "memory");
    }

    pub(crate) fn recover(&mut self, alloc: Global, mode: Mode) -> Result<Recovered, RecoverFault> {
        recover(alloc, &mut self.disk, mode)
    }

    /// Recovers without gaps from a WAL and a number on, with no batch before it.
    fn recover_from(
        &mut self,
        alloc: Global,
        wal: u64,
        number: u64,
    ) -> Result<Recovered, RecoverFault>
        requires { number ≤ NUMBER_MAX }
    {
        let base = Batches::new(alloc);
        recover_start(
            alloc,
            &mut self.disk,
            Mode::Strict,
            Start { wal, number, base },
        )
    }

    /// Recovers the segments from a WAL on, where the batches of another disk stand before.
    pub(crate) fn recover_onto(
        &mut self,
        alloc: Global,
        mode: Mode,
        before: &mut Rig,
        wal: u64,
    ) -> Result<Recovered, RecoverFault> {
        let found = recover(alloc, &mut before.disk, Mode::Strict)?;
        let start = Start {
            wal,
            number: found.next,
            base: found.batches,
        };
        recover_start(alloc, &mut self.disk, mode, start)
    }
}

/// Lists the sides, and recovers from there on.
fn recover_start<D: Disk>(
    alloc: Global,
    disk: &mut D,
    mode: Mode,
    start: Start,
) -> Result<Recovered, RecoverFault>
    requires idle { NothingInFlight (D.view disk.old) }
    requires number { start.number ≤ NUMBER_MAX }
    requires base { IsBaseOf start.number start.base }
    ensures { NothingInFlight (D.view disk.new) }
{
    let sides = list_sides(disk)?;
    recover_listed(alloc, disk, mode, &sides, start)
}

/// The digit of the batch at a place.
fn digit_at(batches: &Batches, at: usize) -> Option<u8> {
    let batch = batches.get(at)?;
    match batch.entries.get(0)? {
        Entry::Set { value, .. } => value.as_slice().first().copied(),
        _ => None,
    }
}

/// What a report says of a segment.
#[derive(Clone, Copy, PartialEq, Eq)]
struct Told {
    side: Side,
    name: SegName,
    len: u64,
    ends_at: u64,
    torn: bool,
    /// How many batches it has.
    batches: usize,
}

/// What the report at a place says.
fn told_at(found: &Result<Recovered, RecoverFault>, at: usize) -> Option<Told> {
    let Ok(found) = found else {
        return None;
    };
    let report = found.segments.get(at)?;
    Some(Told {
        side: report.side,
        name: report.name,
        len: report.len,
        ends_at: report.ends_at,
        torn: report.torn,
        batches: report.batches.len(),
    })
}

/// What a recovery gave: how many batches, the last digit, and the numbers that come next.
pub(crate) type Summary = Result<(usize, Option<u8>, u64, u64), RecoverFault>;

pub(crate) fn summary(found: Result<Recovered, RecoverFault>) -> Summary {
    let found = found?;
    let len = found.batches.len();
    let last = digit_at(&found.batches, len.saturating_sub(1));
    Ok((len, last, found.next, found.next_wal))
}

/// The disk recovers to this.
pub(crate) fn gives(rt: &impl Abort, alloc: Global, rig: &mut Rig, mode: Mode, wanted: &Summary) {
    let found = summary(rig.recover(alloc, mode));
    assert!(rt; found == *wanted);
}

/// The directories with these segments recover to this, strictly and leniently.
pub(crate) fn see(
    rt: &impl Abort,
    alloc: Global,
    segments: &[Segment<'_>],
    strict: Summary,
    lenient: Summary,
) {
    let mut rig = Rig::of(rt, alloc, segments);
    gives(rt, alloc, &mut rig, Mode::Strict, &strict);
    gives(rt, alloc, &mut rig, Mode::Lenient, &lenient);
}

/// The disk recovers to this, and says this of the segment at a place.
fn tells(
    rt: &impl Abort,
    alloc: Global,
    rig: &mut Rig,
    mode: Mode,
    at: usize,
    told: Told,
    wanted: &Summary,
) {
    let found = rig.recover(alloc, mode);
    let is_told = told_at(&found, at) == Some(told);
    assert!(rt; is_told && summary(found) == *wanted);
}

const FIRST: SegName = SegName { wal: 1, index: 0 };

const SECOND: SegName = SegName { wal: 1, index: 1 };

#[test]
fn overlapping_segments_are_merged(rt: HostRuntime) {
    let segments = [
        primary(1, 0, &[(10, 1), (11, 2), (12, 3)]),
        secondary(1, 1, &[(11, 2), (12, 3), (13, 4), (14, 5)]),
    ];
    let all = Ok((5, Some(b'5'), 15, 2));
    see(&rt, rt.alloc(), &segments, all, all);
}

/// A disk with three batches in the first segment, cut to a length with zeros behind it, and three in the second one.
fn cut_to(rt: &impl Abort, alloc: Global, len: usize, zeros: &[u8]) -> Rig {
    let mut rig = Rig::of(rt, alloc, &[secondary(1, 1, &[(11, 2), (12, 3), (13, 4)])]);
    let mut bytes = bytes_of(rt, alloc, 1, &[(10, 1), (11, 2), (12, 3)]);
    bytes.truncate(len);
    bytes.append(zeros).expect(rt, "memory");
    rig.put(rt, Side::Primary, FIRST, bytes.as_slice());
    rig
}

/// The segment ends at 56 in both, and all batches are found.
fn check_cut(rt: &impl Abort, alloc: Global, len: usize, zeros: &[u8], torn: bool) {
    let mut rig = cut_to(rt, alloc, len, zeros);
    let told = Told {
        side: Side::Primary,
        name: FIRST,
        len: (len as u64).wrapping_add(zeros.len() as u64),
        ends_at: 56,
        torn,
        batches: 2,
    };
    let all = Ok((4, Some(b'4'), 14, 2));
    tells(rt, alloc, &mut rig, Mode::Strict, 0, told, &all);
}

#[test]
fn a_torn_segment_is_passed(rt: HostRuntime) {
    check_cut(&rt, rt.alloc(), 56, &[0; 28], false);
    check_cut(&rt, rt.alloc(), 70, &[], true);
}

/// A disk with a segment of two batches, of which the second one has another log.
fn of_two_logs(rt: &impl Abort, alloc: Global) -> Rig {
    let mut rig = Rig::new(rt, alloc);
    let mut bytes = bytes_of(rt, alloc, 1, &[(10, 1)]);
    append(rt, &mut bytes, 7, &record_of(11, 9));
    rig.put(rt, Side::Primary, FIRST, bytes.as_slice());
    rig
}

#[test]
fn another_log_ends_a_segment(rt: HostRuntime) {
    let mut rig = of_two_logs(&rt, rt.alloc());
    let told = Told {
        side: Side::Primary,
        name: FIRST,
        len: 56,
        ends_at: 28,
        torn: true,
        batches: 1,
    };
    let first = Ok((1, Some(b'1'), 11, 2));
    tells(&rt, rt.alloc(), &mut rig, Mode::Lenient, 0, told, &first);
}

/// A disk with a segment of two batches and this record between them.
fn with_between(rt: &impl Abort, alloc: Global, record: &[u8; 17]) -> Rig {
    let mut rig = Rig::new(rt, alloc);
    let mut bytes = bytes_of(rt, alloc, 1, &[(10, 1)]);
    append(rt, &mut bytes, 1, record);
    append(rt, &mut bytes, 1, &record_of(11, 2));
    rig.put(rt, Side::Secondary, SECOND, bytes.as_slice());
    rig
}

#[test]
fn a_batch_without_a_number_is_only_reported(rt: HostRuntime) {
    let mut note = record_of(10, 0);
    note[8] = 0;
    note[12] = 3;
    note[13] = 3;
    let mut rig = with_between(&rt, rt.alloc(), &note);
    let told = Told {
        side: Side::Secondary,
        name: SECOND,
        len: 84,
        ends_at: 84,
        torn: false,
        batches: 3,
    };
    let both = Ok((2, Some(b'2'), 12, 2));
    tells(&rt, rt.alloc(), &mut rig, Mode::Strict, 0, told, &both);
    tells(&rt, rt.alloc(), &mut rig, Mode::Lenient, 0, told, &both);
}

#[test]
fn a_record_that_is_no_batch_is_refused(rt: HostRuntime) {
    let mut record = record_of(11, 2);
    record[12] = 2;
    let mut rig = with_between(&rt, rt.alloc(), &record);
    let bad = Err(RecoverFault::BadBatch {
        wal: 1,
        index: 1,
        place: 28,
        fault: BatchFault::UnknownKind { at: 12, kind: 2 },
    });
    gives(&rt, rt.alloc(), &mut rig, Mode::Strict, &bad);
    gives(&rt, rt.alloc(), &mut rig, Mode::Lenient, &bad);
}

/// A disk with a segment of two old chunks and two sync chunks. The last one has this offset, and what is lost, if
/// anything, is the rest of the block before it.
fn of_both_forms(rt: &impl Abort, alloc: Global, is_lost: bool, offset: u64) -> Rig {
    let mut rig = Rig::new(rt, alloc);
    let mut bytes = bytes_of(rt, alloc, 1, &[(10, 1), (11, 2)]);
    append_sync(rt, &mut bytes, 1, 56, &record_of(12, 3));
    if is_lost {
        lose_rest(rt, &mut bytes);
    }
    append_sync(rt, &mut bytes, 1, offset, &record_of(13, 4));
    rig.put(rt, Side::Primary, FIRST, bytes.as_slice());
    rig
}

/// What is told of the segment of both forms.
const fn of_first(len: u64, ends_at: u64, torn: bool, batches: usize) -> Told {
    Told {
        side: Side::Primary,
        name: FIRST,
        len,
        ends_at,
        torn,
        batches,
    }
}

#[test]
fn old_chunks_and_sync_chunks_make_one_segment(rt: HostRuntime) {
    let mut rig = of_both_forms(&rt, rt.alloc(), false, 56);
    let whole = of_first(128, 128, false, 4);
    let all = Ok((4, Some(b'4'), 14, 2));
    tells(&rt, rt.alloc(), &mut rig, Mode::Strict, 0, whole, &all);
    tells(&rt, rt.alloc(), &mut rig, Mode::Lenient, 0, whole, &all);
}

/// What is lost at 92 was synced only if the offset is above 92.
#[test]
fn lost_bytes_that_were_synced_are_refused(rt: HostRuntime) {
    let read = of_first(32_804, 92, true, 3);
    let three = Ok((3, Some(b'3'), 13, 2));
    let mut torn = of_both_forms(&rt, rt.alloc(), true, 92);
    tells(&rt, rt.alloc(), &mut torn, Mode::Strict, 0, read, &three);
    let mut lost = of_both_forms(&rt, rt.alloc(), true, 93);
    tells(&rt, rt.alloc(), &mut lost, Mode::Lenient, 0, read, &three);
    let corrupt = Err(RecoverFault::Corrupt {
        wal: 1,
        index: 0,
        at: 92,
        shown_at: 32_768,
    });
    gives(&rt, rt.alloc(), &mut lost, Mode::Strict, &corrupt);
}

#[test]
fn a_wal_goes_on_from_the_one_before_it(rt: HostRuntime) {
    // WAL 3 has an empty segment, and none of index 1.
    let segments = [
        primary(7, 0, &[(12, 3)]),
        secondary(3, 3, &[(11, 2)]),
        secondary(3, 2, &[]),
        primary(3, 0, &[(10, 1)]),
    ];
    let mut rig = Rig::of(&rt, rt.alloc(), &segments);
    let told = Told {
        side: Side::Secondary,
        name: SegName { wal: 3, index: 2 },
        len: 0,
        ends_at: 0,
        torn: false,
        batches: 0,
    };
    let all = Ok((3, Some(b'3'), 13, 8));
    tells(&rt, rt.alloc(), &mut rig, Mode::Strict, 1, told, &all);
}

#[test]
fn the_greatest_wal_is_read(rt: HostRuntime) {
    // The log number of 999,999,999,999, which is 232 * 2^32 + 3,567,587,327.
    let bytes = bytes_of(&rt, rt.alloc(), 3_567_587_327, &[(10, 1)]);
    let name = SegName {
        wal: 999_999_999_999,
        index: 999,
    };
    let mut rig = Rig::new(&rt, rt.alloc());
    rig.put(&rt, Side::Primary, name, bytes.as_slice());
    let found = Ok((1, Some(b'1'), 11, 1_000_000_000_000));
    gives(&rt, rt.alloc(), &mut rig, Mode::Strict, &found);
}

#[test]
fn empty_directories_recover_to_nothing(rt: HostRuntime) {
    let nothing = Ok((0, None, 10, 1));
    see(&rt, rt.alloc(), &[], nothing, nothing);
}

/// A disk with a segment of one batch on each side.
fn two_sides(rt: &impl Abort, alloc: Global) -> Rig {
    let segments = [primary(1, 0, &[(10, 1)]), secondary(1, 1, &[(11, 2)])];
    Rig::of(rt, alloc, &segments)
}

/// The call of this number fails, in both modes.
fn check_call(rt: &impl Abort, alloc: Global, call: u64, side: Side) {
    for mode in [Mode::Strict, Mode::Lenient] {
        let mut rig = two_sides(rt, alloc);
        rig.fail_call(rt, call);
        gives(rt, alloc, &mut rig, mode, &Err(RecoverFault::Disk { side }));
    }
}

#[test]
fn a_failing_call_names_its_side(rt: HostRuntime) {
    // Two listings, and then a read of each segment.
    check_call(&rt, rt.alloc(), 0, Side::Primary);
    check_call(&rt, rt.alloc(), 1, Side::Secondary);
    check_call(&rt, rt.alloc(), 2, Side::Primary);
    check_call(&rt, rt.alloc(), 3, Side::Secondary);
}

/// The operation of this number fails. Where gaps are accepted none is started.
fn check_sync(rt: &impl Abort, alloc: Global, number: u64, side: Side) {
    let mut rig = two_sides(rt, alloc);
    rig.fail_op(rt, number);
    let both = Ok((2, Some(b'2'), 12, 2));
    gives(rt, alloc, &mut rig, Mode::Lenient, &both);
    gives(
        rt,
        alloc,
        &mut rig,
        Mode::Strict,
        &Err(RecoverFault::Disk { side }),
    );
}

#[test]
fn a_failing_sync_names_its_side(rt: HostRuntime) {
    check_sync(&rt, rt.alloc(), 0, Side::Primary);
    check_sync(&rt, rt.alloc(), 1, Side::Secondary);
}

#[test]
fn recovery_begins_at_a_wal_and_a_number(rt: HostRuntime) {
    let alloc = rt.alloc();
    // WAL 1 stands on both sides and is cut short, and WAL 2 begins at 12.
    let segments = [
        primary(1, 0, &[(10, CUT)]),
        secondary(1, 0, &[(10, CUT)]),
        primary(2, 0, &[(12, 2)]),
        secondary(2, 1, &[(13, 3)]),
    ];
    let mut rig = Rig::of(&rt, alloc, &segments);
    let found = summary(rig.recover_from(alloc, 2, 12));
    assert!(rt; found == Ok((2, Some(b'3'), 14, 3)));
    let gap = summary(rig.recover_from(alloc, 2, 11));
    assert!(rt;
        gap == Err(RecoverFault::Gap {
            wal: 2,
            index: 0,
            expected: 11,
            found: 12
        })
    );
    let none = summary(rig.recover_from(alloc, 3, 14));
    assert!(rt; none == Ok((0, None, 14, 3)));
    let all = summary(rig.recover(alloc, Mode::Strict));
    assert!(rt; all == Err(RecoverFault::DuplicateSegment { wal: 1, index: 0 }));
}
