ghost use Rattle.std.specs.Prelude.{◌≤◌, IsTrue};
ghost use Rattle.disk_face.specs.View.{NothingInFlight};
ghost use Rattle.failover_writer.specs.Ranges.{AreUnsent};

mod stops;

use crate::{DeadMark, Journal, JournalFault, Step, a_journal_at_hand};
use batch_repr::{BATCHES_MAX, NUMBER_MAX, Numbered};
use disk_face::{Disk, ScriptDisk, SegName, Side};
use mem_disk::MemDisk;
use record_queue::RecordNode;
use std::alloc::Global;
use std::process::Abort;
use test_rigs::{Fresh, numbered_set};
use wal_base::NoMemory;

const WAL: u64 = 1;

const BASE: u64 = 10;

/// The segment of this index.
fn segment_at(index: u32) -> SegName {
    SegName { wal: WAL, index }
}

fn side_of(index: u32) -> Side {
    if index % 2 == 0 {
        Side::Primary
    } else {
        Side::Secondary
    }
}

/// The batch with this first number that sets `a` to a digit, if there is memory for it.
fn batch_short(alloc: Global, first: u64, digit: u8) -> Result<Numbered, NoMemory> {
    if first >= NUMBER_MAX {
        return Err(NoMemory);
    }
    numbered_set(alloc, first, b"a", &[digit])
}

/// The same where there is memory.
fn batch_of(rt: &impl Abort, alloc: Global, first: u64, digit: u8) -> Numbered {
    batch_short(alloc, first, digit).expect(rt, "memory")
}

/// A disk on which nothing stands, and nothing is in flight.
fn fresh(rt: &impl Abort, alloc: Global) -> Fresh {
    Fresh::new(alloc).expect(rt, "memory")
}

/// A disk on which each of the first ten syncs is to fail.
fn unsyncing(rt: &impl Abort, alloc: Global) -> Fresh {
    let mut fresh = fresh(rt, alloc);
    for index in 0..10 {
        fresh.fail_op(2 + 3 * index).expect(rt, "memory");
    }
    fresh
}

/// A journal of no record over a disk, which begins with this number.
fn journal_from(
    rt: &impl Abort,
    alloc: Global,
    fresh: Fresh,
    base: u64,
    threshold: u32,
) -> Journal<MemDisk> {
    if threshold == 0 || threshold > 1_000 {
        panic!(rt; "a threshold");
    }
    let disk = fresh.into_disk();
    match Journal::start(alloc, disk, WAL, base, threshold) {
        Ok(journal) => journal,
        Err(_) => panic!(rt; "memory"),
    }
}

/// A journal of no record over a disk, if there is memory for it.
fn journal_short(alloc: Global, fresh: Fresh) -> Option<Journal<MemDisk>> {
    let disk = fresh.into_disk();
    Journal::start(alloc, disk, WAL, BASE, 3).ok()
}

/// A journal of no record over a script disk over a disk.
fn scripted<D: Disk>(
    rt: &impl Abort,
    alloc: Global,
    disk: D,
    threshold: u32,
) -> Journal<ScriptDisk<D>>
    requires idle { NothingInFlight (D.view disk) }
    requires absent { IsTrue D.tells → AreUnsent 1 0 (D.view disk) }
    requires threshold { (1 ≤ threshold) × (threshold ≤ 1000) }
{
    match Journal::start(alloc, ScriptDisk::new(disk), WAL, BASE, threshold) {
        Ok(journal) => journal,
        Err(_) => panic!(rt; "memory"),
    }
}

/// The same over an empty disk in memory, which leaves a segment at the first pending poll.
fn scripted_fresh(rt: &impl Abort, alloc: Global) -> Journal<ScriptDisk<MemDisk>> {
    let disk = fresh(rt, alloc).into_disk();
    scripted(rt, alloc, disk, 1)
}

/// A journal of no record over an empty disk.
fn journal_of(rt: &impl Abort, alloc: Global, threshold: u32) -> Journal<MemDisk> {
    journal_from(rt, alloc, fresh(rt, alloc), BASE, threshold)
}

/// Pushes the next batch, of one Set.
fn push(rt: &impl Abort, alloc: Global, journal: &mut Journal<MemDisk>, digit: u8, sync: bool) {
    let batch = batch_of(rt, alloc, journal.next(), digit);
    journal.reserve().expect(rt, "memory");
    if journal.dead().is_some() || batch.first() != journal.next() {
        panic!(rt; "a journal that lives");
    }
    journal.push(batch, sync);
}

/// Hands a batch over in a node, which counts it.
fn link(
    rt: &impl Abort,
    journal: &mut Journal<MemDisk>,
    mut node: RecordNode,
    batch: Numbered,
    sync: bool,
) {
    if node.filled().is_some() || batch.first() != journal.next() {
        panic!(rt; "an empty node, and the next batch");
    }
    let (len, next) = (journal.len(), batch.end());
    if len >= BATCHES_MAX {
        panic!(rt; "few records");
    }
    node.fill(batch, sync);
    assert_eq!(rt; journal.push_node(node), len + 1);
    assert_eq!(rt; (journal.len(), journal.next()), (len + 1, next));
}

/// Hands the next batch, of one Set, over in a node.
fn push_node(
    rt: &impl Abort,
    alloc: Global,
    journal: &mut Journal<MemDisk>,
    digit: u8,
    sync: bool,
) {
    let node = RecordNode::empty(alloc).expect(rt, "memory");
    let batch = batch_of(rt, alloc, journal.next(), digit);
    link(rt, journal, node, batch, sync);
}

fn step(rt: &impl Abort, journal: &mut Journal<MemDisk>) -> Step {
    match journal.step() {
        Ok(step) => step,
        Err(_) => panic!(rt; "a step"),
    }
}

/// Steps until a step is idle.
fn settle(rt: &impl Abort, journal: &mut Journal<MemDisk>) {
    for _ in 0..10_000 {
        if step(rt, journal) == Step::Idle {
            return;
        }
    }
    panic!(rt; "a step that is idle");
}

/// What was sent to the segment of this index is these bytes.
fn assert_sent(rt: &impl Abort, disk: &MemDisk, index: u32, bytes: &[u8]) {
    let sent = disk.sent(side_of(index), segment_at(index));
    assert!(rt; sent == Some(bytes), "segment {index}");
}

/// Two batches, which set `a` to 1 and to 2, as they are framed.
const TWO_FRAMES: [u8; 72] =
    *b"\x1aJ\xb2\xe4\x11\0\x09\x01\0\0\0\0\0\0\0\0\0\0\0\x0a\0\0\0\0\0\0\0\x01\0\0\0\x01\x01a\x011\
\x02\xb1\xfc\xbf\x11\0\x09\x01\0\0\0\0\0\0\0\0\0\0\0\x0b\0\0\0\0\0\0\0\x01\0\0\0\x01\x01a\x012";

/// The same, where a sync had covered the first one as the second was written.
const SECOND_AFTER_SYNC: [u8; 72] =
    *b"\x1aJ\xb2\xe4\x11\0\x09\x01\0\0\0\0\0\0\0\0\0\0\0\x0a\0\0\0\0\0\0\0\x01\0\0\0\x01\x01a\x011\
\xdd\x08>\x9f\x11\0\x09\x01\0\0\0\x24\0\0\0\0\0\0\0\x0b\0\0\0\0\0\0\0\x01\0\0\0\x01\x01a\x012";

#[test]
fn a_stalled_segment_is_followed_by_the_next(rt: HostRuntime) {
    let alloc = rt.alloc();
    let mut journal = journal_of(&rt, alloc, 3);
    push(&rt, alloc, &mut journal, b'1', false);
    settle(&rt, &mut journal);
    journal.stall(Side::Primary, 10);
    push(&rt, alloc, &mut journal, b'2', true);
    assert_eq!(rt; journal.close(), Ok(()));
    assert_eq!(rt; journal.acked(), 2);
    assert_eq!(rt; journal.segments(), 2);
    assert_eq!(rt; (journal.failed(), journal.left_by_stall()), (0, 1));
    let disk = journal.into_disk();
    assert_sent(&rt, &disk, 0, &TWO_FRAMES);
    assert_sent(&rt, &disk, 1, &TWO_FRAMES);
}

/// The next segment begins with the record that the first one hangs on, and of it no sync has covered a byte.
#[test]
fn a_sync_offset_counts_the_bytes_of_its_own_segment(rt: HostRuntime) {
    let alloc = rt.alloc();
    let mut journal = journal_of(&rt, alloc, 3);
    push(&rt, alloc, &mut journal, b'1', true);
    settle(&rt, &mut journal);
    assert_eq!(rt; journal.acked(), 1);
    journal.stall(Side::Primary, 10);
    push(&rt, alloc, &mut journal, b'2', true);
    assert_eq!(rt; journal.close(), Ok(()));
    assert_eq!(rt; (journal.segments(), journal.acked()), (2, 2));
    let disk = journal.into_disk();
    assert_sent(&rt, &disk, 0, &SECOND_AFTER_SYNC);
    assert_sent(&rt, &disk, 1, &TWO_FRAMES[36..]);
}

#[test]
fn a_late_sync_of_an_older_segment_counts(rt: HostRuntime) {
    let alloc = rt.alloc();
    let mut journal = journal_of(&rt, alloc, 3);
    push(&rt, alloc, &mut journal, b'1', true);
    for _ in 0..3 {
        assert_eq!(rt; step(&rt, &mut journal), Step::Moved);
    }
    journal.stall(Side::Primary, 3);
    for _ in 0..3 {
        assert_eq!(rt; journal.segments(), 1);
        assert_eq!(rt; step(&rt, &mut journal), Step::Waited);
    }
    assert_eq!(rt; (journal.segments(), journal.acked()), (2, 0));
    assert_eq!(rt; step(&rt, &mut journal), Step::Moved);
    assert_eq!(rt; journal.acked(), 1);
    assert_eq!(rt; step(&rt, &mut journal), Step::Idle);
    assert_sent(&rt, &journal.into_disk(), 1, b"");
}

#[test]
fn a_journal_whose_syncs_fail_is_dead_for_good(rt: HostRuntime) {
    let alloc = rt.alloc();
    let mut journal = journal_from(&rt, alloc, unsyncing(&rt, alloc), BASE, 3);
    push(&rt, alloc, &mut journal, b'1', true);
    let dead = Err(JournalFault::Dead {
        side: Side::Secondary,
        faults: 10,
    });
    assert_eq!(rt; journal.close(), dead);
    assert_eq!(rt; journal.close(), dead);
    let mark = DeadMark {
        side: Side::Secondary,
        faults: 10,
    };
    assert_eq!(rt; journal.dead(), Some(mark));
    assert_eq!(rt; (journal.segments(), journal.acked()), (10, 0));
    assert_eq!(rt; (journal.failed(), journal.left_by_stall()), (10, 0));
}

/// A segment that is left while it hangs and fails later counts as both.
#[test]
fn a_segment_that_is_left_and_fails_later_counts_twice(rt: HostRuntime) {
    let alloc = rt.alloc();
    let mut fresh = fresh(&rt, alloc);
    fresh.fail_op(2).expect(&rt, "memory");
    let mut journal = journal_from(&rt, alloc, fresh, BASE, 3);
    push(&rt, alloc, &mut journal, b'1', true);
    for _ in 0..3 {
        assert_eq!(rt; step(&rt, &mut journal), Step::Moved);
    }
    journal.stall(Side::Primary, 3);
    assert_eq!(rt; (journal.failed(), journal.left_by_stall()), (0, 0));
    assert_eq!(rt; journal.close(), Ok(()));
    assert_eq!(rt; (journal.segments(), journal.acked()), (2, 1));
    assert_eq!(rt; (journal.failed(), journal.left_by_stall()), (1, 1));
}

/// A journal of two records of which the first segment wrote one and hangs on the other. They come in nodes where that
/// is asked for.
fn stalled(rt: &impl Abort, alloc: Global, in_nodes: bool) -> MemDisk {
    let mut journal = journal_of(rt, alloc, 3);
    for (digit, sync) in [(b'1', false), (b'2', true)] {
        if in_nodes {
            push_node(rt, alloc, &mut journal, digit, sync);
        } else {
            push(rt, alloc, &mut journal, digit, sync);
        }
        settle(rt, &mut journal);
        if !sync {
            journal.stall(Side::Primary, 10);
        }
    }
    assert_eq!(rt; (journal.segments(), journal.acked()), (2, 2));
    journal.into_disk()
}

#[test]
fn records_in_nodes_are_written_as_others_are(rt: HostRuntime) {
    let alloc = rt.alloc();
    for in_nodes in [false, true] {
        let disk = stalled(&rt, alloc, in_nodes);
        assert_sent(&rt, &disk, 0, &TWO_FRAMES);
        assert_sent(&rt, &disk, 1, &TWO_FRAMES);
    }
}

#[test]
fn a_dead_journal_takes_nodes_and_stays_dead(rt: HostRuntime) {
    let alloc = rt.alloc();
    let mut journal = journal_from(&rt, alloc, unsyncing(&rt, alloc), BASE, 3);
    push_node(&rt, alloc, &mut journal, b'1', true);
    let dead = Err(JournalFault::Dead {
        side: Side::Secondary,
        faults: 10,
    });
    assert_eq!(rt; journal.close(), dead);
    let mark = journal.dead();
    assert!(rt; mark.is_some());
    push_node(&rt, alloc, &mut journal, b'2', true);
    push_node(&rt, alloc, &mut journal, b'3', false);
    assert_eq!(rt; (journal.len(), journal.next()), (3, 13));
    assert_eq!(rt; journal.close(), dead);
    assert_eq!(rt; (journal.dead(), journal.acked()), (mark, 0));
    assert_sent(&rt, &journal.into_disk(), 9, &TWO_FRAMES[..36]);
}

/// Hands the next batch, of one Set, over in a node, if there is memory for the two.
fn push_short(
    rt: &impl Abort,
    alloc: Global,
    journal: &mut Journal<MemDisk>,
    digit: u8,
) -> Result<(), NoMemory> {
    let batch = batch_short(alloc, journal.next(), digit)?;
    let node = RecordNode::empty(alloc)?;
    link(rt, journal, node, batch, false);
    Ok(())
}

/// An allocation is refused only where that is asked for, and then once: `rt try --test --fail-alloc N`. What was
/// refused is done at the second try, and the file has the same bytes.
#[test]
fn a_journal_of_nodes_that_lacks_memory_is_closed_later(rt: HostRuntime) {
    let alloc = rt.alloc();
    let Ok(fresh) = Fresh::new(alloc) else {
        return;
    };
    let Some(mut journal) = journal_short(alloc, fresh) else {
        return;
    };
    for digit in [b'1', b'2'] {
        if push_short(&rt, alloc, &mut journal, digit).is_err() {
            push_short(&rt, alloc, &mut journal, digit).expect(&rt, "memory");
        }
    }
    if journal.close() == Err(JournalFault::NoMemory) {
        assert_eq!(rt; journal.len(), 2);
        assert_eq!(rt; journal.close(), Ok(()));
    }
    assert_eq!(rt; journal.acked(), 2);
    assert_sent(&rt, &journal.into_disk(), 0, &TWO_FRAMES);
}

#[test]
fn a_settled_journal_has_done_all_that_waits_for_nothing(rt: HostRuntime) {
    let alloc = rt.alloc();
    let mut journal = journal_of(&rt, alloc, 3);
    assert_eq!(rt; journal.threshold(), 3);
    push(&rt, alloc, &mut journal, b'1', false);
    assert_eq!(rt; journal.settle(), Ok(Step::Idle));
    assert_eq!(rt; journal.acked(), 0);
    journal.stall(Side::Primary, 2);
    push(&rt, alloc, &mut journal, b'2', true);
    assert_eq!(rt; journal.settle(), Ok(Step::Waited));
    assert_eq!(rt; journal.settle(), Ok(Step::Waited));
    assert_eq!(rt; journal.acked(), 0);
    assert_eq!(rt; journal.settle(), Ok(Step::Idle));
    assert_eq!(rt; (journal.segments(), journal.acked()), (1, 2));
    a_journal_at_hand(&journal);
}

/// Pushes the next batch, of one Set, if its number is not above the greatest one.
fn push_within(rt: &impl Abort, alloc: Global, journal: &mut Journal<MemDisk>) -> bool {
    let first = journal.next();
    if first >= NUMBER_MAX {
        return false;
    }
    let batch = batch_of(rt, alloc, first, b'1');
    journal.reserve().expect(rt, "memory");
    if journal.dead().is_some() || batch.first() != journal.next() {
        panic!(rt; "a journal that lives");
    }
    journal.push(batch, true);
    true
}

#[test]
fn no_batch_is_numbered_above_the_greatest_number(rt: HostRuntime) {
    let alloc = rt.alloc();
    let last = 72_057_594_037_927_934;
    let mut journal = journal_from(&rt, alloc, fresh(&rt, alloc), last, 3);
    assert_eq!(rt; journal.next(), last);
    assert!(rt; push_within(&rt, alloc, &mut journal), "the last number");
    assert_eq!(rt; journal.next(), 72_057_594_037_927_935);
    assert!(rt; !push_within(&rt, alloc, &mut journal), "no number is left");
    assert_eq!(rt; journal.close(), Ok(()));
    assert_eq!(rt; (journal.len(), journal.acked()), (1, 1));
}

/// Closes the journal and answers how many segments it began.
fn segments_of(rt: &impl Abort, mut journal: Journal<MemDisk>) -> u32 {
    assert_eq!(rt; journal.close(), Ok(()));
    assert_eq!(rt; journal.acked(), journal.len());
    journal.segments()
}

/// A journal with a record to sync, of which the first segment has begun this operation: 0 its creation, 1 its write, 2
/// its sync.
fn begun(rt: &impl Abort, alloc: Global, threshold: u32, operation: u32) -> Journal<MemDisk> {
    let mut journal = journal_of(rt, alloc, threshold);
    push(rt, alloc, &mut journal, b'1', true);
    for _ in 0..=operation {
        assert_eq!(rt; step(rt, &mut journal), Step::Moved);
    }
    journal
}

#[test]
fn a_segment_is_left_at_the_threshold_and_not_before(rt: HostRuntime) {
    let alloc = rt.alloc();
    for threshold in [1, 3, 1_000] {
        for operation in 0..3 {
            let mut short = begun(&rt, alloc, threshold, operation);
            short.stall(Side::Primary, threshold.wrapping_sub(1));
            assert_eq!(rt; segments_of(&rt, short), 1);
            let mut long = begun(&rt, alloc, threshold, operation);
            long.stall(Side::Primary, threshold);
            assert_eq!(rt; segments_of(&rt, long), 2);
        }
    }
}

/// A journal that has left its first segment, which is polled once more, and begun this operation on the second one.
fn begun_on_second(
    rt: &impl Abort,
    alloc: Global,
    threshold: u32,
    operation: u32,
) -> Journal<MemDisk> {
    let mut journal = begun(rt, alloc, threshold, 0);
    journal.stall(Side::Primary, threshold);
    for _ in 0..threshold {
        assert_eq!(rt; step(rt, &mut journal), Step::Waited);
    }
    assert_eq!(rt; journal.segments(), 2);
    for _ in 0..operation {
        assert_eq!(rt; step(rt, &mut journal), Step::Moved);
    }
    journal
}

#[test]
fn a_second_segment_is_left_at_the_threshold_too(rt: HostRuntime) {
    let alloc = rt.alloc();
    for threshold in [1, 3, 1_000] {
        for operation in 0..3 {
            let mut short = begun_on_second(&rt, alloc, threshold, operation);
            short.stall(Side::Secondary, threshold.wrapping_sub(1));
            assert_eq!(rt; segments_of(&rt, short), 2);
            let mut long = begun_on_second(&rt, alloc, threshold, operation);
            long.stall(Side::Secondary, threshold);
            assert_eq!(rt; segments_of(&rt, long), 3);
        }
    }
}

#[test]
fn a_journal_runs_over_a_script_disk(rt: HostRuntime) {
    let alloc = rt.alloc();
    let mut journal = scripted_fresh(&rt, alloc);
    let batch = batch_of(&rt, alloc, journal.next(), b'1');
    journal.reserve().expect(&rt, "memory");
    if journal.dead().is_some() || batch.first() != journal.next() {
        panic!(rt; "a journal that lives");
    }
    assert_eq!(rt; journal.push(batch, false), 1);
    journal.stall(Side::Primary, 1);
    assert_eq!(rt; journal.close(), Ok(()));
    assert_eq!(rt; (journal.segments(), journal.acked()), (2, 1));
    let disk = journal.into_disk().into_inner();
    assert_sent(&rt, &disk, 1, &TWO_FRAMES[..36]);
}
