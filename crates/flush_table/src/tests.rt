//! Stores of small directories, whose answers are worked out by hand from docs/formats/table.md and journal.md.
//!
//! A batch is one Set of the key `a` or `b` to a digit, and takes one number.

mod flushes;

use crate::{StoreRead, TableSeen, recover_store};
use batch_repr::{BatchFault, Batches};
use block_record::{Framer, RECORD_MAX};
use disk_face::{Disk, DiskErr, SegName, Side, TableDisk};
use mem_disk::MemDisk;
use std::alloc::Global;
use std::marker::Model;
use std::process::Abort;
use wal_base::{Buf, Entry};
use wal_recovery::{Mode, RecoverFault};

/// The table 1 with `next` 13 and the key `a` of the value `1`, as docs/formats/table.md has it.
const TEXT: [u8; 71] = [
    0x4c, 0x86, 0x09, 0x94, 0x10, 0, 0x09, 0x01, 0, 0, 0, 0, 0, 0, 0, 0, 0, 0, 0, 0x0d, 0, 0, 0, 0,
    0, 0, 0, 0x01, 0, 0, 0, 0, 0, 0, 0, 0x07, 0xbf, 0xcb, 0xde, 0x11, 0, 0x09, 0x01, 0, 0, 0, 0, 0,
    0, 0, 0, 0, 0, 0, 0x0c, 0, 0, 0, 0, 0, 0, 0, 0x01, 0, 0, 0, 0x01, 0x01, 0x61, 0x01, 0x31,
];

/// The first record of a table.
const fn head(next: u8, keys: u8) -> [u8; 16] {
    [next, 0, 0, 0, 0, 0, 0, 0, keys, 0, 0, 0, 0, 0, 0, 0]
}

/// The record of a batch.
const fn set(first: u8, key: u8, digit: u8) -> [u8; 17] {
    [first, 0, 0, 0, 0, 0, 0, 0, 1, 0, 0, 0, 1, 1, key, 1, digit]
}

/// A record that ends within its batch, in the entry at 12.
const fn cut(first: u8) -> [u8; 17] {
    [first, 0, 0, 0, 0, 0, 0, 0, 1, 0, 0, 0, 1, 1, b'a', 2, b'1']
}

/// Records one after another, framed with a log number.
fn framed(rt: &impl Abort, alloc: Global, log: u32, records: &[&[u8]]) -> Buf {
    let mut framer = Framer::new(log);
    let mut out = Buf::new(alloc).expect(rt, "memory");
    for bytes in records {
        assert!(rt; bytes.len() <= RECORD_MAX);
        framer.frame(bytes, 0, &mut out).expect(rt, "memory");
    }
    out
}

/// A disk on which nothing is in flight.
#[derive(Drop)]
struct Rig {
    disk: MemDisk,
}

impl Model for Rig {
    ghost use Rattle.disk_face.specs.View.{NothingInFlight};
    ghost use Rattle.mem_disk.specs.declared.memory.MemDisk.{MemDisk};

    ghost Value = { MemDisk };

    ghost view = { λ rig. rig.disk };

    ghost invariant = { λ rig. NothingInFlight (⟦<MemDisk as Disk>⟧.view rig.disk) };
}

impl Rig {
    fn new(rt: &impl Abort, alloc: Global) -> Rig {
        let disk = MemDisk::new(alloc).expect(rt, "memory");
        Rig { disk }
    }

    /// Puts a segment of index 0 with these records.
    fn segment(&mut self, rt: &impl Abort, alloc: Global, side: Side, wal: u8, records: &[&[u8]]) {
        let name = SegName {
            wal: u64::from(wal),
            index: 0,
        };
        let bytes = framed(rt, alloc, u32::from(wal), records);
        assert!(rt; self.disk.sent(side, name).is_none());
        self.disk
            .put_file(side, name, bytes.as_slice())
            .expect(rt, "memory");
    }

    /// Puts a table with these bytes.
    fn table(&mut self, rt: &impl Abort, upto: u8, bytes: &[u8]) {
        self.disk
            .put_table(u64::from(upto), bytes)
            .expect(rt, "a put");
    }

    fn fail_table_call(&mut self, rt: &impl Abort, number: u64) {
        self.disk.fail_table_call(number).expect(rt, "memory");
    }

    /// Reads the table of that number from its front, and answers how many bytes it read.
    fn read_table(&mut self, upto: u8, bytes: &mut [u8]) -> Result<usize, DiskErr> {
        self.disk.read_table(u64::from(upto), 0, bytes)
    }

    fn read(&mut self, alloc: Global, mode: Mode) -> Result<StoreRead, RecoverFault> {
        recover_store(alloc, &mut self.disk, mode)
    }
}

/// What is looked at of a store.
#[derive(Clone, Copy, PartialEq, Eq)]
struct Told {
    table: Option<TableSeen>,
    batches: usize,
    /// The value of the last batch.
    last: Option<u8>,
    next: u64,
    next_wal: u64,
    reports: usize,
    /// How many tables and segments were listed.
    listed: (usize, usize),
}

type Summary = Result<Told, RecoverFault>;

fn last_digit(batches: &Batches) -> Option<u8> {
    let batch = batches.get(batches.len().saturating_sub(1))?;
    match batch.entries.get(0)? {
        Entry::Set { value, .. } => value.as_slice().first().copied(),
        _ => None,
    }
}

fn summary(found: Result<StoreRead, RecoverFault>) -> Summary {
    let found = found?;
    let sides = found.primary.len().saturating_add(found.secondary.len());
    Ok(Told {
        table: found.table,
        batches: found.batches.len(),
        last: last_digit(&found.batches),
        next: found.next,
        next_wal: found.next_wal,
        reports: found.segments.len(),
        listed: (found.tables.len(), sides),
    })
}

/// The store of the directories is this, strictly and leniently.
fn see(rt: &impl Abort, alloc: Global, rig: &mut Rig, strict: Summary, lenient: Summary) {
    let found = summary(rig.read(alloc, Mode::Strict));
    assert!(rt; found == strict);
    let found = summary(rig.read(alloc, Mode::Lenient));
    assert!(rt; found == lenient);
}

const fn seen(upto: u64, keys: u64, next: u64) -> Option<TableSeen> {
    Some(TableSeen { upto, keys, next })
}

/// A disk with the table 2, of the keys `a` and `b` and `next` 14.
fn over_two(rt: &impl Abort, alloc: Global) -> Rig {
    let mut rig = Rig::new(rt, alloc);
    let records = [&head(14, 2)[..], &set(12, b'a', b'1'), &set(13, b'b', b'2')];
    let text = framed(rt, alloc, 2, &records);
    rig.table(rt, 2, text.as_slice());
    rig
}

#[test]
fn empty_directories_have_an_empty_store(rt: HostRuntime) {
    let mut rig = Rig::new(&rt, rt.alloc());
    let nothing = Ok(Told {
        table: None,
        batches: 0,
        last: None,
        next: 10,
        next_wal: 1,
        reports: 0,
        listed: (0, 0),
    });
    see(&rt, rt.alloc(), &mut rig, nothing, nothing);
}

#[test]
fn a_table_is_a_store(rt: HostRuntime) {
    let mut rig = Rig::new(&rt, rt.alloc());
    rig.table(&rt, 1, &TEXT);
    let one = Ok(Told {
        table: seen(1, 1, 13),
        batches: 1,
        last: Some(b'1'),
        next: 13,
        next_wal: 2,
        reports: 0,
        listed: (1, 0),
    });
    see(&rt, rt.alloc(), &mut rig, one, one);
}

#[test]
fn a_table_of_no_key_has_its_next(rt: HostRuntime) {
    let mut rig = Rig::new(&rt, rt.alloc());
    let text = framed(&rt, rt.alloc(), 4, &[&head(13, 0)]);
    rig.table(&rt, 4, text.as_slice());
    let none = Ok(Told {
        table: seen(4, 0, 13),
        batches: 0,
        last: None,
        next: 13,
        next_wal: 5,
        reports: 0,
        listed: (1, 0),
    });
    see(&rt, rt.alloc(), &mut rig, none, none);
}

/// Segments at the table's number and below are not read, whatever is wrong with them: those of WAL 1 are cut short,
/// and WAL 2 stands on both sides.
#[test]
fn segments_above_the_table_go_on_from_it(rt: HostRuntime) {
    let alloc = rt.alloc();
    let mut rig = over_two(&rt, alloc);
    rig.segment(&rt, alloc, Side::Primary, 1, &[&cut(10)]);
    rig.segment(&rt, alloc, Side::Primary, 2, &[&set(10, b'a', b'8')]);
    rig.segment(&rt, alloc, Side::Secondary, 2, &[&set(10, b'a', b'9')]);
    rig.segment(&rt, alloc, Side::Secondary, 3, &[&set(14, b'a', b'3')]);
    rig.segment(&rt, alloc, Side::Primary, 7, &[&set(15, b'b', b'4')]);
    let four = Ok(Told {
        table: seen(2, 2, 14),
        batches: 4,
        last: Some(b'4'),
        next: 16,
        next_wal: 8,
        reports: 2,
        listed: (1, 5),
    });
    see(&rt, alloc, &mut rig, four, four);
}

#[test]
fn a_segment_on_both_sides_above_the_table_is_refused(rt: HostRuntime) {
    let alloc = rt.alloc();
    let mut rig = over_two(&rt, alloc);
    rig.segment(&rt, alloc, Side::Primary, 3, &[&set(14, b'a', b'3')]);
    rig.segment(&rt, alloc, Side::Secondary, 3, &[&set(14, b'a', b'3')]);
    let twice = Err(RecoverFault::DuplicateSegment { wal: 3, index: 0 });
    see(&rt, alloc, &mut rig, twice, twice);
}

/// The table 3 has lost its last byte.
#[test]
fn a_torn_table_is_passed_over(rt: HostRuntime) {
    let alloc = rt.alloc();
    let mut rig = over_two(&rt, alloc);
    let text = framed(&rt, alloc, 3, &[&head(20, 1), &set(19, b'a', b'7')]);
    let len = text.as_slice().len().saturating_sub(1);
    rig.table(&rt, 3, text.as_slice().get(..len).expect(&rt, "a part"));
    rig.segment(&rt, alloc, Side::Primary, 1, &[&cut(10)]);
    rig.segment(&rt, alloc, Side::Primary, 3, &[&set(14, b'a', b'3')]);
    let three = Ok(Told {
        table: seen(2, 2, 14),
        batches: 3,
        last: Some(b'3'),
        next: 15,
        next_wal: 4,
        reports: 1,
        listed: (2, 2),
    });
    see(&rt, alloc, &mut rig, three, three);
}

#[test]
fn torn_tables_alone_leave_the_segments(rt: HostRuntime) {
    let alloc = rt.alloc();
    let mut rig = Rig::new(&rt, alloc);
    rig.table(&rt, 5, &TEXT[..70]);
    rig.table(&rt, 8, b"");
    rig.segment(&rt, alloc, Side::Primary, 1, &[&set(10, b'a', b'1')]);
    let one = Ok(Told {
        table: None,
        batches: 1,
        last: Some(b'1'),
        next: 11,
        next_wal: 9,
        reports: 1,
        listed: (2, 1),
    });
    see(&rt, alloc, &mut rig, one, one);
}

/// The lesser table is not whole, and is not read.
#[test]
fn the_greatest_whole_table_is_used(rt: HostRuntime) {
    let alloc = rt.alloc();
    let mut rig = over_two(&rt, alloc);
    rig.table(&rt, 1, &TEXT);
    rig.segment(&rt, alloc, Side::Primary, 1, &[&set(10, b'a', b'1')]);
    let two = Ok(Told {
        table: seen(2, 2, 14),
        batches: 2,
        last: Some(b'2'),
        next: 14,
        next_wal: 3,
        reports: 0,
        listed: (2, 1),
    });
    see(&rt, alloc, &mut rig, two, two);
}

#[test]
fn a_gap_above_the_table_is_accepted_only_leniently(rt: HostRuntime) {
    let alloc = rt.alloc();
    let mut rig = over_two(&rt, alloc);
    rig.segment(&rt, alloc, Side::Primary, 3, &[&set(15, b'a', b'3')]);
    let gap = Err(RecoverFault::Gap {
        wal: 3,
        index: 0,
        expected: 14,
        found: 15,
    });
    let three = Ok(Told {
        table: seen(2, 2, 14),
        batches: 3,
        last: Some(b'3'),
        next: 16,
        next_wal: 4,
        reports: 1,
        listed: (1, 1),
    });
    see(&rt, alloc, &mut rig, gap, three);
}

/// What repeats a batch of the table is passed over only where gaps are accepted, and what denies one never is.
#[test]
fn a_batch_below_the_next_of_the_table_is_a_conflict(rt: HostRuntime) {
    let alloc = rt.alloc();
    let conflict = Err(RecoverFault::Conflict {
        wal: 3,
        index: 0,
        first: 13,
    });
    let mut rig = over_two(&rt, alloc);
    rig.segment(&rt, alloc, Side::Primary, 3, &[&set(13, b'b', b'2')]);
    let two = Ok(Told {
        table: seen(2, 2, 14),
        batches: 2,
        last: Some(b'2'),
        next: 14,
        next_wal: 4,
        reports: 1,
        listed: (1, 1),
    });
    see(&rt, alloc, &mut rig, conflict, two);
    let mut rig = over_two(&rt, alloc);
    rig.segment(&rt, alloc, Side::Primary, 3, &[&set(13, b'b', b'9')]);
    see(&rt, alloc, &mut rig, conflict, conflict);
}

#[test]
fn a_bad_batch_above_the_table_is_told(rt: HostRuntime) {
    let alloc = rt.alloc();
    let mut rig = over_two(&rt, alloc);
    rig.segment(&rt, alloc, Side::Primary, 3, &[&cut(14)]);
    let bad = Err(RecoverFault::BadBatch {
        wal: 3,
        index: 0,
        place: 0,
        fault: BatchFault::ShortEntry { at: 12 },
    });
    see(&rt, alloc, &mut rig, bad, bad);
}

/// The listing of the tables fails, or the read of one: the primary side is told, and not the segment on both sides.
#[test]
fn a_failing_call_on_tables_names_the_primary_side(rt: HostRuntime) {
    let alloc = rt.alloc();
    for call in [0, 1] {
        for mode in [Mode::Strict, Mode::Lenient] {
            let mut rig = over_two(&rt, alloc);
            rig.segment(&rt, alloc, Side::Primary, 3, &[]);
            rig.segment(&rt, alloc, Side::Secondary, 3, &[]);
            rig.fail_table_call(&rt, call);
            let found = summary(rig.read(alloc, mode));
            let failed = RecoverFault::Disk {
                side: Side::Primary,
            };
            assert!(rt; found == Err(failed));
        }
    }
}

/// The one whole table is read, and no table below it: there is no third call on tables to fail.
#[test]
fn no_table_below_the_used_one_is_read(rt: HostRuntime) {
    let alloc = rt.alloc();
    let mut rig = over_two(&rt, alloc);
    rig.table(&rt, 1, &TEXT);
    rig.fail_table_call(&rt, 2);
    let found = summary(rig.read(alloc, Mode::Strict));
    assert!(rt; found.is_ok());
}
