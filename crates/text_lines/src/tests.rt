use crate::{
    SegmentLine, TableLine, put_bad_batch, put_batch, put_conflict, put_corrupt, put_duplicate,
    put_gap, put_number, put_printed, put_recovered_end, put_segment, put_store, put_table,
    side_name,
};
use batch_repr::{Batch, BatchFault, SharedEntries};
use disk_face::{SegName, Side, TableName};
use std::alloc::Global;
use std::process::Abort;
use test_rigs::{Change, batch_of};
use wal_base::{Buf, NoMemory};

const NAME: SegName = SegName { wal: 1, index: 0 };

const LATER: SegName = SegName { wal: 1, index: 1 };

/// The batch of these changes with the first number 10.
fn tenth(rt: &impl Abort, alloc: Global, changes: &[Change<'_>]) -> Batch {
    let batch = batch_of(alloc, changes).expect(rt, "memory");
    let (bytes, entries) = batch.into_parts();
    let first = bytes.number(10).first();
    let entries = SharedEntries::of(alloc, entries.into_vec()).expect(rt, "memory");
    Batch { first, entries }
}

/// Each is printed on a line of its own.
fn put_each(out: &mut Buf, texts: &[&[u8]]) -> Result<(), NoMemory> {
    for text in texts {
        put_printed(out, text)?;
        out.append(b"\n")?;
    }
    Ok(())
}

const PRINTED: &[u8] = b"\\e\n\\x20\n\\x5c\na\\x20b\\x5c\n\\x00!~\\x7f\\xff\nplain\n\\x0a\\x0ax\n";

#[test]
fn a_byte_that_does_not_print_as_itself_has_its_digits(rt: HostRuntime) {
    let texts: [&[u8]; 7] = [
        b"",
        b" ",
        b"\\",
        b"a b\\",
        b"\x00!~\x7f\xff",
        b"plain",
        b"\n\nx",
    ];
    let mut out = Buf::new(rt.alloc()).expect(&rt, "memory");
    let put = put_each(&mut out, &texts);
    assert!(rt; put.is_ok() && out.as_slice() == PRINTED);
}

#[test]
fn a_number_has_its_decimal_digits(rt: HostRuntime) {
    let mut out = Buf::new(rt.alloc()).expect(&rt, "memory");
    let is_put = put_number(&mut out, 0).is_ok()
        && put_number(&mut out, 18_446_744_073_709_551_615).is_ok();
    assert!(rt; is_put && out.as_slice() == b"018446744073709551615".as_slice());
}

#[test]
fn a_batch_has_a_line_for_each_entry(rt: HostRuntime) {
    let mut out = Buf::new(rt.alloc()).expect(&rt, "memory");
    let put = put_changes(&rt, rt.alloc(), &mut out);
    let text = b"batch 10 2\nset a 1\ndel b\nnote x\n".as_slice();
    assert!(rt; put.is_ok() && out.as_slice() == text);
}

fn put_changes(rt: &impl Abort, alloc: Global, out: &mut Buf) -> Result<(), NoMemory> {
    let changes = [
        Change::Set(b"a", b"1"),
        Change::Delete(b"b"),
        Change::Note(b"x"),
    ];
    let batch = tenth(rt, alloc, &changes);
    put_batch(out, &batch)
}

#[test]
fn a_segment_has_one_line(rt: HostRuntime) {
    assert!(rt; side_name(Side::Secondary) == "secondary");
    let mut out = Buf::new(rt.alloc()).expect(&rt, "memory");
    let put = put_segments(&mut out);
    let text =
        b"segment 000001.log primary bytes 56 records 1 ends 28 torn\nsegment 000001-001.log secondary bytes 0 records 0 ends 0 clean\nend batches 1 next 11\n";
    assert!(rt; put.is_ok() && out.as_slice() == text.as_slice());
}

fn put_segments(out: &mut Buf) -> Result<(), NoMemory> {
    let torn = SegmentLine {
        side: Side::Primary,
        name: NAME,
        len: 56,
        ends_at: 28,
        torn: true,
    };
    put_segment(out, &torn, 1)?;
    let clean = SegmentLine {
        side: Side::Secondary,
        name: LATER,
        len: 0,
        ends_at: 0,
        torn: false,
    };
    put_segment(out, &clean, 0)?;
    put_recovered_end(out, 1, 11)
}

#[test]
fn a_table_has_one_line(rt: HostRuntime) {
    let mut out = Buf::new(rt.alloc()).expect(&rt, "memory");
    let table = TableLine {
        name: TableName { upto: 2 },
        keys: 3,
        next: 17,
    };
    let put = put_table(&mut out, &table);
    let text = b"table 000002.tab keys 3 next 17\n";
    assert!(rt; put.is_ok() && out.as_slice() == text.as_slice());
}

#[test]
fn a_refusal_has_one_line(rt: HostRuntime) {
    let mut out = Buf::new(rt.alloc()).expect(&rt, "memory");
    let put = put_refusals(&mut out);
    let text =
        b"refused duplicate 000001.log\nrefused gap 000001-001.log expected 13 found 15\nrefused conflict 000001-001.log 12\nrefused corrupt 000001.log 28 32768\n";
    assert!(rt; put.is_ok() && out.as_slice() == text.as_slice());
}

fn put_refusals(out: &mut Buf) -> Result<(), NoMemory> {
    put_duplicate(out, NAME)?;
    put_gap(out, LATER, 13, 15)?;
    put_conflict(out, LATER, 12)?;
    put_corrupt(out, NAME, 28, 32_768)
}

#[test]
fn each_fault_of_a_batch_has_its_words(rt: HostRuntime) {
    let mut out = Buf::new(rt.alloc()).expect(&rt, "memory");
    let put = put_faults(&mut out);
    let text =
        b"refused batch 000001.log 0 short-header\nrefused batch 000001.log 1 short-entry 12\nrefused batch 000001.log 2 bad-varint 13\nrefused batch 000001.log 3 too-long 14\nrefused batch 000001.log 4 unknown-kind 15 4\nrefused batch 000001.log 5 count 2 1\nrefused batch 000001.log 28 seq-range 9\n";
    assert!(rt; put.is_ok() && out.as_slice() == text.as_slice());
}

fn put_faults(out: &mut Buf) -> Result<(), NoMemory> {
    put_bad_batch(out, NAME, 0, BatchFault::ShortHeader)?;
    put_bad_batch(out, NAME, 1, BatchFault::ShortEntry { at: 12 })?;
    put_bad_batch(out, NAME, 2, BatchFault::BadVarint { at: 13 })?;
    put_bad_batch(out, NAME, 3, BatchFault::TooLong { at: 14 })?;
    put_bad_batch(out, NAME, 4, BatchFault::UnknownKind { at: 15, kind: 4 })?;
    put_bad_batch(out, NAME, 5, BatchFault::Count { said: 2, found: 1 })?;
    put_bad_batch(out, NAME, 28, BatchFault::SeqRange { first: 9 })
}

#[test]
fn a_store_has_a_line_for_each_key_with_a_value(rt: HostRuntime) {
    let mut out = Buf::new(rt.alloc()).expect(&rt, "memory");
    let put = put_two_batches(&rt, rt.alloc(), &mut out);
    assert!(rt; put.is_ok() && out.as_slice() == b"b = 2\nc = \\e\n".as_slice());
}

fn put_two_batches(rt: &impl Abort, alloc: Global, out: &mut Buf) -> Result<(), NoMemory> {
    let changes = [
        Change::Set(b"c", b""),
        Change::Set(b"b", b"2"),
        Change::Note(b"a"),
        Change::Delete(b"a"),
    ];
    let first = tenth(rt, alloc, &[Change::Set(b"a", b"1")]);
    let second = tenth(rt, alloc, &changes);
    put_store(alloc, out, &[first, second])
}

#[test]
fn a_store_has_no_key_of_a_deleted_range(rt: HostRuntime) {
    let alloc = rt.alloc();
    let sets = [
        Change::Set(b"a", b"1"),
        Change::Set(b"b", b"2"),
        Change::Set(b"c", b"3"),
    ];
    let changes = [
        Change::RangeDelete(b"a", b"c"),
        Change::Set(b"a", b"9"),
        Change::RangeDelete(b"d", b"c"),
    ];
    let first = tenth(&rt, alloc, &sets);
    let second = tenth(&rt, alloc, &changes);
    let mut out = Buf::new(alloc).expect(&rt, "memory");
    put_batch(&mut out, &second).expect(&rt, "memory");
    put_store(alloc, &mut out, &[first, second]).expect(&rt, "memory");
    let text = b"batch 10 3\nrdel a c\nset a 9\nrdel d c\na = 9\nc = 3\n";
    assert_eq!(rt; out.as_slice(), text.as_slice());
}

/// Adds a line many times, and looks each time at what it added. An allocation is refused only where that is asked for:
/// `rt try --test --fail-alloc N`.
#[test]
fn a_line_is_added_whole_or_not_at_all(rt: HostRuntime) {
    let Ok(mut out) = Buf::new(rt.alloc()) else {
        return;
    };
    for _ in 0..64 {
        let before = out.as_slice().len();
        let added: &[u8] = match put_recovered_end(&mut out, 7, 18) {
            Ok(()) => b"end batches 7 next 18\n",
            Err(_) => b"",
        };
        assert_eq!(rt; out.as_slice().get(before..), Some(added));
    }
}
