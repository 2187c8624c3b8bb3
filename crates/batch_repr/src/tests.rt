use crate::{
    Batch, BatchBuilder, BatchFault, BatchReader, BuildFault, SharedEntries, Unnumbered, Unwritten,
    decode, decode_shared, push_batch,
};
use std::alloc::Global;
use std::process::Abort;
use wal_base::{Blob, Entries, Entry};

/// A batch of one Set, key `a` to `1`.
fn one_set(rt: &impl Abort, mut builder: BatchBuilder) -> Unnumbered {
    builder.set(b"a", b"1").expect(rt, "an entry");
    let Ok(batch) = builder.finish() else {
        panic!(rt; "a batch");
    };
    batch
}

#[test]
fn one_set_has_these_bytes_and_is_read_back(rt: HostRuntime) {
    let builder = BatchBuilder::new(rt.alloc()).expect(&rt, "memory");
    let batch = one_set(&rt, builder);
    assert_eq!(rt;
        (batch.count(), batch.size(), batch.entries().len()),
        (1, 17, 1)
    );
    let (bytes, entries) = batch.into_parts();
    assert_eq!(rt; (bytes.count(), entries.len()), (1, 1));
    let numbered = bytes.number(10);
    assert_eq!(rt;
        (numbered.first(), numbered.count(), numbered.end()),
        (10, 1, 11)
    );
    let bytes = [
        0x0a, 0, 0, 0, 0, 0, 0, 0, 0x01, 0, 0, 0, 0x01, 0x01, 0x61, 0x01, 0x31,
    ];
    assert_eq!(rt; numbered.bytes(), bytes.as_slice());
    let read = decode(rt.alloc(), numbered.bytes()).expect(&rt, "a batch");
    assert!(rt; is_one_set(&read));
    let short = decode(rt.alloc(), &bytes[..11]).err();
    assert_eq!(rt; short, Some(BatchFault::ShortHeader));
}

#[test]
fn a_number_fills_the_header(rt: HostRuntime) {
    let builder = BatchBuilder::new(rt.alloc()).expect(&rt, "memory");
    let numbered = one_set(&rt, builder).number(0x00a1_b2c3_d4e5_f607);
    let header = [0x07, 0xf6, 0xe5, 0xd4, 0xc3, 0xb2, 0xa1, 0, 1, 0, 0, 0];
    assert_eq!(rt; &numbered.bytes()[..12], header.as_slice());
}

#[test]
fn nothing_counted_is_no_batch(rt: HostRuntime) {
    let builder = BatchBuilder::new(rt.alloc()).expect(&rt, "memory");
    assert!(rt; builder.finish().is_err());
}

#[test]
#[tactic(auto, using(crate::proofs::Fitting::spelled_fits))]
fn a_batch_is_written_as_it_was_read(rt: HostRuntime) {
    let note = [0x63, 0, 0, 0, 0, 0, 0, 0, 0, 0, 0, 0, 0x03, 0x01, 0x78];
    let set = [
        0x0a, 0, 0, 0, 0, 0, 0, 0, 0x01, 0, 0, 0, 0x01, 0x01, 0x61, 0x01, 0x31,
    ];
    let mut out = Vec::new(rt.alloc());
    for bytes in [note.as_slice(), set.as_slice()] {
        let batch = decode(rt.alloc(), bytes).expect(&rt, "a batch");
        out.clear();
        assert!(rt; push_batch(&mut out, &batch).is_ok());
        assert_eq!(rt; out.as_slice(), bytes);
    }
}

/// So many of the bytes, from the front.
fn front<'a>(rt: &impl Abort, bytes: &'a [u8], len: usize) -> &'a [u8] {
    bytes.get(..len).expect(rt, "so many bytes")
}

#[test]
fn each_limit_is_the_last_length_taken(rt: HostRuntime) {
    let text = vec![in rt.alloc(); b'x'; 1_048_577].expect(&rt, "memory");
    for (key, value, answer) in [
        (65_535, 1, Ok(())),
        (65_536, 1, Err(BuildFault::KeyTooLong { len: 65_536 })),
        (1, 1_048_576, Ok(())),
        (
            1,
            1_048_577,
            Err(BuildFault::ValueTooLong { len: 1_048_577 }),
        ),
        (
            65_536,
            1_048_577,
            Err(BuildFault::KeyTooLong { len: 65_536 }),
        ),
        (0, 0, Ok(())),
    ] {
        let mut builder = BatchBuilder::new(rt.alloc()).expect(&rt, "memory");
        assert_eq!(rt;
            builder.set(front(&rt, &text, key), front(&rt, &text, value)),
            answer
        );
    }
}

#[test]
fn a_batch_is_full_at_its_limit(rt: HostRuntime) {
    let text = vec![in rt.alloc(); b'x'; 1_048_576].expect(&rt, "memory");
    let mut builder = BatchBuilder::new(rt.alloc()).expect(&rt, "memory");
    for _ in 0..3 {
        builder.set(b"a", &text).expect(&rt, "an entry");
    }
    // Three such entries and the header have 3,145,758 bytes, and a fourth one six more than its value.
    let full = builder.set(b"a", front(&rt, &text, 1_048_541));
    assert_eq!(rt; full, Err(BuildFault::BatchTooLong { len: 4_194_305 }));
    assert_eq!(rt; builder.set(b"a", front(&rt, &text, 1_048_540)), Ok(()));
    let Ok(batch) = builder.finish() else {
        panic!(rt; "a batch");
    };
    assert_eq!(rt; (batch.count(), batch.size()), (4, 4_194_304));
}

#[test]
fn a_key_and_a_note_have_their_limits(rt: HostRuntime) {
    let text = vec![in rt.alloc(); b'x'; 1_048_577].expect(&rt, "memory");
    let mut builder = BatchBuilder::new(rt.alloc()).expect(&rt, "memory");
    assert_eq!(rt;
        (
            builder.delete(front(&rt, &text, 65_535)),
            builder.delete(front(&rt, &text, 65_536)),
            builder.note(front(&rt, &text, 1_048_576)),
            builder.note(&text),
        ),
        (
            Ok(()),
            Err(BuildFault::KeyTooLong { len: 65_536 }),
            Ok(()),
            Err(BuildFault::ValueTooLong { len: 1_048_577 }),
        )
    );
}

#[test]
fn a_note_and_a_delete_are_written_and_read(rt: HostRuntime) {
    let mut builder = BatchBuilder::new(rt.alloc()).expect(&rt, "memory");
    builder.note(b"t7").expect(&rt, "an entry");
    let Err(mut builder) = builder.finish() else {
        panic!(rt; "a batch of a note alone");
    };
    builder.delete(b"a").expect(&rt, "an entry");
    let Ok(batch) = builder.finish() else {
        panic!(rt; "a batch");
    };
    let numbered = batch.number(11);
    let bytes = b"\x0b\0\0\0\0\0\0\0\x01\0\0\0\x03\x02t7\0\x01a";
    assert_eq!(rt; numbered.bytes(), bytes.as_slice());
    let read = decode(rt.alloc(), bytes).expect(&rt, "a batch");
    assert_eq!(rt; (read.first, read.entries.len()), (11, 2));
}

/// A numbered batch of one RangeDelete has these bytes, and is read back. Where the start is not before the end, it is one too.
#[test]
fn a_range_delete_is_written_and_read(rt: HostRuntime) {
    for (start, end) in [(b'a', b'c'), (b'c', b'a'), (b'a', b'a')] {
        let mut builder = BatchBuilder::new(rt.alloc()).expect(&rt, "memory");
        builder
            .delete_range(&[start], &[end])
            .expect(&rt, "an entry");
        let Ok(batch) = builder.finish() else {
            panic!(rt; "a batch");
        };
        let numbered = batch.number(10);
        let bytes = [
            0x0a, 0, 0, 0, 0, 0, 0, 0, 0x01, 0, 0, 0, 0x0f, 0x01, start, 0x01, end,
        ];
        assert_eq!(rt; numbered.bytes(), bytes.as_slice());
        let read = decode(rt.alloc(), numbered.bytes()).expect(&rt, "a batch");
        let [
            Entry::RangeDelete {
                start: from,
                end: to,
            },
        ] = read.entries.as_slice()
        else {
            panic!(rt; "a range");
        };
        assert_eq!(rt; from.as_slice(), [start].as_slice());
        assert_eq!(rt; to.as_slice(), [end].as_slice());
    }
}

#[test]
fn a_range_has_the_limit_of_a_key_at_each_end(rt: HostRuntime) {
    let text = vec![in rt.alloc(); b'x'; 65_537].expect(&rt, "memory");
    for (start, end, answer) in [
        (65_535, 65_535, Ok(())),
        (65_536, 65_537, Err(BuildFault::KeyTooLong { len: 65_536 })),
        (1, 65_537, Err(BuildFault::KeyTooLong { len: 65_537 })),
    ] {
        let mut builder = BatchBuilder::new(rt.alloc()).expect(&rt, "memory");
        let added = builder.delete_range(front(&rt, &text, start), front(&rt, &text, end));
        assert_eq!(rt; added, answer);
    }
}

fn note_and(rt: &impl Abort, alloc: Global, delete: bool) -> Entries {
    let text = Blob::copy_of(alloc, b"t7 a").expect(rt, "memory");
    let bytes = text.part(0, 2).expect(rt, "a part");
    let mut entries = Entries::new(alloc);
    assert!(rt; entries.push(Entry::Note { bytes }).is_ok());
    if delete {
        let key = text.part(3, 4).expect(rt, "a part");
        assert!(rt; entries.push(Entry::Delete { key }).is_ok());
    }
    entries
}

#[test]
fn entries_that_make_a_batch_are_written(rt: HostRuntime) {
    let alone = note_and(&rt, rt.alloc(), false);
    assert!(&rt; Unwritten::of(alone).is_none());
    let both = note_and(&rt, rt.alloc(), true);
    let unwritten = Unwritten::of(both).expect(&rt, "a batch");
    let batch = unwritten.write(rt.alloc()).expect(&rt, "memory");
    assert_eq!(&rt; (batch.count(), batch.size()), (1, 19));
    let bytes = b"\x0b\0\0\0\0\0\0\0\x01\0\0\0\x03\x02t7\0\x01a";
    assert_eq!(&rt; batch.number(11).bytes(), bytes.as_slice());
}

/// A header, and the entries after it.
fn text(rt: &impl Abort, alloc: Global, first: u64, count: u32, entries: &[u8]) -> Vec<u8> {
    let mut bytes = Vec::new(alloc);
    bytes
        .extend_from_slice(&first.to_le_bytes())
        .expect(rt, "memory");
    bytes
        .extend_from_slice(&count.to_le_bytes())
        .expect(rt, "memory");
    bytes.extend_from_slice(entries).expect(rt, "memory");
    bytes
}

/// Whether it is the batch of number 10 and one Set, key `a` to `1`.
fn is_one_set(batch: &Batch) -> bool {
    match batch.entries.get(0) {
        Some(Entry::Set { key, value }) => {
            batch.first == 10
                && batch.entries.len() == 1
                && key.as_slice() == b"a".as_slice()
                && value.as_slice() == b"1".as_slice()
        }
        _ => false,
    }
}

#[test]
fn each_spelling_of_a_length_is_read(rt: HostRuntime) {
    for entries in [
        b"\x01\x01a\x011".as_slice(),
        b"\x01\x81\x00a\x011".as_slice(),
        b"\x01\x81\x80\x00a\x011".as_slice(),
        b"\x01\x81\x80\x80\x00a\x011".as_slice(),
        b"\x01\x81\x80\x80\x80\x00a\x011".as_slice(),
        b"\x01\x01a\x81\x80\x80\x80\x001".as_slice(),
    ] {
        let bytes = text(&rt, rt.alloc(), 10, 1, entries);
        let batch = decode(rt.alloc(), &bytes).expect(&rt, "a batch");
        assert!(rt; is_one_set(&batch));
    }
}

/// The greatest number at which a batch may end.
const LAST: u64 = 72_057_594_037_927_935;

#[test]
fn a_batch_outlives_the_text_that_it_shares(rt: HostRuntime) {
    let bytes = text(&rt, rt.alloc(), 10, 1, b"\x03\x02xy\x01\x01a\x01b\x03\x00");
    let text = Blob::of_vec(rt.alloc(), bytes).expect(&rt, "memory");
    let read = decode_shared(rt.alloc(), &text).expect(&rt, "a batch");
    drop(text);
    let same = read.share().expect(&rt, "memory");
    drop(read);
    assert_eq!(rt; (same.first, same.entries.len()), (10, 3));
    let [
        Entry::Note { bytes: front },
        Entry::Set { key, value },
        Entry::Note { bytes: back },
    ] = same.entries.as_slice()
    else {
        panic!(rt; "other entries");
    };
    assert_eq!(rt; front.as_slice(), b"xy".as_slice());
    assert_eq!(rt; key.as_slice(), b"a".as_slice());
    assert_eq!(rt; value.as_slice(), b"b".as_slice());
    assert!(rt; back.as_slice().is_empty());
}

/// Reads a batch with this first number and of these entries more.
fn read_on(
    rt: &impl Abort,
    alloc: Global,
    so_far: BatchReader,
    first: u64,
    entries: &[u8],
) -> Result<BatchReader, BatchFault> {
    let bytes = text(rt, alloc, first, 1, entries);
    let text = Blob::of_vec(alloc, bytes).expect(rt, "memory");
    so_far.add(&text)
}

#[test]
fn batches_are_read_one_after_another(rt: HostRuntime) {
    let alloc = rt.alloc();
    let mut so_far = BatchReader::with_capacity(alloc, 3).expect(&rt, "memory");
    for first in 10..2010u64 {
        let entries = b"\x01\x01a\x011\x03\x00".as_slice();
        so_far = read_on(&rt, alloc, so_far, first, entries).expect(&rt, "a batch");
    }
    so_far = read_on(&rt, alloc, so_far, 2010, b"\x00\x01b").expect(&rt, "a batch");
    let batches = so_far.finish().expect(&rt, "memory");
    assert_eq!(rt; batches.len(), 2001);
    for batch in batches.as_slice().iter().take(2000) {
        assert_eq!(rt; (batch.entries.len(), batch.count()), (2, 1));
    }
    let last = batches.get(2000).expect(&rt, "a batch");
    assert_eq!(rt; last.first, 2010);
    let entries = last.entries.to_entries(alloc).expect(&rt, "memory");
    assert_eq!(rt;
        format!(in alloc;
            "{:?}",
            SharedEntries::of(alloc, entries.into_vec()).expect(&rt, "memory")
        )
        .expect(&rt, "memory")
        .as_str(),
        "SharedEntries([Delete { key: Blob([98]) }])"
    );
}

#[test]
fn a_reader_of_batches_ends_at_the_first_that_is_none(rt: HostRuntime) {
    let alloc = rt.alloc();
    let empty = BatchReader::with_capacity(alloc, 0).expect(&rt, "memory");
    let one = read_on(&rt, alloc, empty, 10, b"\x00\x01a").expect(&rt, "a batch");
    let Err(fault) = read_on(&rt, alloc, one, 11, b"\x03\x00") else {
        panic!(rt; "no fault");
    };
    assert_eq!(rt; fault, BatchFault::Count { said: 1, found: 0 });
}

#[test]
fn each_fault_stands_where_it_is(rt: HostRuntime) {
    for (first, count, entries, fault) in [
        (
            10,
            1,
            b"\x02".as_slice(),
            BatchFault::UnknownKind { at: 12, kind: 2 },
        ),
        (
            10,
            1,
            b"\x0e\x00\x00".as_slice(),
            BatchFault::UnknownKind { at: 12, kind: 14 },
        ),
        (
            10,
            2,
            b"\x00\x01a\x02".as_slice(),
            BatchFault::UnknownKind { at: 15, kind: 2 },
        ),
        (10, 1, b"\x00".as_slice(), BatchFault::ShortEntry { at: 12 }),
        (
            10,
            1,
            b"\x00\x81".as_slice(),
            BatchFault::ShortEntry { at: 12 },
        ),
        (
            10,
            1,
            b"\x01\x01a\x01".as_slice(),
            BatchFault::ShortEntry { at: 12 },
        ),
        (
            10,
            1,
            b"\x00\xff\xff\x03".as_slice(),
            BatchFault::ShortEntry { at: 12 },
        ),
        (
            10,
            1,
            b"\x01\x00\x80\x80\x40".as_slice(),
            BatchFault::ShortEntry { at: 12 },
        ),
        (
            10,
            0,
            b"\x03\x80\x80\x40".as_slice(),
            BatchFault::ShortEntry { at: 12 },
        ),
        (
            10,
            1,
            b"\x00\x80\x80\x80\x80\x80\x00".as_slice(),
            BatchFault::BadVarint { at: 13 },
        ),
        (
            10,
            1,
            b"\x00\x80\x80\x80\x80\x10".as_slice(),
            BatchFault::BadVarint { at: 13 },
        ),
        (
            10,
            1,
            b"\x00\xff\xff\xff\xff\x0f".as_slice(),
            BatchFault::TooLong { at: 13 },
        ),
        (
            10,
            1,
            b"\x00\x80\x80\x04".as_slice(),
            BatchFault::TooLong { at: 13 },
        ),
        (
            10,
            1,
            b"\x01\x00\x81\x80\x40".as_slice(),
            BatchFault::TooLong { at: 14 },
        ),
        (
            10,
            0,
            b"\x03\x81\x80\x40".as_slice(),
            BatchFault::TooLong { at: 13 },
        ),
        (
            10,
            2,
            b"\x01\x01a\x011".as_slice(),
            BatchFault::Count { said: 2, found: 1 },
        ),
        (
            LAST,
            1,
            b"\x03\x00".as_slice(),
            BatchFault::Count { said: 1, found: 0 },
        ),
        (
            LAST,
            1,
            b"\x00\x00".as_slice(),
            BatchFault::SeqRange { first: LAST },
        ),
    ] {
        let bytes = text(&rt, rt.alloc(), first, count, entries);
        let Err(found) = decode(rt.alloc(), &bytes) else {
            panic!(rt; "no fault");
        };
        assert_eq!(rt; found, fault);
    }
}

#[test]
fn what_is_no_batch_by_its_length(rt: HostRuntime) {
    let bytes = vec![in rt.alloc(); 0u8; 4_194_305].expect(&rt, "memory");
    for (len, answer) in [
        (0, Some(BatchFault::ShortHeader)),
        (11, Some(BatchFault::ShortHeader)),
        (12, None),
        (4_194_305, Some(BatchFault::TooLong { at: 0 })),
    ] {
        assert_eq!(rt; decode(rt.alloc(), front(&rt, &bytes, len)).err(), answer);
    }
}

#[test]
fn a_batch_may_end_at_the_last_number(rt: HostRuntime) {
    let bytes = text(&rt, rt.alloc(), LAST - 1, 1, b"\x00\x00");
    let batch = decode(rt.alloc(), &bytes).expect(&rt, "a batch");
    assert_eq!(rt; (batch.first, batch.entries.len()), (LAST - 1, 1));
}
