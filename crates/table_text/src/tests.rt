ghost use Rattle.std.specs.Prelude.{IsTrue, All};
ghost use Rattle.text_lines.specs.Holding.{held_keys};
ghost use Rattle.table_text.specs.Tables.{IsHeldWithin};

use crate::{TableRead, put_table_text, read_table};
use batch_repr::{Batch, KEY_MAX, NUMBER_FIRST, NUMBER_MAX, VALUE_MAX, decode};
use block_record::{Framer, RECORD_MAX};
use crc_chunk::{ChunkKind, put_chunk};
use std::alloc::Global;
use std::process::Abort;
use text_lines::{LiveKeys, live_keys};
use wal_base::{Buf, Entry, NoMemory};

/// The table 1 with `next` 13 and the key `a` of the value `1`: a program of its own took the checksums, bit by bit.
const TEXT: [u8; 71] = [
    0x4c, 0x86, 0x09, 0x94, 0x10, 0, 0x09, 0x01, 0, 0, 0, 0, 0, 0, 0, 0, 0, 0, 0, 0x0d, 0, 0, 0, 0,
    0, 0, 0, 0x01, 0, 0, 0, 0, 0, 0, 0, 0x07, 0xbf, 0xcb, 0xde, 0x11, 0, 0x09, 0x01, 0, 0, 0, 0, 0,
    0, 0, 0, 0, 0, 0, 0x0c, 0, 0, 0, 0, 0, 0, 0, 0x01, 0, 0, 0, 0x01, 0x01, 0x61, 0x01, 0x31,
];

/// A first record.
fn head(next: u64, keys: u8) -> [u8; 16] {
    let n = next.to_le_bytes();
    [
        n[0], n[1], n[2], n[3], n[4], n[5], n[6], n[7], keys, 0, 0, 0, 0, 0, 0, 0,
    ]
}

/// The batch of a key of one byte with the value `1`.
fn set(first: u64, key: u8) -> [u8; 17] {
    let n = first.to_le_bytes();
    [
        n[0], n[1], n[2], n[3], n[4], n[5], n[6], n[7], 1, 0, 0, 0, 1, 1, key, 1, 0x31,
    ]
}

/// What these records read as, laid with the log number 1.
fn read(alloc: Global, upto: u64, records: &[&[u8]]) -> Result<Option<TableRead>, NoMemory> {
    let mut framer = Framer::new(1);
    let mut out = Buf::new(alloc)?;
    for bytes in records {
        if bytes.len() > RECORD_MAX {
            return Err(NoMemory);
        }
        framer.frame(bytes, 0, &mut out)?;
    }
    let text = Vec::from_slice(alloc, out.as_slice())?;
    read_table(alloc, upto, text)
}

/// Whether these records are those of a table.
fn are_whole(alloc: Global, records: &[&[u8]]) -> Result<bool, NoMemory> {
    Ok(read(alloc, 1, records)?.is_some())
}

/// Whether these bytes are those of a whole table of this number.
fn is_whole(alloc: Global, upto: u64, bytes: &[u8]) -> Result<bool, NoMemory> {
    let text = Vec::from_slice(alloc, bytes)?;
    Ok(read_table(alloc, upto, text)?.is_some())
}

/// Whether each key and each value is within its limit.
fn are_within(live: &LiveKeys<'_>) -> bool
    ensures { IsTrue result → All IsHeldWithin (held_keys live.now) }
{
    for (key, value) in live {
        if key.len() > KEY_MAX || value.len() > VALUE_MAX {
            return false;
        }
    }
    true
}

/// The text of the table of what the batches leave.
fn text_of(rt: &impl Abort, alloc: Global, next: u64, batches: &[Batch]) -> Result<Buf, NoMemory> {
    let live = live_keys(alloc, batches)?;
    let keys = live.len() as u64;
    if next > NUMBER_MAX || next < NUMBER_FIRST + keys || !are_within(&live) {
        panic!(rt; "no table");
    }
    put_table_text(alloc, 1, next, &live)
}

#[test]
fn the_text_of_one_key(rt: HostRuntime) -> Result<(), NoMemory> {
    let bytes: [u8; 25] = [
        10, 0, 0, 0, 0, 0, 0, 0, 3, 0, 0, 0, 1, 1, 0x62, 1, 0x32, 0, 1, 0x62, 1, 1, 0x61, 1, 0x31,
    ];
    let batch = decode(rt.alloc(), &bytes).expect(&rt, "a batch");
    let text = text_of(&rt, rt.alloc(), 13, &[batch])?;
    assert_eq!(rt; text.as_slice(), TEXT.as_slice());
    Ok(())
}

#[test]
fn a_table_is_read(rt: HostRuntime) -> Result<(), NoMemory> {
    let text = Vec::from_slice(rt.alloc(), &TEXT)?;
    let Some(table) = read_table(rt.alloc(), 1, text)? else {
        panic!(rt; "not whole");
    };
    assert_eq!(rt; (table.next, table.keys, table.batches.len()), (13, 1, 1));
    let Some(batch) = table.batches.get(0) else {
        return Ok(());
    };
    assert_eq!(rt; (batch.first, batch.count()), (12, 1));
    match batch.entries.as_slice() {
        [Entry::Set { key, value }] => {
            assert!(rt; key.as_slice() == b"a".as_slice() && value.as_slice() == b"1".as_slice());
        }
        _ => panic!(rt; "not a Set"),
    }
    Ok(())
}

#[test]
fn a_table_ends_with_its_last_record(rt: HostRuntime) -> Result<(), NoMemory> {
    let mut longer = [7; 80];
    longer[..71].copy_from_slice(&TEXT);
    assert!(rt; is_whole(rt.alloc(), 1, &TEXT)?);
    assert!(rt; is_whole(rt.alloc(), 1, &longer)?);
    for len in 0..TEXT.len() {
        assert!(rt; !is_whole(rt.alloc(), 1, &TEXT[..len])?, "{len}");
    }
    Ok(())
}

#[test]
fn a_table_has_its_own_log_number(rt: HostRuntime) -> Result<(), NoMemory> {
    assert!(rt; is_whole(rt.alloc(), (1 << 32) + 1, &TEXT)?);
    assert!(rt; !is_whole(rt.alloc(), 2, &TEXT)?);
    Ok(())
}

// The records decide, and not the form of their chunks.
#[test]
fn a_table_in_chunks_of_the_old_form(rt: HostRuntime) -> Result<(), NoMemory> {
    let mut first = [0; 27];
    let mut last = [0; 28];
    put_chunk(&mut first, ChunkKind::Full, 1, &head(13, 1));
    put_chunk(&mut last, ChunkKind::Full, 1, &set(12, 0x61));
    let mut text = Buf::new(rt.alloc())?;
    text.append(&first)?;
    text.append(&last)?;
    assert!(rt; is_whole(rt.alloc(), 1, text.as_slice())?);
    Ok(())
}

#[test]
fn a_first_record_says_next_and_count(rt: HostRuntime) -> Result<(), NoMemory> {
    let alloc = rt.alloc();
    let last = set(12, 0x61);
    assert!(rt; are_whole(alloc, &[&head(13, 1), &last])?);
    assert!(rt; are_whole(alloc, &[&head(13, 0)])?);
    assert!(rt; !are_whole(alloc, &[])?);
    assert!(rt; !are_whole(alloc, &[&head(14, 1), &last])?, "next");
    assert!(rt; !are_whole(alloc, &[&head(13, 2), &last])?, "count above");
    assert!(rt; !are_whole(alloc, &[&head(13, 0), &last])?, "count below");
    assert!(rt; !are_whole(alloc, &[&head(13, 1)[..15], &last])?, "short");
    assert!(rt; !are_whole(alloc, &[&last, &last])?, "none");
    Ok(())
}

#[test]
fn a_table_has_numbers_enough(rt: HostRuntime) -> Result<(), NoMemory> {
    let alloc = rt.alloc();
    let most: u64 = (1 << 56) - 1;
    assert!(rt; are_whole(alloc, &[&head(11, 1), &set(10, 0x61)])?);
    assert!(rt; !are_whole(alloc, &[&head(10, 1), &set(9, 0x61)])?, "least");
    assert!(rt; are_whole(alloc, &[&head(most, 1), &set(most - 1, 0x61)])?);
    assert!(rt;
        !are_whole(alloc, &[&head(most + 1, 1), &set(most, 0x61)])?,
        "most"
    );
    assert!(rt; are_whole(alloc, &[&head(most, 0)])?);
    assert!(rt;
        !are_whole(alloc, &[&head(most + 1, 0)])?,
        "most with no key"
    );
    Ok(())
}

#[test]
fn keys_ascend(rt: HostRuntime) -> Result<(), NoMemory> {
    let alloc = rt.alloc();
    let two = head(13, 2);
    assert!(rt; are_whole(alloc, &[&two, &set(11, 0x61), &set(12, 0x62)])?);
    assert!(rt;
        !are_whole(alloc, &[&two, &set(11, 0x62), &set(12, 0x61)])?,
        "order"
    );
    assert!(rt;
        !are_whole(alloc, &[&two, &set(11, 0x61), &set(12, 0x61)])?,
        "twice"
    );
    assert!(rt;
        !are_whole(alloc, &[&two, &set(11, 0x61), &set(13, 0x62)])?,
        "numbers"
    );
    Ok(())
}

#[test]
fn each_batch_is_one_set_as_it_is_written(rt: HostRuntime) -> Result<(), NoMemory> {
    let alloc = rt.alloc();
    let delete = [12, 0, 0, 0, 0, 0, 0, 0, 1, 0, 0, 0, 0, 1, 0x61];
    let longer = [
        12, 0, 0, 0, 0, 0, 0, 0, 1, 0, 0, 0, 1, 0x81, 0, 0x61, 1, 0x31,
    ];
    let noted = [
        12, 0, 0, 0, 0, 0, 0, 0, 1, 0, 0, 0, 1, 1, 0x61, 1, 0x31, 3, 0,
    ];
    let both = [
        11, 0, 0, 0, 0, 0, 0, 0, 2, 0, 0, 0, 1, 1, 0x61, 1, 0x31, 1, 1, 0x62, 1, 0x31,
    ];
    assert!(rt; !are_whole(alloc, &[&head(13, 1), &delete])?, "delete");
    assert!(rt; !are_whole(alloc, &[&head(13, 1), &longer])?, "longer");
    assert!(rt; !are_whole(alloc, &[&head(13, 1), &noted])?, "note");
    assert!(rt; !are_whole(alloc, &[&head(12, 1), &both])?, "two as one");
    assert!(rt; !are_whole(alloc, &[&head(13, 2), &both])?, "two as two");
    Ok(())
}
