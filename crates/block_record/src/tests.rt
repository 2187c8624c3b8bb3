use crate::{Framer, ReadOut, Shown, read_out, read_out_shared};
use crc_chunk::{ChunkKind, put_chunk, put_sync_chunk};
use std::process::Abort;
use wal_base::{Buf, NoMemory};

/// After a checksum, from this place on, there are a payload's length, a type and the log number 1.
fn stands(rt: &impl Abort, bytes: &[u8], from: usize, len: u16, kind: u8) {
    let len = len.to_le_bytes();
    match bytes.get(from..) {
        Some(rest) => assert!(rt; rest.starts_with(&[len[0], len[1], kind, 1, 0, 0, 0])),
        None => panic!(rt; "too short for {from}"),
    }
}

#[test]
fn a_record_in_one_chunk(rt: HostRuntime) -> Result<(), NoMemory> {
    let record: [u8; 17] = [0x0a, 0, 0, 0, 0, 0, 0, 0, 1, 0, 0, 0, 1, 1, 0x61, 1, 0x31];
    let header = [
        0x1a, 0x4a, 0xb2, 0xe4, 0x11, 0, 9, 1, 0, 0, 0, 0, 0, 0, 0, 0, 0, 0, 0,
    ];
    let mut out = Buf::new(rt.alloc())?;
    let mut framer = Framer::new(1);
    assert_eq!(rt; framer.framed_len(17), 36);
    framer.frame(&record, 0, &mut out)?;
    assert_eq!(rt; &out.as_slice()[..19], header.as_slice());
    assert_eq!(rt; &out.as_slice()[19..], record.as_slice());
    let read = read_out(rt.alloc(), 1, out.as_slice())?;
    assert_eq!(rt;
        (read.records.len(), read.ends_at, read.torn, read.shown),
        (1, 36, false, None)
    );
    if let Some(first) = read.records.get(0) {
        assert_eq!(rt; first.at, 0);
        assert_eq!(rt; first.bytes.as_slice(), record.as_slice());
    }
    let other = read_out(rt.alloc(), 2, out.as_slice())?;
    assert_eq!(rt;
        (other.records.len(), other.ends_at, other.torn),
        (0, 0, true)
    );
    Ok(())
}

// The chunk without a sync offset, as another engine writes it.
#[test]
fn a_record_of_the_old_form(rt: HostRuntime) -> Result<(), NoMemory> {
    let record: [u8; 17] = [0x0a, 0, 0, 0, 0, 0, 0, 0, 1, 0, 0, 0, 1, 1, 0x61, 1, 0x31];
    let mut segment = [0; 28];
    put_chunk(&mut segment, ChunkKind::Full, 1, &record);
    let read = read_out(rt.alloc(), 1, &segment)?;
    assert_eq!(rt;
        (read.records.len(), read.ends_at, read.torn, read.shown),
        (1, 28, false, None)
    );
    Ok(())
}

/// What is read of a copy that its records share.
fn read_shared(rt: &HostRuntime, bytes: &Buf) -> Result<ReadOut, NoMemory> {
    let bytes = Vec::from_slice(rt.alloc(), bytes.as_slice())?;
    read_out_shared(rt.alloc(), 1, bytes)
}

#[test]
fn records_that_share_their_segment(rt: HostRuntime) -> Result<(), NoMemory> {
    let mut long = [0; 70_000];
    for (at, byte) in long.iter_mut().enumerate() {
        *byte = (at % 251) as u8;
    }
    let mut out = Buf::new(rt.alloc())?;
    let mut framer = Framer::new(1);
    for record in [&long[..17], &long, &long[..17]] {
        framer.frame(record, 0, &mut out)?;
    }
    out.append(&[0, 1])?;
    let read = read_shared(&rt, &out)?;
    assert_eq!(rt;
        (read.records.len(), read.ends_at, read.torn),
        (3, 70_129, true)
    );
    for (record, at, len) in [(0, 0, 17), (1, 36, 70_000), (2, 70_093, 17)] {
        match read.records.get(record) {
            Some(found) => {
                assert_eq!(rt; found.at, at);
                assert_eq!(rt; Some(found.bytes.as_slice()), long.get(..len));
            }
            None => panic!(rt; "record {record} is missing"),
        }
    }
    out.truncate(65_536);
    let cut = read_shared(&rt, &out)?;
    assert_eq!(rt; (cut.records.len(), cut.ends_at, cut.torn), (1, 36, true));
    out.truncate(36);
    out.append(&[0; 11])?;
    let zeros = read_shared(&rt, &out)?;
    assert_eq!(rt;
        (zeros.records.len(), zeros.ends_at, zeros.torn),
        (1, 36, false)
    );
    Ok(())
}

#[test]
fn lengths_at_a_blocks_end(rt: HostRuntime) {
    let framer = Framer::new(1);
    for (record, framed) in [
        (0, 19),
        (32_730, 32_749),
        (32_731, 32_768),
        (32_749, 32_768),
        (32_750, 32_788),
        (70_000, 70_057),
    ] {
        assert_eq!(rt; framer.framed_len(record), framed, "of {record}");
    }
}

#[test]
fn a_first_chunk_without_payload(rt: HostRuntime) -> Result<(), NoMemory> {
    let record = [1; 32_730];
    let mut out = Buf::new(rt.alloc())?;
    let mut framer = Framer::new(1);
    framer.frame(&record, 0, &mut out)?;
    assert_eq!(rt; out.as_slice().len(), 32_749);
    assert_eq!(rt; framer.framed_len(17), 55);
    framer.frame(&record[..17], 0, &mut out)?;
    assert_eq!(rt; out.as_slice().len(), 32_804);
    for (from, len, kind) in [(4, 32_730, 9), (32_753, 0, 10), (32_772, 17, 12)] {
        stands(&rt, out.as_slice(), from, len, kind);
    }
    let read = read_out(rt.alloc(), 1, out.as_slice())?;
    assert_eq!(rt;
        (read.records.len(), read.ends_at, read.torn),
        (2, 32_804, false)
    );
    if let Some(second) = read.records.get(1) {
        assert_eq!(rt; (second.at, second.bytes.as_slice().len()), (32_749, 17));
    }
    Ok(())
}

#[test]
fn a_record_over_three_blocks(rt: HostRuntime) -> Result<(), NoMemory> {
    let record = [1; 70_000];
    let mut out = Buf::new(rt.alloc())?;
    Framer::new(1).frame(&record, 0, &mut out)?;
    assert_eq!(rt; out.as_slice().len(), 70_057);
    for (from, len, kind) in [(4, 32_749, 10), (32_772, 32_749, 11), (65_540, 4_502, 12)] {
        stands(&rt, out.as_slice(), from, len, kind);
    }
    let read = read_out(rt.alloc(), 1, out.as_slice())?;
    assert_eq!(rt;
        (read.records.len(), read.ends_at, read.torn),
        (1, 70_057, false)
    );
    out.truncate(65_536);
    let cut = read_out(rt.alloc(), 1, out.as_slice())?;
    assert_eq!(rt; (cut.records.len(), cut.ends_at, cut.torn), (0, 0, true));
    Ok(())
}

#[test]
fn zeros_at_a_blocks_end(rt: HostRuntime) -> Result<(), NoMemory> {
    let record = [1; 32_750];
    let mut out = Buf::new(rt.alloc())?;
    let mut framer = Framer::new(1);
    framer.frame(&record[..32_731], 0, &mut out)?;
    assert!(rt;
        out.as_slice()
            .ends_with(&[1, 0, 0, 0, 0, 0, 0, 0, 0, 0, 0, 0, 0, 0, 0, 0, 0, 0, 0])
    );
    out.clear();
    framer.frame(&record[..32_749], 0, &mut out)?;
    assert!(rt; out.as_slice().ends_with(&[1]));
    Ok(())
}

/// What is read of a segment of which this byte is changed: how many records, and what shows it corrupt.
fn read_changed(
    rt: &HostRuntime,
    out: &Buf,
    at: usize,
) -> Result<(usize, Option<Shown>), NoMemory> {
    let mut bytes = Vec::from_slice(rt.alloc(), out.as_slice())?;
    if let Some(byte) = bytes.get_mut(at) {
        *byte ^= 1;
    }
    let read = read_out(rt.alloc(), 1, bytes.as_slice())?;
    Ok((read.records.len(), read.shown))
}

#[test]
fn a_later_chunk_shows_what_is_corrupt(rt: HostRuntime) -> Result<(), NoMemory> {
    let record = [1; 40_000];
    let mut out = Buf::new(rt.alloc())?;
    let mut framer = Framer::new(1);
    framer.frame(&record[..17], 0, &mut out)?;
    framer.frame(&record, 36, &mut out)?;
    let shown = |at| Some(Shown {
        at,
        shown_at: 32_768,
    });
    // The first record is broken: the second one's chunk in the next block was written when 36 bytes were synced.
    assert_eq!(rt; read_changed(&rt, &out, 20)?, (0, shown(0)));
    // The second record is broken, of which nothing was synced.
    assert_eq!(rt; read_changed(&rt, &out, 60)?, (1, None));
    // A chunk without a sync offset at the block's front is walked over.
    let mut chunk = [0; 20];
    out.truncate(32_768);
    put_chunk(&mut chunk, ChunkKind::Middle, 1, b"abc");
    out.append(&chunk[..14])?;
    put_sync_chunk(&mut chunk, ChunkKind::Full, 1, 1, b"d");
    out.append(&chunk)?;
    put_sync_chunk(&mut chunk, ChunkKind::Full, 1, 9, b"e");
    out.append(&chunk)?;
    out.append(&[0; 46])?;
    assert_eq!(rt;
        read_changed(&rt, &out, 20)?,
        (
            0,
            Some(Shown {
                at: 0,
                shown_at: 32_782
            })
        )
    );
    assert_eq!(rt; read_changed(&rt, &out, 60)?, (1, None));
    Ok(())
}

// After a chunk without a sync offset one more may stand where eighteen bytes are left; after a sync chunk none is looked for.
#[test]
fn both_forms_at_a_blocks_end(rt: HostRuntime) -> Result<(), NoMemory> {
    let payload = [1; 32_739];
    for (sync, records) in [(false, 3), (true, 2)] {
        let mut segment = [0; 32_820];
        let end = if sync {
            put_sync_chunk(&mut segment, ChunkKind::Full, 1, 0, &payload[..32_731])
        } else {
            put_chunk(&mut segment, ChunkKind::Full, 1, &payload)
        };
        assert_eq!(rt; end, 32_750);
        put_chunk(&mut segment[32_750..], ChunkKind::Full, 1, b"1234567");
        put_sync_chunk(&mut segment[32_768..], ChunkKind::Full, 1, 0, b"1");
        let read = read_out(rt.alloc(), 1, &segment)?;
        assert_eq!(rt; (read.records.len(), read.ends_at), (records, 32_788));
    }
    Ok(())
}
