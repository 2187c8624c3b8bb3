use crate::{
    ChunkKind, ChunkSpan, HEADER, SYNC_HEADER, chunk_at, chunk_in, crc32c, masked, put_chunk,
    put_sync_chunk,
};
use std::alloc::Global;
use std::process::Abort;

/// The bytes that another program, which goes bit by bit, took the checksums of.
const BYTES: [u8; 40] = [
    11, 48, 85, 122, 159, 196, 233, 14, 51, 88, 125, 162, 199, 236, 17, 54, 91, 128, 165, 202, 239,
    20, 57, 94, 131, 168, 205, 242, 23, 60, 97, 134, 171, 208, 245, 26, 63, 100, 137, 174,
];

/// What it gave for the first 0, 1, 2, .. of them.
const BY_LENGTH: [u32; 41] = [
    0x00000000, 0xcbf4f86a, 0x68715542, 0x96818180, 0xca67959d, 0xb38c4433, 0x756ad48b, 0xd2f5da10,
    0xee89dec3, 0xa1fdb5fa, 0x11ac6bb5, 0x1b388131, 0xd39e6433, 0x665a355f, 0xf35e8859, 0x992c48aa,
    0x8d0f4cde, 0xe5f77379, 0xd944109b, 0xce3fe1d7, 0xfdc5e70c, 0xa2e0cd58, 0x5ee761f0, 0xe91c4938,
    0x15f33b92, 0xb05de406, 0x5cfe0434, 0xd9fd19ec, 0xee82d600, 0x96077203, 0x3c1b21b6, 0x5558cd30,
    0xc69c9ebd, 0x6444ef48, 0x4a68b366, 0xd3cf3401, 0xdb79f031, 0xfede9586, 0x50885529, 0xf0666ea2,
    0x1fcefaef,
];

const PAYLOAD: [u8; 17] = [0x0a, 0, 0, 0, 0, 0, 0, 0, 1, 0, 0, 0, 1, 1, 0x61, 1, 0x31];

#[test]
fn checksums_of_the_examples(rt: HostRuntime) {
    let rising: [u8; 32] = [
        0, 1, 2, 3, 4, 5, 6, 7, 8, 9, 10, 11, 12, 13, 14, 15, 16, 17, 18, 19, 20, 21, 22, 23, 24,
        25, 26, 27, 28, 29, 30, 31,
    ];
    let falling: [u8; 32] = [
        31, 30, 29, 28, 27, 26, 25, 24, 23, 22, 21, 20, 19, 18, 17, 16, 15, 14, 13, 12, 11, 10, 9,
        8, 7, 6, 5, 4, 3, 2, 1, 0,
    ];
    assert_eq!(rt; crc32c(b""), 0);
    assert_eq!(rt; crc32c(b"123456789"), 0xe306_9283);
    assert_eq!(rt; crc32c(&[0; 32]), 0x8a91_36aa);
    assert_eq!(rt; crc32c(&[0xff; 32]), 0x62a8_ab43);
    assert_eq!(rt; crc32c(&rising), 0x46dd_794e);
    assert_eq!(rt; crc32c(&falling), 0x113f_db5c);
    assert_eq!(rt; crc32c(&[5, 1, 0, 0, 0]), 0x4063_0d91);
    assert_eq!(rt; masked(0), 0xa282_ead8);
    assert_eq!(rt; masked(0xe306_9283).to_le_bytes(), [0xe5, 0xb0, 0x8a, 0xc7]);
}

// Each number of bytes that can be left after the turns of sixteen and eight.
#[test]
fn checksums_at_each_length(rt: HostRuntime) {
    for len in 0..=BYTES.len() {
        assert_eq!(rt; crc32c(&BYTES[..len]), BY_LENGTH[len], "at {len}");
    }
}

#[test]
fn chunks_of_the_examples(rt: HostRuntime) {
    let empty = [0x9e, 0x6b, 0xa5, 0xbd, 0, 0, 5, 1, 0, 0, 0];
    let header = [0x5e, 0x28, 0x29, 0x10, 0x11, 0, 5, 1, 0, 0, 0];
    let mut block = [0; 32];
    assert_eq!(rt; put_chunk(&mut block, ChunkKind::Full, 1, b""), 11);
    assert_eq!(rt; &block[..HEADER], empty.as_slice());
    assert_eq!(rt; put_chunk(&mut block, ChunkKind::Full, 1, &PAYLOAD), 28);
    assert_eq!(rt; &block[..HEADER], header.as_slice());
    assert_eq!(rt; &block[HEADER..28], PAYLOAD.as_slice());
    let span = ChunkSpan {
        kind: ChunkKind::Full,
        from: 11,
        to: 28,
        offset: None,
    };
    assert_eq!(rt; chunk_at(&block, 0, 1), Some(span));
    assert_eq!(rt; chunk_at(&block, 0, 2), None);
}

// The checksums are those that another program gave.
#[test]
fn sync_chunks_of_the_examples(rt: HostRuntime) {
    for (offset, crc) in [
        (0, 0xe4b2_4a1a),
        (28, 0x8514_0230),
        (u64::MAX, 0x9e8f_e36d_u32),
    ] {
        let mut block = [7; 40];
        assert_eq!(rt;
            put_sync_chunk(&mut block, ChunkKind::Full, 1, offset, &PAYLOAD),
            36
        );
        assert_eq!(rt; &block[..4], crc.to_le_bytes().as_slice());
        assert_eq!(rt; &block[4..11], [17, 0, 9, 1, 0, 0, 0].as_slice());
        assert_eq!(rt; &block[11..SYNC_HEADER], offset.to_le_bytes().as_slice());
        assert_eq!(rt; &block[SYNC_HEADER..36], PAYLOAD.as_slice());
        assert_eq!(rt; &block[36..], [7; 4].as_slice());
        let span = ChunkSpan {
            kind: ChunkKind::Full,
            from: 19,
            to: 36,
            offset: Some(offset),
        };
        assert_eq!(rt; chunk_at(&block, 0, 1), Some(span));
        assert_eq!(rt; chunk_at(&block, 0, 2), None);
        for len in 0..36 {
            assert_eq!(rt; chunk_at(&block[..len], 0, 1), None, "of {len}");
        }
        for kind in [5, 6, 7, 8, 10, 11, 12, 13, 0] {
            block[6] = kind;
            assert_eq!(rt; chunk_at(&block, 0, 1), None, "of type {kind}");
        }
        block[6] = 9;
        block[12] ^= 1;
        assert_eq!(rt; chunk_at(&block, 0, 1), None);
    }
}

#[test]
fn each_type_of_a_chunk(rt: HostRuntime) {
    for (kind, old, sync) in [
        (ChunkKind::Full, 5, 9),
        (ChunkKind::First, 6, 10),
        (ChunkKind::Middle, 7, 11),
        (ChunkKind::Last, 8, 12),
    ] {
        let mut block = [0; 24];
        put_chunk(&mut block, kind, 1, b"abcde");
        assert_eq!(rt; block[6], old);
        assert_eq!(rt;
            chunk_at(&block, 0, 1).map(|span| (span.kind, span.offset)),
            Some((kind, None))
        );
        put_sync_chunk(&mut block, kind, 1, 3, b"abcde");
        assert_eq!(rt; block[6], sync);
        assert_eq!(rt;
            chunk_at(&block, 0, 1).map(|span| (span.kind, span.offset)),
            Some((kind, Some(3)))
        );
    }
}

/// A block of zeros, and a chunk after it.
fn in_second_block(rt: &impl Abort, alloc: Global, chunk: &[u8]) -> Vec<u8> {
    let mut segment = vec![in alloc; 0u8; 32_768].expect(rt, "memory");
    segment.extend_from_slice(chunk).expect(rt, "memory");
    segment
}

#[test]
fn a_chunk_of_a_second_block(rt: HostRuntime) {
    let mut chunk = [0; 28];
    put_chunk(&mut chunk, ChunkKind::Full, 1, &PAYLOAD);
    let segment = in_second_block(&rt, rt.alloc(), &chunk);
    let span = ChunkSpan {
        kind: ChunkKind::Full,
        from: 32_779,
        to: 32_796,
        offset: None,
    };
    assert_eq!(rt; chunk_in(segment.as_slice(), 32_768, 1), Some(span));
    assert_eq!(rt; chunk_in(segment.as_slice(), 0, 1), None);
    assert_eq!(rt; chunk_in(segment.as_slice(), 32_768, 2), None);
}
