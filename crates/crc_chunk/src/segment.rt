//! A chunk in its segment: the place is counted from the segment's first byte, and the block is found by it.

ghost use Rattle.std.specs.Prelude.{IfSome, IfNone};
ghost use Rattle.crc_chunk.specs.Chunk.{Chunk, chunk_of, ChunkAt, IsSpanAt};

use crate::chunk::{BLOCK, ChunkSpan, chunk_at};

/// The chunk of this log number that stands at the place `at` of a segment, if one does.
///
/// All places are counted from the segment's first byte. None says what it says of `chunk_at`.
pub fn chunk_in(segment: &[u8], at: usize, log: u32) -> Option<ChunkSpan>
    ensures found { IfSome result (λ span. ChunkAt segment.now at log (chunk_of segment.now span)) }
    ensures place { IfSome result (IsSpanAt segment.now at) }
    ensures none { IfNone result ((c : Chunk) → ¬ ChunkAt segment.now at log c) }
{
    let start = at - at % BLOCK;
    let rest = &segment[start.min(segment.len())..];
    let block = &rest[..rest.len().min(BLOCK)];
    let Some(span) = chunk_at(block, at % BLOCK, log) else {
        return None;
    };
    Some(ChunkSpan {
        kind: span.kind,
        from: start + span.from,
        to: start + span.to,
        offset: span.offset,
    })
}
