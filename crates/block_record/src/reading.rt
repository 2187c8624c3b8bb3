//! The reader of a segment: it goes from chunk to chunk while one stands there that may follow, and then looks for a
//! later chunk that shows the bytes there to be corrupt.

ghost use Rattle.crc_chunk.specs.declared.chunk.TheConstants.{BLOCK};
ghost use Rattle.std.specs.Prelude.{◌≡◌, ◌↔◌, ℕ, ◌+◌, ◌-◌, ◌<◌, ◌≤◌, ◌^◌, length, IsTrue, IfOk, IfSome, IfNone, IsSomeAnd, not, ◌||◌, ◌==◌};
ghost use Rattle.std.specs.List.{list_any};
ghost use Rattle.block_record.specs.ReadOut.{MayFollow, leaves_open, ReadsOut, NoChunkAt, TellsShown};
ghost use Rattle.block_record.specs.Promises.{IsChunkFound, IsFoundAt, NoChunkFollows, place_behind};

use crate::joining::{Found, Joining};
use crate::records::{ReadOut, Shown};
use crc_chunk::{BLOCK, ChunkKind, HEADER, SYNC_HEADER};
use std::alloc::Global;
use wal_base::NoMemory;

/// The chunk of this log number that stands at a place of a segment, if one does.
fn chunk_in(bytes: &[u8], at: usize, log: u32) -> Option<Found>
    ensures found { IfSome result (IsChunkFound bytes.now log at) }
    ensures place { IfSome result (IsFoundAt bytes.now at) }
    ensures none { IfNone result (NoChunkAt bytes.now at log) }
{
    let span = crc_chunk::chunk_in(bytes, at, log)?;
    Some(Found {
        kind: span.kind,
        offset: span.offset,
        at,
        from: span.from,
        end: span.to,
    })
}

/// Where the next chunk would stand: right after this one, or at the next block where a header of its form does not fit.
fn place_after(found: &Found) -> usize
    requires { found.now.end < 2 ^ 63 }
    ensures { result ≡ place_behind found.now }
{
    let asked = match found.offset {
        None => HEADER,
        Some(_) => SYNC_HEADER,
    };
    let left = BLOCK - found.end % BLOCK;
    if left < asked {
        found.end + left
    } else {
        found.end
    }
}

/// Whether a chunk of this kind may follow where a record is open, or where none is.
fn may_follow(is_open: bool, kind: ChunkKind) -> bool
    ensures { IsTrue result ↔ MayFollow is_open kind }
{
    match kind {
        ChunkKind::Full | ChunkKind::First => !is_open,
        ChunkKind::Middle | ChunkKind::Last => is_open,
    }
}

/// Whether a record is open after a chunk of this kind.
fn opens(kind: ChunkKind) -> bool
    ensures { result ≡ leaves_open kind }
{
    match kind {
        ChunkKind::Full | ChunkKind::Last => false,
        ChunkKind::First | ChunkKind::Middle => true,
    }
}

/// The next chunk of the chain, which stands at this place, if the segment does not end here.
fn following(bytes: &[u8], at: usize, log: u32, is_open: bool) -> Option<Found>
    ensures follows { IfSome result (λ found. MayFollow is_open found.kind) }
    ensures found { IfSome result (IsChunkFound bytes.now log at) }
    ensures place { IfSome result (IsFoundAt bytes.now at) }
    ensures none { IfNone result (NoChunkFollows bytes.now log at is_open) }
{
    let found = chunk_in(bytes, at, log)?;
    if may_follow(is_open, found.kind) {
        Some(found)
    } else {
        None
    }
}

/// Whether a byte is not zero.
fn has_nonzero(bytes: &[u8]) -> bool
    ensures { result ≡ list_any (λ b. not (b == 0)) bytes.now }
{
    bytes.iter().any(|byte| *byte != 0)
}

/// Whether a byte after the last record is not zero. A record that is open has a header there, which is not.
fn is_torn(is_open: bool, rest: &[u8]) -> bool
    ensures { result ≡ (is_open || list_any (λ b. not (b == 0)) rest.now) }
{
    is_open || has_nonzero(rest)
}

/// Whether this chunk was written when a sync had covered more than the bytes before a place.
fn is_beyond(offset: Option<u64>, stopped: usize) -> bool
    ensures { IsTrue result ↔ IsSomeAnd offset (λ covered. stopped < covered) }
{
    match offset {
        None => false,
        Some(offset) => offset > stopped as u64,
    }
}

/// What shows that the bytes at which reading stopped are corrupt, if something does.
///
/// Each block that begins after them is walked over once, from its front to the first place where no chunk stands.
fn find_shown(bytes: &[u8], stopped: usize, log: u32) -> Option<Shown>
    requires { stopped ≤ length bytes.now + BLOCK }
    ensures { TellsShown bytes.now log stopped result }
{
    let mut at = stopped - stopped % BLOCK + BLOCK;
    while at < bytes.len() {
        match chunk_in(bytes, at, log) {
            None => at = at - at % BLOCK + BLOCK,
            Some(found) => {
                if is_beyond(found.offset, stopped) {
                    return Some(Shown {
                        at: stopped as u64,
                        shown_at: at as u64,
                    });
                }
                at = found.end;
            }
        }
    }
    None
}

/// Reads a segment of this log number, and lets the records share its bytes.
///
/// It reads what `read_out` reads, and holds the bytes that were passed but once, save for a piece of about a mebibyte:
/// the fragments of a record that goes over several chunks are moved together in them, and then they are cut into such
/// pieces. Records share the piece that they stand in, and its memory comes back with the last of them.
pub fn read_out_shared(alloc: Global, log: u32, bytes: Vec<u8>) -> Result<ReadOut, NoMemory>
    ensures { IfOk result (ReadsOut bytes.items log) }
{
    let mut joining = Joining::new(alloc, bytes);
    let mut is_open = false;
    let mut end = 0;
    let mut at = 0;
    while let Some(chunk) = following(joining.bytes(), at, log, is_open) {
        joining.take(chunk)?;
        is_open = opens(chunk.kind);
        end = chunk.end;
        at = place_after(&chunk);
    }
    let torn = is_torn(is_open, &joining.bytes()[end..]);
    let shown = find_shown(joining.bytes(), at, log);
    joining.into_read_out(alloc, torn, shown)
}

/// Reads a segment of this log number: the whole records of its longest chain of chunks.
///
/// The segment ends at the first place where no chunk stands that may follow, whatever the bytes from there on
/// are. A record that has begun and has not ended there is not among the records. That is no error: only running
/// out of memory is.
pub fn read_out(alloc: Global, log: u32, bytes: &[u8]) -> Result<ReadOut, NoMemory>
    ensures { IfOk result (ReadsOut bytes.now log) }
{
    let bytes = Vec::from_slice(alloc, bytes)?;
    read_out_shared(alloc, log, bytes)
}
