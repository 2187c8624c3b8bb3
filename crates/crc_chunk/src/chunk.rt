//! One chunk: its header, its writing, and its finding.

ghost use Rattle.crc_chunk.specs.declared.chunk.TheConstants.{BLOCK, HEADER, SYNC_HEADER};
ghost use Rattle.std.specs.Prelude.{◌≡◌, ◌+◌, ◌≤◌, ◌++◌, ◌^◌, ℕ, List, Bool, true, Option, Some, None, is_some, length, drop, IfSome, IfNone};
ghost use Rattle.std.specs.List.{slice_range};
ghost use Rattle.std.specs.Int.{w16, w32, w64, to_le_bytes};
ghost use Rattle.crc_chunk.specs.Bytes.{StandsAt};
ghost use Rattle.crc_chunk.specs.declared.chunk.ChunkKind.{ChunkKind};
ghost use Rattle.crc_chunk.specs.Chunk.{type_byte, OffsetFits, offset_bytes, header_with, Chunk, old_chunk, sync_chunk, chunk_of, chunk_bytes, ChunkAt, IsSpanAt};

use crate::crc::{ONES, crc32c, extended, masked};

/// How many bytes of a chunk without a sync offset stand before its payload.
///
/// The checksum has four, the payload's length two, the type one and the log number four.
pub const HEADER: usize = 11;

/// How many bytes of a sync chunk stand before its payload: those of `HEADER`, and eight of the sync offset.
pub const SYNC_HEADER: usize = 19;

/// How many bytes a block of a log has. No chunk crosses from one block into the next.
pub const BLOCK: usize = 32_768;

/// Which part of a record a chunk holds.
#[derive(Clone, Copy, Debug, PartialEq, Eq)]
pub enum ChunkKind {
    /// A whole record.
    Full,
    /// The beginning of a record.
    First,
    /// A part with others before and after it.
    Middle,
    /// The end of a record.
    Last,
}

/// A chunk that was found: its kind, where its payload lies in its block, and its sync offset.
#[derive(Clone, Copy, Debug, PartialEq, Eq)]
pub struct ChunkSpan {
    /// Which part of a record it holds.
    pub kind: ChunkKind,
    /// The place of the payload's first byte, counted from the block's first.
    pub from: usize,
    /// The place after the payload's last byte, where the next chunk may begin.
    pub to: usize,
    /// How many bytes of its segment a completed sync covered as it was written, if it is a sync chunk.
    pub offset: Option<u64>,
}

/// What the byte of a type says.
#[derive(Clone, Copy)]
struct Form {
    kind: ChunkKind,
    is_sync: bool,
}

/// The byte that says this kind, of a sync chunk or of one without a sync offset.
fn byte_of(kind: ChunkKind, is_sync: bool) -> u8
    ensures { result ≡ type_byte kind is_sync }
{
    match (kind, is_sync) {
        (ChunkKind::Full, false) => 5,
        (ChunkKind::First, false) => 6,
        (ChunkKind::Middle, false) => 7,
        (ChunkKind::Last, false) => 8,
        (ChunkKind::Full, true) => 9,
        (ChunkKind::First, true) => 10,
        (ChunkKind::Middle, true) => 11,
        (ChunkKind::Last, true) => 12,
    }
}

/// What a byte says as a type, if it says something.
fn form_of(byte: u8) -> Option<Form>
    ensures found { IfSome result (λ form. type_byte form.kind form.is_sync ≡ byte) }
    ensures none { IfNone result ((kind : ChunkKind) (is_sync : Bool) → ¬ type_byte kind is_sync ≡ byte) }
{
    let (kind, is_sync) = match byte {
        5 => (ChunkKind::Full, false),
        6 => (ChunkKind::First, false),
        7 => (ChunkKind::Middle, false),
        8 => (ChunkKind::Last, false),
        9 => (ChunkKind::Full, true),
        10 => (ChunkKind::First, true),
        11 => (ChunkKind::Middle, true),
        12 => (ChunkKind::Last, true),
        _ => return None,
    };
    Some(Form { kind, is_sync })
}

/// How many bytes stand before the payload of a chunk of this form.
fn header_size(is_sync: bool) -> usize
    ensures is { (offset : Option ℕ) → is_some offset ≡ is_sync → result ≡ header_with offset }
    ensures sync { is_sync ≡ true → result ≡ SYNC_HEADER }
    ensures least { HEADER ≤ result }
    ensures most { result ≤ SYNC_HEADER }
{
    if is_sync { SYNC_HEADER } else { HEADER }
}

/// The number of two bytes, the lowest first.
fn u16_at(bytes: &[u8], at: usize) -> u16
    requires { at + 2 ≤ length bytes.now }
    ensures { StandsAt bytes.now at (to_le_bytes w16 result) }
{
    u16::from_le_bytes([bytes[at], bytes[at + 1]])
}

/// The number of four bytes, the lowest first.
fn u32_at(bytes: &[u8], at: usize) -> u32
    requires { at + 4 ≤ length bytes.now }
    ensures { StandsAt bytes.now at (to_le_bytes w32 result) }
{
    u32::from_le_bytes([bytes[at], bytes[at + 1], bytes[at + 2], bytes[at + 3]])
}

/// The number of eight bytes, the lowest first.
fn u64_at(bytes: &[u8], at: usize) -> u64
    requires { at + 8 ≤ length bytes.now }
    ensures { StandsAt bytes.now at (to_le_bytes w64 result) }
{
    u64::from_le_bytes([
        bytes[at],
        bytes[at + 1],
        bytes[at + 2],
        bytes[at + 3],
        bytes[at + 4],
        bytes[at + 5],
        bytes[at + 6],
        bytes[at + 7],
    ])
}

/// The sync offset that stands at a place, where the chunk has one.
fn offset_at(bytes: &[u8], at: usize, is_sync: bool) -> Option<u64>
    requires { is_sync ≡ true → at + 8 ≤ length bytes.now }
    ensures form { is_some result ≡ is_sync }
    ensures fits { OffsetFits result }
    ensures stands { StandsAt bytes.now at (offset_bytes result) }
{
    if is_sync {
        Some(u64_at(bytes, at))
    } else {
        None
    }
}

/// The eleven bytes of a chunk without a sync offset that stand before its payload.
fn header_of(kind: ChunkKind, log: u32, payload: &[u8]) -> [u8; 11]
    requires { HEADER + length payload.now ≤ BLOCK }
    ensures len { length result ≡ HEADER }
    ensures bytes { result ++ payload.now ≡ chunk_bytes log (old_chunk kind payload.now) }
{
    let kind = byte_of(kind, false);
    let log = log.to_le_bytes();
    let len = (payload.len() as u16).to_le_bytes();
    let head = extended(ONES, &[kind, log[0], log[1], log[2], log[3]]);
    let crc = masked(!extended(head, payload)).to_le_bytes();
    [
        crc[0], crc[1], crc[2], crc[3], len[0], len[1], kind, log[0], log[1], log[2], log[3],
    ]
}

/// The nineteen bytes of a sync chunk that stand before its payload, which is not copied.
///
/// The log number is the lowest 32 bits of the log's. The payload has at most `BLOCK - SYNC_HEADER` bytes.
pub fn sync_header_of(kind: ChunkKind, log: u32, offset: u64, payload: &[u8]) -> [u8; 19]
    requires { SYNC_HEADER + length payload.now ≤ BLOCK }
    ensures len { length result ≡ SYNC_HEADER }
    ensures bytes { result ++ payload.now ≡ chunk_bytes log (sync_chunk kind offset payload.now) }
{
    let kind = byte_of(kind, true);
    let log = log.to_le_bytes();
    let len = (payload.len() as u16).to_le_bytes();
    let at = offset.to_le_bytes();
    let head = extended(
        ONES,
        &[
            kind, log[0], log[1], log[2], log[3], at[0], at[1], at[2], at[3], at[4], at[5], at[6],
            at[7],
        ],
    );
    let crc = masked(!extended(head, payload)).to_le_bytes();
    [
        crc[0], crc[1], crc[2], crc[3], len[0], len[1], kind, log[0], log[1], log[2], log[3],
        at[0], at[1], at[2], at[3], at[4], at[5], at[6], at[7],
    ]
}

/// Writes a chunk without a sync offset at the front of `out`, leaves the rest, and answers how many bytes it took.
///
/// That is `HEADER` and the payload's length. The payload has at most `BLOCK - HEADER` bytes.
pub fn put_chunk(out: &mut [u8], kind: ChunkKind, log: u32, payload: &[u8]) -> usize
    requires payload { HEADER + length payload.now ≤ BLOCK }
    requires room { HEADER + length payload.now ≤ length out.old }
    ensures taken { result ≡ HEADER + length payload.now }
    ensures written { out.new ≡ chunk_bytes log (old_chunk kind payload.now) ++ drop result out.old }
{
    let end = HEADER + payload.len();
    let header = header_of(kind, log, payload);
    out[..HEADER].copy_from_slice(&header);
    out[HEADER..end].copy_from_slice(payload);
    end
}

/// Writes a sync chunk at the front of `out`, leaves the rest, and answers how many bytes it took.
///
/// That is `SYNC_HEADER` and the payload's length. The payload has at most `BLOCK - SYNC_HEADER` bytes.
pub fn put_sync_chunk(
    out: &mut [u8],
    kind: ChunkKind,
    log: u32,
    offset: u64,
    payload: &[u8],
) -> usize
    requires payload { SYNC_HEADER + length payload.now ≤ BLOCK }
    requires room { SYNC_HEADER + length payload.now ≤ length out.old }
    ensures taken { result ≡ SYNC_HEADER + length payload.now }
    ensures written { out.new ≡ chunk_bytes log (sync_chunk kind offset payload.now) ++ drop result out.old }
{
    let end = SYNC_HEADER + payload.len();
    let header = sync_header_of(kind, log, offset, payload);
    out[..SYNC_HEADER].copy_from_slice(&header);
    out[SYNC_HEADER..end].copy_from_slice(payload);
    end
}

/// The chunk of this log number that stands at the place `at` of a block, if one does.
///
/// `block` is a block from its first byte on, or the beginning of one, where a log was cut off. None says that
/// no chunk of this log stands there: too few bytes are left, the log number is another's, the type is none of
/// the eight, or the checksum does not fit.
pub fn chunk_at(block: &[u8], at: usize, log: u32) -> Option<ChunkSpan>
    requires { length block.now ≤ BLOCK }
    ensures found { IfSome result (λ span. ChunkAt block.now at log (chunk_of block.now span)) }
    ensures place { IfSome result (IsSpanAt block.now at) }
    ensures none { IfNone result ((c : Chunk) → ¬ ChunkAt block.now at log c) }
{
    if block.len().saturating_sub(at) < HEADER {
        return None;
    }
    let Some(form) = form_of(block[at + 6]) else {
        return None;
    };
    let from = at + header_size(form.is_sync);
    let to = from + usize::from(u16_at(block, at + 4));
    if block.len() < to {
        return None;
    }
    if u32_at(block, at + 7) != log {
        return None;
    }
    if masked(crc32c(&block[at + 6..to])) != u32_at(block, at) {
        return None;
    }
    let offset = offset_at(block, at + HEADER, form.is_sync);
    Some(ChunkSpan {
        kind: form.kind,
        from,
        to,
        offset,
    })
}
