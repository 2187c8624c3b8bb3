//! The writer of records: where it stands, and what it appends.

ghost use Rattle.crc_chunk.specs.declared.chunk.TheConstants.{BLOCK, SYNC_HEADER};
ghost use Rattle.std.specs.Prelude.{◌≡◌, ℕ, ◌+◌, ◌%◌, ◌≤◌, ◌<◌, ◌++◌, length, take, replicate, OnOk, OnErr};
ghost use Rattle.crc_chunk.specs.Chunk.{sync_chunk, chunk_bytes};
ghost use Rattle.block_record.specs.Framing.{fragments, later_fragments, chunks, later_chunks, padding, framed, standing_after};
ghost use Rattle.block_record.specs.Promises.{framed_by, FramesTo};

use crc_chunk::{BLOCK, ChunkKind, SYNC_HEADER, sync_header_of};
use std::marker::Model;
use wal_base::{Buf, NoMemory};

/// The most bytes that a record may have.
pub const RECORD_MAX: usize = 4_194_304;

/// How much of a record one block has room for.
const ROOM: usize = BLOCK - SYNC_HEADER;

/// What fills a block's end where no header fits.
const ZEROS: [u8; 18] = [0; 18];

/// Lays records into the blocks of a segment. Contracts see where it stands. A copy of it tries what is then kept or
/// dropped.
#[derive(Clone, Copy, Debug)]
pub struct Framer {
    log: u32,
    place: usize,
}

impl Model for Framer {
    ghost use Rattle.std.specs.Prelude.{◌+◌, ◌≤◌};
    ghost use Rattle.block_record.specs.Framing.{Standing};
    ghost use Rattle.crc_chunk.specs.declared.chunk.TheConstants.{BLOCK, SYNC_HEADER};

    ghost Value = { Standing };

    ghost view = { λ a. record { log = a.log; place = a.place } };

    ghost invariant = { λ a. a.place + SYNC_HEADER ≤ BLOCK };

    ghost inverse = { λ d. record { log = d.log; place = d.place } };
}

/// Appends one chunk. An error may leave its header.
fn append_chunk(
    out: &mut Buf,
    kind: ChunkKind,
    log: u32,
    offset: u64,
    payload: &[u8],
) -> Result<(), NoMemory>
    requires { SYNC_HEADER + length payload.now ≤ BLOCK }
    ensures ok { OnOk result (out.new ≡ out.old ++ chunk_bytes log (sync_chunk kind offset payload.now)) }
    ensures kept { take (length out.old) out.new ≡ out.old }
{
    out.append(&sync_header_of(kind, log, offset, payload))?;
    out.append(payload)
}

/// Appends the chunks of what is left of a record, from a block's front on.
fn append_later(out: &mut Buf, log: u32, offset: u64, bytes: &[u8]) -> Result<(), NoMemory>
    requires { 0 < length bytes.now }
    ensures ok { OnOk result (out.new ≡ out.old ++ later_chunks log offset (later_fragments bytes.now)) }
    ensures kept { take (length out.old) out.new ≡ out.old }
{
    let mut rest = bytes;
    while rest.len() > ROOM {
        let (part, behind) = rest.split_at(ROOM);
        append_chunk(out, ChunkKind::Middle, log, offset, part)?;
        rest = behind;
    }
    append_chunk(out, ChunkKind::Last, log, offset, rest)
}

/// Appends the chunks of a record that begins at a place of a block.
fn append_chunks(
    out: &mut Buf,
    log: u32,
    place: usize,
    offset: u64,
    bytes: &[u8],
) -> Result<(), NoMemory>
    requires { place + SYNC_HEADER ≤ BLOCK }
    ensures ok { OnOk result (out.new ≡ out.old ++ chunks log offset (fragments place bytes.now)) }
    ensures kept { take (length out.old) out.new ≡ out.old }
{
    let room = ROOM - place;
    if bytes.len() <= room {
        return append_chunk(out, ChunkKind::Full, log, offset, bytes);
    }
    let (first, rest) = bytes.split_at(room);
    append_chunk(out, ChunkKind::First, log, offset, first)?;
    append_later(out, log, offset, rest)
}

/// How many zeros stand after a chunk that ends at this place.
fn padding_len(place: usize) -> usize
    ensures zeros { padding place ≡ replicate result 0 }
    ensures few { result ≤ 18 }
{
    let left = BLOCK - place % BLOCK;
    if left < SYNC_HEADER { left } else { 0 }
}

/// Appends a record as it is framed at a place of a block.
fn append_framed(
    out: &mut Buf,
    log: u32,
    place: usize,
    offset: u64,
    bytes: &[u8],
) -> Result<(), NoMemory>
    requires { place + SYNC_HEADER ≤ BLOCK }
    ensures ok { OnOk result (out.new ≡ out.old ++ framed log place offset bytes.now) }
    ensures kept { take (length out.old) out.new ≡ out.old }
{
    let before = out.as_slice().len();
    append_chunks(out, log, place, offset, bytes)?;
    let end = place + (out.as_slice().len() - before);
    out.append(&ZEROS[..padding_len(end)])
}

impl Framer {
    /// Stands at the front of a segment. The log number is the lowest 32 bits of the log's.
    pub fn new(log: u32) -> Framer
        ensures { result ≡ record { log = log; place = 0 } }
    {
        Framer { log, place: 0 }
    }

    /// How many bytes `frame` would append now for a record of this length, the zeros at a block's end included.
    ///
    /// The record has at most `RECORD_MAX` bytes.
    pub fn framed_len(&self, record_len: usize) -> usize
        requires { record_len ≤ RECORD_MAX }
        ensures { FramesTo self.now record_len result }
    {
        let later = record_len.saturating_sub(ROOM - self.place);
        let chunks = 1 + later.div_ceil(ROOM);
        let len = SYNC_HEADER * chunks + record_len;
        len + padding_len(self.place + len)
    }

    /// Moves on as `frame` would for a record of this length, and answers how many bytes it would append.
    ///
    /// The record has at most `RECORD_MAX` bytes.
    pub fn pass_over(&mut self, record_len: usize) -> usize
        requires { record_len ≤ RECORD_MAX }
        ensures len { FramesTo self.old record_len result }
        ensures moved { self.new ≡ record self.old { place = (self.old.place + result) % BLOCK } }
    {
        let len = self.framed_len(record_len);
        self.place = (self.place + len % BLOCK) % BLOCK;
        len
    }

    /// Appends the chunks of one record to `out`, each with this sync offset, and moves on after them.
    ///
    /// The record has at most `RECORD_MAX` bytes. Where memory runs out, both stay as they were.
    pub fn frame(&mut self, bytes: &[u8], offset: u64, out: &mut Buf) -> Result<(), NoMemory>
        requires { length bytes.now ≤ RECORD_MAX }
        ensures framed { OnOk result (out.new ≡ out.old ++ framed_by self.old offset bytes.now) }
        ensures moved { OnOk result (self.new ≡ standing_after self.old (framed_by self.old offset bytes.now)) }
        ensures err { OnErr result ((self.new ≡ self.old) × (out.new ≡ out.old)) }
    {
        let kept = out.as_slice().len();
        match append_framed(out, self.log, self.place, offset, bytes) {
            Ok(()) => {
                let len = out.as_slice().len() - kept;
                self.place = (self.place + len) % BLOCK;
                Ok(())
            }
            Err(NoMemory) => {
                out.truncate(kept);
                Err(NoMemory)
            }
        }
    }
}
