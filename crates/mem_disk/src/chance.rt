//! The premise on checksums: that no chunk of an image is there by chance.

ghost use Rattle.std.specs.Prelude.{◌≡◌, ◌↔◌, ℕ, ◌+◌, ◌<◌, ◌≤◌, ◌^◌, length, take, drop, IfOk, IfSome, IfNone, IsTrue};
ghost use Rattle.crc_chunk.specs.Chunk.{IsChunkOf};
ghost use Rattle.disk_face.specs.Image.{log_of};
ghost use Rattle.mem_disk.specs.Mem.{files_held, AreInOrder};
ghost use Rattle.mem_disk.specs.Picks.{DecidesChance};
ghost use Rattle.mem_disk.specs.Sent.{IsSentAt, AreChunksSent, IsFileSent, AreFilesSent};

use crate::files::sent_in;
use crate::parts::MemFile;
use crate::picks::{FilePick, add_tail, kept_len, tail_of_file};
use crc_chunk::chunk_in;
use disk_face::{FilePlace, SegName};
use std::alloc::Global;
use wal_base::NoMemory;

/// How many bytes the whole chunk of this log has that stands at a place, if one does.
fn chunk_len(bytes: &[u8], log: u32, at: usize) -> Option<usize>
    ensures some { IfSome result (λ size. IsChunkOf bytes.now at log size) }
    ensures within { IfSome result (λ size. (0 < size) × (at + size ≤ length bytes.now)) }
    ensures none { IfNone result ((size : ℕ) → ¬ IsChunkOf bytes.now at log size) }
{
    let span = chunk_in(bytes, at, log)?;
    Some(span.to - at)
}

/// Whether the others have the same bytes at a place.
fn has_same(bytes: &[u8], others: &[u8], at: usize, size: usize) -> bool
    requires some { 0 < size }
    requires within { at + size ≤ length bytes.now }
    ensures { IsTrue result ↔ (take size (drop at bytes.now) ≡ take size (drop at others.now)) }
{
    let end = at + size;
    end <= others.len() && bytes[at..end] == others[at..end]
}

fn is_sent_at(bytes: &[u8], sent: &[u8], log: u32, at: usize) -> bool
    ensures { IsTrue result ↔ IsSentAt bytes.now sent.now log at }
{
    match chunk_len(bytes, log, at) {
        None => true,
        Some(size) => has_same(bytes, sent, at, size),
    }
}

// A chunk may stand at any place, so each is looked at.
fn are_chunks_sent(bytes: &[u8], sent: &[u8], log: u32) -> bool
    ensures { IsTrue result ↔ AreChunksSent bytes.now sent.now log }
{
    for at in 0..bytes.len() {
        if !is_sent_at(bytes, sent, log, at) {
            return false;
        }
    }
    true
}

// The log number of a file's chunks.
fn log_at(place: FilePlace) -> u32
    ensures { result ≡ log_of place }
{
    match place {
        FilePlace::Segment { name, .. } => name.log(),
        FilePlace::Table { upto } => SegName {
            wal: upto,
            index: 0,
        }
        .log(),
    }
}

fn is_file_sent(alloc: Global, file: &MemFile, picks: &[FilePick]) -> Result<bool, NoMemory>
    ensures { IfOk result (λ sent. IsTrue sent ↔ IsFileSent picks.now file.now) }
{
    let tail = tail_of_file(picks, file);
    let Some(kept) = kept_len(file, tail) else {
        return Ok(true);
    };
    let mut bytes = Vec::from_slice(alloc, &file.sent[..kept])?;
    add_tail(&mut bytes, tail)?;
    let log = log_at(file.place);
    Ok(are_chunks_sent(&bytes, sent_in(file), log))
}

fn are_files_sent(alloc: Global, files: &[MemFile], picks: &[FilePick]) -> Result<bool, NoMemory>
    ensures { IfOk result (λ sent. IsTrue sent ↔ AreFilesSent picks.now files.now) }
{
    for file in files {
        if !is_file_sent(alloc, file, picks)? {
            return Ok(false);
        }
    }
    Ok(true)
}

/// Whether each whole chunk of its log, in what the picks leave of each file, was sent to its place. `Err` is
/// out of memory.
pub fn is_chance_free(
    alloc: Global,
    files: &[MemFile],
    picks: &[FilePick],
) -> Result<bool, NoMemory>
    requires ordered { AreInOrder files.now }
    ensures { IfOk result (DecidesChance (files_held files.now) picks.now) }
{
    are_files_sent(alloc, files, picks)
}
