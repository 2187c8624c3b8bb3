//! Batches as a stream.

ghost use Rattle.std.specs.Prelude.{◌≡◌, ◌^◌, ◌<◌, ◌++◌, All, take, length, OnOk, OnErr};
ghost use Rattle.batch_repr.specs.Building.{HasSpelling};
ghost use Rattle.wal_ship.specs.Stream.{end_mark, frame_of, in_frame, stream_frames, magic, stream_of};

use batch_repr::{Batch, Batches, push_batch};
use crc_chunk::{crc32c, masked};
use std::alloc::Global;
use wal_base::{Buf, NoMemory};

/// The first bytes of a stream.
pub(crate) const MAGIC: [u8; 8] = *b"PBWSHIP1";

/// How many bytes stand before a text in its frame: its length and its checksum.
pub(crate) const HEAD: usize = 8;

/// Adds a text in its frame. After an `Err` a part of it may stand there.
#[tactic(auto, unfolding(crate::specs::Stream::in_frame))]
fn put_frame(out: &mut Buf, text: &[u8]) -> Result<(), NoMemory>
    requires { length text.now < 2 ^ 32 }
    ensures ok { OnOk result (out.new ≡ out.old ++ in_frame text.now) }
    ensures kept { take (length out.old) out.new ≡ out.old }
{
    out.append(&(text.len() as u32).to_le_bytes())?;
    out.append(&masked(crc32c(text)).to_le_bytes())?;
    out.append(text)
}

/// Adds the frame of a batch, which is written to `text` first. After an `Err` a part of it may stand there.
fn put_batch(out: &mut Buf, text: &mut Vec<u8>, batch: &Batch) -> Result<(), NoMemory>
    requires { HasSpelling batch.now }
    ensures ok { OnOk result (out.new ≡ out.old ++ frame_of batch.now) }
    ensures kept { take (length out.old) out.new ≡ out.old }
{
    text.clear();
    push_batch(text, batch)?;
    put_frame(out, text.as_slice())
}

/// Adds the frames of batches. After an `Err` a part of them may stand there.
fn put_frames(out: &mut Buf, text: &mut Vec<u8>, batches: &[Batch]) -> Result<(), NoMemory>
    requires { All HasSpelling batches.now }
    ensures ok { OnOk result (out.new ≡ out.old ++ stream_frames batches.now) }
    ensures kept { take (length out.old) out.new ≡ out.old }
{
    for batch in batches {
        put_batch(out, text, batch)?;
    }
    Ok(())
}

/// Adds all of a stream. After an `Err` a part of it may stand there.
fn put_all(out: &mut Buf, text: &mut Vec<u8>, batches: &[Batch]) -> Result<(), NoMemory>
    requires { All HasSpelling batches.now }
    ensures ok { OnOk result (out.new ≡ out.old ++ stream_of batches.now) }
    ensures kept { take (length out.old) out.new ≡ out.old }
{
    out.append(&MAGIC)?;
    put_frames(out, text, batches)?;
    put_frame(out, &[])
}

/// Adds the stream of the batches. On out of memory `out` is as it was.
pub fn put_stream(alloc: Global, out: &mut Buf, batches: &Batches) -> Result<(), NoMemory>
    requires { All HasSpelling batches.now }
    ensures ok { OnOk result (out.new ≡ out.old ++ stream_of batches.now) }
    ensures err { OnErr result (out.new ≡ out.old) }
{
    let len = out.as_slice().len();
    let mut text = Vec::new(alloc);
    let put = put_all(out, &mut text, batches.as_slice());
    if put.is_err() {
        out.truncate(len);
    }
    put
}
