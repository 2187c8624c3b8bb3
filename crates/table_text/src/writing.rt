//! Writing a table: its records, framed one after another into one text.

ghost use Rattle.std.specs.Prelude.{◌≡◌, ◌≤◌, length, IfOk, OnOk};
ghost use Rattle.disk_face.specs.Image.{log_number};
ghost use Rattle.text_lines.specs.Holding.{held_keys};
ghost use Rattle.table_text.specs.Tables.{IsTable, head_bytes, table_text, table_with};
ghost use Rattle.table_text.specs.Writing.{LaysMore};

use batch_repr::put_set;
use block_record::{Framer, RECORD_MAX};
use std::alloc::Global;
use text_lines::LiveKeys;
use wal_base::{Buf, NoMemory};

/// How many bytes a short key with its value takes beside its own: the header of a chunk, that of a batch, the kind,
/// and two lengths.
const BESIDE: usize = 38;

/// The log number of a table's chunks.
pub(crate) fn log_of(upto: u64) -> u32
    ensures { result ≡ log_number upto }
{
    (upto % (1 << 32)) as u32
}

/// The first record of a table.
pub(crate) fn head_of(next: u64, keys: u64) -> [u8; 16]
    ensures { result ≡ head_bytes next keys }
{
    let mut head = [0u8; 16];
    head[..8].copy_from_slice(&next.to_le_bytes());
    head[8..].copy_from_slice(&keys.to_le_bytes());
    head
}

/// Room for the text of these keys, with what the blocks that it fills have beside their records.
fn room_for(live: &LiveKeys<'_>) -> usize {
    let mut len = 64usize;
    for (key, value) in live {
        len = len
            .saturating_add(key.len())
            .saturating_add(value.len())
            .saturating_add(BESIDE);
    }
    len.saturating_add(len / 512)
}

/// Lays one record more into a text, with the sync offset 0.
fn lay(framer: &mut Framer, out: &mut Buf, bytes: &[u8]) -> Result<(), NoMemory>
    requires { length bytes.now ≤ RECORD_MAX }
    ensures { OnOk result (LaysMore bytes.now framer.old out.old framer.new out.new) }
{
    framer.frame(bytes, 0, out)?;
    Ok(())
}

/// The text of the table of these live keys, which covers the segments up to a WAL: one buffer, in which room for all
/// is made at once.
pub fn put_table_text(
    alloc: Global,
    upto: u64,
    next: u64,
    live: &LiveKeys<'_>,
) -> Result<Buf, NoMemory>
    requires { IsTable (table_with next (held_keys live.now)) }
    ensures { IfOk result (λ text. text ≡ table_text upto (table_with next (held_keys live.now))) }
{
    let mut framer = Framer::new(log_of(upto));
    let mut out = Buf::with_capacity(alloc, room_for(live))?;
    let keys = live.len() as u64;
    lay(&mut framer, &mut out, &head_of(next, keys))?;
    let mut number = next - keys;
    let mut text = Vec::new(alloc);
    for (key, value) in live {
        text.clear();
        put_set(&mut text, number, key, value)?;
        lay(&mut framer, &mut out, text.as_slice())?;
        number += 1;
    }
    Ok(out)
}
