//! The lines of a batch.

ghost use Rattle.std.specs.Prelude.{◌≡◌, ◌++◌, take, length, codes, OnOk, OnErr};
ghost use Rattle.text_lines.specs.Printed.{printed};
ghost use Rattle.text_lines.specs.Lines.{entry_line, batch_lines};

use crate::pieces::whole_or_none;
use crate::{Piece, put_pieces};
use batch_repr::Batch;
use wal_base::{Buf, Entry, NoMemory};

/// Adds the line of a batch, and a line for each of its entries. On out of memory the text is as it was.
pub fn put_batch(out: &mut Buf, batch: &Batch) -> Result<(), NoMemory>
    ensures ok { OnOk result (out.new ≡ out.old ++ batch_lines batch.now) }
    ensures err { OnErr result (out.new ≡ out.old) }
{
    let len = out.as_slice().len();
    let added = add_batch(out, batch);
    whole_or_none(out, len, added)
}

/// Adds the lines of a batch. After an `Err` a part of them may stand there.
fn add_batch(out: &mut Buf, batch: &Batch) -> Result<(), NoMemory>
    ensures ok { OnOk result (out.new ≡ out.old ++ batch_lines batch.now) }
    ensures err { OnErr result (take (length out.old) out.new ≡ out.old) }
{
    let entries = batch.entries.as_slice();
    let line = [
        Piece::Text(b"batch "),
        Piece::Number(batch.first),
        Piece::Text(b" "),
        Piece::Number(batch.count()),
        Piece::Text(b"\n"),
    ];
    put_pieces(out, &line)?;
    for entry in entries {
        put_entry(out, entry)?;
    }
    Ok(())
}

/// Adds the line of an entry. On out of memory the text is as it was.
fn put_entry(out: &mut Buf, entry: &Entry) -> Result<(), NoMemory>
    ensures ok { OnOk result (out.new ≡ out.old ++ entry_line entry.now) }
    ensures err { OnErr result (out.new ≡ out.old) }
{
    match entry {
        Entry::Set { key, value } => {
            let line = [
                Piece::Text(b"set "),
                Piece::Printed(key.as_slice()),
                Piece::Text(b" "),
                Piece::Printed(value.as_slice()),
                Piece::Text(b"\n"),
            ];
            put_pieces(out, &line)
        }
        Entry::Delete { key } => put_about(out, b"del ", key.as_slice()),
        Entry::Note { bytes } => put_about(out, b"note ", bytes.as_slice()),
        Entry::RangeDelete { start, end } => {
            let line = [
                Piece::Text(b"rdel "),
                Piece::Printed(start.as_slice()),
                Piece::Text(b" "),
                Piece::Printed(end.as_slice()),
                Piece::Text(b"\n"),
            ];
            put_pieces(out, &line)
        }
    }
}

/// Adds a line of a word and bytes as they are printed. On out of memory the text is as it was.
fn put_about<'p>(out: &mut Buf, word: &'p [u8], bytes: &'p [u8]) -> Result<(), NoMemory>
    ensures ok { OnOk result (out.new ≡ out.old ++ (word.now ++ printed bytes.now ++ codes "\n")) }
    ensures err { OnErr result (out.new ≡ out.old) }
{
    let line = [Piece::Text(word), Piece::Printed(bytes), Piece::Text(b"\n")];
    put_pieces(out, &line)
}
