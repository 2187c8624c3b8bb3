//! Pieces of a line, added together or not at all.

ghost use Rattle.std.specs.Prelude.{◌≡◌, ◌++◌, take, length, OnOk, OnErr};
ghost use Rattle.text_lines.specs.Pieces.{piece_text, pieces_text};

use crate::printed::{add_printed, put_number};
use disk_face::{SegName, TableName};
use wal_base::{Buf, NoMemory};

/// A piece of a line.
#[derive(Clone, Copy, Debug)]
pub enum Piece<'p> {
    /// These bytes, as they are.
    Text(&'p [u8]),
    /// A key, a value or a note, as it is printed.
    Printed(&'p [u8]),
    /// The decimal digits of this number.
    Number(u64),
    /// The spelling of this name.
    Name(SegName),
    /// The spelling of this name of a table.
    TableName(TableName),
}

/// Adds the pieces, one after another. On out of memory the text is as it was.
pub fn put_pieces(out: &mut Buf, pieces: &[Piece<'_>]) -> Result<(), NoMemory>
    ensures ok { OnOk result (out.new ≡ out.old ++ pieces_text pieces.now) }
    ensures err { OnErr result (out.new ≡ out.old) }
{
    let len = out.as_slice().len();
    let added = add_pieces(out, pieces);
    whole_or_none(out, len, added)
}

/// Hands the answer on. On out of memory all after the first `len` bytes is taken away again.
pub(crate) fn whole_or_none(
    out: &mut Buf,
    len: usize,
    added: Result<(), NoMemory>,
) -> Result<(), NoMemory>
    ensures same { result ≡ added }
    ensures ok { OnOk added (out.new ≡ out.old) }
    ensures err { OnErr added (out.new ≡ take len out.old) }
{
    if added.is_err() {
        out.truncate(len);
    }
    added
}

/// Adds the pieces. After an `Err` a part of them may stand there.
fn add_pieces(out: &mut Buf, pieces: &[Piece<'_>]) -> Result<(), NoMemory>
    ensures ok { OnOk result (out.new ≡ out.old ++ pieces_text pieces.now) }
    ensures err { OnErr result (take (length out.old) out.new ≡ out.old) }
{
    for piece in pieces {
        add_piece(out, *piece)?;
    }
    Ok(())
}

/// Adds one piece. After an `Err` a part of it may stand there.
fn add_piece(out: &mut Buf, piece: Piece<'_>) -> Result<(), NoMemory>
    ensures ok { OnOk result (out.new ≡ out.old ++ piece_text piece.entry) }
    ensures err { OnErr result (take (length out.old) out.new ≡ out.old) }
{
    match piece {
        Piece::Text(bytes) => out.append(bytes),
        Piece::Printed(bytes) => add_printed(out, bytes),
        Piece::Number(number) => put_number(out, number),
        Piece::Name(name) => name.put(out),
        Piece::TableName(name) => name.put(out),
    }
}
