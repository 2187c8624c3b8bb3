//! The line of a segment, the line of a table, and the line that ends what was recovered.

ghost use Rattle.std.specs.Prelude.{◌≡◌, ◌++◌, OnOk, OnErr};
ghost use Rattle.text_lines.specs.Lines.{side_word, torn_word, segment_line, table_line, recovered_end};

use crate::{Piece, put_pieces};
use disk_face::{SegName, Side, TableName};
use wal_base::{Buf, NoMemory};

/// What one line says of a segment.
#[derive(Clone, Copy, Debug, PartialEq, Eq)]
pub struct SegmentLine {
    /// In which directory it stands.
    pub side: Side,
    /// Its name.
    pub name: SegName,
    /// How many bytes a read gives.
    pub len: u64,
    /// Where its last whole record ends.
    pub ends_at: u64,
    /// Whether more than zeros stand after that place.
    pub torn: bool,
}

/// Adds the line of a segment that has so many records. On out of memory the text is as it was.
pub fn put_segment(out: &mut Buf, segment: &SegmentLine, records: usize) -> Result<(), NoMemory>
    ensures ok { OnOk result (out.new ≡ out.old ++ segment_line segment.now records) }
    ensures err { OnErr result (out.new ≡ out.old) }
{
    let line = [
        Piece::Text(b"segment "),
        Piece::Name(segment.name),
        Piece::Text(b" "),
        Piece::Text(side_name(segment.side).as_bytes()),
        Piece::Text(b" bytes "),
        Piece::Number(segment.len),
        Piece::Text(b" records "),
        Piece::Number(records as u64),
        Piece::Text(b" ends "),
        Piece::Number(segment.ends_at),
        Piece::Text(b" "),
        Piece::Text(torn_name(segment.torn).as_bytes()),
        Piece::Text(b"\n"),
    ];
    put_pieces(out, &line)
}

/// What one line says of a table.
#[derive(Clone, Copy, Debug, PartialEq, Eq)]
pub struct TableLine {
    /// Its name.
    pub name: TableName,
    /// How many keys it has.
    pub keys: u64,
    /// The number that comes next after its batches.
    pub next: u64,
}

/// Adds the line of a table. On out of memory the text is as it was.
pub fn put_table(out: &mut Buf, table: &TableLine) -> Result<(), NoMemory>
    ensures ok { OnOk result (out.new ≡ out.old ++ table_line table.now) }
    ensures err { OnErr result (out.new ≡ out.old) }
{
    let line = [
        Piece::Text(b"table "),
        Piece::TableName(table.name),
        Piece::Text(b" keys "),
        Piece::Number(table.keys),
        Piece::Text(b" next "),
        Piece::Number(table.next),
        Piece::Text(b"\n"),
    ];
    put_pieces(out, &line)
}

/// Adds the line that ends what was recovered: how many batches, and the number after them. On out of memory the text
/// is as it was.
pub fn put_recovered_end(out: &mut Buf, batches: usize, next: u64) -> Result<(), NoMemory>
    ensures ok { OnOk result (out.new ≡ out.old ++ recovered_end batches next) }
    ensures err { OnErr result (out.new ≡ out.old) }
{
    let line = [
        Piece::Text(b"end batches "),
        Piece::Number(batches as u64),
        Piece::Text(b" next "),
        Piece::Number(next),
        Piece::Text(b"\n"),
    ];
    put_pieces(out, &line)
}

/// The word of a side.
pub fn side_name(side: Side) -> &'static str
    ensures { result.now ≡ side_word side }
{
    match side {
        Side::Primary => "primary",
        Side::Secondary => "secondary",
    }
}

fn torn_name(torn: bool) -> &'static str
    ensures { result.now ≡ torn_word torn }
{
    if torn { "torn" } else { "clean" }
}
