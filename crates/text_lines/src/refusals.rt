//! The lines that name why directories are refused.

ghost use Rattle.std.specs.Prelude.{◌≡◌, ◌≢◌, ◌++◌, take, length, codes, decimal, OnOk, OnErr};
ghost use Rattle.batch_repr.specs.declared.fault.BatchFault.TheVariants as faults;
ghost use Rattle.text_lines.specs.Refusals.{duplicate_line, fault_words, bad_batch_line, gap_line, conflict_line, corrupt_line};

use crate::pieces::whole_or_none;
use crate::{Piece, put_pieces};
use batch_repr::BatchFault;
use disk_face::SegName;
use wal_base::{Buf, NoMemory};

/// Adds the line of a segment that stands in both directories. On out of memory the text is as it was.
pub fn put_duplicate(out: &mut Buf, name: SegName) -> Result<(), NoMemory>
    ensures ok { OnOk result (out.new ≡ out.old ++ duplicate_line name) }
    ensures err { OnErr result (out.new ≡ out.old) }
{
    let line = [
        Piece::Text(b"refused duplicate "),
        Piece::Name(name),
        Piece::Text(b"\n"),
    ];
    put_pieces(out, &line)
}

/// Adds the line of a record that is no batch, which begins at the place. On out of memory the text is as it was.
pub fn put_bad_batch(
    out: &mut Buf,
    name: SegName,
    place: u64,
    fault: BatchFault,
) -> Result<(), NoMemory>
    requires { fault ≢ faults.NoMemory }
    ensures ok { OnOk result (out.new ≡ out.old ++ bad_batch_line name place fault) }
    ensures err { OnErr result (out.new ≡ out.old) }
{
    let len = out.as_slice().len();
    let added = add_bad_batch(out, name, place, fault);
    whole_or_none(out, len, added)
}

/// Adds the line of a segment that begins after the expected number. On out of memory the text is as it was.
pub fn put_gap(out: &mut Buf, name: SegName, expected: u64, found: u64) -> Result<(), NoMemory>
    ensures ok { OnOk result (out.new ≡ out.old ++ gap_line name expected found) }
    ensures err { OnErr result (out.new ≡ out.old) }
{
    let line = [
        Piece::Text(b"refused gap "),
        Piece::Name(name),
        Piece::Text(b" expected "),
        Piece::Number(expected),
        Piece::Text(b" found "),
        Piece::Number(found),
        Piece::Text(b"\n"),
    ];
    put_pieces(out, &line)
}

/// Adds the line of a segment whose batch of this first number is not the one that stands before it. On out of memory
/// the text is as it was.
pub fn put_conflict(out: &mut Buf, name: SegName, first: u64) -> Result<(), NoMemory>
    ensures ok { OnOk result (out.new ≡ out.old ++ conflict_line name first) }
    ensures err { OnErr result (out.new ≡ out.old) }
{
    let line = [
        Piece::Text(b"refused conflict "),
        Piece::Name(name),
        Piece::Text(b" "),
        Piece::Number(first),
        Piece::Text(b"\n"),
    ];
    put_pieces(out, &line)
}

/// Adds the line of a record that is no batch. After an `Err` a part of it may stand there.
fn add_bad_batch(
    out: &mut Buf,
    name: SegName,
    place: u64,
    fault: BatchFault,
) -> Result<(), NoMemory>
    requires { fault ≢ faults.NoMemory }
    ensures ok { OnOk result (out.new ≡ out.old ++ bad_batch_line name place fault) }
    ensures err { OnErr result (take (length out.old) out.new ≡ out.old) }
{
    let record = [
        Piece::Text(b"refused batch "),
        Piece::Name(name),
        Piece::Text(b" "),
        Piece::Number(place),
        Piece::Text(b" "),
    ];
    put_pieces(out, &record)?;
    put_fault(out, fault)?;
    out.append(b"\n")
}

/// Adds what is wrong with the bytes of a batch. On out of memory the text is as it was.
fn put_fault(out: &mut Buf, fault: BatchFault) -> Result<(), NoMemory>
    requires { fault ≢ faults.NoMemory }
    ensures ok { OnOk result (out.new ≡ out.old ++ fault_words fault) }
    ensures err { OnErr result (out.new ≡ out.old) }
{
    match fault {
        BatchFault::ShortHeader => out.append(b"short-header"),
        BatchFault::ShortEntry { at } => put_place(out, b"short-entry ", at),
        BatchFault::BadVarint { at } => put_place(out, b"bad-varint ", at),
        BatchFault::TooLong { at } => put_place(out, b"too-long ", at),
        BatchFault::UnknownKind { at, kind } => {
            put_two(out, b"unknown-kind ", at, u64::from(kind))
        }
        BatchFault::Count { said, found } => {
            put_two(out, b"count ", u64::from(said), u64::from(found))
        }
        BatchFault::SeqRange { first } => put_place(out, b"seq-range ", first),
        BatchFault::NoMemory => unreachable!(),
    }
}

/// Adds a word and a number. On out of memory the text is as it was.
fn put_place(out: &mut Buf, word: &[u8], number: u64) -> Result<(), NoMemory>
    ensures ok { OnOk result (out.new ≡ out.old ++ (word.now ++ decimal number)) }
    ensures err { OnErr result (out.new ≡ out.old) }
{
    put_pieces(out, &[Piece::Text(word), Piece::Number(number)])
}

/// Adds a word and two numbers. On out of memory the text is as it was.
fn put_two(out: &mut Buf, word: &[u8], number: u64, other: u64) -> Result<(), NoMemory>
    ensures ok { OnOk result (out.new ≡ out.old ++ (word.now ++ decimal number ++ codes " " ++ decimal other)) }
    ensures err { OnErr result (out.new ≡ out.old) }
{
    let words = [
        Piece::Text(word),
        Piece::Number(number),
        Piece::Text(b" "),
        Piece::Number(other),
    ];
    put_pieces(out, &words)
}

/// Adds the line of a segment whose bytes at a place are corrupt, as a later chunk shows. On out of memory the text is as
/// it was.
pub fn put_corrupt(out: &mut Buf, name: SegName, at: u64, shown_at: u64) -> Result<(), NoMemory>
    ensures ok { OnOk result (out.new ≡ out.old ++ corrupt_line name at shown_at) }
    ensures err { OnErr result (out.new ≡ out.old) }
{
    let line = [
        Piece::Text(b"refused corrupt "),
        Piece::Name(name),
        Piece::Text(b" "),
        Piece::Number(at),
        Piece::Text(b" "),
        Piece::Number(shown_at),
        Piece::Text(b"\n"),
    ];
    put_pieces(out, &line)
}
