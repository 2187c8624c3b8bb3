//! Replies, and their lines.

ghost use Rattle.std.specs.Prelude.{◌≡◌, ◌++◌, Some, None, OnOk, OnErr};
ghost use Rattle.session_replies.specs.Replies.{synced_part, numbers_words, got_words};
ghost use Rattle.session_replies.specs.Replies.{session_line, reply_line, run_ending, end_line};

use text_lines::{Piece, put_pieces};
use wal_base::{Blob, Buf, NoMemory};

/// The reply to a line.
#[derive(Debug, Drop)]
pub enum Said {
    /// The batch has these numbers. Where a sync was asked for, one covers it.
    Committed {
        first: u64,
        count: u32,
        synced: bool,
    },
    /// The batch has these numbers, and the journal died before a sync covered it.
    Unsynced {
        first: u64,
        count: u32,
    },
    /// The journal was dead, and no batch was made.
    Dead,
    /// A limit was reached, and no batch was made.
    Limit,
    /// The value of the key, if it has one, and the number that was visible.
    Got {
        key: Blob,
        value: Option<Blob>,
        visible: u64,
    },
}

/// How a run ended.
#[derive(Clone, Copy, Debug, PartialEq, Eq)]
pub struct RunEnd {
    /// The number after all batches.
    pub visible: u64,
    /// How many batches the run committed.
    pub batches: u64,
    /// How many of them a sync covers.
    pub acked: u64,
    /// How many segments its journal began.
    pub segments: u32,
    /// Whether its journal died.
    pub died: bool,
    /// Whether the script left the journal as it was. Otherwise it was closed, unless it had died.
    pub halted: bool,
}

/// Adds the line of a reply to a line of this session. On out of memory the text is as it was.
#[tactic(auto, unfolding(crate::specs::Replies::reply_line))]
pub fn put_reply(out: &mut Buf, session: u32, said: &Said) -> Result<(), NoMemory>
    ensures ok { OnOk result (out.new ≡ out.old ++ reply_line session said.now) }
    ensures err { OnErr result (out.new ≡ out.old) }
{
    match said {
        Said::Committed {
            first,
            count,
            synced,
        } => put_numbers(out, session, *first, *count, synced_word(*synced)),
        Said::Unsynced { first, count } => {
            put_numbers(out, session, *first, *count, b" unsynced")
        }
        Said::Dead => put_none_made(out, session, b" commit dead"),
        Said::Limit => put_none_made(out, session, b" commit limit"),
        Said::Got {
            key,
            value: Some(value),
            visible,
        } => put_value(out, session, key.as_slice(), value.as_slice(), *visible),
        Said::Got {
            key,
            value: None,
            visible,
        } => put_no_value(out, session, key.as_slice(), *visible),
    }
}

/// Adds the line that says how a run ended. On out of memory the text is as it was.
#[tactic(auto, unfolding(crate::specs::Replies::end_line))]
pub fn put_run_end(out: &mut Buf, end: &RunEnd) -> Result<(), NoMemory>
    ensures ok { OnOk result (out.new ≡ out.old ++ end_line end.now) }
    ensures err { OnErr result (out.new ≡ out.old) }
{
    let line = [
        Piece::Text(b"end visible "),
        Piece::Number(end.visible),
        Piece::Text(b" batches "),
        Piece::Number(end.batches),
        Piece::Text(b" acked "),
        Piece::Number(end.acked),
        Piece::Text(b" segments "),
        Piece::Number(u64::from(end.segments)),
        Piece::Text(end_word(end.died, end.halted)),
    ];
    put_pieces(out, &line)
}

/// Adds the reply to a commit that has numbers.
fn put_numbers(
    out: &mut Buf,
    session: u32,
    first: u64,
    count: u32,
    word: &[u8],
) -> Result<(), NoMemory>
    ensures ok { OnOk result (out.new ≡ out.old ++ session_line session (numbers_words first count ++ word.now)) }
    ensures err { OnErr result (out.new ≡ out.old) }
{
    let line = [
        Piece::Text(b"s"),
        Piece::Number(u64::from(session)),
        Piece::Text(b" commit "),
        Piece::Number(first),
        Piece::Text(b" "),
        Piece::Number(u64::from(count)),
        Piece::Text(word),
        Piece::Text(b"\n"),
    ];
    put_pieces(out, &line)
}

/// Adds the reply to a commit that made no batch.
fn put_none_made(out: &mut Buf, session: u32, words: &[u8]) -> Result<(), NoMemory>
    ensures ok { OnOk result (out.new ≡ out.old ++ session_line session words.now) }
    ensures err { OnErr result (out.new ≡ out.old) }
{
    let line = [
        Piece::Text(b"s"),
        Piece::Number(u64::from(session)),
        Piece::Text(words),
        Piece::Text(b"\n"),
    ];
    put_pieces(out, &line)
}

/// Adds the reply to a read of a key that has this value.
fn put_value<'p>(
    out: &mut Buf,
    session: u32,
    key: &'p [u8],
    value: &'p [u8],
    visible: u64,
) -> Result<(), NoMemory>
    ensures ok { OnOk result (out.new ≡ out.old ++ session_line session (got_words key.now (Some value.now) visible)) }
    ensures err { OnErr result (out.new ≡ out.old) }
{
    let line = [
        Piece::Text(b"s"),
        Piece::Number(u64::from(session)),
        Piece::Text(b" get "),
        Piece::Printed(key),
        Piece::Text(b" = "),
        Piece::Printed(value),
        Piece::Text(b" @"),
        Piece::Number(visible),
        Piece::Text(b"\n"),
    ];
    put_pieces(out, &line)
}

/// Adds the reply to a read of a key that has no value.
fn put_no_value(out: &mut Buf, session: u32, key: &[u8], visible: u64) -> Result<(), NoMemory>
    ensures ok { OnOk result (out.new ≡ out.old ++ session_line session (got_words key.now None visible)) }
    ensures err { OnErr result (out.new ≡ out.old) }
{
    let line = [
        Piece::Text(b"s"),
        Piece::Number(u64::from(session)),
        Piece::Text(b" get "),
        Piece::Printed(key),
        Piece::Text(b" none @"),
        Piece::Number(visible),
        Piece::Text(b"\n"),
    ];
    put_pieces(out, &line)
}

/// What follows the numbers of a commit that is synced, or that asked for no sync.
fn synced_word(synced: bool) -> &'static [u8]
    ensures { result.now ≡ synced_part synced }
{
    if synced { b" synced" } else { b"" }
}

/// How the line of a run's end ends.
fn end_word(died: bool, halted: bool) -> &'static [u8]
    ensures { result.now ≡ run_ending died halted }
{
    if died {
        b" dead\n"
    } else if halted {
        b" halted\n"
    } else {
        b" closed\n"
    }
}
