//! How a load ended, and its line.

ghost use Rattle.std.specs.Prelude.{◌≡◌, ◌++◌, OnOk, OnErr};
ghost use Rattle.made_load.specs.Load.{load_end_line};

use crate::digits::put_digits;
use text_lines::{Piece, put_pieces};
use wal_base::{Buf, NoMemory};

/// How a load ended.
#[derive(Clone, Copy, Debug, PartialEq, Eq)]
pub struct LoadEnd {
    /// How many batches it committed.
    pub batches: u64,
    /// The number after all batches.
    pub visible: u64,
    /// How many of its keys have a value.
    pub live: u32,
    /// How many of its batches a sync covers.
    pub acked: u64,
    /// How many segments its journal began.
    pub segments: u32,
    /// The number whose digits the last batch set.
    pub last: u64,
}

/// Adds the line that says how a load ended. On out of memory the text is as it was.
#[tactic(auto, unfolding(crate::specs::Load::load_end_line))]
pub fn put_load_end(out: &mut Buf, end: &LoadEnd) -> Result<(), NoMemory>
    ensures ok { OnOk result (out.new ≡ out.old ++ load_end_line end.now) }
    ensures err { OnErr result (out.new ≡ out.old) }
{
    let mut last = [0; 16];
    put_digits(&mut last, 16, end.last);
    let line = [
        Piece::Text(b"load batches "),
        Piece::Number(end.batches),
        Piece::Text(b" visible "),
        Piece::Number(end.visible),
        Piece::Text(b" live "),
        Piece::Number(u64::from(end.live)),
        Piece::Text(b" acked "),
        Piece::Number(end.acked),
        Piece::Text(b" segments "),
        Piece::Number(u64::from(end.segments)),
        Piece::Text(b" last "),
        Piece::Text(&last),
        Piece::Text(b"\n"),
    ];
    put_pieces(out, &line)
}
