//! A text, taken piece by piece.

ghost use Rattle.std.specs.Prelude.{◌≡◌, ◌≤◌, ◌^◌, ℕ, List, [], ◌∷◌, length, true, false, IfOk, IfSome, IfNone};
ghost use Rattle.memchr.specs.Find.{IsFirstByte};
ghost use Rattle.line_words.specs.Words.{lines_of, words_of};
ghost use Rattle.line_words.specs.Cutting.{is_cut};

use memchr::{memchr, memchr2};
use std::marker::Model;
use wal_base::{Blob, NoMemory};

/// Where a text is cut.
#[derive(Clone, Copy)]
enum Cut {
    /// At each line feed.
    AtLineFeeds,
    /// At each space and each tab.
    AtBlanks,
}

impl Cut {
    /// The place of the first cut.
    fn first_in(self, text: &[u8]) -> Option<usize>
        ensures { IsFirstByte (is_cut self) text.now result }
    {
        match self {
            Cut::AtLineFeeds => memchr(b'\n', text),
            Cut::AtBlanks => memchr2(b' ', b'\t', text),
        }
    }
}

/// The pieces of a text that are left. Contracts see the list of them.
#[derive(Drop)]
pub struct Pieces<'a> {
    cut: Cut,
    text: &'a Blob,
    /// The bytes of the text.
    bytes: &'a [u8],
    /// Where what is left of it begins.
    from: usize,
    is_done: bool,
}

impl<'a> Model for Pieces<'a> {
    ghost use Rattle.std.specs.Prelude.{◌≡◌, ◌≤◌, List, ℕ, drop, length};
    ghost use Rattle.line_words.specs.Cutting.{pieces_left};

    ghost Value = { List (List ℕ) };

    ghost view = { λ a. pieces_left a.cut (drop a.from a.text.now) a.is_done };

    ghost invariant = { λ a. (a.bytes.now ≡ a.text.now) × (a.from ≤ length a.text.now) };
}

impl<'a> Pieces<'a> {
    /// The lines of a text, which a `u64` counts.
    pub fn lines(text: &'a Blob) -> Pieces<'a>
        ensures lines { result ≡ lines_of text.now }
        ensures few { length result ≤ 2 ^ 63 }
    {
        Pieces {
            cut: Cut::AtLineFeeds,
            text,
            bytes: text.as_slice(),
            from: 0,
            is_done: false,
        }
    }

    /// The words of a line.
    pub fn words(line: &'a Blob) -> Pieces<'a>
        ensures { result ≡ words_of line.now }
    {
        Pieces {
            cut: Cut::AtBlanks,
            text: line,
            bytes: line.as_slice(),
            from: 0,
            is_done: false,
        }
    }

    /// Takes the next piece off. `None` exactly where none is left.
    pub fn next(&mut self) -> Option<&'a [u8]>
        ensures some { IfSome result (λ piece. self.old ≡ piece.now ∷ self.new) }
        ensures none { IfNone result ((self.old ≡ []) × (self.new ≡ [])) }
    {
        if self.is_done {
            return None;
        }
        let rest = &self.bytes[self.from..];
        match self.cut.first_in(rest) {
            Some(at) => {
                self.from += at + 1;
                Some(&rest[..at])
            }
            None => {
                self.is_done = true;
                Some(rest)
            }
        }
    }

    /// Takes the next piece off as a part of the text, whose bytes are shared. `None` exactly where none is left.
    pub fn next_part(&mut self) -> Result<Option<Blob>, NoMemory>
        ensures some { IfOk result (λ part. IfSome part (λ piece. self.old ≡ piece ∷ self.new)) }
        ensures none { IfOk result (λ part. IfNone part ((self.old ≡ []) × (self.new ≡ []))) }
    {
        let (text, from) = (self.text, self.from);
        let Some(piece) = self.next() else {
            return Ok(None);
        };
        let to = from + piece.len();
        Ok(Some(text.part(from, to)?))
    }
}
