//! The words of a line, one after another.

ghost use Rattle.std.specs.Prelude.{◌↔◌, ◌≤◌, ◌-◌, ◌^◌, length, IsTrue, IfOk, IsErrOf};
ghost use Rattle.line_words.specs.Words.{words_of};
ghost use Rattle.line_words.specs.Next.{TakesNumber, HasNoNumber};
ghost use Rattle.view_script.specs.Ending.{EndsWithNumber, EndsWithNoNumber, EndsWithWord, EndsWithNoWord};

use crate::fault::LineFault;
use line_words::{Pieces, is_end, next_word};
use wal_base::Blob;

/// Takes the next word off, if it is a number. It is bad exactly where none comes next.
pub(crate) fn next_number(words: &mut Pieces<'_>) -> Result<u64, LineFault>
    ensures number { IfOk result (λ n. TakesNumber 0 (2 ^ 64 - 1) words.old n words.new) }
    ensures bad { IsErrOf result LineFault.Bad → HasNoNumber 0 (2 ^ 64 - 1) words.old }
{
    line_words::next_number(words, 0, u64::MAX).ok_or(LineFault::Bad)
}

/// The last word, if it is a number. It is bad exactly where it is none.
pub(crate) fn last_number(words: &mut Pieces<'_>) -> Result<u64, LineFault>
    ensures number { IfOk result (EndsWithNumber words.old) }
    ensures bad { IsErrOf result LineFault.Bad → EndsWithNoNumber words.old }
{
    let number = next_number(words)?;
    if is_end(words) {
        Ok(number)
    } else {
        Err(LineFault::Bad)
    }
}

/// The last word, as a part of its text. It is bad exactly where it is no word that may be a key.
pub(crate) fn last_word(words: &mut Pieces<'_>) -> Result<Blob, LineFault>
    ensures word { IfOk result (EndsWithWord words.old) }
    ensures bad { IsErrOf result LineFault.Bad → EndsWithNoWord words.old }
{
    let word = next_word(words)?.ok_or(LineFault::Bad)?;
    if is_end(words) {
        Ok(word)
    } else {
        Err(LineFault::Bad)
    }
}

/// Whether a line has at most two words.
pub(crate) fn has_two_words_at_most(line: &Blob) -> bool
    ensures { IsTrue result ↔ (length (words_of line.now) ≤ 2) }
{
    let mut words = Pieces::words(line);
    words.next().is_none() || words.next().is_none() || is_end(&mut words)
}
