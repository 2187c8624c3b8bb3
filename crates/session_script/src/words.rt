//! The words of a line, one after another.

ghost use Rattle.std.specs.Prelude.{IfOk, IfSome, IfNone, IsErrOf};
ghost use Rattle.line_words.specs.Next.{TakesWord, HasNoWord, TakesNumber, HasNoNumber};

use crate::fault::LineFault;
use line_words::Pieces;
use wal_base::Blob;

/// Takes the next word off as a part of its text. It is bad exactly where none comes next.
pub(crate) fn next_word(words: &mut Pieces<'_>) -> Result<Blob, LineFault>
    ensures word { IfOk result (λ word. TakesWord words.old word words.new) }
    ensures bad { IsErrOf result LineFault.Bad → HasNoWord words.old }
{
    line_words::next_word(words)?.ok_or(LineFault::Bad)
}

/// Takes the next word off, if it is a number from `least` to `most`. `None` exactly where no such number comes next.
pub(crate) fn next_number(words: &mut Pieces<'_>, least: u32, most: u32) -> Option<u32>
    ensures some { IfSome result (λ n. TakesNumber least most words.old n words.new) }
    ensures none { IfNone result (HasNoNumber least most words.old) }
{
    let number = line_words::next_number(words, u64::from(least), u64::from(most))?;
    u32::try_from(number).ok()
}
