//! The words of a line, one after another.

ghost use Rattle.std.specs.Prelude.{◌≡◌, ◌≢◌, ◌↔◌, ◌<◌, ◌^◌, [], ℕ, IsTrue, IfOk, IfSome, IfNone};
ghost use Rattle.std.specs.Fmt.{decimal};
ghost use Rattle.line_words.specs.Words.{IsWord};
ghost use Rattle.line_words.specs.Next.{TakesWord, HasNoWord, TakesNumber, HasNoNumber};

use crate::pieces::Pieces;
use wal_base::{Blob, NoMemory};

/// Whether the bytes may stand as a word that names something.
fn is_word(bytes: &[u8]) -> bool
    ensures { IsTrue result ↔ IsWord bytes.now }
{
    !bytes.is_empty() && bytes.iter().all(|b| *b >= 0x21 && *b <= 0x7E && *b != b';')
}

/// Takes the next word off as a part of its text. `None` exactly where none comes next.
pub fn next_word(words: &mut Pieces<'_>) -> Result<Option<Blob>, NoMemory>
    ensures word { IfOk result (λ found.
        IfSome found (λ word. TakesWord words.old word words.new)) }
    ensures none { IfOk result (λ found. IfNone found (HasNoWord words.old)) }
{
    let Some(word) = words.next_part()? else {
        return Ok(None);
    };
    if is_word(word.as_slice()) {
        Ok(Some(word))
    } else {
        Ok(None)
    }
}

/// Whether no word is left. Else the next one is taken off, so this is asked last.
pub fn is_end(words: &mut Pieces<'_>) -> bool
    ensures { IsTrue result ↔ (words.old ≡ []) }
{
    words.next().is_none()
}

/// The number that the bytes spell in decimal digits, with no zero in front. `None` exactly where they spell none below
/// 2^64 so.
pub fn number_of(digits: &[u8]) -> Option<u64>
    ensures some { IfSome result (λ n. (digits.now ≡ decimal n) × (n < 2 ^ 64)) }
    ensures none { IfNone result ((n : ℕ) → n < 2 ^ 64 → digits.now ≢ decimal n) }
{
    let text = std::str::from_utf8(digits).ok()?;
    let number = text.parse::<u64>().ok()?;
    // `parse` accepts a sign and zeros in front, which make another spelling.
    if itoa::Buffer::new().format(number).as_bytes() == digits {
        Some(number)
    } else {
        None
    }
}

/// Takes the next word off, if it is a number from `least` to `most`. `None` exactly where no such number comes next.
pub fn next_number(words: &mut Pieces<'_>, least: u64, most: u64) -> Option<u64>
    ensures some { IfSome result (λ n. TakesNumber least most words.old n words.new) }
    ensures none { IfNone result (HasNoNumber least most words.old) }
{
    let number = number_of(words.next()?)?;
    if (least..=most).contains(&number) {
        Some(number)
    } else {
        None
    }
}
