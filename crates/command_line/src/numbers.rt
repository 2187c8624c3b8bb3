//! The numbers among the words.

ghost use Rattle.std.specs.Prelude.{ℕ, IfSome, IfNone};
ghost use Rattle.command_line.specs.Numbers.{IsNumberIn};

/// The most digits of a number.
pub(crate) const DIGITS_MAX: usize = 20;

/// The number that the text is, if it lies in the range. `None` exactly where it is none there.
pub(crate) fn number_in(text: &str, least: u64, most: u64) -> Option<u64>
    ensures some { IfSome result (λ n. IsNumberIn least most text.now n) }
    ensures none { IfNone result ((n : ℕ) → IsNumberIn least most text.now n → ⊥) }
{
    // `parse` accepts a sign, and zeros in front without end.
    if text.len() > DIGITS_MAX || text.starts_with('+') {
        return None;
    }
    let number = text.parse::<u64>().ok()?;
    if (least..=most).contains(&number) {
        Some(number)
    } else {
        None
    }
}

/// The same of a number from 1 to `most`.
pub(crate) fn small_number_in(text: &str, most: u32) -> Option<u32>
    ensures some { IfSome result (λ n. IsNumberIn 1 most text.now n) }
    ensures none { IfNone result ((n : ℕ) → IsNumberIn 1 most text.now n → ⊥) }
{
    let number = number_in(text, 1, u64::from(most))?;
    u32::try_from(number).ok()
}
