//! Digits, as many of a number as there is room for.

ghost use Rattle.std.specs.Prelude.{◌≡◌, ◌<◌, ◌≤◌, length, false};
ghost use Rattle.std.specs.Fmt.{digit_glyph};
ghost use Rattle.made_load.specs.Load.{last_digits};

/// The digit of a number below 16.
fn digit(number: u8) -> u8
    requires { number < 16 }
    ensures { result ≡ digit_glyph false number }
{
    if number < 10 {
        b'0' + number
    } else {
        b'a' - 10 + number
    }
}

/// Writes the last digits of a number over all of the bytes.
#[inline]
pub(crate) fn put_digits(out: &mut [u8], base: u64, number: u64)
    requires least { 2 ≤ base }
    requires most { base ≤ 16 }
    ensures { out.new ≡ last_digits base (length out.old) number }
{
    let mut rest = number;
    for place in (0..out.len()).rev() {
        out[place] = digit((rest % base) as u8);
        rest /= base;
    }
}
