//! Bytes and numbers, as they are printed.

ghost use Rattle.std.specs.Prelude.{◌≡◌, ◌<◌, ◌==◌, ◌&&◌, ◌++◌, false, not, nat_le, decimal, take, length, OnOk, OnErr};
ghost use Rattle.text_lines.specs.Printed.{hex_digit, printed_byte, printed};

use crate::pieces::whole_or_none;
use wal_base::{Buf, NoMemory};

/// Adds the decimal digits of a number. On out of memory the text is as it was.
pub fn put_number(out: &mut Buf, number: u64) -> Result<(), NoMemory>
    ensures ok { OnOk result (out.new ≡ out.old ++ decimal number) }
    ensures err { OnErr result (out.new ≡ out.old) }
{
    let mut buffer = itoa::Buffer::new();
    out.append(buffer.format(number).as_bytes())
}

/// Adds a key, a value or a note as it is printed. On out of memory the text is as it was.
pub fn put_printed(out: &mut Buf, bytes: &[u8]) -> Result<(), NoMemory>
    ensures ok { OnOk result (out.new ≡ out.old ++ printed bytes.now) }
    ensures err { OnErr result (out.new ≡ out.old) }
{
    let len = out.as_slice().len();
    let added = add_printed(out, bytes);
    whole_or_none(out, len, added)
}

/// Adds a key, a value or a note as it is printed. After an `Err` a part of it may stand there.
pub(crate) fn add_printed(out: &mut Buf, bytes: &[u8]) -> Result<(), NoMemory>
    ensures ok { OnOk result (out.new ≡ out.old ++ printed bytes.now) }
    ensures err { OnErr result (take (length out.old) out.new ≡ out.old) }
{
    if bytes.is_empty() {
        return out.append(b"\\e");
    }
    // Bytes that print as themselves are left until one that does not, or the end, so that a run of them is one piece.
    let mut start = 0;
    for (at, byte) in bytes.iter().enumerate() {
        if !prints_as_itself(*byte) {
            out.append(&bytes[start..at])?;
            put_escaped(out, *byte)?;
            start = at + 1;
        }
    }
    out.append(&bytes[start..])
}

fn prints_as_itself(byte: u8) -> bool
    ensures { result ≡ (nat_le 33 byte && nat_le byte 126 && not (byte == 92)) }
{
    (0x21..=0x7E).contains(&byte) && byte != b'\\'
}

/// Adds a byte by its two digits.
fn put_escaped(out: &mut Buf, byte: u8) -> Result<(), NoMemory>
    requires { (nat_le 33 byte && nat_le byte 126 && not (byte == 92)) ≡ false }
    ensures ok { OnOk result (out.new ≡ out.old ++ printed_byte byte) }
    ensures err { OnErr result (out.new ≡ out.old) }
{
    out.append(&[b'\\', b'x', digit(byte / 16), digit(byte % 16)])
}

/// A digit from 0 to f.
fn digit(value: u8) -> u8
    requires { value < 16 }
    ensures { result ≡ hex_digit value }
{
    if value < 10 {
        b'0' + value
    } else {
        b'a' + (value - 10)
    }
}
