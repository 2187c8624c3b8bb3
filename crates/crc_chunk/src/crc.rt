//! CRC-32C: the loop over the bytes, and the form in which a checksum is stored.

ghost use Rattle.std.specs.Prelude.{◌≡◌, ◌+◌, ◌*◌, ◌≤◌, ◌++◌, length, bit_xor};
ghost use Rattle.std.specs.List.{flat_map};
ghost use Rattle.std.specs.Int.{w64, from_le_bytes};
ghost use Rattle.crc_chunk.specs.Crc.{bits_of, after_bits, checksum, masked_of};
ghost use Rattle.crc_chunk.specs.Zeros.{over_zeros};

use crate::table::entry;

/// The register as the checksum begins.
pub(crate) const ONES: u32 = 0xFFFF_FFFF;

/// The register after one more byte.
fn after_byte(register: u32, byte: u8) -> u32
    ensures { result ≡ after_bits register (bits_of byte) }
{
    let sum = (register ^ u32::from(byte)).to_le_bytes();
    entry(0, sum[0]) ^ (register >> 8)
}

/// What eight zero bytes, and `behind` more, leave of a register that holds the bytes, the first of them lowest.
// The first bytes are added last: they have met the register, which is the last to be known.
fn folded(bytes: &[u8; 8], behind: usize) -> u32
    requires { behind ≤ 8 }
    ensures { result ≡ over_zeros (8 * behind + 64) (from_le_bytes w64 bytes.now) }
{
    entry(behind, bytes[7])
        ^ entry(behind + 1, bytes[6])
        ^ entry(behind + 2, bytes[5])
        ^ entry(behind + 3, bytes[4])
        ^ entry(behind + 4, bytes[3])
        ^ entry(behind + 5, bytes[2])
        ^ entry(behind + 6, bytes[1])
        ^ entry(behind + 7, bytes[0])
}

/// Eight bytes, with the register added to the first four.
fn with_register(register: u32, bytes: &[u8; 8]) -> [u8; 8]
    ensures len { length result ≡ 8 }
    ensures sum { from_le_bytes w64 result ≡ bit_xor (from_le_bytes w64 bytes.now) register }
{
    (u64::from_le_bytes(*bytes) ^ u64::from(register)).to_le_bytes()
}

/// The register after eight more bytes.
fn after_eight(register: u32, bytes: &[u8; 8]) -> u32
    ensures { result ≡ after_bits register (flat_map bits_of bytes.now) }
{
    folded(&with_register(register, bytes), 0)
}

/// The register after sixteen more bytes, of which it meets the first eight alone.
fn after_sixteen(register: u32, first: &[u8; 8], second: &[u8; 8]) -> u32
    ensures { result ≡ after_bits register (flat_map bits_of (first.now ++ second.now)) }
{
    folded(second, 0) ^ folded(&with_register(register, first), 8)
}

/// The register after more bytes.
pub(crate) fn extended(register: u32, bytes: &[u8]) -> u32
    ensures { result ≡ after_bits register (flat_map bits_of bytes.now) }
{
    let mut register = register;
    let mut rest = bytes;
    while let Some((first, behind)) = rest.split_first_chunk() {
        if let Some((second, behind)) = behind.split_first_chunk() {
            register = after_sixteen(register, first, second);
            rest = behind;
        } else {
            register = after_eight(register, first);
            rest = behind;
        }
    }
    for byte in rest {
        register = after_byte(register, *byte);
    }
    register
}

/// The CRC-32C of the bytes, as a number.
#[tactic(auto, unfolding(crate::specs::Crc::checksum))]
pub fn crc32c(bytes: &[u8]) -> u32
    ensures { result ≡ checksum bytes.now }
{
    !extended(ONES, bytes)
}

/// The form in which a log stores a checksum: turned right by 15 bits, and a constant added.
///
/// A checksum over bytes that hold checksums is weak, so a stored one is changed.
pub fn masked(crc: u32) -> u32
    ensures { result ≡ masked_of crc }
{
    crc.rotate_right(15).wrapping_add(0xA282_EAD8)
}
