//! `crc32c` as a C program calls it: a static library for the bench of the checksum.
//!
//! Stands on `crc_chunk` alone, whose contract it hands on.
#![tactic(auto)]

ghost use Rattle.std.specs.Prelude.{◌≡◌};
ghost use Rattle.crc_chunk.specs.Crc.{checksum};

/// The checksum of the bytes.
#[unsafe(no_mangle)]
pub extern "C" fn crc_chunk_crc32c(bytes: &[u8]) -> u32
    ensures { result ≡ checksum bytes.now }
{
    crc_chunk::crc32c(bytes)
}
