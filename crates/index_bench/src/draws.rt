//! Which keys are inserted and read, and in which order.

use std::alloc::Global;
use wal_base::{Blob, NoMemory};

/// How many versions of how many keys there are, and in which order they come.
#[derive(Clone, Copy)]
pub(crate) struct Shape {
    pub(crate) versions: u32,
    pub(crate) keys: u32,
    /// How many bytes a key has: 8 at least.
    pub(crate) len: usize,
    /// Whether keys come in their order, each with all its versions; or by chance.
    pub(crate) ordered: bool,
}

/// Keys, from which versions draw theirs.
#[derive(Drop)]
pub(crate) struct Draws {
    pub(crate) shape: Shape,
    /// In ascending order.
    keys: Vec<Blob>,
}

/// A number that looks as if it came by chance.
fn mixed(number: u64) -> u64 {
    let once = (number ^ (number >> 30)).wrapping_mul(0xbf58_476d_1ce4_e5b9);
    let twice = (once ^ (once >> 27)).wrapping_mul(0x94d0_49bb_1331_11eb);
    twice ^ (twice >> 31)
}

/// A key of this number: as many letters as it takes, and then the number.
fn key_of(alloc: Global, number: u64, len: usize) -> Result<Blob, NoMemory> {
    let mut bytes = Vec::with_capacity(alloc, len)?;
    for _ in 8..len {
        bytes.push(b'k')?;
    }
    for byte in number.to_be_bytes() {
        bytes.push(byte)?;
    }
    Blob::copy_of(alloc, bytes.as_slice())
}

impl Draws {
    /// Makes the keys.
    pub(crate) fn new(alloc: Global, shape: Shape) -> Result<Draws, NoMemory> {
        let mut keys = Vec::new(alloc);
        for number in 0..shape.keys {
            keys.push(key_of(alloc, u64::from(number), shape.len)?)?;
        }
        Ok(Draws { shape, keys })
    }

    /// The key of the version with this number. `None` where there is no key.
    pub(crate) fn key(&self, number: u32) -> Option<&Blob> {
        let keys = u64::from(self.shape.keys);
        let versions = u64::from(self.shape.versions);
        let place = if self.shape.ordered {
            (u64::from(number) * keys).checked_div(versions)
        } else {
            mixed(u64::from(number)).checked_rem(keys)
        };
        self.keys.get(place? as usize)
    }

    /// The key of a read. `None` where there is no key.
    pub(crate) fn key_read(&self, number: u32) -> Option<&Blob> {
        let place = mixed(!u64::from(number)).checked_rem(u64::from(self.shape.keys));
        self.keys.get(place? as usize)
    }
}
