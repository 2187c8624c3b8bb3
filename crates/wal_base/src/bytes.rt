//! Lists of bytes: one that stays as it is, and one that grows.

ghost use Rattle.std.specs.Prelude.{◌≡◌, ◌≤◌, ℕ, List, [], ◌++◌, length, take, slice_range, IfOk, OnOk, OnErr};
ghost use Rattle.std.specs.Arc.{arc_value};

use crate::NoMemory;
use std::alloc::Global;
use std::fmt;
use std::marker::Model;
use std::mem::size_of;
use std::sync::Arc;

/// Bytes that stay as they are: a part of bytes that others may share, of which there are less than 2^32. Contracts see
/// the list of them.
#[derive(Drop)]
pub struct Blob {
    bytes: Arc<Vec<u8>>,
    from: u32,
    to: u32,
}

// Each entry and each node of an index has two of them.
const _: () = prove!(size_of::<Blob>() == 16);

impl Model for Blob {
    ghost use Rattle.std.specs.Prelude.{List, ℕ, ◌≤◌, ◌<◌, ◌^◌, length, slice_range};
    ghost use Rattle.std.specs.Arc.{arc_value};

    ghost Value = { List ℕ };

    ghost view = { λ a. slice_range (arc_value a.bytes).items a.from a.to };

    ghost invariant = { λ a. (a.from ≤ a.to) × (a.to ≤ length (arc_value a.bytes).items) × (a.to < 2 ^ 32) };
}

impl Blob {
    /// Holds a copy of the bytes.
    pub fn copy_of(alloc: Global, bytes: &[u8]) -> Result<Blob, NoMemory>
        ensures { IfOk result (λ blob. blob ≡ bytes.now) }
    {
        let bytes = Vec::from_slice(alloc, bytes)?;
        Blob::of_vec(alloc, bytes)
    }

    /// Takes the bytes over, with no copy. 2^32 bytes and more are out of memory.
    pub fn of_vec(alloc: Global, bytes: Vec<u8>) -> Result<Blob, NoMemory>
        ensures { IfOk result (λ blob. blob ≡ bytes.items) }
    {
        let Ok(to) = u32::try_from(bytes.len()) else {
            return Err(NoMemory);
        };
        let bytes = Arc::new(alloc, bytes)?;
        Ok(Blob { bytes, from: 0, to })
    }

    /// The bytes from one place up to another, which are shared and not copied.
    pub fn part(&self, from: usize, to: usize) -> Result<Blob, NoMemory>
        requires order { from ≤ to }
        requires within { to ≤ length self.now }
        ensures { IfOk result (λ blob. blob ≡ slice_range self.now from to) }
    {
        let start = self.from as usize;
        let bytes = Arc::try_clone(&self.bytes)?;
        Ok(Blob {
            bytes,
            from: (start + from) as u32,
            to: (start + to) as u32,
        })
    }

    /// The same bytes, which are shared and not copied.
    pub fn share(&self) -> Result<Blob, NoMemory>
        ensures { IfOk result (λ blob. blob ≡ self.now) }
    {
        let bytes = Arc::try_clone(&self.bytes)?;
        Ok(Blob {
            bytes,
            from: self.from,
            to: self.to,
        })
    }

    /// Shows the bytes.
    pub fn as_slice(&self) -> &[u8]
        ensures { result.now ≡ self.now }
    {
        &self.bytes[self.from as usize..self.to as usize]
    }
}

impl fmt::Debug for Blob {
    fn fmt<W: fmt::Write>(&self, f: &mut fmt::Formatter<W>) -> fmt::Result {
        f.debug_tuple("Blob").field(&self.as_slice()).finish()
    }
}

/// A growing list of bytes. Contracts see the list of them.
#[derive(Debug, Drop)]
pub struct Buf {
    bytes: Vec<u8>,
}

impl Model for Buf {
    ghost Value = { List ℕ };

    ghost view = { λ a. a.bytes.items };
}

/// How many bytes a new buffer has room for.
const FIRST_ROOM: usize = 64;

impl Buf {
    /// Holds nothing. Room for the first bytes is made now.
    pub fn new(alloc: Global) -> Result<Buf, NoMemory>
        ensures { IfOk result (λ buf. buf ≡ []) }
    {
        Buf::with_capacity(alloc, FIRST_ROOM)
    }

    /// Holds nothing. Room for so many bytes is made now: adding them moves none of the others.
    pub fn with_capacity(alloc: Global, capacity: usize) -> Result<Buf, NoMemory>
        ensures { IfOk result (λ buf. buf ≡ []) }
    {
        let bytes = Vec::with_capacity(alloc, capacity)?;
        Ok(Buf { bytes })
    }

    /// Adds the bytes at the end.
    pub fn append(&mut self, bytes: &[u8]) -> Result<(), NoMemory>
        ensures ok { OnOk result (self.new ≡ self.old ++ bytes.now) }
        ensures err { OnErr result (self.new ≡ self.old) }
    {
        match self.bytes.extend_from_slice(bytes) {
            Ok(()) => Ok(()),
            Err(_) => Err(NoMemory),
        }
    }

    /// Shows the bytes.
    pub fn as_slice(&self) -> &[u8]
        ensures { result.now ≡ self.now }
    {
        self.bytes.as_slice()
    }

    /// Keeps the first `len` bytes, or all where there are fewer, and keeps its room.
    pub fn truncate(&mut self, len: usize)
        ensures { self.new ≡ take len self.old }
    {
        self.bytes.truncate(len);
    }

    /// Empties it, and keeps its room.
    pub fn clear(&mut self)
        ensures { self.new ≡ [] }
    {
        self.bytes.clear();
    }
}
