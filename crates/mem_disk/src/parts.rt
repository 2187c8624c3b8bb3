//! What a disk in memory keeps of its files and its operations.

ghost use Rattle.std.specs.Prelude.{◌≤◌, length};

use disk_face::{FilePlace, SegName, Side};

/// A segment of which a creation was started, or that was put, or a table. Until it is created a segment reads as
/// empty, whatever stands in its other fields, and a table as far as it is done.
#[derive(Drop)]
pub struct MemFile {
    /// Where it stands.
    pub place: FilePlace,
    /// The bytes of all writes started, in order.
    pub sent: Vec<u8>,
    /// How many of them the completed writes cover. A read gives these.
    pub done: usize,
    /// How many of them a completed sync covers.
    pub stable: usize,
    /// Whether its creation was completed.
    pub created: bool,
    /// Whether its removal was begun and not completed.
    pub leaving: bool,
    ghost within: { done ≤ length sent.items },
    ghost ordered: { stable ≤ done },
}

/// What an operation does.
#[derive(Clone, Copy)]
pub enum MemAct {
    /// Makes the file.
    Create,
    /// Adds bytes to it.
    Write,
    /// Makes what is done stable.
    Sync,
}

/// An operation that was started. It is on a segment, since no operation is on a table.
#[derive(Clone, Copy)]
pub struct MemOp {
    /// In which directory.
    pub side: Side,
    /// On which segment.
    pub name: SegName,
    /// What it does.
    pub act: MemAct,
    /// Whether it is still in flight.
    pub live: bool,
}
