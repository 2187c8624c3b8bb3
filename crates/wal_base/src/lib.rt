//! Bytes, lists, entries, and the streams that a run reads from and writes to.
//!
//! Stands on nothing of this repository. The layers above use the lists of bytes and of items, each seen as
//! a plain list, and the two streams, by one contract: a fault is answered only where a count of faults rose.
//!
//! What holds of each value here: a source never tells bytes that it has handed out, a sink tells what it
//! took and nothing else, and no count falls.
#![tactic(auto)]

mod bytes;
mod entry;
mod error;
mod list;
mod mem_streams;
mod std_streams;
mod stream;

pub use bytes::{Blob, Buf};
pub use entry::{Entries, Entry};
pub use error::NoMemory;
pub use list::ListOf;
pub use mem_streams::{MemSink, MemSource};
pub use std_streams::{StdSink, StdSource};
pub use stream::{PutErr, ReadFault, Sink, Source};

#[cfg(test)]
mod tests;
