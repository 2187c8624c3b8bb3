//! Records as chunks over the blocks of a segment, and back.
//!
//! `Framer` cuts records into chunks, one record after another, and writes them after what a buffer holds. What
//! it writes is the one framing that the definition gives, the zeros at a block's end included. `read_out` finds
//! the records that a segment's longest chain of chunks spells, whatever the segment's bytes are, and tells the chunk that
//! shows the bytes after them corrupt, if one does. `read_out_shared` does so in the segment's own bytes, which it takes over:
//! its records are parts of them.
//!
//! It stands on `crc_chunk` for one chunk, and on `wal_base` for buffers and lists. The layer above keeps a
//! `Framer` for each segment that it writes, lets a copy of it pass over the records before it makes room for them, and reads
//! a segment that was left by `read_out_shared`, or by `read_out` where its bytes are still needed.
#![tactic(auto)]

mod framer;
mod joining;
mod reading;
mod records;
#[cfg(test)]
mod tests;
mod theorems;

pub use framer::{Framer, RECORD_MAX};
pub use reading::{read_out, read_out_shared};
pub use records::{ReadOut, Rec, Records, Shown};
pub use theorems::{first_records_are_read, laid_records_are_read, next_record_is_laid_after};
