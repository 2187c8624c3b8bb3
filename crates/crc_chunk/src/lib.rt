//! The checksum of a log's bytes, CRC-32C, and one chunk of a log: a header and a payload. A chunk has a sync offset in its
//! header, or has none.
//!
//! `crc32c` takes sixteen bytes a turn by sixteen tables, and is proved equal to the definition bit by bit.
//! `put_sync_chunk` writes a chunk with a sync offset, `sync_header_of` what stands before its payload, and `put_chunk` a
//! chunk without one, as logs once had them. `chunk_at` finds a chunk of either form where it stands in a block, `chunk_in`
//! where it stands in a segment. All five speak of one definition of a chunk's bytes.
//!
//! It stands on std alone. The layer above cuts records into chunks: it writes by `sync_header_of`, reads by `chunk_in`, and
//! measures by `HEADER`, `SYNC_HEADER` and `BLOCK`.
#![tactic(auto)]

mod chunk;
mod crc;
mod segment;
mod table;
#[cfg(test)]
mod tests;

pub use chunk::{
    BLOCK, ChunkKind, ChunkSpan, HEADER, SYNC_HEADER, chunk_at, put_chunk, put_sync_chunk,
    sync_header_of,
};
pub use crc::{crc32c, masked};
pub use segment::chunk_in;
