//! Which words a table has (docs/formats/ring.md, "The ring").

use memtable_shards::SHARDS;
use publish_core::SLOTS;

/// The word of both ends of the ring: head in its high half and tail in its low one.
pub(crate) const ENDS: usize = 0;

/// The word of the visible number.
pub(crate) const VISIBLE: usize = 1;

/// The word of the acked number.
pub(crate) const ACKED: usize = 2;

/// The word of the ring's first slot: 0, or twice a batch's end, and 1 more once the batch is marked.
pub(crate) const RING_FROM: usize = 3;

/// The word of the first shard: 1 where a seat has the turn on it, and else 0.
pub(crate) const TURNS_FROM: usize = RING_FROM + SLOTS as usize;

/// How many words there are.
pub(crate) const WORDS: usize = TURNS_FROM + SHARDS;

/// What the low half of a word stays below.
pub(crate) const HALF: u64 = 1 << 32;
