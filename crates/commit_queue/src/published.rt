//! What a try to publish came to.

/// What a try to publish came to.
#[derive(Clone, Copy, Debug, PartialEq, Eq)]
pub enum Published {
    /// The batch of this index was taken from the front, and the visible number is at least its
    /// end, which is told.
    Raised { index: u64, visible: u64 },
    /// Head was tail, and `word` is 0; or the tail's slot was read as `word`, which is 0 or not
    /// marked.
    NotReady { head: u32, tail: u32, word: u64 },
    /// Another took the front first: these ends were found.
    Raced { head: u32, tail: u32 },
}
