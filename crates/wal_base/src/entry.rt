//! Entries of batches.

ghost use Rattle.std.specs.Prelude.{◌≡◌, ◌≢◌, IfOk, MatchBool};

use crate::NoMemory;
use crate::bytes::Blob;
use crate::list::ListOf;

/// One entry of a batch: a change of a key or of a range of keys, or a note that changes nothing.
#[derive(Debug, Drop)]
pub enum Entry {
    /// The key has this value from now on.
    Set { key: Blob, value: Blob },
    /// The key has no value from now on.
    Delete { key: Blob },
    /// Bytes that go to the log alone.
    Note { bytes: Blob },
    /// No key from the start on and before the end has a value from now on.
    RangeDelete { start: Blob, end: Blob },
}

impl Entry {
    /// The same entry, whose bytes are shared and not copied.
    pub fn share(&self) -> Result<Entry, NoMemory>
        ensures { IfOk result (λ entry. entry ≡ self.now) }
    {
        match self {
            Entry::Set { key, value } => Ok(Entry::Set {
                key: key.share()?,
                value: value.share()?,
            }),
            Entry::Delete { key } => Ok(Entry::Delete { key: key.share()? }),
            Entry::Note { bytes } => Ok(Entry::Note {
                bytes: bytes.share()?,
            }),
            Entry::RangeDelete { start, end } => Ok(Entry::RangeDelete {
                start: start.share()?,
                end: end.share()?,
            }),
        }
    }

    /// Whether the entries are of one kind and have the same bytes.
    pub fn same_as(&self, other: &Entry) -> bool
        ensures { MatchBool result (self.now ≡ other.now) (self.now ≢ other.now) }
    {
        match (self, other) {
            (Entry::Set { key, value }, Entry::Set { key: k, value: v }) => {
                key.as_slice() == k.as_slice() && value.as_slice() == v.as_slice()
            }
            (Entry::Delete { key }, Entry::Delete { key: k }) => key.as_slice() == k.as_slice(),
            (Entry::Note { bytes }, Entry::Note { bytes: b }) => bytes.as_slice() == b.as_slice(),
            (Entry::RangeDelete { start, end }, Entry::RangeDelete { start: s, end: e }) => {
                start.as_slice() == s.as_slice() && end.as_slice() == e.as_slice()
            }
            _ => false,
        }
    }
}

/// The entries of a batch, in their order.
pub type Entries = ListOf<Entry>;
