//! What a batch leaves in a shard, in a node that waits to be settled.

ghost use Rattle.std.specs.Prelude.{◌≡◌, Some, IfOk};
ghost use Rattle.batch_repr.specs.Batches.{is_about};
ghost use Rattle.memtable_shards.specs.Newest.{told, told_of};

use arena_list::Found;
use range_cover::is_within;
use std::marker::Model;
use wal_base::{Blob, NoMemory};

/// What a batch changed: it left one key with a value or with none, or a range of keys without values. A note changes
/// nothing.
#[derive(Drop)]
pub(crate) enum Change {
    Key { key: Blob, value: Option<Blob> },
    Range { start: Blob, end: Blob },
}

/// A change, and its number.
#[derive(Drop)]
pub(crate) struct WaitingVersion {
    pub(crate) change: Change,
    pub(crate) number: u64,
}

impl Model for WaitingVersion {
    ghost use Rattle.memtable_shards.specs.Versions.{Version};
    ghost use Rattle.memtable_shards.specs.Parts.{entry_of};

    ghost Value = { Version };

    ghost view = { λ a. record { entry = entry_of a.change; number = a.number } };
}

impl Change {
    /// The same, whose bytes are shared and not copied.
    fn share(&self) -> Result<Change, NoMemory>
        ensures { IfOk result (λ change. change ≡ self.now) }
    {
        match self {
            Change::Key { key, value: None } => Ok(Change::Key {
                key: key.share()?,
                value: None,
            }),
            Change::Key {
                key,
                value: Some(bytes),
            } => Ok(Change::Key {
                key: key.share()?,
                value: Some(bytes.share()?),
            }),
            Change::Range { start, end } => Ok(Change::Range {
                start: start.share()?,
                end: end.share()?,
            }),
        }
    }
}

impl WaitingVersion {
    /// Whether it is about a key.
    pub(crate) fn is_about(&self, key: &[u8]) -> bool
        ensures { result ≡ is_about key.now self.now.entry }
    {
        match &self.change {
            Change::Key { key: own, .. } => own.as_slice() == key,
            Change::Range { start, end } => is_within(start.as_slice(), end.as_slice(), key),
        }
    }

    /// What is found of a key that it is about, where it is the newest version.
    pub(crate) fn found(&self) -> Found<'_>
        ensures { told result ≡ Some (told_of self.now) }
    {
        let seq = self.number;
        match &self.change {
            Change::Key {
                value: Some(bytes),
                ..
            } => Found::Value {
                seq,
                bytes: bytes.as_slice(),
            },
            Change::Key { value: None, .. } | Change::Range { .. } => Found::Gone { seq },
        }
    }

    /// The same, whose bytes are shared and not copied.
    pub(crate) fn share(&self) -> Result<WaitingVersion, NoMemory>
        ensures { IfOk result (λ version. version ≡ self.now) }
    {
        Ok(WaitingVersion {
            change: self.change.share()?,
            number: self.number,
        })
    }
}
