//! The run over the list.

use crate::draws::Draws;
use arena_list::{ArenaList, Found};
use std::alloc::Global;
use wal_base::{Blob, NoMemory};

/// A list of all versions.
pub(crate) fn fill(alloc: Global, draws: &Draws) -> Result<ArenaList, NoMemory> {
    let value = Blob::copy_of(alloc, b"value")?;
    let mut list = ArenaList::new(alloc)?;
    for number in 0..draws.shape.versions {
        let Some(key) = draws.key(number) else {
            return Ok(list);
        };
        let key = key.share()?;
        let value = value.share()?;
        if list.insert(key, u64::from(number), Some(value)).is_err() {
            return Err(NoMemory);
        }
    }
    Ok(list)
}

/// Reads as many keys as there are versions, and answers how many have one.
pub(crate) fn read(list: &ArenaList, draws: &Draws) -> u64 {
    let mut found = 0u64;
    for number in 0..draws.shape.versions {
        let Some(key) = draws.key_read(number) else {
            return found;
        };
        if let Found::Value { .. } = list.newest(key.as_slice(), u64::MAX) {
            found = found.saturating_add(1);
        }
    }
    found
}
