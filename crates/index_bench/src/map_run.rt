//! The run over the map.

use crate::draws::Draws;
use std::alloc::Global;
use std::cmp::Reverse;
use std::collections::BTreeMap;
use wal_base::{Blob, NoMemory};

/// A key and a number, of which the greatest is first.
type Spot = (Vec<u8>, Reverse<u64>);

/// From a key and a number to a value or none.
pub(crate) type Map = BTreeMap<Spot, Option<Blob>, Global>;

/// A map of all versions.
pub(crate) fn fill(alloc: Global, draws: &Draws) -> Result<Map, NoMemory> {
    let value = Blob::copy_of(alloc, b"value")?;
    let mut map: Map = BTreeMap::new(alloc);
    for number in 0..draws.shape.versions {
        let Some(key) = draws.key(number) else {
            return Ok(map);
        };
        let key = Vec::from_slice(alloc, key.as_slice())?;
        let value = value.share()?;
        map.insert((key, Reverse(u64::from(number))), Some(value))?;
    }
    Ok(map)
}

/// Reads as many keys as there are versions, and answers how many have one.
pub(crate) fn read(alloc: Global, map: &Map, draws: &Draws) -> Result<u64, NoMemory> {
    let mut found = 0u64;
    let mut spot: Spot = (
        Vec::with_capacity(alloc, draws.shape.len)?,
        Reverse(u64::MAX),
    );
    for number in 0..draws.shape.versions {
        let Some(key) = draws.key_read(number) else {
            return Ok(found);
        };
        spot.0.clear();
        spot.0.extend_from_slice(key.as_slice())?;
        if let Some((at, Some(_))) = map.range(&spot..).next() {
            if at.0.as_slice() == key.as_slice() {
                found = found.saturating_add(1);
            }
        }
    }
    Ok(found)
}
