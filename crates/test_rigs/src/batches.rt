//! Batches of a few entries.

ghost use Rattle.std.specs.Prelude.{◌≡◌, ◌<◌, [], ◌∷◌, ◌++◌, IfOk, OnOk};
ghost use Rattle.wal_base.specs.declared.entry.Entry.TheVariants.{Set};
ghost use Rattle.batch_repr.specs.declared.limits.TheConstants.{NUMBER_MAX};
ghost use Rattle.test_rigs.specs.Changes.{added_entry, added_entries};

use batch_repr::{BatchBuilder, BuildFault, Numbered, Unnumbered};
use std::alloc::Global;
use wal_base::NoMemory;

/// An entry of a batch, by its bytes.
#[derive(Clone, Copy)]
pub enum Change<'a> {
    Set(&'a [u8], &'a [u8]),
    Delete(&'a [u8]),
    Note(&'a [u8]),
    RangeDelete(&'a [u8], &'a [u8]),
}

/// Adds a change at the end.
fn add(builder: &mut BatchBuilder, change: Change<'_>) -> Result<(), BuildFault>
    ensures { OnOk result (builder.new ≡ builder.old ++ added_entry change.entry ∷ []) }
{
    match change {
        Change::Set(key, value) => builder.set(key, value),
        Change::Delete(key) => builder.delete(key),
        Change::Note(bytes) => builder.note(bytes),
        Change::RangeDelete(start, end) => builder.delete_range(start, end),
    }
}

/// The batch of these changes. `Err` means out of memory, unless they make no batch.
pub fn batch_of(alloc: Global, changes: &[Change<'_>]) -> Result<Unnumbered, NoMemory>
    ensures { IfOk result (λ batch. batch ≡ added_entries changes.now) }
{
    let mut builder = BatchBuilder::new(alloc)?;
    for change in changes {
        if add(&mut builder, *change).is_err() {
            return Err(NoMemory);
        }
    }
    match builder.finish() {
        Ok(batch) => Ok(batch),
        Err(_) => Err(NoMemory),
    }
}

/// The batch of one Set that takes this number. `Err` means out of memory, unless the key or the value is too long.
pub fn numbered_set(
    alloc: Global,
    first: u64,
    key: &[u8],
    value: &[u8],
) -> Result<Numbered, NoMemory>
    requires { first < NUMBER_MAX }
    ensures { IfOk result (λ batch. batch ≡ record { first = first; entries = Set key.now value.now ∷ [] }) }
{
    let batch = batch_of(alloc, &[Change::Set(key, value)])?;
    Ok(batch.number(first))
}
