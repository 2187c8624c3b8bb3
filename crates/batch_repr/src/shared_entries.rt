//! The entries of a batch, which stand in a block that batches share.

ghost use Rattle.std.specs.Prelude.{◌≡◌, ◌↔◌, ◌≤◌, [], length, slice_get, slice_range, IsTrue, IfOk};
ghost use Rattle.std.specs.Option.{option_copied};
ghost use Rattle.std.specs.Arc.{arc_value};

use std::alloc::Global;
use std::fmt;
use std::marker::Model;
use std::sync::Arc;
use wal_base::{Entries, Entry, NoMemory};

/// Entries that stay as they are: a part of a block that others may share. Contracts see the list of them.
#[derive(Drop)]
pub struct SharedEntries {
    block: Arc<Vec<Entry>>,
    from: u32,
    to: u32,
}

impl Model for SharedEntries {
    ghost use Rattle.std.specs.Prelude.{List, ◌≤◌, length, slice_range};
    ghost use Rattle.std.specs.Arc.{arc_value};
    ghost use Rattle.wal_base.specs.declared.entry.Entry.{Entry};

    ghost Value = { List Entry };

    ghost view = { λ a. slice_range (arc_value a.block).items a.from a.to };

    ghost invariant = { λ a. (a.from ≤ a.to) × (a.to ≤ length (arc_value a.block).items) };
}

impl SharedEntries {
    /// Takes the entries over, as a block of their own. No memory holds 2^32 of them.
    pub fn of(alloc: Global, entries: Vec<Entry>) -> Result<SharedEntries, NoMemory>
        ensures { IfOk result (λ shared. shared ≡ entries.items) }
    {
        let Ok(to) = u32::try_from(entries.len()) else {
            return Err(NoMemory);
        };
        let block = Arc::new(alloc, entries)?;
        Ok(SharedEntries { block, from: 0, to })
    }

    /// The entries of a block from one place up to another, which are shared and not copied.
    pub(crate) fn part(
        block: &Arc<Vec<Entry>>,
        from: u32,
        to: u32,
    ) -> Result<SharedEntries, NoMemory>
        requires order { from ≤ to }
        requires within { to ≤ length (arc_value block.now).items }
        ensures { IfOk result (λ entries. entries ≡ slice_range (arc_value block.now).items from to) }
    {
        let block = Arc::try_clone(block)?;
        Ok(SharedEntries { block, from, to })
    }

    /// The same entries, which are shared and not copied.
    pub fn share(&self) -> Result<SharedEntries, NoMemory>
        ensures { IfOk result (λ entries. entries ≡ self.now) }
    {
        let block = Arc::try_clone(&self.block)?;
        Ok(SharedEntries {
            block,
            from: self.from,
            to: self.to,
        })
    }

    /// The same entries as a list of their own, whose bytes are shared and not copied.
    pub fn to_entries(&self, alloc: Global) -> Result<Entries, NoMemory>
        ensures { IfOk result (λ entries. entries ≡ self.now) }
    {
        let held = self.as_slice();
        let mut entries = Entries::with_capacity(alloc, held.len())?;
        for entry in held {
            let same = entry.share()?;
            if entries.push(same).is_err() {
                return Err(NoMemory);
            }
        }
        Ok(entries)
    }

    /// How many entries there are.
    pub fn len(&self) -> usize
        ensures { result ≡ length self.now }
    {
        self.as_slice().len()
    }

    /// Whether there is no entry.
    pub fn is_empty(&self) -> bool
        ensures { IsTrue result ↔ (self.now ≡ []) }
    {
        self.as_slice().is_empty()
    }

    /// The entry at a place, counted from 0. `None` exactly where the place is not below the length.
    pub fn get(&self, at: usize) -> Option<&Entry>
        ensures { option_copied result ≡ slice_get self.now at }
    {
        self.as_slice().get(at)
    }

    /// Shows the entries.
    pub fn as_slice(&self) -> &[Entry]
        ensures { result.now ≡ self.now }
    {
        &self.block[self.from as usize..self.to as usize]
    }
}

impl fmt::Debug for SharedEntries {
    fn fmt<W: fmt::Write>(&self, f: &mut fmt::Formatter<W>) -> fmt::Result {
        f.debug_tuple("SharedEntries")
            .field(&self.as_slice())
            .finish()
    }
}
