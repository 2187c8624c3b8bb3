//! The cover.

ghost use Rattle.std.specs.Prelude.{◌≡◌, ◌∷◌, [], IfOk, OnOk, OnErr};
ghost use Rattle.std.specs.List.Sorted.{IsPermutation};
ghost use Rattle.range_cover.specs.Marks.{TellsNewestOver};

use crate::edges::{NOTHING, add_edges, raise, top_at};
use crate::mark::{RangeMark, insert_mark, newest_below};
use arena_list::ArenaList;
use std::alloc::Global;
use std::marker::Model;
use wal_base::NoMemory;

/// Range deletes. Contracts see the list of them, by number ascending.
#[derive(Drop)]
pub struct RangeCover {
    marks: Vec<RangeMark>,
    edges: ArenaList,
}

impl Model for RangeCover {
    ghost use Rattle.std.specs.Prelude.{List};
    ghost use Rattle.range_cover.specs.declared.mark.RangeMark.{RangeMark};
    ghost use Rattle.range_cover.specs.Marks.{AreInNumberOrder};
    ghost use Rattle.range_cover.specs.Edges.{IsCover};

    ghost Value = { List RangeMark };

    ghost view = { λ a. a.marks.items };

    ghost invariant = { λ a. AreInNumberOrder a.marks.items × IsCover a.edges.versions a.marks.items };
}

impl RangeCover {
    /// Holds no range delete. Memory for the first edges is taken now.
    pub fn new(alloc: Global) -> Result<RangeCover, NoMemory>
        ensures { IfOk result (λ cover. cover ≡ []) }
    {
        Ok(RangeCover {
            marks: Vec::new(alloc),
            edges: ArenaList::new(alloc)?,
        })
    }

    /// Adds a range delete. After an error nothing that is told has changed.
    pub fn add(&mut self, mark: RangeMark) -> Result<(), NoMemory>
        ensures added { OnOk result (IsPermutation (mark ∷ self.old) self.new) }
        ensures same { OnErr result (self.new ≡ self.old) }
    {
        if !mark.covers_some() {
            insert_mark(&mut self.marks, mark)?;
            return Ok(());
        }
        // What may be refused comes first, and changes nothing that is told.
        add_edges(&mut self.edges, &mark)?;
        let place = insert_mark(&mut self.marks, mark)?;
        raise(&mut self.edges, &self.marks[place]);
        Ok(())
    }

    /// The greatest number below a bound among the range deletes that the key is within. It takes no memory.
    pub fn newest(&self, key: &[u8], below: u64) -> Option<u64>
        ensures { TellsNewestOver self.now key.now below result }
    {
        let top = top_at(&self.edges, key);
        if top == NOTHING {
            return None;
        }
        // The last number stands for each that does not fit.
        if top < u64::MAX && top - 2 < below {
            return Some(top - 2);
        }
        newest_below(self.marks.as_slice(), key, below)
    }
}
