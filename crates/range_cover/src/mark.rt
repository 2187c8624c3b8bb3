//! Range deletes, in the order of their numbers.

ghost use Rattle.std.specs.Prelude.{◌≡◌, ◌<◌, ◌≤◌, ltb, ◌∷◌, length, vec_len, slice_index_or, IsTrue, IfOk, OnOk, OnErr, ◌↔◌};
ghost use Rattle.std.specs.List.Sorted.{IsPermutation};
ghost use Rattle.range_cover.specs.declared.mark.RangeMark.{RangeMark};
ghost use Rattle.range_cover.specs.Marks.{StandsBefore, HasKey, TellsNewestOver, AreInNumberOrder, IsBoundary};

use crate::within::is_within;
use wal_base::{Blob, NoMemory};

/// A range of keys that lost their values by a number: those from its start on and before its end.
#[derive(Drop)]
pub struct RangeMark {
    pub start: Blob,
    pub end: Blob,
    pub number: u64,
}

impl RangeMark {
    /// Whether its start is before its end: no key is within its range else.
    pub(crate) fn covers_some(&self) -> bool
        ensures { IsTrue result ↔ StandsBefore self.now.start self.now.end }
    {
        let end = self.end.as_slice();
        self.start.as_slice().cmp(&end).is_lt()
    }

    /// Whether a key is within its range.
    pub(crate) fn has_key(&self, key: &[u8]) -> bool
        ensures { IsTrue result ↔ HasKey self.now key.now }
    {
        is_within(self.start.as_slice(), self.end.as_slice(), key)
    }
}

/// How many of the range deletes have a number below this one: so many at the front.
pub(crate) fn count_below(marks: &[RangeMark], below: u64) -> usize
    requires order { AreInNumberOrder marks.now }
    ensures within { result ≤ length marks.now }
    ensures boundary { IsBoundary marks.now below result }
{
    marks.partition_point(
        |mark: &RangeMark| -> bool
            ensures { result ≡ ltb mark.now.number below }
        { mark.number < below },
    )
}

/// Puts a range delete in where its number belongs, and tells the place. After an error all are as before.
pub(crate) fn insert_mark(marks: &mut Vec<RangeMark>, mark: RangeMark) -> Result<usize, NoMemory>
    requires order { AreInNumberOrder marks.old.items }
    ensures order { OnOk result (AreInNumberOrder marks.new.items) }
    ensures added { OnOk result (IsPermutation (mark ∷ marks.old.items) marks.new.items) }
    ensures within { IfOk result (λ place. place < vec_len marks.new) }
    ensures at { IfOk result
        (λ place. (other : RangeMark) → slice_index_or marks.new.items place other ≡ mark) }
    ensures same { OnErr result (marks.new.items ≡ marks.old.items) }
{
    let place = count_below(marks.as_slice(), mark.number);
    marks.insert(place, mark)?;
    Ok(place)
}

/// The greatest number below a bound among the range deletes that the key is within. It goes over those below the bound,
/// the newest first.
pub(crate) fn newest_below(marks: &[RangeMark], key: &[u8], below: u64) -> Option<u64>
    requires order { AreInNumberOrder marks.now }
    ensures { TellsNewestOver marks.now key.now below result }
{
    let mut place = count_below(marks, below);
    while place > 0 {
        place -= 1;
        let mark = &marks[place];
        if mark.has_key(key) {
            return Some(mark.number);
        }
    }
    None
}
