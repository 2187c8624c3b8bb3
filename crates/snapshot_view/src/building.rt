//! The versions of keys and the range deletes that batches leave.

ghost use Rattle.std.specs.Prelude.{◌≡◌, ℕ, ◌≤◌, ◌∷◌, [], IfOk, OnOk};
ghost use Rattle.arena_list.specs.Versions.{version_with, Adds};
ghost use Rattle.batch_repr.specs.declared.limits.TheConstants.{NUMBER_MAX};
ghost use Rattle.batch_repr.specs.Batches.{is_counted, end_of, end_after};
ghost use Rattle.batch_repr.specs.Versions.{versions_from, versions_of, versions_in};
ghost use Rattle.snapshot_view.specs.Building.{AreBelow, TakesVersions, TakesRanges};
ghost use Rattle.snapshot_view.specs.Views.{CanBeViewed};

use arena_list::ArenaList;
use batch_repr::Batch;
use range_cover::{RangeCover, RangeMark};
use wal_base::{Blob, Entry, NoMemory};

/// Adds what a key is left with by a number, which is greater than all before.
fn add_version(
    versions: &mut ArenaList,
    key: Blob,
    number: u64,
    value: Option<Blob>,
) -> Result<(), NoMemory>
    requires { AreBelow versions.old.versions number }
    ensures { OnOk result
        (Adds versions.old.versions (version_with key number value) versions.new.versions) }
{
    match versions.insert(key, number, value) {
        Ok(()) => Ok(()),
        Err(_) => Err(NoMemory),
    }
}

/// Adds what an entry leaves under a number, if it takes one. Answers whether it does.
fn add_entry(
    versions: &mut ArenaList,
    ranges: &mut RangeCover,
    number: u64,
    entry: &Entry,
) -> Result<bool, NoMemory>
    requires { AreBelow versions.old.versions number }
    ensures counted { IfOk result (λ counted. counted ≡ is_counted entry.now) }
    ensures keys { OnOk result (TakesVersions versions.old.versions
        (versions_from number (entry.now ∷ [])) versions.new.versions) }
    ensures deletes { OnOk result (TakesRanges ranges.old
        (versions_from number (entry.now ∷ [])) ranges.new) }
{
    match entry {
        Entry::Set { key, value } => {
            let value = value.share()?;
            add_version(versions, key.share()?, number, Some(value))?;
            Ok(true)
        }
        Entry::Delete { key } => {
            add_version(versions, key.share()?, number, None)?;
            Ok(true)
        }
        Entry::RangeDelete { start, end } => {
            ranges.add(RangeMark {
                start: start.share()?,
                end: end.share()?,
                number,
            })?;
            Ok(true)
        }
        Entry::Note { .. } => Ok(false),
    }
}

/// Adds what a batch leaves, whose numbers are greater than all before.
fn add_batch(
    versions: &mut ArenaList,
    ranges: &mut RangeCover,
    batch: &Batch,
) -> Result<(), NoMemory>
    requires below { AreBelow versions.old.versions batch.now.first }
    requires small { end_of batch.now ≤ NUMBER_MAX }
    ensures keys { OnOk result
        (TakesVersions versions.old.versions (versions_of batch.now) versions.new.versions) }
    ensures deletes { OnOk result
        (TakesRanges ranges.old (versions_of batch.now) ranges.new) }
{
    let mut number = batch.first;
    for entry in batch.entries.as_slice() {
        if add_entry(versions, ranges, number, entry)? {
            number += 1;
        }
    }
    Ok(())
}

/// Adds what batches leave.
pub(crate) fn add_batches(
    versions: &mut ArenaList,
    ranges: &mut RangeCover,
    batches: &[Batch],
) -> Result<(), NoMemory>
    requires none { versions.old.versions ≡ [] }
    requires row { (floor : ℕ) × CanBeViewed batches.now floor }
    ensures keys { OnOk result
        (TakesVersions versions.old.versions (versions_in batches.now) versions.new.versions) }
    ensures deletes { OnOk result
        (TakesRanges ranges.old (versions_in batches.now) ranges.new) }
{
    for batch in batches {
        add_batch(versions, ranges, batch)?;
    }
    Ok(())
}

/// The number after batches, and the floor where there are none.
pub(crate) fn end_of_batches(batches: &[Batch], floor: u64) -> u64
    requires { CanBeViewed batches.now floor }
    ensures { result ≡ end_after floor batches.now }
{
    match batches.last() {
        Some(batch) => batch.end(),
        None => floor,
    }
}
