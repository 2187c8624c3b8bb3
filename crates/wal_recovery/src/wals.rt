//! A row of segments, WAL by WAL.

ghost use Rattle.std.specs.Prelude.{◌≡◌, ◌≤◌, ◌<◌, [], All, length, take, drop, IfOk};
ghost use Rattle.wal_recovery.specs.declared.listing.Found.{Found};
ghost use Rattle.wal_recovery.specs.Rows.{BeginsElsewhere, Groups};

use crate::listing::Found;
use std::alloc::Global;
use wal_base::{ListOf, NoMemory};

/// The segments of one WAL, by their indexes.
#[derive(Drop)]
pub(crate) struct FoundWal {
    pub(crate) number: u64,
    pub(crate) segments: Vec<Found>,
}

/// WALs, by their numbers.
pub(crate) type FoundWals = ListOf<FoundWal>;

/// How many segments at the front are of this WAL.
fn count_own(row: &[Found], number: u64) -> usize
    ensures within { result ≤ length row.now }
    ensures own { All (λ (f : Found). f.name.wal ≡ number) (take result row.now) }
    ensures other { BeginsElsewhere number (drop result row.now) }
{
    let mut count = 0;
    while count < row.len() && row[count].name.wal == number {
        count += 1;
    }
    count
}

/// The segments of one WAL, in a list of their own.
fn wal_of(alloc: Global, number: u64, own: &[Found]) -> Result<FoundWal, NoMemory>
    ensures number { IfOk result (λ wal. wal.number ≡ number) }
    ensures segments { IfOk result (λ wal. wal.segments.items ≡ own.now) }
{
    match Vec::from_slice(alloc, own) {
        Ok(segments) => Ok(FoundWal { number, segments }),
        Err(_) => Err(NoMemory),
    }
}

/// Cuts a row where a new WAL begins.
pub(crate) fn by_wal(alloc: Global, row: &[Found]) -> Result<FoundWals, NoMemory>
    ensures { IfOk result (λ wals. Groups wals row.now []) }
{
    let mut wals = FoundWals::new(alloc);
    let mut rest = row;
    while let Some(first) = rest.first() {
        let number = first.name.wal;
        let (own, later) = rest.split_at(count_own(rest, number));
        let wal = wal_of(alloc, number, own)?;
        if wals.push(wal).is_err() {
            return Err(NoMemory);
        }
        rest = later;
    }
    Ok(wals)
}
