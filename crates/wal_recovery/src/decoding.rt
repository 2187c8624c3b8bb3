//! The batches of records, and those of them that take a number.

ghost use Rattle.std.specs.Prelude.{◌≡◌, IfOk, IfErr};
ghost use Rattle.batch_repr.specs.Blocks.{AddsSpelled};
ghost use Rattle.wal_recovery.specs.Recovering.{taking_numbers, Spell};
ghost use Rattle.wal_recovery.specs.Refused.{IsBadRecord};
ghost use Rattle.wal_recovery.specs.Decoded.{BadOrMemory, IsBadAt};

use batch_repr::{Batch, BatchFault, BatchReader, Batches};
use block_record::Rec;
use std::alloc::Global;
use thiserror::Error;
use wal_base::NoMemory;

/// Why records were not decoded.
#[derive(Clone, Copy, Debug, PartialEq, Eq, Error)]
pub(crate) enum DecodeFault {
    /// The record at this place is no batch.
    #[error("no batch stands at {place}: {fault}")]
    Bad { place: u64, fault: BatchFault },
    /// Memory ran out.
    #[error("out of memory")]
    NoMemory,
}

impl From<NoMemory> for DecodeFault {
    ghost use Rattle.std.specs.Prelude.{◌≡◌};
    ghost use Rattle.wal_recovery.specs.declared.decoding.DecodeFault.TheVariants as faults;

    ghost from_gives = { λ _ e. e ≡ faults.NoMemory };

    fn from(_: NoMemory) -> DecodeFault {
        DecodeFault::NoMemory
    }
}

/// Reads the batch of one record more, in its bytes.
fn add_record(so_far: BatchReader, whole: &Rec) -> Result<BatchReader, DecodeFault>
    ensures spelled { IfOk result (AddsSpelled whole.now.bytes so_far) }
    ensures bad { IfErr result (BadOrMemory (IsBadAt whole.now)) }
{
    match so_far.add(&whole.bytes) {
        Ok(more) => Ok(more),
        Err(BatchFault::NoMemory) => Err(DecodeFault::NoMemory),
        Err(fault) => Err(DecodeFault::Bad {
            place: whole.at,
            fault,
        }),
    }
}

/// The batches that the records spell, up to the first record that spells none.
pub(crate) fn batches_of(alloc: Global, records: &[Rec]) -> Result<Batches, DecodeFault>
    ensures spelled { IfOk result (Spell records.now) }
    ensures bad { IfErr result (BadOrMemory (IsBadRecord records.now)) }
{
    let mut so_far = BatchReader::with_capacity(alloc, records.len())?;
    for whole in records {
        so_far = add_record(so_far, whole)?;
    }
    let batches = so_far.finish()?;
    Ok(batches)
}

/// The batches that take a number, whose entries are shared with those of the report.
pub(crate) fn counted_of(alloc: Global, batches: &[Batch]) -> Result<Batches, NoMemory>
    ensures { IfOk result (λ shared. shared ≡ taking_numbers batches.now) }
{
    let mut counted = Batches::with_capacity(alloc, batches.len())?;
    for batch in batches {
        if batch.count() > 0 {
            let same = batch.share()?;
            if counted.push(same).is_err() {
                return Err(NoMemory);
            }
        }
    }
    Ok(counted)
}
