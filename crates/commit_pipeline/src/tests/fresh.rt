//! Disks in memory of which operations are to fail, and a journal over one.
ghost use Rattle.std.specs.Prelude.{◌≡◌, ◌≤◌};
ghost use Rattle.batch_repr.specs.declared.limits.TheConstants.{NUMBER_FIRST};
ghost use Rattle.failover_writer.specs.State.{len};

use batch_repr::NUMBER_FIRST;
use failover_writer::Journal;
use mem_disk::MemDisk;
use std::alloc::Global;
use std::process::Abort;
use test_rigs::Fresh;

/// A disk on which so many operations are to fail: the one of this number, and then one in so many.
pub(crate) fn failing(rt: &impl Abort, alloc: Global, first: u64, every: u64, count: u64) -> Fresh {
    let mut fresh = Fresh::new(alloc).expect(rt, "memory");
    for place in 0..count {
        let number = first.wrapping_add(every.wrapping_mul(place));
        fresh.fail_op(number).expect(rt, "memory");
    }
    fresh
}

/// A journal of no record over the disk, which stays with it. From so many pending polls on a segment hangs.
pub(crate) fn journal_over(
    rt: &impl Abort,
    alloc: Global,
    fresh: Fresh,
    threshold: u32,
) -> Journal<MemDisk>
    requires threshold { (1 ≤ threshold) × (threshold ≤ 1000) }
    ensures empty { len result.state ≡ 0 }
    ensures next { result.state.next ≡ NUMBER_FIRST }
{
    let disk = fresh.into_disk();
    match Journal::start(alloc, disk, 1, NUMBER_FIRST, threshold) {
        Ok(journal) => journal,
        Err(_) => panic!(rt; "memory"),
    }
}
