//! A sync that ends in the very step in which the journal is found dead.
ghost use Rattle.std.specs.Prelude.{◌≡◌};
ghost use Rattle.batch_repr.specs.declared.limits.TheConstants.{NUMBER_FIRST};
ghost use Rattle.failover_writer.specs.State.{len};

use super::fresh::failing;
use super::{Act, one_set, run, state_of};
use crate::{CommitFault, Committed, NoGate, PipeName, Pipeline, Session};
use batch_repr::NUMBER_FIRST;
use disk_face::{CallLog, Disk, Side};
use failover_writer::Journal;
use mem_disk::MemDisk;
use std::alloc::Global;
use std::process::Abort;
use std::sync::Wait;
use std::sync::ledger::Ledger;
use std::thread::Threads;
use test_rigs::{Fresh, Late};

/// The sync of the first segment, which comes after its creation and its write.
const SYNC: u64 = 2;

/// A journal of no record over a disk that is late by so many polls.
fn late_journal(rt: &impl Abort, alloc: Global, fresh: Fresh, polls: u64) -> Journal<Late<MemDisk>>
    ensures empty { len result.state ≡ 0 }
    ensures next { result.state.next ≡ NUMBER_FIRST }
{
    let disk = fresh.into_disk();
    let late = Late {
        inner: disk,
        op: SYNC,
        polls,
        log: CallLog::new(),
    };
    match Journal::start(alloc, late, 1, NUMBER_FIRST, 3) {
        Ok(journal) => journal,
        Err(_) => panic!(rt; "memory"),
    }
}

/// A session commits with a sync, and the journal is dead then, of which so many batches are acked.
#[derive(Drop)]
struct SyncsLate {
    answer: Result<Committed, CommitFault>,
    acked: u64,
}

impl Act<NoGate> for SyncsLate {
    fn act<D: Disk, N: PipeName, M: Ledger, R: Wait + Abort>(
        &self,
        rt: &R,
        alloc: Global,
        pipe: &Pipeline<'_, D, NoGate, N, M>,
        session: &mut Session<N, M>,
    ) {
        let batch = one_set(rt, alloc, b'a', b'1');
        assert_eq!(rt; pipe.commit(rt, session, batch, true), self.answer);
        assert_eq!(rt; state_of(rt, pipe), (1, self.acked, true));
    }
}

/// Such a session over a disk that is late by so many polls. The sync of the first segment hangs, and the nine creations
/// after it fail.
fn sync_late<R: Threads + Wait + Abort + Sync>(
    rt: &R,
    alloc: Global,
    polls: u64,
    answer: Result<Committed, CommitFault>,
    acked: u64,
) {
    let fresh = failing(rt, alloc, 3, 1, 9);
    let journal = late_journal(rt, alloc, fresh, polls);
    run(rt, alloc, &NoGate, journal, 1, &SyncsLate { answer, acked });
}

/// The step that finds the last creation failed is the twelfth one that polls the sync.
#[test]
fn a_sync_that_ends_as_the_journal_dies_counts(rt: HostRuntime) {
    let alloc = rt.alloc();
    let synced = Committed {
        first: 10,
        count: 1,
        synced: true,
    };
    let unsynced = CommitFault::Unsynced {
        first: 10,
        count: 1,
        side: Side::Secondary,
        faults: 9,
    };
    sync_late(&rt, alloc, 11, Ok(synced), 1);
    sync_late(&rt, alloc, 12, Err(unsynced), 0);
}
