//! Sessions that number and publish while an operation of the journal is in flight.
ghost use Rattle.std.specs.Prelude.{◌≡◌, ◌≤◌};
ghost use Rattle.batch_repr.specs.declared.limits.TheConstants.{NUMBER_FIRST, SESSIONS_MAX};
ghost use Rattle.failover_writer.specs.State.{len};

use super::fresh::{failing, journal_over};
use super::{Act, CommitsOne, Pass, Turnstile, check_read, counted, one_set, run, state_of};
use crate::{GatePoint, PipeName, Pipeline, Session};
use disk_face::{Disk, Side};
use failover_writer::Journal;
use mem_disk::MemDisk;
use std::alloc::Global;
use std::process::Abort;
use std::sync::Wait;
use std::sync::atomic::Ordering;
use std::sync::ledger::Ledger;
use std::thread::Threads;
use test_rigs::Fresh;

/// For so many polls the first operation is in flight: more than the commits of a test make without a wait.
const POLLS: u32 = 200;

/// A journal of no record over the disk, whose first operation will be in flight for long.
fn stalled(rt: &impl Abort, alloc: Global, fresh: Fresh) -> Journal<MemDisk>
    ensures empty { len result.state ≡ 0 }
    ensures next { result.state.next ≡ NUMBER_FIRST }
{
    let mut journal = journal_over(rt, alloc, fresh, 1_000);
    journal.stall(Side::Primary, POLLS);
    journal
}

/// The first session commits with a sync, and the others without one while its operation is in flight: they begin once
/// its batch has a number. It is held, once it has published, until all others have published and seen that nothing is
/// synced.
#[derive(Drop)]
struct CommitsInFlight<'a> {
    gate: &'a Turnstile,
}

impl<'a> Act<Turnstile> for CommitsInFlight<'a> {
    fn act<D: Disk, N: PipeName, M: Ledger, R: Wait + Abort>(
        &self,
        rt: &R,
        alloc: Global,
        pipe: &Pipeline<'_, D, Turnstile, N, M>,
        session: &mut Session<N, M>,
    ) {
        let key = (session.number % 256) as u8;
        let is_first = session.number == 0;
        assert!(rt; is_first || counted(&self.gate.count, 1));
        let batch = one_set(rt, alloc, key, 0);
        assert!(rt; pipe.commit(rt, session, batch, is_first).is_ok());
        if !is_first {
            check_read(rt, pipe, session, key, 0);
            assert_eq!(rt; state_of(rt, pipe).1, 0);
            self.gate.count.fetch_add(1, Ordering::SeqCst);
        }
    }
}

/// So many sessions do so: the first one is counted once it has its number, and each other one as it ends.
fn commit_in_flight<R: Threads + Wait + Abort + Sync>(rt: &R, alloc: Global, sessions: u64)
    requires sessions { (1 ≤ sessions) × (sessions ≤ SESSIONS_MAX) }
{
    let first = Some(0);
    let numbered = Pass {
        session: first,
        point: GatePoint::Numbered,
    };
    let published = Pass {
        session: first,
        point: GatePoint::Published,
    };
    let gate = Turnstile::new(numbered, published, sessions);
    let act = CommitsInFlight { gate: &gate };
    let journal = stalled(rt, alloc, Fresh::new(alloc).expect(rt, "memory"));
    let batches = run(rt, alloc, &gate, journal, sessions as usize, &act);
    assert_eq!(rt; (batches, gate.state()), (sessions, (sessions, false)));
}

#[test]
fn sessions_number_and_publish_while_an_operation_is_in_flight(rt: HostRuntime) {
    let alloc = rt.alloc();
    commit_in_flight(&rt, alloc, 2);
    commit_in_flight(&rt, alloc, 8);
    commit_in_flight(&rt, alloc, 64);
}

/// So many sessions commit with a sync, each of which is held, once it has published, until all have published. A
/// creation, a write and a sync: what is asked for beyond these fails, in each segment, so that a batch that they did
/// not sync would be answered as unsynced.
fn sync_together<R: Threads + Wait + Abort + Sync>(rt: &R, alloc: Global, sessions: u64)
    requires sessions { (1 ≤ sessions) × (sessions ≤ SESSIONS_MAX) }
{
    let published = Pass {
        session: None,
        point: GatePoint::Published,
    };
    let gate = Turnstile::new(published, published, sessions);
    let journal = stalled(rt, alloc, failing(rt, alloc, 3, 1, 37));
    let act = CommitsOne { sync: true };
    let batches = run(rt, alloc, &gate, journal, sessions as usize, &act);
    assert_eq!(rt; (batches, gate.state()), (sessions, (sessions, false)));
}

#[test]
fn one_write_and_one_sync_are_for_all_that_wait(rt: HostRuntime) {
    let alloc = rt.alloc();
    sync_together(&rt, alloc, 1);
    sync_together(&rt, alloc, 2);
    sync_together(&rt, alloc, 16);
    sync_together(&rt, alloc, 64);
}
