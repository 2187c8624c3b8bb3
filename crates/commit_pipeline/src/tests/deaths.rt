//! What a session is told of a journal that dies, though it met no other session.
ghost use Rattle.std.specs.Prelude.{◌≡◌, true};

use super::fresh::{failing, journal_over};
use super::{Play, one_set, play_out};
use crate::{CommitFault, Committed, NoGate, PipeName, Pipeline, Session, Sessions};
use disk_face::{Side, StallDisk};
use std::alloc::Global;
use std::process::Abort;
use std::sync::Wait;
use std::sync::ledger::Ledger;

/// The journal has given up its ten segments.
const DEAD: CommitFault = CommitFault::Dead {
    side: Side::Secondary,
    faults: 10,
};

/// The same, where the batch was numbered before.
const UNSYNCED: CommitFault = CommitFault::Unsynced {
    first: 10,
    count: 1,
    side: Side::Secondary,
    faults: 10,
};

/// A commit of a batch of one entry is answered so, and leaves no session as one that waits.
fn check<D: StallDisk, N: PipeName, M: Ledger, R: Wait + Abort>(
    rt: &R,
    alloc: Global,
    pipe: &Pipeline<'_, D, NoGate, N, M>,
    session: &mut Session<N, M>,
    sync: bool,
    wanted: Result<Committed, CommitFault>,
) {
    let batch = one_set(rt, alloc, b'a', b'1');
    assert_eq!(rt; pipe.commit(rt, session, batch, sync), wanted);
    assert_eq!(rt; pipe.log.bells.waiting(), 0);
}

/// The first session commits with a sync that cannot be had, after so many polls were left to stall: where it is none,
/// its own write meets the death, and else its wait. The others commit then, the second one with a sync and the third
/// one without, and no two sessions meet. None is left as one that waits: it would be woken in place of another.
#[derive(Drop)]
struct DiesForAll {
    polls: u32,
}

impl Play for DiesForAll {
    fn play<D: StallDisk, N: PipeName, M: Ledger, R: Wait + Abort>(
        &mut self,
        rt: &R,
        alloc: Global,
        pipe: &Pipeline<'_, D, NoGate, N, M>,
        sessions: Sessions<N, M>,
    )
        requires may_stall { N.opening.start.may_stall ≡ true }
    {
        let mut sessions = sessions;
        pipe.stall(rt, Side::Primary, self.polls);
        // As where it has slept before it leads.
        pipe.log.bells.wait_for(0, 1);
        for session in sessions.iter_mut() {
            let (sync, wanted) = match session.number {
                0 => (true, UNSYNCED),
                1 => (true, DEAD),
                _ => (false, DEAD),
            };
            check(rt, alloc, pipe, session, sync, Err(wanted));
        }
    }
}

#[test]
fn a_death_is_seen_by_sessions_that_were_not_told(rt: HostRuntime) {
    let alloc = rt.alloc();
    for polls in 0..2u32 {
        // The sync of each segment.
        let journal = journal_over(&rt, alloc, failing(&rt, alloc, 2, 3, 10), 3);
        let journal = play_out(&rt, alloc, journal, 3, &mut DiesForAll { polls });
        assert_eq!(&rt; (journal.len(), journal.acked()), (1, 0));
    }
}

/// A session commits without a sync, and its own write finds the journal dead: its batch is numbered. It commits again
/// then, with a sync or without.
#[derive(Drop)]
struct DiesAsItWrites {
    sync: bool,
}

impl Play for DiesAsItWrites {
    fn play<D: StallDisk, N: PipeName, M: Ledger, R: Wait + Abort>(
        &mut self,
        rt: &R,
        alloc: Global,
        pipe: &Pipeline<'_, D, NoGate, N, M>,
        sessions: Sessions<N, M>,
    )
        requires may_stall { N.opening.start.may_stall ≡ true }
    {
        let mut sessions = sessions;
        let numbered = Committed {
            first: 10,
            count: 1,
            synced: false,
        };
        for session in sessions.iter_mut() {
            check(rt, alloc, pipe, session, false, Ok(numbered));
            check(rt, alloc, pipe, session, self.sync, Err(DEAD));
        }
    }
}

#[test]
fn a_death_that_the_own_write_met_is_told_to_the_next_commit(rt: HostRuntime) {
    let alloc = rt.alloc();
    for syncs in 0..2u32 {
        // The creation of each segment.
        let journal = journal_over(&rt, alloc, failing(&rt, alloc, 0, 1, 10), 3);
        let mut play = DiesAsItWrites { sync: syncs == 1 };
        let journal = play_out(&rt, alloc, journal, 1, &mut play);
        assert_eq!(&rt; (journal.len(), journal.segments()), (1, 10));
    }
}
