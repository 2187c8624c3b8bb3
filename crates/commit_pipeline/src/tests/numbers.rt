//! Commits at the end of the numbers.
ghost use Rattle.std.specs.Prelude.{◌≡◌, true};

use super::{Play, journal_from, one_set, play_out};
use crate::{CommitFault, Committed, NoGate, PipeName, Pipeline, Sessions};
use batch_repr::Unnumbered;
use disk_face::StallDisk;
use std::alloc::Global;
use std::process::Abort;
use std::sync::Wait;
use std::sync::ledger::Ledger;
use test_rigs::{Change, batch_of};

/// A batch that sets two keys.
fn two_sets(rt: &impl Abort, alloc: Global) -> Unnumbered {
    let changes = [Change::Set(b"a", b"1"), Change::Set(b"b", b"1")];
    batch_of(alloc, &changes).expect(rt, "memory")
}

/// A session asks for two numbers where one is left, takes that one, and asks for one more.
#[derive(Drop)]
struct TakesTheLast {
    sync: bool,
}

impl Play for TakesTheLast {
    fn play<D: StallDisk, N: PipeName, M: Ledger, R: Wait + Abort>(
        &mut self,
        rt: &R,
        alloc: Global,
        pipe: &Pipeline<'_, D, NoGate, N, M>,
        sessions: Sessions<N, M>,
    )
        requires may_stall { N.opening.start.may_stall ≡ true }
    {
        let mut sessions = sessions;
        let (left, end) = (72_057_594_037_927_934, 72_057_594_037_927_935);
        let last = Committed {
            first: left,
            count: 1,
            synced: self.sync,
        };
        for session in sessions.iter_mut() {
            for (batch, answer) in [
                (
                    two_sets(rt, alloc),
                    Err(CommitFault::SeqExhausted { next: left }),
                ),
                (one_set(rt, alloc, b'a', b'1'), Ok(last)),
                (
                    one_set(rt, alloc, b'a', b'2'),
                    Err(CommitFault::SeqExhausted { next: end }),
                ),
            ] {
                assert_eq!(rt; pipe.commit(rt, session, batch, self.sync), answer);
            }
        }
    }
}

#[test]
fn the_last_number_is_taken_and_no_more(rt: HostRuntime) {
    let alloc = rt.alloc();
    for sync in [false, true] {
        let journal = journal_from(&rt, alloc, 72_057_594_037_927_934);
        let journal = play_out(&rt, alloc, journal, 1, &mut TakesTheLast { sync });
        assert_eq!(&rt;
            (journal.len(), journal.next()),
            (1, 72_057_594_037_927_935)
        );
    }
}
