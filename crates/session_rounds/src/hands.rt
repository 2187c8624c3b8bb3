//! Threads that are kept over rounds, and play the parts that are lent to them.

ghost use Rattle.std.specs.Prelude.{◌≡◌, None, IsSome};
ghost use Rattle.std.specs.Arc.{arc_value};
ghost use Rattle.lent_work.specs.Ends.{lent, IsLenderOf};

use crate::parts::{Part, Playing};
use commit_pipeline::PipeName;
use lent_work::{Desk, Lender};
use std::marker::Model;
use std::sync::Arc;
use std::sync::ledger::Ledger;

/// Where a part lies until a thread begins it, and until it is taken back.
pub(crate) type PartDesk<N, M> = Desk<Part<N, M>, Playing<N>>;

/// The place of a thread. The thread ends once this is dropped.
pub(crate) struct Place<N: PipeName, M: Ledger> {
    pub(crate) desk: Arc<PartDesk<N, M>>,
}

impl<N: PipeName, M: Ledger> Drop for Place<N, M> {
    fn drop(self) {
        let Self { desk } = self;
        desk.close();
        drop(desk);
    }
}

/// A thread that has nothing to play.
#[derive(Drop)]
pub(crate) struct Hand<N: PipeName, M: Ledger> {
    pub(crate) place: Place<N, M>,
    pub(crate) lender: Lender<Part<N, M>>,
    ghost ends: { IsLenderOf (arc_value place.desk) lender },
    ghost idle: { lent lender ≡ None },
}

/// A thread that has a part to play.
#[derive(Drop)]
pub(crate) struct BusyHand<N: PipeName, M: Ledger> {
    pub(crate) place: Place<N, M>,
    pub(crate) lender: Lender<Part<N, M>>,
    ghost ends: { IsLenderOf (arc_value place.desk) lender },
    ghost busy: { IsSome (lent lender) },
}

impl<N: PipeName, M: Ledger> Model for BusyHand<N, M> {
    ghost use Rattle.std.specs.Prelude.{List};
    ghost use Rattle.lent_work.specs.Ends.{lent};
    ghost use Rattle.session_rounds.specs.declared.course.Course.{Course};
    ghost use Rattle.session_rounds.specs.Lent.{turns_of};

    ghost Value = { List Course };

    ghost view = { λ h. turns_of (lent h.lender) };
}
