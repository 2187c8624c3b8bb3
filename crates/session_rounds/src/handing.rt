//! How a part is handed to a thread, and how it comes back.

ghost use Rattle.std.specs.Prelude.{◌≡◌, None, Some, IsSome};
ghost use Rattle.lent_work.specs.Ends.{lent, work_of, IsLenderOf, IsWorkerOf, ComesBack};
ghost use Rattle.session_rounds.specs.Turns.{PlayAll};
ghost use Rattle.session_rounds.specs.Lent.{PlaysPart};

use crate::hands::{BusyHand, Hand, PartDesk};
use crate::parts::{Part, play_part};
use commit_pipeline::{Gate, PipeName, Pipeline};
use disk_face::Disk;
use lent_work::{Back, Lender, Worker};
use std::alloc::Global;
use std::sync::Wait;
use std::sync::ledger::Ledger;

impl<N: PipeName, M: Ledger> Hand<N, M> {
    /// Gives it a part to play.
    pub(crate) fn play<R: Wait>(self, rt: &R, part: Part<N, M>) -> BusyHand<N, M>
        ensures { result ≡ part.items }
    {
        let Hand { place, mut lender } = self;
        place.desk.lend(rt, &mut lender, part);
        BusyHand { place, lender }
    }
}

impl<N: PipeName, M: Ledger> BusyHand<N, M> {
    /// Waits until its part is played. Where it has not begun, and need not, the part is played here.
    pub(crate) fn end<D: Disk, G: Gate, R: Wait>(
        self,
        rt: &R,
        alloc: Global,
        pipe: &Pipeline<'_, D, G, N, M>,
        must_begin: bool,
    ) -> (Hand<N, M>, Part<N, M>)
        ensures { PlayAll N.opening self result.1.items }
    {
        let BusyHand { place, mut lender } = self;
        let back = take_back(rt, &place.desk, &mut lender, must_begin);
        let part = played(rt, alloc, pipe, back);
        (Hand { place, lender }, part)
    }
}

/// Takes a part back: at once where it has not begun, and need not.
fn take_back<N: PipeName, M: Ledger, R: Wait>(
    rt: &R,
    desk: &PartDesk<N, M>,
    lender: &mut Lender<Part<N, M>>,
    must_begin: bool,
) -> Back<Part<N, M>>
    requires desk { IsLenderOf desk.now lender.old }
    requires lent { IsSome (lent lender.old) }
    ensures desk { IsLenderOf desk.now lender.new }
    ensures none { lent lender.new ≡ None }
    ensures back { (part : _) → lent lender.old ≡ Some part → ComesBack (PlaysPart N.opening) part result }
{
    if !must_begin {
        if let Some(back) = desk.take_back(rt, lender) {
            return back;
        }
    }
    desk.await_back(rt, lender)
}

/// A part that came back, played.
fn played<D: Disk, G: Gate, N: PipeName, M: Ledger, R: Wait>(
    rt: &R,
    alloc: Global,
    pipe: &Pipeline<'_, D, G, N, M>,
    back: Back<Part<N, M>>,
) -> Part<N, M>
    ensures { (part : _) → ComesBack (PlaysPart N.opening) part back → PlaysPart N.opening part result }
{
    match back {
        Back::Done(part) => part,
        Back::AsItWas(part) => play_part(rt, alloc, pipe, part),
    }
}

/// What a kept thread does: it plays the parts that it gets, one after another, until no more come.
pub(crate) fn play_parts<D: Disk, G: Gate, N: PipeName, M: Ledger, R: Wait>(
    rt: &R,
    alloc: Global,
    pipe: &Pipeline<'_, D, G, N, M>,
    desk: &PartDesk<N, M>,
    mut worker: Worker<Part<N, M>>,
)
    requires desk { IsWorkerOf desk.now worker }
    requires free { work_of worker ≡ None }
{
    for _ in rt.forever() {
        let Some(part) = desk.await_work(rt, &mut worker) else {
            return;
        };
        let played = play_part(rt, alloc, pipe, part);
        desk.give_back(rt, &mut worker, played);
    }
}
