//! The threads of a run.

ghost use Rattle.std.specs.Prelude.{◌≡◌, ◌≤◌, ◌<◌, None, IfOk, IfErr, OnOk};
ghost use Rattle.std.specs.Arc.{arc_value};
ghost use Rattle.lent_work.specs.Ends as ends;
ghost use Rattle.session_rounds.specs.Turns.{PlayAll};
ghost use Rattle.session_rounds.specs.Parts.{at_work, SomeIsAtWork, AreParts, SharesOn, AreGathered};

use crate::handing::play_parts;
use crate::hands::{BusyHand, Hand, PartDesk, Place};
use crate::parts::{Part, Sharing, play_part, sharing_of};
use crate::turns::Turn;
use commit_pipeline::{Gate, PipeName, Pipeline};
use core::scope::Scope;
use core::thread::{Anything, Stack};
use disk_face::Disk;
use lent_work::{Desk, Worker};
use std::alloc::Global;
use std::mem;
use std::sync::ledger::Ledger;
use std::sync::{Arc, Wait};
use std::thread::Threads;
use wal_base::NoMemory;

/// The stack of a thread, in bytes. Turns were seen to use 19 KB of it at most. The C library would reserve 8 MB for each thread,
/// more than a process with a cap on its addresses has to spare.
const STACK_BYTES: usize = 256 * 1024;

/// Who plays over a pipeline: this thread, and others of a scope, which are started as rounds first need them, and kept.
#[derive(Drop)]
pub(crate) struct Crew<'s, 'a, E, D: Disk, G: Gate, N: PipeName, M: Ledger, R> {
    pub(crate) scope: &'s Scope<'s, E>,
    pub(crate) rt: &'s R,
    pub(crate) alloc: Global,
    pub(crate) pipe: &'s Pipeline<'a, D, G, N, M>,
    /// The others, while they have nothing to play.
    pub(crate) idle: Vec<Hand<N, M>>,
    /// How many lines were played since the shards were settled.
    pub(crate) unsettled: usize,
}

impl<
    's,
    'a,
    E,
    D: Disk + Send,
    G: Gate + Sync,
    N: PipeName + Send + Sync,
    M: Ledger + Send + Sync,
    R: Threads + Wait + Sync,
> Crew<'s, 'a, E, D, G, N, M, R> {
    /// Each session does its lines, beside those of the others.
    pub(crate) fn play_all(&mut self, turns: Vec<Turn<N, M>>) -> Result<Vec<Turn<N, M>>, NoMemory>
        ensures { IfOk result (λ ended. PlayAll N.opening turns.items ended.items) }
    {
        let sharing = sharing_of(turns.as_slice());
        self.unsettled = self.unsettled.saturating_add(sharing.lines);
        let (busy, own) = self.share_out(turns, sharing)?;
        let own = play_part(self.rt, self.alloc, self.pipe, own);
        self.gather_parts(busy, own, sharing.asks_for_sync)
    }

    /// Gives parts of the turns to others, each of which has lines to do. The rest is kept: the last part, or more where no other
    /// thread can be had.
    fn share_out(
        &mut self,
        turns: Vec<Turn<N, M>>,
        sharing: Sharing,
    ) -> Result<(Vec<BusyHand<N, M>>, Part<N, M>), NoMemory>
        requires some { 1 ≤ sharing.size }
        ensures { IfOk result (λ shared. AreParts turns.items shared.0.items shared.1.items) }
    {
        let mut busy = Vec::new(self.alloc);
        if sharing.working <= sharing.size {
            return Ok((busy, turns));
        }
        let mut own = Vec::new(self.alloc);
        let mut working = 0;
        for turn in turns {
            if turn.is_at_work() {
                working = self.give_full(sharing.size, working, &mut busy, &mut own)?;
                working += 1;
            }
            own.push(turn)?;
        }
        Ok((busy, own))
    }

    /// Gives the own part to another thread where it is full: `working` of its turns have lines to do. Answers how many of what is
    /// kept then are counted.
    fn give_full(
        &mut self,
        size: usize,
        working: usize,
        busy: &mut Vec<BusyHand<N, M>>,
        own: &mut Part<N, M>,
    ) -> Result<usize, NoMemory>
        requires some { 1 ≤ size }
        requires counted { working ≤ at_work own.old.items }
        ensures shared { OnOk result (SharesOn busy.old.items own.old.items busy.new.items own.new.items) }
        ensures counted { IfOk result (λ working. working ≤ at_work own.new.items) }
        ensures below { IfOk result (λ working. working < size) }
    {
        if working < size {
            return Ok(working);
        }
        self.give_own(busy, own)?;
        Ok(0)
    }

    /// Gives the own part to another thread, if one can be had.
    fn give_own(
        &mut self,
        busy: &mut Vec<BusyHand<N, M>>,
        own: &mut Part<N, M>,
    ) -> Result<(), NoMemory>
        requires { SomeIsAtWork own.old.items }
        ensures { OnOk result (SharesOn busy.old.items own.old.items busy.new.items own.new.items) }
    {
        let part = mem::replace(own, Vec::new(self.alloc));
        match self.give(part) {
            Ok(hand) => busy.push(hand)?,
            Err(part) => *own = part,
        }
        Ok(())
    }

    /// Gives a part to a thread that is idle, or to a new one. The part comes back where none can be had.
    fn give(&mut self, part: Part<N, M>) -> Result<BusyHand<N, M>, Part<N, M>>
        ensures given { IfOk result (λ hand. hand ≡ part.items) }
        ensures back { IfErr result (λ back. back ≡ part) }
    {
        match self.idle_or_new() {
            Ok(hand) => Ok(hand.play(self.rt, part)),
            Err(NoMemory) => Err(part),
        }
    }

    /// A thread that is idle, or a new one.
    fn idle_or_new(&mut self) -> Result<Hand<N, M>, NoMemory> {
        match self.idle.pop() {
            Some(hand) => Ok(hand),
            None => self.hire(),
        }
    }

    /// Starts a thread.
    fn hire(&self) -> Result<Hand<N, M>, NoMemory> {
        let (desk, lender, worker) = Desk::new(self.alloc)?;
        let desk = Arc::new(self.alloc, desk).map_err(|_| NoMemory)?;
        let theirs = Arc::try_clone(&desk)?;
        start(self.scope, self.rt, self.alloc, self.pipe, theirs, worker)?;
        Ok(Hand {
            place: Place { desk },
            lender,
        })
    }

    /// Waits for the parts that others play, and puts the turns together again, in their order.
    fn gather_parts(
        &mut self,
        busy: Vec<BusyHand<N, M>>,
        own: Part<N, M>,
        must_begin: bool,
    ) -> Result<Vec<Turn<N, M>>, NoMemory>
        ensures { IfOk result (λ all. AreGathered N.opening busy.items own.items all.items) }
    {
        if busy.is_empty() {
            return Ok(own);
        }
        let mut all = Vec::new(self.alloc);
        for hand in busy {
            let (hand, mut part) = hand.end(self.rt, self.alloc, self.pipe, must_begin);
            self.idle.push(hand)?;
            all.append(&mut part)?;
        }
        let mut own = own;
        all.append(&mut own)?;
        Ok(all)
    }
}

/// Starts a thread that plays parts.
fn start<
    's,
    E,
    D: Disk + Send,
    G: Gate + Sync,
    N: PipeName + Send + Sync,
    M: Ledger + Send + Sync,
    R: Wait + Sync,
>(
    scope: &Scope<'s, E>,
    rt: &'s R,
    alloc: Global,
    pipe: &'s Pipeline<'_, D, G, N, M>,
    desk: Arc<PartDesk<N, M>>,
    worker: Worker<Part<N, M>>,
) -> Result<(), NoMemory>
    requires desk { ends.IsWorkerOf (arc_value desk) worker }
    requires free { ends.work_of worker ≡ None }
{
    let there = move ||
        requires desk { ends.IsWorkerOf (arc_value desk) worker }
        requires free { ends.work_of worker ≡ None }
    { play_parts(rt, alloc, pipe, &desk, worker) };
    let stack = Stack::new().stack_size(STACK_BYTES);
    match stack.spawn_scoped_with(scope, Anything, there) {
        Ok(_handle) => Ok(()),
        Err(_refused) => Err(NoMemory),
    }
}
