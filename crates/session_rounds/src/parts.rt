//! Parts of the turns of a round, which are played beside one another.

ghost use Rattle.std.specs.Prelude.{◌≡◌, ◌≤◌};
ghost use Rattle.session_rounds.specs.Turns.{PlayAll};
ghost use Rattle.session_rounds.specs.Parts.{at_work};

use crate::turns::Turn;
use commit_pipeline::{Gate, PipeName, Pipeline};
use disk_face::Disk;
use lent_work::Doing;
use std::alloc::Global;
use std::marker::PhantomData;
use std::sync::Wait;
use std::sync::ledger::Ledger;

/// So many parts at most has a round in which no session asks for a sync. Its sessions wait for no disk, so more of
/// them would only take the processors from one another.
const PARTS_MAX: usize = 8;

/// A part is worth so many lines: to wake a thread takes as long.
const LINES: usize = 64;

/// Turns that are played one after another.
pub(crate) type Part<N, M> = Vec<Turn<N, M>>;

/// The playing of turns over a pipeline of this name.
pub(crate) struct Playing<N> {
    name: PhantomData<N>,
}

impl<N: PipeName, M: Ledger> Doing<Vec<Turn<N, M>>> for Playing<N> {
    ghost use Rattle.session_rounds.specs.Lent.{PlaysPart};

    ghost is_done = { PlaysPart N.opening };
}

/// How the turns of a round are shared out.
#[derive(Clone, Copy)]
pub(crate) struct Sharing {
    /// So many of them have lines.
    pub(crate) working: usize,
    /// So many of these are in a part.
    pub(crate) size: usize,
    /// So many lines they have together.
    pub(crate) lines: usize,
    /// Whether one of them asks for a sync. Then those whose batches wait for it are to share it, so each is played by a thread
    /// of its own, however late that begins.
    pub(crate) asks_for_sync: bool,
}

/// Where one of the turns asks for a sync each is a part of its own, and else there are two parts or more.
pub(crate) fn sharing_of<N: PipeName, M: Ledger>(turns: &[Turn<N, M>]) -> Sharing
    ensures some { 1 ≤ result.size }
    ensures working { result.working ≡ at_work turns.now }
{
    let mut working = 0usize;
    let mut lines = 0usize;
    let mut asks_for_sync = false;
    for turn in turns {
        if turn.is_at_work() {
            working += 1;
        }
        lines = lines.saturating_add(turn.lines_left());
        asks_for_sync = asks_for_sync || turn.asks_for_sync();
    }
    let parts = (lines / LINES).min(PARTS_MAX).max(2);
    let size = if asks_for_sync {
        1
    } else {
        working.div_ceil(parts).max(1)
    };
    Sharing {
        working,
        size,
        lines,
        asks_for_sync,
    }
}

/// Each session does its lines, one after another.
pub(crate) fn play_part<D: Disk, G: Gate, N: PipeName, M: Ledger, R: Wait>(
    rt: &R,
    alloc: Global,
    pipe: &Pipeline<'_, D, G, N, M>,
    mut part: Part<N, M>,
) -> Part<N, M>
    ensures { PlayAll N.opening part.items result.items }
{
    play_turns(rt, alloc, pipe, part.as_mut_slice());
    part
}

/// The same, with the turns where they are.
fn play_turns<D: Disk, G: Gate, N: PipeName, M: Ledger, R: Wait>(
    rt: &R,
    alloc: Global,
    pipe: &Pipeline<'_, D, G, N, M>,
    turns: &mut [Turn<N, M>],
)
    ensures { PlayAll N.opening turns.old turns.new }
{
    for turn in turns.iter_mut() {
        turn.play(rt, alloc, pipe);
    }
}
