//! What sessions are asked for: acts, lines, rounds and scripts.

ghost use Rattle.std.specs.Prelude.{◌≡◌, []};

use batch_repr::Unwritten;
use disk_face::Side;
use std::alloc::Global;
use wal_base::{Blob, ListOf};

/// What a session is to do.
#[derive(Debug, Drop)]
pub enum Act {
    /// Commit this batch, and with `sync` wait until a sync covers it.
    Commit { sync: bool, batch: Unwritten },
    /// Answer the value of this key.
    Get { key: Blob },
}

/// A line of a session.
#[derive(Debug, Drop)]
pub struct Line {
    /// The number of the session, counted from 0.
    pub session: u32,
    /// What it is to do.
    pub act: Act,
}

/// So many polls of a side are stalled.
#[derive(Clone, Copy, Debug, PartialEq, Eq, Drop)]
pub struct StallLine {
    /// The side whose polls are stalled.
    pub side: Side,
    /// How many polls: at least 1.
    pub polls: u32,
}

/// Lines, in their order.
pub type Lines = ListOf<Line>;

/// Stalls, in their order.
pub type Stalls = ListOf<StallLine>;

/// What happens up to the next `round`: the stalls first, then each session's lines.
#[derive(Debug, Drop)]
pub struct Round {
    /// The stalls, in the order of their lines.
    pub stalls: Stalls,
    /// What the sessions do, in the order of the lines.
    pub lines: Lines,
}

impl Round {
    /// A round in which nothing happens. It takes no memory.
    pub fn new(alloc: Global) -> Round
        ensures { result ≡ record { stalls = []; lines = [] } }
    {
        Round {
            stalls: Stalls::new(alloc),
            lines: Lines::new(alloc),
        }
    }
}

/// Rounds, in their order.
pub type Rounds = ListOf<Round>;

/// A script.
#[derive(Debug, Drop)]
pub struct Script {
    /// The rounds, of which there is at least one.
    pub rounds: Rounds,
    /// Whether the run ends without a close.
    pub halted: bool,
    /// 1 more than the greatest session named, at least 1.
    pub sessions: u32,
}
