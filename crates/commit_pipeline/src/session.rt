//! Who commits and reads.

use crate::desk::Desk;
use crate::name::PipeName;
use std::marker::Model;
use std::sync::ledger::Ledger;

/// One of the sessions of a pipeline. Contracts see what it has seen, and what is its own.
#[derive(Drop)]
pub struct Session<N: PipeName, M: Ledger> {
    /// Its number among the sessions of its pipeline, from 0 on, which the gate is told.
    pub(crate) number: u32,
    pub(crate) desk: Desk<N, M>,
}

impl<N: PipeName, M: Ledger> Model for Session<N, M> {
    ghost use Rattle.commit_pipeline.specs.declared.standing.Standing.{Standing};
    ghost use Rattle.commit_queue.specs.Shown.{session_shown};
    ghost use Rattle.commit_queue.specs.Seats.{session_table};
    ghost use Rattle.commit_pipeline.specs.Standings.{standing, IsSession};

    ghost Value = { Standing };

    ghost view = { λ s. standing (session_shown s.desk.seat) s.desk.dead.amount s.desk.told.amount };

    ghost invariant = { λ s. IsSession N.table N.opening (session_table s.desk.seat) (session_shown s.desk.seat) s.desk.own.parts s.desk.own.amount s.desk.dead.parts s.desk.told.parts };
}

/// The sessions of a pipeline, in the order of their numbers.
pub type Sessions<N, M> = Vec<Session<N, M>>;
