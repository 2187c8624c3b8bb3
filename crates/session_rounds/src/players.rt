//! The sessions of a pipeline, which play rounds over it and meet after each.

ghost use Rattle.std.specs.Prelude.{◌≡◌, ◌+◌, [], ◌∷◌, length, IfOk};
ghost use Rattle.session_replies.specs.Rounds.{LinesAreOfSome};
ghost use Rattle.commit_pipeline.specs.Meeting.{HaveMet};
ghost use Rattle.session_rounds.specs.Players.{AllowsPolls, PlayNoted};

use crate::crew::Crew;
use crate::transcript::Transcript;
use commit_pipeline::{Gate, PipeName, Pipeline, Sessions};
use core::scope::Scope;
use disk_face::{Disk, StallDisk};
use made_load::LoadRound;
use session_replies::{Round, Stalls};
use std::alloc::Global;
use std::marker::Model;
use std::sync::Wait;
use std::sync::ledger::Ledger;
use std::thread::Threads;
use wal_base::NoMemory;

/// So many lines are played at most before the shards are settled: what their batches change takes memory twice over until then. Each
/// settling begins with nodes of the index that are in no cache, so fewer lines would make it slower.
const UNSETTLED_MAX: usize = 32_768;

/// The sessions of a pipeline, which nobody else has: so they meet after each round. They play on threads of a scope, which are
/// started as rounds first need them, and end with the players. Contracts see what each session has seen.
#[derive(Drop)]
pub struct Players<'s, 'a, E, D: Disk, G: Gate, N: PipeName, M: Ledger, R> {
    crew: Crew<'s, 'a, E, D, G, N, M, R>,
    sessions: Sessions<N, M>,
}

impl<'s, 'a, E, D: Disk, G: Gate, N: PipeName, M: Ledger, R> Model
    for Players<'s, 'a, E, D, G, N, M, R> {
    ghost use Rattle.std.specs.Prelude.{◌≡◌, ◌+◌, List, length};
    ghost use Rattle.commit_pipeline.specs.declared.standing.Standing.{Standing};

    ghost Value = { List Standing };

    ghost view = { λ p. p.sessions.items };

    // They are all that there are.
    ghost invariant = { λ p.
        (length p.sessions.items ≡ N.parts) × (length p.sessions.items + length p.sessions.items ≡ M.parts) };
}

impl<'s, 'a, E, D: Disk, G: Gate, N: PipeName, M: Ledger, R> Players<'s, 'a, E, D, G, N, M, R> {
    /// All sessions of a pipeline.
    pub fn new(
        rt: &'s R,
        alloc: Global,
        scope: &'s Scope<'s, E>,
        pipe: &'s Pipeline<'a, D, G, N, M>,
        sessions: Sessions<N, M>,
    ) -> Players<'s, 'a, E, D, G, N, M, R>
        requires all { (length sessions.items ≡ N.parts) × (length sessions.items + length sessions.items ≡ M.parts) }
        ensures { result ≡ sessions.items }
    {
        let crew = Crew {
            scope,
            rt,
            alloc,
            pipe,
            idle: Vec::new(alloc),
            unsettled: 0,
        };
        Players { crew, sessions }
    }

    /// No further round is played: the threads end. The sessions are all that there are.
    pub fn end_rounds(self) -> Sessions<N, M>
        ensures same { result.items ≡ self.entry }
        ensures all { (length result.items ≡ N.parts) × (length result.items + length result.items ≡ M.parts) }
    {
        let Players {
            crew: _crew,
            sessions,
        } = self;
        sessions
    }
}

impl<
    's,
    'a,
    E,
    D: StallDisk + Send,
    G: Gate + Sync,
    N: PipeName + Send + Sync,
    M: Ledger + Send + Sync,
    R: Threads + Wait + Sync,
> Players<'s, 'a, E, D, G, N, M, R> {
    /// All sessions meet, and settle the shards where it is time.
    fn meet(self) -> Result<Players<'s, 'a, E, D, G, N, M, R>, NoMemory>
        ensures { IfOk result (λ met. HaveMet self.entry met) }
    {
        let Players { crew, mut sessions } = self;
        crew.pipe.meet(crew.rt, &mut sessions)?;
        Ok(Players { crew, sessions }.settled_in_time())
    }

    /// The sessions settle the shards, where so many lines were played since they last did. Nothing of it is seen.
    fn settled_in_time(self) -> Players<'s, 'a, E, D, G, N, M, R>
        ensures { result ≡ self.entry }
    {
        let mut players = self;
        if players.crew.unsettled >= UNSETTLED_MAX {
            players.crew.unsettled = 0;
            players
                .crew
                .pipe
                .settle(players.crew.rt, players.sessions.as_mut_slice());
        }
        players
    }

    /// Plays a round: its stalls first, in their order, and then the lines of its sessions beside one another, after which all
    /// sessions meet. What is said to the lines is added to the transcript, session by session. Where memory runs out the sessions
    /// that still can end the round, and `Err` is answered.
    pub fn play_round(
        self,
        round: Round,
        transcript: &mut Transcript,
    ) -> Result<Players<'s, 'a, E, D, G, N, M, R>, NoMemory>
        requires named { LinesAreOfSome (length self) round.lines }
        requires may { AllowsPolls N.opening round.stalls }
        ensures { IfOk result
            (λ ended. PlayNoted N.opening (round ∷ []) self.entry ended transcript.old transcript.new) }
    {
        let Players { mut crew, sessions } = self;
        let Round { stalls, lines } = round;
        leave_polls(crew.rt, crew.pipe, stalls);
        let sessions = crew.play_lines(sessions, lines, transcript)?;
        Players { crew, sessions }.meet()
    }

    /// Plays a round of a load in the same way. It stalls nothing, and each session makes its lines itself.
    pub fn play_load_round(
        self,
        round: LoadRound,
        transcript: &mut Transcript,
    ) -> Result<Players<'s, 'a, E, D, G, N, M, R>, NoMemory>
        requires named { LinesAreOfSome (length self) round.lines }
        ensures { IfOk result
            (λ ended. PlayNoted N.opening (round ∷ []) self.entry ended transcript.old transcript.new) }
    {
        let Players { mut crew, sessions } = self;
        let sessions = crew.play_load_lines(sessions, round, transcript)?;
        Players { crew, sessions }.meet()
    }
}

/// Leaves the polls of a round's stalls, in their order.
fn leave_polls<D: StallDisk, G: Gate, N: PipeName, M: Ledger, R: Wait>(
    rt: &R,
    pipe: &Pipeline<'_, D, G, N, M>,
    stalls: Stalls,
)
    requires may { AllowsPolls N.opening stalls }
{
    for stall in stalls.into_vec() {
        pipe.stall(rt, stall.side, stall.polls);
    }
}
