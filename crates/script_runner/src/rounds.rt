//! The rounds of a script, played one after another.

ghost use Rattle.std.specs.Prelude.{◌≡◌, ◌+◌, length, IfOk};
ghost use Rattle.session_replies.specs.Rounds.{NameSessions};
ghost use Rattle.session_rounds.specs.Players.{PlayNoted};
ghost use Rattle.script_runner.specs.Rounds.{AllowsStalls};

use commit_pipeline::{Gate, PipeName, Pipeline, Sessions};
use disk_face::StallDisk;
use session_replies::Rounds;
use session_rounds::{Players, Transcript};
use std::alloc::Global;
use std::collections::VecDeque;
use std::sync::Wait;
use std::sync::ledger::Ledger;
use std::thread;
use std::thread::Threads;
use wal_base::NoMemory;

/// Plays the rounds of a script over a pipeline with all its sessions, on threads that end with the last round. The replies are
/// added to the transcript.
pub(crate) fn play_script<
    D: StallDisk + Send,
    G: Gate + Sync,
    N: PipeName + Send + Sync,
    M: Ledger + Send + Sync,
    R: Threads + Wait + Sync,
>(
    rt: &R,
    alloc: Global,
    pipe: &Pipeline<'_, D, G, N, M>,
    sessions: Sessions<N, M>,
    rounds: Rounds,
    transcript: Transcript,
) -> Result<(Sessions<N, M>, Transcript), NoMemory>
    requires all { (length sessions.items ≡ N.parts) × (length sessions.items + length sessions.items ≡ M.parts) }
    requires named { NameSessions (length sessions.items) rounds }
    requires may { AllowsStalls N.opening rounds }
    ensures played { IfOk result
        (λ ended. PlayNoted N.opening rounds sessions.items ended.0.items transcript ended.1) }
    ensures all { IfOk result (λ ended. (length ended.0.items ≡ N.parts) × (length ended.0.items + length ended.0.items ≡ M.parts)) }
{
    thread::scope(
        thread::scope_env(),
        rt,
        move |scope| -> Result<(Sessions<N, M>, Transcript), NoMemory>
            requires all { (length sessions.items ≡ N.parts) × (length sessions.items + length sessions.items ≡ M.parts) }
            requires named { NameSessions (length sessions.items) rounds }
            requires may { AllowsStalls N.opening rounds }
            ensures played { IfOk result
                (λ ended. PlayNoted N.opening rounds sessions.items ended.0.items transcript ended.1) }
            ensures all { IfOk result (λ ended. (length ended.0.items ≡ N.parts) × (length ended.0.items + length ended.0.items ≡ M.parts)) }
        {
            let players = Players::new(rt, alloc, scope, pipe, sessions);
            let mut noted = transcript;
            let players = run_rounds(players, rounds, &mut noted)?;
            Ok((players.end_rounds(), noted))
        },
    )
}

/// Plays rounds over a pipeline. The replies are added to the transcript, session by session. Where memory runs out no
/// further round begins.
fn run_rounds<
    's,
    'a,
    E,
    D: StallDisk + Send,
    G: Gate + Sync,
    N: PipeName + Send + Sync,
    M: Ledger + Send + Sync,
    R: Threads + Wait + Sync,
>(
    mut players: Players<'s, 'a, E, D, G, N, M, R>,
    rounds: Rounds,
    transcript: &mut Transcript,
) -> Result<Players<'s, 'a, E, D, G, N, M, R>, NoMemory>
    requires named { NameSessions (length players) rounds }
    requires may { AllowsStalls N.opening rounds }
    ensures played { IfOk result (λ ended. PlayNoted N.opening rounds players.entry ended transcript.old transcript.new) }
{
    let mut left = VecDeque::from(rounds.into_vec());
    while let Some(round) = left.pop_front() {
        players = players.play_round(round, transcript)?;
    }
    Ok(players)
}
