//! A load: its rounds, and the keys that have a value after them.

ghost use Rattle.std.specs.Prelude.{◌≡◌, ◌+◌, ◌≤◌, length, IfOk};
ghost use Rattle.session_replies.specs.Rounds.{NameSessions};
ghost use Rattle.script_runner.specs.Works.{AnswersLoad, CountsLive};

use commit_pipeline::{Gate, PipeName, Pipeline, Sessions};
use disk_face::{Disk, StallDisk};
use made_load::{LOAD_KEYS, Load, load_key};
use session_rounds::{Players, Readers, Transcript};
use std::alloc::Global;
use std::sync::Wait;
use std::sync::ledger::Ledger;
use std::thread;
use std::thread::Threads;
use wal_base::NoMemory;

/// Plays the rounds of a load over a pipeline with all its sessions, on threads that end with the last round. Answers whether a
/// reply told a limit.
pub(crate) fn play_load<
    D: StallDisk + Send,
    G: Gate + Sync,
    N: PipeName + Send + Sync,
    M: Ledger + Send + Sync,
    R: Threads + Wait + Sync,
>(
    rt: &R,
    alloc: Global,
    pipe: &Pipeline<'_, D, G, N, M>,
    sessions: Sessions<N, M>,
    load: Load,
) -> Result<(Sessions<N, M>, bool), NoMemory>
    requires all { (length sessions.items ≡ N.parts) × (length sessions.items + length sessions.items ≡ M.parts) }
    requires named { NameSessions (length sessions.items) load }
    ensures answered { IfOk result
        (λ ended. AnswersLoad N.opening load sessions.items ended.0.items ended.1) }
    ensures all { IfOk result (λ ended. (length ended.0.items ≡ N.parts) × (length ended.0.items + length ended.0.items ≡ M.parts)) }
{
    thread::scope(
        thread::scope_env(),
        rt,
        move |scope| -> Result<(Sessions<N, M>, bool), NoMemory>
            requires all { (length sessions.items ≡ N.parts) × (length sessions.items + length sessions.items ≡ M.parts) }
            requires named { NameSessions (length sessions.items) load }
            ensures answered { IfOk result
                (λ ended. AnswersLoad N.opening load sessions.items ended.0.items ended.1) }
            ensures all { IfOk result (λ ended. (length ended.0.items ≡ N.parts) × (length ended.0.items + length ended.0.items ≡ M.parts)) }
        {
            let players = Players::new(rt, alloc, scope, pipe, sessions);
            let (players, limited) = run_load(players, load)?;
            Ok((players.end_rounds(), limited))
        },
    )
}

/// Plays the rounds of a load, the lines of each made once the one before has been played. Of its replies no line is kept.
/// Answers whether one of them told a limit.
fn run_load<
    's,
    'a,
    E,
    D: StallDisk + Send,
    G: Gate + Sync,
    N: PipeName + Send + Sync,
    M: Ledger + Send + Sync,
    R: Threads + Wait + Sync,
>(
    mut players: Players<'s, 'a, E, D, G, N, M, R>,
    mut load: Load,
) -> Result<(Players<'s, 'a, E, D, G, N, M, R>, bool), NoMemory>
    requires { NameSessions (length players) load }
    ensures answered { IfOk result (λ ended. AnswersLoad N.opening load players.entry ended.0 ended.1) }
{
    let mut transcript = Transcript::silent();
    while let Some(round) = load.next_round() {
        players = players.play_load_round(round, &mut transcript)?;
    }
    Ok((players, transcript.limited))
}

/// How many of the keys of a load have a value.
pub(crate) fn count_live<D: Disk, G: Gate, N: PipeName, M: Ledger, R: Wait>(
    rt: &R,
    alloc: Global,
    readers: &mut Readers<'_, D, G, N, M>,
) -> Result<u32, NoMemory>
    requires some { 1 ≤ length readers.old.now }
    ensures { IfOk result (λ live. CountsLive N.opening live readers.old readers.new) }
{
    let mut live = 0;
    for index in 0..LOAD_KEYS {
        let key = load_key(alloc, index)?;
        if readers.get(rt, key.as_slice())?.value.is_some() {
            live += 1;
        }
    }
    Ok(live)
}
