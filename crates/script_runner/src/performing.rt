//! What happens over a pipeline between its opening and its end.

ghost use Rattle.std.specs.Prelude.{◌≡◌, ◌+◌, ◌≤◌, Some, length, IfOk, IfErr, IsSome};
ghost use Rattle.session_replies.specs.Rounds.{NameSessions};
ghost use Rattle.commit_pipeline.specs.Ending.{StillKeeps};
ghost use Rattle.script_runner.specs.Rounds.{AllowsStalls};
ghost use Rattle.script_runner.specs.Works.{work_rounds, Performs, KeepsReplies, KeepsCount, PerformsWork};

use crate::loads::{count_live, play_load};
use crate::rounds::play_script;
use crate::work::Work;
use commit_pipeline::{Gate, PipeName, Pipeline, Sessions};
use disk_face::StallDisk;
use failover_writer::Journal;
use made_load::Load;
use session_replies::Rounds;
use session_rounds::{Readers, Transcript};
use std::alloc::Global;
use std::sync::Wait;
use std::sync::ledger::Ledger;
use std::thread::Threads;
use wal_base::Buf;

/// What some work tells.
#[derive(Debug, Drop)]
pub struct Told {
    /// The lines of the replies. A load keeps none.
    pub text: Buf,
    /// How many of the keys of a load have a value at its end. A script does not count them.
    pub live: u32,
    /// Whether a commit was answered with a limit.
    pub limited: bool,
}

/// Does some work over a pipeline with all its sessions. Where memory runs out `Err` gives the journal back.
pub(crate) fn perform<
    'a,
    D: StallDisk + Send,
    G: Gate + Sync,
    N: PipeName + Send + Sync,
    M: Ledger + Send + Sync,
    R: Threads + Wait + Sync,
>(
    rt: &R,
    alloc: Global,
    pipe: Pipeline<'a, D, G, N, M>,
    sessions: Sessions<N, M>,
    work: Work,
) -> Result<(Readers<'a, D, G, N, M>, Told), Journal<D>>
    requires some { 1 ≤ length sessions.items }
    requires all { (length sessions.items ≡ N.parts) × (length sessions.items + length sessions.items ≡ M.parts) }
    requires named { NameSessions (length sessions.items) (work_rounds work) }
    requires may { AllowsStalls N.opening (work_rounds work) }
    ensures done { IfOk result (λ done. PerformsWork N.opening work sessions.items done.0 done.1) }
    ensures err { IfErr result (StillKeeps D.tells D.view N.opening) }
{
    match work {
        Work::Script(script) => perform_script(rt, alloc, pipe, sessions, script.rounds),
        Work::Load(load) => perform_load(rt, alloc, pipe, sessions, load),
    }
}

/// Plays the rounds of a script.
fn perform_script<
    'a,
    D: StallDisk + Send,
    G: Gate + Sync,
    N: PipeName + Send + Sync,
    M: Ledger + Send + Sync,
    R: Threads + Wait + Sync,
>(
    rt: &R,
    alloc: Global,
    pipe: Pipeline<'a, D, G, N, M>,
    sessions: Sessions<N, M>,
    rounds: Rounds,
) -> Result<(Readers<'a, D, G, N, M>, Told), Journal<D>>
    requires all { (length sessions.items ≡ N.parts) × (length sessions.items + length sessions.items ≡ M.parts) }
    requires named { NameSessions (length sessions.items) rounds }
    requires may { AllowsStalls N.opening rounds }
    ensures done { IfOk result
        (λ done. Performs N.opening rounds KeepsReplies sessions.items done.0 done.1) }
    ensures err { IfErr result (StillKeeps D.tells D.view N.opening) }
{
    let Ok(transcript) = Transcript::new(alloc) else {
        return Err(pipe.into_journal());
    };
    let Ok((sessions, transcript)) = play_script(rt, alloc, &pipe, sessions, rounds, transcript)
    else {
        return Err(pipe.into_journal());
    };
    Ok((Readers::new(pipe, sessions), told_by(transcript)))
}

/// What a transcript tells that keeps its lines.
fn told_by(transcript: Transcript) -> Told
    requires kept { IsSome transcript.text }
    ensures text { transcript.text ≡ Some result.text }
    ensures limited { result.limited ≡ transcript.limited }
{
    let Transcript { text, limited } = transcript;
    let Some(text) = text else {
        unreachable!();
    };
    Told {
        text,
        live: 0,
        limited,
    }
}

/// Plays the rounds of a load, and counts its live keys.
fn perform_load<
    'a,
    D: StallDisk + Send,
    G: Gate + Sync,
    N: PipeName + Send + Sync,
    M: Ledger + Send + Sync,
    R: Threads + Wait + Sync,
>(
    rt: &R,
    alloc: Global,
    pipe: Pipeline<'a, D, G, N, M>,
    sessions: Sessions<N, M>,
    load: Load,
) -> Result<(Readers<'a, D, G, N, M>, Told), Journal<D>>
    requires some { 1 ≤ length sessions.items }
    requires all { (length sessions.items ≡ N.parts) × (length sessions.items + length sessions.items ≡ M.parts) }
    requires named { NameSessions (length sessions.items) load }
    ensures done { IfOk result
        (λ done. Performs N.opening load (KeepsCount N.opening) sessions.items done.0 done.1) }
    ensures err { IfErr result (StillKeeps D.tells D.view N.opening) }
{
    let Ok((sessions, limited)) = play_load(rt, alloc, &pipe, sessions, load) else {
        return Err(pipe.into_journal());
    };
    let mut readers = Readers::new(pipe, sessions);
    readers.settle(rt);
    let Ok(live) = count_live(rt, alloc, &mut readers) else {
        return Err(readers.into_journal());
    };
    let Ok(text) = Buf::new(alloc) else {
        return Err(readers.into_journal());
    };
    let told = Told {
        text,
        live,
        limited,
    };
    Ok((readers, told))
}
