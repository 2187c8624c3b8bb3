//! A round, played by the sessions beside one another.

ghost use Rattle.std.specs.Prelude.{◌≡◌, length, map, IfOk, OnOk};
ghost use Rattle.session_replies.specs.Rounds.{LinesAreOfSome};
ghost use Rattle.session_rounds.specs.Playing.{RoundPlayed};
ghost use Rattle.session_rounds.specs.Transcripts.{blank_of};
ghost use Rattle.session_rounds.specs.Turns.{beginning, session_of, join_all, CountsLines, AreDealt, NoneStarved, PlaysTurns};

use crate::crew::Crew;
use crate::transcript::Transcript;
use crate::turns::Turn;
use commit_pipeline::{Gate, PipeName, Sessions};
use disk_face::Disk;
use made_load::LoadRound;
use session_replies::{Line, Lines};
use std::alloc::Global;
use std::sync::Wait;
use std::sync::ledger::Ledger;
use std::thread::Threads;
use wal_base::NoMemory;

impl<
    's,
    'a,
    E,
    D: Disk + Send,
    G: Gate + Sync,
    N: PipeName + Send + Sync,
    M: Ledger + Send + Sync,
    R: Threads + Wait + Sync,
> Crew<'s, 'a, E, D, G, N, M, R> {
    /// Plays the lines of a round: each session that has some does them in their order, beside the others. A session without a line
    /// costs no thread. What is said is added to the transcript, session by session. A session that runs out of memory stops, the
    /// others go on, and then `Err` is answered.
    pub(crate) fn play_lines(
        &mut self,
        sessions: Sessions<N, M>,
        lines: Lines,
        transcript: &mut Transcript,
    ) -> Result<Sessions<N, M>, NoMemory>
        requires { LinesAreOfSome (length sessions.items) lines }
        ensures { IfOk result
            (λ ended. RoundPlayed N.opening lines sessions.items ended.items transcript.old transcript.new) }
    {
        let turns = deal(self.alloc, sessions, lines, transcript)?;
        self.play_turns(turns, transcript)
    }

    /// Plays the lines of a round of a load in the same way. Each session makes its lines itself, before it does the first one.
    pub(crate) fn play_load_lines(
        &mut self,
        sessions: Sessions<N, M>,
        round: LoadRound,
        transcript: &mut Transcript,
    ) -> Result<Sessions<N, M>, NoMemory>
        requires { LinesAreOfSome (length sessions.items) round.lines }
        ensures { IfOk result
            (λ ended. RoundPlayed N.opening round.lines sessions.items ended.items transcript.old transcript.new) }
    {
        let turns = share(self.alloc, sessions, &round, transcript)?;
        self.play_turns(turns, transcript)
    }

    /// Plays turns beside one another. What is said is added to the transcript, turn by turn.
    fn play_turns(
        &mut self,
        turns: Vec<Turn<N, M>>,
        transcript: &mut Transcript,
    ) -> Result<Sessions<N, M>, NoMemory>
        ensures { IfOk result
            (λ ended. PlaysTurns N.opening turns.items ended.items transcript.old transcript.new) }
    {
        let ended = self.play_all(turns)?;
        gather(self.alloc, ended, transcript)
    }
}

/// Gives each session its lines, in their order. Their transcripts keep lines where this one does.
pub(crate) fn deal<N: PipeName, M: Ledger>(
    alloc: Global,
    sessions: Sessions<N, M>,
    lines: Lines,
    transcript: &Transcript,
) -> Result<Vec<Turn<N, M>>, NoMemory>
    requires { LinesAreOfSome (length sessions.items) lines }
    ensures { IfOk result (λ turns. AreDealt (blank_of transcript.now) sessions.items lines turns.items) }
{
    let rooms = count_lines(alloc, sessions.len(), lines.as_slice())?;
    let mut turns = begin_all(alloc, sessions, rooms.as_slice(), transcript)?;
    let mut left = lines;
    while let Some(line) = left.pop() {
        let session = line.session as usize;
        turns[session].put_first(line)?;
    }
    Ok(turns)
}

/// How many lines each session has. Where there are none at all, nothing is allocated.
fn count_lines(alloc: Global, sessions: usize, lines: &[Line]) -> Result<Vec<usize>, NoMemory>
    requires { LinesAreOfSome sessions lines.now }
    ensures { IfOk result (λ counts. CountsLines lines.now counts.items) }
{
    if lines.is_empty() {
        return Ok(Vec::new(alloc));
    }
    let mut counts = vec![in alloc; 0usize; sessions]?;
    for line in lines {
        counts[line.session as usize] += 1;
    }
    Ok(counts)
}

/// A turn for each session, with no line yet, and room for as many as it is to have: then none is
/// moved as more come, and a session without a line allocates nothing.
fn begin_all<N: PipeName, M: Ledger>(
    alloc: Global,
    sessions: Sessions<N, M>,
    rooms: &[usize],
    transcript: &Transcript,
) -> Result<Vec<Turn<N, M>>, NoMemory>
    ensures { IfOk result (λ turns. turns.items ≡ map (beginning (blank_of transcript.now)) sessions.items) }
{
    let mut turns = Vec::with_capacity(alloc, sessions.len())?;
    for session in sessions {
        let room = rooms.get(turns.len()).copied().unwrap_or(0);
        let told = transcript.blank(alloc, room)?;
        turns.push(Turn::of(alloc, session, room, told)?)?;
    }
    Ok(turns)
}

/// Gives each session its lines of a round of a load, still to be made.
pub(crate) fn share<N: PipeName, M: Ledger>(
    alloc: Global,
    sessions: Sessions<N, M>,
    round: &LoadRound,
    transcript: &Transcript,
) -> Result<Vec<Turn<N, M>>, NoMemory>
    ensures { IfOk result
        (λ turns. AreDealt (blank_of transcript.now) sessions.items round.now.lines turns.items) }
{
    let mut turns = Vec::with_capacity(alloc, sessions.len())?;
    for session in sessions {
        let own = round.lines_of(turns.len());
        let told = transcript.blank(alloc, own.len())?;
        turns.push(Turn::to_make(alloc, session, own, told))?;
    }
    Ok(turns)
}

/// Takes the sessions out of their turns, and adds what was said to them to the transcript, unless one ran out of memory.
pub(crate) fn gather<N: PipeName, M: Ledger>(
    alloc: Global,
    turns: Vec<Turn<N, M>>,
    transcript: &mut Transcript,
) -> Result<Sessions<N, M>, NoMemory>
    ensures sessions { IfOk result (λ ended. ended.items ≡ map session_of turns.items) }
    ensures told { OnOk result (transcript.new ≡ join_all transcript.old turns.items) }
    ensures whole { OnOk result (NoneStarved turns.items) }
{
    let mut sessions = Vec::with_capacity(alloc, turns.len())?;
    for turn in turns {
        let (session, told) = turn.into_told()?;
        sessions.push(session)?;
        transcript.join(told)?;
    }
    Ok(sessions)
}
