//! What a round comes to, by examples.
ghost use Rattle.std.specs.Prelude.{◌≡◌, [], ◌+◌, ◌≤◌, length, IfSome};
ghost use Rattle.batch_repr.specs.declared.limits.TheConstants.{NUMBER_FIRST, SESSIONS_MAX};
ghost use Rattle.session_replies.specs.Rounds.{LinesAreOfSome};
ghost use Rattle.commit_pipeline.specs.Openings.{opening_on};
ghost use Rattle.failover_writer.specs.State.{len};

use crate::{Players, Readers, Transcript};
use batch_repr::{Batches, NUMBER_FIRST, Unwritten};
use commit_pipeline::{Finished, Gate, NoGate, Parts, PipeName, Pipeline, Sessions};
use disk_face::{Disk, StallDisk};
use failover_writer::Journal;
use made_load::{LOAD_SESSIONS, Load, LoadRound};
use mem_disk::MemDisk;
use session_replies::{Act, Line, Lines, Round, Stalls};
use std::alloc::Global;
use std::marker::Brand;
use std::process::Abort;
use std::sync::Wait;
use std::sync::ledger::Ledger;
use std::thread;
use std::thread::Threads;
use wal_base::{Blob, Entries, Entry};

/// The key of a session.
fn key_of(rt: &impl Abort, alloc: Global, session: u32) -> Blob {
    let key = format!(in alloc; "k{session}").expect(rt, "memory");
    Blob::copy_of(alloc, key.as_bytes()).expect(rt, "memory")
}

/// A line that sets the session's own key to 7, synced at odd sessions.
fn set_line(rt: &impl Abort, alloc: Global, session: u32) -> Line
    ensures { result.session ≡ session }
{
    let mut entries = Entries::new(alloc);
    let entry = Entry::Set {
        key: key_of(rt, alloc, session),
        value: Blob::copy_of(alloc, b"7").expect(rt, "memory"),
    };
    assert!(rt; entries.push(entry).is_ok());
    let batch = Unwritten::of(entries).expect(rt, "a batch of one entry");
    let sync = session % 2 == 1;
    Line {
        session,
        act: Act::Commit { sync, batch },
    }
}

/// A line that reads the session's own key.
fn get_line(rt: &impl Abort, alloc: Global, session: u32) -> Line
    ensures { result.session ≡ session }
{
    let key = key_of(rt, alloc, session);
    Line {
        session,
        act: Act::Get { key },
    }
}

/// Of so many sessions these have lines: so many from a first one on. Or the four sessions of a load of so many batches play
/// its first round.
#[derive(Clone, Copy)]
struct Row {
    sessions: u32,
    first: u32,
    count: u32,
    batches: u32,
}

/// The row of these numbers.
fn chosen(sessions: u32, first: u32, count: u32) -> Row
    ensures { (result.sessions ≡ sessions) × (result.first ≡ first) × (result.count ≡ count) }
{
    Row {
        sessions,
        first,
        count,
        batches: 0,
    }
}

/// The round of a load that its four sessions play, if they do.
fn load_of(row: Row) -> Option<LoadRound>
    ensures { IfSome result (λ round. LinesAreOfSome row.sessions round.lines) }
{
    if row.sessions != LOAD_SESSIONS {
        return None;
    }
    let mut load = Load::new(7, row.batches);
    load.next_round()
}

/// The lines of a round: each session that has some, the last one first, sets its key, and then
/// each reads it.
fn lines_of(rt: &impl Abort, alloc: Global, row: Row) -> Lines
    requires { row.first + row.count ≤ row.sessions }
    ensures { LinesAreOfSome row.sessions result }
{
    let mut lines = Lines::new(alloc);
    for k in 0..row.count {
        let line = set_line(rt, alloc, row.first + (row.count - 1 - k));
        assert!(rt; lines.push(line).is_ok());
    }
    for place in 0..row.count {
        assert!(rt; lines.push(get_line(rt, alloc, row.first + place)).is_ok());
    }
    lines
}

/// A journal of no record, over a disk in memory.
fn new_journal(rt: &impl Abort, alloc: Global) -> Journal<MemDisk>
    ensures empty { len result.state ≡ 0 }
    ensures next { result.state.next ≡ NUMBER_FIRST }
{
    let disk = MemDisk::new(alloc).expect(rt, "memory");
    match Journal::start(alloc, disk, 1, NUMBER_FIRST, 3) {
        Ok(journal) => journal,
        Err(_) => panic!(rt; "memory"),
    }
}

/// Plays the rounds of a row with new sessions over a journal of no record. Answers how many batches were committed, too.
fn played<D: StallDisk + Drop + Send, R: Threads + Wait + Abort + Sync>(
    rt: &R,
    alloc: Global,
    journal: Journal<D>,
    row: Row,
) -> (Transcript, u64)
    requires sessions { (1 ≤ row.sessions) × (row.sessions ≤ SESSIONS_MAX) }
    requires row { row.first + row.count ≤ row.sessions }
    requires empty { len journal.state ≡ 0 }
    requires next { journal.state.next ≡ NUMBER_FIRST }
{
    let base = Batches::new(alloc);
    let parts = Parts::new(alloc, base, NUMBER_FIRST, row.sessions as usize).expect(rt, "memory");
    with_table::<D, Brand, R>(rt, alloc, parts, journal, row)
}

/// The name of the table is picked.
fn with_table<
    D: StallDisk + Drop + Send,
    N: PipeName + Send + Sync,
    R: Threads + Wait + Abort + Sync,
>(rt: &R, alloc: Global, parts: Parts, journal: Journal<D>, row: Row) -> (Transcript, u64)
    requires opening { N.opening ≡ opening_on D.view parts.base journal N.opening.start.may_stall }
    requires table { parts.table ≡ N.table }
    requires queue { parts.queue ≡ N.queue }
    requires batches { (parts.batches ≡ N.name) × (parts.sessions ≡ N.parts) }
    requires empty { len journal.state ≡ 0 }
    requires next { journal.state.next ≡ parts.next }
    requires row { (1 ≤ row.sessions) × (row.first + row.count ≤ row.sessions) × (row.sessions ≡ parts.sessions) }
{
    with_names::<D, N, Brand, R>(rt, alloc, parts, journal, row)
}

/// All names are picked.
fn with_names<
    D: StallDisk + Drop + Send,
    N: PipeName + Send + Sync,
    M: Ledger + Send + Sync,
    R: Threads + Wait + Abort + Sync,
>(rt: &R, alloc: Global, parts: Parts, journal: Journal<D>, row: Row) -> (Transcript, u64)
    requires opening { N.opening ≡ opening_on D.view parts.base journal N.opening.start.may_stall }
    requires table { parts.table ≡ N.table }
    requires queue { parts.queue ≡ N.queue }
    requires batches { (parts.batches ≡ N.name) × (parts.sessions ≡ N.parts) }
    requires answers { (parts.answers ≡ M.name) × (parts.sessions + parts.sessions ≡ M.parts) }
    requires empty { len journal.state ≡ 0 }
    requires next { journal.state.next ≡ parts.next }
    requires row { (1 ≤ row.sessions) × (row.first + row.count ≤ row.sessions) × (row.sessions ≡ parts.sessions) }
{
    let made = Pipeline::<D, NoGate, N, M>::new(journal, parts, &NoGate);
    let Ok((pipe, sessions)) = made else {
        panic!(rt; "memory");
    };
    let (transcript, sessions) = on_threads(rt, alloc, &pipe, sessions, row);
    (transcript, ended(rt, Readers::new(pipe, sessions)))
}

/// Plays the rounds of a row on the threads of a scope. The transcript is that of the last one.
fn on_threads<
    D: StallDisk + Drop + Send,
    N: PipeName + Send + Sync,
    M: Ledger + Send + Sync,
    R: Threads + Wait + Abort + Sync,
>(
    rt: &R,
    alloc: Global,
    pipe: &Pipeline<'_, D, NoGate, N, M>,
    sessions: Sessions<N, M>,
    row: Row,
) -> (Transcript, Sessions<N, M>)
    requires all { (length sessions.items ≡ N.parts) × (length sessions.items + length sessions.items ≡ M.parts) }
    requires row { (row.first + row.count ≤ row.sessions) × (row.sessions ≡ length sessions.items) }
    ensures all { (length result.1.items ≡ N.parts) × (length result.1.items + length result.1.items ≡ M.parts) }
{
    thread::scope(
        thread::scope_env(),
        rt,
        move |scope| -> (Transcript, Sessions<N, M>)
            requires all { (length sessions.items ≡ N.parts) × (length sessions.items + length sessions.items ≡ M.parts) }
            requires row { (row.first + row.count ≤ row.sessions) × (row.sessions ≡ length sessions.items) }
            ensures { (length result.1.items ≡ N.parts) × (length result.1.items + length result.1.items ≡ M.parts) }
        {
            let players = Players::new(rt, alloc, scope, pipe, sessions);
            let (players, transcript) = play_row(rt, alloc, players, row);
            (transcript, players.end_rounds())
        },
    )
}

/// Plays the first round of a load, or the round of a row twice over.
fn play_row<
    's,
    'a,
    E,
    D: StallDisk + Drop + Send,
    N: PipeName + Send + Sync,
    M: Ledger + Send + Sync,
    R: Threads + Wait + Abort + Sync,
>(
    rt: &R,
    alloc: Global,
    players: Players<'s, 'a, E, D, NoGate, N, M, R>,
    row: Row,
) -> (Players<'s, 'a, E, D, NoGate, N, M, R>, Transcript)
    requires { (row.first + row.count ≤ row.sessions) × (row.sessions ≡ length players) }
{
    let mut transcript = Transcript::new(alloc).expect(rt, "memory");
    if let Some(round) = load_of(row) {
        let Ok(players) = players.play_load_round(round, &mut transcript) else {
            panic!(rt; "memory");
        };
        return (players, transcript);
    }
    let round = round_of(rt, alloc, row);
    let Ok(players) = players.play_round(round, &mut Transcript::silent()) else {
        panic!(rt; "memory");
    };
    let again = round_of(rt, alloc, row);
    let Ok(players) = players.play_round(again, &mut transcript) else {
        panic!(rt; "memory");
    };
    (players, transcript)
}

/// The round of a row.
fn round_of(rt: &impl Abort, alloc: Global, row: Row) -> Round
    requires { row.first + row.count ≤ row.sessions }
    ensures stalls { result.stalls ≡ [] }
    ensures lines { LinesAreOfSome row.sessions result.lines }
{
    Round {
        stalls: Stalls::new(alloc),
        lines: lines_of(rt, alloc, row),
    }
}

/// Ends the pipeline, with a read before. Answers how many batches were committed.
fn ended<D: Disk + Drop, G: Gate, N: PipeName, M: Ledger, R: Wait + Abort>(
    rt: &R,
    mut readers: Readers<'_, D, G, N, M>,
) -> u64
    requires { 1 ≤ length readers.now }
{
    let reply = readers.get(rt, b"no such key").expect(rt, "memory");
    assert!(rt; reply.value.is_none());
    let Finished {
        journal: _,
        visible,
        batches,
        popped: _,
    } = readers.finish(rt);
    assert_eq!(rt; visible, reply.visible);
    batches
}

/// Whether a line tells a session that so many entries were committed, synced or not.
fn has_committed(
    rt: &impl Abort,
    alloc: Global,
    line: &[u8],
    session: u32,
    count: u32,
    synced: bool,
) -> bool {
    let front = format!(in alloc; "s{session} commit ").expect(rt, "memory");
    let word = if synced { " synced" } else { "" };
    let back = format!(in alloc; " {count}{word}").expect(rt, "memory");
    line.starts_with(front.as_bytes()) && line.ends_with(back.as_bytes())
}

/// Whether a line tells a session what it has set.
fn has_read(rt: &impl Abort, alloc: Global, line: &[u8], session: u32) -> bool {
    let front = format!(in alloc; "s{session} get k{session} = 7 @").expect(rt, "memory");
    line.starts_with(front.as_bytes())
}

/// Plays a round twice over, and asserts of the second time that the lines stand session by session.
fn plays<R: Threads + Wait + Abort + Sync>(rt: &R, alloc: Global, row: Row)
    requires sessions { (1 ≤ row.sessions) × (row.sessions ≤ SESSIONS_MAX) }
    requires row { row.first + row.count ≤ row.sessions }
{
    let journal = new_journal(rt, alloc);
    let (transcript, batches) = played(rt, alloc, journal, row);
    assert_eq!(rt; batches, 2 * u64::from(row.count));
    assert!(rt; !transcript.limited);
    let text = transcript.text.expect(rt, "a text");
    let mut left = text.as_slice().split(|byte| *byte == b'\n');
    for k in 0..row.count {
        let session = row.first + k;
        let line = left.next().expect(rt, "the reply to a commit");
        assert!(rt; has_committed(rt, alloc, line, session, 1, session % 2 == 1));
        let line = left.next().expect(rt, "the reply to a read");
        assert!(rt; has_read(rt, alloc, line, session));
    }
    let rest = left.next().expect(rt, "the end");
    assert!(rt; rest.is_empty() && left.next().is_none());
}

#[test]
fn each_session_reads_what_it_wrote(rt: HostRuntime) {
    plays(&rt, rt.alloc(), chosen(1, 0, 1));
    plays(&rt, rt.alloc(), chosen(2, 0, 2));
    plays(&rt, rt.alloc(), chosen(64, 0, 64));
}

#[test]
fn sessions_without_a_line_answer_nothing(rt: HostRuntime) {
    plays(&rt, rt.alloc(), chosen(64, 0, 0));
    plays(&rt, rt.alloc(), chosen(64, 63, 1));
    plays(&rt, rt.alloc(), chosen(64, 40, 3));
}

/// Plays the first round of a load, and asserts that its batches are answered session by session.
fn plays_load<R: Threads + Wait + Abort + Sync>(rt: &R, alloc: Global, batches: u32) {
    let row = Row {
        sessions: LOAD_SESSIONS,
        first: 0,
        count: 0,
        batches,
    };
    let journal = new_journal(rt, alloc);
    let (transcript, committed) = played(rt, alloc, journal, row);
    assert_eq!(rt; committed, u64::from(batches));
    let text = transcript.text.expect(rt, "a text");
    let mut left = text.as_slice().split(|byte| *byte == b'\n');
    for session in 0..4u32 {
        for index in 0..batches {
            if index % 4 == session {
                let entries = if index % 8 == 7 { 2 } else { 1 };
                let line = left.next().expect(rt, "the reply to a commit");
                assert!(rt; has_committed(rt, alloc, line, session, entries, index % 16 == 15));
            }
        }
    }
    let rest = left.next().expect(rt, "the end");
    assert!(rt; rest.is_empty() && left.next().is_none());
}

#[test]
fn the_sessions_of_a_load_make_their_own_lines(rt: HostRuntime) {
    plays_load(&rt, rt.alloc(), 1);
    plays_load(&rt, rt.alloc(), 7);
    plays_load(&rt, rt.alloc(), 1_000);
}
