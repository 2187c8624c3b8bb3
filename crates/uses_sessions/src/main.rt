//! What a program does whose sessions commit and read beside one another, to copy from: it recovers two directories, lets
//! four sessions on threads each commit a batch and read it, and recovers the directories again.
//!
//! Stands on `wal_recovery` to recover, on `commit_pipeline` over the journal of `failover_writer` for the sessions, with
//! `batch_repr` for their batches, and on `file_disk` for the two directories `wal` and `wal_secondary` of the folder that
//! it runs in.
#![tactic(auto)]

ghost use Rattle.std.specs.Prelude.{◌≡◌, ◌+◌, ◌≤◌, false, IfOk, OnOk, IsTrue, vec_len};
ghost use Rattle.batch_repr.specs.Batches.{end_after, IsContiguous};
ghost use Rattle.batch_repr.specs.declared.limits.TheConstants.{NUMBER_FIRST, NUMBER_MAX};
ghost use Rattle.commit_pipeline.specs.Openings.{opening_on};
ghost use Rattle.disk_face.specs.View.{NothingInFlight};
ghost use Rattle.disk_face.specs.declared.names.TheConstants.{WAL_MAX};
ghost use Rattle.failover_writer.specs.Ranges.{AreUnsent};
ghost use Rattle.failover_writer.specs.State.{len};
ghost use Rattle.uses_sessions.specs.Working.{CommitsOne};

use batch_repr::{BatchBuilder, BuildFault};
use commit_pipeline::{
    CommitFault, Committed, Finished, Gate, NoGate, Parts, PipeName, Pipeline, Session, Sessions,
};
use disk_face::{Disk, WAL_MAX};
use failover_writer::{Journal, JournalFault};
use file_disk::FileDisk;
use std::alloc::Global;
use std::marker::Brand;
use std::process::ExitCode;
use std::sync::Wait;
use std::sync::ledger::Ledger;
use std::thread::Threads;
use std::{io, thread};
use thiserror::Error;
use wal_base::NoMemory;
use wal_recovery::{Mode, RecoverFault, Recovered, recover};

/// From how many pending polls on a segment counts as hung, and the log moves to the other directory.
const THRESHOLD: u32 = 3;

/// How many sessions there are.
const SESSIONS: usize = 4;

/// Why the program ends early.
#[derive(Debug, Drop, Error)]
enum SessionsError {
    #[error("the directories do not recover: {0}")]
    Recover(#[from] RecoverFault),
    #[error("a session fails: {0}")]
    Session(#[from] SessionError),
    #[error("the log cannot be written: {0}")]
    Write(#[from] JournalFault),
    #[error("the text cannot be printed: {0}")]
    Print(#[from] io::Error),
    #[error("no number is left for a WAL")]
    Full,
    #[error("out of memory")]
    NoMemory(#[from] NoMemory),
}

/// Why a session ends early. It is handed from one thread to another, so it holds nothing of the system.
#[derive(Debug, Drop, Error)]
enum SessionError {
    #[error("the batch cannot be built: {0}")]
    Build(#[from] BuildFault),
    #[error("the batch cannot be committed: {0}")]
    Commit(#[from] CommitFault),
    #[error("it reads another value than it wrote")]
    Misread,
    #[error("out of memory")]
    NoMemory(#[from] NoMemory),
}

/// A session, and the key that it alone writes.
#[derive(Drop)]
struct Client<N: PipeName, M: Ledger> {
    session: Session<N, M>,
    key: String,
}

impl<N: PipeName, M: Ledger> Client<N, M> {
    /// Commits a batch with a sync, and reads what it has written.
    fn work<D: Disk, G: Gate, R: Wait>(
        &mut self,
        rt: &R,
        alloc: Global,
        pipe: &Pipeline<'_, D, G, N, M>,
    ) -> Result<Committed, SessionError>
        ensures synced { IfOk result (λ done. IsTrue done.synced) }
        ensures one { OnOk result (CommitsOne self.old.session self.new.session) }
    {
        let key = self.key.as_bytes();
        let mut builder = BatchBuilder::new(alloc)?;
        // The value is the key, so that no other session's would do.
        builder.set(key, key)?;
        let Ok(batch) = builder.finish() else {
            unreachable!()
        };
        // It is answered once a sync covers the batch. Whoever finds the log free syncs for all that wait.
        let done = pipe.commit(rt, &mut self.session, batch, true)?;
        // A session sees what it has committed. It may see what the others have, too.
        let reply = pipe.get(rt, &mut self.session, key)?;
        match reply.value {
            Some(value) if value.as_slice() == key => Ok(done),
            _ => Err(SessionError::Misread),
        }
    }
}

/// What each session came to.
type Answers = Vec<Result<Committed, SessionError>>;

/// Gives each session a key of its own.
fn with_keys<N: PipeName, M: Ledger>(
    alloc: Global,
    sessions: Sessions<N, M>,
) -> Result<Vec<Client<N, M>>, NoMemory>
    ensures { IfOk result (λ clients. vec_len clients ≡ vec_len sessions) }
{
    let mut clients = Vec::with_capacity(alloc, sessions.len())?;
    for session in sessions {
        let key = format!(in alloc; "session {}", clients.len())?;
        clients.push(Client { session, key })?;
    }
    Ok(clients)
}

/// Each session works on a thread of its own. All have come to their end when it returns.
fn work_beside<
    D: Disk + Send,
    G: Gate + Sync,
    N: PipeName + Send + Sync,
    M: Ledger + Send + Sync,
    R: Threads + Wait + Sync,
>(
    rt: &R,
    alloc: Global,
    pipe: &Pipeline<'_, D, G, N, M>,
    sessions: Sessions<N, M>,
) -> Result<(Sessions<N, M>, Answers), NoMemory>
    ensures { IfOk result (λ ended. vec_len ended.0 ≡ vec_len sessions) }
{
    let clients = with_keys(alloc, sessions)?;
    let ended = thread::map_vec(
        rt,
        clients,
        &|mut client: Client<N, M>| {
            let answer = client.work(rt, alloc, pipe);
            (client.session, answer)
        },
    )?;
    let mut sessions = Vec::with_capacity(alloc, ended.len())?;
    let mut answers = Vec::with_capacity(alloc, ended.len())?;
    for (session, answer) in ended {
        sessions.push(session)?;
        answers.push(answer)?;
    }
    Ok((sessions, answers))
}

/// What the sessions came to, how many batches they committed, and the disk.
#[derive(Drop)]
struct Ended<D> {
    answers: Answers,
    batches: u64,
    disk: D,
}

/// Opens a pipeline over a new log and the batches before it, and lets its sessions work.
fn run_sessions<D: Disk + Drop + Send, R: Threads + Wait + Sync>(
    rt: &R,
    alloc: Global,
    disk: D,
    found: Recovered,
) -> Result<Ended<D>, SessionsError>
    requires idle { NothingInFlight (D.view disk) }
    requires wal { found.next_wal ≤ WAL_MAX }
    requires absent { IsTrue D.tells → AreUnsent found.next_wal 0 (D.view disk) }
    requires numbered { IsContiguous NUMBER_FIRST found.batches }
    requires next { found.next ≡ end_after NUMBER_FIRST found.batches }
    requires within { found.next ≤ NUMBER_MAX }
    ensures { IfOk result (λ ended. NothingInFlight (D.view ended.disk)) }
{
    let Ok(journal) = Journal::start(alloc, disk, found.next_wal, found.next, THRESHOLD) else {
        return Err(SessionsError::NoMemory(NoMemory));
    };
    // What was found is what the sessions see before they commit.
    let parts = Parts::new(alloc, found.batches, found.next, SESSIONS)?;
    with_table::<D, Brand, R>(rt, alloc, journal, parts)
}

/// The same, with a name of the table and of the ledger of batches: a type, by which each lock knows what it is for.
fn with_table<D: Disk + Drop + Send, N: PipeName + Send + Sync, R: Threads + Wait + Sync>(
    rt: &R,
    alloc: Global,
    journal: Journal<D>,
    parts: Parts,
) -> Result<Ended<D>, SessionsError>
    requires opening { N.opening ≡ opening_on D.view parts.base journal N.opening.start.may_stall }
    requires table { parts.table ≡ N.table }
    requires queue { parts.queue ≡ N.queue }
    requires batches { (parts.batches ≡ N.name) × (parts.sessions ≡ N.parts) }
    requires empty { len journal.state ≡ 0 }
    requires next { journal.state.next ≡ parts.next }
    ensures { IfOk result (λ ended. NothingInFlight (D.view ended.disk)) }
{
    with_names::<D, N, Brand, R>(rt, alloc, journal, parts)
}

/// The same, with all names.
fn with_names<
    D: Disk + Drop + Send,
    N: PipeName + Send + Sync,
    M: Ledger + Send + Sync,
    R: Threads + Wait + Sync,
>(rt: &R, alloc: Global, journal: Journal<D>, parts: Parts) -> Result<Ended<D>, SessionsError>
    requires opening { N.opening ≡ opening_on D.view parts.base journal N.opening.start.may_stall }
    requires table { parts.table ≡ N.table }
    requires queue { parts.queue ≡ N.queue }
    requires batches { (parts.batches ≡ N.name) × (parts.sessions ≡ N.parts) }
    requires answers { (parts.answers ≡ M.name) × (parts.sessions + parts.sessions ≡ M.parts) }
    requires empty { len journal.state ≡ 0 }
    requires next { journal.state.next ≡ parts.next }
    ensures { IfOk result (λ ended. NothingInFlight (D.view ended.disk)) }
{
    let Ok((pipe, sessions)) = Pipeline::<D, NoGate, N, M>::new(journal, parts, &NoGate) else {
        return Err(SessionsError::NoMemory(NoMemory));
    };
    let (sessions, answers) = work_beside(rt, alloc, &pipe, sessions)?;
    let Finished {
        mut journal,
        visible: _,
        batches,
        popped: _,
    } = pipe.finish(rt, sessions);
    // Whatever a session answered, what is committed is in the journal, and is synced now.
    journal.close()?;
    Ok(Ended {
        answers,
        batches,
        disk: journal.into_disk(),
    })
}

/// How many of the batches are synced, where no session failed.
fn synced_of(answers: Answers) -> Result<u64, SessionError> {
    let mut synced = 0u64;
    for answer in answers {
        if answer?.synced {
            synced = synced.saturating_add(1);
        }
    }
    Ok(synced)
}

/// Recovers the directories, and says what they hold.
fn find<D: Disk, R: Print>(rt: &R, alloc: Global, disk: &mut D) -> Result<Recovered, SessionsError>
    requires { NothingInFlight (D.view disk.old) }
    ensures idle { NothingInFlight (D.view disk.new) }
    ensures numbered { IfOk result (λ found. IsContiguous NUMBER_FIRST found.batches) }
    ensures next { IfOk result (λ found. found.next ≡ end_after NUMBER_FIRST found.batches) }
    ensures within { IfOk result (λ found. found.next ≤ NUMBER_MAX) }
{
    let found = recover(alloc, disk, Mode::Strict)?;
    println!(rt;
        "found {} batches, next {}",
        found.batches.len(),
        found.next
    )?;
    Ok(found)
}

/// What the program does over a disk. Only `main` may name the runtime that has threads, so it makes the disk.
fn run<D: Disk + Drop + Send, R: Threads + Wait + Print + Sync>(
    rt: &R,
    alloc: Global,
    mut disk: D,
) -> Result<(), SessionsError>
    requires idle { NothingInFlight (D.view disk) }
    requires silent { D.tells ≡ false }
{
    let found = find(rt, alloc, &mut disk)?;
    if found.next_wal > WAL_MAX {
        return Err(SessionsError::Full);
    }
    let Ended {
        answers,
        batches,
        mut disk,
    } = run_sessions(rt, alloc, disk, found)?;
    let count = answers.len();
    let synced = synced_of(answers)?;
    println!(rt;
        "{count} sessions committed {batches} batches, {synced} of them synced; each read what it wrote"
    )?;
    find(rt, alloc, &mut disk)?;
    Ok(())
}

fn main(rt: HostRuntime) -> ExitCode {
    let ran = match FileDisk::new(&rt) {
        Ok(disk) => run(&rt, rt.alloc(), disk),
        Err(NoMemory) => Err(SessionsError::NoMemory(NoMemory)),
    };
    match ran {
        Ok(()) => ExitCode::SUCCESS,
        Err(error) => {
            let _ = eprintln!(rt; "{error}");
            ExitCode::FAILURE
        }
    }
}
