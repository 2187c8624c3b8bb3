//! What sessions do beside one another, by examples.
ghost use Rattle.std.specs.Prelude.{◌≡◌, ◌+◌, ◌≤◌, length, true};
ghost use Rattle.batch_repr.specs.declared.limits.TheConstants.{NUMBER_FIRST, NUMBER_MAX, SESSIONS_MAX};
ghost use Rattle.commit_pipeline.specs.Openings.{opening_on};
ghost use Rattle.failover_writer.specs.State.{len};

mod deaths;
mod fresh;
mod groups;
mod in_flight;
mod late;
mod numbers;
mod on_the_way;
mod stops;

use crate::{Gate, GatePoint, NoGate, Parts, PipeName, Pipeline, Reply, Session, Sessions};
use batch_repr::{Batches, NUMBER_FIRST, Unnumbered};
use disk_face::{Disk, Side, StallDisk};
use failover_writer::Journal;
use mem_disk::MemDisk;
use std::alloc::Global;
use std::marker::Brand;
use std::process::Abort;
use std::sync::Wait;
use std::sync::atomic::{AtomicBool, AtomicU64, Ordering};
use std::sync::ledger::Ledger;
use std::thread;
use std::thread::Threads;
use test_rigs::{Change, batch_of};

/// The turns for which a gate holds a session at most.
const TURNS: u64 = 1_000_000;

/// Waits until so many are counted, for so many turns at most. Answers whether they were.
fn counted(count: &AtomicU64, least: u64) -> bool {
    for _ in 0..TURNS {
        if count.load(Ordering::SeqCst) >= least {
            return true;
        }
        thread::yield_now();
    }
    false
}

/// A batch that sets a key of one byte to a value of one byte.
fn one_set(rt: &impl Abort, alloc: Global, key: u8, value: u8) -> Unnumbered {
    batch_of(alloc, &[Change::Set(&[key], &[value])]).expect(rt, "memory")
}

/// A journal of no record, over a disk in memory.
fn new_journal(rt: &impl Abort, alloc: Global) -> Journal<MemDisk>
    ensures empty { len result.state ≡ 0 }
    ensures next { result.state.next ≡ NUMBER_FIRST }
{
    journal_from(rt, alloc, NUMBER_FIRST)
}

/// The same, where this number is the next one.
fn journal_from(rt: &impl Abort, alloc: Global, next: u64) -> Journal<MemDisk>
    ensures empty { len result.state ≡ 0 }
    ensures next { result.state.next ≡ next }
{
    let disk = MemDisk::new(alloc).expect(rt, "memory");
    match Journal::start(alloc, disk, 1, next, 3) {
        Ok(journal) => journal,
        Err(_) => panic!(rt; "memory"),
    }
}

/// What the sessions of a run do, each on a thread of its own.
trait Act<G: Gate> {
    fn act<D: Disk, N: PipeName, M: Ledger, R: Wait + Abort>(
        &self,
        rt: &R,
        alloc: Global,
        pipe: &Pipeline<'_, D, G, N, M>,
        session: &mut Session<N, M>,
    );
}

/// Runs so many sessions over a journal of no record, and answers how many batches they committed.
fn run<D: Disk + Drop + Send, G: Gate + Sync, A: Act<G> + Sync, R: Threads + Wait + Abort + Sync>(
    rt: &R,
    alloc: Global,
    gate: &G,
    journal: Journal<D>,
    sessions: usize,
    act: &A,
) -> u64
    requires sessions { (1 ≤ sessions) × (sessions ≤ SESSIONS_MAX) }
    requires empty { len journal.state ≡ 0 }
    requires next { journal.state.next ≡ NUMBER_FIRST }
{
    let base = Batches::new(alloc);
    let parts = Parts::new(alloc, base, NUMBER_FIRST, sessions).expect(rt, "memory");
    with_table::<D, Brand, G, A, R>(rt, alloc, gate, parts, journal, act)
}

/// The name of the table is picked.
fn with_table<
    D: Disk + Drop + Send,
    N: PipeName + Send + Sync,
    G: Gate + Sync,
    A: Act<G> + Sync,
    R: Threads + Wait + Abort + Sync,
>(rt: &R, alloc: Global, gate: &G, parts: Parts, journal: Journal<D>, act: &A) -> u64
    requires opening { N.opening ≡ opening_on D.view parts.base journal N.opening.start.may_stall }
    requires table { parts.table ≡ N.table }
    requires queue { parts.queue ≡ N.queue }
    requires batches { (parts.batches ≡ N.name) × (parts.sessions ≡ N.parts) }
    requires empty { len journal.state ≡ 0 }
    requires next { journal.state.next ≡ parts.next }
{
    with_names::<D, N, Brand, G, A, R>(rt, alloc, gate, parts, journal, act)
}

/// All names are picked.
fn with_names<
    D: Disk + Drop + Send,
    N: PipeName + Send + Sync,
    M: Ledger + Send + Sync,
    G: Gate + Sync,
    A: Act<G> + Sync,
    R: Threads + Wait + Abort + Sync,
>(rt: &R, alloc: Global, gate: &G, parts: Parts, journal: Journal<D>, act: &A) -> u64
    requires opening { N.opening ≡ opening_on D.view parts.base journal N.opening.start.may_stall }
    requires table { parts.table ≡ N.table }
    requires queue { parts.queue ≡ N.queue }
    requires batches { (parts.batches ≡ N.name) × (parts.sessions ≡ N.parts) }
    requires answers { (parts.answers ≡ M.name) × (parts.sessions + parts.sessions ≡ M.parts) }
    requires empty { len journal.state ≡ 0 }
    requires next { journal.state.next ≡ parts.next }
{
    let Ok((pipe, mut sessions)) = Pipeline::<D, G, N, M>::new(journal, parts, gate) else {
        panic!(rt; "memory");
    };
    each_acts(rt, alloc, &pipe, sessions.as_mut_slice(), act);
    pipe.meet(rt, &mut sessions).expect(rt, "memory");
    let finished = pipe.finish(rt, sessions);
    finished.batches
}

/// Each session acts, on a thread of its own.
fn each_acts<
    D: Disk + Send,
    N: PipeName + Send + Sync,
    M: Ledger + Send + Sync,
    G: Gate + Sync,
    A: Act<G> + Sync,
    R: Threads + Wait + Abort + Sync,
>(rt: &R, alloc: Global, pipe: &Pipeline<'_, D, G, N, M>, sessions: &mut [Session<N, M>], act: &A)
    ensures { length sessions.new ≡ length sessions.old }
{
    thread::for_each_mut(
        rt,
        sessions,
        64,
        &|_, session: &mut Session<N, M>| { act.act(rt, alloc, pipe, session) },
    );
}

/// A key of one byte is read, and its value is this one.
fn check_read<D: Disk, G: Gate, N: PipeName, M: Ledger, R: Wait + Abort>(
    rt: &R,
    pipe: &Pipeline<'_, D, G, N, M>,
    session: &mut Session<N, M>,
    key: u8,
    value: u8,
) {
    let Ok(
        Reply {
            value: Some(read),
            ..
        },
    ) = pipe.get(rt, session, &[key])
    else {
        panic!(rt; "a value");
    };
    assert_eq!(rt; read.as_slice(), [value].as_slice());
}

/// How many records the journal of a pipeline has, how many of them are acked, and whether it is dead.
fn state_of<D: Disk, G: Gate, N: PipeName, M: Ledger, R: Wait>(
    rt: &R,
    pipe: &Pipeline<'_, D, G, N, M>,
) -> (u64, u64, bool) {
    let log = pipe.log.lock.lock(rt);
    let journal = &log.journal;
    (journal.len(), journal.acked(), journal.dead().is_some())
}

/// Each session commits so many batches under its own key, and reads what it wrote.
#[derive(Drop)]
struct ReadsItsWrites {
    commits: u8,
}

impl<G: Gate> Act<G> for ReadsItsWrites {
    fn act<D: Disk, N: PipeName, M: Ledger, R: Wait + Abort>(
        &self,
        rt: &R,
        alloc: Global,
        pipe: &Pipeline<'_, D, G, N, M>,
        session: &mut Session<N, M>,
    ) {
        let key = (session.number % 256) as u8;
        for value in 0..self.commits {
            let batch = one_set(rt, alloc, key, value);
            let sync = value % 16 == 15;
            assert!(rt; pipe.commit(rt, session, batch, sync).is_ok());
            check_read(rt, pipe, session, key, value);
        }
    }
}

/// So many sessions do so beside one another.
fn read_beside<R: Threads + Wait + Abort + Sync>(rt: &R, alloc: Global, sessions: u64)
    requires sessions { (1 ≤ sessions) × (sessions ≤ SESSIONS_MAX) }
{
    let act = ReadsItsWrites { commits: 100 };
    let journal = new_journal(rt, alloc);
    let batches = run(rt, alloc, &NoGate, journal, sessions as usize, &act);
    assert_eq!(rt; batches, sessions.wrapping_mul(100));
}

#[test]
fn sessions_read_what_they_wrote(rt: HostRuntime) {
    let alloc = rt.alloc();
    read_beside(&rt, alloc, 1);
    read_beside(&rt, alloc, 2);
    read_beside(&rt, alloc, 8);
    read_beside(&rt, alloc, 64);
}

/// A point that the session of this number passes, or that each one does.
#[derive(Clone, Copy)]
struct Pass {
    session: Option<u32>,
    point: GatePoint,
}

impl Pass {
    fn is_by(self, session: u32, point: GatePoint) -> bool {
        let is_meant = match self.session {
            Some(number) => number == session,
            None => true,
        };
        is_meant && self.point == point
    }
}

/// A gate that counts each pass of one point, and holds who passes another one until so many are counted, for so many
/// turns at most.
#[derive(Drop)]
struct Turnstile {
    counts: Pass,
    holds: Pass,
    least: u64,
    count: AtomicU64,
    /// A hold ran out of turns.
    late: AtomicBool,
}

impl Turnstile {
    fn new(counts: Pass, holds: Pass, least: u64) -> Turnstile {
        Turnstile {
            counts,
            holds,
            least,
            count: AtomicU64::new(0),
            late: AtomicBool::new(false),
        }
    }

    /// How many are counted, and whether a hold ran out of turns.
    fn state(&self) -> (u64, bool) {
        (
            self.count.load(Ordering::SeqCst),
            self.late.load(Ordering::SeqCst),
        )
    }
}

impl Gate for Turnstile {
    fn pass(&self, session: u32, point: GatePoint) {
        if self.counts.is_by(session, point) {
            self.count.fetch_add(1, Ordering::SeqCst);
        }
        if self.holds.is_by(session, point) && !counted(&self.count, self.least) {
            self.late.store(true, Ordering::SeqCst);
        }
    }
}

/// Each session commits one batch.
#[derive(Drop)]
struct CommitsOne {
    sync: bool,
}

impl<G: Gate> Act<G> for CommitsOne {
    fn act<D: Disk, N: PipeName, M: Ledger, R: Wait + Abort>(
        &self,
        rt: &R,
        alloc: Global,
        pipe: &Pipeline<'_, D, G, N, M>,
        session: &mut Session<N, M>,
    ) {
        let batch = one_set(rt, alloc, (session.number % 256) as u8, 0);
        assert!(rt; pipe.commit(rt, session, batch, self.sync).is_ok());
    }
}

/// One session of so many is held once it has its number, until another one has marked its batch.
fn hold_one<R: Threads + Wait + Abort + Sync>(
    rt: &R,
    alloc: Global,
    sessions: u64,
    held: u32,
    other: u32,
)
    requires sessions { (1 ≤ sessions) × (sessions ≤ SESSIONS_MAX) }
{
    let marked = Pass {
        session: Some(other),
        point: GatePoint::Marked,
    };
    let numbered = Pass {
        session: Some(held),
        point: GatePoint::Numbered,
    };
    let gate = Turnstile::new(marked, numbered, 1);
    let journal = new_journal(rt, alloc);
    let act = CommitsOne { sync: false };
    let batches = run(rt, alloc, &gate, journal, sessions as usize, &act);
    assert_eq!(rt; (batches, gate.state()), (sessions, (1, false)));
}

#[test]
fn a_session_that_is_held_holds_up_no_other(rt: HostRuntime) {
    let alloc = rt.alloc();
    hold_one(&rt, alloc, 2, 0, 1);
    hold_one(&rt, alloc, 2, 1, 0);
    hold_one(&rt, alloc, 8, 0, 7);
    hold_one(&rt, alloc, 8, 7, 0);
    hold_one(&rt, alloc, 64, 0, 63);
    hold_one(&rt, alloc, 64, 63, 0);
}

/// What a thread plays with all sessions of a pipeline, polls of whose disk may be left to stall.
trait Play {
    fn play<D: StallDisk, N: PipeName, M: Ledger, R: Wait + Abort>(
        &mut self,
        rt: &R,
        alloc: Global,
        pipe: &Pipeline<'_, D, NoGate, N, M>,
        sessions: Sessions<N, M>,
    )
        requires may_stall { N.opening.start.may_stall ≡ true };
}

/// Plays with so many sessions over a journal of no record, which is given up as it stands then.
fn play_out<D: StallDisk + Drop, P: Play, R: Wait + Abort>(
    rt: &R,
    alloc: Global,
    journal: Journal<D>,
    sessions: usize,
    play: &mut P,
) -> Journal<D>
    requires sessions { (1 ≤ sessions) × (sessions ≤ SESSIONS_MAX) }
    requires empty { len journal.state ≡ 0 }
    requires within { journal.state.next ≤ NUMBER_MAX }
{
    let base = Batches::new(alloc);
    let parts = Parts::new(alloc, base, journal.next(), sessions).expect(rt, "memory");
    played_table::<D, Brand, P, R>(rt, alloc, parts, journal, play)
}

/// The name of the table is picked, by which polls may be left to stall.
fn played_table<D: StallDisk + Drop, N: PipeName, P: Play, R: Wait + Abort>(
    rt: &R,
    alloc: Global,
    parts: Parts,
    journal: Journal<D>,
    play: &mut P,
) -> Journal<D>
    requires opening { N.opening ≡ opening_on D.view parts.base journal N.opening.start.may_stall }
    requires may_stall { N.opening.start.may_stall ≡ true }
    requires table { parts.table ≡ N.table }
    requires queue { parts.queue ≡ N.queue }
    requires batches { (parts.batches ≡ N.name) × (parts.sessions ≡ N.parts) }
    requires empty { len journal.state ≡ 0 }
    requires next { journal.state.next ≡ parts.next }
{
    played_names::<D, N, Brand, P, R>(rt, alloc, parts, journal, play)
}

/// All names are picked.
fn played_names<D: StallDisk + Drop, N: PipeName, M: Ledger, P: Play, R: Wait + Abort>(
    rt: &R,
    alloc: Global,
    parts: Parts,
    journal: Journal<D>,
    play: &mut P,
) -> Journal<D>
    requires opening { N.opening ≡ opening_on D.view parts.base journal N.opening.start.may_stall }
    requires may_stall { N.opening.start.may_stall ≡ true }
    requires table { parts.table ≡ N.table }
    requires queue { parts.queue ≡ N.queue }
    requires batches { (parts.batches ≡ N.name) × (parts.sessions ≡ N.parts) }
    requires answers { (parts.answers ≡ M.name) × (parts.sessions + parts.sessions ≡ M.parts) }
    requires empty { len journal.state ≡ 0 }
    requires next { journal.state.next ≡ parts.next }
{
    let Ok((pipe, sessions)) = Pipeline::<D, NoGate, N, M>::new(journal, parts, &NoGate) else {
        panic!(rt; "memory");
    };
    play.play(rt, alloc, &pipe, sessions);
    pipe.into_journal()
}

/// So many polls are left to stall.
const STALLS: &[u32] = &[0, 1, 2, 20];

/// Each session commits one batch with a sync, after so many polls of the primary side were left to stall.
#[derive(Drop)]
struct SyncsStalled {
    polls: u32,
}

impl Play for SyncsStalled {
    fn play<D: StallDisk, N: PipeName, M: Ledger, R: Wait + Abort>(
        &mut self,
        rt: &R,
        alloc: Global,
        pipe: &Pipeline<'_, D, NoGate, N, M>,
        sessions: Sessions<N, M>,
    )
        requires may_stall { N.opening.start.may_stall ≡ true }
    {
        let mut sessions = sessions;
        pipe.stall(rt, Side::Primary, self.polls);
        for session in sessions.iter_mut() {
            CommitsOne { sync: true }.act(rt, alloc, pipe, session);
        }
    }
}

#[test]
fn a_journal_is_given_up_with_all_batches_though_polls_stalled(rt: HostRuntime) {
    let alloc = rt.alloc();
    for polls in STALLS {
        let mut play = SyncsStalled { polls: *polls };
        let journal = play_out(&rt, alloc, new_journal(&rt, alloc), 3, &mut play);
        assert_eq!(rt; journal.len(), 3);
    }
}
