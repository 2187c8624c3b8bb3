//! How few writes and syncs it takes for many commits beside one another.
ghost use Rattle.std.specs.Prelude.{◌≡◌, ◌≤◌};
ghost use Rattle.batch_repr.specs.declared.limits.TheConstants.{NUMBER_FIRST, SESSIONS_MAX};
ghost use Rattle.failover_writer.specs.State.{len};

use super::{Act, TURNS, counted, one_set, run, state_of};
use crate::{Gate, GatePoint, PipeName, Pipeline, Session};
use batch_repr::NUMBER_FIRST;
use disk_face::{Disk, DiskErr, DiskOp, Names, OpId, Progress, SegName, Side};
use failover_writer::Journal;
use mem_disk::MemDisk;
use std::alloc::Global;
use std::process::Abort;
use std::sync::atomic::{AtomicBool, AtomicU64, Ordering};
use std::sync::ledger::Ledger;
use std::sync::{Arc, Wait};
use std::thread;
use std::thread::Threads;
use test_rigs::Fresh;
use wal_base::NoMemory;

/// What the disk and the sessions count.
#[derive(Drop)]
struct Counts {
    writes: AtomicU64,
    syncs: AtomicU64,
    published: AtomicU64,
    returned: AtomicU64,
    /// A hold ran out of turns.
    late: AtomicBool,
}

fn load(count: &AtomicU64) -> u64 {
    count.load(Ordering::SeqCst)
}

fn add_one(count: &AtomicU64) {
    count.fetch_add(1, Ordering::SeqCst);
}

/// What is held, and until when.
#[derive(Clone, Copy)]
enum Hold {
    /// Each sync, until so many sessions wait for one.
    Syncs { sessions: u64 },
    /// The first write, until so many commits have returned.
    FirstWrite { returned: u64 },
}

impl Hold {
    fn is_for_syncs(self) -> bool {
        matches!(self, Hold::Syncs { .. })
    }
}

impl Counts {
    fn none(rt: &impl Abort, alloc: Global) -> Arc<Counts> {
        let counts = Counts {
            writes: AtomicU64::new(0),
            syncs: AtomicU64::new(0),
            published: AtomicU64::new(0),
            returned: AtomicU64::new(0),
            late: AtomicBool::new(false),
        };
        Arc::new(alloc, counts).expect(rt, "memory")
    }

    fn has_ended(&self, hold: Hold) -> bool {
        match hold {
            Hold::Syncs { sessions } => {
                let round = load(&self.returned).checked_div(sessions).unwrap_or(0);
                load(&self.published) >= round.saturating_add(1).saturating_mul(sessions)
            }
            Hold::FirstWrite { returned } => load(&self.returned) >= returned,
        }
    }

    /// Takes so long as the hold lasts.
    fn wait(&self, hold: Hold) {
        for _ in 0..TURNS {
            if self.has_ended(hold) {
                return;
            }
            thread::yield_now();
        }
        self.late.store(true, Ordering::SeqCst);
    }
}

/// A disk that counts its writes and syncs, of which some take long.
#[derive(Drop)]
struct Counted<D: Disk> {
    inner: D,
    counts: Arc<Counts>,
    hold: Hold,
    held: Option<OpId>,
}

impl<D: Disk> Counted<D> {
    /// Takes long where the operation is held.
    fn wait(&mut self, id: OpId)
        ensures { self.new.inner ≡ self.old.inner }
    {
        if self.held == Some(id) {
            self.held = None;
            self.counts.wait(self.hold);
        }
    }

    /// Whether an operation is held, which is counted.
    fn counts(&self, op: &DiskOp<'_>) -> bool {
        match (op, self.hold) {
            (DiskOp::Sync { .. }, Hold::Syncs { .. }) => {
                add_one(&self.counts.syncs);
                true
            }
            (DiskOp::Write { .. }, Hold::FirstWrite { .. }) => {
                add_one(&self.counts.writes);
                load(&self.counts.writes) == 1
            }
            _ => false,
        }
    }
}

impl<D: Disk> Disk for Counted<D> {
    ghost tells = { D.tells };

    ghost view = { λ d. D.view d.inner };

    fn list(&mut self, side: Side) -> Result<Names, DiskErr> {
        self.inner.list(side)
    }

    fn read(
        &mut self,
        side: Side,
        name: SegName,
        at: u64,
        buf: &mut [u8],
    ) -> Result<usize, DiskErr> {
        self.inner.read(side, name, at, buf)
    }

    fn start(&mut self, op: DiskOp<'_>) -> Result<OpId, NoMemory> {
        let is_held = self.counts(&op);
        let id = self.inner.start(op)?;
        if is_held {
            self.held = Some(id);
        }
        Ok(id)
    }

    fn poll(&mut self, id: OpId) -> Progress {
        self.wait(id);
        self.inner.poll(id)
    }

    ghost finite = { λ d k told le. D.finite d.inner k told le };

    ghost sound = { λ d p f told is. D.sound d.inner p f told is };
}

fn shared(rt: &impl Abort, counts: &Arc<Counts>) -> Arc<Counts> {
    Arc::try_clone(counts).expect(rt, "memory")
}

/// A journal of no record over such a disk.
fn counted_journal(
    rt: &impl Abort,
    alloc: Global,
    counts: Arc<Counts>,
    hold: Hold,
) -> Journal<Counted<MemDisk>>
    ensures empty { len result.state ≡ 0 }
    ensures next { result.state.next ≡ NUMBER_FIRST }
{
    let disk = Fresh::new(alloc).expect(rt, "memory").into_disk();
    let counted = Counted {
        inner: disk,
        counts,
        hold,
        held: None,
    };
    match Journal::start(alloc, counted, 1, NUMBER_FIRST, 3) {
        Ok(journal) => journal,
        Err(_) => panic!(rt; "memory"),
    }
}

/// A gate that counts what is published.
#[derive(Drop)]
struct CountsPublished {
    counts: Arc<Counts>,
}

impl Gate for CountsPublished {
    fn pass(&self, _session: u32, point: GatePoint) {
        if point == GatePoint::Published {
            add_one(&self.counts.published);
        }
    }
}

/// Each session commits so many batches. Where syncs are held, they have one, and no session begins a batch before all
/// have returned from the one before: so two syncs are enough for the batches of all.
#[derive(Drop)]
struct CommitsMany {
    commits: u64,
    hold: Hold,
    counts: Arc<Counts>,
}

impl<G: Gate> Act<G> for CommitsMany {
    fn act<D: Disk, N: PipeName, M: Ledger, R: Wait + Abort>(
        &self,
        rt: &R,
        alloc: Global,
        pipe: &Pipeline<'_, D, G, N, M>,
        session: &mut Session<N, M>,
    ) {
        let returned = &self.counts.returned;
        for round in 0..self.commits {
            let batch = one_set(rt, alloc, (session.number % 256) as u8, 0);
            let sync = self.hold.is_for_syncs();
            assert!(rt; pipe.commit(rt, session, batch, sync).is_ok());
            add_one(returned);
            if let Hold::Syncs { sessions } = self.hold {
                let all = round.saturating_add(1).saturating_mul(sessions);
                assert!(rt; counted(returned, all));
            }
        }
    }
}

/// Two sessions commit once each, the first one with a sync or without, the second one without, while the write of the
/// first one lasts. Both records are moved then, though the second one found the lock taken.
#[derive(Drop)]
struct LeavesOne {
    sync: bool,
    counts: Arc<Counts>,
}

impl<G: Gate> Act<G> for LeavesOne {
    fn act<D: Disk, N: PipeName, M: Ledger, R: Wait + Abort>(
        &self,
        rt: &R,
        alloc: Global,
        pipe: &Pipeline<'_, D, G, N, M>,
        session: &mut Session<N, M>,
    ) {
        let is_second = session.number == 1;
        assert!(rt; !is_second || counted(&self.counts.writes, 1));
        let batch = one_set(rt, alloc, b'a', 0);
        let sync = self.sync && !is_second;
        assert!(rt; pipe.commit(rt, session, batch, sync).is_ok());
        add_one(&self.counts.returned);
        assert!(rt; is_second || state_of(rt, pipe).0 == 2);
    }
}

/// Has so many sessions commit so many batches each, and answers what was counted.
fn count<R: Threads + Wait + Abort + Sync>(
    rt: &R,
    alloc: Global,
    sessions: u64,
    commits: u64,
    hold: Hold,
) -> Arc<Counts>
    requires sessions { (1 ≤ sessions) × (sessions ≤ SESSIONS_MAX) }
{
    let counts = Counts::none(rt, alloc);
    let act = CommitsMany {
        commits,
        hold,
        counts: shared(rt, &counts),
    };
    run_counted(rt, alloc, &counts, sessions, hold, &act);
    counts
}

/// Runs so many sessions over such a disk, and no hold ends late.
fn run_counted<A: Act<CountsPublished> + Sync, R: Threads + Wait + Abort + Sync>(
    rt: &R,
    alloc: Global,
    counts: &Arc<Counts>,
    sessions: u64,
    hold: Hold,
    act: &A,
)
    requires sessions { (1 ≤ sessions) × (sessions ≤ SESSIONS_MAX) }
{
    let journal = counted_journal(rt, alloc, shared(rt, counts), hold);
    let gate = CountsPublished {
        counts: shared(rt, counts),
    };
    run(rt, alloc, &gate, journal, sessions as usize, act);
    assert!(rt; !counts.late.load(Ordering::SeqCst));
}

#[test]
fn many_synced_commits_share_few_syncs(rt: HostRuntime) {
    let counts = count(&rt, rt.alloc(), 64, 100, Hold::Syncs { sessions: 64 });
    assert!(rt; load(&counts.syncs) <= 300);
}

#[test]
fn commits_without_a_sync_go_on_while_a_write_lasts(rt: HostRuntime) {
    let hold = Hold::FirstWrite { returned: 3_000 };
    let counts = count(&rt, rt.alloc(), 4, 1_000, hold);
    assert!(rt; load(&counts.writes) <= 2_000);
}

#[test]
fn whoever_has_the_lock_moves_what_was_left_to_it(rt: HostRuntime) {
    let alloc = rt.alloc();
    let hold = Hold::FirstWrite { returned: 1 };
    for syncs in 0..2u32 {
        let counts = Counts::none(&rt, alloc);
        let act = LeavesOne {
            sync: syncs == 1,
            counts: shared(&rt, &counts),
        };
        run_counted(&rt, alloc, &counts, 2, hold, &act);
    }
}
