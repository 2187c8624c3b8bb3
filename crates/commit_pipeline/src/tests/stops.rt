//! A stop after each call of the journal in a run of eight sessions, which is played by the parts of a commit.
ghost use Rattle.std.specs.Prelude.{◌≡◌, true};

use super::{Play, new_journal, one_set, play_out, state_of};
use crate::desk::Desk;
use crate::{NoGate, PipeName, Pipeline, Session, Sessions};
use batch_repr::{Batch, Batches, NUMBER_FIRST};
use disk_face::{Disk, SegName, Side, StallDisk};
use failover_writer::{Journal, Step};
use mem_disk::{CrashPick, FilePick, FilePicks, MemDisk};
use memtable_shards::{Pieces, split};
use record_queue::RecordNode;
use std::alloc::Global;
use std::marker::Model;
use std::mem;
use std::process::Abort;
use std::sync::Wait;
use std::sync::ledger::Ledger;
use wal_base::{Blob, Entry};
use wal_recovery::{Mode, recover};

/// So many sessions commit, and one more steps the journal.
const COMMITTING: usize = 8;

/// So often each of them commits.
const ROUNDS: u64 = 4;

/// So many sessions, one group after another, number before anything is written.
const GROUPS: &[usize] = &[1, 2, 3, 2];

/// More steps than any wait of the run takes.
const STEPS: u32 = 100;

/// How far a run goes, and how far it is.
#[derive(Drop)]
struct Played {
    /// So many calls of the journal may still be made.
    left: u32,
    made: u32,
    numbered: u64,
    /// So many of the batches that are numbered are on their way to the journal.
    on_way: u32,
}

impl Played {
    fn new(calls: u32) -> Played {
        Played {
            left: calls,
            made: 0,
            numbered: 0,
            on_way: 0,
        }
    }

    /// Whether so many calls may still be made, which counts them.
    fn call(&mut self, calls: u32) -> bool {
        if calls > self.left {
            return false;
        }
        self.left = self.left.wrapping_sub(calls);
        self.made = self.made.wrapping_add(calls);
        true
    }
}

/// Whether a batch of the run is to be synced.
fn is_synced(place: u64) -> bool {
    place % 3 == 2
}

/// The key and the value of a batch of the run.
fn entry_at(place: u64) -> (u8, u8) {
    ((place % 8) as u8, (place % 256) as u8)
}

/// A session that holds no batch.
#[derive(Drop)]
struct Idle<N: PipeName, M: Ledger> {
    desk: Desk<N, M>,
}

impl<N: PipeName, M: Ledger> Model for Idle<N, M> {
    ghost use Rattle.commit_pipeline.specs.Desks.{IsDeskIdle};
    ghost use Rattle.commit_pipeline.specs.declared.desk.Desk.{Desk};

    ghost Value = { Desk N M };

    ghost view = { λ s. s.desk };

    ghost invariant = { λ s. IsDeskIdle N.table N.opening s.desk };
}

/// The sessions of a run between two of its groups.
#[derive(Drop)]
struct Seats<N: PipeName, M: Ledger> {
    /// It steps the journal, and commits nothing.
    stepping: Idle<N, M>,
    /// These have not committed in this round.
    idle: Vec<Idle<N, M>>,
    /// And these have.
    done: Vec<Idle<N, M>>,
}

/// A session whose batch is numbered and not applied.
#[derive(Drop)]
struct Holding<N: PipeName, M: Ledger> {
    desk: Desk<N, M>,
    pieces: Pieces,
    end: u64,
}

impl<N: PipeName, M: Ledger> Model for Holding<N, M> {
    ghost use Rattle.std.specs.Prelude.{◌≡◌, None, length, ◌≤◌};
    ghost use Rattle.commit_queue.specs.Calls.{HoldsUnapplied};
    ghost use Rattle.commit_queue.specs.Shown.{session_shown};
    ghost use Rattle.commit_queue.specs.Seats.{session_table, session_view};
    ghost use Rattle.commit_pipeline.specs.Waits.{IsHeldEnd};
    ghost use Rattle.commit_pipeline.specs.declared.desk.Desk.{Desk};

    ghost Value = { Desk N M };

    ghost view = { λ s. s.desk };

    ghost invariant = { λ s.
        (session_table s.desk.seat ≡ N.table)
        × ((session_shown s.desk.seat).base ≡ N.opening.start.state.next)
        × ((session_shown s.desk.seat).turn ≡ None)
        × HoldsUnapplied (session_view s.desk.seat) s.pieces
        × IsHeldEnd (session_shown s.desk.seat) s.end
        × (s.desk.own.parts ≡ 1) × (s.desk.dead.parts ≡ 1) × (s.desk.told.parts ≡ 1) };
}

impl<N: PipeName, M: Ledger> Idle<N, M> {
    /// Numbers the next batch of the run.
    fn number<D: Disk, R: Wait + Abort>(
        self,
        rt: &R,
        alloc: Global,
        pipe: &Pipeline<'_, D, NoGate, N, M>,
        place: u64,
    ) -> Holding<N, M> {
        let Idle { mut desk } = self;
        let (key, value) = entry_at(place);
        let batch = one_set(rt, alloc, key, value);
        let (batch, entries) = batch.into_parts();
        let count = batch.count();
        let mut pieces = split(alloc, entries).expect(rt, "memory");
        let node = RecordNode::empty(alloc).expect(rt, "memory");
        let sync = is_synced(place);
        match pipe.take_number(rt, &mut desk, batch, node, sync) {
            Ok((first, index)) => {
                assert_eq!(rt; index, place);
                pieces.number(first);
                let end = first + u64::from(count);
                Holding { desk, pieces, end }
            }
            Err(_) => panic!(rt; "a number"),
        }
    }

    /// Steps the journal once.
    fn step<D: Disk, R: Wait + Abort>(
        &mut self,
        rt: &R,
        pipe: &Pipeline<'_, D, NoGate, N, M>,
    ) -> Step {
        let mut log = pipe.log.lock.lock(rt);
        match log.step_for(rt, &pipe.table, &pipe.log.flow, &mut self.desk, 0) {
            Ok(step) => step,
            Err(_) => panic!(rt; "a step"),
        }
    }
}

impl<N: PipeName, M: Ledger> Holding<N, M> {
    /// Applies the batch, and publishes it.
    fn publish<D: Disk, R: Wait>(self, rt: &R, pipe: &Pipeline<'_, D, NoGate, N, M>) -> Idle<N, M> {
        let Holding {
            mut desk,
            pieces,
            end,
        } = self;
        pipe.publish(rt, 0, &mut desk, pieces, end);
        Idle { desk }
    }
}

/// Moves the records on their way into the journal, each of which is a call, where so many may still be made. They are
/// moved early where no more may.
fn take_in<D: Disk, N: PipeName, M: Ledger, R: Wait>(
    rt: &R,
    pipe: &Pipeline<'_, D, NoGate, N, M>,
    played: &mut Played,
    early: bool,
) {
    let calls = played.on_way;
    if early && calls != played.left {
        return;
    }
    if played.call(calls) {
        pipe.log.lock.lock(rt).take_in(rt, &pipe.log.flow);
        played.on_way = 0;
    }
}

/// Steps the journal as long as a step moves, or until so many batches are acked.
fn step_until<D: Disk, N: PipeName, M: Ledger, R: Wait + Abort>(
    rt: &R,
    pipe: &Pipeline<'_, D, NoGate, N, M>,
    played: &mut Played,
    stepping: &mut Idle<N, M>,
    acked: Option<u64>,
) {
    for _ in 0..STEPS {
        if let Some(acked) = acked
            && state_of(rt, pipe).1 >= acked
        {
            return;
        }
        if !played.call(1) {
            return;
        }
        if stepping.step(rt, pipe) != Step::Moved && acked.is_none() {
            return;
        }
    }
    panic!(rt; "a step of the journal that comes to an end");
}

/// The next session numbers the next batch of the run.
fn number_next<D: Disk, N: PipeName, M: Ledger, R: Wait + Abort>(
    rt: &R,
    alloc: Global,
    pipe: &Pipeline<'_, D, NoGate, N, M>,
    played: &mut Played,
    idle: &mut Vec<Idle<N, M>>,
) -> Holding<N, M> {
    let Some(session) = idle.pop() else {
        panic!(rt; "a session");
    };
    let place = played.numbered;
    played.numbered = place.wrapping_add(1);
    played.on_way = played.on_way.wrapping_add(1);
    session.number(rt, alloc, pipe, place)
}

/// These sessions publish, one after another.
fn publish_all<D: Disk, N: PipeName, M: Ledger, R: Wait + Abort>(
    rt: &R,
    pipe: &Pipeline<'_, D, NoGate, N, M>,
    holding: Vec<Holding<N, M>>,
    done: &mut Vec<Idle<N, M>>,
) {
    for held in holding {
        done.push(held.publish(rt, pipe)).expect(rt, "memory");
    }
}

/// So many sessions number, one after another, then the log is written, and then they publish. Answers how many batches
/// are to be acked after that.
fn play_group<D: Disk, N: PipeName, M: Ledger, R: Wait + Abort>(
    rt: &R,
    alloc: Global,
    pipe: &Pipeline<'_, D, NoGate, N, M>,
    played: &mut Played,
    seats: &mut Seats<N, M>,
    group: usize,
) -> Option<u64> {
    let mut holding = Vec::new(alloc);
    let mut asked = None;
    for _ in 0..group {
        let place = played.numbered;
        let held = number_next(rt, alloc, pipe, played, &mut seats.idle);
        holding.push(held).expect(rt, "memory");
        take_in(rt, pipe, played, true);
        if is_synced(place) {
            asked = Some(played.numbered);
        }
    }
    take_in(rt, pipe, played, false);
    step_until(rt, pipe, played, &mut seats.stepping, None);
    publish_all(rt, pipe, holding, &mut seats.done);
    asked
}

/// The sessions of a run, none of which holds a batch.
fn idle_of<N: PipeName, M: Ledger>(
    rt: &impl Abort,
    alloc: Global,
    sessions: Sessions<N, M>,
) -> Vec<Idle<N, M>> {
    let mut idle = Vec::new(alloc);
    for session in sessions {
        let Session { number: _, desk } = session;
        idle.push(Idle { desk }).expect(rt, "memory");
    }
    idle
}

/// The sessions of a run before its first group.
fn seats_of<N: PipeName, M: Ledger>(
    rt: &impl Abort,
    alloc: Global,
    sessions: Sessions<N, M>,
) -> Seats<N, M> {
    let mut idle = idle_of(rt, alloc, sessions);
    let Some(stepping) = idle.pop() else {
        panic!(rt; "a session");
    };
    Seats {
        stepping,
        idle,
        done: Vec::new(alloc),
    }
}

impl Play for Played {
    /// Plays the run up to so many calls of the journal, and then lets one group more number: nobody moves what that
    /// sends. Each side stalls once, and so long that the log leaves it.
    fn play<D: StallDisk, N: PipeName, M: Ledger, R: Wait + Abort>(
        &mut self,
        rt: &R,
        alloc: Global,
        pipe: &Pipeline<'_, D, NoGate, N, M>,
        sessions: Sessions<N, M>,
    )
        requires may_stall { N.opening.start.may_stall ≡ true }
    {
        let mut seats = seats_of(rt, alloc, sessions);
        for round in 0..ROUNDS {
            if round == 1 {
                pipe.stall(rt, Side::Primary, 5);
            }
            if round == 2 {
                pipe.stall(rt, Side::Secondary, 4);
            }
            for group in GROUPS {
                let stopped = self.left == 0;
                let asked = play_group(rt, alloc, pipe, self, &mut seats, *group);
                if asked.is_some() {
                    step_until(rt, pipe, self, &mut seats.stepping, asked);
                }
                if stopped {
                    return;
                }
            }
            mem::swap(&mut seats.idle, &mut seats.done);
        }
        step_until(rt, pipe, self, &mut seats.stepping, None);
    }
}

/// A run over a journal of no record, up to so many calls of the journal. The journal is given up then.
fn run_stopped<R: Wait + Abort>(rt: &R, alloc: Global, calls: u32) -> (Journal<MemDisk>, Played) {
    let mut played = Played::new(calls);
    let journal = new_journal(rt, alloc);
    let journal = play_out(rt, alloc, journal, COMMITTING + 1, &mut played);
    (journal, played)
}

fn side_of(index: u32) -> Side {
    if index % 2 == 0 {
        Side::Primary
    } else {
        Side::Secondary
    }
}

/// The segment of this index.
fn segment_at(index: u32) -> SegName {
    SegName { wal: 1, index }
}

/// The bytes sent to a segment after its stable ones.
fn unstable<'a>(disk: &'a MemDisk, least: &MemDisk, index: u32) -> Option<&'a [u8]> {
    let (side, name) = (side_of(index), segment_at(index));
    let stable = match least.content(side, name) {
        Some(bytes) => bytes.len(),
        None => 0,
    };
    disk.sent(side, name)?.get(stable..)
}

/// These bytes, the last one of which is changed by so much.
fn changed(rt: &impl Abort, alloc: Global, bytes: &[u8], change: u8) -> Blob {
    let mut bytes = Vec::from_slice(alloc, bytes).expect(rt, "memory");
    if let Some(last) = bytes.last_mut() {
        *last ^= change;
    }
    Blob::copy_of(alloc, bytes.as_slice()).expect(rt, "memory")
}

/// The pick of an image in which each segment has all its bytes, the last one changed by so much, or those alone that
/// are stable, as they stand in the least image. No torn chunk deceives there.
fn pick_of(
    rt: &impl Abort,
    alloc: Global,
    disk: &MemDisk,
    least: &MemDisk,
    change: Option<u8>,
) -> CrashPick {
    let mut files = FilePicks::new(alloc);
    for index in 0..10 {
        let tail = match (change, unstable(disk, least, index)) {
            (Some(change), Some(bytes)) => Some(changed(rt, alloc, bytes, change)),
            _ => None,
        };
        let pushed = files.push(FilePick {
            side: side_of(index),
            name: segment_at(index),
            tail,
        });
        assert!(rt; pushed.is_ok());
    }
    let pick = CrashPick { files };
    assert!(rt; disk.chance_free(&pick) == Ok(true));
    pick
}

/// The batch of this place of the run is as it was committed.
fn check_batch(rt: &impl Abort, place: u64, batch: &Batch) {
    assert_eq!(rt; batch.first, NUMBER_FIRST.wrapping_add(place));
    let (byte, digit) = entry_at(place);
    match batch.entries.as_slice() {
        [Entry::Set { key, value }] => {
            assert!(rt; key.as_slice() == [byte].as_slice());
            assert!(rt; value.as_slice() == [digit].as_slice());
        }
        _ => panic!(rt; "one Set"),
    }
}

/// The least image that a crash leaves after so many calls of the journal.
fn least_image<R: Wait + Abort>(rt: &R, alloc: Global, calls: u32) -> MemDisk {
    let none = CrashPick {
        files: FilePicks::new(alloc),
    };
    let (journal, _) = run_stopped(rt, alloc, calls);
    journal.into_disk().crash(&none).expect(rt, "memory")
}

/// What is recovered of the image that the pick names.
fn recovered(
    rt: &impl Abort,
    alloc: Global,
    disk: MemDisk,
    pick: &CrashPick,
    calls: u32,
) -> Batches {
    let mut image = disk.crash(pick).expect(rt, "memory");
    match recover(alloc, &mut image, Mode::Strict) {
        Ok(found) => found.batches,
        Err(_) => panic!(rt; "after {calls} calls the image recovers"),
    }
}

/// These are a prefix of the batches of the run.
fn check_batches(rt: &impl Abort, batches: &[Batch]) {
    for (place, batch) in batches.iter().enumerate() {
        check_batch(rt, place as u64, batch);
    }
}

/// After so many calls of the journal a crash with this tail leaves a prefix of the batches in the order of their
/// numbers, with all that were acked, and none that no call moved.
fn crash<R: Wait + Abort>(rt: &R, alloc: Global, calls: u32, change: Option<u8>) {
    let least = least_image(rt, alloc, calls);
    let (journal, played) = run_stopped(rt, alloc, calls);
    let (acked, moved) = (journal.acked(), journal.len());
    let disk = journal.into_disk();
    let pick = pick_of(rt, alloc, &disk, &least, change);
    let found = recovered(rt, alloc, disk, &pick, calls);
    let count = found.len() as u64;
    check_batches(rt, found.as_slice());
    check_counts(rt, &played, calls, moved);
    assert!(rt;
        acked <= count && count <= moved,
        "after {calls} calls {count}"
    );
}

/// The run made all calls that it might, and each batch was moved or is on its way.
fn check_counts(rt: &impl Abort, played: &Played, calls: u32, moved: u64) {
    assert_eq!(rt; (played.left, played.made), (0, calls));
    assert_eq!(rt;
        moved.wrapping_add(u64::from(played.on_way)),
        played.numbered
    );
}

/// Plays the whole run, and answers how many calls of the journal it makes.
fn play_whole<R: Wait + Abort>(rt: &R, alloc: Global) -> u32 {
    let (journal, played) = run_stopped(rt, alloc, 1_000);
    let batches = ROUNDS * COMMITTING as u64;
    assert_eq!(rt;
        (journal.len(), played.numbered, 2 < journal.segments()),
        (batches, batches, true)
    );
    played.made
}

#[test]
fn a_stop_after_each_call_of_the_journal(rt: HostRuntime) {
    let alloc = rt.alloc();
    let calls = play_whole(&rt, alloc);
    // One for each batch, and one step at least for each group.
    assert!(rt; 48 <= calls && calls < 1_000);
    for made in 0..=calls {
        crash(&rt, alloc, made, None);
        crash(&rt, alloc, made, Some(0));
        crash(&rt, alloc, made, Some(1));
    }
}
