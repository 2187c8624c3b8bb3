ghost use Rattle.std.specs.Prelude.{◌≡◌, IsTrue, None};
ghost use Rattle.disk_face.specs.declared.Side.TheVariants.{Primary};
ghost use Rattle.disk_face.specs.View.{Place, segment, files, IsFree, NothingInFlight};

use crate::{Goal, LogWriter};
use batch_repr::Numbered;
use block_record::{ReadOut, read_out};
use disk_face::{Disk, Progress, SegName, Side, StallDisk};
use mem_disk::{CrashPick, FilePick, FilePicks, MemDisk};
use record_queue::RecordQueue;
use std::alloc::Global;
use std::marker::Model;
use std::process::Abort;
use test_rigs::numbered_set;
use wal_base::Blob;

const NAME: SegName = SegName { wal: 1, index: 0 };

/// A writer, with its disk and all records of its run.
#[derive(Drop)]
struct Rig<D: StallDisk> {
    disk: D,
    queue: RecordQueue,
    writer: LogWriter,
}

impl<D: StallDisk> Model for Rig<D> {
    ghost use Rattle.std.specs.Prelude.{◌≡◌};
    ghost use Rattle.log_writer.specs.Fits.{Fits};

    ghost Value = { D };

    ghost view = { λ rig. rig.disk };

    ghost invariant = { λ rig. Fits D.tells rig.queue.records rig.writer (D.view rig.disk) × (rig.queue.start ≡ 0) };
}

/// What a step of a rig did.
#[derive(Clone, Copy, Debug, PartialEq, Eq)]
enum Step {
    Begun,
    Polled(Progress),
    Resting,
    Broken,
}

impl<D: StallDisk> Rig<D> {
    /// A new writer of a segment that begins with that record.
    fn new(rt: &impl Abort, alloc: Global, disk: D, queue: RecordQueue, from: u64) -> Rig<D>
        requires free { IsFree (D.view disk) (segment Primary NAME) }
        requires absent { IsTrue D.tells → files (D.view disk) (segment Primary NAME) ≡ None }
        requires whole { queue.start ≡ 0 }
    {
        assert!(rt; from <= queue.end());
        let writer = LogWriter::new(alloc, Side::Primary, NAME, 1, from).expect(rt, "memory");
        Rig {
            disk,
            queue,
            writer,
        }
    }

    /// Polls the operation in flight, or starts the next one.
    fn step(&mut self, rt: &impl Abort, goal: Goal) -> Step {
        if self.writer.busy() {
            return Step::Polled(self.writer.poll(&mut self.disk));
        }
        if self.writer.broken() {
            return Step::Broken;
        }
        assert!(rt; goal.len <= self.queue.end());
        let begun = self.writer.begin(&mut self.disk, &self.queue, &goal);
        if begun.expect(rt, "memory") {
            Step::Begun
        } else {
            Step::Resting
        }
    }

    /// Makes so many steps, or as many as there are, for more and more records. Answers how many it made.
    fn run(&mut self, rt: &impl Abort, steps: u32) -> u32 {
        for step in 0..steps {
            let all = self.queue.end();
            let goal = goal_at(step, all, self.writer.synced());
            let done = self.step(rt, goal);
            if done == Step::Broken || (done == Step::Resting && goal.len == all) {
                return step;
            }
        }
        steps
    }

    /// More polls of the writer's side are pending.
    fn stall(&mut self, polls: u32) {
        self.disk.stall(Side::Primary, polls);
    }

    fn from(&self) -> u64 {
        self.writer.from()
    }

    fn waiting(&self) -> u32 {
        self.writer.waiting()
    }

    fn is_broken(&self) -> bool {
        self.writer.broken()
    }

    /// The ends of what is sent, written and synced.
    fn ends(&self) -> (u64, u64, u64) {
        (
            self.writer.sent(),
            self.writer.written(),
            self.writer.synced(),
        )
    }
}

/// What is wanted at a step of a run: one record more at each third step, and a sync of each fourth record.
fn goal_at(step: u32, all: u64, acked: u64) -> Goal {
    let len = u64::from(step / 3).saturating_add(1).min(all);
    let want = if len < all { len - len % 4 } else { all };
    Goal { len, want, acked }
}

/// The batch of this number that sets `a` to a value of so many equal bytes.
fn numbered(rt: &impl Abort, alloc: Global, first: u32, byte: u8, len: usize) -> Numbered {
    let value = vec![in alloc; byte; len].expect(rt, "memory");
    numbered_set(alloc, u64::from(first), b"a", &value).expect(rt, "memory")
}

/// A record for each length of a value, the first with the number 10.
fn records_of(rt: &impl Abort, alloc: Global, lens: &[usize]) -> RecordQueue
    ensures { result.start ≡ 0 }
{
    let mut queue = RecordQueue::new(alloc).expect(rt, "memory");
    let mut first = 10u32;
    let mut byte = b'1';
    for len in lens {
        queue.reserve().expect(rt, "memory");
        queue.push(numbered(rt, alloc, first, byte, *len));
        first = first.wrapping_add(1);
        byte = byte.wrapping_add(1);
    }
    queue
}

/// The pick of an image in which the segment has this tail, or none.
fn pick_of(rt: &impl Abort, alloc: Global, tail: Option<&[u8]>) -> CrashPick {
    let tail = tail.map(|bytes| Blob::copy_of(alloc, bytes).expect(rt, "memory"));
    let mut files = FilePicks::new(alloc);
    let pushed = files.push(FilePick {
        side: Side::Primary,
        name: NAME,
        tail,
    });
    assert!(rt; pushed.is_ok());
    CrashPick { files }
}

/// The image that the pick names, in which no torn chunk may deceive.
fn image_of(rt: &impl Abort, disk: MemDisk, pick: &CrashPick) -> MemDisk {
    let free = disk.chance_free(pick).expect(rt, "memory");
    assert!(rt; free);
    disk.crash(pick).expect(rt, "memory")
}

/// What the segment reads out as in the image with this tail.
fn read_after(rt: &impl Abort, alloc: Global, disk: MemDisk, tail: Option<&[u8]>) -> ReadOut {
    let pick = pick_of(rt, alloc, tail);
    let image = image_of(rt, disk, &pick);
    let bytes = image.content(Side::Primary, NAME).unwrap_or(b"");
    read_out(alloc, 1, bytes).expect(rt, "memory")
}

/// An empty disk, on which the operation of that number is to fail if there is one.
fn disk_of(rt: &impl Abort, alloc: Global, failing: Option<u64>) -> MemDisk
    ensures idle { NothingInFlight (⟦<MemDisk as Disk>⟧.view result) }
    ensures empty { (p : Place) → files (⟦<MemDisk as Disk>⟧.view result) p ≡ None }
{
    let mut disk = MemDisk::new(alloc).expect(rt, "memory");
    let Some(number) = failing else {
        return disk;
    };
    disk.fail_op(number).expect(rt, "memory");
    disk
}

/// A rig over such a disk, with a record for each length of a value, and a segment that begins with that record.
fn rig_from(
    rt: &impl Abort,
    alloc: Global,
    failing: Option<u64>,
    lens: &[usize],
    from: u64,
) -> Rig<MemDisk> {
    let disk = disk_of(rt, alloc, failing);
    Rig::new(rt, alloc, disk, records_of(rt, alloc, lens), from)
}

fn rig_of(rt: &impl Abort, alloc: Global, failing: Option<u64>, lens: &[usize]) -> Rig<MemDisk> {
    rig_from(rt, alloc, failing, lens, 0)
}

/// What a crash leaves after the stable bytes.
#[derive(Clone, Copy, Debug, PartialEq, Eq)]
enum Tail {
    Nothing,
    AllSent,
    LastByteChanged,
}

/// Where the bytes after the first of so many records begin.
fn end_of(rt: &impl Abort, alloc: Global, sent: &[u8], records: u64) -> usize {
    let read = read_out(alloc, 1, sent).expect(rt, "memory");
    match read.records.get(records as usize) {
        Some(record) => record.at as usize,
        None => sent.len(),
    }
}

/// The bytes that were sent after the first of so many records, changed as the tail says.
fn tail_of(
    rt: &impl Abort,
    alloc: Global,
    disk: &MemDisk,
    synced: u64,
    tail: Tail,
) -> Option<Vec<u8>> {
    if tail == Tail::Nothing {
        return None;
    }
    let sent = disk.sent(Side::Primary, NAME)?;
    let behind = sent.get(end_of(rt, alloc, sent, synced)..)?;
    let mut bytes = Vec::from_slice(alloc, behind).expect(rt, "memory");
    if tail == Tail::LastByteChanged
        && let Some(last) = bytes.last_mut()
    {
        *last ^= 1;
    }
    Some(bytes)
}

/// The record is the one of the queue at this place.
fn check_record(rt: &impl Abort, queue: &RecordQueue, place: u64, record: &[u8]) {
    let wanted = queue.get(place).map(|rec| rec.bytes());
    assert!(rt; wanted == Some(record), "record {place}");
}

/// What a crash leaves with this tail reads out as a prefix of the records, with all that is synced.
fn crash(rt: &impl Abort, alloc: Global, rig: Rig<MemDisk>, tail: Tail) {
    let from = rig.from();
    let (sent, _, synced) = rig.ends();
    let sent = sent.saturating_sub(from);
    let synced = synced.saturating_sub(from);
    let count = match tail {
        Tail::Nothing => synced,
        Tail::AllSent => sent,
        Tail::LastByteChanged => synced.max(sent.saturating_sub(1)),
    };
    let Rig { disk, queue, .. } = rig;
    let bytes = tail_of(rt, alloc, &disk, synced, tail);
    let read = read_after(rt, alloc, disk, bytes.as_deref());
    assert!(rt; read.records.len() as u64 == count);
    for (number, record) in read.records.as_slice().iter().enumerate() {
        let place = from.saturating_add(number as u64);
        check_record(rt, &queue, place, record.bytes.as_slice());
    }
}

/// The step of a rig comes to this.
fn step_is(rt: &impl Abort, rig: &mut Rig<MemDisk>, goal: Goal, wanted: Step) {
    let step = rig.step(rt, goal);
    assert!(rt; step == wanted);
}

/// An operation is begun, and is done at the first poll.
fn does_one(rt: &impl Abort, rig: &mut Rig<MemDisk>, goal: Goal) {
    step_is(rt, rig, goal, Step::Begun);
    step_is(rt, rig, goal, Step::Polled(Progress::Done));
}

/// So much is sent, written and synced.
fn ends_are(rt: &impl Abort, rig: &Rig<MemDisk>, sent: u64, written: u64, synced: u64) {
    assert!(rt; rig.ends() == (sent, written, synced));
}

/// A rig with three records written, of which two are synced.
fn rig_of_three(rt: &impl Abort, alloc: Global) -> Rig<MemDisk> {
    let sync_two = Goal {
        len: 2,
        want: 2,
        acked: 0,
    };
    let write_three = Goal {
        len: 3,
        want: 2,
        acked: 2,
    };
    let mut rig = rig_of(rt, alloc, None, &[1, 1, 1]);
    does_one(rt, &mut rig, sync_two);
    does_one(rt, &mut rig, sync_two);
    does_one(rt, &mut rig, sync_two);
    does_one(rt, &mut rig, write_three);
    step_is(rt, &mut rig, write_three, Step::Resting);
    ends_are(rt, &rig, 3, 3, 2);
    rig
}

#[test]
fn three_records_of_which_two_are_synced(rt: HostRuntime) {
    for tail in [Tail::Nothing, Tail::AllSent, Tail::LastByteChanged] {
        crash(&rt, rt.alloc(), rig_of_three(&rt, rt.alloc()), tail);
    }
}

/// A rig after so many steps of its run.
fn rig_after(rt: &impl Abort, alloc: Global, lens: &[usize], steps: u32) -> Rig<MemDisk> {
    let mut rig = rig_of(rt, alloc, None, lens);
    let made = rig.run(rt, steps);
    assert!(rt; made == steps);
    rig
}

#[test]
fn a_stop_after_each_step_of_fifty_records(rt: HostRuntime) {
    let mut lens = [0; 50];
    for (at, len) in lens.iter_mut().enumerate() {
        *len = at % 10 * 37 + 1;
    }
    lens[5] = 33_000;
    lens[30] = 40_000;
    let steps = rig_of(&rt, rt.alloc(), None, &lens).run(&rt, 1_000);
    assert!(rt; 100 < steps && steps < 1_000);
    for stopped in 0..=steps {
        for tail in [Tail::Nothing, Tail::AllSent, Tail::LastByteChanged] {
            let rig = rig_after(&rt, rt.alloc(), &lens, stopped);
            crash(&rt, rt.alloc(), rig, tail);
        }
    }
}

#[test]
fn a_segment_that_begins_with_a_later_record(rt: HostRuntime) {
    let mut rig = rig_from(&rt, rt.alloc(), None, &[1, 1, 33_000, 1, 1], 2);
    ends_are(&rt, &rig, 2, 2, 2);
    rig.run(&rt, 1_000);
    ends_are(&rt, &rig, 5, 5, 5);
    assert!(rt; rig.from() == 2);
    crash(&rt, rt.alloc(), rig, Tail::Nothing);
}

/// Where the operation of that number is to fail, the run of nine records ends with so much sent, written and synced.
fn check_failing(rt: &impl Abort, alloc: Global, number: u64, ends: (u64, u64, u64)) {
    let mut rig = rig_of(rt, alloc, Some(number), &[1; 9]);
    rig.run(rt, 1_000);
    assert!(rt;
        rig.ends() == ends && rig.is_broken() == (number < 13),
        "where {number} fails"
    );
    crash(rt, alloc, rig, Tail::Nothing);
}

#[test]
fn each_operation_fails_once(rt: HostRuntime) {
    let alloc = rt.alloc();
    // The creation, a write, and a sync; a write and a sync after one that is done. No operation has the number 13.
    check_failing(&rt, alloc, 0, (0, 0, 0));
    check_failing(&rt, alloc, 1, (1, 0, 0));
    check_failing(&rt, alloc, 4, (4, 3, 0));
    check_failing(&rt, alloc, 5, (4, 4, 0));
    check_failing(&rt, alloc, 6, (5, 4, 4));
    check_failing(&rt, alloc, 10, (8, 8, 4));
    check_failing(&rt, alloc, 12, (9, 9, 8));
    check_failing(&rt, alloc, 13, (9, 9, 9));
}

#[test]
fn pending_answers_are_counted_to_a_thousand(rt: HostRuntime) {
    let goal = Goal {
        len: 1,
        want: 0,
        acked: 0,
    };
    let mut rig = rig_of(&rt, rt.alloc(), None, &[1]);
    step_is(&rt, &mut rig, goal, Step::Begun);
    rig.stall(1_001);
    for polls in 1..1_002u32 {
        step_is(&rt, &mut rig, goal, Step::Polled(Progress::Pending));
        assert!(rt; rig.waiting() == polls.min(1_000));
    }
    step_is(&rt, &mut rig, goal, Step::Polled(Progress::Done));
    assert!(rt; rig.waiting() == 0);
}
