//! How a writer starts its next operation.

ghost use Rattle.crc_chunk.specs.declared.chunk.TheConstants.{BLOCK};
ghost use Rattle.std.specs.Prelude.{◌≡◌, ◌≢◌, ◌<◌, ◌≤◌, ◌++◌, suc, IsTrue, IfOk, OnOk, OnErr};
ghost use Rattle.disk_face.specs.View.{writing, IsFree};
ghost use Rattle.disk_face.specs.Calls.{GoesOn};
ghost use Rattle.block_record.specs.Framing.{standing_after};
ghost use Rattle.log_writer.specs.declared.phase.Operation.TheVariants.{Write};
ghost use Rattle.log_writer.specs.declared.phase.Phase.TheVariants.{Broken};
ghost use Rattle.log_writer.specs.Fits.{IsBusy, place_of_writer, act_of};
ghost use Rattle.log_writer.specs.Steps.{HoldsPart, next_operation};
ghost use Rattle.log_writer.specs.Sending.{frames_at, HasFrames, sending};
ghost use Rattle.log_writer.specs.Promises.{MayStartOwn, StartsOn, AsksToStart, SendsUpTo, SendsForGoal, StartsForGoal};
ghost use Rattle.log_writer.specs.Promises.{FitsQueue, StaysFittingQueue, QueueKept};
ghost use Rattle.log_writer.specs.Promises.{SameElsewhere, RestUntouched};

use crate::goal::Goal;
use crate::phase::{Operation, Phase};
use crate::writer::LogWriter;
use block_record::Framer;
use disk_face::{Disk, DiskOp, OpId};
use record_queue::RecordQueue;
use wal_base::{Buf, NoMemory};

/// How many bytes the frames of the records from one number to below another have, from where the framer stands. `Err`
/// means that no memory is so large.
fn frames_len(framer: &Framer, queue: &RecordQueue, from: u64, to: u64) -> Result<usize, NoMemory>
    requires held { HoldsPart queue.now from to }
    requires in_block { framer.now.place < BLOCK }
    ensures { IfOk result (HasFrames queue.now framer.now from to) }
{
    let mut passed = *framer;
    let mut len: usize = 0;
    for number in from..to {
        let Some(record) = queue.get(number) else {
            unreachable!();
        };
        let framed = passed.pass_over(record.bytes().len());
        let Some(more) = len.checked_add(framed) else {
            return Err(NoMemory);
        };
        len = more;
    }
    Ok(len)
}

/// Frames the records from one number to below another, each with this sync offset. After an error a part of them may
/// stand in `out`.
fn frame_records(
    framer: &mut Framer,
    out: &mut Buf,
    queue: &RecordQueue,
    offset: u64,
    from: u64,
    to: u64,
) -> Result<(), NoMemory>
    requires held { HoldsPart queue.now from to }
    requires in_block { framer.old.place < BLOCK }
    ensures framed { OnOk result (out.new ≡ out.old ++ frames_at queue.now framer.old offset from to) }
    ensures moved { OnOk result (framer.new ≡ standing_after framer.old (frames_at queue.now framer.old offset from to)) }
{
    for number in from..to {
        let Some(record) = queue.get(number) else {
            unreachable!();
        };
        framer.frame(record.bytes(), offset, out)?;
    }
    Ok(())
}

impl LogWriter {
    /// The next operation of the segment, where nothing is in flight and nothing has failed.
    fn next(&self, goal: &Goal) -> Option<Operation>
        ensures { result ≡ next_operation self.now.phase self.now.written goal.now }
    {
        match self.phase {
            Phase::New => Some(Operation::Create),
            Phase::InFlight(_, _) | Phase::Broken => None,
            Phase::Idle => {
                if goal.want > goal.acked && self.written >= goal.want {
                    return Some(Operation::Sync);
                }
                (self.written < goal.len).then_some(Operation::Write)
            }
        }
    }

    /// Writes all records from `sent` up to `len`, framed in one buffer, each with what a completed sync covers now.
    fn write<D: Disk>(
        &mut self,
        disk: &mut D,
        queue: &RecordQueue,
        len: u64,
    ) -> Result<OpId, NoMemory>
        requires free { IsFree (D.view disk.old) (place_of_writer self.old) }
        requires may { MayStartOwn D.tells writing self.old (D.view disk.old) }
        requires held { HoldsPart queue.now self.old.sent len }
        requires in_block { self.old.place < BLOCK }
        ensures goes_on { GoesOn (D.view disk.old) (D.view disk.new) }
        ensures stalls { (D.view disk.new).polls_left ≡ (D.view disk.old).polls_left }
        ensures asks { IfOk result (AsksToStart writing self.old (D.view disk.old) (D.view disk.new)) }
        ensures starts { IfOk result (StartsOn writing self.old (D.view disk.old) (D.view disk.new)) }
        ensures file { OnOk result (SendsUpTo D.tells writing queue.now len self.old (D.view disk.old) (D.view disk.new)) }
        ensures sent { OnOk result (self.new ≡ sending Write queue.now len self.old) }
        ensures err { OnErr result ((self.new ≡ self.old) × (D.view disk.new ≡ D.view disk.old)) }
    {
        let mut framer = self.framer;
        // With so much room no byte is copied twice.
        let room = frames_len(&framer, queue, self.sent, len)?;
        let Some(size) = self.size.checked_add(room as u64) else {
            return Err(NoMemory);
        };
        let mut frames = Buf::with_capacity(self.alloc, room)?;
        frame_records(
            &mut framer,
            &mut frames,
            queue,
            self.synced_bytes,
            self.sent,
            len,
        )?;
        let id = disk.start(DiskOp::Write {
            side: self.side,
            name: self.name,
            bytes: frames.as_slice(),
        })?;
        self.framer = framer;
        self.sent = len;
        self.size = size;
        Ok(id)
    }

    /// Puts this operation in flight, with all records up to `len` where it is a write.
    fn start<D: Disk>(
        &mut self,
        disk: &mut D,
        queue: &RecordQueue,
        operation: Operation,
        len: u64,
    ) -> Result<OpId, NoMemory>
        requires free { IsFree (D.view disk.old) (place_of_writer self.old) }
        requires may { MayStartOwn D.tells (act_of operation) self.old (D.view disk.old) }
        requires held { HoldsPart queue.now self.old.sent len }
        requires in_block { self.old.place < BLOCK }
        ensures goes_on { GoesOn (D.view disk.old) (D.view disk.new) }
        ensures stalls { (D.view disk.new).polls_left ≡ (D.view disk.old).polls_left }
        ensures asks { IfOk result (AsksToStart (act_of operation) self.old (D.view disk.old) (D.view disk.new)) }
        ensures starts { IfOk result (StartsOn (act_of operation) self.old (D.view disk.old) (D.view disk.new)) }
        ensures file { OnOk result (SendsUpTo D.tells (act_of operation) queue.now len self.old (D.view disk.old) (D.view disk.new)) }
        ensures sent { OnOk result (self.new ≡ sending operation queue.now len self.old) }
        ensures err { OnErr result ((self.new ≡ self.old) × (D.view disk.new ≡ D.view disk.old)) }
    {
        let side = self.side;
        let name = self.name;
        match operation {
            Operation::Create => disk.start(DiskOp::Create { side, name }),
            Operation::Write => self.write(disk, queue, len),
            Operation::Sync => disk.start(DiskOp::Sync { side, name }),
        }
    }

    /// Starts the next operation of the segment, and says whether there was one: its creation where that is not
    /// completed; else a sync where `want` is above `acked` and all of `want` is written; else a write of all records
    /// from `written` up to `len`; else none. The queue holds every record from `sent` up to `len`. `Err` means out of
    /// memory, and nothing was started.
    pub fn begin<D: Disk>(
        &mut self,
        disk: &mut D,
        queue: &RecordQueue,
        goal: &Goal,
    ) -> Result<bool, NoMemory>
        requires not_busy { ¬ IsBusy self.old.phase }
        requires not_broken { self.old.phase ≢ Broken }
        requires held { HoldsPart queue.now self.old.sent goal.now.len }
        requires fits { FitsQueue D.tells queue.now self.old (D.view disk.old) }
        ensures goes_on { GoesOn (D.view disk.old) (D.view disk.new) }
        ensures stalls { (D.view disk.new).polls_left ≡ (D.view disk.old).polls_left }
        ensures starts { IfOk result (StartsForGoal goal.now self.old self.new (D.view disk.old) (D.view disk.new)) }
        ensures sends { OnOk result (SendsForGoal D.tells queue.now goal.now self.old (D.view disk.old) (D.view disk.new)) }
        ensures err { OnErr result ((self.new ≡ self.old) × (D.view disk.new ≡ D.view disk.old)) }
        ensures fits { StaysFittingQueue D.tells queue.now self.old self.new (D.view disk.old) (D.view disk.new) }

        // What a crash leaves, at each moment of the call.
        ensures each_moment { QueueKept D.tells queue.now self.old (D.view disk.old) (D.view disk.new) }

        // Every other file stays as it was, at each moment too.
        ensures others { SameElsewhere D.tells self.old (D.view disk.old) (D.view disk.new) }
        ensures other_moments { RestUntouched D.tells self.old (D.view disk.old) (D.view disk.new) }

        // At most one moment passes.
        ensures one_moment { IsTrue D.tells → (D.view disk.new).clock ≤ suc ((D.view disk.old).clock) }
    {
        let Some(operation) = self.next(goal) else {
            return Ok(false);
        };
        let id = self.start(disk, queue, operation, goal.len)?;
        self.waiting = 0;
        self.phase = Phase::InFlight(operation, id);
        Ok(true)
    }
}
