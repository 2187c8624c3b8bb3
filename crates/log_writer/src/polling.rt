//! How a writer asks after its operation, and what the answer changes.

ghost use Rattle.std.specs.Prelude.{◌≡◌, ◌≤◌};
ghost use Rattle.disk_face.specs.Calls.{GoesOn};
ghost use Rattle.log_writer.specs.Fits.{IsBusy};
ghost use Rattle.log_writer.specs.Steps.{after_answer};
ghost use Rattle.log_writer.specs.Promises.{IsAsked, HasTaken, TakesItsPoll, PollsOnce};
ghost use Rattle.log_writer.specs.Promises.{FitsSome, StaysFitting, KeptThroughout, KeptAfter};
ghost use Rattle.log_writer.specs.Promises.{SameElsewhere, RestUntouched};

use crate::phase::{Operation, Phase};
use crate::writer::LogWriter;
use disk_face::{Disk, Progress};

/// How far the pending answers of one operation are counted.
pub const WAITING_MAX: u32 = 1_000;

impl LogWriter {
    /// Takes the answer to a poll of this operation.
    fn take_answer(&mut self, operation: Operation, answer: Progress)
        ensures { self.new ≡ after_answer operation answer self.old }
    {
        match answer {
            Progress::Pending => self.waiting = WAITING_MAX.min(self.waiting + 1),
            Progress::Done => {
                match operation {
                    Operation::Create => {}
                    Operation::Write => self.written = self.sent,
                    Operation::Sync => {
                        self.synced = self.written;
                        self.synced_bytes = self.size;
                    }
                }
                self.waiting = 0;
                self.phase = Phase::Idle;
            }
            Progress::Failed => self.phase = Phase::Broken,
        }
    }

    /// Asks how the operation in flight stands. It takes no memory.
    pub fn poll<D: Disk>(&mut self, disk: &mut D) -> Progress
        requires busy { IsBusy self.old.phase }
        requires fits { FitsSome D.tells self.old (D.view disk.old) }
        ensures goes_on { GoesOn (D.view disk.old) (D.view disk.new) }
        ensures polled { IsAsked D.tells self.old.phase (D.view disk.old) (D.view disk.new) result }
        ensures answered { HasTaken result self.old self.new }
        ensures takes { TakesItsPoll self.old.phase result (D.view disk.old) (D.view disk.new) }
        ensures asks { PollsOnce self.old.phase (D.view disk.old) (D.view disk.new) result }
        ensures synced { self.old.synced ≤ self.new.synced }
        ensures fits { StaysFitting D.tells self.old self.new (D.view disk.old) (D.view disk.new) }

        // What a crash leaves, at each moment of the call with what was synced before it, and now with what is synced now.
        ensures each_moment { KeptThroughout D.tells self.old (D.view disk.old) (D.view disk.new) }
        ensures kept { KeptAfter D.tells self.old self.new (D.view disk.old) (D.view disk.new) }

        // Every other file stays as it was, at each moment too.
        ensures others { SameElsewhere D.tells self.old (D.view disk.old) (D.view disk.new) }
        ensures other_moments { RestUntouched D.tells self.old (D.view disk.old) (D.view disk.new) }
    {
        let Phase::InFlight(operation, id) = self.phase else {
            unreachable!();
        };
        let answer = disk.poll(id);
        self.take_answer(operation, answer);
        answer
    }
}
