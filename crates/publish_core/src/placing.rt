//! The producer's two steps: it places a batch, and then admits it.
ghost use Rattle.std.specs.Prelude.{◌≡◌, ◌<◌, ◌+◌, ◌↔◌, IsTrue, IfOk, OnOk, OnErr, length, vec_len, vec_capacity};
ghost use Rattle.publish_core.specs.declared.seat.Kind.TheVariants.{Producer};
ghost use Rattle.publish_core.specs.Machine.{admit, place};
ghost use Rattle.publish_core.specs.Parts.{IsPossible, next_state};

use crate::machine::Core;
use crate::seat::{BatchShape, Stage};
use crate::state::{END_LIMIT, KeptSeat, KeptState, SLOTS, push_spare};
use batch_repr::BATCHES_MAX;
use wal_base::NoMemory;

impl KeptSeat {
    ghost use Rattle.publish_core.specs.Kept.{seat_of};

    /// Whether the last slot that it read is this one, and was empty.
    fn found_empty(&self, slot: u64) -> bool
        ensures { IsTrue result
            ↔ ((seat_of self.now).reading ≡ Some record { at = slot; word = 0 }) }
    {
        match self.reading {
            Some(reading) => reading.at == slot && reading.word == 0,
            None => false,
        }
    }
}

impl KeptState {
    ghost use Rattle.publish_core.specs.Kept.{kept_state};

    fn can_place(&self, batch: BatchShape) -> bool
        requires { ((kept_state self.now).seats 0).kind ≡ Producer }
        ensures { IsTrue result ↔ IsPossible (kept_state self.now) (place batch) }
    {
        let placed = self.batches.len() as u64;
        let producer = &self.seats[0];
        placed == self.head
            && producer.held.is_none()
            && producer.found_empty(self.head % SLOTS)
            && batch.count > 0
            && placed < BATCHES_MAX
            && self.end + (batch.count as u64) < END_LIMIT
    }

    /// Makes room for one more batch.
    fn spare_batch(&mut self) -> Result<(), NoMemory>
        ensures same { kept_state self.new ≡ kept_state self.old }
        ensures batches { OnOk result (vec_len self.new.batches < vec_capacity self.new.batches) }
        ensures stages { OnOk result (vec_len self.new.stages < vec_capacity self.new.stages) }
        ensures owners { OnOk result (vec_len self.new.owners < vec_capacity self.new.owners) }
    {
        self.batches.reserve(1)?;
        self.stages.reserve(1)?;
        self.owners.reserve(1)?;
        Ok(())
    }

    fn place_batch(&mut self, batch: BatchShape)
        requires possible { IsPossible (kept_state self.old) (place batch) }
        requires batches { vec_len self.old.batches < vec_capacity self.old.batches }
        requires stages { vec_len self.old.stages < vec_capacity self.old.stages }
        requires owners { vec_len self.old.owners < vec_capacity self.old.owners }
        ensures { kept_state self.new ≡ next_state (kept_state self.old) (place batch) }
    {
        let placed = self.batches.len() as u64;
        let slot = self.head % SLOTS;
        push_spare(&mut self.batches, batch);
        push_spare(&mut self.stages, Stage::Held(0));
        push_spare(&mut self.owners, 0);
        self.end += batch.count as u64;
        self.ring[slot as usize] = 2 * self.end;
        let producer = &mut self.seats[0];
        producer.held = Some(placed);
        producer.reading = None;
        producer.seen = placed + 1;
    }

    fn admit_batch(&mut self)
        requires { self.old.head < length self.old.batches.items }
        ensures { kept_state self.new ≡ next_state (kept_state self.old) admit }
    {
        self.head += 1;
    }
}

impl Core {
    ghost use Rattle.publish_core.specs.Answers.{state_of, Answers};

    /// The producer's seat places the batch behind all others.
    pub(crate) fn place(&mut self, batch: BatchShape) -> Result<bool, NoMemory>
        ensures ok { IfOk result
            (λ done. Answers (state_of self.old) (place batch) done (state_of self.new)) }
        ensures err { OnErr result (state_of self.new ≡ state_of self.old) }
    {
        if !self.kept.can_place(batch) {
            return Ok(false);
        }
        self.kept.spare_batch()?;
        self.kept.place_batch(batch);
        Ok(true)
    }

    /// The producer's seat lets the others come to the batch that it placed.
    pub(crate) fn admit(&mut self) -> bool
        ensures { Answers (state_of self.old) admit result (state_of self.new) }
    {
        if self.kept.batches.len() as u64 != self.kept.head + 1 {
            return false;
        }
        self.kept.admit_batch();
        true
    }
}
