//! The mark: a seat tells that its batch is applied, and holds it no more.
ghost use Rattle.std.specs.Prelude.{◌≡◌, ◌==◌, ◌&&◌, ◌<◌, ◌+◌, ◌≤◌, ◌%◌, ◌^◌, ◌↔◌, ℕ, IsTrue, Some, IfSome, IfNone, IfOk, OnOk, OnErr, length};
ghost use Rattle.std.specs.List.{list_any};
ghost use Rattle.publish_core.specs.Machine.{mark, Among};
ghost use Rattle.publish_core.specs.Parts.{has_part, IsPossible, next_state};

use crate::machine::Core;
use crate::seat::{BatchShape, Stage};
use crate::state::{KeptSeat, KeptState, SHARDS, SLOTS};
use wal_base::NoMemory;

impl KeptSeat {
    ghost use Rattle.publish_core.specs.Kept.{seat_of};

    /// Whether it knows that the batch is applied in the shard.
    pub(crate) fn knows_pair(&self, batch: u64, shard: u64) -> bool
        ensures { result
            ≡ list_any (λ p. p.batch == batch && p.shard == shard) self.now.knows.items }
    {
        self.knows
            .iter()
            .any(|pair| pair.batch == batch && pair.shard == shard)
    }

    /// Whether it knows that the batch is applied in each shard where it has entries.
    fn knows_all(&self, batch: u64, shape: BatchShape) -> bool
        ensures { IsTrue result ↔ ((k : ℕ) → IsTrue (has_part shape k)
            → Among (record { batch = batch; shard = k }) (seat_of self.now).knows) }
    {
        for shard in 0..SHARDS {
            if shape.touches(shard) && !self.knows_pair(batch, shard as u64) {
                return false;
            }
        }
        true
    }
}

impl KeptState {
    ghost use Rattle.publish_core.specs.Kept.{kept_state};

    /// The batch that the seat may mark.
    fn markable(&self, seat: u64) -> Option<u64>
        requires { self.now.head ≤ length self.now.batches.items }
        ensures held { IfSome result (λ i. ((kept_state self.now).seats seat).held ≡ Some i) }
        ensures some { IfSome result (λ i. IsPossible (kept_state self.now) (mark seat)) }
        ensures none { IfNone result (IsPossible (kept_state self.now) (mark seat) → ⊥) }
    {
        if !self.acts(seat) {
            return None;
        }
        let marker = &self.seats[seat as usize];
        let held = marker.held?;
        if held < self.head && marker.knows_all(held, self.batches[held as usize]) {
            Some(held)
        } else {
            None
        }
    }

    fn mark_batch(&mut self, seat: u64, batch: u64) -> Result<(), NoMemory>
        requires held { ((kept_state self.old).seats seat).held ≡ Some batch }
        requires within { batch < length self.old.batches.items }
        requires word { (kept_state self.old).ring (batch % SLOTS) < 2 ^ 58 }
        ensures ok { OnOk result (kept_state self.new ≡ next_state (kept_state self.old) (mark seat)) }
        ensures err { OnErr result (kept_state self.new ≡ kept_state self.old) }
    {
        let slot = batch % SLOTS;
        let marker = &mut self.seats[seat as usize];
        marker.own.push(batch)?;
        marker.held = None;
        self.stages[batch as usize] = Stage::Marked;
        self.ring[slot as usize] += 1;
        Ok(())
    }
}

impl Core {
    ghost use Rattle.publish_core.specs.Answers.{state_of, Answers};

    /// The seat marks the batch that it holds.
    pub(crate) fn mark(&mut self, seat: u64) -> Result<bool, NoMemory>
        ensures ok { IfOk result
            (λ done. Answers (state_of self.old) (mark seat) done (state_of self.new)) }
        ensures err { OnErr result (state_of self.new ≡ state_of self.old) }
    {
        match self.kept.markable(seat) {
            None => Ok(false),
            Some(batch) => {
                self.kept.mark_batch(seat, batch)?;
                Ok(true)
            }
        }
    }
}
