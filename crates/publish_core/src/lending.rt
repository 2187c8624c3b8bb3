//! The turns on the shards: a seat takes one, and gives it back with or without its batch applied there.
ghost use Rattle.std.specs.Prelude.{◌≡◌, ◌/◌, ◌==◌, ◌↔◌, ◌<◌, ◌∷◌, IsTrue, Some, None, IfOk, OnOk, OnErr, length, slice_index_or, vec_len, vec_capacity};
ghost use Rattle.publish_core.specs.declared.state.KeptSeat.{KeptSeat};
ghost use Rattle.publish_core.specs.Machine.{take_shard, give_shard, after, updated, after_give, after_apply};
ghost use Rattle.publish_core.specs.Parts.{shape_count, has_part};
ghost use Rattle.publish_core.specs.Lent.{CanApply, learned};

use crate::machine::Core;
use crate::seat::Pair;
use crate::state::{KeptState, SHARDS};
use wal_base::NoMemory;

impl KeptState {
    ghost use Rattle.publish_core.specs.Kept.{kept_state};

    /// The shard whose turn the seat has.
    fn turn_of(&self, seat: u64) -> Option<u64>
        requires { seat < length self.now.seats.items }
        ensures { result ≡ ((kept_state self.now).seats seat).turn }
    {
        self.seats[seat as usize].turn
    }

    /// The batch that the seat holds.
    pub(crate) fn held_by(&self, seat: u64) -> Option<u64>
        requires { seat < length self.now.seats.items }
        ensures { result ≡ ((kept_state self.now).seats seat).held }
    {
        self.seats[seat as usize].held
    }

    /// The seat takes the shard where it is free, and else counts that it found it taken.
    fn lend(&mut self, seat: u64, shard: u8)
        requires made { seat < length self.old.seats.items }
        requires within { shard < SHARDS }
        ensures { kept_state self.new ≡
            after shape_count has_part (kept_state self.old) (take_shard seat shard) }
    {
        let asker = &mut self.seats[seat as usize];
        if self.turns[shard as usize] == 0 {
            asker.turn = Some(u64::from(shard));
            self.turns[shard as usize] = seat + 1;
        } else {
            asker.counts.busy = asker.counts.busy.saturating_add(1);
        }
    }

    /// The seat gives the shard back.
    fn end_turn(&mut self, seat: u64, shard: u64)
        requires made { seat < length self.old.seats.items }
        requires within { shard < SHARDS }
        requires turn { ((kept_state self.old).seats seat).turn ≡ Some shard }
        ensures { kept_state self.new ≡ after_give shape_count has_part (kept_state self.old) seat }
    {
        self.seats[seat as usize].turn = None;
        self.turns[shard as usize] = 0;
    }

    /// Whether the batch has entries in the shard that are not yet applied there.
    fn can_apply(&self, batch: u64, shard: u64) -> bool
        requires placed { batch < length self.now.batches.items }
        requires within { shard < SHARDS }
        ensures { IsTrue result ↔ CanApply (kept_state self.now) batch shard }
    {
        self.batches[batch as usize].touches(shard as u8)
            && !self.done[shard as usize].contains(&batch)
    }

    /// Room for one more pair that the seat knows.
    fn make_room(&mut self, seat: u64) -> Result<(), NoMemory>
        requires { seat < length self.old.seats.items }
        ensures same { kept_state self.new ≡ kept_state self.old }
        ensures room { OnOk result ((x : KeptSeat) → x ≡ slice_index_or self.new.seats.items seat x
            → vec_len x.knows < vec_capacity x.knows) }
    {
        self.seats[seat as usize].knows.reserve(1)?;
        Ok(())
    }

    /// The batch is applied in the shard.
    fn note_done(&mut self, batch: u64, shard: u64) -> Result<(), NoMemory>
        requires { shard < SHARDS }
        ensures seats { self.new.seats.items ≡ self.old.seats.items }
        ensures ok { OnOk result (kept_state self.new ≡ record (kept_state self.old) {
          done = updated (kept_state self.old).done shard (batch ∷ (kept_state self.old).done shard);
        }) }
        ensures err { OnErr result (kept_state self.new ≡ kept_state self.old) }
    {
        self.done[shard as usize].push(batch)?;
        Ok(())
    }

    /// The seat knows one more pair.
    fn learn(&mut self, seat: u64, pair: Pair)
        requires made { seat < length self.old.seats.items }
        requires room { (x : KeptSeat) → x ≡ slice_index_or self.old.seats.items seat x
            → vec_len x.knows < vec_capacity x.knows }
        ensures { kept_state self.new ≡ learned (kept_state self.old) seat pair }
    {
        let _kept = self.seats[seat as usize].knows.push(pair);
    }

    /// The batch that the seat holds is applied in the shard whose turn it has, and the turn ends.
    fn apply(&mut self, seat: u64, batch: u64, shard: u64) -> Result<(), NoMemory>
        requires made { seat < length self.old.seats.items }
        requires within { shard < SHARDS }
        requires turn { ((kept_state self.old).seats seat).turn ≡ Some shard }
        requires held { ((kept_state self.old).seats seat).held ≡ Some batch }
        ensures ok { OnOk result
            (kept_state self.new ≡ after_apply shape_count has_part (kept_state self.old) seat) }
        ensures err { OnErr result (kept_state self.new ≡ kept_state self.old) }
    {
        self.make_room(seat)?;
        self.note_done(batch, shard)?;
        self.learn(seat, Pair { batch, shard });
        self.end_turn(seat, shard);
        Ok(())
    }
}

impl Core {
    ghost use Rattle.publish_core.specs.Answers.{state_of, Answers};

    /// The seat takes the turn on a shard, or finds it taken.
    pub(crate) fn take_shard(&mut self, seat: u64, shard: u8) -> bool
        ensures { Answers (state_of self.old) (take_shard seat shard) result (state_of self.new) }
    {
        if shard >= SHARDS || !self.kept.acts(seat) || self.kept.turn_of(seat).is_some() {
            return false;
        }
        self.kept.lend(seat, shard);
        true
    }

    /// The seat ends its turn, with `apply` after the batch that it holds was applied in that shard.
    pub(crate) fn give_shard(&mut self, seat: u64, apply: bool) -> Result<bool, NoMemory>
        ensures ok { IfOk result
            (λ done. Answers (state_of self.old) (give_shard seat apply) done (state_of self.new)) }
        ensures err { OnErr result (state_of self.new ≡ state_of self.old) }
    {
        if !self.kept.acts(seat) {
            return Ok(false);
        }
        let Some(shard) = self.kept.turn_of(seat) else {
            return Ok(false);
        };
        if !apply {
            self.kept.end_turn(seat, shard);
            return Ok(true);
        }
        let Some(batch) = self.kept.held_by(seat) else {
            return Ok(false);
        };
        if !self.kept.can_apply(batch, shard) {
            return Ok(false);
        }
        self.kept.apply(seat, batch, shard)?;
        Ok(true)
    }
}
