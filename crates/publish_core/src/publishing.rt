//! The steps that take a batch from the front and publish it, and the raise of the acked word.
ghost use Rattle.std.specs.Prelude.{◌≡◌, ◌<◌, ◌≤◌, ◌↔◌, IsTrue, IfSome, IfNone, length, max};
ghost use Rattle.publish_core.specs.declared.seat.Claim.TheVariants.{Free, Taken, Emptied};
ghost use Rattle.publish_core.specs.Machine.{claim, empty_slot, raise_visible, raise_acked, after_claim_won, after_claim_lost, is_same_ends, Acts, SawFront};
ghost use Rattle.publish_core.specs.Parts.{shape_count, has_part, IsPossible, next_state};

use crate::machine::Core;
use crate::seat::{Claim, Ends, Stage};
use crate::state::{KeptSeat, KeptState, SLOTS};

impl Claim {
    pub(crate) fn is_free(&self) -> bool
        ensures { IsTrue result ↔ (self.now ≡ Free) }
    {
        match self {
            Claim::Free => true,
            Claim::Taken(_) => false,
            Claim::Emptied(_) => false,
        }
    }
}

impl KeptSeat {
    ghost use Rattle.publish_core.specs.Kept.{seat_of};

    /// Whether it claims nothing, and its loads showed the batch at the front as marked.
    fn saw_front(&self) -> bool
        ensures { IsTrue result ↔ SawFront (seat_of self.now) }
    {
        match (self.loaded, self.reading) {
            (Some(ends), Some(reading)) => {
                self.claim.is_free()
                    && ends.tail < ends.head
                    && reading.at == ends.tail % SLOTS
                    && reading.word % 2 == 1
            }
            _ => false,
        }
    }

    /// Whether the ends are still those that it loaded.
    fn loaded_same(&self, head: u64, tail: u64) -> bool
        ensures { result ≡ is_same_ends shape_count has_part (seat_of self.now).loaded head tail }
    {
        match self.loaded {
            Some(ends) => ends.head == head && ends.tail == tail,
            None => false,
        }
    }
}

impl KeptState {
    ghost use Rattle.publish_core.specs.Kept.{kept_state};

    fn can_claim(&self, seat: u64) -> bool
        ensures { IsTrue result ↔ IsPossible (kept_state self.now) (claim seat) }
    {
        self.acts(seat) && self.seats[seat as usize].saw_front()
    }

    fn win_front(&mut self, seat: u64)
        requires made { seat < length self.old.seats.items }
        requires placed { self.old.tail < length self.old.batches.items }
        ensures { kept_state self.new
            ≡ after_claim_won shape_count has_part (kept_state self.old) seat }
    {
        let batch = self.tail;
        let winner = &mut self.seats[seat as usize];
        winner.loaded = None;
        winner.reading = None;
        winner.claim = Claim::Taken(batch);
        winner.seen = winner.seen.max(batch + 1);
        self.stages[batch as usize] = Stage::Claimed(seat);
        self.tail += 1;
    }

    fn lose_front(&mut self, seat: u64)
        requires { seat < length self.old.seats.items }
        ensures { kept_state self.new
            ≡ after_claim_lost shape_count has_part (kept_state self.old) seat }
    {
        let ends = Ends {
            head: self.head,
            tail: self.tail,
        };
        let loser = &mut self.seats[seat as usize];
        loser.loaded = Some(ends);
        loser.reading = None;
        loser.counts.lost = loser.counts.lost.saturating_add(1);
    }

    /// Takes the batch at the front, where the ends are still those that the seat loaded.
    fn exchange_ends(&mut self, seat: u64)
        requires possible { IsPossible (kept_state self.old) (claim seat) }
        requires within { self.old.head ≤ length self.old.batches.items }
        ensures { kept_state self.new ≡ next_state (kept_state self.old) (claim seat) }
    {
        if self.seats[seat as usize].loaded_same(self.head, self.tail) {
            self.win_front(seat);
        } else {
            self.lose_front(seat);
        }
    }

    /// The batch that the seat claims, where its slot is not emptied yet.
    fn taken_by(&self, seat: u64) -> Option<u64>
        ensures acts { IfSome result (λ i. Acts ((kept_state self.now).seats seat)) }
        ensures some { IfSome result (λ i. ((kept_state self.now).seats seat).claim ≡ Taken i) }
        ensures none { IfNone result (IsPossible (kept_state self.now) (empty_slot seat) → ⊥) }
    {
        if !self.acts(seat) {
            return None;
        }
        match self.seats[seat as usize].claim {
            Claim::Taken(batch) => Some(batch),
            Claim::Free => None,
            Claim::Emptied(_) => None,
        }
    }

    /// The batch that the seat claims, where its slot is emptied.
    fn emptied_by(&self, seat: u64) -> Option<u64>
        ensures acts { IfSome result (λ i. Acts ((kept_state self.now).seats seat)) }
        ensures some { IfSome result (λ i. ((kept_state self.now).seats seat).claim ≡ Emptied i) }
        ensures none { IfNone result (IsPossible (kept_state self.now) (raise_visible seat) → ⊥) }
    {
        if !self.acts(seat) {
            return None;
        }
        match self.seats[seat as usize].claim {
            Claim::Emptied(batch) => Some(batch),
            Claim::Free => None,
            Claim::Taken(_) => None,
        }
    }

    fn clear_slot(&mut self, seat: u64, batch: u64)
        requires made { seat < length self.old.seats.items }
        requires taken { ((kept_state self.old).seats seat).claim ≡ Taken batch }
        requires within { batch < length self.old.batches.items }
        ensures { kept_state self.new ≡ next_state (kept_state self.old) (empty_slot seat) }
    {
        let slot = batch % SLOTS;
        self.stages[batch as usize] = Stage::Cleared(seat);
        self.ring[slot as usize] = 0;
        self.seats[seat as usize].claim = Claim::Emptied(batch);
    }

    fn raise_published(&mut self, seat: u64, batch: u64)
        requires made { seat < length self.old.seats.items }
        requires emptied { ((kept_state self.old).seats seat).claim ≡ Emptied batch }
        requires within { batch < length self.old.batches.items }
        ensures { kept_state self.new ≡ next_state (kept_state self.old) (raise_visible seat) }
    {
        let published = self.published.max(batch + 1);
        self.stages[batch as usize] = Stage::Out;
        self.published = published;
        let raiser = &mut self.seats[seat as usize];
        raiser.claim = Claim::Free;
        raiser.published = published;
        raiser.seen = raiser.seen.max(published);
    }

    fn raise_acked_to(&mut self, to: u64)
        ensures { kept_state self.new ≡ next_state (kept_state self.old) (raise_acked to) }
    {
        self.acked = self.acked.max(to);
    }
}

impl Core {
    ghost use Rattle.publish_core.specs.Answers.{state_of, Answers};

    /// The seat tries to take the batch at the front.
    pub(crate) fn claim(&mut self, seat: u64) -> bool
        ensures { Answers (state_of self.old) (claim seat) result (state_of self.new) }
    {
        if !self.kept.can_claim(seat) {
            return false;
        }
        self.kept.exchange_ends(seat);
        true
    }

    /// The seat empties the slot of the batch that it claims.
    pub(crate) fn empty_slot(&mut self, seat: u64) -> bool
        ensures { Answers (state_of self.old) (empty_slot seat) result (state_of self.new) }
    {
        match self.kept.taken_by(seat) {
            None => false,
            Some(batch) => {
                self.kept.clear_slot(seat, batch);
                true
            }
        }
    }

    /// The seat raises the visible word to the end of the batch that it claims.
    pub(crate) fn raise_visible(&mut self, seat: u64) -> bool
        ensures { Answers (state_of self.old) (raise_visible seat) result (state_of self.new) }
    {
        match self.kept.emptied_by(seat) {
            None => false,
            Some(batch) => {
                self.kept.raise_published(seat, batch);
                true
            }
        }
    }

    /// The acked word rises, to a count of batches that were admitted.
    pub(crate) fn raise_acked(&mut self, to: u32) -> bool
        ensures { Answers (state_of self.old) (raise_acked to) result (state_of self.new) }
    {
        if to as u64 > self.kept.head {
            return false;
        }
        self.kept.raise_acked_to(to as u64);
        true
    }
}
