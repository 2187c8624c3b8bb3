//! The four loads: each changes only what one seat has read or seen.
ghost use Rattle.std.specs.Prelude.{◌≡◌, ◌<◌, length};
ghost use Rattle.publish_core.specs.Machine.{load_slot, load_ends, load_visible, load_acked};
ghost use Rattle.publish_core.specs.Parts.{next_state};

use crate::machine::Core;
use crate::seat::{Ends, Reading};
use crate::state::{KeptState, SLOTS};

impl KeptState {
    ghost use Rattle.publish_core.specs.Kept.{kept_state};

    fn read_slot(&mut self, seat: u64, at: u32)
        requires made { seat < length self.old.seats.items }
        requires within { at < SLOTS }
        ensures { kept_state self.new ≡ next_state (kept_state self.old) (load_slot seat at) }
    {
        let word = self.ring[at as usize];
        let reader = &mut self.seats[seat as usize];
        reader.reading = Some(Reading {
            at: at as u64,
            word,
        });
        reader.counts.slots = reader.counts.slots.saturating_add(1);
    }

    fn read_ends(&mut self, seat: u64)
        requires { seat < length self.old.seats.items }
        ensures { kept_state self.new ≡ next_state (kept_state self.old) (load_ends seat) }
    {
        let ends = Ends {
            head: self.head,
            tail: self.tail,
        };
        let reader = &mut self.seats[seat as usize];
        reader.loaded = Some(ends);
        reader.reading = None;
        reader.counts.ends = reader.counts.ends.saturating_add(1);
    }

    fn read_visible(&mut self, seat: u64)
        requires { seat < length self.old.seats.items }
        ensures { kept_state self.new ≡ next_state (kept_state self.old) (load_visible seat) }
    {
        let published = self.published;
        let reader = &mut self.seats[seat as usize];
        reader.published = published;
        reader.seen = reader.seen.max(published);
        reader.counts.visibles = reader.counts.visibles.saturating_add(1);
    }

    fn read_acked(&mut self, seat: u64)
        requires { seat < length self.old.seats.items }
        ensures { kept_state self.new ≡ next_state (kept_state self.old) (load_acked seat) }
    {
        let acked = self.acked;
        let reader = &mut self.seats[seat as usize];
        reader.acked = acked;
        reader.counts.ackeds = reader.counts.ackeds.saturating_add(1);
    }
}

impl Core {
    ghost use Rattle.publish_core.specs.Answers.{state_of, Answers};

    /// The seat reads the ring slot `at`.
    pub(crate) fn load_slot(&mut self, seat: u64, at: u32) -> bool
        ensures { Answers (state_of self.old) (load_slot seat at) result (state_of self.new) }
    {
        if at as u64 >= SLOTS || !self.kept.acts(seat) {
            return false;
        }
        self.kept.read_slot(seat, at);
        true
    }

    /// The seat loads head and tail.
    pub(crate) fn load_ends(&mut self, seat: u64) -> bool
        ensures { Answers (state_of self.old) (load_ends seat) result (state_of self.new) }
    {
        if !self.kept.acts(seat) {
            return false;
        }
        self.kept.read_ends(seat);
        true
    }

    /// The seat loads the visible word.
    pub(crate) fn load_visible(&mut self, seat: u64) -> bool
        ensures { Answers (state_of self.old) (load_visible seat) result (state_of self.new) }
    {
        if !self.kept.acts(seat) {
            return false;
        }
        self.kept.read_visible(seat);
        true
    }

    /// The seat loads the acked word.
    pub(crate) fn load_acked(&mut self, seat: u64) -> bool
        ensures { Answers (state_of self.old) (load_acked seat) result (state_of self.new) }
    {
        if !self.kept.acts(seat) {
            return false;
        }
        self.kept.read_acked(seat);
        true
    }
}
