//! The fifteen events, as a caller writes them, and the step that takes one.
ghost use Rattle.std.specs.Prelude.{◌≡◌, IfOk, OnErr};

use crate::machine::Core;
use crate::seat::BatchShape;
use wal_base::NoMemory;

/// One event of the machine. Where it isn't possible, `Core::step` answers false and changes
/// nothing.
///
/// Seats are numbered as they are made; seat 0 is the producer's. No event is possible whose seat
/// wasn't made yet or is spent, nor one whose seat is a note, other than the `note` of a `Join`.
/// Slots are below `SLOTS`, shards below `SHARDS`, and head, tail and the acked number count batches.
#[derive(Clone, Copy, Drop)]
pub enum CoreEvent {
    /// The seat reads the ring word of the slot `at`, which is below `SLOTS`.
    LoadSlot { seat: u64, at: u32 },
    /// The producer places a batch of `count` numbers, one at least, with entries in the shards whose
    /// bits are set, in the slot of head, which it has just read as 0. Fewer than `BATCHES_MAX` batches
    /// were placed before, and its end is below `END_LIMIT`.
    Place { count: u32, shards: u8 },
    /// The producer lets the others come to the batch that it placed.
    Admit,
    /// The seat loads head and tail, and forgets the ring word that it read.
    LoadEnds { seat: u64 },
    /// Makes a seat, a note or not, that has seen what `from` has seen. A note of the producer's
    /// gets the admitted batch that the producer holds.
    Split { from: u64, note: bool },
    /// The seat `into` takes in all that `note` holds and has seen, and `note` is spent.
    Join { into: u64, note: u64 },
    /// The seat marks the batch that it holds, which is applied in each shard where it has entries.
    Mark { seat: u64 },
    /// The seat takes the batch at the front, or loses it to another seat.
    Claim { seat: u64 },
    /// The seat empties the slot of the batch that it took.
    EmptySlot { seat: u64 },
    /// The seat raises the visible number to the end of the batch that it took.
    RaiseVisible { seat: u64 },
    /// The seat loads the visible number.
    LoadVisible { seat: u64 },
    /// The acked number rises to `to` batches, which is at most head.
    RaiseAcked { to: u32 },
    /// The seat loads the acked number.
    LoadAcked { seat: u64 },
    /// The seat takes the turn of the shard, which is below `SHARDS`, or finds the shard taken.
    TakeShard { seat: u64, shard: u8 },
    /// The seat ends its turn. With `apply` the batch that it holds is in that shard from then on.
    GiveShard { seat: u64, apply: bool },
}

impl Core {
    ghost use Rattle.publish_core.specs.Answers.{state_of, Answers};
    ghost use Rattle.publish_core.specs.Events.{event_of};

    /// Takes one event, and answers whether it was possible. Where it wasn't, or memory ran out,
    /// nothing changes.
    pub fn step(&mut self, event: &CoreEvent) -> Result<bool, NoMemory>
        ensures ok { IfOk result
            (λ done. Answers (state_of self.old) (event_of event.now) done (state_of self.new)) }
        ensures err { OnErr result (state_of self.new ≡ state_of self.old) }
    {
        match *event {
            CoreEvent::LoadSlot { seat, at } => Ok(self.load_slot(seat, at)),
            CoreEvent::Place { count, shards } => self.place(BatchShape { count, shards }),
            CoreEvent::Admit => Ok(self.admit()),
            CoreEvent::LoadEnds { seat } => Ok(self.load_ends(seat)),
            CoreEvent::Split { from, note } => self.split(from, note),
            CoreEvent::Join { into, note } => self.join(into, note),
            CoreEvent::Mark { seat } => self.mark(seat),
            CoreEvent::Claim { seat } => Ok(self.claim(seat)),
            CoreEvent::EmptySlot { seat } => Ok(self.empty_slot(seat)),
            CoreEvent::RaiseVisible { seat } => Ok(self.raise_visible(seat)),
            CoreEvent::LoadVisible { seat } => Ok(self.load_visible(seat)),
            CoreEvent::RaiseAcked { to } => Ok(self.raise_acked(to)),
            CoreEvent::LoadAcked { seat } => Ok(self.load_acked(seat)),
            CoreEvent::TakeShard { seat, shard } => Ok(self.take_shard(seat, shard)),
            CoreEvent::GiveShard { seat, apply } => self.give_shard(seat, apply),
        }
    }
}
