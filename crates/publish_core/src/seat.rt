//! What one seat holds and knows, and how far a batch has come. Batches are numbered from 0 as they are placed, below
//! `BATCHES_MAX`, and seats from 0 as they are made.
ghost use Rattle.publish_core.specs.declared.state.TheConstants.{SHARDS};

/// What a seat may do.
#[derive(Clone, Copy, Drop)]
pub enum Kind {
    /// Seat 0, which places batches.
    Producer,
    /// It takes no step: it carries what a seat has seen to another one.
    Note,
    /// Any other seat that takes steps.
    Worker,
    /// It was joined into another seat.
    Spent,
}

/// The batch that a seat took from the front, and whether its ring slot is emptied.
#[derive(Clone, Copy, Drop)]
pub enum Claim {
    /// The seat claims no batch.
    Free,
    /// The seat took this batch, whose slot is still full.
    Taken(u64),
    /// The seat took this batch and emptied its slot.
    Emptied(u64),
}

/// How far a batch has come, and with which seat.
#[derive(Clone, Copy, Drop)]
pub enum Stage {
    /// The seat holds it.
    Held(u64),
    /// It is applied, and waits in the ring.
    Marked,
    /// The seat took it from the front.
    Claimed(u64),
    /// The seat emptied its slot.
    Cleared(u64),
    /// It is published.
    Out,
}

/// Head and tail, as they were loaded together: counts of batches, at most `BATCHES_MAX`.
#[derive(Clone, Copy, Drop)]
pub struct Ends {
    /// So many batches are admitted.
    pub head: u64,
    /// So many batches are taken from the front.
    pub tail: u64,
}

/// A slot of the ring, and the word that was read there.
#[derive(Clone, Copy, Drop)]
pub struct Reading {
    /// The slot, below `SLOTS`.
    pub at: u64,
    /// The word: 0 of an empty slot, else twice the end of the batch that stands there, and 1 more once it is marked.
    pub word: u64,
}

/// A batch and a shard where it is applied.
#[derive(Clone, Copy, Drop)]
pub struct Pair {
    /// The batch.
    pub batch: u64,
    /// The shard, below `SHARDS`.
    pub shard: u64,
}

/// How often a seat took each kind of step that a caller may have to bound. A count stops at `u64::MAX`.
#[derive(Clone, Copy, Drop)]
pub struct Counts {
    /// Loads of a ring slot.
    pub slots: u64,
    /// Loads of head and tail.
    pub ends: u64,
    /// Loads of the visible word.
    pub visibles: u64,
    /// Loads of the acked word.
    pub ackeds: u64,
    /// Claims that another seat won.
    pub lost: u64,
    /// Shards that were found taken.
    pub busy: u64,
}

/// What a seat holds and has seen, in clauses. No value of it is made: a clause reads an array as a list of any length.
pub struct SeatState {
    /// What it may do.
    pub kind: Kind,
    /// The batch that it holds, placed and not marked.
    pub held: Option<u64>,
    /// It has seen so many batches, from the first on.
    pub seen: u64,
    /// It has seen so many batches published.
    pub published: u64,
    /// The greatest acked number that it has seen: so many batches are acked.
    pub acked: u64,
    /// The ends that it loaded last, where it may still claim by them.
    pub loaded: Option<Ends>,
    /// The slot that it read last, where that still tells something.
    pub reading: Option<Reading>,
    /// The batch that it took from the front.
    pub claim: Claim,
    /// The shard whose turn it has, below `SHARDS`.
    pub turn: Option<u64>,
    /// The batches that it knows to be applied, each in a shard.
    pub knows: [Pair; 0],
    /// The batches that it marked, newest first.
    pub own: [u64; 0],
    /// How often it took each kind of step.
    pub counts: Counts,
}

/// A batch, as the machine sees it.
#[derive(Clone, Copy, Drop)]
pub struct BatchShape {
    /// How many numbers it takes, one at least where it is placed.
    pub count: u32,
    /// A bit for each of the `SHARDS` shards, set where it has entries: the bit `k` for the shard `k`.
    pub shards: u8,
}

impl Counts {
    ghost use Rattle.std.specs.Prelude.{◌≡◌};
    ghost use Rattle.publish_core.specs.Machine.{no_counts};

    pub(crate) fn none() -> Counts
        ensures { result ≡ no_counts }
    {
        Counts {
            slots: 0,
            ends: 0,
            visibles: 0,
            ackeds: 0,
            lost: 0,
            busy: 0,
        }
    }
}

impl BatchShape {
    ghost use Rattle.std.specs.Prelude.{◌≡◌, ◌<◌};
    ghost use Rattle.publish_core.specs.Parts.{has_part};

    /// Whether it has entries in this shard.
    pub(crate) fn touches(&self, shard: u8) -> bool
        requires { shard < SHARDS }
        ensures { result ≡ has_part self.now shard }
    {
        (self.shards >> shard) % 2 == 1
    }
}
