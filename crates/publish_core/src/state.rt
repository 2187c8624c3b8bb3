//! The state as it is kept: numbers and lists.
ghost use Rattle.std.specs.Prelude.{◌≡◌, ℕ, ◌<◌, ◌≤◌, ◌↔◌, [], IsTrue, IfOk, length, map, slice_index_or, vec_items, vec_len, vec_capacity, ◌++◌, ◌∷◌};
ghost use Rattle.batch_repr.specs.declared.limits.TheConstants.{BATCHES_MAX};
ghost use Rattle.publish_core.specs.declared.state.TheConstants.{SLOTS, SHARDS, END_LIMIT};
ghost use Rattle.publish_core.specs.Machine.{Acts, ends};
ghost use Rattle.publish_core.specs.Parts.{shape_count};

use crate::seat::{BatchShape, Claim, Counts, Ends, Kind, Pair, Reading, Stage};
use batch_repr::NUMBER_MAX;
use std::alloc::Global;
use wal_base::NoMemory;

/// How many slots the ring has. The batch `i` stands in the slot `i % SLOTS`.
pub const SLOTS: u64 = 64;

/// Every batch's end is below it, and so is every visible number.
pub const END_LIMIT: u64 = NUMBER_MAX + 1;

/// How many shards there are.
pub const SHARDS: u8 = 8;

/// A seat, as it is kept. What it knows and what it marked stand oldest first.
#[derive(Drop)]
pub(crate) struct KeptSeat {
    pub(crate) kind: Kind,
    pub(crate) held: Option<u64>,
    pub(crate) seen: u64,
    pub(crate) published: u64,
    pub(crate) acked: u64,
    pub(crate) loaded: Option<Ends>,
    pub(crate) reading: Option<Reading>,
    pub(crate) claim: Claim,
    pub(crate) turn: Option<u64>,
    pub(crate) knows: Vec<Pair>,
    pub(crate) own: Vec<u64>,
    pub(crate) counts: Counts,
}

/// A state, as it is kept. The lists of a shard's batches stand oldest first.
#[derive(Drop)]
pub(crate) struct KeptState {
    pub(crate) base: u64,
    pub(crate) batches: Vec<BatchShape>,
    /// The end of the last batch, kept so that no step adds up all batches.
    pub(crate) end: u64,
    pub(crate) head: u64,
    pub(crate) tail: u64,
    pub(crate) published: u64,
    pub(crate) acked: u64,
    pub(crate) stages: Vec<Stage>,
    pub(crate) owners: Vec<u64>,
    pub(crate) done: Vec<Vec<u64>>,
    pub(crate) ring: Vec<u64>,
    pub(crate) turns: Vec<u64>,
    pub(crate) seats: Vec<KeptSeat>,
    ghost ring_wide: { length ring.items ≡ SLOTS },
    ghost turns_wide: { length turns.items ≡ SHARDS },
    ghost done_wide: { length done.items ≡ SHARDS },
    ghost stage_each: { length stages.items ≡ length batches.items },
    ghost owner_each: { length owners.items ≡ length batches.items },
    ghost few: { length batches.items ≤ BATCHES_MAX },
    ghost end_is: { end ≡ ends shape_count base batches.items (length batches.items) },
    ghost end_small: { end < END_LIMIT },
}

impl KeptSeat {
    ghost use Rattle.publish_core.specs.Kept.{seat_of};
    ghost use Rattle.publish_core.specs.Machine.{nobody};
    ghost use Rattle.publish_core.specs.declared.seat.Kind.TheVariants.{Producer};

    /// The producer's seat, as it is made.
    fn producer(alloc: Global) -> KeptSeat
        ensures { seat_of result ≡ record nobody { kind = Producer } }
    {
        KeptSeat {
            kind: Kind::Producer,
            held: None,
            seen: 0,
            published: 0,
            acked: 0,
            loaded: None,
            reading: None,
            claim: Claim::Free,
            turn: None,
            knows: Vec::new(alloc),
            own: Vec::new(alloc),
            counts: Counts::none(),
        }
    }

    /// Whether it may step.
    pub(crate) fn acts(&self) -> bool
        ensures { IsTrue result ↔ Acts (seat_of self.now) }
    {
        match self.kind {
            Kind::Producer => true,
            Kind::Note => false,
            Kind::Worker => true,
            Kind::Spent => false,
        }
    }
}

impl KeptState {
    ghost use Rattle.publish_core.specs.Kept.{kept_state};
    ghost use Rattle.publish_core.specs.Schedule.{opening};

    /// The opening state, of the visible number `v0`.
    pub(crate) fn opening(alloc: Global, v0: u64) -> Result<KeptState, NoMemory>
        requires { v0 < END_LIMIT }
        ensures { IfOk result (λ s. kept_state s ≡ opening v0) }
    {
        let mut seats = Vec::new(alloc);
        seats.push(KeptSeat::producer(alloc))?;
        Ok(KeptState {
            base: v0,
            batches: Vec::new(alloc),
            end: v0,
            head: 0,
            tail: 0,
            published: 0,
            acked: 0,
            stages: Vec::new(alloc),
            owners: Vec::new(alloc),
            done: nothing_done(alloc)?,
            ring: vec![in alloc; 0; SLOTS as usize]?,
            turns: vec![in alloc; 0; SHARDS as usize]?,
            seats,
        })
    }

    /// Whether the seat was made and may step.
    pub(crate) fn acts(&self, seat: u64) -> bool
        ensures acts { IsTrue result ↔ Acts ((kept_state self.now).seats seat) }
        ensures made { IsTrue result → seat < length self.now.seats.items }
    {
        seat < self.seats.len() as u64 && self.seats[seat as usize].acts()
    }
}

/// For each shard an empty list of batches.
#[tactic(auto, using(crate::proofs::Stored::empty_pushed))]
fn nothing_done(alloc: Global) -> Result<Vec<Vec<u64>>, NoMemory>
    ensures wide { IfOk result (λ done. length done.items ≡ SHARDS) }
    ensures empty { IfOk result
        (λ done. (k : ℕ) → slice_index_or (map vec_items done.items) k [] ≡ []) }
{
    let mut done = Vec::new(alloc);
    for _shard in 0..SHARDS {
        done.push(Vec::new(alloc))?;
    }
    Ok(done)
}

/// Adds to a list that has room to spare.
pub(crate) fn push_spare<T: Drop>(list: &mut Vec<T>, item: T)
    requires { vec_len list.old < vec_capacity list.old }
    ensures { list.new.items ≡ list.old.items ++ item ∷ [] }
{
    match list.push(item) {
        Ok(()) => {}
        Err(_) => unreachable!(),
    }
}
