//! The kinds of atomic step, and what each tells the seat that makes it. These types are for the
//! proofs alone.
ghost use Rattle.std.specs.Prelude.{[]};
ghost use Rattle.batch_repr.specs.declared.batch.Batch.{Batch};
ghost use Rattle.publish_core.specs.declared.seat.Kind.TheVariants.{Note, Worker};
ghost use Rattle.commit_queue.specs.Views.{without_batch, handed_view, shown_view};
ghost use Rattle.commit_queue.specs.Views.{telling_view, flush_view, joined_view, spent_view};
ghost use Rattle.commit_queue.specs.Tells.{TellsSlot, TellsPlaced, TellsAdmitted, TellsMarked};
ghost use Rattle.commit_queue.specs.Tells.{TellsEnds, TellsClaim, TellsEmptied, TellsRaised};
ghost use Rattle.commit_queue.specs.Tells.{TellsVisible, TellsSettled};
ghost use Rattle.commit_queue.specs.Tells.{TellsAckedRaised, TellsAcked};
ghost use Rattle.commit_queue.specs.Tells.{TellsTaken, TellsGiven, TellsApplied};

use crate::view::View;
use atomic_table::{Join, Play, Split};
use memtable_shards::Shard;
use std::marker::{Brand, PhantomData};

/// A ring slot is read.
pub(crate) struct LoadSlot;

impl Play<Option<Shard>, View> for LoadSlot {
    ghost then = { TellsSlot };
}

/// The batch that a call is about. A call passes `Brand`, and its proof says which it is.
pub(crate) trait Naming {
    ghost batch: { Batch };
}

impl Naming for Brand {
    ghost batch = { record { first = 0; entries = [] } };
}

/// A batch is placed in the ring.
pub(crate) struct StoreBatch<M> {
    marker: PhantomData<M>,
}

impl<M: Naming> Play<Option<Shard>, View> for StoreBatch<M> {
    ghost then = { TellsPlaced M.batch };
}

/// Head is raised.
pub(crate) struct Admit;

impl Play<Option<Shard>, View> for Admit {
    ghost then = { TellsAdmitted };
}

/// A batch is marked.
pub(crate) struct Mark;

impl Play<Option<Shard>, View> for Mark {
    ghost then = { TellsMarked };
}

/// Head and tail are read.
pub(crate) struct LoadEnds;

impl Play<Option<Shard>, View> for LoadEnds {
    ghost then = { TellsEnds };
}

/// A batch is taken from the front.
pub(crate) struct Claim;

impl Play<Option<Shard>, View> for Claim {
    ghost then = { TellsClaim };
}

/// The slot of a batch taken from the front is emptied.
pub(crate) struct EmptySlot;

impl Play<Option<Shard>, View> for EmptySlot {
    ghost then = { TellsEmptied };
}

/// The visible number is raised.
pub(crate) struct RaiseVisible;

impl Play<Option<Shard>, View> for RaiseVisible {
    ghost then = { TellsRaised };
}

/// The visible number is read.
pub(crate) struct LoadVisible;

impl Play<Option<Shard>, View> for LoadVisible {
    ghost then = { TellsVisible };
}

/// The acked word is raised.
pub(crate) struct RaiseAcked;

impl Play<Option<Shard>, View> for RaiseAcked {
    ghost then = { TellsAckedRaised };
}

/// The acked word is read.
pub(crate) struct LoadAcked;

impl Play<Option<Shard>, View> for LoadAcked {
    ghost then = { TellsAcked };
}

/// Head and tail are read once another seat was taken in.
pub(crate) struct Settle;

impl Play<Option<Shard>, View> for Settle {
    ghost then = { TellsSettled };
}

/// A shard is taken, or found taken.
pub(crate) struct TakeShard;

impl Play<Option<Shard>, View> for TakeShard {
    ghost then = { TellsTaken };
}

/// A shard is given back as it was.
pub(crate) struct GiveShard;

impl Play<Option<Shard>, View> for GiveShard {
    ghost then = { TellsGiven };
}

/// A shard is given back with a batch applied.
pub(crate) struct GiveApplied;

impl Play<Option<Shard>, View> for GiveApplied {
    ghost then = { TellsApplied };
}

/// The producer's batch goes to a note.
pub(crate) struct HandOver;

impl Split<View> for HandOver {
    ghost left = { without_batch };

    ghost right = { handed_view };
}

/// A note shows what the seat has seen.
pub(crate) struct Tell;

impl Split<View> for Tell {
    ghost left = { telling_view };

    ghost right = { shown_view Note };
}

/// A session's seat is made.
pub(crate) struct SeatSession;

impl Split<View> for SeatSession {
    ghost left = { telling_view };

    ghost right = { shown_view Worker };
}

/// The one flush seat is made.
pub(crate) struct SeatFlush;

impl Split<View> for SeatFlush {
    ghost left = { telling_view };

    ghost right = { flush_view };
}

/// A note is taken in.
pub(crate) struct TakeIn;

impl Join<View> for TakeIn {
    ghost both = { joined_view };

    ghost spent = { spent_view };
}
