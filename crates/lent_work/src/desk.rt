//! A desk between two threads, on which work lies while nobody does it.
ghost use Rattle.std.specs.Prelude.{◌≡◌};
ghost use Rattle.crossbeam_queue.specs.Passes.{ruled_capacity};

use crate::rule::{Doing, OneAtATime, Parcel, Side};
use crossbeam_queue::RuledArrayQueue;
use crossbeam_utils::sync::EventCount;
use std::sync::atomic::AtomicBool;

/// A desk for work of a kind. Two threads share it, each with an end of its own.
#[derive(Drop)]
pub struct Desk<T, P: Doing<T>> {
    pub(crate) parcels: RuledArrayQueue<Parcel<T>, Side<T>, OneAtATime<P>>,
    /// Whether there may be work that nobody has begun. No proof rests on it.
    pub(crate) asked: AtomicBool,
    /// Whether there may be work that is done. No proof rests on it.
    pub(crate) done: AtomicBool,
    /// Whether no more work comes.
    pub(crate) closed: AtomicBool,
    /// Tells that one of the three was set.
    pub(crate) changed: EventCount,
    ghost sized: { ruled_capacity parcels ≡ 1 },
}
