//! The rule of what lies on a desk, and what each step tells of it.
ghost use Rattle.std.specs.Prelude.{◌≡◌, [], ⊤, Some, None};
ghost use Rattle.lent_work.specs.declared.rule.Parcel.TheVariants.{Asked};
ghost use Rattle.lent_work.specs.declared.rule.Side.TheVariants.{Whole, Lends, Works};
ghost use Rattle.lent_work.specs.Desks.{LiesOn, Takes, TakesBack};

use crossbeam_queue::protocol::{Lesson, Outcome, Protocol, Split};
use std::marker::PhantomData;

/// Work of some kind.
pub trait Doing<T> {
    /// Whether work is done so.
    ghost is_done: { T → T → Type 0 };
}

/// What lies on a desk.
#[derive(Drop)]
pub enum Parcel<T> {
    /// Work that nobody has begun.
    Asked(T),
    /// Work that is done.
    Done(T),
}

/// What an end of a desk knows. No value of it is made.
pub enum Side<T> {
    /// There is one end so far.
    Whole,
    /// What is lent.
    Lends(Option<T>),
    /// What is being done.
    Works(Option<T>),
}

/// The rule of a desk for work of a kind.
pub struct OneAtATime<P> {
    kind: PhantomData<P>,
}

impl<T, P: Doing<T>> Protocol<Parcel<T>, Side<T>> for OneAtATime<P> {
    ghost holds = { LiesOn P.is_done };

    ghost first = { Whole };
}

/// One end to lend, and one to work.
pub(crate) struct Ends;

impl<T> Split<Side<T>> for Ends {
    ghost left = { λ v. Lends None };

    ghost right = { λ v. Works None };
}

/// Work is put on the desk, which was empty.
pub(crate) struct Lend;

impl<T> Outcome<Parcel<T>, Side<T>> for Lend {
    ghost then = { λ v parcel w. (t : T) → parcel ≡ Asked t → w ≡ Lends (Some t) };
}

impl<T> Lesson<Parcel<T>, Side<T>> for Lend {
    ghost fact = { λ v parcels. parcels ≡ [] };
}

/// Work is taken from the desk, to be done.
pub(crate) struct Take<P> {
    kind: PhantomData<P>,
}

impl<T, P: Doing<T>> Outcome<Parcel<T>, Side<T>> for Take<P> {
    ghost then = { λ v parcel w. Takes P.is_done parcel w };
}

impl<T, P: Doing<T>> Lesson<Parcel<T>, Side<T>> for Take<P> {
    ghost fact = { λ v parcels. ⊤ };
}

/// Work that was done is put on the desk, which was empty.
pub(crate) struct GiveBack;

impl<T> Outcome<Parcel<T>, Side<T>> for GiveBack {
    ghost then = { λ v parcel w. w ≡ Works None };
}

impl<T> Lesson<Parcel<T>, Side<T>> for GiveBack {
    ghost fact = { λ v parcels. parcels ≡ [] };
}

/// Work is taken back.
pub(crate) struct TakeBack<P> {
    kind: PhantomData<P>,
}

impl<T, P: Doing<T>> Outcome<Parcel<T>, Side<T>> for TakeBack<P> {
    ghost then = { λ v parcel w. TakesBack P.is_done v parcel w };
}

impl<T, P: Doing<T>> Lesson<Parcel<T>, Side<T>> for TakeBack<P> {
    ghost fact = { λ v parcels. ⊤ };
}
