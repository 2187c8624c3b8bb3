//! The two ends of a desk, of which each knows what it has given or taken.

use crate::rule::{Parcel, Side};
use crossbeam_queue::Pass;

/// The end that lends, and no other does.
#[derive(Drop)]
pub struct Lender<T> {
    pub(crate) pass: Pass<Parcel<T>, Side<T>>,
}

/// The end that works, and no other does.
#[derive(Drop)]
pub struct Worker<T> {
    pub(crate) pass: Pass<Parcel<T>, Side<T>>,
}

/// Work that comes back.
#[derive(Drop)]
pub enum Back<T> {
    /// Nobody has begun it.
    AsItWas(T),
    /// It is done.
    Done(T),
}
