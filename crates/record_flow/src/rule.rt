//! The rule of the queue, and what each step of it tells.
ghost use Rattle.std.specs.Prelude.{◌≡◌, ℕ, Some};
ghost use Rattle.record_queue.specs.declared.node.Filled.{Filled};
ghost use Rattle.record_flow.specs.Views.{opening_view, send_opened, flush_opened, ended_view, used_up_view, taken_on};
ghost use Rattle.record_flow.specs.Flows.{Flows, ComesNext, OnTheWay, SendsRecord};

use crossbeam_queue::protocol::{Join, Lesson, Outcome, Protocol, Split};
use record_queue::{Filled, RecordNode};
use std::marker::{Brand, PhantomData};

/// What a pass knows. No value of it is made: a contract reads an array as a list, of any length.
pub struct FlowView {
    /// The pass pushes.
    pub pushes: bool,
    /// The pass pops.
    pub pops: bool,
    /// The number of the first record of all.
    pub first: u64,
    /// What was pushed, if the pass pushes.
    pub sent: [Filled; 0],
    /// What was popped, if the pass pops.
    pub taken: [Filled; 0],
}

/// The rule of the queue.
pub struct InOrder;

impl Protocol<RecordNode, FlowView> for InOrder {
    ghost holds = { Flows };

    ghost first = { opening_view };
}

/// The number of the first record. The call that opens a queue picks it.
pub(crate) trait Opening {
    ghost first: { ℕ };
}

impl Opening for Brand {
    ghost first = { 0 };
}

/// One pass to push and one to pop.
pub(crate) struct Roles<K> {
    marker: PhantomData<K>,
}

impl<K: Opening> Split<FlowView> for Roles<K> {
    ghost left = { λ v. send_opened K.first };

    ghost right = { λ v. flush_opened K.first };
}

/// The pass that pops takes in the one that pushed.
pub(crate) struct Ending;

impl Join<FlowView> for Ending {
    ghost both = { λ v w. ended_view w v };

    ghost spent = { used_up_view };
}

/// A push: the record of the node is the last that was sent.
pub(crate) struct Push;

impl Outcome<RecordNode, FlowView> for Push {
    ghost then = { λ v x w. SendsRecord x v w };
}

/// A pop: the record of the node is the last that was taken, and came next.
pub(crate) struct Pop;

impl Outcome<RecordNode, FlowView> for Pop {
    ghost then = { λ v x w. (f : Filled) × (x ≡ Some f) × (w ≡ taken_on v f) × ComesNext v.first v.taken f };
}

impl Lesson<RecordNode, FlowView> for Pop {
    ghost fact = { OnTheWay };
}
