//! The two passes, of which each knows what it moved.
ghost use Rattle.std.specs.Prelude.{◌≡◌, true, None};

use crate::rule::FlowView;
use crossbeam_queue::SegPass;
use record_queue::RecordNode;

/// A pass of the queue of nodes. Between two calls it carries neither a node nor a block.
pub(crate) type NodePass = SegPass<RecordNode, FlowView>;

/// The pass that pushes, and no other does. It lies behind the commit lock, which sends with it.
#[derive(Drop)]
pub struct SendPass {
    pub(crate) pass: NodePass,
    ghost pushes: { pass.me.view.client.pushes ≡ true },
    ghost hand: { pass.me.hand ≡ None },
    ghost spare: { pass.me.spare ≡ None },
}

/// The pass that pops, and no other does. It lies behind the flush lock, which takes with it.
#[derive(Drop)]
pub struct FlushPass {
    pub(crate) pass: NodePass,
    ghost pops: { pass.me.view.client.pops ≡ true },
    ghost hand: { pass.me.hand ≡ None },
    ghost spare: { pass.me.spare ≡ None },
}
