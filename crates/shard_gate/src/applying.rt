//! A piece of a batch is applied in its shard.

ghost use Rattle.std.specs.Prelude.{◌≡◌, ◌<◌, None, OnOk, IfErr, OnErr};
ghost use Rattle.memtable_shards.specs.declared.sharding.TheConstants.{SHARDS};
ghost use Rattle.commit_queue.specs.Calls.{HoldsUnapplied};
ghost use Rattle.commit_queue.specs.Views.{busy_view};
ghost use Rattle.shard_gate.specs.Gates.{gate_table, HoldsPiece, AppliesPiece};
ghost use Rattle.shard_gate.specs.Gates.{AppliesOne, AppliesAll};

use crate::gate::ShardGate;
use commit_queue::Holder;
use memtable_shards::{PieceNode, Pieces};
use std::sync::Wait;

/// The shard is with another seat. The piece comes back.
#[derive(Drop)]
pub struct PieceBusy {
    pub piece: PieceNode,
}

impl<'t> ShardGate<'t> {
    /// Applies a piece of the batch that the seat holds in its shard. `Err` exactly where the
    /// shard's word was 1 at this call's step, and hands the piece back. It takes no memory.
    pub fn try_apply<H: Holder>(
        &self,
        h: &mut H,
        shard: usize,
        piece: PieceNode,
    ) -> Result<(), PieceBusy>
        requires table { H.table_id h.old ≡ gate_table self.now }
        requires no_turn { (H.view h.old).seat.turn ≡ None }
        requires small { shard < SHARDS }
        requires piece { HoldsPiece (H.view h.old) shard piece }
        ensures same { H.table_id h.new ≡ H.table_id h.old }
        ensures applied { OnOk result (AppliesPiece (H.view h.old) shard (H.view h.new)) }
        ensures busy { OnErr result (H.view h.new ≡ busy_view (H.view h.old)) }
        ensures back { IfErr result (λ busy. busy.piece ≡ piece) }
    {
        let Some(mut taken) = self.table.take_shard(h, shard) else {
            return Err(PieceBusy { piece });
        };
        taken.apply(piece);
        self.table.give_shard(h, taken, true);
        Ok(())
    }

    /// Applies all pieces of the batch that the seat holds, each as soon as its shard is free. It
    /// takes no memory.
    pub fn apply_all<R: Wait, H: Holder>(&self, rt: &R, h: &mut H, mut pieces: Pieces)
        requires table { H.table_id h.old ≡ gate_table self.now }
        requires no_turn { (H.view h.old).seat.turn ≡ None }
        requires holds { HoldsUnapplied (H.view h.old) pieces }
        ensures same { H.table_id h.new ≡ H.table_id h.old }
        ensures applied { AppliesAll (H.view h.old) (H.view h.new) }
    {
        while let Some((shard, piece)) = pieces.take() {
            self.apply_in(rt, h, shard, piece);
        }
    }

    /// Applies a piece as soon as its shard is free.
    fn apply_in<R: Wait, H: Holder>(&self, rt: &R, h: &mut H, shard: usize, piece: PieceNode)
        requires table { H.table_id h.old ≡ gate_table self.now }
        requires no_turn { (H.view h.old).seat.turn ≡ None }
        requires small { shard < SHARDS }
        requires piece { HoldsPiece (H.view h.old) shard piece }
        ensures same { H.table_id h.new ≡ H.table_id h.old }
        ensures applied { AppliesOne (H.view h.old) shard (H.view h.new) }
    {
        let mut piece = piece;
        let mut waiter = self.table.await_shard(shard);
        for _ in rt.forever() {
            match self.try_apply(h, shard, piece) {
                Ok(()) => return,
                Err(busy) => piece = busy.piece,
            }
            waiter.wait(rt);
        }
        unreachable!()
    }
}
