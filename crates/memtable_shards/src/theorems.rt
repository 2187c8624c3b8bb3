//! Laws of eight shards, for the layer that keeps them.

ghost use Rattle.memtable_shards.specs.Theorems.{ShardsAnswerAfterSome, ShardsAnswerAfterAll};
ghost use Rattle.memtable_shards.specs.Theorems.{ShardAnswersBelow, EmptyShardsAreOfNoBatch, ShardsAreSettled};
ghost use Rattle.memtable_shards.specs.Theorems.{PiecesBegin, NextPieceIsNew, NextPieceIsApplied, PiecesEnd};

/// The shard of a key, read below the end of the first n batches, answers what the store answers after
/// them.
pub fn shards_answer_as_the_store()
    ensures some { ShardsAnswerAfterSome }
    ensures all { ShardsAnswerAfterAll }
    ensures below { ShardAnswersBelow }
{}

/// Eight new shards are those of no batch.
pub fn new_shards_are_of_no_batch()
    ensures { EmptyShardsAreOfNoBatch }
{}

/// A batch's pieces are applied one after another: each may be, and in the end the shards have the
/// batch.
pub fn pieces_add_a_batch()
    ensures begin { PiecesBegin }
    ensures apart { NextPieceIsNew }
    ensures step { NextPieceIsApplied }
    ensures end { PiecesEnd }
{}

/// Settling a shard changes nothing of what the shards have.
pub fn settled_shards_are_the_same()
    ensures { ShardsAreSettled }
{}
