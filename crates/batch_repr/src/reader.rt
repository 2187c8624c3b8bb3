//! Reading batches one after another, into blocks of entries that they share.

ghost use Rattle.std.specs.Prelude.{◌≡◌, ◌≤◌, [], ◌∷◌, ◌++◌, length, IfOk, IfErr, OnOk, MatchResult};
ghost use Rattle.batch_repr.specs.declared.batch.Batch.{Batch};
ghost use Rattle.batch_repr.specs.declared.fault.BatchFault.{BatchFault};
ghost use Rattle.batch_repr.specs.declared.limits.TheConstants.{NUMBER_MAX};
ghost use Rattle.batch_repr.specs.Batches.{end_of};
ghost use Rattle.batch_repr.specs.Spelling.{SpellsBatch};
ghost use Rattle.batch_repr.specs.Written.{written};
ghost use Rattle.batch_repr.specs.Building.{FitsBatch};
ghost use Rattle.batch_repr.specs.Reading.{IsBytes, IsFirstFault};
ghost use Rattle.batch_repr.specs.Returned.{MemoryOr, OkOrMemory, ErrOrMemory};
ghost use Rattle.batch_repr.specs.Blocks.{AddsSpelled, AddsRead, batches_over, Divide};

use crate::batch::{Batch, Batches};
use crate::decoding::{BLOCK, BLOCK_TEXT, read_batch, room_of};
use crate::fault::BatchFault;
use crate::shared_entries::SharedEntries;
use std::alloc::Global;
use std::cmp;
use std::marker::Model;
use std::sync::Arc;
use wal_base::{Blob, Entry, NoMemory};

/// A batch whose entries stand in the block that is being filled, after those of the batches before it.
#[derive(Drop)]
struct Head {
    first: u64,
    /// The place after them.
    end: u32,
}

/// Reads batches, one text after another. Contracts see the list of those that were read.
///
/// Their entries stand in blocks, one batch's after another's, and each batch has a part of one: so no batch takes
/// memory of its own.
#[derive(Drop)]
pub struct BatchReader {
    alloc: Global,
    /// Those whose block is whole.
    batches: Batches,
    /// The entries of the others.
    block: Vec<Entry>,
    /// How many bytes their texts have.
    text_len: usize,
    heads: Vec<Head>,
}

impl Model for BatchReader {
    ghost use Rattle.std.specs.Prelude.{List, ◌++◌, length};
    ghost use Rattle.batch_repr.specs.declared.batch.Batch.{Batch};

    ghost Value = { List Batch };

    ghost use Rattle.batch_repr.specs.Blocks.{batches_over, Divide};

    ghost view = { λ a. a.batches ++ batches_over 0 a.heads.items a.block.items };

    ghost invariant = { λ a. Divide 0 a.heads.items (length a.block.items) };
}

impl BatchReader {
    /// Has read nothing, and has room for so many batches.
    pub fn with_capacity(alloc: Global, room: usize) -> Result<BatchReader, NoMemory>
        ensures { IfOk result (λ reader. reader ≡ []) }
    {
        let batches = Batches::with_capacity(alloc, room)?;
        let block = Vec::with_capacity(alloc, cmp::min(room, BLOCK))?;
        let heads = Vec::with_capacity(alloc, cmp::min(room, BLOCK))?;
        Ok(BatchReader {
            alloc,
            batches,
            block,
            text_len: 0,
            heads,
        })
    }

    /// Reads one batch more, as [`decode_shared`](crate::decode_shared) does: its keys, values and notes are parts of the
    /// text. An `Err` gives up what was read.
    pub fn add(self, text: &Blob) -> Result<BatchReader, BatchFault>
        ensures found { IfOk result (AddsSpelled text.now self) }
        ensures only { (batch : Batch) → SpellsBatch text.now batch → OkOrMemory result (self ++ batch ∷ []) }
        ensures written { (batch : Batch) → FitsBatch batch.entries → end_of batch ≤ NUMBER_MAX → text.now ≡ written batch
            → OkOrMemory result (self ++ batch ∷ []) }
        ensures fault { IfErr result (MemoryOr (IsFirstFault text.now)) }
        ensures first { (fault : BatchFault) → IsFirstFault text.now fault → ErrOrMemory result fault }
    {
        self.read(text)
    }

    /// The batches that were read.
    pub fn finish(self) -> Result<Batches, NoMemory>
        ensures { IfOk result (λ batches. batches ≡ self) }
    {
        let BatchReader {
            alloc,
            mut batches,
            block,
            heads,
            ..
        } = self;
        share_block(alloc, &mut batches, block, &heads)?;
        Ok(batches)
    }

    /// Reads one batch more.
    fn read(self, text: &Blob) -> Result<BatchReader, BatchFault>
        ensures met { MatchResult result (AddsRead text.now self) (MemoryOr (IsFirstFault text.now)) }
        ensures bytes { OnOk result (IsBytes text.now) }
    {
        let len = text.as_slice().len();
        let BatchReader {
            alloc,
            batches,
            mut block,
            text_len,
            mut heads,
        } = self.with_room(room_of(text.as_slice()), len)?;
        let first = read_batch(&mut block, text)?;
        let Ok(end) = u32::try_from(block.len()) else {
            return Err(BatchFault::NoMemory);
        };
        heads.push(Head { first, end })?;
        Ok(BatchReader {
            alloc,
            batches,
            block,
            text_len: text_len.saturating_add(len),
            heads,
        })
    }

    /// Begins the next block where so many entries more, of a text of this length, do not stand in this one.
    fn with_room(self, more: usize, len: usize) -> Result<BatchReader, NoMemory>
        ensures { IfOk result (λ reader. reader ≡ self) }
    {
        let is_short = self.text_len.saturating_add(len) <= BLOCK_TEXT;
        if is_short && self.block.len().saturating_add(more) <= BLOCK {
            return Ok(self);
        }
        let BatchReader {
            alloc,
            mut batches,
            block,
            mut heads,
            ..
        } = self;
        share_block(alloc, &mut batches, block, &heads)?;
        heads.clear();
        let block = Vec::with_capacity(alloc, next_room(more, len))?;
        Ok(BatchReader {
            alloc,
            batches,
            block,
            text_len: 0,
            heads,
        })
    }
}

/// For how many entries the next block has room, which begins with a text of this length and so many entries: as many as
/// texts like that one would fill it with, and it grows where later ones have more.
fn next_room(more: usize, len: usize) -> usize {
    let texts = BLOCK_TEXT / cmp::max(len, 1);
    cmp::max(more, cmp::min(more.saturating_mul(texts), BLOCK))
}

/// Adds the batches that these heads have in a block. They share it, and it keeps no more room than they need.
fn share_block(
    alloc: Global,
    batches: &mut Batches,
    mut block: Vec<Entry>,
    heads: &[Head],
) -> Result<(), NoMemory>
    requires { Divide 0 heads.now (length block.items) }
    ensures { OnOk result (batches.new ≡ batches.old ++ batches_over 0 heads.now block.items) }
{
    block.shrink_to_fit();
    let block = Arc::new(alloc, block)?;
    let mut from = 0;
    for head in heads {
        let batch = Batch {
            first: head.first,
            entries: SharedEntries::part(&block, from, head.end)?,
        };
        if batches.push(batch).is_err() {
            return Err(NoMemory);
        }
        from = head.end;
    }
    Ok(())
}
