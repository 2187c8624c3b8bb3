//! Laws of the text that no single call says.

ghost use Rattle.std.specs.Prelude.{◌≡◌, ◌<◌, ◌≤◌, ◌^◌, ◌↔◌, ◌∷◌, ◌++◌, [], ℕ, List, None, length};
ghost use Rattle.wal_base.specs.declared.entry.Entry.{Entry};
ghost use Rattle.batch_repr.specs.declared.batch.Batch.{Batch};
ghost use Rattle.batch_repr.specs.declared.fault.BatchFault.{BatchFault};
ghost use Rattle.batch_repr.specs.Spelling.{SpellsNumber, SpellsBatch};
ghost use Rattle.batch_repr.specs.Written.{varint};
ghost use Rattle.batch_repr.specs.Building.{FitsBatch, HasSpelling, refusal};
ghost use Rattle.batch_repr.specs.Reading.{IsFirstFault};

/// A number is written in its shortest spelling.
pub fn shortest_is_written()
    ensures spells { (n : ℕ) → n < 2 ^ 32 → SpellsNumber (varint n) n }
    ensures shortest { (bytes : List ℕ) (n : ℕ) → SpellsNumber bytes n → length (varint n) ≤ length bytes }
{}

/// Entries that fit one batch fit it with one more exactly where a builder does not refuse that one.
pub fn fits_exactly_where_not_refused()
    ensures { (entries : List Entry) (entry : Entry) → FitsBatch entries → (refusal entries entry ≡ None) ↔ FitsBatch (entries ++ entry ∷ []) }
{}

/// A batch has a spelling exactly where some bytes spell it.
pub fn batches_with_a_spelling_are_spelled()
    ensures { (batch : Batch) → HasSpelling batch ↔ ((bytes : List ℕ) × SpellsBatch bytes batch) }
{}

/// Bytes have one reading: they spell at most one batch, have at most one first fault, and not both.
pub fn bytes_have_one_reading()
    ensures batch { (bytes : List ℕ) (one other : Batch) → SpellsBatch bytes one → SpellsBatch bytes other → one ≡ other }
    ensures fault { (bytes : List ℕ) (one other : BatchFault) → IsFirstFault bytes one → IsFirstFault bytes other → one ≡ other }
    ensures not_both { (bytes : List ℕ) (batch : Batch) (fault : BatchFault) → SpellsBatch bytes batch → IsFirstFault bytes fault → ⊥ }
{}
