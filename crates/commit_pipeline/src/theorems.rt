//! The law of what a journal holds since an opening (docs/formats/ring.md, "What a pipeline holds").

ghost use Rattle.commit_pipeline.specs.Theorems.{EachOpenedBaseIsKept};

/// Whatever a journal kept as a base at the opening it recovers to, and after it to a prefix of the
/// batches that it holds, with all that are acked.
pub fn an_opened_base_is_kept()
    ensures { EachOpenedBaseIsKept }
{}
