//! Laws of merging that no single call says.

ghost use Rattle.segment_merge.specs.Theorems.{MergesToOneList, MergesLenientlyToOneList};
ghost use Rattle.segment_merge.specs.Theorems.{IsRefusedForOneFault, IsLenientlyRefusedForOneFault};
ghost use Rattle.segment_merge.specs.Theorems.{IsNotMergedAndRefused, IsNotLenientlyMergedAndRefused};

/// A row of segments has at most one merged list and at most one refusal, and not both.
pub fn rows_have_one_answer()
    ensures list { MergesToOneList }
    ensures fault { IsRefusedForOneFault }
    ensures not_both { IsNotMergedAndRefused }
{}

/// The same where gaps are accepted.
pub fn rows_with_gaps_have_one_answer()
    ensures list { MergesLenientlyToOneList }
    ensures fault { IsLenientlyRefusedForOneFault }
    ensures not_both { IsNotLenientlyMergedAndRefused }
{}
