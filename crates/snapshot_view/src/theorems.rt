//! Laws of views.

ghost use Rattle.snapshot_view.specs.Theorems.{EndsAnswerAlike, ScansAreExact};

/// A scan from a key on gives just the keys from that one on that have a value below its number, in order.
pub fn scans_are_exact()
    ensures { ScansAreExact }
{}

/// At the end of the first n batches a store answers as it does after these batches.
pub fn ends_answer_alike()
    ensures { EndsAnswerAlike }
{}
