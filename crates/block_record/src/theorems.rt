//! Laws of framing and reading that no single call says.

ghost use Rattle.block_record.specs.Theorems.{NextRecordIsLaidAfter};
ghost use Rattle.block_record.specs.Theorems.{LaidRecordsAreRead, FirstRecordsAreRead};

/// The calls of `frame` on one `Framer` lay their records one after another: where some are laid from a segment's
/// front on, a framer stands at their length in its block, and the next record is framed there.
pub fn next_record_is_laid_after()
    ensures { NextRecordIsLaidAfter }
{}

/// Records that were laid are read back, whatever is after them, if no chunk of the log stands right there.
pub fn laid_records_are_read()
    ensures { LaidRecordsAreRead }
{}

/// Of a segment that begins as records were laid, a prefix of them is read, each that is laid within that
/// beginning among them, if each chunk of the log in it stands where it was laid.
pub fn first_records_are_read()
    ensures { FirstRecordsAreRead }
{}
