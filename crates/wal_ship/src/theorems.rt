//! Laws of streams that no single call says.

ghost use Rattle.wal_ship.specs.Theorems.{BytesComeToOne, FramesAreUnion, RowsAreTaken, StreamsAreTaken};

/// Followers beside the same batches that have taken the same bytes have come to the same, however the bytes were cut.
pub fn followers_come_to_one()
    ensures { BytesComeToOne }
{}

/// A follower has taken the batches of every row of right frames that its bytes begin with.
pub fn rows_are_taken()
    ensures { RowsAreTaken }
{}

/// The stream of a store comes to the whole store, and ends, beside any of its first batches.
pub fn streams_are_taken()
    ensures { StreamsAreTaken }
{}

/// What is known behind right frames is, as a set, what was known and those of their batches that take a number.
pub fn frames_are_a_union()
    ensures { FramesAreUnion }
{}
