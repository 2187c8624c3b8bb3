//! Laws of a table (docs/formats/table.md, "What a table holds" and "Reading a table").

ghost use Rattle.table_text.specs.Theorems.{TableStandsForStore, FirstRecordsAreNoOtherTable, NoPartIsAnotherTable};
ghost use Rattle.table_text.specs.Theorems.{NumbersAreEnough, LiveKeysAreWithin};
ghost use Rattle.table_text.specs.Theorems.{TableEndsAtNext, WrittenTableIsRead, BytesHaveOneTable};

/// The batches of a table answer what the batches answer whose live keys it has, with any batches after them.
pub fn table_stands_for_store()
    ensures { TableStandsForStore }
{}

/// The first records of a table are those of no table but the same: how many follow stands in the first one.
pub fn first_records_are_no_other_table()
    ensures { FirstRecordsAreNoOtherTable }
{}

/// So the first records of a table, and all of them, are those of no other table.
pub fn no_part_is_another_table()
    ensures { NoPartIsAnotherTable }
{}

/// Batches leave numbers enough for their live keys below their end: no more keys are live than numbers are used.
pub fn numbers_are_enough()
    ensures { NumbersAreEnough }
{}

/// Live keys are within their limits, with their values, where the entries of the batches are.
pub fn live_keys_are_within()
    ensures { LiveKeysAreWithin }
{}

/// The batches of a table are contiguous, and the last one ends at its `next`.
pub fn table_ends_at_next()
    ensures { TableEndsAtNext }
{}

/// What is written for a table is read back as that table.
pub fn written_table_is_read()
    ensures { WrittenTableIsRead }
{}

/// Bytes read as one table at most.
pub fn bytes_have_one_table()
    ensures { BytesHaveOneTable }
{}
