//! Laws of a writer that fits a disk, for the layers that keep several writers.

ghost use Rattle.log_writer.specs.Theorems.{FitsAsRecordsCome, FitsBesideOtherOperations};
ghost use Rattle.log_writer.specs.Theorems.{FittingHasItsFile, SyncedFileIsKept, FittingKeepsItsSegment};

/// A writer that fits a disk fits it for more records too, where they come after the others.
pub fn fits_as_records_come()
    ensures { FitsAsRecordsCome }
{}

/// Operations on other files leave a writer fitting.
pub fn fits_beside_other_operations()
    ensures { FitsBesideOtherOperations }
{}

/// What a writer that fits has of its file, with any number of the records that it has synced.
pub fn a_fitting_writer_has_its_file()
    ensures { FittingHasItsFile }
{}

/// A segment is kept in each image of files that have what is synced of it, whatever stands at other places.
pub fn a_synced_file_is_kept()
    ensures { SyncedFileIsKept }
{}

/// So a writer that fits keeps its segment, with all that it has synced.
pub fn a_fitting_writer_keeps_its_segment()
    ensures { FittingKeepsItsSegment }
{}
