//! Laws of what a stop leaves of a journal (docs/formats/journal.md, "What a stop leaves of a journal").

ghost use Rattle.failover_writer.specs.Ranges.{Stands};
ghost use Rattle.failover_writer.specs.Sound.{IsSoundJournal};
ghost use Rattle.failover_writer.specs.Theorems.{EachJournalKeepsItsRun, EachJournalKeepsItsBase};
ghost use Rattle.failover_writer.specs.Theorems.{StableFilesOpenAJournal, JournalsWithoutFailuresReadAsImages};

use crate::journal::Journal;
use disk_face::Disk;

/// A journal keeps its run: in each image its segments merge to a prefix of its records, with all that are acked, and every
/// other file is as it was when the journal was begun.
pub fn a_journal_keeps_its_run()
    ensures { EachJournalKeepsItsRun }
{}

/// A journal that keeps a base recovers to it, and after it to a prefix of its records, with all that are acked.
pub fn a_journal_keeps_its_base()
    ensures { EachJournalKeepsItsBase }
{}

/// Files at rest whose segments are stable in full, all below a WAL, open a journal of that WAL: each image of them recovers
/// to what they read as.
pub fn stable_files_open_a_journal()
    ensures { StableFilesOpenAJournal }
{}

/// A journal of which no segment has failed, begun on files at rest, reads as an image of its disk that no torn chunk deceives.
pub fn a_journal_without_failures_reads_as_an_image()
    ensures { JournalsWithoutFailuresReadAsImages }
{}

/// A journal at hand, as one from behind a lock, of which nothing but its type is known: it stands for some records, and is
/// sound.
pub fn a_journal_at_hand<D: Disk>(journal: &Journal<D>)
    ensures stands { Stands D.tells journal.now.state (D.view journal.now.disk) }
    ensures sound { IsSoundJournal journal.now.state }
{
    let _len = journal.len();
}
