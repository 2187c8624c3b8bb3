//! A disk that keeps nothing, for a log without files.

ghost use Rattle.std.specs.Prelude.{◌≡◌, false, [], IsErr, IsErrOf};
ghost use Rattle.disk_face.specs.declared.Side.{Side};
ghost use Rattle.disk_face.specs.View.{segment, table, was_listed, was_polled, tables_were_listed, NothingInFlight};
ghost use Rattle.disk_face.specs.Calls.{GoesOn, StallsStay, Notes};
ghost use Rattle.disk_face.specs.Answers.{AsksFor};
ghost use Rattle.disk_face.specs.Tables.{AsksForTable, NotesPut, NotesRemoval};
ghost use Rattle.disk_face.specs.Seen.{bare};

use crate::{
    BySide, CallLog, Disk, DiskErr, DiskOp, FilePlace, Names, OpId, Progress, SegName, Side,
    StallDisk, TableDisk, TableNames,
};
use std::alloc::Global;
use wal_base::NoMemory;

/// A disk without files. It is always out of memory for a start, so nothing that it stalls is ever polled.
#[derive(Debug, Drop)]
pub struct NoDisk {
    alloc: Global,
    polls: BySide,
    log: CallLog,
}

impl NoDisk {
    /// Tells nothing. It has counted no fault, has nothing in flight, and leaves no polls to stall.
    pub fn new(alloc: Global) -> NoDisk
        ensures silent { ⟦<NoDisk as Disk>⟧.tells ≡ false }
        ensures no_faults { (s : Side) → (bare result).faults s ≡ 0 }
        ensures no_polls { (s : Side) → (bare result).polls_left s ≡ 0 }
        ensures idle { NothingInFlight (bare result) }
    {
        NoDisk {
            alloc,
            polls: BySide {
                primary: 0,
                secondary: 0,
            },
            log: CallLog::new(),
        }
    }
}

impl Disk for NoDisk {
    ghost use Rattle.disk_face.specs.NoFiles.{no_files, no_sound};

    ghost tells = { false };

    ghost view = { bare };

    fn list(&mut self, side: Side) -> Result<Names, DiskErr>
        ensures nothing { result ≡ Ok [] }
        ensures goes_on { GoesOn (bare self.old) (bare self.new) }
        ensures stalls { StallsStay (bare self.old) (bare self.new) }
        ensures noted { Notes (was_listed side []) (bare self.old) (bare self.new) }
    {
        let answer = Ok(Names::new(self.alloc));
        self.log.note_listing(side, &answer);
        answer
    }

    fn read(
        &mut self,
        side: Side,
        name: SegName,
        _at: u64,
        buf: &mut [u8],
    ) -> Result<usize, DiskErr>
        ensures nothing { result ≡ Ok 0 }
        ensures buffer { buf.new ≡ buf.old }
        ensures goes_on { GoesOn (bare self.old) (bare self.new) }
        ensures stalls { StallsStay (bare self.old) (bare self.new) }
        ensures noted { AsksFor side name buf.old (bare self.old) (bare self.new) }
    {
        self.log.note_read(side, name, buf.len());
        // There is no file to read.
        Ok(0)
    }

    fn start(&mut self, _op: DiskOp<'_>) -> Result<OpId, NoMemory>
        ensures no_memory { IsErr result }
        ensures unchanged { self.new ≡ self.old }
    {
        Err(NoMemory)
    }

    /// Asks of an operation that was never started. It may be asked of any.
    fn poll(&mut self, id: OpId) -> Progress
        ensures not_done { result ≡ Progress.Failed }
        ensures stalls { StallsStay (bare self.old) (bare self.new) }
        ensures noted { Notes (was_polled id result) (bare self.old) (bare self.new) }
    {
        self.log.note_poll(id, Progress::Failed);
        Progress::Failed
    }

    ghost finite = { λ d k told le. no_files };

    ghost sound = { λ d p f told is. no_sound p f is };
}

impl StallDisk for NoDisk {
    fn stall(&mut self, side: Side, polls: u32) {
        self.polls.add(side, polls);
    }
}

impl TableDisk for NoDisk {
    fn tables(&mut self) -> Result<TableNames, DiskErr>
        ensures nothing { result ≡ Ok [] }
        ensures goes_on { GoesOn (bare self.old) (bare self.new) }
        ensures stalls { StallsStay (bare self.old) (bare self.new) }
        ensures noted { Notes (tables_were_listed []) (bare self.old) (bare self.new) }
    {
        let answer = Ok(TableNames::new(self.alloc));
        self.log.note_tables(&answer);
        answer
    }

    fn read_table(&mut self, upto: u64, _at: u64, buf: &mut [u8]) -> Result<usize, DiskErr>
        ensures nothing { result ≡ Ok 0 }
        ensures buffer { buf.new ≡ buf.old }
        ensures goes_on { GoesOn (bare self.old) (bare self.new) }
        ensures stalls { StallsStay (bare self.old) (bare self.new) }
        ensures noted { AsksForTable upto buf.old (bare self.old) (bare self.new) }
    {
        self.log.note_table_read(upto, buf.len());
        // There is no table to read.
        Ok(0)
    }

    fn put_table(&mut self, upto: u64, bytes: &[u8]) -> Result<(), DiskErr>
        ensures no_memory { IsErrOf result DiskErr.NoMemory }
        ensures goes_on { GoesOn (bare self.old) (bare self.new) }
        ensures stalls { StallsStay (bare self.old) (bare self.new) }
        ensures noted { NotesPut upto bytes.now result (bare self.old) (bare self.new) }
    {
        // There is room for no table.
        let answer = Err(DiskErr::NoMemory);
        self.log.note_put(upto, bytes, &answer);
        answer
    }

    fn drop_segment(&mut self, side: Side, name: SegName) -> Result<(), DiskErr>
        ensures no_memory { IsErrOf result DiskErr.NoMemory }
        ensures goes_on { GoesOn (bare self.old) (bare self.new) }
        ensures stalls { StallsStay (bare self.old) (bare self.new) }
        ensures noted { NotesRemoval (segment side name) result (bare self.old) (bare self.new) }
    {
        // There is no segment to remove.
        let answer = Err(DiskErr::NoMemory);
        self.log
            .note_removal(FilePlace::Segment { side, name }, &answer);
        answer
    }

    fn drop_table(&mut self, upto: u64) -> Result<(), DiskErr>
        ensures no_memory { IsErrOf result DiskErr.NoMemory }
        ensures goes_on { GoesOn (bare self.old) (bare self.new) }
        ensures stalls { StallsStay (bare self.old) (bare self.new) }
        ensures noted { NotesRemoval (table upto) result (bare self.old) (bare self.new) }
    {
        // There is no table to remove.
        let answer = Err(DiskErr::NoMemory);
        self.log.note_removal(FilePlace::Table { upto }, &answer);
        answer
    }
}
