//! The disk over files.

ghost use Rattle.std.specs.Prelude.{◌≡◌, ◌≤◌, ◌∷◌, false, length, drop, IfOk, IsOk};
ghost use Rattle.disk_face.specs.declared.Side.{Side};
ghost use Rattle.disk_face.specs.View.{NothingInFlight, was_polled};
ghost use Rattle.disk_face.specs.Calls.{GoesOn, SameDisk, Ends};
ghost use Rattle.disk_face.specs.Answers.{CountsFailure, CountsNoOther};
ghost use Rattle.wal_base.specs.Faults.{Rose, counted};
ghost use Rattle.disk_face.specs.Listing.{IsAscending, AreSegmentNames, AreTablesAscending, AreTableNumbers};
ghost use Rattle.file_disk.specs.Seen.{on_files};
ghost use Rattle.disk_face.specs.Tables.{NotesRemoval};
ghost use Rattle.file_disk.specs.Locked.{KeepsLocks};
ghost use Rattle.file_disk.specs.Refusals.{OtherFaultsStay, CountsNoneButRefusal, CountsRefusal, FailsIfRefused};
ghost use Rattle.file_disk.specs.Refusals.{CountsOnce, CountsOnceOf, CountsFailureOf, CountsNoOtherOf};

use crate::directory::{Directory, Started};
use crate::locks::{LockFiles, Locks};
use crate::paths::{place_of, side_of};
use crate::system;
use disk_face::{
    CallLog, Disk, DiskErr, DiskOp, FilePlace, Names, OpId, Progress, SegName, Side, TableDisk,
    TableNames,
};
use std::io;
use std::io::ErrorKind;
use wal_base::NoMemory;

/// The directories `./wal` and `./wal_secondary` of the folder in which the program runs. It tells nothing and
/// never stalls. An operation is run at its first poll, and a failure that is answered was counted once. Each side
/// holds one file open, so that a write to the segment that was created or written last is one call of the system.
///
/// A table is written and synced under another name before it takes its own. The directory is synced before a put or a
/// removal is answered, where the file system knows such a sync.
///
/// What it has listed is its own while it lives: a listing locks the folder, and the directory of its side, and fails
/// where another disk has one of them.
#[derive(Drop)]
pub struct FileDisk<R: LockFiles + AllocGlobal + Clone + Drop> {
    runtime: R,
    primary: Directory<R::File>,
    secondary: Directory<R::File>,
    locks: Locks<R::File>,
    log: CallLog,
}

impl<R: LockFiles + AllocGlobal + Clone + Drop> FileDisk<R> {
    /// Works on the files of this runtime. No file and no directory is touched yet. `Err` means out of memory.
    pub fn new(runtime: &R) -> Result<Self, NoMemory>
        ensures silent { ⟦<FileDisk<R> as Disk>⟧.tells ≡ false }
        ensures no_faults { IfOk result (λ disk. (s : Side) → (on_files disk).faults s ≡ 0) }
        ensures no_polls { IfOk result (λ disk. (s : Side) → (on_files disk).polls_left s ≡ 0) }
        ensures idle { IfOk result (λ disk. NothingInFlight (on_files disk)) }
    {
        Ok(FileDisk {
            runtime: runtime.clone()?,
            primary: Directory::new(runtime.alloc()),
            secondary: Directory::new(runtime.alloc()),
            locks: Locks::new(),
            log: CallLog::new(),
        })
    }

    /// Counts a fault of that side.
    fn raise(&mut self, side: Side)
        ensures calls { self.new.log.calls ≡ self.old.log.calls }
        ensures goes_on { GoesOn (on_files self.old) (on_files self.new) }
        ensures same { SameDisk (on_files self.old) (on_files self.new) }
        ensures once { (on_files self.new).faults side ≡ counted ((on_files self.old).faults side) }
        ensures rose { Rose ((on_files self.old).faults side) ((on_files self.new).faults side) }
        ensures others { OtherFaultsStay side (on_files self.old) (on_files self.new) }
    {
        match side {
            Side::Primary => self.primary.raise(),
            Side::Secondary => self.secondary.raise(),
        }
    }

    /// Counts a failure that a side answers.
    fn count<T>(&mut self, side: Side, answer: &Result<T, DiskErr>)
        ensures calls { self.new.log.calls ≡ self.old.log.calls }
        ensures goes_on { GoesOn (on_files self.old) (on_files self.new) }
        ensures same { SameDisk (on_files self.old) (on_files self.new) }
        ensures once { CountsOnce side answer.now (on_files self.old) (on_files self.new) }
        ensures failed { CountsFailure side answer.now (on_files self.old) (on_files self.new) }
        ensures steady { CountsNoOther side answer.now (on_files self.old) (on_files self.new) }
    {
        if let Err(DiskErr::Failed) = answer {
            self.raise(side);
        }
    }

    /// How an operation ended, by what the system answered. A refusal is counted.
    fn settle(&mut self, side: Side, answer: io::Result<()>) -> Progress
        ensures calls { self.new.log.calls ≡ self.old.log.calls }
        ensures goes_on { GoesOn (on_files self.old) (on_files self.new) }
        ensures same { SameDisk (on_files self.old) (on_files self.new) }
        ensures done { IsOk answer → result ≡ Progress.Done }
        ensures steady { CountsNoneButRefusal side answer (on_files self.old) (on_files self.new) }
        ensures once { CountsRefusal side answer (on_files self.old) (on_files self.new) }
        ensures failed { FailsIfRefused side answer result (on_files self.old) (on_files self.new) }
    {
        match answer {
            Ok(()) => Progress::Done,
            Err(_) => {
                self.raise(side);
                Progress::Failed
            }
        }
    }

    /// Takes an operation out of flight, for a poll.
    fn end(&mut self, id: OpId) -> Option<Started<R::File>>
        ensures unnoted { self.new.log.calls ≡ self.old.log.calls }
        ensures goes_on { GoesOn (on_files self.old) (on_files self.new) }
        ensures ends { Ends id (on_files self.old) (on_files self.new) }
        ensures steady { (s : Side) → (on_files self.new).faults s ≡ (on_files self.old).faults s }
    {
        match id.side {
            Side::Primary => self.primary.end(id.number),
            Side::Secondary => self.secondary.end(id.number),
        }
    }

    /// Runs an operation that is no longer in flight.
    fn run(&mut self, side: Side, op: Started<R::File>) -> io::Result<()>
        ensures { on_files self.new ≡ on_files self.old }
    {
        match side {
            Side::Primary => self.primary.run(&self.runtime, op),
            Side::Secondary => self.secondary.run(&self.runtime, op),
        }
    }

    /// Takes an operation out of flight, runs it, and answers what the system did.
    fn finish(&mut self, id: OpId) -> io::Result<()>
        ensures unnoted { self.new.log.calls ≡ self.old.log.calls }
        ensures goes_on { GoesOn (on_files self.old) (on_files self.new) }
        ensures ends { Ends id (on_files self.old) (on_files self.new) }
        ensures steady { (s : Side) → (on_files self.new).faults s ≡ (on_files self.old).faults s }
    {
        match self.end(id) {
            Some(started) => self.run(id.side, started),
            None => Err(ErrorKind::NotFound.into()),
        }
    }

    /// Reads from a place of a file, counted from 0.
    fn read_file(&mut self, place: FilePlace, at: u64, buf: &mut [u8]) -> Result<usize, DiskErr>
        ensures unnoted { self.new.log.calls ≡ self.old.log.calls }
        ensures goes_on { GoesOn (on_files self.old) (on_files self.new) }
        ensures same { SameDisk (on_files self.old) (on_files self.new) }
        ensures once { CountsOnceOf place result (on_files self.old) (on_files self.new) }
        ensures failed { CountsFailureOf place result (on_files self.old) (on_files self.new) }
        ensures steady { CountsNoOtherOf place result (on_files self.old) (on_files self.new) }
        ensures within { IfOk result (λ n. n ≤ length buf.new) }
        ensures beyond { IfOk result (λ n. drop n buf.new ≡ drop n buf.old) }
    {
        let read = system::read(&self.runtime, place, at, buf);
        self.count(side_of(place), &read);
        read
    }

    /// Puts a table, in place of one of that number.
    fn replace(&mut self, upto: u64, bytes: &[u8]) -> Result<(), DiskErr>
        ensures { on_files self.new ≡ on_files self.old }
    {
        self.primary.put_table(&self.runtime, upto, bytes)
    }

    /// Removes a file.
    fn remove(&mut self, place: FilePlace) -> Result<(), DiskErr>
        ensures { on_files self.new ≡ on_files self.old }
    {
        match side_of(place) {
            Side::Primary => self.primary.remove(&self.runtime, place),
            Side::Secondary => self.secondary.remove(&self.runtime, place),
        }
    }

    /// Removes a file, counts a failure, and notes the call.
    fn drop_file(&mut self, place: FilePlace) -> Result<(), DiskErr>
        ensures noted { NotesRemoval place result (on_files self.old) (on_files self.new) }
        ensures goes_on { GoesOn (on_files self.old) (on_files self.new) }
        ensures same { SameDisk (on_files self.old) (on_files self.new) }
        ensures once { CountsOnceOf place result (on_files self.old) (on_files self.new) }
        ensures failed { CountsFailureOf place result (on_files self.old) (on_files self.new) }
        ensures steady { CountsNoOtherOf place result (on_files self.old) (on_files self.new) }
    {
        let removed = self.remove(place);
        self.count(side_of(place), &removed);
        self.log.note_removal(place, &removed);
        removed
    }
}

/// The segments of a side, once no other disk can be at work there.
fn list_alone<R: LockFiles + AllocGlobal + Clone + Drop>(
    rt: &R,
    locks: &mut Locks<R::File>,
    side: Side,
) -> Result<Names, DiskErr>
    ensures keeps { KeepsLocks locks.old locks.new }
    ensures ascending { IfOk result IsAscending }
    ensures numbers { IfOk result AreSegmentNames }
{
    locks.take(rt, side).map_err(system::refusal)?;
    system::list(rt, side)
}

/// The tables, once no other disk can be at work there.
fn tables_alone<R: LockFiles + AllocGlobal + Clone + Drop>(
    rt: &R,
    locks: &mut Locks<R::File>,
) -> Result<TableNames, DiskErr>
    ensures keeps { KeepsLocks locks.old locks.new }
    ensures ascending { IfOk result AreTablesAscending }
    ensures numbers { IfOk result AreTableNumbers }
{
    locks.take(rt, Side::Primary).map_err(system::refusal)?;
    system::tables(rt)
}

impl<R: LockFiles + AllocGlobal + Clone + Drop> Disk for FileDisk<R> {
    ghost use Rattle.disk_face.specs.NoFiles.{no_files, no_sound};

    ghost tells = { false };

    ghost view = { λ d. on_files d };

    fn list(&mut self, side: Side) -> Result<Names, DiskErr> {
        let listed = list_alone(&self.runtime, &mut self.locks, side);
        self.count(side, &listed);
        self.log.note_listing(side, &listed);
        listed
    }

    fn read(
        &mut self,
        side: Side,
        name: SegName,
        at: u64,
        buf: &mut [u8],
    ) -> Result<usize, DiskErr> {
        self.log.note_read(side, name, buf.len());
        self.read_file(FilePlace::Segment { side, name }, at, buf)
    }

    fn start(&mut self, op: DiskOp<'_>) -> Result<OpId, NoMemory> {
        let side = side_of(place_of(op));
        let number = match side {
            Side::Primary => self.primary.begin(op)?,
            Side::Secondary => self.secondary.begin(op)?,
        };
        let id = OpId { side, number };
        self.log.note_start(id, op);
        Ok(id)
    }

    fn poll(&mut self, id: OpId) -> Progress {
        let finished = self.finish(id);
        let answer = self.settle(id.side, finished);
        self.log.note_poll(id, answer);
        answer
    }

    ghost finite = { λ d k told le. no_files };

    ghost sound = { λ d p f told is. no_sound p f is };
}

impl<R: LockFiles + AllocGlobal + Clone + Drop> TableDisk for FileDisk<R> {
    fn tables(&mut self) -> Result<TableNames, DiskErr> {
        let listed = tables_alone(&self.runtime, &mut self.locks);
        self.count(Side::Primary, &listed);
        self.log.note_tables(&listed);
        listed
    }

    fn read_table(&mut self, upto: u64, at: u64, buf: &mut [u8]) -> Result<usize, DiskErr> {
        self.log.note_table_read(upto, buf.len());
        self.read_file(FilePlace::Table { upto }, at, buf)
    }

    fn put_table(&mut self, upto: u64, bytes: &[u8]) -> Result<(), DiskErr> {
        let put = self.replace(upto, bytes);
        self.count(Side::Primary, &put);
        self.log.note_put(upto, bytes, &put);
        put
    }

    fn drop_segment(&mut self, side: Side, name: SegName) -> Result<(), DiskErr> {
        self.drop_file(FilePlace::Segment { side, name })
    }

    fn drop_table(&mut self, upto: u64) -> Result<(), DiskErr> {
        self.drop_file(FilePlace::Table { upto })
    }
}
