//! The disk in memory.
#![tactic(auto, unfolding(crate::specs::Mem::mem_view))]

ghost use Rattle.std.specs.Prelude.{◌≡◌, ◌↔◌, ◌+◌, ◌≤◌, true, [], length, drop, IfOk, IfNone, IfSome, OnOk, OnErr, IsErrOf, IsSome, IsTrue, None, Some};
ghost use Rattle.disk_face.specs.declared.Side.{Side};
ghost use Rattle.disk_face.specs.declared.Side.TheVariants.{Primary};
ghost use Rattle.disk_face.specs.View.{Place, segment, table, files, by_side, was_polled, IsFree, NothingInFlight};
ghost use Rattle.disk_face.specs.Image.{IsRested, as_read};
ghost use Rattle.disk_face.specs.Listing.{IsAscending, AreSegmentNames, IsListing, AreTablesAscending, AreTableNumbers, IsTableNumber, IsTableListing};
ghost use Rattle.disk_face.specs.Answers.{CountsFailure, CountsNoOther, NotesListing, AsksFor, NotesStart, MayStartOn, IsStarted, SendsTo};
ghost use Rattle.disk_face.specs.Calls.{place_of, GoesOn, SameDisk, StallsStay, FaultsStayBut, StallsStayBut, Notes, Polled, Stalls};
ghost use Rattle.disk_face.specs.Tables.{whole, NotesTables, AsksForTable, NotesPut, NotesRemoval, PutsTable, Removes};
ghost use Rattle.mem_disk.specs.Picks.{DecidesChance};
ghost use Rattle.mem_disk.specs.Failing.{AnswersIf, LeavesPart, LeavesFile};
ghost use Rattle.mem_disk.specs.Plan.{Plan, nothing_planned, failing_op, failing_call, failing_table_call, FailsNext, FailsTableCall, after_call, after_table_call, after_op, AnswersByPlan, TakesOnePoll};
ghost use Rattle.mem_disk.specs.Finite.{finite_mem, sound_mem};
ghost use Rattle.mem_disk.specs.Mem.{files_held, AreInOrder};

use crate::chance::is_chance_free;
use crate::counts::CallFaults;
use crate::crash::files_left;
use crate::files::{
    begin, content_of, leave, place_whole, put_as_planned, read_file, remove, sent_of, settle,
};
use crate::listing::{list_files, list_tables};
use crate::moments::Moments;
use crate::ops::{begin_op, end_op, op_of};
use crate::parts::{MemFile, MemOp};
use crate::picks::CrashPick;
use disk_face::{
    BySide, CallLog, Disk, DiskErr, DiskOp, FilePlace, Names, OpId, Progress, SegName, Side,
    StallDisk, TableDisk, TableNames,
};
use std::alloc::Global;
use wal_base::NoMemory;

/// A disk whose failures are asked for by numbers. Contracts see what was asked for.
pub trait Planned {
    /// The failures that were asked for, and how far the counts are.
    ghost plan: { Self → Plan };
}

impl Planned for MemDisk {
    ghost use Rattle.mem_disk.specs.Seen.{plan_of};

    ghost plan = { plan_of };
}

/// A disk in memory. It tells its files. An operation ends at its first poll that is not stalled, and then takes
/// no memory.
#[derive(Drop)]
pub struct MemDisk {
    alloc: Global,
    files: Vec<MemFile>,
    ops: Vec<MemOp>,
    moments: Moments,
    faults: BySide,
    polls: BySide,
    fail_ops: Vec<u64>,
    calls: CallFaults,
    table_calls: CallFaults,
    log: CallLog,
    ghost ordered: { AreInOrder files.items },
}

/// How many files a new disk has room for.
const FIRST_FILES: usize = 8;

impl MemDisk {
    ghost use Rattle.mem_disk.specs.Seen.{seen, plan_of, SegmentReads, SegmentSent, PutsWhole, PutsWholeAt, ReadsImageOf, ReadsPicked, StandsAsRead};

    /// Two empty directories, no fault, no poll to stall, and nothing in flight. `Err` means out of memory.
    pub fn new(alloc: Global) -> Result<MemDisk, NoMemory>
        ensures tells { IsTrue ⟦<MemDisk as Disk>⟧.tells }
        ensures empty { IfOk result (λ disk. (p : Place) → files (seen disk) p ≡ None) }
        ensures no_faults { IfOk result (λ disk. (s : Side) → (seen disk).faults s ≡ 0) }
        ensures no_polls { IfOk result (λ disk. (s : Side) → (seen disk).polls_left s ≡ 0) }
        ensures no_plan { IfOk result (λ disk. plan_of disk ≡ nothing_planned) }
        ensures idle { IfOk result (λ disk. NothingInFlight (seen disk)) }
        ensures no_calls { IfOk result (λ disk. (seen disk).calls ≡ []) }
    {
        let files = Vec::with_capacity(alloc, FIRST_FILES)?;
        Ok(MemDisk::holding(alloc, files))
    }

    /// Puts a whole file, all of it stable. No operation may be in flight on it. `Err` means out of memory, and
    /// changes nothing.
    pub fn put_file(&mut self, side: Side, name: SegName, bytes: &[u8]) -> Result<(), NoMemory>
        requires absent { files (seen self.old) (segment side name) ≡ None }
        requires free { IsFree (seen self.old) (segment side name) }
        ensures goes_on { GoesOn (seen self.old) (seen self.new) }
        ensures flights { (seen self.new).in_flight ≡ (seen self.old).in_flight }
        ensures put { OnOk result (PutsWhole side name bytes.now (seen self.old) (seen self.new)) }
        ensures err { OnErr result (seen self.new ≡ seen self.old) }
        ensures stalls { StallsStay (seen self.old) (seen self.new) }
        ensures steady { (seen self.new).faults ≡ (seen self.old).faults }
        ensures calls { (seen self.new).calls ≡ (seen self.old).calls }
        ensures plan { plan_of self.new ≡ plan_of self.old }
        ensures rested { IsRested (files (seen self.old)) → IsRested (files (seen self.new)) }
    {
        self.put_whole(FilePlace::Segment { side, name }, bytes)
    }

    /// Places a whole table, all of it stable, in place of one of that number, whatever state that is in. `Err` means
    /// out of memory, and changes nothing.
    pub fn place_table(&mut self, upto: u64, bytes: &[u8]) -> Result<(), NoMemory>
        requires number { IsTableNumber upto }
        ensures goes_on { GoesOn (seen self.old) (seen self.new) }
        ensures flights { (seen self.new).in_flight ≡ (seen self.old).in_flight }
        ensures put { OnOk result (PutsWholeAt (table upto) bytes.now (seen self.old)
            (seen self.new)) }
        ensures err { OnErr result (seen self.new ≡ seen self.old) }
        ensures stalls { StallsStay (seen self.old) (seen self.new) }
        ensures steady { (seen self.new).faults ≡ (seen self.old).faults }
        ensures calls { (seen self.new).calls ≡ (seen self.old).calls }
        ensures plan { plan_of self.new ≡ plan_of self.old }
        ensures rested { IsRested (files (seen self.old)) → IsRested (files (seen self.new)) }
    {
        self.put_whole(FilePlace::Table { upto }, bytes)
    }

    // Puts a whole file, in place of one that is there.
    fn put_whole(&mut self, place: FilePlace, bytes: &[u8]) -> Result<(), NoMemory>
        ensures goes_on { GoesOn (seen self.old) (seen self.new) }
        ensures flights { (seen self.new).in_flight ≡ (seen self.old).in_flight }
        ensures put { OnOk result (PutsWholeAt place bytes.now (seen self.old) (seen self.new)) }
        ensures err { OnErr result (seen self.new ≡ seen self.old) }
        ensures stalls { StallsStay (seen self.old) (seen self.new) }
        ensures steady { (seen self.new).faults ≡ (seen self.old).faults }
        ensures calls { (seen self.new).calls ≡ (seen self.old).calls }
        ensures plan { plan_of self.new ≡ plan_of self.old }
        ensures rested { IsRested (files (seen self.old)) → IsRested (files (seen self.new)) }
    {
        let moments = self.moments.and(&self.files);
        place_whole(self.alloc, &mut self.files, place, bytes)?;
        self.moments = moments;
        Ok(())
    }

    /// The operation of that number is to fail, at its first poll that is not stalled. The operations are counted
    /// from 0, over all starts that were answered `Ok`. `Err` means out of memory.
    pub fn fail_op(&mut self, number: u64) -> Result<(), NoMemory>
        ensures same { seen self.new ≡ seen self.old }
        ensures planned { OnOk result (plan_of self.new ≡ failing_op number (plan_of self.old)) }
        ensures err { OnErr result (plan_of self.new ≡ plan_of self.old) }
    {
        self.fail_ops.push(number)?;
        Ok(())
    }

    /// The call of `list` or `read` of that number is to fail. The calls are counted from 0, over both. `Err` is
    /// out of memory.
    pub fn fail_call(&mut self, number: u64) -> Result<(), NoMemory>
        ensures same { seen self.new ≡ seen self.old }
        ensures planned { OnOk result (plan_of self.new ≡ failing_call number (plan_of self.old)) }
        ensures err { OnErr result (plan_of self.new ≡ plan_of self.old) }
    {
        self.calls.numbers.push(number)?;
        Ok(())
    }

    /// The call of that number is to fail, of those on tables and the removals: `tables`, `read_table`, `put_table`,
    /// `drop_segment` and `drop_table`. They are counted from 0, over all of them that are made from now on. A put
    /// that fails leaves the first half of the table, rounded down, and a removal that fails the file. `Err` is out
    /// of memory.
    pub fn fail_table_call(&mut self, number: u64) -> Result<(), NoMemory>
        ensures same { seen self.new ≡ seen self.old }
        ensures planned { OnOk result (plan_of self.new ≡ failing_table_call number
            (plan_of self.old)) }
        ensures err { OnErr result (plan_of self.new ≡ plan_of self.old) }
    {
        let number = self.table_calls.calls.saturating_add(number);
        self.table_calls.numbers.push(number)?;
        Ok(())
    }

    /// What a read gives. `None` exactly where no file of that segment is created.
    pub fn content(&self, side: Side, name: SegName) -> Option<&[u8]>
        ensures some { IfSome result (λ bytes. SegmentReads (seen self.now) side name bytes.now) }
        ensures none { IfNone result (as_read (segment side name)
            (files (seen self.now) (segment side name)) ≡ None) }
    {
        content_of(&self.files, side, name)
    }

    /// The bytes of all writes started on a file. `None` exactly where no creation of it was started and it was
    /// not put.
    pub fn sent(&self, side: Side, name: SegName) -> Option<&[u8]>
        ensures some { IfSome result (λ bytes. SegmentSent (seen self.now) side name bytes.now) }
        ensures none { IfNone result (files (seen self.now) (segment side name) ≡ None) }
    {
        sent_of(&self.files, side, name)
    }

    /// The image that the pick names, as a disk in which every byte is stable: no fault, no poll to stall, nothing
    /// in flight, and no failure asked for. Tables, and files whose removal failed, stand in it as they read. `Err`
    /// means out of memory, and gives the disk up.
    pub fn crash(self, pick: &CrashPick) -> Result<MemDisk, NoMemory>
        ensures image { IfOk result (λ disk. ReadsImageOf (seen self) (seen disk)) }
        ensures picked { IfOk result (λ disk. ReadsPicked (seen self) pick.now.files (seen disk)) }
        ensures stable { IfOk result (λ disk. StandsAsRead (seen disk)) }
        ensures rested { IfOk result (λ disk. IsRested (files (seen disk))) }
        ensures no_faults { IfOk result (λ disk. (s : Side) → (seen disk).faults s ≡ 0) }
        ensures no_polls { IfOk result (λ disk. (s : Side) → (seen disk).polls_left s ≡ 0) }
        ensures no_plan { IfOk result (λ disk. plan_of disk ≡ nothing_planned) }
        ensures idle { IfOk result (λ disk. NothingInFlight (seen disk)) }
        ensures no_calls { IfOk result (λ disk. (seen disk).calls ≡ []) }
    {
        let MemDisk { alloc, files, .. } = self;
        let files = files_left(alloc, files, pick.files.as_slice())?;
        Ok(MemDisk::holding(alloc, files))
    }

    /// The premise on checksums, of the image that the pick names: whether each whole chunk in it that has the log
    /// number of its file was sent to its place. `Err` means out of memory.
    pub fn chance_free(&self, pick: &CrashPick) -> Result<bool, NoMemory>
        ensures { IfOk result (DecidesChance (files (seen self.now)) pick.now.files) }
    {
        is_chance_free(self.alloc, &self.files, pick.files.as_slice())
    }

    // Removes the file of a place, in the directory of that side.
    fn take_away(&mut self, side: Side, place: FilePlace) -> Result<(), DiskErr>
        ensures goes_on { GoesOn (seen self.old) (seen self.new) }
        ensures flights { (seen self.new).in_flight ≡ (seen self.old).in_flight }
        ensures failed { CountsFailure side result (seen self.old) (seen self.new) }
        ensures steady { CountsNoOther side result (seen self.old) (seen self.new) }
        ensures stalls { StallsStay (seen self.old) (seen self.new) }
        ensures noted { NotesRemoval place result (seen self.old) (seen self.new) }
        ensures moments { Removes place (seen self.old) (seen self.new) }
        ensures gone { OnOk result (files (seen self.new) place ≡ None) }
        ensures no_memory { IsErrOf result DiskErr.NoMemory → ⊥ }
        ensures fails { IsErrOf result DiskErr.Failed ↔ FailsTableCall (plan_of self.old) }
        ensures left { LeavesFile place result (seen self.old) (seen self.new) }
        ensures counts { plan_of self.new ≡ after_table_call (plan_of self.old) }
    {
        let fails = self.table_calls.next();
        self.moments = self.moments.and(&self.files);
        leave(&mut self.files, place);
        if fails {
            self.faults.raise(side);
            let answer = Err(DiskErr::Failed);
            self.log.note_removal(place, &answer);
            return answer;
        }
        self.moments = self.moments.and(&self.files);
        remove(&mut self.files, place);
        let answer = Ok(());
        self.log.note_removal(place, &answer);
        answer
    }

    /// A disk that holds these files, on which nothing has happened yet.
    fn holding(alloc: Global, kept: Vec<MemFile>) -> MemDisk
        requires ordered { AreInOrder kept.items }
        ensures kept { files (seen result) ≡ files_held kept.items }
        ensures no_faults { (s : Side) → (seen result).faults s ≡ 0 }
        ensures no_polls { (s : Side) → (seen result).polls_left s ≡ 0 }
        ensures no_plan { plan_of result ≡ nothing_planned }
        ensures idle { NothingInFlight (seen result) }
        ensures no_calls { (seen result).calls ≡ [] }
    {
        MemDisk {
            alloc,
            files: kept,
            ops: Vec::new(alloc),
            moments: Moments::new(),
            faults: BySide {
                primary: 0,
                secondary: 0,
            },
            polls: BySide {
                primary: 0,
                secondary: 0,
            },
            fail_ops: Vec::new(alloc),
            calls: CallFaults {
                numbers: Vec::new(alloc),
                calls: 0,
            },
            table_calls: CallFaults {
                numbers: Vec::new(alloc),
                calls: 0,
            },
            log: CallLog::new(),
        }
    }
}

impl Disk for MemDisk {
    ghost use Rattle.mem_disk.specs.Seen.{seen, plan_of, SegmentFills, NoneIfAbsent};

    ghost tells = { true };

    ghost view = { seen };

    fn list(&mut self, side: Side) -> Result<Names, DiskErr>
        ensures goes_on { GoesOn (seen self.old) (seen self.new) }
        ensures same { SameDisk (seen self.old) (seen self.new) }
        ensures failed { CountsFailure side result (seen self.old) (seen self.new) }
        ensures ascending { IfOk result IsAscending }
        ensures numbers { IfOk result AreSegmentNames }
        ensures names { IfOk result (IsListing (files (seen self.old)) side) }
        ensures noted { NotesListing side result (seen self.old) (seen self.new) }

        // It fails exactly at the calls that were to fail.
        ensures fails { IsErrOf result DiskErr.Failed ↔ FailsNext (plan_of self.old) }
        ensures counts { plan_of self.new ≡ after_call (plan_of self.old) }

        // No poll to stall is taken, and nothing is counted but the failure that is answered.
        ensures stalls { StallsStay (seen self.old) (seen self.new) }
        ensures steady { CountsNoOther side result (seen self.old) (seen self.new) }
    {
        if self.calls.next() {
            self.faults.raise(side);
            let answer = Err(DiskErr::Failed);
            self.log.note_listing(side, &answer);
            return answer;
        }
        let answer = list_files(self.alloc, &self.files, side);
        self.log.note_listing(side, &answer);
        answer
    }

    fn read(&mut self, side: Side, name: SegName, at: u64, buf: &mut [u8]) -> Result<usize, DiskErr>
        ensures goes_on { GoesOn (seen self.old) (seen self.new) }
        ensures same { SameDisk (seen self.old) (seen self.new) }
        ensures failed { CountsFailure side result (seen self.old) (seen self.new) }
        ensures within { IfOk result (λ n. n ≤ length buf.new) }
        ensures beyond { IfOk result (λ n. drop n buf.new ≡ drop n buf.old) }
        ensures bytes { IfOk result (SegmentFills (seen self.old) side name at buf.new) }
        ensures no_file { IfOk result (NoneIfAbsent (seen self.old) side name) }
        ensures noted { AsksFor side name buf.old (seen self.old) (seen self.new) }

        // It fails exactly at the calls that were to fail.
        ensures fails { IsErrOf result DiskErr.Failed ↔ FailsNext (plan_of self.old) }
        ensures counts { plan_of self.new ≡ after_call (plan_of self.old) }

        // No poll to stall is taken, and nothing is counted but the failure that is answered.
        ensures stalls { StallsStay (seen self.old) (seen self.new) }
        ensures steady { CountsNoOther side result (seen self.old) (seen self.new) }
    {
        self.log.note_read(side, name, buf.len());
        if self.calls.next() {
            self.faults.raise(side);
            return Err(DiskErr::Failed);
        }
        let place = FilePlace::Segment { side, name };
        Ok(read_file(&self.files, place, at, buf))
    }

    fn start(&mut self, op: DiskOp<'_>) -> Result<OpId, NoMemory>
        requires free { IsFree (seen self.old) (place_of op) }
        requires may { MayStartOn op (seen self.old) }
        ensures goes_on { GoesOn (seen self.old) (seen self.new) }
        ensures starts { IsStarted op.entry result (seen self.old) (seen self.new) }
        ensures file { OnOk result (SendsTo op.entry (seen self.old) (seen self.new)) }
        ensures err { OnErr result (seen self.new ≡ seen self.old) }
        ensures noted { NotesStart op.entry result (seen self.old) (seen self.new) }

        // The operations are numbered as they are started.
        ensures number { IfOk result (λ id. id.number ≡ (plan_of self.old).starts) }
        ensures counts { OnOk result (plan_of self.new ≡ after_op (plan_of self.old)) }
        ensures stalls { StallsStay (seen self.old) (seen self.new) }
        ensures not_counted { OnErr result (plan_of self.new ≡ plan_of self.old) }
    {
        let made = op_of(op);
        self.ops.reserve(1)?;
        let moments = self.moments.and(&self.files);
        begin(self.alloc, &mut self.files, op)?;
        self.moments = moments;
        let number = begin_op(&mut self.ops, made);
        let id = OpId {
            side: made.side,
            number,
        };
        self.log.note_start(id, op);
        Ok(id)
    }

    fn poll(&mut self, id: OpId) -> Progress
        requires in_flight { IsSome ((seen self.old).in_flight id) }
        ensures goes_on { GoesOn (seen self.old) (seen self.new) }
        ensures polled { Polled true id (seen self.old) (seen self.new) result }
        ensures noted { Notes (was_polled id result) (seen self.old) (seen self.new) }

        // It fails exactly where the operation was to fail, once it is not stalled.
        ensures answers { AnswersByPlan (plan_of self.old) id (seen self.old) result }
        ensures plan { plan_of self.new ≡ plan_of self.old }

        // A stalled poll takes one poll of its side, and no other one does. Nothing is counted but the failure that is answered.
        ensures took { TakesOnePoll id result (seen self.old) (seen self.new) }
        ensures stalls { StallsStayBut id result (seen self.old) (seen self.new) }
        ensures steady { FaultsStayBut id result (seen self.old) (seen self.new) }

        // A failed operation leaves each file as it stands.
        ensures kept { result ≡ Progress.Failed → files (seen self.new) ≡ files (seen self.old) }
    {
        if self.polls.take_one(id.side) {
            self.log.note_poll(id, Progress::Pending);
            return Progress::Pending;
        }
        let op = end_op(&mut self.ops, id);
        self.moments = self.moments.and(&self.files);
        if self.fail_ops.contains(&id.number) {
            self.faults.raise(id.side);
            self.log.note_poll(id, Progress::Failed);
            return Progress::Failed;
        }
        settle(&mut self.files, op.side, op.name, op.act);
        self.log.note_poll(id, Progress::Done);
        Progress::Done
    }

    ghost finite = { λ d k told le. finite_mem k d.files.items d.ops.items d.moments.past (by_side d.faults.primary d.faults.secondary) (by_side d.polls.primary d.polls.secondary) d.log.calls };

    ghost sound = { λ d p f told is. sound_mem d.files.items d.ops.items d.moments.past (by_side d.faults.primary d.faults.secondary) (by_side d.polls.primary d.polls.secondary) d.log.calls p f is };
}

impl StallDisk for MemDisk {
    ghost use Rattle.mem_disk.specs.Seen.{seen, plan_of};

    fn stall(&mut self, side: Side, polls: u32)
        ensures stalls { Stalls side polls (seen self.old) (seen self.new) }
        ensures plan { plan_of self.new ≡ plan_of self.old }
    {
        self.polls.add(side, polls);
    }
}

impl TableDisk for MemDisk {
    ghost use Rattle.mem_disk.specs.Seen.{seen, plan_of, FileFills, NoneIfNoFile};

    fn tables(&mut self) -> Result<TableNames, DiskErr>
        ensures goes_on { GoesOn (seen self.old) (seen self.new) }
        ensures same { SameDisk (seen self.old) (seen self.new) }
        ensures failed { CountsFailure Primary result (seen self.old) (seen self.new) }
        ensures steady { CountsNoOther Primary result (seen self.old) (seen self.new) }
        ensures stalls { StallsStay (seen self.old) (seen self.new) }
        ensures noted { NotesTables result (seen self.old) (seen self.new) }
        ensures ascending { IfOk result AreTablesAscending }
        ensures numbers { IfOk result AreTableNumbers }
        ensures tables { IfOk result (IsTableListing (files (seen self.old))) }

        // It fails exactly at the calls that were to fail.
        ensures fails { IsErrOf result DiskErr.Failed ↔ FailsTableCall (plan_of self.old) }
        ensures counts { plan_of self.new ≡ after_table_call (plan_of self.old) }
    {
        if self.table_calls.next() {
            self.faults.raise(Side::Primary);
            let answer = Err(DiskErr::Failed);
            self.log.note_tables(&answer);
            return answer;
        }
        let answer = list_tables(self.alloc, &self.files);
        self.log.note_tables(&answer);
        answer
    }

    fn read_table(&mut self, upto: u64, at: u64, buf: &mut [u8]) -> Result<usize, DiskErr>
        ensures goes_on { GoesOn (seen self.old) (seen self.new) }
        ensures same { SameDisk (seen self.old) (seen self.new) }
        ensures failed { CountsFailure Primary result (seen self.old) (seen self.new) }
        ensures steady { CountsNoOther Primary result (seen self.old) (seen self.new) }
        ensures stalls { StallsStay (seen self.old) (seen self.new) }
        ensures noted { AsksForTable upto buf.old (seen self.old) (seen self.new) }
        ensures within { IfOk result (λ n. n ≤ length buf.new) }
        ensures beyond { IfOk result (λ n. drop n buf.new ≡ drop n buf.old) }
        ensures bytes { IfOk result (FileFills (seen self.old) (table upto) at buf.new) }
        ensures no_file { IfOk result (NoneIfNoFile (seen self.old) (table upto)) }

        // It fails exactly at the calls that were to fail.
        ensures fails { IsErrOf result DiskErr.Failed ↔ FailsTableCall (plan_of self.old) }
        ensures counts { plan_of self.new ≡ after_table_call (plan_of self.old) }
    {
        self.log.note_table_read(upto, buf.len());
        if self.table_calls.next() {
            self.faults.raise(Side::Primary);
            return Err(DiskErr::Failed);
        }
        let place = FilePlace::Table { upto };
        Ok(read_file(&self.files, place, at, buf))
    }

    fn put_table(&mut self, upto: u64, bytes: &[u8]) -> Result<(), DiskErr>
        ensures goes_on { GoesOn (seen self.old) (seen self.new) }
        ensures flights { (seen self.new).in_flight ≡ (seen self.old).in_flight }
        ensures failed { CountsFailure Primary result (seen self.old) (seen self.new) }
        ensures steady { CountsNoOther Primary result (seen self.old) (seen self.new) }
        ensures stalls { StallsStay (seen self.old) (seen self.new) }
        ensures noted { NotesPut upto bytes.now result (seen self.old) (seen self.new) }
        ensures moments { PutsTable upto bytes.now (seen self.old) (seen self.new) }
        ensures put { OnOk result (files (seen self.new) (table upto) ≡ Some (whole bytes.now)) }

        // It fails exactly at the calls that were to fail, unless there is no memory, and leaves half of the table then.
        ensures fails { AnswersIf (FailsTableCall (plan_of self.old)) result }
        ensures part { LeavesPart upto bytes.now result (seen self.new) }
        ensures counts { plan_of self.new ≡ after_table_call (plan_of self.old) }
    {
        let fails = self.table_calls.next();
        // First no table of that number is there, also where no memory is left for this one.
        self.moments = self.moments.and(&self.files);
        remove(&mut self.files, FilePlace::Table { upto });
        self.moments = self.moments.and(&self.files);
        let answer = put_as_planned(self.alloc, &mut self.files, upto, bytes, fails);
        if let Err(DiskErr::Failed) = answer {
            self.faults.raise(Side::Primary);
        }
        self.log.note_put(upto, bytes, &answer);
        answer
    }

    fn drop_segment(&mut self, side: Side, name: SegName) -> Result<(), DiskErr>
        ensures goes_on { GoesOn (seen self.old) (seen self.new) }
        ensures flights { (seen self.new).in_flight ≡ (seen self.old).in_flight }
        ensures failed { CountsFailure side result (seen self.old) (seen self.new) }
        ensures steady { CountsNoOther side result (seen self.old) (seen self.new) }
        ensures stalls { StallsStay (seen self.old) (seen self.new) }
        ensures noted { NotesRemoval (segment side name) result (seen self.old) (seen self.new) }
        ensures moments { Removes (segment side name) (seen self.old) (seen self.new) }
        ensures gone { OnOk result (files (seen self.new) (segment side name) ≡ None) }

        // It takes no memory, fails exactly at the calls that were to fail, and leaves the file then.
        ensures no_memory { IsErrOf result DiskErr.NoMemory → ⊥ }
        ensures fails { IsErrOf result DiskErr.Failed ↔ FailsTableCall (plan_of self.old) }
        ensures left { LeavesFile (segment side name) result (seen self.old) (seen self.new) }
        ensures counts { plan_of self.new ≡ after_table_call (plan_of self.old) }
    {
        self.take_away(side, FilePlace::Segment { side, name })
    }

    fn drop_table(&mut self, upto: u64) -> Result<(), DiskErr>
        ensures goes_on { GoesOn (seen self.old) (seen self.new) }
        ensures flights { (seen self.new).in_flight ≡ (seen self.old).in_flight }
        ensures failed { CountsFailure Primary result (seen self.old) (seen self.new) }
        ensures steady { CountsNoOther Primary result (seen self.old) (seen self.new) }
        ensures stalls { StallsStay (seen self.old) (seen self.new) }
        ensures noted { NotesRemoval (table upto) result (seen self.old) (seen self.new) }
        ensures moments { Removes (table upto) (seen self.old) (seen self.new) }
        ensures gone { OnOk result (files (seen self.new) (table upto) ≡ None) }

        // It takes no memory, fails exactly at the calls that were to fail, and leaves the file then.
        ensures no_memory { IsErrOf result DiskErr.NoMemory → ⊥ }
        ensures fails { IsErrOf result DiskErr.Failed ↔ FailsTableCall (plan_of self.old) }
        ensures left { LeavesFile (table upto) result (seen self.old) (seen self.new) }
        ensures counts { plan_of self.new ≡ after_table_call (plan_of self.old) }
    {
        self.take_away(Side::Primary, FilePlace::Table { upto })
    }
}
