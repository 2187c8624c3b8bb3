//! A disk over another one, that answers polls pending as it was told.

ghost use Rattle.std.specs.Prelude.{◌≡◌, ◌≤◌, ◌<◌, ℕ, length, drop, IfOk, OnErr, IsSome, IsTrue};
ghost use Rattle.disk_face.specs.declared.Side.{Side};
ghost use Rattle.disk_face.specs.declared.Side.TheVariants.{Primary};
ghost use Rattle.disk_face.specs.View.{DiskView, segment, table, was_polled, IsFree};
ghost use Rattle.disk_face.specs.Listing.{IsAscending, AreSegmentNames, AreTablesAscending, AreTableNumbers, IsTableNumber};
ghost use Rattle.disk_face.specs.Answers.{CountsFailure, CountsNoOther, NotesListing, AsksFor, NotesStart, ListsFiles, ReadsFile, ReadsSegment, ReadsNoFile, MayStartOn, IsStarted};
ghost use Rattle.disk_face.specs.Calls.{place_of, GoesOn, SameDisk, StallsStay, FaultsStayBut, StallsStayBut, Notes, Polled, Stalls};
ghost use Rattle.disk_face.specs.Tables.{NotesTables, AsksForTable, NotesPut, NotesRemoval, ListsTables, Puts, Drops, DropsTable, StandsWhole, IsGone, IsThere};
ghost use Rattle.disk_face.specs.Script.{stalled, TellsOf, BeginsOver, RaisesOwnPolls};
ghost use Rattle.disk_face.specs.Seen.{outer, within, own_polls_of, OwnPollsStay, OuterSends, AnswersWhileOwn, PassesOnElse, Outside, Inside};

use crate::{
    BySide, CallLog, Disk, DiskErr, DiskOp, FilePlace, Names, OpId, Progress, SegName, Side,
    StallDisk, TableDisk, TableNames,
};
use std::marker::Model;
use wal_base::NoMemory;

/// A disk that answers polls by itself, over a disk within. Contracts see both.
pub trait Scripted: Disk {
    /// How many polls it is still to answer by itself, by side.
    ghost own_polls: { Self → Side → ℕ };

    /// What the disk within means.
    ghost within: { Self → DiskView };

    /// What it means is the disk within, with its own polls more left to stall, and the calls made of itself.
    ghost told: { (d : Self) → Self.view d ≡ stalled (within d) (own_polls d Side.Primary) (own_polls d Side.Secondary) (Self.view d).calls };
}

impl<D: Disk> Scripted for ScriptDisk<D> {
    ghost use Rattle.std.specs.Prelude.{refl};

    ghost own_polls = { λ d. own_polls_of d };

    ghost within = { λ d. within D.view d };

    ghost told = { λ d. refl };
}

/// A disk that passes every call on to the disk within, but a poll of a side that is stalled: that it answers `Pending`
/// itself, and the disk within is not asked.
#[derive(Debug, Drop)]
pub struct ScriptDisk<D: Disk> {
    inner: D,
    /// The polls that it is still to answer by itself.
    polls: BySide,
    log: CallLog,
}

impl<D: Disk> Model for ScriptDisk<D> {
    ghost use Rattle.disk_face.specs.Script.{ScriptedDisk, ArePassedOn};

    ghost Value = { ScriptedDisk D };

    ghost view = { λ d. record { inner = d.inner; polls = d.polls; calls = d.log.calls } };

    // It has passed each call on, but for the polls that it answered itself.
    ghost invariant = { λ d. ArePassedOn (D.view d.inner).calls d.log.calls };
}

impl<D: Disk> ScriptDisk<D> {
    /// A disk that stalls nothing by itself yet.
    pub fn new(inner: D) -> ScriptDisk<D>
        ensures begins { BeginsOver (D.view inner) (outer D.view result) }
        ensures no_own { (side : Side) → own_polls_of result side ≡ 0 }
        ensures within { within D.view result ≡ D.view inner }
    {
        let log = CallLog::of(&inner);
        ScriptDisk {
            inner,
            polls: BySide {
                primary: 0,
                secondary: 0,
            },
            log,
        }
    }

    /// The disk within, as it stands.
    pub fn into_inner(self) -> D
        ensures tells { TellsOf (D.view result) (outer D.view self) }
        ensures within { D.view result ≡ within D.view self }
    {
        let ScriptDisk { inner, .. } = self;
        inner
    }
}

impl<D: Disk> Disk for ScriptDisk<D> {
    ghost tells = { D.tells };

    ghost view = { λ d. outer D.view d };

    fn list(&mut self, side: Side) -> Result<Names, DiskErr>
        ensures goes_on { GoesOn (outer D.view self.old) (outer D.view self.new) }
        ensures same { SameDisk (outer D.view self.old) (outer D.view self.new) }
        ensures failed { CountsFailure side result (outer D.view self.old) (outer D.view self.new) }
        ensures steady { CountsNoOther side result (outer D.view self.old) (outer D.view self.new) }
        ensures stalls { StallsStay (outer D.view self.old) (outer D.view self.new) }
        ensures noted { NotesListing side result (outer D.view self.old) (outer D.view self.new) }
        ensures ascending { IfOk result IsAscending }
        ensures numbers { IfOk result AreSegmentNames }
        ensures names { ListsFiles D.tells side result (outer D.view self.old) }

        // The polls that this disk answers itself stay, and the disk within is asked once.
        ensures own { OwnPollsStay self.old self.new }
        ensures once { NotesListing side result (within D.view self.old) (within D.view self.new) }
    {
        let answer = self.inner.list(side);
        self.log.note_listing(side, &answer);
        answer
    }

    fn read(&mut self, side: Side, name: SegName, at: u64, buf: &mut [u8]) -> Result<usize, DiskErr>
        ensures goes_on { GoesOn (outer D.view self.old) (outer D.view self.new) }
        ensures same { SameDisk (outer D.view self.old) (outer D.view self.new) }
        ensures failed { CountsFailure side result (outer D.view self.old) (outer D.view self.new) }
        ensures steady { CountsNoOther side result (outer D.view self.old) (outer D.view self.new) }
        ensures stalls { StallsStay (outer D.view self.old) (outer D.view self.new) }
        ensures noted { AsksFor side name buf.old (outer D.view self.old) (outer D.view self.new) }
        ensures within { IfOk result (λ n. n ≤ length buf.new) }
        ensures beyond { IfOk result (λ n. drop n buf.new ≡ drop n buf.old) }
        ensures bytes { ReadsSegment D.tells side name at buf.new result (outer D.view self.old) }
        ensures no_file { ReadsNoFile D.tells (segment side name) result (outer D.view self.old) }

        // The polls that this disk answers itself stay, and the disk within is asked once.
        ensures own { OwnPollsStay self.old self.new }
        ensures once { AsksFor side name buf.old (within D.view self.old) (within D.view self.new) }
    {
        self.log.note_read(side, name, buf.len());
        self.inner.read(side, name, at, buf)
    }

    fn start(&mut self, op: DiskOp<'_>) -> Result<OpId, NoMemory>
        requires free { IsFree (outer D.view self.old) (place_of op) }
        requires may { IsTrue D.tells → MayStartOn op (outer D.view self.old) }
        ensures goes_on { GoesOn (outer D.view self.old) (outer D.view self.new) }
        ensures starts { IsStarted op.entry result (outer D.view self.old) (outer D.view self.new) }
        ensures file { OuterSends D.view D.tells op.entry result self.old self.new }
        ensures stalls { StallsStay (outer D.view self.old) (outer D.view self.new) }
        ensures noted { NotesStart op.entry result (outer D.view self.old) (outer D.view self.new) }
        ensures err { OnErr result (outer D.view self.new ≡ outer D.view self.old) }

        // The polls that this disk answers itself stay, and the disk within is asked once.
        ensures own { OwnPollsStay self.old self.new }
        ensures once { NotesStart op.entry result (within D.view self.old) (within D.view self.new) }
        ensures refused { OnErr result (within D.view self.new ≡ within D.view self.old) }
    {
        let id = self.inner.start(op)?;
        self.log.note_start(id, op);
        Ok(id)
    }

    #[tactic(auto, using(crate::proofs::Polled::passed_on))]
    fn poll(&mut self, id: OpId) -> Progress
        requires { IsSome ((outer D.view self.old).in_flight id) }
        ensures goes_on { GoesOn (outer D.view self.old) (outer D.view self.new) }
        ensures steady { FaultsStayBut id result (outer D.view self.old) (outer D.view self.new) }
        ensures stalls { StallsStayBut id result (outer D.view self.old) (outer D.view self.new) }
        ensures noted { Notes (was_polled id result) (outer D.view self.old) (outer D.view self.new) }
        ensures polled { Polled D.tells id (outer D.view self.old) (outer D.view self.new) result }

        // It answers itself while the side has own polls left, and else passes the poll on.
        ensures own { AnswersWhileOwn D.view id.side self.old self.new result }
        ensures passed { PassesOnElse D.view D.tells id self.old self.new result }
    {
        if self.polls.take_one(id.side) {
            self.log.note_poll(id, Progress::Pending);
            return Progress::Pending;
        }
        let answer = self.inner.poll(id);
        self.log.note_poll(id, answer);
        answer
    }

    ghost finite = { λ d k told le. D.finite d.inner k told le };

    ghost sound = { λ d p f told is. D.sound d.inner p f told is };
}

impl<D: Disk> StallDisk for ScriptDisk<D> {
    fn stall(&mut self, side: Side, polls: u32)
        ensures stalls { Stalls side polls (outer D.view self.old) (outer D.view self.new) }
        ensures own { RaisesOwnPolls side polls (own_polls_of self.old) (own_polls_of self.new) }
        ensures within { within D.view self.new ≡ within D.view self.old }
    {
        self.polls.add(side, polls);
    }
}

impl<D: TableDisk> TableDisk for ScriptDisk<D> {
    fn tables(&mut self) -> Result<TableNames, DiskErr>
        ensures goes_on { Outside D.view GoesOn self.old self.new }
        ensures same { Outside D.view SameDisk self.old self.new }
        ensures failed { Outside D.view (CountsFailure Primary result) self.old self.new }
        ensures steady { Outside D.view (CountsNoOther Primary result) self.old self.new }
        ensures stalls { Outside D.view StallsStay self.old self.new }
        ensures noted { Outside D.view (NotesTables result) self.old self.new }
        ensures ascending { IfOk result AreTablesAscending }
        ensures numbers { IfOk result AreTableNumbers }
        ensures tables { ListsTables D.tells result (outer D.view self.old) }

        // The polls that this disk answers itself stay, and the disk within is asked once.
        ensures own { OwnPollsStay self.old self.new }
        ensures once { Inside D.view (NotesTables result) self.old self.new }
    {
        let answer = self.inner.tables();
        self.log.note_tables(&answer);
        answer
    }

    fn read_table(&mut self, upto: u64, at: u64, buf: &mut [u8]) -> Result<usize, DiskErr>
        requires { IsTableNumber upto }
        ensures goes_on { Outside D.view GoesOn self.old self.new }
        ensures same { Outside D.view SameDisk self.old self.new }
        ensures failed { Outside D.view (CountsFailure Primary result) self.old self.new }
        ensures steady { Outside D.view (CountsNoOther Primary result) self.old self.new }
        ensures stalls { Outside D.view StallsStay self.old self.new }
        ensures noted { Outside D.view (AsksForTable upto buf.old) self.old self.new }
        ensures within { IfOk result (λ n. n ≤ length buf.new) }
        ensures beyond { IfOk result (λ n. drop n buf.new ≡ drop n buf.old) }
        ensures bytes { ReadsFile D.tells (table upto) at buf.new result (outer D.view self.old) }
        ensures no_file { ReadsNoFile D.tells (table upto) result (outer D.view self.old) }

        // The polls that this disk answers itself stay, and the disk within is asked once.
        ensures own { OwnPollsStay self.old self.new }
        ensures once { Inside D.view (AsksForTable upto buf.old) self.old self.new }
    {
        self.log.note_table_read(upto, buf.len());
        self.inner.read_table(upto, at, buf)
    }

    fn put_table(&mut self, upto: u64, bytes: &[u8]) -> Result<(), DiskErr>
        requires { IsTableNumber upto }
        ensures goes_on { Outside D.view GoesOn self.old self.new }
        ensures flights { (outer D.view self.new).in_flight ≡ (outer D.view self.old).in_flight }
        ensures failed { Outside D.view (CountsFailure Primary result) self.old self.new }
        ensures steady { Outside D.view (CountsNoOther Primary result) self.old self.new }
        ensures stalls { Outside D.view StallsStay self.old self.new }
        ensures noted { Outside D.view (NotesPut upto bytes.now result) self.old self.new }
        ensures moments { Outside D.view (Puts D.tells upto bytes.now) self.old self.new }
        ensures put { StandsWhole D.tells (table upto) bytes.now result (outer D.view self.new) }

        // The polls that this disk answers itself stay, and the disk within is asked once.
        ensures own { OwnPollsStay self.old self.new }
        ensures once { Inside D.view (NotesPut upto bytes.now result) self.old self.new }
    {
        let answer = self.inner.put_table(upto, bytes);
        self.log.note_put(upto, bytes, &answer);
        answer
    }

    fn drop_segment(&mut self, side: Side, name: SegName) -> Result<(), DiskErr>
        requires free { IsFree (outer D.view self.old) (segment side name) }
        requires there { IsThere D.tells (segment side name) (outer D.view self.old) }
        ensures goes_on { Outside D.view GoesOn self.old self.new }
        ensures flights { (outer D.view self.new).in_flight ≡ (outer D.view self.old).in_flight }
        ensures failed { Outside D.view (CountsFailure side result) self.old self.new }
        ensures steady { Outside D.view (CountsNoOther side result) self.old self.new }
        ensures stalls { Outside D.view StallsStay self.old self.new }
        ensures noted { Outside D.view (NotesRemoval (segment side name) result) self.old self.new }
        ensures moments { Outside D.view (Drops D.tells side name) self.old self.new }
        ensures gone { IsGone D.tells (segment side name) result (outer D.view self.new) }

        // The polls that this disk answers itself stay, and the disk within is asked once.
        ensures own { OwnPollsStay self.old self.new }
        ensures once { Inside D.view (NotesRemoval (segment side name) result) self.old self.new }
    {
        let answer = self.inner.drop_segment(side, name);
        self.log
            .note_removal(FilePlace::Segment { side, name }, &answer);
        answer
    }

    fn drop_table(&mut self, upto: u64) -> Result<(), DiskErr>
        requires number { IsTableNumber upto }
        requires there { IsThere D.tells (table upto) (outer D.view self.old) }
        ensures goes_on { Outside D.view GoesOn self.old self.new }
        ensures flights { (outer D.view self.new).in_flight ≡ (outer D.view self.old).in_flight }
        ensures failed { Outside D.view (CountsFailure Primary result) self.old self.new }
        ensures steady { Outside D.view (CountsNoOther Primary result) self.old self.new }
        ensures stalls { Outside D.view StallsStay self.old self.new }
        ensures noted { Outside D.view (NotesRemoval (table upto) result) self.old self.new }
        ensures moments { Outside D.view (DropsTable D.tells upto) self.old self.new }
        ensures gone { IsGone D.tells (table upto) result (outer D.view self.new) }

        // The polls that this disk answers itself stay, and the disk within is asked once.
        ensures own { OwnPollsStay self.old self.new }
        ensures once { Inside D.view (NotesRemoval (table upto) result) self.old self.new }
    {
        let answer = self.inner.drop_table(upto);
        self.log.note_removal(FilePlace::Table { upto }, &answer);
        answer
    }
}
