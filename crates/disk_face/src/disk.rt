//! What a disk does, and what it means to contracts: one view, `DiskView`.

ghost use Rattle.std.specs.Prelude.{◌≡◌, ◌≤◌, ℕ, Bool, length, drop, IfOk, OnErr, IsSome, IsTrue, Some};
ghost use Rattle.disk_face.specs.View.{DiskView, Place, segment, File, files, was_polled, IsFree, IsFiniteFiles};
ghost use Rattle.disk_face.specs.Image.{IsSound};
ghost use Rattle.disk_face.specs.Listing.{IsAscending, AreSegmentNames};
ghost use Rattle.disk_face.specs.Answers.{CountsFailure, CountsNoOther, NotesListing, AsksFor, NotesStart, ListsFiles, ReadsSegment, ReadsNoFile, MayStartOn, IsStarted, SendsIfStarted};
ghost use Rattle.disk_face.specs.Calls.{place_of, GoesOn, SameDisk, StallsStay, FaultsStayBut, StallsStayBut, Notes, Polled, Stalls};

use crate::{DiskErr, DiskOp, Names, OpId, Progress, SegName, Side};
use wal_base::NoMemory;

/// Two directories of segments. Reads are done in the call; what changes a file is started and polled. Each call is
/// noted in what the disk means, but a start that is refused.
pub trait Disk {
    /// Whether the disk tells its files. Clauses on files hold where it does.
    ghost tells: { Bool };

    /// What it means.
    ghost view: { Self → DiskView };

    /// The created segments of one side, in ascending order, each with its length in bytes. Files of other names
    /// are passed over. `Failed` comes only where that side counted a fault in this call.
    fn list(&mut self, side: Side) -> Result<Names, DiskErr>
        ensures goes_on { GoesOn (view self.old) (view self.new) }
        ensures same { SameDisk (view self.old) (view self.new) }
        ensures failed { CountsFailure side result (view self.old) (view self.new) }
        ensures steady { CountsNoOther side result (view self.old) (view self.new) }
        ensures stalls { StallsStay (view self.old) (view self.new) }
        ensures noted { NotesListing side result (view self.old) (view self.new) }
        ensures ascending { IfOk result IsAscending }
        ensures numbers { IfOk result AreSegmentNames }
        ensures names { ListsFiles tells side result (view self.old) };

    /// Reads from a place of a file, counted from 0, into the front of the buffer, and answers how many bytes it
    /// read: 0 at the end, and 0 where no file is. `Failed` comes only where that side counted a fault in this
    /// call. After an error the buffer may hold anything.
    fn read(&mut self, side: Side, name: SegName, at: u64, buf: &mut [u8]) -> Result<usize, DiskErr>
        ensures goes_on { GoesOn (view self.old) (view self.new) }
        ensures same { SameDisk (view self.old) (view self.new) }
        ensures failed { CountsFailure side result (view self.old) (view self.new) }
        ensures steady { CountsNoOther side result (view self.old) (view self.new) }
        ensures stalls { StallsStay (view self.old) (view self.new) }
        ensures noted { AsksFor side name buf.old (view self.old) (view self.new) }
        ensures within { IfOk result (λ n. n ≤ length buf.new) }
        ensures beyond { IfOk result (λ n. drop n buf.new ≡ drop n buf.old) }
        ensures bytes { ReadsSegment tells side name at buf.new result (view self.old) }
        ensures no_file { ReadsNoFile tells (segment side name) result (view self.old) };

    /// Puts an operation in flight. It waits for nothing, and counts no fault. After an error nothing was started.
    fn start(&mut self, op: DiskOp<'_>) -> Result<OpId, NoMemory>
        requires free { IsFree (view self.old) (place_of op) }
        requires may { IsTrue tells → MayStartOn op (view self.old) }
        ensures goes_on { GoesOn (view self.old) (view self.new) }
        ensures starts { IsStarted op.entry result (view self.old) (view self.new) }
        ensures file { SendsIfStarted tells op.entry result (view self.old) (view self.new) }
        ensures stalls { StallsStay (view self.old) (view self.new) }
        ensures noted { NotesStart op.entry result (view self.old) (view self.new) }
        ensures err { OnErr result (view self.new ≡ view self.old) };

    /// Asks how an operation in flight stands. `Done` and `Failed` end it; `Failed` comes only where its side
    /// counted a fault in this call, and `Pending` only where the polls left on its side fell.
    fn poll(&mut self, id: OpId) -> Progress
        requires { IsSome ((view self.old).in_flight id) }
        ensures goes_on { GoesOn (view self.old) (view self.new) }
        ensures steady { FaultsStayBut id result (view self.old) (view self.new) }
        ensures stalls { StallsStayBut id result (view self.old) (view self.new) }
        ensures noted { Notes (was_polled id result) (view self.old) (view self.new) }
        ensures polled { Polled tells id (view self.old) (view self.new) result };

    /// At each moment no more than the places of some list have a file.
    ghost finite: { (d : Self) (k : ℕ) → IsTrue tells → k ≤ (view d).clock → IsFiniteFiles ((view d).history k) };

    /// Its files are sound.
    ghost sound: { (d : Self) (p : Place) (f : File) → IsTrue tells → files (view d) p ≡ Some f → IsSound p f };
}

/// A disk whose operations can be stalled.
pub trait StallDisk: Disk {
    /// So many more polls of a side may be answered `Pending`. Their number stops at 2^64 - 1.
    fn stall(&mut self, side: Side, polls: u32)
        ensures { Stalls side polls (Self.view self.old) (Self.view self.new) };
}
