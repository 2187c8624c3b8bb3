//! A disk that keeps tables too, and removes files. It means what a disk means, by the same view.

ghost use Rattle.std.specs.Prelude.{◌≡◌, ◌≤◌, length, drop, IfOk};
ghost use Rattle.disk_face.specs.declared.Side.TheVariants.{Primary};
ghost use Rattle.disk_face.specs.View.{segment, table, IsFree};
ghost use Rattle.disk_face.specs.Listing.{AreTablesAscending, AreTableNumbers, IsTableNumber};
ghost use Rattle.disk_face.specs.Calls.{GoesOn, SameDisk, StallsStay};
ghost use Rattle.disk_face.specs.Answers.{CountsFailure, CountsNoOther, ReadsFile, ReadsNoFile};
ghost use Rattle.disk_face.specs.Tables.{NotesTables, AsksForTable, NotesPut, NotesRemoval, ListsTables, Puts, Drops, DropsTable, StandsWhole, IsGone, IsThere};

use crate::{Disk, DiskErr, SegName, Side, TableNames};

/// A disk with tables in its primary directory. A table is put whole and never written to, so no operation is
/// ever in flight on one. `Failed` comes only where the side of the call counted a fault in it: the primary side
/// for tables. No call here changes an operation in flight.
pub trait TableDisk: Disk {
    /// The tables in ascending order, each with its length in bytes.
    fn tables(&mut self) -> Result<TableNames, DiskErr>
        ensures goes_on { GoesOn (Self.view self.old) (Self.view self.new) }
        ensures same { SameDisk (Self.view self.old) (Self.view self.new) }
        ensures failed { CountsFailure Primary result (Self.view self.old) (Self.view self.new) }
        ensures steady { CountsNoOther Primary result (Self.view self.old) (Self.view self.new) }
        ensures stalls { StallsStay (Self.view self.old) (Self.view self.new) }
        ensures noted { NotesTables result (Self.view self.old) (Self.view self.new) }
        ensures ascending { IfOk result AreTablesAscending }
        ensures numbers { IfOk result AreTableNumbers }
        ensures tables { ListsTables Self.tells result (Self.view self.old) };

    /// Reads from a place of a table, counted from 0, into the front of the buffer, and answers how many bytes it
    /// read: 0 at the end, and 0 where no table is. After an error the buffer may hold anything.
    fn read_table(&mut self, upto: u64, at: u64, buf: &mut [u8]) -> Result<usize, DiskErr>
        requires { IsTableNumber upto }
        ensures goes_on { GoesOn (Self.view self.old) (Self.view self.new) }
        ensures same { SameDisk (Self.view self.old) (Self.view self.new) }
        ensures failed { CountsFailure Primary result (Self.view self.old) (Self.view self.new) }
        ensures steady { CountsNoOther Primary result (Self.view self.old) (Self.view self.new) }
        ensures stalls { StallsStay (Self.view self.old) (Self.view self.new) }
        ensures noted { AsksForTable upto buf.old (Self.view self.old) (Self.view self.new) }
        ensures within { IfOk result (λ n. n ≤ length buf.new) }
        ensures beyond { IfOk result (λ n. drop n buf.new ≡ drop n buf.old) }
        ensures bytes { ReadsFile Self.tells (table upto) at buf.new result (Self.view self.old) }
        ensures no_file { ReadsNoFile Self.tells (table upto) result (Self.view self.old) };

    /// Puts a table, in place of one of that number. After `Ok` it stands whole whatever a crash leaves; until
    /// then, and after an error, a crash may leave it absent or with any bytes.
    fn put_table(&mut self, upto: u64, bytes: &[u8]) -> Result<(), DiskErr>
        requires { IsTableNumber upto }
        ensures goes_on { GoesOn (Self.view self.old) (Self.view self.new) }
        ensures flights { (Self.view self.new).in_flight ≡ (Self.view self.old).in_flight }
        ensures failed { CountsFailure Primary result (Self.view self.old) (Self.view self.new) }
        ensures steady { CountsNoOther Primary result (Self.view self.old) (Self.view self.new) }
        ensures stalls { StallsStay (Self.view self.old) (Self.view self.new) }
        ensures noted { NotesPut upto bytes.now result (Self.view self.old) (Self.view self.new) }
        ensures moments { Puts Self.tells upto bytes.now (Self.view self.old) (Self.view self.new) }
        ensures put { StandsWhole Self.tells (table upto) bytes.now result (Self.view self.new) };

    /// Removes a segment that is there and on which no operation is in flight. After `Ok` it is gone whatever a
    /// crash leaves; until then, and after an error, a crash may leave it as it was or absent.
    fn drop_segment(&mut self, side: Side, name: SegName) -> Result<(), DiskErr>
        requires free { IsFree (Self.view self.old) (segment side name) }
        requires there { IsThere Self.tells (segment side name) (Self.view self.old) }
        ensures goes_on { GoesOn (Self.view self.old) (Self.view self.new) }
        ensures flights { (Self.view self.new).in_flight ≡ (Self.view self.old).in_flight }
        ensures failed { CountsFailure side result (Self.view self.old) (Self.view self.new) }
        ensures steady { CountsNoOther side result (Self.view self.old) (Self.view self.new) }
        ensures stalls { StallsStay (Self.view self.old) (Self.view self.new) }
        ensures noted { NotesRemoval (segment side name) result (Self.view self.old) (Self.view self.new) }
        ensures moments { Drops Self.tells side name (Self.view self.old) (Self.view self.new) }
        ensures gone { IsGone Self.tells (segment side name) result (Self.view self.new) };

    /// Removes a table that is there. After `Ok` it is gone whatever a crash leaves; until then, and after an
    /// error, a crash may leave it as it was or absent.
    fn drop_table(&mut self, upto: u64) -> Result<(), DiskErr>
        requires number { IsTableNumber upto }
        requires there { IsThere Self.tells (table upto) (Self.view self.old) }
        ensures goes_on { GoesOn (Self.view self.old) (Self.view self.new) }
        ensures flights { (Self.view self.new).in_flight ≡ (Self.view self.old).in_flight }
        ensures failed { CountsFailure Primary result (Self.view self.old) (Self.view self.new) }
        ensures steady { CountsNoOther Primary result (Self.view self.old) (Self.view self.new) }
        ensures stalls { StallsStay (Self.view self.old) (Self.view self.new) }
        ensures noted { NotesRemoval (table upto) result (Self.view self.old) (Self.view self.new) }
        ensures moments { DropsTable Self.tells upto (Self.view self.old) (Self.view self.new) }
        ensures gone { IsGone Self.tells (table upto) result (Self.view self.new) };
}
