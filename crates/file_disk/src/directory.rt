//! One of the two directories: its faults, its operations in flight, and the file that it holds open.

ghost use Rattle.std.specs.Prelude.{◌≡◌, ◌↔◌, ◌≤◌, ◌^◌, ℕ, None, Some, IfOk, IfSome, IfNone, IsSome, OnOk, OnErr};
ghost use Rattle.wal_base.specs.Faults.{Rose, counted};
ghost use Rattle.file_disk.specs.Flights.{flight_numbered, flight_as, IsTaskOf, HasBytesOf, HasInFlight, HasNoFlight};
ghost use Rattle.file_disk.specs.Flights.{SameFlights, OtherFlightsStay};
ghost use Rattle.file_disk.specs.Held.{IsHeld, HoldsOpen, LetsGo, HoldsTheSame, HoldsAfter};
ghost use Rattle.file_disk.specs.Held.{IsOpen, LeadsTo, FindsItsFile, GrewOpen};

use crate::flights::Flights;
use crate::paths::{PARENT, UNNAMED_TABLE, directory_of, path_of, place_of, side_of};
use crate::system;
use disk_face::{DiskErr, DiskOp, FilePlace, Side};
use std::alloc::Global;
use std::fs::OpenFile;
use std::io::Write;
use std::rt::Files;
use std::{io, mem};
use wal_base::{Buf, NoMemory};

/// The longest room that is kept for the bytes of the next write, in bytes.
const SPARE_ROOM: usize = 1 << 16;

/// How an operation comes to a file that is there.
#[derive(Drop)]
pub enum Target<F> {
    /// It was held open.
    Open(F),
    /// It has to be opened, at this path.
    Path(Buf),
}

impl<F: Write + OpenFile + Drop> Target<F> {
    /// Puts bytes at the end of the file, and answers the file.
    fn append<R: Files<File = F>>(self, rt: &R, bytes: &[u8]) -> io::Result<F>
        ensures grew { IfOk result (λ file. GrewOpen F.contents self file bytes.now) }
    {
        let mut file = match self {
            Target::Open(file) => file,
            Target::Path(path) => system::open(rt, &path)?,
        };
        file.write_all(bytes)?;
        Ok(file)
    }

    /// Syncs the file, and answers it where it was held open.
    fn sync<R: Files<File = F>>(self, rt: &R) -> io::Result<Option<F>>
        ensures held { IfOk result (λ file. IsOpen self ↔ IsSome file) }
    {
        match self {
            Target::Open(file) => {
                file.sync_all()?;
                Ok(Some(file))
            }
            Target::Path(path) => {
                system::sync(rt, &path)?;
                Ok(None)
            }
        }
    }
}

/// What an operation does to its file.
#[derive(Drop)]
pub enum Task<F> {
    /// Makes it, at this path.
    Create(Buf),
    /// Puts these bytes at its end.
    Append(Target<F>, Vec<u8>),
    /// Makes it last.
    Sync(Target<F>),
}

/// An operation in flight.
#[derive(Drop)]
pub struct Started<F> {
    /// Where its file stands.
    pub place: FilePlace,
    /// What it does.
    pub task: Task<F>,
}

/// A segment's file, open for appending.
#[derive(Drop)]
pub struct Handle<F> {
    /// Where it stands.
    pub place: FilePlace,
    /// The file.
    pub file: F,
}

/// A directory of files.
///
/// It holds one file open: that of the segment that was created or written last. An operation on that segment takes
/// the file along, and puts it back once it is done. An operation on an older segment, in flight meanwhile, puts back
/// its own file in place of that: the next operation on the newer segment then opens anew, and that is all.
#[derive(Drop)]
pub struct Directory<F> {
    alloc: Global,
    faults: u64,
    next: u64,
    flights: Flights<Started<F>>,
    held: Option<Handle<F>>,
    /// Room for the bytes of the next write.
    spare: Vec<u8>,
    /// Whether its own name was made to last, in this run.
    is_named: bool,
}

impl<F: Write + OpenFile + Drop> Directory<F> {
    /// It has counted no fault, holds no file open, and nothing is in flight in it.
    pub fn new(alloc: Global) -> Directory<F>
        ensures faults { result.faults ≡ 0 }
        ensures idle { (number : ℕ) → flight_numbered result number ≡ None }
    {
        Directory {
            alloc,
            faults: 0,
            next: 0,
            flights: Flights::new(alloc),
            held: None,
            spare: Vec::new(alloc),
            is_named: false,
        }
    }

    /// Counts a fault. The count stops at 2^64 - 1.
    pub fn raise(&mut self)
        ensures once { self.new.faults ≡ counted self.old.faults }
        ensures rose { Rose self.old.faults self.new.faults }
        ensures later { self.old.faults ≤ self.new.faults }
        ensures flights { SameFlights self.old self.new }
    {
        self.faults = self.faults.saturating_add(1);
    }

    /// Takes the file of that place, where it is the one held open.
    fn take(&mut self, place: FilePlace) -> Option<F>
        ensures its { IfSome result (λ file. IsHeld self.old place file) }
        ensures none { IfNone result (LetsGo self.old place) }
        ensures let_go { LetsGo self.new place }
        ensures faults { self.new.faults ≡ self.old.faults }
        ensures flights { SameFlights self.old self.new }
    {
        match self.held.take() {
            Some(held) if held.place == place => Some(held.file),
            other => {
                self.held = other;
                None
            }
        }
    }

    /// How an operation comes to the file of that place. The path is built where the file is not held open.
    fn target(&mut self, place: FilePlace) -> Result<Target<F>, NoMemory>
        ensures leads { IfOk result (LeadsTo self.old place) }
        ensures faults { self.new.faults ≡ self.old.faults }
        ensures flights { SameFlights self.old self.new }
    {
        match self.take(place) {
            Some(file) => Ok(Target::Open(file)),
            None => Ok(Target::Path(path_of(self.alloc, place)?)),
        }
    }

    /// A copy of the bytes of a write. An earlier write left room for it.
    fn copy_of(&mut self, bytes: &[u8]) -> Result<Vec<u8>, NoMemory>
        ensures copied { IfOk result (λ copy. copy.items ≡ bytes.now) }
        ensures held { HoldsTheSame self.old self.new }
        ensures faults { self.new.faults ≡ self.old.faults }
        ensures flights { SameFlights self.old self.new }
    {
        let mut copy = mem::replace(&mut self.spare, Vec::new(self.alloc));
        copy.clear();
        copy.extend_from_slice(bytes)?;
        Ok(copy)
    }

    /// Keeps the room of bytes that were written, where it is not too long.
    fn keep_room(&mut self, bytes: Vec<u8>)
        ensures held { HoldsTheSame self.old self.new }
        ensures faults { self.new.faults ≡ self.old.faults }
        ensures flights { SameFlights self.old self.new }
    {
        if bytes.capacity() <= SPARE_ROOM {
            self.spare = bytes;
        }
    }

    /// What an operation is to do, with a copy of the bytes of a write.
    fn task(&mut self, op: DiskOp<'_>) -> Result<Started<F>, NoMemory>
        ensures flight { IfOk result (IsTaskOf op.entry) }
        ensures bytes { IfOk result (HasBytesOf op.entry) }
        ensures leads { IfOk result (FindsItsFile self.old) }
        ensures faults { self.new.faults ≡ self.old.faults }
        ensures flights { SameFlights self.old self.new }
    {
        let place = place_of(op);
        let task = match op {
            DiskOp::Create { .. } => Task::Create(path_of(self.alloc, place)?),
            DiskOp::Write { bytes, .. } => {
                let bytes = self.copy_of(bytes)?;
                Task::Append(self.target(place)?, bytes)
            }
            DiskOp::Sync { .. } => Task::Sync(self.target(place)?),
        };
        Ok(Started { place, task })
    }

    /// Puts an operation in flight, and answers its number. After 2^64 operations numbers come again, and one
    /// that is still in flight is refused. After an error nothing was started, and maybe no file is held open.
    pub fn begin(&mut self, op: DiskOp<'_>) -> Result<u64, NoMemory>
        ensures fresh { IfOk result (HasNoFlight self.old) }
        ensures here { IfOk result (HasInFlight op.entry self.new) }
        ensures others { IfOk result (λ number. OtherFlightsStay number self.old self.new) }
        ensures faults { self.new.faults ≡ self.old.faults }
        ensures err { OnErr result (SameFlights self.old self.new) }
    {
        let number = self.next;
        if self.flights.has(number) {
            return Err(NoMemory);
        }
        let started = self.task(op)?;
        self.flights.insert(number, started)?;
        self.next = number.wrapping_add(1);
        Ok(number)
    }

    /// Takes an operation out of flight. `None` exactly where none of that number was in flight.
    pub fn end(&mut self, number: u64) -> Option<Started<F>>
        ensures was { flight_as result ≡ flight_numbered self.old number }
        ensures gone { HasNoFlight self.new number }
        ensures others { OtherFlightsStay number self.old self.new }
        ensures faults { self.new.faults ≡ self.old.faults }
    {
        self.flights.remove(number)
    }

    /// Runs an operation. Once it is done its file is held open; one that was refused has let go of its file.
    pub fn run<R: Files<File = F>>(&mut self, rt: &R, op: Started<F>) -> io::Result<()>
        ensures holds { OnOk result (HoldsAfter self.old self.new op.place op.task) }
        ensures err { OnErr result (HoldsTheSame self.old self.new) }
        ensures faults { self.new.faults ≡ self.old.faults }
        ensures flights { SameFlights self.old self.new }
    {
        let Started { place, task } = op;
        let file = match task {
            Task::Create(path) => Some(self.create(rt, side_of(place), &path)?),
            Task::Append(target, bytes) => {
                let file = target.append(rt, bytes.as_slice())?;
                self.keep_room(bytes);
                Some(file)
            }
            Task::Sync(target) => target.sync(rt)?,
        };
        if let Some(file) = file {
            self.held = Some(Handle { place, file });
        }
        Ok(())
    }

    /// Makes a segment that is not there, and answers its file. Each new name is synced, so that it lasts.
    fn create<R: Files<File = F>>(&mut self, rt: &R, side: Side, path: &Buf) -> io::Result<F>
        ensures held { HoldsTheSame self.old self.new }
        ensures faults { self.new.faults ≡ self.old.faults }
        ensures flights { SameFlights self.old self.new }
    {
        let directory = directory_of(side);
        self.make(rt, directory)?;
        let file = system::create(rt, path)?;
        system::sync_directory(rt, directory)?;
        Ok(file)
    }

    /// Makes the directory where it is absent. Its parent is synced until that was done once: the sync of an
    /// earlier creation, or of an earlier run, may have failed.
    fn make<R: Files<File = F>>(&mut self, rt: &R, directory: &str) -> io::Result<()>
        ensures held { HoldsTheSame self.old self.new }
        ensures faults { self.new.faults ≡ self.old.faults }
        ensures flights { SameFlights self.old self.new }
    {
        if system::make_directory(rt, directory)? {
            self.is_named = false;
        }
        if !self.is_named {
            system::sync_directory(rt, PARENT)?;
            self.is_named = true;
        }
        Ok(())
    }

    /// Puts a table, in place of one of that number. Its directory is made where it is absent, and synced at last.
    pub fn put_table<R: Files<File = F>>(
        &mut self,
        rt: &R,
        upto: u64,
        bytes: &[u8],
    ) -> Result<(), DiskErr>
        ensures held { HoldsTheSame self.old self.new }
        ensures faults { self.new.faults ≡ self.old.faults }
        ensures flights { SameFlights self.old self.new }
    {
        let path = path_of(self.alloc, FilePlace::Table { upto })?;
        let directory = directory_of(Side::Primary);
        self.make(rt, directory).map_err(system::refusal)?;
        system::replace(rt, UNNAMED_TABLE, &path, bytes).map_err(system::refusal)?;
        system::sync_directory(rt, directory).map_err(system::refusal)
    }

    /// Removes a file, which is let go of first, and syncs its directory.
    pub fn remove<R: Files<File = F>>(&mut self, rt: &R, place: FilePlace) -> Result<(), DiskErr>
        ensures let_go { LetsGo self.new place }
        ensures faults { self.new.faults ≡ self.old.faults }
        ensures flights { SameFlights self.old self.new }
    {
        drop(self.take(place));
        let path = path_of(self.alloc, place)?;
        system::remove(rt, &path).map_err(system::refusal)?;
        system::sync_directory(rt, directory_of(side_of(place))).map_err(system::refusal)
    }
}
