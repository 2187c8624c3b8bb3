//! Taking a stream in pieces.

ghost use Rattle.std.specs.Prelude.{All, ◌≡◌, ◌≢◌, ◌+◌, ◌-◌, ◌<◌, ◌≤◌, ◌^◌, [], ◌++◌, false, None, Some, Err, ℕ, ◌∷◌, List, true, IfOk, IfErr, IfSome, OnErr, OnOk, length};
ghost use Rattle.batch_repr.specs.declared.limits.TheConstants.{NUMBER_FIRST, NUMBER_MAX};
ghost use Rattle.batch_repr.specs.Batches.{end_after, IsContiguous};
ghost use Rattle.batch_repr.specs.Building.{HasSpelling};
ghost use Rattle.wal_ship.specs.declared.fault.FollowFault.{FollowFault};
ghost use Rattle.wal_ship.specs.declared.fault.FollowFault.TheVariants as faults;
ghost use Rattle.wal_ship.specs.Following.{next_after, HasTakenBytes, TakesFront};
ghost use Rattle.wal_ship.specs.Taking.{IsTakenRun, IsAtMostWhole, Leads, PassesFrame, TakesBytes};

use crate::fault::FollowFault;
use crate::frame::{Frame, read_frame, wanted};
use crate::stream::MAGIC;
use batch_repr::{Batch, Batches, NUMBER_FIRST};
use segment_merge::KnownBatches;
use std::alloc::Global;
use std::marker::Model;
use wal_base::NoMemory;

/// How far a stream goes.
#[derive(Clone, Copy, Debug, PartialEq, Eq)]
pub(crate) enum Course {
    /// It goes on: its first eight bytes, or frames.
    Open,
    /// Its end mark stands.
    Ended,
    /// Its first fault was met.
    Wrong { fault: FollowFault },
}

/// Takes a stream in pieces, beside batches that are there already.
#[derive(Drop)]
pub struct Follower {
    alloc: Global,
    /// The batches that were there.
    local: KnownBatches,
    /// Those taken behind them.
    taken: KnownBatches,
    /// The bytes of the frame that is not whole yet.
    frame: Vec<u8>,
    /// How many bytes were taken.
    fed: u64,
    course: Course,
}

impl Model for Follower {
    ghost use Rattle.std.specs.Prelude.{◌≡◌, ◌≤◌, ◌++◌, Bool, true, false, Option, Some, None};
    ghost use Rattle.wal_ship.specs.Following.{Following};
    ghost use Rattle.wal_ship.specs.Course.{has_ended, fault_in};
    ghost use Rattle.wal_ship.specs.Taking.{IsTakenRun, IsKeptFrame};

    ghost Value = { Following };

    ghost view = { λ a. record {
      local = a.local.batches;
      taken = a.taken.batches;
      fed = a.fed;
      frame = a.frame.items;
      ended = has_ended a.course;
      fault = fault_in a.course;
    } };

    ghost invariant = { λ a. IsTakenRun a.local.batches a.taken.batches a.taken.next
        × IsKeptFrame a.frame.items a.fed a.course };
}

/// The number behind batches, which are contiguous from the first number on.
fn end_of_all(batches: &[Batch]) -> u64
    requires contiguous { IsContiguous NUMBER_FIRST batches.now }
    requires within { next_after batches.now ≤ NUMBER_MAX }
    ensures { result ≡ next_after batches.now }
{
    match batches.last() {
        Some(batch) => batch.end(),
        None => NUMBER_FIRST,
    }
}

/// Does what the bytes of a frame say that begins at a place. Answers how far the stream goes behind it, and `None` where
/// more of it is wanted.
fn follow_frame(
    alloc: Global,
    at: u64,
    frame: &[u8],
    local: &KnownBatches,
    taken: &mut KnownBatches,
) -> Result<Option<Course>, NoMemory>
    requires run { IsTakenRun local.now.batches taken.old.batches taken.old.next }
    requires whole { IsAtMostWhole frame.now }
    ensures run { IsTakenRun local.now.batches taken.new.batches taken.new.next }
    ensures leads { IfOk result (Leads (local.now.batches ++ taken.old.batches)
        (local.now.batches ++ taken.new.batches) at frame.now) }
    ensures unchanged { OnErr result (taken.new ≡ taken.old) }
{
    match read_frame(alloc, at, frame, local, taken)? {
        Frame::Begun => Ok(None),
        Frame::End => Ok(Some(Course::Ended)),
        Frame::Known => Ok(Some(Course::Open)),
        Frame::New { batch } => {
            taken.push(batch)?;
            Ok(Some(Course::Open))
        }
        Frame::Wrong { fault } => Ok(Some(Course::Wrong { fault })),
    }
}

/// Adds bytes to the frame that begins at a place, no more than it wants, and does what it then says. Answers how far the
/// stream goes. Want of memory leaves all as it was.
fn add_to_frame(
    alloc: Global,
    at: u64,
    more: &[u8],
    frame: &mut Vec<u8>,
    local: &KnownBatches,
    taken: &mut KnownBatches,
) -> Result<Course, NoMemory>
    requires run { IsTakenRun local.now.batches taken.old.batches taken.old.next }
    requires whole { IsAtMostWhole (frame.old.items ++ more.now) }
    ensures run { IsTakenRun local.now.batches taken.new.batches taken.new.next }
    ensures passes { IfOk result (PassesFrame (local.now.batches ++ taken.old.batches)
        (local.now.batches ++ taken.new.batches) at (frame.old.items ++ more.now) frame.new.items) }
    ensures unchanged { OnErr result
        ((frame.new.items ≡ frame.old.items) × (taken.new ≡ taken.old)) }
{
    let kept = frame.len();
    frame.extend_from_slice(more)?;
    match follow_frame(alloc, at, frame.as_slice(), local, taken) {
        Ok(Some(course)) => {
            frame.clear();
            Ok(course)
        }
        Ok(None) => Ok(Course::Open),
        Err(NoMemory) => {
            frame.truncate(kept);
            Err(NoMemory)
        }
    }
}

impl Follower {
    /// Has taken nothing. These batches are there, contiguous from the first number on.
    pub fn new(alloc: Global, local: Batches) -> Follower
        requires contiguous { IsContiguous NUMBER_FIRST local }
        requires within { next_after local ≤ NUMBER_MAX }
        ensures local { result.local ≡ local }
        ensures none { result.taken ≡ [] }
        ensures taken { HasTakenBytes result [] }
    {
        let next = end_of_all(local.as_slice());
        let mut known = KnownBatches::new(alloc, NUMBER_FIRST);
        known.take_over(local, next);
        Follower {
            alloc,
            local: known,
            taken: KnownBatches::new(alloc, next),
            frame: Vec::new(alloc),
            fed: 0,
            course: Course::Open,
        }
    }

    /// The new batches that were taken.
    pub fn taken(&self) -> &Batches
        ensures taken { result.now ≡ self.now.taken }
        ensures contiguous { IsContiguous NUMBER_FIRST (self.now.local ++ result.now) }
        ensures within { next_after (self.now.local ++ result.now) ≤ NUMBER_MAX }
        ensures spelled { All HasSpelling result.now }
    {
        self.taken.batches()
    }

    /// The number that comes next.
    pub fn next(&self) -> u64
        ensures { result ≡ next_after (self.now.local ++ self.now.taken) }
    {
        self.taken.next()
    }

    /// How many bytes were taken.
    pub fn fed(&self) -> u64
        ensures { result ≡ self.now.fed }
    {
        self.fed
    }

    /// Whether the end of the stream was taken.
    pub fn ended(&self) -> bool
        ensures { result ≡ self.now.ended }
    {
        match self.course {
            Course::Ended => true,
            Course::Open | Course::Wrong { .. } => false,
        }
    }

    /// The fault that was met.
    fn fault(&self) -> Option<FollowFault>
        ensures fault { result ≡ self.now.fault }
        ensures other { IfSome result (λ fault. fault ≢ faults.NoMemory) }
    {
        match self.course {
            Course::Wrong { fault } => Some(fault),
            Course::Open | Course::Ended => None,
        }
    }

    /// Takes a byte behind the end.
    fn take_past_end(&mut self)
        requires ended { self.old.ended ≡ true }
        requires room { self.old.fed + 1 < 2 ^ 64 }
        ensures { (byte : ℕ) (piece : List ℕ) → TakesBytes self.old self.new (byte ∷ piece) 1 }
    {
        let fault = FollowFault::After { at: self.fed };
        self.course = Course::Wrong { fault };
        self.fed += 1;
    }

    /// Takes one byte of the first eight.
    fn take_of_magic(&mut self, byte: u8)
        requires live { self.old.ended ≡ false }
        requires right { self.old.fault ≡ None }
        requires early { self.old.fed < 8 }
        ensures { (piece : List ℕ) → TakesBytes self.old self.new (byte ∷ piece) 1 }
    {
        let at = self.fed;
        if byte != MAGIC[at as usize] {
            self.course = Course::Wrong {
                fault: FollowFault::Magic { at },
            };
        }
        self.fed = at + 1;
    }

    /// Takes bytes of a frame, at most as many as it wants, and answers how many.
    fn take_of_frame(&mut self, piece: &[u8]) -> Result<usize, NoMemory>
        requires live { self.old.ended ≡ false }
        requires right { self.old.fault ≡ None }
        requires late { 8 ≤ self.old.fed }
        requires some { 0 < length piece.now }
        requires room { self.old.fed + length piece.now < 2 ^ 64 }
        ensures takes { IfOk result (TakesBytes self.old self.new piece.now) }
        ensures unchanged { OnErr result (self.new ≡ self.old) }
    {
        let at = self.fed - self.frame.len() as u64;
        let count = wanted(self.frame.as_slice()).min(piece.len());
        self.course = add_to_frame(
            self.alloc,
            at,
            &piece[..count],
            &mut self.frame,
            &self.local,
            &mut self.taken,
        )?;
        self.fed += count as u64;
        Ok(count)
    }

    /// Takes bytes from the front of a piece that is not empty, and answers how many.
    fn take_some(&mut self, piece: &[u8]) -> Result<usize, NoMemory>
        requires right { self.old.fault ≡ None }
        requires some { 0 < length piece.now }
        requires room { self.old.fed + length piece.now < 2 ^ 64 }
        ensures takes { IfOk result (TakesBytes self.old self.new piece.now) }
        ensures unchanged { OnErr result (self.new ≡ self.old) }
    {
        if self.ended() {
            self.take_past_end();
            return Ok(1);
        }
        if self.fed() < MAGIC.len() as u64 {
            self.take_of_magic(piece[0]);
            return Ok(1);
        }
        self.take_of_frame(piece)
    }

    /// Takes a piece of the stream. After a fault it takes nothing more, and answers the same; but after want of memory the
    /// bytes up to `fed` are taken, and feeding goes on from there.
    pub fn feed(&mut self, piece: &[u8]) -> Result<(), FollowFault>
        requires { self.old.fed + length piece.now < 2 ^ 64 }
        ensures local { self.new.local ≡ self.old.local }
        ensures counted { (self.old.fed ≤ self.new.fed)
            × (self.new.fed ≤ self.old.fed + length piece.now) }
        ensures takes { TakesFront self.old self.new piece.now (self.new.fed - self.old.fed) }
        ensures whole { OnOk result
            ((self.new.fed ≡ self.old.fed + length piece.now) × (self.new.fault ≡ None)) }
        ensures fault { IfErr result (λ fault.
            fault ≢ faults.NoMemory → self.new.fault ≡ Some fault) }
        ensures memory { IfErr result (λ fault.
            fault ≡ faults.NoMemory → self.new.fault ≡ None) }
        ensures lasts { (fault : FollowFault) → self.old.fault ≡ Some fault
            → (result ≡ Err fault) × (self.new ≡ self.old) }
    {
        let mut rest = piece;
        while !rest.is_empty() && self.fault().is_none() {
            let count = self.take_some(rest)?;
            rest = &rest[count..];
        }
        match self.fault() {
            Some(fault) => Err(fault),
            None => Ok(()),
        }
    }
}
