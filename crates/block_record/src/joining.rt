//! What was read of a segment so far, as places in its bytes. The fragments of a record are joined where they stand.

ghost use Rattle.std.specs.Prelude.{◌≡◌, ◌+◌, ◌-◌, ◌≤◌, ◌++◌, length, map, IfOk, OnOk};
ghost use Rattle.std.specs.List.{All};
ghost use Rattle.crc_chunk.specs.Chunk.{header_with};
ghost use Rattle.block_record.specs.ReadOut.{nothing};
ghost use Rattle.block_record.specs.Promises.{spelled_begun, spelled_more, spelled_with, spelled_to};
ghost use Rattle.block_record.specs.Joined.{rec_in, rec_after, AreApart, StandsBetween, SameAfter};

use crate::records::{ReadOut, Rec, Records, Shown};
use crc_chunk::ChunkKind;
use std::alloc::Global;
use std::marker::Model;
use wal_base::{Blob, NoMemory};

/// A chunk that stands in a segment.
#[derive(Clone, Copy)]
pub struct Found {
    /// Which part of a record it holds.
    pub kind: ChunkKind,
    /// Its sync offset, if it is a sync chunk.
    pub offset: Option<u64>,
    /// The place of its header.
    pub at: usize,
    /// The place of its payload.
    pub from: usize,
    /// The place after it.
    pub end: usize,
}

/// Where the bytes of a record stand in its segment.
#[derive(Clone, Copy)]
struct Place {
    /// The place of its first chunk.
    at: usize,
    /// The place of its first byte.
    from: usize,
    /// The place after its last byte.
    to: usize,
}

/// A segment as far as it was read: whole records, and what there is of the one that is open.
///
/// No byte after that one is changed.
#[derive(Drop)]
pub struct Joining {
    bytes: Vec<u8>,
    whole: Vec<Place>,
    ends_at: usize,
    rest: Place,
}

impl Model for Joining {
    ghost use Rattle.block_record.specs.Joined.{Joined, joined_at, IsApart};

    ghost Value = { Joined };

    ghost view = { λ a. joined_at a.bytes.items a.whole.items a.ends_at a.rest };

    ghost invariant = { λ a. IsApart a.bytes.items a.whole.items a.rest };
}

/// How long a piece of a segment is that records share, where the segment is that long. A piece stays in memory until
/// the last of its records is dropped, so it is small beside a segment; each costs a cut, so it is not smaller.
const PIECE: usize = 1 << 20;

/// How many pieces are cut off a segment at most: a longer segment has longer pieces. Each is cut off in a call within
/// the call for the one after it, so this bounds the stack.
const PIECES: usize = 256;

/// The first record of the last piece: the last record that has `size` bytes from its front on, or the first.
fn last_piece(places: &[Place], end: usize, size: usize) -> usize
    ensures { result ≤ length places.now - 1 }
{
    places
        .iter()
        .rposition(|place| end.saturating_sub(place.from) >= size)
        .unwrap_or(0)
}

/// Adds the records that stand at these places, as parts of the piece of the segment that was cut off there.
fn add_parts(
    piece: &Blob,
    cut: usize,
    places: &[Place],
    records: &mut Records,
) -> Result<(), NoMemory>
    requires { All (StandsBetween cut (cut + length piece.now)) places.now }
    ensures { OnOk result (records.new ≡ records.old ++ map (rec_after cut piece.now) places.now) }
{
    for place in places {
        let bytes = piece.part(place.from - cut, place.to - cut)?;
        let at = place.at as u64;
        if records.push(Rec { at, bytes }).is_err() {
            return Err(NoMemory);
        }
    }
    Ok(())
}

/// Adds the records that stand at these places of a segment, as parts of pieces of it.
///
/// The pieces are cut off from the back, and what is left gives back the memory of each before the next is cut off: so
/// no more than a piece is held twice.
fn add_shared(
    alloc: Global,
    bytes: Vec<u8>,
    places: &[Place],
    size: usize,
    records: &mut Records,
) -> Result<(), NoMemory>
    requires { AreApart 0 (length bytes.items) places.now }
    ensures { OnOk result (records.new ≡ records.old ++ map (rec_in bytes.items) places.now) }
{
    let mut front = bytes;
    let first = last_piece(places, front.len(), size);
    if first == 0 {
        let piece = Blob::of_vec(alloc, front)?;
        return add_parts(&piece, 0, places, records);
    }
    let cut = places[first].from;
    let tail = front.split_off(cut)?;
    front.shrink_to_fit();
    add_shared(alloc, front, &places[..first], size, records)?;
    let piece = Blob::of_vec(alloc, tail)?;
    add_parts(&piece, cut, &places[first..], records)
}

impl Joining {
    /// Nothing was read yet.
    pub fn new(alloc: Global, bytes: Vec<u8>) -> Joining
        ensures { result ≡ record { bytes = bytes.items; spelled = nothing; reach = 0 } }
    {
        Joining {
            bytes,
            whole: Vec::new(alloc),
            ends_at: 0,
            rest: Place {
                at: 0,
                from: 0,
                to: 0,
            },
        }
    }

    /// Shows the segment's bytes as they are now.
    pub fn bytes(&self) -> &[u8]
        ensures { result.now ≡ self.now.bytes }
    {
        self.bytes.as_slice()
    }

    /// Begins a record with the chunk that stands at this place, and whose payload stands between the others.
    fn begin(&mut self, at: usize, from: usize, end: usize)
        requires order { from ≤ end }
        requires within { end ≤ length self.old.bytes }
        requires behind { self.old.reach ≤ from }
        ensures bytes { self.new.bytes ≡ self.old.bytes }
        ensures reach { self.new.reach ≡ end }
        ensures spelled { self.new.spelled ≡ spelled_begun at from end self.old }
    {
        self.rest = Place { at, from, to: end };
    }

    /// Adds the fragment that stands between these places: it is moved right after those before it.
    fn extend(&mut self, from: usize, end: usize)
        requires order { from ≤ end }
        requires within { end ≤ length self.old.bytes }
        requires behind { self.old.reach ≤ from }
        ensures bytes { SameAfter end self.old.bytes self.new.bytes }
        ensures reach { self.new.reach ≤ end }
        ensures spelled { self.new.spelled ≡ spelled_more from end self.old }
    {
        self.bytes.copy_within(from..end, self.rest.to);
        self.rest.to += end - from;
    }

    /// Ends the record that is open, at this place.
    fn end(&mut self, end: usize) -> Result<(), NoMemory>
        requires within { end ≤ length self.old.bytes }
        requires behind { self.old.reach ≤ end }
        ensures bytes { OnOk result (self.new.bytes ≡ self.old.bytes) }
        ensures reach { OnOk result (self.new.reach ≡ end) }
        ensures spelled { OnOk result (self.new.spelled ≡ spelled_to end self.old) }
    {
        self.whole.push(self.rest)?;
        self.ends_at = end;
        self.rest = Place {
            at: 0,
            from: end,
            to: end,
        };
        Ok(())
    }

    /// Takes one chunk more, as it was found.
    pub fn take(&mut self, found: Found) -> Result<(), NoMemory>
        requires header { found.from ≡ found.at + header_with found.offset }
        requires order { found.from ≤ found.end }
        requires within { found.end ≤ length self.old.bytes }
        requires behind { self.old.reach ≤ found.at }
        ensures bytes { OnOk result (SameAfter found.end self.old.bytes self.new.bytes) }
        ensures reach { OnOk result (self.new.reach ≤ found.end) }
        ensures spelled { OnOk result (self.new.spelled ≡ spelled_with found self.old) }
    {
        let Found {
            kind,
            at,
            from,
            end,
            ..
        } = found;
        match kind {
            ChunkKind::Full => {
                self.begin(at, from, end);
                self.end(end)
            }
            ChunkKind::First => {
                self.begin(at, from, end);
                Ok(())
            }
            ChunkKind::Middle => {
                self.extend(from, end);
                Ok(())
            }
            ChunkKind::Last => {
                self.extend(from, end);
                self.end(end)
            }
        }
    }

    /// Gives the whole records, which share the segment's bytes a piece at a time.
    pub fn into_read_out(
        self,
        alloc: Global,
        torn: bool,
        shown: Option<Shown>,
    ) -> Result<ReadOut, NoMemory>
        ensures records { IfOk result (λ out. out.records ≡ self.spelled.records) }
        ensures ends_at { IfOk result (λ out. out.ends_at ≡ self.spelled.ends_at) }
        ensures torn { IfOk result (λ out. out.torn ≡ torn) }
        ensures shown { IfOk result (λ out. out.shown ≡ shown) }
    {
        let Joining {
            mut bytes,
            whole,
            ends_at,
            rest,
        } = self;
        bytes.truncate(rest.from);
        bytes.shrink_to_fit();
        let size = PIECE.max(bytes.len() / PIECES);
        let mut records = Records::with_capacity(alloc, whole.len())?;
        add_shared(alloc, bytes, &whole, size, &mut records)?;
        Ok(ReadOut {
            records,
            ends_at: ends_at as u64,
            torn,
            shown,
        })
    }
}
