ghost use Rattle.std.specs.Prelude.{◌≤◌, ◌<◌, All, length};
ghost use Rattle.batch_repr.specs.declared.limits.TheConstants.{NUMBER_FIRST, NUMBER_MAX};
ghost use Rattle.batch_repr.specs.Batches.{IsContiguous};
ghost use Rattle.batch_repr.specs.Building.{HasSpelling};
ghost use Rattle.wal_ship.specs.Following.{next_after};

use crate::{FollowFault, Follower, put_stream};
use batch_repr::{Batch, BatchFault, Batches, NUMBER_FIRST, NUMBER_MAX, decode};
use crc_chunk::{crc32c, masked};
use std::alloc::Global;
use std::process::Abort;
use wal_base::Buf;

/// `set acct/1 90 ; set acct/2 110 ; note t7`, from number 10 on.
const FIRST: &[u8] =
    b"\x0a\0\0\0\0\0\0\0\x02\0\0\0\x01\x06acct/1\x0290\x01\x06acct/2\x03110\x03\x02t7";

/// `del acct/1`, which comes next.
const SECOND: &[u8] = b"\x0c\0\0\0\0\0\0\0\x01\0\0\0\x00\x06acct/1";

/// `note x`, under a number that takes no part.
const NOTE: &[u8] = b"\x63\0\0\0\0\0\0\0\0\0\0\0\x03\x01x";

/// `set a 1`, of number 10.
const OTHER: &[u8] = b"\x0a\0\0\0\0\0\0\0\x01\0\0\0\x01\x01a\x011";

/// `set a 1`, of number 15.
const LATE: &[u8] = b"\x0f\0\0\0\0\0\0\0\x01\0\0\0\x01\x01a\x011";

fn batch(rt: &impl Abort, alloc: Global, text: &[u8]) -> Batch
    ensures { HasSpelling result }
{
    match decode(alloc, text) {
        Ok(batch) => batch,
        Err(_) => panic!(rt; "no batch"),
    }
}

fn batches(rt: &impl Abort, alloc: Global, texts: &[&[u8]]) -> Batches
    ensures { All HasSpelling result }
{
    let mut batches = Batches::new(alloc);
    for text in texts {
        let added = batches.push(batch(rt, alloc, text));
        assert!(rt; added.is_ok());
    }
    batches
}

fn stream(rt: &impl Abort, alloc: Global, texts: &[&[u8]]) -> Buf {
    let mut out = Buf::new(alloc).expect(rt, "memory");
    put_stream(alloc, &mut out, &batches(rt, alloc, texts)).expect(rt, "memory");
    out
}

/// The batches are contiguous from the first number on, and end within the numbers.
fn see_run(rt: &impl Abort, batches: &[Batch])
    ensures contiguous { IsContiguous NUMBER_FIRST batches.now }
    ensures within { next_after batches.now ≤ NUMBER_MAX }
{
    let mut next = NUMBER_FIRST;
    for batch in batches {
        let count = batch.count();
        assert!(rt; batch.first == next);
        assert!(rt; 0 < count);
        assert!(rt; count <= NUMBER_MAX);
        assert!(rt; next <= NUMBER_MAX - count);
        next += count;
    }
}

fn feed(rt: &impl Abort, follower: &mut Follower, piece: &[u8]) -> Result<(), FollowFault> {
    assert!(rt; follower.fed() < 1 << 32 && piece.len() < 1 << 32);
    follower.feed(piece)
}

/// Feeds the bytes in pieces of one size, and answers the last answer and the follower.
fn fed(
    rt: &impl Abort,
    alloc: Global,
    local: Batches,
    bytes: &[u8],
    size: usize,
) -> (Result<(), FollowFault>, Follower)
    requires { 0 < size }
{
    see_run(rt, local.as_slice());
    let mut follower = Follower::new(alloc, local);
    let mut answer = Ok(());
    for piece in bytes.chunks(size) {
        answer = feed(rt, &mut follower, piece);
        if answer.is_err() {
            assert_eq!(rt; feed(rt, &mut follower, b"more"), answer);
            assert_eq!(rt; feed(rt, &mut follower, b""), answer);
            return (answer, follower);
        }
    }
    (answer, follower)
}

/// So many bytes of the front.
fn front<'a>(rt: &impl Abort, bytes: &'a [u8], count: usize) -> &'a [u8] {
    assert!(rt; count <= bytes.len());
    &bytes[..count]
}

/// However the bytes are cut, this is the answer, so many batches are taken, and the stream ended or not.
fn gives(
    rt: &impl Abort,
    alloc: Global,
    bytes: &[u8],
    wanted: Result<(), FollowFault>,
    taken: usize,
    ended: bool,
) {
    for size in 1..=bytes.len() {
        let (answer, follower) = fed(rt, alloc, Batches::new(alloc), bytes, size);
        assert_eq!(rt; answer, wanted);
        assert_eq!(rt; follower.taken().len(), taken);
        assert_eq!(rt; follower.ended(), ended);
    }
}

/// The bytes with another one at a place.
fn with_byte(rt: &impl Abort, alloc: Global, bytes: &[u8], at: usize, byte: u8) -> Buf {
    assert!(rt; at < bytes.len());
    let mut out = Buf::new(alloc).expect(rt, "memory");
    out.append(&bytes[..at]).expect(rt, "memory");
    out.append(&[byte]).expect(rt, "memory");
    out.append(&bytes[at + 1..]).expect(rt, "memory");
    out
}

/// A stream of one frame that holds this text, without an end mark.
fn framed(rt: &impl Abort, alloc: Global, text: &[u8]) -> Buf {
    let len = u32::try_from(text.len()).expect(rt, "a length");
    let mut out = Buf::new(alloc).expect(rt, "memory");
    out.append(b"PBWSHIP1").expect(rt, "memory");
    out.append(&len.to_le_bytes()).expect(rt, "memory");
    out.append(&masked(crc32c(text)).to_le_bytes())
        .expect(rt, "memory");
    out.append(text).expect(rt, "memory");
    out
}

#[test]
fn a_stream_has_its_bytes(rt: HostRuntime) {
    let alloc = rt.alloc();
    let out = stream(&rt, alloc, &[FIRST, SECOND]);
    let bytes = out.as_slice();
    assert_eq!(&rt; bytes.len(), 91);
    assert_eq!(&rt; &bytes[..8], b"PBWSHIP1".as_slice());
    assert_eq!(&rt; &bytes[8..12], [39u8, 0, 0, 0].as_slice());
    assert_eq!(&rt; &bytes[16..55], FIRST);
    assert_eq!(&rt; &bytes[63..83], SECOND);
    assert_eq!(&rt;
        &bytes[83..],
        [0u8, 0, 0, 0, 0xd8, 0xea, 0x82, 0xa2].as_slice()
    );
    let none = stream(&rt, alloc, &[]);
    assert_eq!(&rt; none.as_slice().len(), 16);
}

#[test]
fn a_stream_is_taken_however_it_is_cut(rt: HostRuntime) {
    let alloc = rt.alloc();
    let out = stream(&rt, alloc, &[FIRST, SECOND]);
    let bytes = out.as_slice();
    gives(&rt, alloc, bytes, Ok(()), 2, true);
    gives(&rt, alloc, front(&rt, bytes, 60), Ok(()), 1, false);
    gives(&rt, alloc, front(&rt, bytes, 54), Ok(()), 0, false);
    gives(&rt, alloc, front(&rt, bytes, 55), Ok(()), 1, false);
    gives(&rt, alloc, front(&rt, bytes, 5), Ok(()), 0, false);
    let (_, follower) = fed(&rt, alloc, Batches::new(alloc), bytes, 7);
    assert_eq!(&rt; follower.fed(), 91);
    assert_eq!(&rt; follower.next(), 13);
}

#[test]
fn each_fault_has_its_place(rt: HostRuntime) {
    let alloc = rt.alloc();
    let out = stream(&rt, alloc, &[FIRST, SECOND]);
    let whole = out.as_slice();
    let magic = with_byte(&rt, alloc, whole, 3, b'x');
    gives(
        &rt,
        alloc,
        magic.as_slice(),
        Err(FollowFault::Magic { at: 3 }),
        0,
        false,
    );
    let length = with_byte(&rt, alloc, whole, 58, 1);
    let bytes = length.as_slice();
    let wrong = FollowFault::Length {
        at: 55,
        len: 0x0100_0014,
    };
    gives(&rt, alloc, bytes, Err(wrong), 1, false);
    gives(&rt, alloc, front(&rt, bytes, 59), Err(wrong), 1, false);
    gives(&rt, alloc, front(&rt, bytes, 58), Ok(()), 1, false);
    let sum = with_byte(&rt, alloc, whole, 82, b'2');
    let bytes = sum.as_slice();
    gives(
        &rt,
        alloc,
        bytes,
        Err(FollowFault::Sum { at: 55 }),
        1,
        false,
    );
    gives(&rt, alloc, front(&rt, bytes, 82), Ok(()), 1, false);
    let mark = with_byte(&rt, alloc, whole, 90, 0);
    gives(
        &rt,
        alloc,
        mark.as_slice(),
        Err(FollowFault::Sum { at: 83 }),
        2,
        false,
    );
    let mut after = Buf::new(alloc).expect(&rt, "memory");
    after.append(whole).expect(&rt, "memory");
    after.append(b"x").expect(&rt, "memory");
    gives(
        &rt,
        alloc,
        after.as_slice(),
        Err(FollowFault::After { at: 91 }),
        2,
        false,
    );
}

#[test]
fn a_text_that_is_no_batch_is_told(rt: HostRuntime) {
    let alloc = rt.alloc();
    let short = framed(&rt, alloc, b"x");
    let fault = BatchFault::ShortHeader;
    gives(
        &rt,
        alloc,
        short.as_slice(),
        Err(FollowFault::Batch { at: 8, fault }),
        0,
        false,
    );
}

#[test]
fn batches_are_judged_by_those_before(rt: HostRuntime) {
    let alloc = rt.alloc();
    let unnumbered = stream(&rt, alloc, &[NOTE]);
    gives(&rt, alloc, unnumbered.as_slice(), Ok(()), 0, true);
    let late = stream(&rt, alloc, &[LATE]);
    let gap = FollowFault::Gap {
        at: 8,
        expected: 10,
        found: 15,
    };
    gives(&rt, alloc, late.as_slice(), Err(gap), 0, false);
    let twice = stream(&rt, alloc, &[FIRST, SECOND, FIRST]);
    gives(&rt, alloc, twice.as_slice(), Ok(()), 2, true);
    let other = stream(&rt, alloc, &[FIRST, OTHER]);
    let conflict = FollowFault::Conflict { at: 55, first: 10 };
    gives(&rt, alloc, other.as_slice(), Err(conflict), 1, false);
}

#[test]
fn batches_that_were_there_are_passed_over(rt: HostRuntime) {
    let alloc = rt.alloc();
    let whole = stream(&rt, alloc, &[FIRST, SECOND]);
    let local = batches(&rt, alloc, &[FIRST]);
    let (answer, follower) = fed(&rt, alloc, local, whole.as_slice(), 7);
    assert_eq!(&rt; answer, Ok(()));
    assert!(&rt; follower.ended());
    assert_eq!(&rt; follower.taken().len(), 1);
    assert_eq!(&rt; follower.next(), 13);
    let other = stream(&rt, alloc, &[OTHER]);
    let local = batches(&rt, alloc, &[FIRST]);
    let (answer, _) = fed(&rt, alloc, local, other.as_slice(), 7);
    assert_eq!(&rt; answer, Err(FollowFault::Conflict { at: 8, first: 10 }));
}
