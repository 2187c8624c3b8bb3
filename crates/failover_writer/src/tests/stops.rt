//! What a stop leaves, after each step of a long run.

use super::{BASE, journal_of, push, segment_at, side_of, step};
use crate::{Journal, Step};
use disk_face::Side;
use mem_disk::{CrashPick, FilePick, FilePicks, MemDisk};
use std::alloc::Global;
use std::process::Abort;
use wal_base::{Blob, Entry};
use wal_recovery::{Mode, recover};

/// How many records the long run pushes.
const RECORDS: u64 = 12;

/// Makes so many steps of the long run, in which each side stalls once and every third record is to be synced. Answers
/// how many steps it made.
fn long_run(rt: &impl Abort, alloc: Global, steps: u32) -> (Journal<MemDisk>, u32) {
    let mut journal = journal_of(rt, alloc, 2);
    let mut made = 0u32;
    for number in 0..RECORDS {
        if number == 3 {
            journal.stall(Side::Primary, 5);
        }
        if number == 7 {
            journal.stall(Side::Secondary, 4);
        }
        let digit = b'0'.wrapping_add((number % 10) as u8);
        push(rt, alloc, &mut journal, digit, number % 3 == 2);
        for _ in 0..3 {
            if made == steps {
                return (journal, made);
            }
            step(rt, &mut journal);
            made = made.wrapping_add(1);
        }
    }
    for _ in 0..1_000 {
        if made == steps || step(rt, &mut journal) == Step::Idle {
            break;
        }
        made = made.wrapping_add(1);
    }
    (journal, made)
}

/// Makes so many steps of the short run, in which each pending poll leaves a segment, the primary side stalls and the
/// second of three records is to be synced. Answers how many steps it made.
fn short_run(rt: &impl Abort, alloc: Global, steps: u32) -> (Journal<MemDisk>, u32) {
    let mut journal = journal_of(rt, alloc, 1);
    journal.stall(Side::Primary, 4);
    push(rt, alloc, &mut journal, b'0', false);
    push(rt, alloc, &mut journal, b'1', true);
    push(rt, alloc, &mut journal, b'2', false);
    let mut made = 0u32;
    for _ in 0..1_000 {
        if made == steps || step(rt, &mut journal) == Step::Idle {
            break;
        }
        made = made.wrapping_add(1);
    }
    (journal, made)
}

#[derive(Clone, Copy, Debug, PartialEq, Eq)]
enum Kind {
    Short,
    Long,
}

fn run_of(rt: &impl Abort, alloc: Global, which: Kind, steps: u32) -> (Journal<MemDisk>, u32) {
    match which {
        Kind::Short => short_run(rt, alloc, steps),
        Kind::Long => long_run(rt, alloc, steps),
    }
}

/// What a crash leaves after the stable bytes of each segment.
#[derive(Clone, Copy, Debug, PartialEq, Eq)]
enum Tail {
    Nothing,
    AllSent,
    AllButLast,
    LastByteChanged,
}

/// How many bytes of the segment a crash leaves in any case.
fn stable_len(image: &MemDisk, index: u32) -> usize {
    match image.content(side_of(index), segment_at(index)) {
        Some(bytes) => bytes.len(),
        None => 0,
    }
}

/// The bytes sent to a segment after its stable ones, changed as the tail says.
fn tail_of(
    rt: &impl Abort,
    alloc: Global,
    disk: &MemDisk,
    index: u32,
    stable: usize,
    tail: Tail,
) -> Option<Blob> {
    let sent = disk.sent(side_of(index), segment_at(index))?;
    let mut bytes = Vec::from_slice(alloc, sent.get(stable..)?).expect(rt, "memory");
    if tail == Tail::AllButLast {
        bytes.pop();
    }
    if tail == Tail::LastByteChanged
        && let Some(last) = bytes.last_mut()
    {
        *last ^= 1;
    }
    if tail == Tail::Nothing {
        return None;
    }
    Some(Blob::copy_of(alloc, bytes.as_slice()).expect(rt, "memory"))
}

/// The pick of an image in which each segment has this tail after its stable bytes, as they stand in that image.
fn pick_of(
    rt: &impl Abort,
    alloc: Global,
    disk: &MemDisk,
    least: &MemDisk,
    tail: Tail,
) -> CrashPick {
    let mut files = FilePicks::new(alloc);
    for index in 0..10 {
        let pushed = files.push(FilePick {
            side: side_of(index),
            name: segment_at(index),
            tail: tail_of(rt, alloc, disk, index, stable_len(least, index), tail),
        });
        assert!(rt; pushed.is_ok());
    }
    CrashPick { files }
}

/// The disk of the run after so many steps, with how much was acked and how much was pushed.
fn stopped(rt: &impl Abort, alloc: Global, which: Kind, steps: u32) -> (MemDisk, u64, u64) {
    let (journal, _) = run_of(rt, alloc, which, steps);
    let (acked, len) = (journal.acked(), journal.len());
    (journal.into_disk(), acked, len)
}

/// After so many steps of the run a crash with this tail leaves a prefix of the records, with all that were acked.
fn crash(rt: &impl Abort, alloc: Global, which: Kind, steps: u32, tail: Tail) {
    let none = CrashPick {
        files: FilePicks::new(alloc),
    };
    let (disk, _, _) = stopped(rt, alloc, which, steps);
    let least = disk.crash(&none).expect(rt, "memory");
    let (disk, acked, len) = stopped(rt, alloc, which, steps);
    let pick = pick_of(rt, alloc, &disk, &least, tail);
    assert!(rt; disk.chance_free(&pick).expect(rt, "memory"));
    let mut image = disk.crash(&pick).expect(rt, "memory");
    let found = match recover(alloc, &mut image, Mode::Strict) {
        Ok(found) => found,
        Err(_) => panic!(rt; "after {steps} steps the image recovers"),
    };
    let count = found.batches.len() as u64;
    assert!(rt;
        acked <= count && count <= len,
        "after {steps} steps {count}"
    );
    for (number, batch) in found.batches.as_slice().iter().enumerate() {
        assert_eq!(rt; batch.first, BASE.wrapping_add(number as u64));
        let digit = [b'0'.wrapping_add((number % 10) as u8)];
        match batch.entries.as_slice() {
            [Entry::Set { value, .. }] => assert!(rt; value.as_slice() == digit.as_slice()),
            _ => panic!(rt; "one Set"),
        }
    }
}

#[test]
fn a_stop_after_each_step_of_a_long_run(rt: HostRuntime) {
    let alloc = rt.alloc();
    let (journal, steps) = long_run(&rt, alloc, 1_000);
    assert!(rt; 36 <= steps && steps < 1_000);
    assert!(rt; 2 < journal.segments());
    for made in 0..=steps {
        for tail in [Tail::Nothing, Tail::AllSent, Tail::LastByteChanged] {
            crash(&rt, alloc, Kind::Long, made, tail);
        }
    }
}

#[test]
fn a_stop_after_each_step_of_a_run_that_leaves_stalled_segments(rt: HostRuntime) {
    let alloc = rt.alloc();
    let (journal, steps) = short_run(&rt, alloc, 1_000);
    assert!(rt; 6 <= steps && steps < 1_000);
    assert!(rt; 1 < journal.segments());
    assert!(rt; 1 <= journal.left_by_stall());
    for made in 0..=steps {
        for tail in [Tail::Nothing, Tail::AllSent, Tail::AllButLast] {
            crash(&rt, alloc, Kind::Short, made, tail);
        }
    }
}
