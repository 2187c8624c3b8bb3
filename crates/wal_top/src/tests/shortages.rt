use super::{Rig, check_crash, ran_over};
use crate::Status;
use mem_disk::{CrashPick, FilePicks, MemDisk};
use std::alloc::Global;
use std::process::Abort;
use std::sync::Wait;
use std::test::Fail;
use std::thread::Threads;
use wal_base::{Blob, MemSink, MemSource, NoMemory, PutErr, Sink};

const SCRIPT: &[u8] =
    b"commit 0 sync set a 1\nget 0 a\nround\ncommit 1 nosync set a 2 ; note n\nget 1 a\n";

const TEXT: &[u8] = b"s0 commit 10 1 synced\n\
        s0 get a = 1 @11\n\
        s1 commit 11 1\n\
        s1 get a = 2 @12\n\
        end visible 12 batches 2 acked 2 segments 1 closed\n";

/// Runs a command over a disk. Asserts that its text is among these where it is done, and that nothing is written where
/// memory ran out.
fn run_short<R: Threads + Wait + Sync + Abort>(
    rt: &R,
    alloc: Global,
    word: &str,
    script: &[u8],
    disk: Rig,
    texts: &[&[u8]],
) -> Result<(Status, MemDisk), NoMemory> {
    let mut source = MemSource::new(Blob::copy_of(alloc, script)?);
    let mut sink = MemSink::new(alloc)?;
    let (status, disk) = ran_over(rt, alloc, &[word], &mut source, &mut sink, disk)?;
    let written = sink.written();
    match status {
        Status::Done => assert!(rt; texts.iter().any(|text| *text == written)),
        Status::NoMemory => assert!(rt; written.is_empty()),
        _ => panic!(rt; "{word} ends with {status:?}"),
    }
    Ok((status, disk))
}

/// The status of a replay over a new disk. Whatever it is, a crash leaves the first batches, the synced one among them
/// where the replay was done.
fn replay_short<R: Threads + Wait + Sync + Abort>(
    rt: &R,
    alloc: Global,
) -> Result<Status, NoMemory> {
    let rig = Rig::new(alloc)?;
    let (status, disk) = run_short(rt, alloc, "replay", SCRIPT, rig, &[TEXT])?;
    let files = FilePicks::new(alloc);
    let disk = disk.crash(&CrashPick { files })?;
    let stores: [&[u8]; 3] = [
        b"a = 2\nend batches 2 next 12\n",
        b"a = 1\nend batches 1 next 11\n",
        b"end batches 0 next 10\n",
    ];
    let left = if status == Status::Done { 1 } else { 3 };
    run_short(rt, alloc, "recover", b"", Rig { disk }, &stores[..left])?;
    Ok(status)
}

/// An allocation is refused only where that is asked for, and then once: `rt try --test --fail-alloc N`.
#[test]
fn a_run_that_lacks_memory_writes_nothing(rt: HostRuntime) {
    let first = replay_short(&rt, rt.alloc());
    let second = replay_short(&rt, rt.alloc());
    let done = |ended: Result<Status, NoMemory>| ended == Ok(Status::Done);
    assert!(rt; done(first) || done(second));
}

/// A sink that has memory for so many bytes more.
#[derive(Drop)]
struct Tight<K> {
    inner: K,
    room: usize,
    shortages: u64,
}

impl<K: Sink> Sink for Tight<K> {
    ghost written = { λ s. K.written s.inner };

    ghost faults = { λ s. K.faults s.inner };

    ghost shortages = { λ s. s.shortages };

    fn put(&mut self, bytes: &[u8]) -> Result<usize, PutErr> {
        let count = bytes.len().min(self.room);
        if count == 0 {
            self.shortages = self.shortages.saturating_add(1);
            return Err(PutErr::NoMemory);
        }
        match self.inner.put(&bytes[..count]) {
            Ok(taken) => {
                self.room -= taken;
                Ok(taken)
            }
            Err(PutErr::Failed) => Err(PutErr::Failed),
            Err(PutErr::NoMemory) => {
                self.shortages = self.shortages.saturating_add(1);
                Err(PutErr::NoMemory)
            }
        }
    }
}

#[test]
fn a_sink_that_lacks_memory_ends_the_run(rt: HostRuntime) -> Result<(), Fail> {
    let alloc = rt.alloc();
    for (room, status, text) in [
        (0, Status::NoMemory, b"".as_slice()),
        (15, Status::NoMemory, b"s0 commit 10 1 "),
        (1_000, Status::Done, TEXT),
    ] {
        let mut source = MemSource::new(Blob::copy_of(alloc, SCRIPT)?);
        let mut sink = Tight {
            inner: MemSink::new(alloc)?,
            room,
            shortages: 0,
        };
        let rig = Rig::new(alloc)?;
        let (ended, disk) = ran_over(&rt, alloc, &["replay"], &mut source, &mut sink, rig)?;
        assert_eq!(rt; ended, status);
        assert!(rt; sink.inner.written() == text);
        // The run was closed before a byte of its text was written.
        check_crash(&rt, alloc, disk, "a = 2\nend batches 2 next 12\n")?;
    }
    Ok(())
}
