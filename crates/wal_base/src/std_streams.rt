//! The standard streams. They tell no content, and are part of the trusted edge.

ghost use Rattle.std.specs.Prelude.{◌≡◌, ◌≤◌, ◌<◌, length, IfOk, IsErr, IsErrOf};
ghost use Rattle.std.specs.Io.KnownBytes.{ReadConsumes, WriteAppends};
ghost use Rattle.wal_base.specs.Faults.{HasCause, StaysUnless};

use crate::stream::{PutErr, ReadFault, Sink, Source};
use std::io;
use std::io::{ErrorKind, Read, Write};
use std::marker::Model;

/// Reads once, and again where a signal interrupted it.
fn read_again<I: Read>(input: &mut I, buf: &mut [u8]) -> io::Result<usize>
    ensures within { IfOk result (λ n. n ≤ length buf.old) }
    ensures passed { ReadConsumes (I.remaining input.old) (I.remaining input.new) result buf.new }
{
    for _ in 0..u64::MAX {
        match input.read(buf) {
            Err(error) if error.kind() == ErrorKind::Interrupted => {}
            answer => return answer,
        }
    }
    Err(ErrorKind::Interrupted.into())
}

/// Writes once, and again where a signal interrupted it.
fn write_again<O: Write>(output: &mut O, bytes: &[u8]) -> io::Result<usize>
    ensures within { IfOk result (λ n. n ≤ length bytes.now) }
    ensures passed { WriteAppends (O.contents output.old) (O.contents output.new) result bytes.now }
{
    for _ in 0..u64::MAX {
        match output.write(bytes) {
            Err(error) if error.kind() == ErrorKind::Interrupted => {}
            answer => return answer,
        }
    }
    Err(ErrorKind::Interrupted.into())
}

/// Standard input, or any reader. It tells no content, and counts each error, of which an interrupted read is none.
/// Contracts see the count.
#[derive(Drop)]
pub struct StdSource<I: Read + Drop> {
    input: I,
    pub(crate) faults: u64,
}

impl<I: Read + Drop> StdSource<I> {
    /// Has not failed yet.
    pub fn new(input: I) -> Self
        ensures faults { result.faults ≡ 0 }
        ensures input { result.input ≡ input }
    {
        StdSource { input, faults: 0 }
    }
}

impl<I: Read + Drop> Source for StdSource<I> {
    ghost use Rattle.std.specs.Prelude.{None};

    ghost left = { λ _. None };

    ghost faults = { λ s. s.faults };

    fn take(&mut self, buf: &mut [u8]) -> Result<usize, ReadFault>
        ensures within { IfOk result (λ n. n ≤ length buf.old) }
        ensures cause { HasCause (IsErr result) self.old.faults self.new.faults }
        ensures steady { StaysUnless (IsErr result) self.old.faults self.new.faults }

        // It hands out what the reader gives, and where that gives nothing it is at its end.
        ensures passed { ReadConsumes (I.remaining self.old.input) (I.remaining self.new.input) result buf.new }
    {
        match read_again(&mut self.input, buf) {
            Ok(count) => Ok(count),
            Err(_) => {
                self.faults = self.faults.saturating_add(1);
                Err(ReadFault)
            }
        }
    }
}

/// Standard output, or any writer. It tells no content, and counts each error, of which an interrupted write is none.
/// Contracts see the count.
#[derive(Drop)]
pub struct StdSink<O: Write + Drop> {
    output: O,
    pub(crate) faults: u64,
}

impl<O: Write + Drop> StdSink<O> {
    /// Has not failed yet.
    pub fn new(output: O) -> Self
        ensures faults { result.faults ≡ 0 }
        ensures output { result.output ≡ output }
    {
        StdSink { output, faults: 0 }
    }
}

impl<O: Write + Drop> Sink for StdSink<O> {
    ghost use Rattle.std.specs.Prelude.{None};

    ghost written = { λ _. None };

    ghost faults = { λ s. s.faults };

    ghost shortages = { λ _. 0 };

    /// A write that takes nothing of a piece that is not empty is an error, and counted.
    fn put(&mut self, bytes: &[u8]) -> Result<usize, PutErr>
        ensures within { IfOk result (λ n. n ≤ length bytes.now) }
        ensures some { IfOk result (λ n. 0 < length bytes.now → 0 < n) }
        ensures cause { HasCause (IsErrOf result PutErr.Failed) self.old.faults self.new.faults }
        ensures steady { StaysUnless (IsErrOf result PutErr.Failed) self.old.faults self.new.faults }
        ensures no_shortage { IsErrOf result PutErr.NoMemory → ⊥ }

        // The writer takes what is answered, from the front, and nothing where it failed.
        ensures passed { WriteAppends (O.contents self.old.output) (O.contents self.new.output) result bytes.now }
    {
        match write_again(&mut self.output, bytes) {
            Ok(count) if count > 0 || bytes.is_empty() => Ok(count),
            _ => {
                self.faults = self.faults.saturating_add(1);
                Err(PutErr::Failed)
            }
        }
    }
}
