//! Streams in memory, whose calls can be made to fail. They tell everything.

ghost use Rattle.std.specs.Prelude.{◌≡◌, ◌<◌, ◌≤◌, ◌↔◌, ℕ, [], ◌++◌, length, take, drop, min, Some, None, IfOk, OnOk, OnErr, IsErr, IsErrOf};
ghost use Rattle.wal_base.specs.Faults.{HasCause, StaysUnless};
ghost use Rattle.wal_base.specs.Told.{HandsOut, EndsAtNone, Took};
ghost use Rattle.wal_base.specs.Memory.{failed_take, handed_out};
ghost use Rattle.wal_base.specs.Memory.{empty_sink, failed_put, taken_in, short_once};

use crate::NoMemory;
use crate::bytes::{Blob, Buf};
use crate::stream::{PutErr, ReadFault, Sink, Source};
use std::alloc::Global;
use std::marker::Model;

/// Copies as much as both hold to the front of the buffer, and answers how much.
fn copy_front(bytes: &[u8], buf: &mut [u8]) -> usize
    ensures count { result ≡ min (length bytes.now) (length buf.old) }
    ensures copied { take result buf.new ≡ take result bytes.now }
{
    let count = bytes.len().min(buf.len());
    buf[..count].copy_from_slice(&bytes[..count]);
    count
}

/// A source over bytes in memory.
#[derive(Debug, Drop)]
pub struct MemSource {
    bytes: Blob,
    at: usize,
    faults: u64,
    calls: u64,
    failing: Option<u64>,
}

impl Model for MemSource {
    ghost use Rattle.std.specs.Prelude.{◌≤◌, drop, length};
    ghost use Rattle.wal_base.specs.Memory.{MemoryLeft};

    ghost Value = { MemoryLeft };

    ghost view = { λ s. record { left = drop s.at s.bytes; faults = s.faults; calls = s.calls; failing = s.failing } };

    ghost invariant = { λ s. s.at ≤ length s.bytes };
}

impl MemSource {
    /// Hands out these bytes. No call is to fail yet.
    pub fn new(bytes: Blob) -> MemSource
        ensures { result ≡ record { left = bytes; faults = 0; calls = 0; failing = None } }
    {
        MemSource {
            bytes,
            at: 0,
            faults: 0,
            calls: 0,
            failing: None,
        }
    }

    /// Makes the call of this number, counted from 0, fail once. The number given last is the one that counts.
    pub fn fail_at(&mut self, call: u64)
        ensures { self.new ≡ record self.old { failing = Some call } }
    {
        self.failing = Some(call);
    }
}

impl Source for MemSource {
    ghost use Rattle.std.specs.Prelude.{Some};

    ghost left = { λ s. Some s.left };

    ghost faults = { λ s. s.faults };

    fn take(&mut self, buf: &mut [u8]) -> Result<usize, ReadFault>
        ensures within { IfOk result (λ n. n ≤ length buf.old) }
        ensures taken { IfOk result (HandsOut (Some self.old.left) (Some self.new.left) buf.new) }
        ensures end { IfOk result (EndsAtNone (Some self.old.left) buf.old) }
        ensures err { OnErr result (Some self.new.left ≡ Some self.old.left) }
        ensures cause { HasCause (IsErr result) self.old.faults self.new.faults }
        ensures steady { StaysUnless (IsErr result) self.old.faults self.new.faults }

        // It fails exactly at the call that was to fail, and once.
        ensures fails { IsErr result ↔ (self.old.failing ≡ Some self.old.calls) }
        ensures failed { OnErr result (self.new ≡ failed_take self.old) }

        // Else it hands out as much as there is and the buffer has room for.
        ensures count { IfOk result (λ n. n ≡ min (length self.old.left) (length buf.old)) }
        ensures handed_out { IfOk result (λ n. self.new ≡ handed_out self.old n) }
    {
        let call = self.calls;
        self.calls = call.saturating_add(1);
        if self.failing == Some(call) {
            self.failing = None;
            self.faults = self.faults.saturating_add(1);
            return Err(ReadFault);
        }
        let count = copy_front(&self.bytes.as_slice()[self.at..], buf);
        self.at += count;
        Ok(count)
    }
}

/// A sink that keeps what it takes in memory.
#[derive(Debug, Drop)]
pub struct MemSink {
    written: Buf,
    faults: u64,
    shortages: u64,
    calls: u64,
    failing: Option<u64>,
}

impl Model for MemSink {
    ghost use Rattle.wal_base.specs.Memory.{MemoryWritten};

    ghost Value = { MemoryWritten };

    ghost view = { λ s. record { written = s.written; faults = s.faults; shortages = s.shortages; calls = s.calls; failing = s.failing } };
}

impl MemSink {
    /// Holds nothing. No call is to fail yet.
    pub fn new(alloc: Global) -> Result<MemSink, NoMemory>
        ensures { IfOk result (λ sink. sink ≡ empty_sink) }
    {
        let written = Buf::new(alloc)?;
        Ok(MemSink {
            written,
            faults: 0,
            shortages: 0,
            calls: 0,
            failing: None,
        })
    }

    /// Makes the call of this number, counted from 0, fail once. The number given last is the one that counts.
    pub fn fail_at(&mut self, call: u64)
        ensures { self.new ≡ record self.old { failing = Some call } }
    {
        self.failing = Some(call);
    }

    /// Shows what was written.
    pub fn written(&self) -> &[u8]
        ensures { result.now ≡ self.now.written }
    {
        self.written.as_slice()
    }
}

impl Sink for MemSink {
    ghost use Rattle.std.specs.Prelude.{Some};

    ghost written = { λ s. Some s.written };

    ghost faults = { λ s. s.faults };

    ghost shortages = { λ s. s.shortages };

    fn put(&mut self, bytes: &[u8]) -> Result<usize, PutErr>
        ensures within { IfOk result (λ n. n ≤ length bytes.now) }
        ensures some { IfOk result (λ n. 0 < length bytes.now → 0 < n) }
        ensures taken { IfOk result (Took (Some self.old.written) (Some self.new.written) bytes.now) }
        ensures err { OnErr result (Some self.new.written ≡ Some self.old.written) }
        ensures cause { HasCause (IsErrOf result PutErr.Failed) self.old.faults self.new.faults }
        ensures steady { StaysUnless (IsErrOf result PutErr.Failed) self.old.faults self.new.faults }
        ensures shortage { HasCause (IsErrOf result PutErr.NoMemory) self.old.shortages self.new.shortages }
        ensures supplied { StaysUnless (IsErrOf result PutErr.NoMemory) self.old.shortages self.new.shortages }

        // It fails exactly at the call that was to fail, and once.
        ensures fails { IsErrOf result PutErr.Failed ↔ (self.old.failing ≡ Some self.old.calls) }
        ensures failed { IsErrOf result PutErr.Failed → self.new ≡ failed_put self.old }

        // Else it takes the whole piece, unless memory ran out.
        ensures whole { IfOk result (λ n. n ≡ length bytes.now) }
        ensures took { OnOk result (self.new ≡ taken_in self.old bytes.now) }
        ensures no_memory { IsErrOf result PutErr.NoMemory → self.new ≡ short_once self.old }
    {
        let call = self.calls;
        self.calls = call.saturating_add(1);
        if self.failing == Some(call) {
            self.failing = None;
            self.faults = self.faults.saturating_add(1);
            return Err(PutErr::Failed);
        }
        if self.written.append(bytes).is_err() {
            self.shortages = self.shortages.saturating_add(1);
            return Err(PutErr::NoMemory);
        }
        Ok(bytes.len())
    }
}
