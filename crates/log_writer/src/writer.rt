//! A writer of one segment: what it is, how it is made, and what it tells.

ghost use Rattle.std.specs.Prelude.{◌≡◌, ◌≤◌, ◌%◌, ◌^◌, ◌↔◌, IfOk, IsTrue};
ghost use Rattle.disk_face.specs.Image.{log_number};
ghost use Rattle.log_writer.specs.declared.phase.Phase.TheVariants.{Broken};
ghost use Rattle.log_writer.specs.declared.polling.TheConstants.{WAITING_MAX};
ghost use Rattle.log_writer.specs.Fits.{IsBusy};
ghost use Rattle.log_writer.specs.Promises.{unstarted, FitsIfUnsent};

use crate::phase::Phase;
use block_record::Framer;
use disk_face::{SegName, Side};
use std::alloc::Global;
use std::marker::Model;
use wal_base::NoMemory;

/// The writer of one segment. Records are counted from 0, over the whole run.
///
/// It has one operation in flight at most. Between its calls it fits the disk for some list of records: the segment
/// holds the records from `from` to `sent`, one after another, those up to `written` done and those up to `synced`
/// stable.
#[derive(Debug, Drop)]
pub struct LogWriter {
    pub(crate) side: Side,
    pub(crate) name: SegName,
    pub(crate) from: u64,
    pub(crate) sent: u64,
    pub(crate) written: u64,
    pub(crate) synced: u64,
    // How many bytes writes were started for.
    pub(crate) size: u64,
    pub(crate) synced_bytes: u64,
    pub(crate) waiting: u32,
    pub(crate) phase: Phase,
    // Stands after the records that were sent.
    pub(crate) framer: Framer,
    pub(crate) alloc: Global,
}

impl Model for LogWriter {
    ghost use Rattle.log_writer.specs.Writer.{Writer};

    ghost Value = { Writer };

    ghost view = { λ a. record { side = a.side; name = a.name; log = a.framer.log; from = a.from; sent = a.sent; written = a.written; synced = a.synced; size = a.size; synced_bytes = a.synced_bytes; place = a.framer.place; waiting = a.waiting; phase = a.phase } };

    ghost use Rattle.std.specs.Prelude.{◌≤◌, ◌<◌, ◌^◌};
    ghost use Rattle.log_writer.specs.declared.polling.TheConstants.{WAITING_MAX};

    ghost invariant = { λ a. (a.waiting ≤ WAITING_MAX) × (a.synced_bytes < 2 ^ 64) };
}

impl LogWriter {
    /// A segment that is to begin with the record `from`. `log` is the log number of its WAL. It asks
    /// nothing of a disk. `Err` means out of memory.
    pub fn new(
        alloc: Global,
        side: Side,
        name: SegName,
        log: u32,
        from: u64,
    ) -> Result<LogWriter, NoMemory>
        requires log { log ≡ log_number name.wal }
        ensures made { IfOk result (λ writer. writer ≡ unstarted side name log from) }
        ensures fits { IfOk result (FitsIfUnsent side name from) }
    {
        Ok(LogWriter {
            side,
            name,
            from,
            sent: from,
            written: from,
            synced: from,
            size: 0,
            synced_bytes: 0,
            waiting: 0,
            phase: Phase::New,
            framer: Framer::new(log),
            alloc,
        })
    }

    /// The first record of the segment.
    pub fn from(&self) -> u64
        ensures { result ≡ self.now.from }
    {
        self.from
    }

    /// The end of what writes were started for.
    pub fn sent(&self) -> u64
        ensures { result ≡ self.now.sent }
    {
        self.sent
    }

    /// The end of what completed writes cover.
    pub fn written(&self) -> u64
        ensures { result ≡ self.now.written }
    {
        self.written
    }

    /// The end of what a completed sync covers: `from` at first.
    pub fn synced(&self) -> u64
        ensures { result ≡ self.now.synced }
    {
        self.synced
    }

    /// How many bytes of its file a completed sync covers: 0 at first.
    pub fn synced_bytes(&self) -> u64
        ensures { result ≡ self.now.synced_bytes }
    {
        self.synced_bytes
    }

    /// How often the operation in flight was answered `Pending`, counted to `WAITING_MAX` and no further. It is 0 after an
    /// operation that was done, and after a newly started one.
    pub fn waiting(&self) -> u32
        ensures count { result ≡ self.now.waiting }
        ensures within { result ≤ WAITING_MAX }
    {
        self.waiting
    }

    /// Whether an operation is in flight.
    pub fn busy(&self) -> bool
        ensures { IsTrue result ↔ IsBusy self.now.phase }
    {
        match self.phase {
            Phase::InFlight(_, _) => true,
            Phase::New | Phase::Idle | Phase::Broken => false,
        }
    }

    /// Whether an operation was answered `Failed`.
    pub fn broken(&self) -> bool
        ensures { IsTrue result ↔ (self.now.phase ≡ Broken) }
    {
        match self.phase {
            Phase::Broken => true,
            Phase::New | Phase::InFlight(_, _) | Phase::Idle => false,
        }
    }
}
