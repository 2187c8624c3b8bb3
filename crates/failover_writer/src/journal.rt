//! The journal and its step.

ghost use Rattle.disk_face.specs.declared.names.TheConstants.{WAL_MAX};
ghost use Rattle.std.specs.Prelude.{◌≡◌, ◌≢◌, ◌↔◌, ◌⊎◌, ◌≤◌, ◌<◌, List, [], length, None, Some, Ok, MatchBool, IfOk, IfErr, IfSome, OnOk, OnErr, IsTrue};
ghost use Rattle.batch_repr.specs.declared.batch.Batch.{Batch};
ghost use Rattle.batch_repr.specs.declared.limits.TheConstants.{BATCHES_MAX};
ghost use Rattle.record_queue.specs.Nodes.{IsFilledNode};
ghost use Rattle.record_queue.specs.declared.node.Filled.{Filled};
ghost use Rattle.disk_face.specs.View.{files, Makes, NothingInFlight};
ghost use Rattle.disk_face.specs.Calls.{GoesOn, Stalls};
ghost use Rattle.stall_monitor.specs.declared.verdict.TheConstants.{THRESHOLD_MAX};
ghost use Rattle.failover_writer.specs.State.{len, acked, broken_count, unbegun, with_room};
ghost use Rattle.failover_writer.specs.Ranges.{AreUnsent, StandsFor, Stands, KeepsRecords, AddsRecord};
ghost use Rattle.failover_writer.specs.Stepping.{IsBehind, HasWork, IsActive, IsAtRest, shown_to_monitor, Releases, IsUp};
ghost use Rattle.failover_writer.specs.declared.fault.Step.TheVariants as steps;
ghost use Rattle.failover_writer.specs.Setting.{KeepsGoal, KeepsSegments};
ghost use Rattle.failover_writer.specs.Remaining.{polls_left, Falls};
ghost use Rattle.failover_writer.specs.Sound.{HasGivenUp, IsSoundJournal, CountsLeaveFew};
ghost use Rattle.failover_writer.specs.Answered.{StepsBy, Settles, IsIdle, IsMarked, PollsFell, ClosesBy};
ghost use Rattle.failover_writer.specs.Keeping.{OthersStay, IsOpening, KeepsBase, KeepsBases, Passes};
ghost use Rattle.failover_writer.specs.Lasting.{Lasts, Survives};
ghost use Rattle.failover_writer.specs.Closing.{Drains, Moves};
ghost use Rattle.failover_writer.specs.Moves.{ActsOnDisk, EndsGoing, Pushes};

use crate::driving::side_at;
use crate::fault::{DeadMark, JournalFault, Step};
use crate::theorems::a_journal_at_hand;
use batch_repr::Numbered;
use disk_face::{Disk, Side, StallDisk};
use log_writer::LogWriter;
use record_queue::{RecordNode, RecordQueue};
use stall_monitor::{MonitorView, SEGMENTS_MAX, Verdict, decide};
use std::alloc::Global;
use std::marker::Model;
use wal_base::NoMemory;

/// The records of a run, and the segments to which they go. Records are counted from 0.
#[derive(Drop)]
pub struct Journal<D: Disk> {
    pub(crate) alloc: Global,
    pub(crate) disk: D,
    pub(crate) wal: u64,
    base: u64,
    next: u64,
    threshold: u32,
    pub(crate) records: RecordQueue,
    pub(crate) want: u64,
    pub(crate) acked: u64,
    pub(crate) writers: Vec<LogWriter>,
    /// No segment before this one is busy, but for the current one.
    pub(crate) first_busy: usize,
    pub(crate) failed: u64,
    dead: Option<DeadMark>,
    pub(crate) left_by_stall: u32,
}

impl<D: Disk> Model for Journal<D> {
    ghost use Rattle.failover_writer.specs.State.{JournalView};
    ghost use Rattle.failover_writer.specs.Inside.{IsInOrder};

    ghost Value = { JournalView D };

    ghost view = { λ j. record {
      disk = j.disk;
      state = record {
        wal = j.wal;
        base = j.base;
        next = j.next;
        threshold = j.threshold;
        queue = j.records;
        want = j.want;
        segments = j.writers.items;
        dead = j.dead;
        left_by_stall = j.left_by_stall;
      };
    } };

    ghost invariant = { λ j. IsInOrder D.tells (record {
      wal = j.wal;
      base = j.base;
      next = j.next;
      threshold = j.threshold;
      queue = j.records;
      want = j.want;
      segments = j.writers.items;
      dead = j.dead;
      left_by_stall = j.left_by_stall;
    }) (D.view j.disk) j.acked j.first_busy j.failed };
}

impl<D: Disk> Journal<D> {
    /// A journal of no record, for a WAL of which nothing stands. `base` is the number of the first record. It makes no
    /// disk call. `Err` means out of memory and hands the disk back.
    pub fn start(
        alloc: Global,
        disk: D,
        wal: u64,
        base: u64,
        threshold: u32,
    ) -> Result<Journal<D>, D>
        requires idle { NothingInFlight (D.view disk) }
        requires wal { wal ≤ WAL_MAX }
        requires threshold { (1 ≤ threshold) × (threshold ≤ THRESHOLD_MAX) }
        requires absent { IsTrue D.tells → AreUnsent wal 0 (D.view disk) }
        ensures made { IfOk result (λ j. j ≡ record { disk = disk; state = unbegun wal base threshold j.state.queue }) }
        ensures empty { IfOk result (λ j. (j.state.queue.start ≡ 0) × (j.state.queue.records ≡ [])) }
        ensures stands { IfOk result (λ j. StandsFor D.tells [] j.state (D.view j.disk)) }
        ensures others { IfOk result (λ j. OthersStay (files (D.view disk)) j.state (files (D.view j.disk))) }
        ensures keeps_base { IfOk result (λ j. (b : List Batch) → IsOpening wal base b (files (D.view disk)) → KeepsBase D.tells b j.state (D.view j.disk)) }
        ensures err { IfErr result (λ back. back ≡ disk) }
    {
        let Ok(records) = RecordQueue::new(alloc) else {
            return Err(disk);
        };
        let Ok(writers) = Vec::with_capacity(alloc, SEGMENTS_MAX as usize) else {
            return Err(disk);
        };
        Ok(Journal {
            alloc,
            disk,
            wal,
            base,
            next: base,
            threshold,
            records,
            want: 0,
            acked: 0,
            writers,
            first_busy: 0,
            failed: 0,
            dead: None,
            left_by_stall: 0,
        })
    }

    /// Makes room for one record.
    pub fn reserve(&mut self) -> Result<(), NoMemory>
        ensures room { OnOk result (1 ≤ self.new.state.queue.spare) }
        ensures setting { KeepsGoal self.old.state self.new.state }
        ensures acked { acked self.new.state ≡ acked self.old.state }
        ensures same { self.new ≡ with_room self.new.state.queue.spare self.old }
        ensures keeps { KeepsRecords D.tells D.view self.old self.new }
        ensures keeps_base { KeepsBases D.tells D.view self.old self.new }
    {
        self.records.reserve()
    }

    /// Adds a record, and answers how many there are. With `sync` all of them are to be synced.
    pub fn push(&mut self, added: Numbered, sync: bool) -> u64
        requires room { 1 ≤ self.old.state.queue.spare }
        requires lives { self.old.state.dead ≡ None }
        requires next { added.first ≡ self.old.state.next }
        ensures len { result ≡ len self.new.state }
        ensures pushed { Pushes added sync self.old.state self.new.state }
        ensures setting { KeepsSegments self.old.state self.new.state }
        ensures acked { acked self.new.state ≡ acked self.old.state }
        ensures disk { self.new.disk ≡ self.old.disk }
        ensures keeps { AddsRecord D.tells D.view added self.old self.new }
        ensures keeps_base { KeepsBases D.tells D.view self.old self.new }
    {
        // Each batch takes a number, and is spelled by its bytes.
        prove!(0 < added.count());
        prove!(12 <= added.bytes().len());
        self.next = added.end();
        self.records.push(added);
        let len = self.records.end();
        if sync {
            self.want = len;
        }
        len
    }

    /// Does with the record and the flag of a filled node what `push` does with its own. It takes no memory, and needs
    /// no room. A journal that is dead takes the record too, and stays dead.
    pub fn push_node(&mut self, node: RecordNode) -> u64
        requires filled { IsFilledNode node }
        requires few { len self.old.state < BATCHES_MAX }
        requires next { (f : Filled) → node ≡ Some f → f.rec.first ≡ self.old.state.next }
        ensures len { result ≡ len self.new.state }
        ensures pushed { (f : Filled) → node ≡ Some f → Pushes f.rec f.sync self.old.state self.new.state }
        ensures setting { KeepsSegments self.old.state self.new.state }
        ensures acked { acked self.new.state ≡ acked self.old.state }
        ensures disk { self.new.disk ≡ self.old.disk }
        ensures keeps { (f : Filled) → node ≡ Some f → AddsRecord D.tells D.view f.rec self.old self.new }
        ensures keeps_base { KeepsBases D.tells D.view self.old self.new }
    {
        let Some(filled) = node.filled() else {
            unreachable!();
        };
        // Each batch takes a number, and is spelled by its bytes.
        prove!(0 < filled.rec.count());
        prove!(12 <= filled.rec.bytes().len());
        let (end, sync) = (filled.rec.end(), filled.sync);
        self.next = end;
        self.records.push_node(node);
        let all = self.records.end();
        if sync {
            self.want = all;
        }
        all
    }

    /// The greatest end of what a segment has synced; 0 at first.
    pub fn acked(&self) -> u64
        ensures { result ≡ acked self.now.state }
    {
        self.acked
    }

    /// How many records there are.
    pub fn len(&self) -> u64
        ensures len { result ≡ len self.now.state }
        ensures stands { Stands D.tells self.now.state (D.view self.now.disk) }
        ensures sound { IsSoundJournal self.now.state }
    {
        self.records.end()
    }

    /// The number after the last record.
    pub fn next(&self) -> u64
        ensures { result ≡ self.now.state.next }
    {
        self.next
    }

    /// How many segments were begun.
    pub fn segments(&self) -> u32
        ensures { result ≡ length self.now.state.segments }
    {
        self.writers.len() as u32
    }

    /// How many of its polls were answered with a failure: one for each segment that is broken.
    pub fn failed(&self) -> u64
        ensures failed { result ≡ broken_count self.now.state }
        ensures few { CountsLeaveFew self.now.state }
    {
        self.failed
    }

    /// How many of its segments were not broken as the next one was begun.
    pub fn left_by_stall(&self) -> u32
        ensures { result ≡ self.now.state.left_by_stall }
    {
        self.left_by_stall
    }

    /// The mark of a journal that has given up.
    pub fn dead(&self) -> Option<DeadMark>
        ensures dead { result ≡ self.now.state.dead }
        ensures given_up { IfSome result (HasGivenUp self.now.state) }
    {
        self.dead
    }

    /// From how many pending polls on a segment hangs.
    pub fn threshold(&self) -> u32
        ensures threshold { result ≡ self.now.state.threshold }
        ensures within { (1 ≤ result) × (result ≤ THRESHOLD_MAX) }
    {
        self.threshold
    }

    /// The disk as it stands.
    pub fn into_disk(self) -> D
        ensures { result ≡ self.disk }
    {
        self.disk
    }

    pub(crate) fn is_behind(&self) -> bool
        ensures { IsTrue result ↔ IsBehind self.now.state }
    {
        self.acked < self.records.end()
    }

    /// Whether there is something to do.
    fn has_work(&self) -> bool
        ensures { IsTrue result ↔ HasWork self.now.state }
    {
        if !self.is_behind() {
            return false;
        }
        match self.writers.last() {
            Some(current) => {
                current.broken() || current.written() < self.records.end() || self.acked < self.want
            }
            None => true,
        }
    }

    /// Whether something is in flight, or there is work.
    fn is_up(&mut self) -> bool
        ensures up { MatchBool result (IsActive self.old.state) (IsAtRest self.old.state) }
        ensures same { self.new ≡ self.old }
    {
        self.has_work() || self.is_busy()
    }

    /// Lets the records go that no segment needs any more.
    fn release(&mut self)
        ensures released { Releases self.old.state self.new.state }
        ensures disk { self.new.disk ≡ self.old.disk }
        ensures keeps { KeepsRecords D.tells D.view self.old self.new }
        ensures passes { Passes D.tells self.old.state self.new.state (D.view self.old.disk) (D.view self.new.disk) }
    {
        if let Some(current) = self.writers.last() {
            self.records.release(self.acked.min(current.sent()));
        }
    }

    /// One step: what is in flight is polled, and then the next operation is started or the next segment begun.
    pub fn step(&mut self) -> Result<Step, JournalFault>
        ensures rule { StepsBy self.old.state self.new.state (D.view self.old.disk) (D.view self.new.disk) result }
        ensures idle { (result ≡ Ok steps.Idle) ↔ IsIdle self.old.state }
        ensures waited { result ≡ Ok steps.Waited → PollsFell (D.view self.old.disk) (D.view self.new.disk) }
        ensures dead { IfErr result (IsMarked self.new.state) }
        ensures still { (self.old.state.dead ≢ None) ⊎ IsIdle self.old.state → self.new ≡ self.old }
        ensures want { self.new.state.want ≡ self.old.state.want }
        ensures falls { Falls self.old.state self.new.state (D.view self.old.disk) (D.view self.new.disk) result }
        ensures lasts { Lasts D.tells D.view self.old self.new }
        ensures survives { Survives D.tells D.view self.old self.new }
        ensures few { CountsLeaveFew self.new.state }
    {
        if let Some(mark) = self.dead {
            return Err(JournalFault::Dead {
                side: mark.side,
                faults: mark.faults,
            });
        }
        if !self.is_up() {
            return Ok(Step::Idle);
        }
        let answer = self.advance();
        a_journal_at_hand(self);
        answer
    }

    /// Polls what is in flight, and goes on.
    fn advance(&mut self) -> Result<Step, JournalFault>
        requires up { IsUp self.old.state }
        ensures rule { StepsBy self.old.state self.new.state (D.view self.old.disk) (D.view self.new.disk) result }
        ensures keeps { KeepsRecords D.tells D.view self.old self.new }
        ensures passes { Passes D.tells self.old.state self.new.state (D.view self.old.disk) (D.view self.new.disk) }
        ensures goes_on { GoesOn (D.view self.old.disk) (D.view self.new.disk) }
    {
        let waited = self.poll_all();
        self.go_on()?;
        self.release();
        if waited {
            Ok(Step::Waited)
        } else {
            Ok(Step::Moved)
        }
    }

    /// What the monitor is shown of the current segment.
    fn view(&self, current: &LogWriter) -> MonitorView
        ensures { result ≡ shown_to_monitor self.now.state current.now }
    {
        MonitorView {
            opened: self.writers.len() as u32,
            broken: current.broken(),
            waiting: current.waiting(),
            threshold: self.threshold,
            behind: self.is_behind(),
        }
    }

    /// Moves the records that came in nodes to where the others stand.
    fn gather(&mut self) -> Result<(), NoMemory>
        ensures { self.new ≡ self.old }
    {
        self.records.settle()
    }

    /// Begins the next segment, starts the next operation, or gives up. What is started may need the records that still stand in
    /// nodes; to give up takes no memory.
    fn go_on(&mut self) -> Result<(), JournalFault>
        requires lives { self.old.state.dead ≡ None }
        ensures went { OnOk result (ActsOnDisk self.old.state self.new.state (D.view self.old.disk) (D.view self.new.disk)) }
        ensures ended { IfErr result (EndsGoing self.old.state self.new.state) }
        ensures quiet { OnErr result (Makes [] (D.view self.old.disk) (D.view self.new.disk)) }
        ensures keeps { KeepsRecords D.tells D.view self.old self.new }
        ensures passes { Passes D.tells self.old.state self.new.state (D.view self.old.disk) (D.view self.new.disk) }
        ensures goes_on { GoesOn (D.view self.old.disk) (D.view self.new.disk) }
        ensures stalls { polls_left (D.view self.new.disk) ≡ polls_left (D.view self.old.disk) }
    {
        let Some(current) = self.writers.last() else {
            if self.is_behind() {
                self.gather()?;
                self.begin_next()?;
            }
            return Ok(());
        };
        match decide(&self.view(current)) {
            Verdict::Dead => {
                let mark = DeadMark {
                    side: side_at(self.writers.len() - 1),
                    faults: self.failed,
                };
                self.dead = Some(mark);
                Err(JournalFault::Dead {
                    side: mark.side,
                    faults: mark.faults,
                })
            }
            Verdict::Switch => {
                self.gather()?;
                Ok(self.begin_next()?)
            }
            Verdict::Stay => {
                self.gather()?;
                Ok(self.start_next()?)
            }
        }
    }

    /// Steps as long as a step moves, and answers the last one: `Idle`, `Waited`, or its fault. So all that can be done
    /// without waiting is done.
    pub fn settle(&mut self) -> Result<Step, JournalFault>
        ensures settles { Settles self.old.state self.new.state (D.view self.old.disk) (D.view self.new.disk) result }
        ensures idle { result ≡ Ok steps.Idle → IsIdle self.new.state }
        ensures waited { result ≡ Ok steps.Waited → PollsFell (D.view self.old.disk) (D.view self.new.disk) }
        ensures dead { IfErr result (IsMarked self.new.state) }
        ensures still { (self.old.state.dead ≢ None) ⊎ IsIdle self.old.state → self.new ≡ self.old }
        ensures want { self.new.state.want ≡ self.old.state.want }
        ensures lasts { Lasts D.tells D.view self.old self.new }
        ensures survives { Survives D.tells D.view self.old self.new }
        ensures few { CountsLeaveFew self.new.state }
    {
        let answer = self.move_on();
        a_journal_at_hand(self);
        answer
    }

    /// Steps until a step does not move.
    fn move_on(&mut self) -> Result<Step, JournalFault>
        ensures moves { Moves D.tells D.view self.old self.new result }
        ensures still { (self.old.state.dead ≢ None) ⊎ IsIdle self.old.state → self.new ≡ self.old }
    {
        loop {
            match self.step()? {
                Step::Moved => {}
                Step::Idle => return Ok(Step::Idle),
                Step::Waited => return Ok(Step::Waited),
            }
        }
    }

    /// Asks that all records be synced, and steps until they are and nothing is in flight. After `NoMemory` it may be
    /// called again.
    pub fn close(&mut self) -> Result<(), JournalFault>
        ensures closes { ClosesBy self.old.state self.new.state (D.view self.old.disk) (D.view self.new.disk) result }
        ensures lives { OnOk result (self.old.state.dead ≡ None) }
        ensures idle { OnOk result (IsIdle self.new.state) }
        ensures synced { OnOk result (acked self.new.state ≡ len self.new.state) }
        ensures rests { OnOk result (NothingInFlight (D.view self.new.disk)) }
        ensures dead { IfErr result (IsMarked self.new.state) }
        ensures still { self.old.state.dead ≢ None → self.new.disk ≡ self.old.disk }
        ensures lasts { Lasts D.tells D.view self.old self.new }
        ensures survives { Survives D.tells D.view self.old self.new }
        ensures few { CountsLeaveFew self.new.state }
    {
        self.want = self.records.end();
        let answer = self.drain();
        a_journal_at_hand(self);
        answer
    }

    /// Steps until nothing is in flight and there is no work.
    fn drain(&mut self) -> Result<(), JournalFault>
        requires all { self.old.state.want ≡ len self.old.state }
        requires stands { Stands D.tells self.old.state (D.view self.old.disk) }
        ensures drains { Drains D.tells D.view self.old self.new result }
        ensures still { self.old.state.dead ≢ None → self.new ≡ self.old }
    {
        loop {
            match self.step()? {
                Step::Idle => return Ok(()),
                Step::Moved | Step::Waited => {}
            }
        }
    }
}

impl<D: StallDisk> Journal<D> {
    /// Passes a stall on.
    pub fn stall(&mut self, side: Side, polls: u32)
        ensures state { self.new.state ≡ self.old.state }
        ensures setting { KeepsGoal self.old.state self.new.state }
        ensures acked { acked self.new.state ≡ acked self.old.state }
        ensures stalled { Stalls side polls (D.view self.old.disk) (D.view self.new.disk) }
        ensures keeps { KeepsRecords D.tells D.view self.old self.new }
        ensures keeps_base { KeepsBases D.tells D.view self.old self.new }
    {
        self.disk.stall(side, polls);
    }
}
