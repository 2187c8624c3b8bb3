//! How a journal drives its segments: polls them, begins the next one, and starts what comes next on the current one.

ghost use Rattle.std.specs.Prelude.{◌≡◌, ◌<◌, ◌-◌, suc, [], length, take, drop, None, MatchBool, IfSome, OnOk, OnErr};
ghost use Rattle.disk_face.specs.View.{Makes};
ghost use Rattle.disk_face.specs.Calls.{GoesOn};
ghost use Rattle.stall_monitor.specs.declared.verdict.TheConstants.{SEGMENTS_MAX};
ghost use Rattle.failover_writer.specs.State.{len, acked};
ghost use Rattle.failover_writer.specs.Ranges as ranges;
ghost use Rattle.failover_writer.specs.Ranges.{KeepsRecords};
ghost use Rattle.failover_writer.specs.Stepping.{IsBehind, NoneBusy, left_behind};
ghost use Rattle.failover_writer.specs.Remaining.{polls_left};
ghost use Rattle.failover_writer.specs.Keeping.{Passes};
ghost use Rattle.failover_writer.specs.Moves.{IsBusyAt, IsFirstBusy, PollsAt, PollsAll, BeginsOnDisk, MayStartNext, IsRestingAt, NoneRests};

use crate::journal::Journal;
use disk_face::{Disk, Progress, SegName, Side};
use log_writer::{Goal, LogWriter};
use stall_monitor::SEGMENTS_MAX;
use wal_base::NoMemory;

/// The side of the segment of this index.
pub(crate) fn side_at(index: usize) -> Side
    ensures { result ≡ ranges.side_at index }
{
    if index % 2 == 0 {
        Side::Primary
    } else {
        Side::Secondary
    }
}

impl<D: Disk> Journal<D> {
    /// Polls a busy segment, and notes what it has synced. Answers whether it is pending.
    fn poll(&mut self, index: usize) -> bool
        requires lives { self.old.state.dead ≡ None }
        requires busy { IsBusyAt index self.old.state }
        ensures polled { PollsAt D.tells index self.old.state self.new.state (D.view self.old.disk) (D.view self.new.disk) result }
        ensures keeps { KeepsRecords D.tells D.view self.old self.new }
        ensures passes { Passes D.tells self.old.state self.new.state (D.view self.old.disk) (D.view self.new.disk) }
        ensures goes_on { GoesOn (D.view self.old.disk) (D.view self.new.disk) }
    {
        let writer = &mut self.writers[index];
        let answer = writer.poll(&mut self.disk);
        self.acked = self.acked.max(writer.synced());
        match answer {
            Progress::Pending => true,
            Progress::Done => false,
            Progress::Failed => {
                self.failed = self.failed.saturating_add(1);
                false
            }
        }
    }

    /// The first busy segment before the current one.
    fn seek_busy(&mut self) -> Option<usize>
        ensures found { IfSome result (λ index. IsFirstBusy index self.old.state) }
        ensures none { result ≡ None → NoneBusy (take (length self.old.state.segments - 1) self.old.state.segments) }
        ensures same { self.new ≡ self.old }
    {
        let last = self.writers.len().checked_sub(1)?;
        while self.first_busy < last && !self.writers[self.first_busy].busy() {
            self.first_busy += 1;
        }
        if self.first_busy < last {
            Some(self.first_busy)
        } else {
            None
        }
    }

    /// The current segment, where it is busy.
    fn current_busy(&self) -> Option<usize>
        ensures found { IfSome result (λ index. (suc index ≡ length self.now.state.segments) × IsBusyAt index self.now.state) }
        ensures none { result ≡ None → NoneBusy (drop (length self.now.state.segments - 1) self.now.state.segments) }
    {
        let last = self.writers.len().checked_sub(1)?;
        if self.writers[last].busy() {
            Some(last)
        } else {
            None
        }
    }

    /// Polls the first busy segment before the current one, and then the current one. Answers whether one is pending.
    pub(crate) fn poll_all(&mut self) -> bool
        requires lives { self.old.state.dead ≡ None }
        ensures polled { PollsAll self.old.state self.new.state (D.view self.old.disk) (D.view self.new.disk) result }
        ensures keeps { KeepsRecords D.tells D.view self.old self.new }
        ensures passes { Passes D.tells self.old.state self.new.state (D.view self.old.disk) (D.view self.new.disk) }
        ensures goes_on { GoesOn (D.view self.old.disk) (D.view self.new.disk) }
    {
        let early = match self.seek_busy() {
            Some(index) => self.poll(index),
            None => false,
        };
        let late = match self.current_busy() {
            Some(index) => self.poll(index),
            None => false,
        };
        early || late
    }

    /// Whether an operation of a segment is in flight.
    pub(crate) fn is_busy(&mut self) -> bool
        ensures busy { MatchBool result (NoneBusy self.old.state.segments → ⊥) (NoneBusy self.old.state.segments) }
        ensures same { self.new ≡ self.old }
    {
        self.seek_busy().is_some() || self.current_busy().is_some()
    }

    fn goal(&self) -> Goal
        ensures { result ≡ record { len = len self.now.state; want = self.now.state.want; acked = acked self.now.state } }
    {
        Goal {
            len: self.records.end(),
            want: self.want,
            acked: self.acked,
        }
    }

    /// How many segments are left by a stall if the next one is begun now: the current one, if it is not broken.
    fn left_behind(&self) -> u32
        ensures { result ≡ left_behind self.now.state.segments }
    {
        match self.writers.last() {
            Some(current) => { if current.broken() { 0 } else { 1 } }
            None => 0,
        }
    }

    /// Begins the next segment at the end of what is synced.
    pub(crate) fn begin_next(&mut self) -> Result<(), NoMemory>
        requires lives { self.old.state.dead ≡ None }
        requires behind { IsBehind self.old.state }
        requires few { length self.old.state.segments < SEGMENTS_MAX }
        ensures begun { OnOk result (BeginsOnDisk self.old.state self.new.state (D.view self.old.disk) (D.view self.new.disk)) }
        ensures err { OnErr result (self.new.state ≡ self.old.state) }
        ensures quiet { OnErr result (Makes [] (D.view self.old.disk) (D.view self.new.disk)) }
        ensures keeps { KeepsRecords D.tells D.view self.old self.new }
        ensures passes { Passes D.tells self.old.state self.new.state (D.view self.old.disk) (D.view self.new.disk) }
        ensures goes_on { GoesOn (D.view self.old.disk) (D.view self.new.disk) }
        ensures stalls { polls_left (D.view self.new.disk) ≡ polls_left (D.view self.old.disk) }
    {
        let index = self.writers.len();
        let name = SegName {
            wal: self.wal,
            index: index as u32,
        };
        let log = name.log();
        let goal = self.goal();
        let mut writer = LogWriter::new(self.alloc, side_at(index), name, log, self.acked)?;
        let left = self.left_behind();
        // The room is there before anything is started.
        self.writers.reserve(1)?;
        writer.begin(&mut self.disk, &self.records, &goal)?;
        match self.writers.push(writer) {
            Ok(()) => {
                self.left_by_stall += left;
                Ok(())
            }
            Err(_) => unreachable!(),
        }
    }

    /// The index of the current segment, where it is at rest.
    fn resting(&self) -> Option<usize>
        ensures found { IfSome result (λ last. IsRestingAt last self.now.state.segments) }
        ensures none { result ≡ None → NoneRests self.now.state.segments }
    {
        let last = self.writers.len().checked_sub(1)?;
        let current = &self.writers[last];
        if current.busy() || current.broken() {
            return None;
        }
        Some(last)
    }

    /// Starts what comes next on the current segment.
    pub(crate) fn start_next(&mut self) -> Result<(), NoMemory>
        requires lives { self.old.state.dead ≡ None }
        ensures started { OnOk result (MayStartNext self.old.state (D.view self.old.disk) (D.view self.new.disk) self.new.state) }
        ensures err { OnErr result (self.new.state ≡ self.old.state) }
        ensures quiet { OnErr result (Makes [] (D.view self.old.disk) (D.view self.new.disk)) }
        ensures keeps { KeepsRecords D.tells D.view self.old self.new }
        ensures passes { Passes D.tells self.old.state self.new.state (D.view self.old.disk) (D.view self.new.disk) }
        ensures goes_on { GoesOn (D.view self.old.disk) (D.view self.new.disk) }
        ensures stalls { polls_left (D.view self.new.disk) ≡ polls_left (D.view self.old.disk) }
    {
        let goal = self.goal();
        let Some(last) = self.resting() else {
            return Ok(());
        };
        if !self.is_behind() {
            return Ok(());
        }
        self.writers[last].begin(&mut self.disk, &self.records, &goal)?;
        Ok(())
    }
}
