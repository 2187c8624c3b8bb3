//! The lines of a session of one round, answered one after another.

ghost use Rattle.std.specs.Prelude.{◌≡◌, [], ◌++◌, false, IfOk, IfSome, IfNone, OnOk};
ghost use Rattle.session_replies.specs.declared.script.Act.TheVariants.{Commit};
ghost use Rattle.session_rounds.specs.Acts.{Does};
ghost use Rattle.session_rounds.specs.Turns.{has_line, beginning, turn_with, with_line, PlaysTurn};

use crate::transcript::Transcript;
use batch_repr::Unnumbered;
use commit_pipeline::{CommitFault, Gate, PipeName, Pipeline, Session};
use disk_face::Disk;
use made_load::LoadLines;
use session_replies::{Act, Line, Said};
use std::alloc::Global;
use std::collections::VecDeque;
use std::marker::Model;
use std::sync::Wait;
use std::sync::ledger::Ledger;
use wal_base::NoMemory;

/// A session with its lines of a round and what was said to them.
#[derive(Drop)]
pub(crate) struct Turn<N: PipeName, M: Ledger> {
    session: Session<N, M>,
    /// Those that are still to do, the next one first.
    lines: VecDeque<Line>,
    /// Those after them, which the turn makes itself.
    unmade: LoadLines,
    told: Transcript,
    starved: bool,
}

impl<N: PipeName, M: Ledger> Model for Turn<N, M> {
    ghost use Rattle.std.specs.Prelude.{◌++◌};
    ghost use Rattle.session_rounds.specs.declared.course.Course.{Course};

    ghost Value = { Course };

    ghost view = { λ t. record {
      session = t.session;
      lines = t.lines.items ++ t.unmade;
      told = t.told;
      starved = t.starved;
    } };
}

impl<N: PipeName, M: Ledger> Turn<N, M> {
    /// A session with no line, and room for so many. What is said to them is added to the transcript.
    pub(crate) fn of(
        alloc: Global,
        session: Session<N, M>,
        room: usize,
        told: Transcript,
    ) -> Result<Turn<N, M>, NoMemory>
        ensures { IfOk result (λ turn. turn ≡ beginning told session) }
    {
        Ok(Turn {
            session,
            lines: VecDeque::with_capacity(alloc, room)?,
            unmade: LoadLines::none(),
            told,
            starved: false,
        })
    }

    /// A session with lines that it makes itself. What is said to them is added to the transcript.
    pub(crate) fn to_make(
        alloc: Global,
        session: Session<N, M>,
        unmade: LoadLines,
        told: Transcript,
    ) -> Turn<N, M>
        ensures { result ≡ turn_with told session unmade }
    {
        Turn {
            session,
            lines: VecDeque::new(alloc),
            unmade,
            told,
            starved: false,
        }
    }

    /// Adds a line before those that it has.
    pub(crate) fn put_first(&mut self, line: Line) -> Result<(), NoMemory>
        ensures { OnOk result (self.new ≡ with_line line self.old) }
    {
        self.lines.push_front(line)?;
        Ok(())
    }

    /// How many lines are still to do.
    pub(crate) fn lines_left(&self) -> usize {
        self.lines.len().saturating_add(self.unmade.len())
    }

    /// Whether lines are still to do.
    pub(crate) fn is_at_work(&self) -> bool
        ensures { result ≡ has_line self.now }
    {
        !self.lines.is_empty() || !self.unmade.is_empty()
    }

    /// Whether one of its lines is a commit that waits for a sync.
    pub(crate) fn asks_for_sync(&self) -> bool {
        for line in self.lines.iter() {
            if matches!(line.act, Act::Commit { sync: true, .. }) {
                return true;
            }
        }
        self.unmade.ask_for_sync()
    }

    /// Answers its lines in their order, each before the next one is begun. On out of memory the rest
    /// of them is left.
    pub(crate) fn play<D: Disk, G: Gate, R: Wait>(
        &mut self,
        rt: &R,
        alloc: Global,
        pipe: &Pipeline<'_, D, G, N, M>,
    )
        ensures { self.new.starved ≡ false → PlaysTurn N.opening self.old self.new }
    {
        self.starved = self.answer_all(rt, alloc, pipe).is_err();
    }

    /// Answers its lines in their order.
    fn answer_all<D: Disk, G: Gate, R: Wait>(
        &mut self,
        rt: &R,
        alloc: Global,
        pipe: &Pipeline<'_, D, G, N, M>,
    ) -> Result<(), NoMemory>
        ensures { OnOk result (PlaysTurn N.opening self.old self.new) }
    {
        while let Some(line) = self.next_line(alloc)? {
            let number = line.session;
            let said = answer(rt, alloc, pipe, &mut self.session, line.act)?;
            self.told.note(number, said)?;
        }
        Ok(())
    }

    /// Takes the next line, which is made first where it is not made yet. `None` exactly where none is left.
    fn next_line(&mut self, alloc: Global) -> Result<Option<Line>, NoMemory>
        ensures some { IfOk result
            (λ next. IfSome next (λ line. self.old ≡ with_line line self.new)) }
        ensures none { IfOk result
            (λ next. IfNone next ((self.old.lines ≡ []) × (self.new ≡ self.old))) }
    {
        refill(alloc, &mut self.lines, &mut self.unmade)?;
        Ok(self.lines.pop_front())
    }

    /// Its session and what was said, unless it ran out of memory.
    pub(crate) fn into_told(self) -> Result<(Session<N, M>, Transcript), NoMemory>
        ensures session { IfOk result (λ ended. ended.0 ≡ self.session) }
        ensures told { IfOk result (λ ended. ended.1 ≡ self.told) }
        ensures whole { OnOk result (self.starved ≡ false) }
    {
        let Turn {
            session,
            lines: _,
            unmade: _,
            told,
            starved,
        } = self;
        if starved {
            return Err(NoMemory);
        }
        Ok((session, told))
    }
}

/// Makes the lines that come next, where those before them are done.
fn refill(alloc: Global, lines: &mut VecDeque<Line>, unmade: &mut LoadLines) -> Result<(), NoMemory>
    ensures same { OnOk result (lines.new.items ++ unmade.new ≡ lines.old.items ++ unmade.old) }
    ensures made { OnOk result (lines.new.items ≡ [] → unmade.new ≡ []) }
{
    if lines.is_empty() && !unmade.is_empty() {
        *lines = VecDeque::from(unmade.make(alloc)?.into_vec());
        *unmade = LoadLines::none();
    }
    Ok(())
}

/// Does an act for a session, and answers what is said of it. A batch is written as it is committed.
fn answer<D: Disk, G: Gate, N: PipeName, M: Ledger, R: Wait>(
    rt: &R,
    alloc: Global,
    pipe: &Pipeline<'_, D, G, N, M>,
    session: &mut Session<N, M>,
    act: Act,
) -> Result<Said, NoMemory>
    ensures { IfOk result (λ said. Does N.opening session.old act said session.new) }
{
    match act {
        Act::Commit { sync, batch } => {
            let batch = batch.write(alloc)?;
            commit(rt, pipe, session, batch, sync)
        }
        Act::Get { key } => {
            let reply = pipe.get(rt, session, key.as_slice())?;
            Ok(Said::Got {
                key,
                value: reply.value,
                visible: reply.visible,
            })
        }
    }
}

/// Commits a batch for a session, and answers what is said of it.
fn commit<D: Disk, G: Gate, N: PipeName, M: Ledger, R: Wait>(
    rt: &R,
    pipe: &Pipeline<'_, D, G, N, M>,
    session: &mut Session<N, M>,
    batch: Unnumbered,
    sync: bool,
) -> Result<Said, NoMemory>
    ensures { IfOk result (λ said. Does N.opening session.old (Commit sync batch) said session.new) }
{
    match pipe.commit(rt, session, batch, sync) {
        Ok(done) => Ok(Said::Committed {
            first: done.first,
            count: done.count,
            synced: done.synced,
        }),
        Err(CommitFault::Dead { .. }) => Ok(Said::Dead),
        Err(CommitFault::TooManyBatches { .. }) => Ok(Said::Limit),
        Err(CommitFault::SeqExhausted { .. }) => Ok(Said::Limit),
        Err(CommitFault::Unsynced { first, count, .. }) => Ok(Said::Unsynced { first, count }),
        Err(CommitFault::NoMemory | CommitFault::NoMemorySync { .. }) => Err(NoMemory),
    }
}
