//! A script, read line by line.

ghost use Rattle.std.specs.Prelude.{◌≡◌, ◌<◌, ◌≤◌, ◌+◌, [], ℕ, length, IfOk, OnOk, IsErrOf, Err};
ghost use Rattle.batch_repr.specs.declared.limits.TheConstants.{SESSIONS_MAX};
ghost use Rattle.session_script.specs.declared.saying.Saying.TheVariants as sayings;
ghost use Rattle.session_script.specs.declared.fault.ScriptFault.TheVariants as faults;
ghost use Rattle.line_words.specs.Words.{lines_of};
ghost use Rattle.session_script.specs.Script.{IsScript, IsFirstBad, sessions_named};
ghost use Rattle.session_replies.specs.Rounds.{NamesItsSessions, script_numbers};
ghost use Rattle.session_script.specs.Drafts.{empty_draft, with_saying, script_of, TakesLine, RefusesLine};

use crate::fault::{LineFault, ScriptFault};
use crate::saying::Saying;
use crate::sayings::said_by;
use line_words::Pieces;
use session_replies::{Line, Round, Rounds, Script, StallLine};
use std::alloc::Global;
use std::mem;
use wal_base::{Blob, NoMemory};

/// A script as far as it is read.
#[derive(Drop)]
struct Draft {
    /// The rounds that ended.
    ended: Rounds,
    /// The round that goes on.
    round: Round,
    /// Whether a line said `halt`.
    halted: bool,
    /// 1 more than the greatest session named so far, at least 1.
    sessions: u32,
}

impl Draft {
    /// Of no line.
    fn new(alloc: Global) -> Draft
        ensures { result ≡ empty_draft }
    {
        Draft {
            ended: Rounds::new(alloc),
            round: Round::new(alloc),
            halted: false,
            sessions: 1,
        }
    }

    /// Adds a line of a session to the round.
    fn push_line(&mut self, line: Line) -> Result<(), NoMemory>
        requires { line.session < SESSIONS_MAX }
        ensures { OnOk result (self.new ≡ with_saying self.old (sayings.Does line)) }
    {
        self.sessions = self.sessions.max(line.session + 1);
        self.round.lines.push(line).map_err(|_| NoMemory)
    }

    /// Adds a stall to the round.
    fn push_stall(&mut self, line: StallLine) -> Result<(), NoMemory>
        ensures { OnOk result (self.new ≡ with_saying self.old (sayings.Stalls line)) }
    {
        self.round.stalls.push(line).map_err(|_| NoMemory)
    }

    /// Ends the round, and begins the next one.
    fn end_round(&mut self, alloc: Global) -> Result<(), NoMemory>
        ensures { OnOk result (self.new ≡ with_saying self.old sayings.EndsRound) }
    {
        let round = mem::replace(&mut self.round, Round::new(alloc));
        self.ended.push(round).map_err(|_| NoMemory)
    }

    /// Adds what a line says.
    fn add(&mut self, alloc: Global, saying: Saying) -> Result<(), NoMemory>
        requires { sessions_named saying ≤ SESSIONS_MAX }
        ensures { OnOk result (self.new ≡ with_saying self.old saying) }
    {
        match saying {
            Saying::Does { line } => self.push_line(line),
            Saying::Stalls { line } => self.push_stall(line),
            Saying::EndsRound => self.end_round(alloc),
            Saying::Halts => {
                self.halted = true;
                Ok(())
            }
        }
    }

    /// Adds a line. It is bad where it is no line of a script, and where it says something after a `halt`.
    fn add_line(&mut self, alloc: Global, line: &Blob) -> Result<(), LineFault>
        ensures added { OnOk result (TakesLine self.old line.now self.new) }
        ensures bad { IsErrOf result LineFault.Bad → RefusesLine self.old line.now }
    {
        let Some(saying) = said_by(alloc, line)? else {
            return Ok(());
        };
        if self.halted {
            return Err(LineFault::Bad);
        }
        self.add(alloc, saying)?;
        Ok(())
    }

    /// The script, of which the last round ends here.
    fn finish(self) -> Result<Script, NoMemory>
        ensures { IfOk result (λ script. script ≡ script_of self) }
    {
        let Draft {
            mut ended,
            round,
            halted,
            sessions,
        } = self;
        ended.push(round).map_err(|_| NoMemory)?;
        Ok(Script {
            rounds: ended,
            halted,
            sessions,
        })
    }
}

/// The script that a text is. What its lines name are parts of the text.
fn read_text(alloc: Global, text: &Blob) -> Result<Script, ScriptFault>
    ensures script { IfOk result (IsScript text.now) }
    ensures sessions { IfOk result NamesItsSessions }
    ensures few { IfOk result (λ script. script_numbers script ≤ length text.now + 1) }
    ensures bad { (line : ℕ) → result ≡ Err (faults.BadLine line) → IsFirstBad (lines_of text.now) line }
{
    let mut draft = Draft::new(alloc);
    let mut lines = Pieces::lines(text);
    let mut number = 0;
    while let Some(line) = lines.next_part()? {
        number += 1;
        match draft.add_line(alloc, &line) {
            Ok(()) => {}
            Err(LineFault::Bad) => return Err(ScriptFault::BadLine { line: number }),
            Err(LineFault::NoMemory) => return Err(ScriptFault::NoMemory),
        }
    }
    Ok(draft.finish()?)
}

/// Reads a script. `Err` tells the first bad line, counted from 1, or that memory ran out. The bytes are copied once, and all
/// that the script names is a part of the copy.
pub fn read_script(alloc: Global, bytes: &[u8]) -> Result<Script, ScriptFault>
    ensures script { IfOk result (IsScript bytes.now) }
    ensures sessions { IfOk result NamesItsSessions }
    ensures few { IfOk result (λ script. script_numbers script ≤ length bytes.now + 1) }
    ensures bad { (line : ℕ) → result ≡ Err (faults.BadLine line) → IsFirstBad (lines_of bytes.now) line }
{
    let text = Blob::copy_of(alloc, bytes)?;
    read_text(alloc, &text)
}
