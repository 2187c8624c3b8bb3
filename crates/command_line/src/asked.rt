//! What the words ask for, with the numbers as the texts that they are written in.

ghost use Rattle.std.specs.Prelude.{IfSome, IfNone};
ghost use Rattle.command_line.specs.declared.command.Command.{Command};
ghost use Rattle.command_line.specs.Asked.{Means};

use crate::command::{Command, LOAD_MAX, THRESHOLD_DEFAULT};
use crate::numbers::{number_in, small_number_in};
use stall_monitor::THRESHOLD_MAX;

/// What is asked for.
#[derive(Clone, Copy)]
pub(crate) enum Asked<'a> {
    Replay { threshold: Option<&'a str> },
    Load { seed: &'a str, count: &'a str },
    /// A command that is one word alone.
    Alone { command: Command },
}

impl Asked<'_> {
    /// The command, with the texts read. `None` exactly where one of them is no number of its range.
    pub(crate) fn command(self) -> Option<Command>
        ensures some { IfSome result (Means self.entry) }
        ensures none { IfNone result ((command : Command) → Means self.entry command → ⊥) }
    {
        match self {
            Asked::Replay { threshold: None } => Some(Command::Replay {
                threshold: THRESHOLD_DEFAULT,
            }),
            Asked::Replay {
                threshold: Some(text),
            } => Some(Command::Replay {
                threshold: small_number_in(text, THRESHOLD_MAX)?,
            }),
            Asked::Load { seed, count } => Some(Command::Load {
                seed: number_in(seed, 0, u64::MAX)?,
                batches: small_number_in(count, LOAD_MAX)?,
            }),
            Asked::Alone { command } => Some(command),
        }
    }
}
