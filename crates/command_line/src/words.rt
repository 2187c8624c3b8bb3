//! Which command the words of the command line are.

ghost use Rattle.std.specs.Prelude.{map, IfOk, IsErrOf};
ghost use Rattle.std.specs.String.{string_bytes};
ghost use Rattle.command_line.specs.Commands.{IsCommandOf, IsNoCommand};

use crate::command::{Command, WordsFault};
use crate::parse::parse;
use std::alloc::Global;

/// The command that the words after the program's name are. `Usage` only where they are none.
pub fn read_command(alloc: Global, words: &[String]) -> Result<Command, WordsFault>
    ensures command { IfOk result (IsCommandOf (map string_bytes words.now)) }
    ensures usage { IsErrOf result WordsFault.Usage → IsNoCommand (map string_bytes words.now) }
{
    let asked = parse(alloc, words)?.ok_or(WordsFault::Usage)?;
    asked.command().ok_or(WordsFault::Usage)
}
