//! Which of the words are the command, its option and its values, by `clap`.

ghost use Rattle.std.specs.Prelude.{◌≡◌, codes, map, IfOk, IfSome, IfNone};
ghost use Rattle.std.specs.List.{list_any};
ghost use Rattle.std.specs.Str.{bytes_eq};
ghost use Rattle.std.specs.String.{string_bytes};
ghost use Rattle.clap.specs.Simple.{subcommand_rows_of};
ghost use Rattle.command_line.specs.Commands.{IsNoCommand};
ghost use Rattle.command_line.specs.Asked.{IsAskedBy, IsReadFrom, IsReadFromNothing};

use crate::asked::Asked;
use crate::command::Command;
use crate::program::program;
use clap::ArgMatches;
use clap::error::ErrorKind;
use std::alloc::Global;
use wal_base::NoMemory;

/// What the words ask for. `None` only where they are no command.
pub(crate) fn parse<'a>(alloc: Global, words: &'a [String]) -> Result<Option<Asked<'a>>, NoMemory>
    ensures some { let texts = map string_bytes words.entry.now in
        IfOk result (λ asked. IfSome asked (IsAskedBy texts)) }
    ensures none { let texts = map string_bytes words.entry.now in
        IfOk result (λ asked. IfNone asked (IsNoCommand texts)) }
{
    if has_end(words) {
        return Ok(None);
    }
    match program(alloc)?.try_get_matches_from(words) {
        Ok(matches) => Ok(asked_in(&matches)),
        Err(error) => match error.kind() {
            ErrorKind::OutOfMemory => Err(NoMemory),
            _ => Ok(None),
        },
    }
}

/// Whether one of the words is `--`, which `clap` takes for the end of the options.
fn has_end(words: &[String]) -> bool
    ensures { result ≡ list_any (λ word. bytes_eq (string_bytes word) (codes "--")) words.now }
{
    words.iter().any(|word| word.as_str() == "--")
}

/// What was asked for, by the command that was met and what was found behind its name.
fn asked_in<'a>(matches: &ArgMatches<'a>) -> Option<Asked<'a>>
    ensures some { IfSome result (λ asked.
        IfSome (subcommand_rows_of matches.now) (λ met. IsReadFrom met.0 met.1 asked)) }
    ensures none { IfNone result
        (IfSome (subcommand_rows_of matches.now) (λ met. IsReadFromNothing met.0 met.1)) }
{
    let (name, found) = matches.subcommand()?;
    match name {
        "replay" => Some(Asked::Replay {
            threshold: found.get_str("threshold"),
        }),
        "load" => Some(Asked::Load {
            seed: found.get_str("seed")?,
            count: found.get_str("count")?,
        }),
        _ => Some(Asked::Alone {
            command: Command::alone(name)?,
        }),
    }
}
