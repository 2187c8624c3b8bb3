//! The commands with their words, as `clap` is told of them.

ghost use Rattle.std.specs.Prelude.{IfOk};
ghost use Rattle.command_line.specs.Program.{IsToldAs, bare_app, load_app, program_app, replay_app};

use clap::{Arg, ArgAction, Command};
use std::alloc::{AllocError, Global};

/// All commands.
pub(crate) fn program<'a>(alloc: Global) -> Result<Command<'a>, AllocError>
    ensures { IfOk result (IsToldAs program_app) }
{
    bare(alloc)
        .subcommand(replay(alloc)?)?
        .subcommand(load(alloc)?)?
        .subcommand(Command::new(alloc, "recover"))?
        .subcommand(Command::new(alloc, "dump"))?
        .subcommand(Command::new(alloc, "flush"))?
        .subcommand(Command::new(alloc, "view"))?
        .subcommand(Command::new(alloc, "ship"))
}

/// No command yet, and none of `clap`'s own words.
fn bare<'a>(alloc: Global) -> Command<'a>
    ensures { IsToldAs bare_app result }
{
    Command::new(alloc, "program")
        .no_binary_name(true)
        .disable_help_flag(true)
        .disable_help_subcommand(true)
        .disable_version_flag(true)
        .subcommand_required(true)
}

fn replay<'a>(alloc: Global) -> Result<Command<'a>, AllocError>
    ensures { IfOk result (IsToldAs replay_app) }
{
    let threshold = Arg::new(alloc, "threshold")
        .long("threshold")
        .action(ArgAction::Set);
    Command::new(alloc, "replay").arg(threshold)
}

fn load<'a>(alloc: Global) -> Result<Command<'a>, AllocError>
    ensures { IfOk result (IsToldAs load_app) }
{
    let seed = Arg::new(alloc, "seed")
        .required(true)
        .action(ArgAction::Set);
    let count = Arg::new(alloc, "count")
        .required(true)
        .action(ArgAction::Set);
    Command::new(alloc, "load").arg(seed)?.arg(count)
}
