//! The commands.

ghost use Rattle.std.specs.Prelude.{◌≡◌};
ghost use Rattle.command_line.specs.Program.{command_alone};

use thiserror::Error;
use wal_base::NoMemory;

/// From how many pending polls in a row an operation hangs, where the words do not say.
pub const THRESHOLD_DEFAULT: u32 = 3;

/// The most batches of a load.
pub const LOAD_MAX: u32 = 2_000_000;

/// What the words ask for.
#[derive(Clone, Copy, Debug, PartialEq, Eq)]
pub enum Command {
    /// Run a script over a journal.
    Replay {
        /// From how many pending polls in a row an operation hangs.
        threshold: u32,
    },
    /// Print the store.
    Recover,
    /// Print the segments and their batches.
    Dump,
    /// Write made batches.
    Load {
        /// What the batches are made from.
        seed: u64,
        /// How many they are.
        batches: u32,
    },
    /// Write the store into one table, and remove the segments that it covers.
    Flush,
    /// Read the store as it was at held numbers.
    View,
    /// Write the store's batches as a stream.
    Ship,
}

impl Command {
    /// The command that this word is alone.
    pub(crate) fn alone(word: &str) -> Option<Command>
        ensures { result ≡ command_alone word.now }
    {
        if word == "recover" {
            Some(Command::Recover)
        } else if word == "dump" {
            Some(Command::Dump)
        } else if word == "flush" {
            Some(Command::Flush)
        } else if word == "view" {
            Some(Command::View)
        } else if word == "ship" {
            Some(Command::Ship)
        } else {
            None
        }
    }
}

/// Why words are not read as a command.
#[derive(Clone, Copy, Debug, PartialEq, Eq, Error)]
pub enum WordsFault {
    /// They are no command.
    #[error("the words are no command")]
    Usage,
    /// Memory ran out.
    #[error("out of memory")]
    NoMemory,
}

impl From<NoMemory> for WordsFault {
    ghost use Rattle.std.specs.Prelude.{◌≡◌};
    ghost use Rattle.command_line.specs.declared.command.WordsFault.TheVariants as faults;

    ghost from_gives = { λ _ e. e ≡ faults.NoMemory };

    fn from(_: NoMemory) -> WordsFault {
        WordsFault::NoMemory
    }
}
