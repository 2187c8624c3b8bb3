//! What is run: a script, or a load.

ghost use Rattle.std.specs.Prelude.{◌≡◌};
ghost use Rattle.script_runner.specs.Works.{halts, work_sessions};

use made_load::{LOAD_SESSIONS, Load};
use session_replies::Script;

/// What is run over what the directories recover to.
#[derive(Drop)]
pub enum Work {
    /// A script, whose replies are told.
    Script(Script),
    /// A load, of which no reply is told. Its rounds are made one after another, each once the one before has been run.
    Load(Load),
}

impl Work {
    /// Whether the journal is left as it is at the end.
    pub(crate) fn halts(&self) -> bool
        ensures { result ≡ halts self.now }
    {
        match self {
            Work::Script(script) => script.halted,
            Work::Load(_) => false,
        }
    }

    /// How many sessions it has.
    pub(crate) fn sessions(&self) -> u32
        ensures { result ≡ work_sessions self.now }
    {
        match self {
            Work::Script(script) => script.sessions,
            Work::Load(_) => LOAD_SESSIONS,
        }
    }
}
