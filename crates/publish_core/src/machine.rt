//! The machine as a value.
ghost use Rattle.std.specs.Prelude.{◌≡◌, ◌<◌, IfOk};
ghost use Rattle.publish_core.specs.Kept.{kept_state};
ghost use Rattle.publish_core.specs.Parts.{IsSoundCore};

use crate::state::{END_LIMIT, KeptState};
use std::alloc::Global;
use wal_base::NoMemory;

/// The commit ring as a value, in which one event is done at a time.
#[derive(Drop)]
pub struct Core {
    pub(crate) kept: KeptState,
    pub ghost sound: { IsSoundCore (kept_state kept) },
}

impl Core {
    ghost use Rattle.publish_core.specs.Answers.{state_of};
    ghost use Rattle.publish_core.specs.Schedule.{opening};

    /// The machine in its opening state: no batch, the visible number `v0`, which is below `END_LIMIT`, and the
    /// producer's seat alone.
    pub fn new(alloc: Global, v0: u64) -> Result<Core, NoMemory>
        requires { v0 < END_LIMIT }
        ensures { IfOk result (λ core. state_of core ≡ opening v0) }
    {
        Ok(Core {
            kept: KeptState::opening(alloc, v0)?,
        })
    }
}
