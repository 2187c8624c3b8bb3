//! The law over every list of events, and the soundness of every machine.
ghost use Rattle.publish_core.specs.Answers.{state_of};
ghost use Rattle.publish_core.specs.Parts.{shape_count, has_part, IsSoundCore};
ghost use Rattle.publish_core.specs.Schedule.{Law, NeverFalls};

use crate::machine::Core;

/// Whatever events are offered, each state that is reached is sound, batches are taken from the front as 0, 1,
/// 2, .., each once, and the visible number never falls.
pub fn all_schedules()
    ensures kept { Law shape_count has_part }
    ensures rises { NeverFalls shape_count has_part }
{}

/// Every machine is in a sound state.
pub fn every_core_is_sound(core: &Core)
    ensures { IsSoundCore (state_of core.now) }
{}
