//! The commit ring as a pure machine: seats that place batches in a ring of `SLOTS` slots, mark them as applied, and
//! take them from the front to publish them, in fifteen kinds of atomic step.
//!
//! Stands on `wal_base` for `NoMemory`, on `batch_repr` for the limits of batches and on `atomic_table` for a lemma on
//! remainders. The layer above uses the definitions of the machine (its state, its events, when each is possible and
//! what it changes) and one contract: from any sound state every possible event leads to a sound state. A machine as a
//! value, `Core`, does an event exactly where it is possible, and changes nothing where it isn't or where memory runs
//! out.
//!
//! What holds of each value here: every `Core` is in a sound state, in which each batch is held by one seat, marked,
//! claimed by one seat or published, and a ring word tells the end of its batch and whether it is marked.
#![tactic(auto)]

mod events;
mod lending;
mod machine;
mod marks;
mod placing;
mod publishing;
mod reading;
mod seat;
mod seating;
mod state;
mod theorems;

pub use events::CoreEvent;
pub use machine::Core;
pub use seat::{BatchShape, Claim, Counts, Ends, Kind, Pair, Reading, SeatState, Stage};
pub use state::{END_LIMIT, SHARDS, SLOTS};
pub use theorems::{all_schedules, every_core_is_sound};

#[cfg(test)]
mod tests;
