//! The commit ring over a table of atomic words: batches are placed in order, marked in any order,
//! and made visible in order, by whichever seat comes first, without a lock.
//!
//! Stands on `atomic_table` for the words, their single steps and the seats; on `publish_core` for
//! the machine of which a table is one sound state; on `batch_repr` for the batches that are placed;
//! and on `memtable_shards` for the shards that lie in the table's slots. The layer above uses the
//! calls of `PipeTable`, whose contracts say what a seat knows after each call, as one value: its
//! view. What a pipeline says of a seat it says of one record in std's words, and no crate above
//! knows of the machine.
//!
//! What holds between any two steps: the words, the shards at home and the views of all seats are a
//! sound state of the machine. So a batch is visible only once it and all before it are marked, and
//! no seat ever sees a smaller number than before.
#![tactic(auto)]

mod acking;
mod holder;
mod layout;
mod lending;
mod meeting;
mod opening;
mod pipe_table;
mod producer;
mod published;
mod publishing;
mod retiring;
mod seats;
mod steps;
mod view;
mod waiting;

pub use holder::Holder;
pub use pipe_table::{PipeTable, Shards};
pub use published::Published;
pub use retiring::Retired;
pub use seats::{FlushSeat, Handed, ProducerSeat, SessionSeat, SessionSeats};
pub use view::{AckedKnown, View};
pub use waiting::{Waiter, rest};

#[cfg(test)]
mod tests;
