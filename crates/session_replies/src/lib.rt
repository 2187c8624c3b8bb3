//! What sessions are asked for, in rounds of lines, the replies to their lines, and which replies are legal.
//!
//! Stands on `batch_repr` for the batches, on `disk_face` for the two sides, on `text_lines` for how bytes are printed,
//! and on `wal_base` for bytes and lists. Who reads a script or makes a load stands above it, and so does who plays one.
//! The layers above use two contracts: the definition of which replies are legal, `AreLegal`, says what a run may answer
//! to its rounds, whichever session goes first; and `put_reply` adds exactly the line of a reply.
//!
//! `script` has the acts, lines, rounds and scripts, and `replies` the replies and the last line of a run.
#![tactic(auto)]

mod replies;
mod script;
mod theorems;

pub use replies::{RunEnd, Said, put_reply, put_run_end};
pub use script::{Act, Line, Lines, Round, Rounds, Script, StallLine, Stalls};
pub use theorems::{answers_in_order_are_legal, limits_are_exact, one_session_fixes_the_replies};

#[cfg(test)]
mod tests;
