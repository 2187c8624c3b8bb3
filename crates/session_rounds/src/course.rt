//! What contracts see of a session that plays a round. No value of it is made: a clause reads an array
//! as a list of any length.

use crate::transcript::Transcript;
use commit_pipeline::Standing;
use session_replies::Line;

/// What contracts see of a session that plays a round.
pub struct Course {
    /// The session itself.
    pub session: Standing,
    /// Its lines of the round that are still to do, the next one first.
    pub lines: [Line; 0],
    /// What was said so far, in the order of the lines.
    pub told: Transcript,
    /// Whether it ran out of memory.
    pub starved: bool,
}
