//! What a line of a script says.

use session_replies::{Line, StallLine};

/// The most polls that one line stalls, a limit of this project's own.
pub const POLLS_MAX: u32 = 100_000;

/// What a line of a script says.
#[derive(Drop)]
pub(crate) enum Saying {
    /// A session acts.
    Does { line: Line },
    /// Polls are stalled as the round begins.
    Stalls { line: StallLine },
    /// The round ends, and the next one begins.
    EndsRound,
    /// The run ends without a close.
    Halts,
}
