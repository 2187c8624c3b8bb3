//! Laws of replies that no single call says.

ghost use Rattle.session_replies.specs.Theorems.{AnswersInOrderAreLegal, OneSessionFixesReplies, LimitsAreExact};

/// A round whose lines are answered one after another, session by session, is legal.
pub fn answers_in_order_are_legal()
    ensures { AnswersInOrderAreLegal }
{}

/// Where each round is of one session, the batches and the replies are fixed by the script, the base, and which of the
/// replies tell a journal that is dead. Whether a sync covers a batch is not fixed.
pub fn one_session_fixes_the_replies()
    ensures { OneSessionFixesReplies }
{}

/// A run takes no more numbers and no more batches than its rounds ask for, and a reply tells a limit only where they ask
/// for too much. Where the journal did not die, some reply then does, and where none does the run takes all of it.
pub fn limits_are_exact()
    ensures { LimitsAreExact }
{}
