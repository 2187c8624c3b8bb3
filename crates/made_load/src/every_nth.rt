//! Every so many-th batch of a load.

ghost use Rattle.std.specs.Prelude.{◌≡◌, ◌<◌, ◌+◌, ◌*◌, ◌%◌, ◌^◌};

use crate::load::LOAD_SESSIONS;

/// Every so many-th batch of a load: each one of a round, or those of one session.
#[derive(Clone, Copy, Debug, Drop)]
pub(crate) struct EveryNth {
    pub(crate) seed: u64,
    /// The number of the first.
    pub(crate) first: u32,
    /// By how much the number grows from one to the next.
    pub(crate) step: u32,
    /// So many places before a batch stands the one whose key it may delete.
    pub(crate) back: u32,
    pub(crate) count: u32,
    ghost fits: { first + step * count < 2 ^ 32 + step },
    ghost whole: { step * back ≡ 4 },
    /// So the key that one of them deletes is set by one of them.
    ghost eighth: { first % 8 < step },
}

impl EveryNth {
    ghost use Rattle.std.specs.Prelude.{[]};
    ghost use Rattle.made_load.specs.Load.{load_lines};
    ghost use Rattle.session_replies.specs.Legal.{lines_of_session};
    ghost use Rattle.made_load.specs.EveryNth.{nth_number, lines_of_each};

    /// None.
    pub(crate) fn none() -> EveryNth
        ensures { lines_of_each result ≡ [] }
    {
        EveryNth {
            seed: 0,
            first: 0,
            step: 1,
            back: 4,
            count: 0,
        }
    }

    /// Each of so many batches.
    pub(crate) fn each(seed: u64, from: u32, count: u32) -> EveryNth
        requires fits { from + count < 2 ^ 32 }
        requires eighth { from % 8 ≡ 0 }
        ensures { lines_of_each result ≡ load_lines seed from count }
    {
        EveryNth {
            seed,
            first: from,
            step: 1,
            back: 4,
            count,
        }
    }

    /// Those of so many batches that are of one session.
    pub(crate) fn of_session(seed: u64, from: u32, count: u32, session: usize) -> EveryNth
        requires fits { from + count < 2 ^ 32 }
        requires eighth { from % 8 ≡ 0 }
        ensures { lines_of_each result ≡ lines_of_session session (load_lines seed from count) }
    {
        if session >= LOAD_SESSIONS as usize {
            return EveryNth::none();
        }
        let after = session as u32;
        EveryNth {
            seed,
            first: from + after,
            step: LOAD_SESSIONS,
            back: 1,
            count: count.saturating_sub(after).div_ceil(LOAD_SESSIONS),
        }
    }

    /// The number of the batch at a place.
    pub(crate) fn number(&self, place: u32) -> u32
        requires { place < self.now.count }
        ensures { result ≡ nth_number self.now place }
    {
        self.first + self.step * place
    }
}
