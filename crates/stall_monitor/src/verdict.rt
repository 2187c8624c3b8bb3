//! What is shown, and what is decided.

ghost use Rattle.std.specs.Prelude.{◌≡◌, ◌↔◌};
ghost use Rattle.stall_monitor.specs.declared.verdict.Verdict.TheVariants as verdicts;
ghost use Rattle.stall_monitor.specs.Verdicts.{IsToSwitch, IsToDie};

/// How many segments a log may begin in one run.
pub const SEGMENTS_MAX: u32 = 10;

/// The greatest threshold. A writer counts pending answers as far.
pub const THRESHOLD_MAX: u32 = 1_000;

/// What is shown of a log and its current segment.
#[derive(Clone, Copy, Debug, PartialEq, Eq)]
pub struct MonitorView {
    /// How many segments were begun, the current one among them.
    pub opened: u32,
    /// Whether an operation on the current segment has failed.
    pub broken: bool,
    /// How often in a row the operation in flight on it was pending.
    pub waiting: u32,
    /// From how many pending answers on it hangs: 1 to `THRESHOLD_MAX`.
    pub threshold: u32,
    /// Whether a record is not synced in any segment.
    pub behind: bool,
}

/// What is to be done.
#[derive(Clone, Copy, Debug, PartialEq, Eq)]
pub enum Verdict {
    /// To go on with the current segment.
    Stay,
    /// To begin the next segment, in the other directory.
    Switch,
    /// To give up: the last segment that may be begun is broken.
    Dead,
}

/// The verdict. `Dead` exactly where the last segment that may be begun is broken; `Switch` exactly where another one may
/// be begun, a record is not synced, and the current segment is broken or hangs.
pub fn decide(view: &MonitorView) -> Verdict
    ensures dead { (result ≡ verdicts.Dead) ↔ IsToDie view.now }
    ensures switch { (result ≡ verdicts.Switch) ↔ IsToSwitch view.now }
{
    if view.broken && view.opened == SEGMENTS_MAX {
        return Verdict::Dead;
    }
    let hangs = view.broken || view.waiting >= view.threshold;
    if view.opened < SEGMENTS_MAX && view.behind && hangs {
        return Verdict::Switch;
    }
    Verdict::Stay
}
