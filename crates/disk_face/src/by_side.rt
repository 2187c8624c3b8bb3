//! A number for each side.

ghost use Rattle.std.specs.Prelude.{◌≡◌, ◌≢◌, ◌+◌, ◌<◌, ◌≤◌, ◌^◌, ◌-◌, min, MatchBool};
ghost use Rattle.disk_face.specs.declared.Side.{Side};
ghost use Rattle.disk_face.specs.BySide.{on_side, FallsIf, FallsByOneIf};
ghost use Rattle.wal_base.specs.Faults.{Rose};

use crate::Side;

/// A number for each side.
#[derive(Clone, Copy, Debug, PartialEq, Eq, Drop)]
pub struct BySide {
    /// The primary side's.
    pub primary: u64,
    /// The secondary side's.
    pub secondary: u64,
}

impl BySide {
    /// Takes one off, where there is one, and says whether it did.
    pub fn take_one(&mut self, side: Side) -> bool
        ensures taken { FallsIf result side self.old self.new }
        ensures none { MatchBool result (0 < on_side self.old side) (on_side self.old side ≡ 0) }
        ensures others { (s : Side) → on_side self.new s ≤ on_side self.old s }
        ensures exact { FallsByOneIf result side self.old self.new }
        ensures others_stay { (s : Side) → s ≢ side → on_side self.new s ≡ on_side self.old s }
    {
        match side {
            Side::Primary => {
                if self.primary == 0 {
                    return false;
                }
                self.primary -= 1;
            }
            Side::Secondary => {
                if self.secondary == 0 {
                    return false;
                }
                self.secondary -= 1;
            }
        }
        true
    }

    /// Adds so many, up to the last value.
    pub fn add(&mut self, side: Side, polls: u32)
        ensures exact { on_side self.new side ≡ min (on_side self.old side + polls) (2 ^ 64 - 1) }
        ensures others { (s : Side) → s ≢ side → on_side self.new s ≡ on_side self.old s }
    {
        match side {
            Side::Primary => self.primary = self.primary.saturating_add(u64::from(polls)),
            Side::Secondary => self.secondary = self.secondary.saturating_add(u64::from(polls)),
        }
    }

    /// Adds one, up to the last value.
    pub fn raise(&mut self, side: Side)
        ensures here { Rose (on_side self.old side) (on_side self.new side) }
        ensures others { (s : Side) → on_side self.old s ≤ on_side self.new s }
        ensures exact { on_side self.new side ≡ min (on_side self.old side + 1) (2 ^ 64 - 1) }
        ensures others_stay { (s : Side) → s ≢ side → on_side self.new s ≡ on_side self.old s }
    {
        match side {
            Side::Primary => self.primary = self.primary.saturating_add(1),
            Side::Secondary => self.secondary = self.secondary.saturating_add(1),
        }
    }
}
