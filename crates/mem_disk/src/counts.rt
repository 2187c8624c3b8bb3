//! The calls that are to fail.

ghost use Rattle.std.specs.Prelude.{◌≡◌, ◌+◌, ◌^◌, ◌-◌, ◌↔◌, min, IsTrue, Contains};

/// The calls of one kind that are to fail.
#[derive(Drop)]
pub struct CallFaults {
    /// Their numbers.
    pub numbers: Vec<u64>,
    /// How many calls there were.
    pub calls: u64,
}

impl CallFaults {
    /// Counts a call, and says whether it is to fail.
    pub fn next(&mut self) -> bool
        ensures fails { IsTrue result ↔ Contains self.old.numbers.items self.old.calls }
        ensures counts { self.new.calls ≡ min (self.old.calls + 1) (2 ^ 64 - 1) }
        ensures same { self.new.numbers ≡ self.old.numbers }
    {
        let number = self.calls;
        self.calls = number.saturating_add(1);
        self.numbers.contains(&number)
    }
}
