//! Numbers that versions are kept for.

ghost use Rattle.std.specs.Prelude.{◌≡◌, ◌++◌, ◌∷◌, [], Contains, length, IfErr, IfSome, IfNone, OnOk, OnErr, slice_get};
ghost use Rattle.std.specs.Option.{option_copied};
ghost use Rattle.std.specs.List.Sorted.{IsNonDecreasing};
ghost use Rattle.arena_list.specs.Marks.{PutsMark, TakesMark, IsFirstAbove, IsPlaceOf};

use std::alloc::Global;
use std::marker::Model;
use wal_base::NoMemory;

/// Numbers, of which each keeps the newest version of each key below it. Contracts see the list of them.
#[derive(Debug, Drop)]
pub struct Marks {
    numbers: Vec<u64>,
}

impl Model for Marks {
    ghost use Rattle.std.specs.Prelude.{List, ℕ};

    ghost Value = { List ℕ };

    ghost view = { λ a. a.numbers.items };
}

/// The place of the first number that is greater, and the length where there is none.
fn first_above(numbers: &[u64], number: u64) -> usize
    ensures { IsFirstAbove numbers.now number result }
{
    for place in 0..numbers.len() {
        if numbers[place] > number {
            return place;
        }
    }
    numbers.len()
}

/// The place of a number that is held.
fn place_of(numbers: &[u64], number: u64) -> usize
    requires { Contains numbers.now number }
    ensures { IsPlaceOf numbers.now number result }
{
    for place in 0..numbers.len() {
        if numbers[place] == number {
            return place;
        }
    }
    unreachable!()
}

impl Marks {
    /// Holds none, and takes no memory.
    pub fn new(alloc: Global) -> Marks
        ensures { result ≡ [] }
    {
        Marks {
            numbers: Vec::new(alloc),
        }
    }

    /// How many there are.
    pub fn len(&self) -> usize
        ensures { result ≡ length self.now }
    {
        self.numbers.len()
    }

    /// The number at a place, counted from 0. `None` exactly where the place is not below the length.
    pub fn get(&self, at: usize) -> Option<&u64>
        ensures { option_copied result ≡ slice_get self.now at }
    {
        self.numbers.get(at)
    }

    /// Adds a number at the end. `Err` means out of memory, and hands it back.
    pub fn push(&mut self, number: u64) -> Result<(), u64>
        ensures ok { OnOk result (self.new ≡ self.old ++ number ∷ []) }
        ensures err { IfErr result (λ back. back ≡ number) }
        ensures unchanged { OnErr result (self.new ≡ self.old) }
    {
        match self.numbers.push(number) {
            Ok(()) => Ok(()),
            Err(failed) => Err(failed.value),
        }
    }

    /// Takes off the last number. `None` exactly where there is none. It takes no memory.
    pub fn pop(&mut self) -> Option<u64>
        ensures some { IfSome result (λ number. self.old ≡ self.new ++ number ∷ []) }
        ensures none { IfNone result ((self.old ≡ []) × (self.new ≡ [])) }
    {
        self.numbers.pop()
    }

    /// Shows them.
    pub fn as_slice(&self) -> &[u64]
        ensures { result.now ≡ self.now }
    {
        self.numbers.as_slice()
    }

    /// Puts a number in before the first greater one, or at the end where there is none. So numbers that ascend go on
    /// ascending.
    pub fn insert(&mut self, number: u64) -> Result<(), NoMemory>
        ensures put { OnOk result (PutsMark self.old number self.new) }
        ensures ascends { OnOk result (IsNonDecreasing self.old → IsNonDecreasing self.new) }
        ensures unchanged { OnErr result (self.new ≡ self.old) }
    {
        let place = first_above(self.numbers.as_slice(), number);
        match self.numbers.insert(place, number) {
            Ok(()) => Ok(()),
            Err(_) => Err(NoMemory),
        }
    }

    /// Takes one such number out. It takes no memory.
    pub fn remove(&mut self, number: u64)
        requires { Contains self.old number }
        ensures taken { TakesMark self.old number self.new }
        ensures ascends { IsNonDecreasing self.old → IsNonDecreasing self.new }
    {
        let place = place_of(self.numbers.as_slice(), number);
        self.numbers.remove(place);
    }
}
