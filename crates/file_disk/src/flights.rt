//! The operations in flight in a directory, by number.

ghost use Rattle.std.specs.Prelude.{◌≡◌, ◌↔◌, ◌≢◌, ℕ, Some, None, IsTrue, IsSome, OnOk, OnErr};
ghost use Rattle.file_disk.specs.Flights.{in_flight};

use std::alloc::Global;
use std::collections::BTreeMap;
use wal_base::NoMemory;

/// An operation with its number.
#[derive(Drop)]
pub struct Numbered<T> {
    pub number: u64,
    pub op: T,
}

/// The operations in flight. One of them stands in place, so that memory is taken only where more are in flight.
#[derive(Drop)]
pub struct Flights<T> {
    first: Option<Numbered<T>>,
    others: BTreeMap<u64, T>,
}

impl<T: Drop> Flights<T> {
    /// Nothing is in flight. It takes no memory.
    pub fn new(alloc: Global) -> Flights<T>
        ensures { (q : ℕ) → in_flight result q ≡ None }
    {
        Flights {
            first: None,
            others: BTreeMap::new(alloc),
        }
    }

    /// Whether an operation of that number is in flight.
    pub fn has(&self, number: u64) -> bool
        ensures { IsTrue result ↔ IsSome (in_flight self.now number) }
    {
        match &self.first {
            Some(first) if first.number == number => true,
            _ => self.others.contains_key(&number),
        }
    }

    /// Puts an operation in flight. After an error all is as it was.
    pub fn insert(&mut self, number: u64, op: T) -> Result<(), NoMemory>
        requires fresh { in_flight self.old number ≡ None }
        ensures here { OnOk result (in_flight self.new number ≡ Some op) }
        ensures others { OnOk result ((q : ℕ) → q ≢ number → in_flight self.new q ≡ in_flight self.old q) }
        ensures err { OnErr result ((q : ℕ) → in_flight self.new q ≡ in_flight self.old q) }
    {
        if self.first.is_some() {
            self.others.insert(number, op)?;
        } else {
            self.first = Some(Numbered { number, op });
        }
        Ok(())
    }

    /// Takes an operation out of flight. `None` exactly where none of that number was in flight.
    pub fn remove(&mut self, number: u64) -> Option<T>
        ensures was { result ≡ in_flight self.old number }
        ensures gone { in_flight self.new number ≡ None }
        ensures others { (q : ℕ) → q ≢ number → in_flight self.new q ≡ in_flight self.old q }
    {
        let other = self.others.remove(&number);
        match self.first.take() {
            Some(first) if first.number == number => Some(first.op),
            first => {
                self.first = first;
                other
            }
        }
    }
}
