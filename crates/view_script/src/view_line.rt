//! What a line asks for.

use wal_base::{Blob, ListOf};

/// What a line asks for. Holds are told apart by their index, in the order of the lines that ask for them.
#[derive(Debug, Drop)]
pub enum ViewLine {
    /// The store as it is at this number is held from now on.
    Hold { at: u64 },
    /// The value of a key at a hold.
    Get { hold: u64, key: Blob },
    /// The keys of a hold, with their values, from this key on. It is empty where the line names none.
    Scan { hold: u64, from: Blob },
    /// A hold is let go.
    Release { hold: u64 },
    /// What no hold shows is let go.
    Purge,
}

/// What lines ask for, in their order.
pub type ViewLines = ListOf<ViewLine>;
