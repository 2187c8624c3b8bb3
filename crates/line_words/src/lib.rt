//! The words of a line: a text is cut into its lines, a line into its words, and numbers are read in their one spelling.
//!
//! Stands on `wal_base` for bytes. The layer above uses three contracts: `Pieces` hands out the lines of a text, or the words
//! of a line, one after another, each as a part of its text where that is asked for; `next_word` takes a word off that
//! may name something; and `next_number` a number of a range.
//!
//! What must hold of a `Pieces`: the place where the rest begins lies within its text, whose bytes it looks at.
#![tactic(auto)]

mod pieces;
mod words;

pub use pieces::Pieces;
pub use words::{is_end, next_number, next_word, number_of};

#[cfg(test)]
mod tests;
