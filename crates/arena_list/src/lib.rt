//! The versions of keys in order, in nodes that stand in one vector and name each other by their places in it.
//!
//! Stands on `wal_base` alone, for bytes and for `NoMemory`. The layers above use one contract: what a list answers is
//! what the sorted list of its versions answers, by key ascending and by number descending.
//!
//! What holds of each value here: the node at place 0 holds nothing and heads each level; what is linked at a level
//! ascends, and is linked at the level below too; each other node is linked at level 0 or is free, and no place is both.
//! A vector has what is compared of the nodes with high towers, in order, for searches to begin at. All keys that are held
//! begin with the same so many bytes, and each lead is of what follows these.
#![tactic(auto)]

mod found;
mod front;
mod guide;
mod keeping;
mod lead;
mod links;
mod list;
mod marks;
mod node;
mod search;
mod sought;
mod theorems;
mod top;
mod version;
mod walk;

pub use found::Found;
pub use list::ArenaList;
pub use marks::Marks;
pub use node::LEVELS;
pub use theorems::{a_mark_keeps_what_it_shows, a_newest_version_is_one};
pub use version::Version;
pub use walk::Walk;

#[cfg(test)]
mod tests;
