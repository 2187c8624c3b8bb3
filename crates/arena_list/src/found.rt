//! What is found of a key: its newest version.

ghost use Rattle.std.specs.Prelude.{◌≡◌, Some};
ghost use Rattle.arena_list.specs.Nodes.{version_in};
ghost use Rattle.arena_list.specs.Newest.{version_found};

use crate::node::Node;

/// The newest version of a key below a number.
#[derive(Clone, Copy, Debug, PartialEq, Eq)]
pub enum Found<'a> {
    /// No version of the key is below the number.
    Nothing,
    /// The newest one is a deletion, and has this number.
    Gone { seq: u64 },
    /// The newest one has this number, and left the key with these bytes.
    Value { seq: u64, bytes: &'a [u8] },
}

impl<'a> Found<'a> {
    /// The version that a node holds.
    pub(crate) fn one(node: &'a Node) -> Found<'a>
        ensures { version_found (version_in node.now).key result ≡ Some (version_in node.now) }
    {
        match node.held.value() {
            None => Found::Gone { seq: node.seq },
            Some(bytes) => Found::Value {
                seq: node.seq,
                bytes,
            },
        }
    }
}
