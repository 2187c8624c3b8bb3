//! A walk along a level.

ghost use Rattle.std.specs.Prelude.{◌≡◌, ◌<◌, length};
ghost use Rattle.std.specs.Iterator.{YieldsFirstBy, item_count};
ghost use Rattle.arena_list.specs.Versions.{version_shown};
ghost use Rattle.arena_list.specs.Nodes.{versions_on, versions_along, IsLinked, IsOnLevel};

use crate::node::{LEVELS, Node, Place};
use crate::version::Version;
use std::marker::Model;

/// Goes over the versions that are linked at a level. Contracts see the list of those that are left.
#[derive(Drop)]
pub struct Walk<'a> {
    nodes: &'a [Node],
    level: usize,
    at: Place,
}

impl<'a> Model for Walk<'a> {
    ghost use Rattle.std.specs.Prelude.{List};
    ghost use Rattle.arena_list.specs.Versions.{KeyVersion};
    ghost use Rattle.arena_list.specs.Nodes.{versions_along, IsOnLevel};

    ghost Value = { List KeyVersion };

    ghost view = { λ a. versions_along a.nodes.now a.level a.at };

    ghost invariant = { λ a. IsOnLevel a.nodes.now a.level a.at };
}

impl<'a> Walk<'a> {
    /// Begins at the head.
    pub(crate) fn new(nodes: &'a [Node], level: usize) -> Walk<'a>
        requires level { level < LEVELS }
        requires head { 0 < length nodes.now }
        requires linked { IsLinked nodes.now }
        ensures { result ≡ versions_on nodes.now level }
    {
        Walk {
            nodes,
            level,
            at: nodes[0].links[level],
        }
    }

    /// Begins at a place of the lowest level.
    pub(crate) fn from(nodes: &'a [Node], at: Place) -> Walk<'a>
        requires { IsOnLevel nodes.now 0 at }
        ensures { result ≡ versions_along nodes.now 0 at }
    {
        Walk {
            nodes,
            level: 0,
            at,
        }
    }
}

impl<'a> Iterator for Walk<'a> {
    type Item = Version<'a>;

    ghost next_gives = { YieldsFirstBy version_shown (λ s. s) };

    ghost remaining = { item_count (λ s. s) };

    fn next(&mut self) -> Option<Version<'a>> {
        if self.at == 0 {
            return None;
        }
        let node = &self.nodes[self.at as usize];
        self.at = node.links[self.level];
        Some(node.version())
    }
}
