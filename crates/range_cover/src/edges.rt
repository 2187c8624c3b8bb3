//! The edges: the keys where the newest range delete over a key changes.
//!
//! An edge is a version without a value in an `ArenaList`. Its number tells the newest range delete over its key and over
//! those behind it, up to the next edge: 2 more than that one's number, and 1 where there is none. So an edge goes before
//! the spot of its key and 0, and does not go before that of its key and the greatest number.

ghost use Rattle.std.specs.Prelude.{◌≡◌, ◌<◌, ◌+◌, IfSome, IfNone, OnOk, OnErr, OnSome, Some, None, Contains, List, ℕ};
ghost use Rattle.std.specs.Bool.{OnTrue, OnFalse};
ghost use Rattle.arena_list.specs.Spots.{IsFirstFrom};
ghost use Rattle.arena_list.specs.Versions.{KeyVersion, version_with, AscendVersions, HoldsVersion, Adds};
ghost use Rattle.range_cover.specs.Marks.{StandsBefore};
ghost use Rattle.range_cover.specs.Edges.{IsUpTo, top_of, AreTops, HasEdge};
ghost use Rattle.range_cover.specs.Steps.{Tells, CoverSome, TellsTheSame, TellsOneMore, HandsEdgeOver, HandsNext};

use crate::mark::RangeMark;
use arena_list::ArenaList;
use std::mem::replace;
use wal_base::{Blob, NoMemory};

/// What an edge tells where no range delete covers a key.
pub(crate) const NOTHING: u64 = 1;

/// An edge that was taken out.
#[derive(Drop)]
pub(crate) struct Edge {
    key: Blob,
    top: u64,
}

/// What an edge tells of a range delete: 2 more than its number, as far as numbers reach.
fn top_of(number: u64) -> u64
    ensures { result ≡ top_of number }
{
    number.saturating_add(2)
}

/// What the edges tell of a key.
pub(crate) fn top_at(edges: &ArenaList, key: &[u8]) -> u64
    requires tops { AreTops edges.now.versions }
    ensures { Tells edges.now.versions key.now result }
{
    match edges.before(key, 0) {
        Some(edge) => edge.seq,
        None => NOTHING,
    }
}

/// What an edge at a key would tell, so that nothing told changes. `None` where one stands there.
fn top_to_add(edges: &ArenaList, key: &[u8]) -> Option<u64>
    requires tops { AreTops edges.now.versions }
    ensures told { IfSome result (Tells edges.now.versions key.now) }
    ensures absent { IfSome result (λ top. HasEdge edges.now.versions key.now → ⊥) }
    ensures there { IfNone result (HasEdge edges.now.versions key.now) }
{
    match edges.before(key, 0) {
        None => Some(NOTHING),
        Some(edge) => {
            if edge.key == key {
                None
            } else {
                Some(edge.seq)
            }
        }
    }
}

/// Puts an edge at a key, where none stands, that tells of it what was told before.
fn add_edge(edges: &mut ArenaList, key: &Blob) -> Result<(), NoMemory>
    requires tops { AreTops edges.old.versions }
    ensures told { OnOk result (TellsTheSame edges.old.versions edges.new.versions) }
    ensures there { OnOk result (HasEdge edges.new.versions key.now) }
    ensures kept { OnOk result
        ((other : List ℕ) → HasEdge edges.old.versions other → HasEdge edges.new.versions other) }
    ensures same { OnErr result (edges.new ≡ edges.old) }
{
    let Some(top) = top_to_add(edges, key.as_slice()) else {
        return Ok(());
    };
    let Ok(()) = edges.insert(key.share()?, top, None) else {
        return Err(NoMemory);
    };
    Ok(())
}

/// Puts edges at the start and at the end of a range, where none stand. What was told is told after an error, too.
pub(crate) fn add_edges(edges: &mut ArenaList, mark: &RangeMark) -> Result<(), NoMemory>
    requires covers { CoverSome edges.old.versions }
    ensures told { TellsTheSame edges.old.versions edges.new.versions }
    ensures start { OnOk result (HasEdge edges.new.versions mark.now.start) }
    ensures end { OnOk result (HasEdge edges.new.versions mark.now.end) }
{
    add_edge(edges, &mark.end)?;
    add_edge(edges, &mark.start)?;
    Ok(())
}

/// Puts an edge in again. A place is free, so it takes no memory.
fn put_back(edges: &mut ArenaList, edge: Edge)
    requires room { 0 < edges.old.free }
    requires absent { HoldsVersion edges.old.versions edge.key edge.top → ⊥ }
    ensures added { Adds edges.old.versions (version_with edge.key edge.top None)
        edges.new.versions }
    ensures free { edges.new.free + 1 ≡ edges.old.free }
    ensures ascend { AscendVersions edges.new.versions }
{
    let Ok(()) = edges.insert(edge.key, edge.top, None) else {
        unreachable!();
    };
    // That the edges ascend is told by `walk`.
    let _walk = edges.walk();
}

/// Takes the edge at a key out.
fn take_at(edges: &mut ArenaList, key: &[u8]) -> Edge
    requires tops { AreTops edges.old.versions }
    requires there { HasEdge edges.old.versions key.now }
    ensures key { result.key ≡ key.now }
    ensures taken { HandsEdgeOver edges.old.versions key.now result.top edges.new.versions }
    ensures free { edges.new.free ≡ edges.old.free + 1 }
    ensures ascend { AscendVersions edges.new.versions }
{
    let Some((key, top, _)) = edges.take_from(key, u64::MAX) else {
        unreachable!();
    };
    let _walk = edges.walk();
    Edge { key, top }
}

/// Whether the first edge behind a key stands before the end.
fn has_next(edges: &ArenaList, key: &[u8], end: &[u8]) -> bool
    requires tops { AreTops edges.now.versions }
    ensures some { OnTrue result ((edge : KeyVersion) × IsFirstFrom edges.now.versions key.now 0 (Some edge)
        × StandsBefore edge.key end.now) }
    ensures none { OnFalse result ((other : KeyVersion) → Contains edges.now.versions other
        → StandsBefore key.now other.key → IsUpTo end.now other.key) }
{
    match edges.from(key, 0) {
        Some(edge) => edge.key.cmp(&end).is_lt(),
        None => false,
    }
}

/// Takes the first edge behind a key out, if it stands before the end.
fn take_next(edges: &mut ArenaList, key: &[u8], end: &[u8]) -> Option<Edge>
    requires tops { AreTops edges.old.versions }
    ensures taken { IfSome result
        (λ edge. HandsNext edges.old.versions key.now end.now edge.key edge.top edges.new.versions) }
    ensures free { OnSome result (edges.new.free ≡ edges.old.free + 1) }
    ensures none { IfNone result ((other : KeyVersion) → Contains edges.old.versions other
        → StandsBefore key.now other.key → IsUpTo end.now other.key) }
    ensures same { IfNone result (edges.new ≡ edges.old) }
    ensures ascend { OnSome result (AscendVersions edges.new.versions) }
{
    if !has_next(edges, key, end) {
        return None;
    }
    let Some((key, top, _)) = edges.take_from(key, 0) else {
        unreachable!();
    };
    let _walk = edges.walk();
    Some(Edge { key, top })
}

/// Makes the edges tell one range delete more. An edge that would tell what the one before it tells is let go.
pub(crate) fn raise(edges: &mut ArenaList, mark: &RangeMark)
    requires some { StandsBefore mark.now.start mark.now.end }
    requires covers { CoverSome edges.old.versions }
    requires start { HasEdge edges.old.versions mark.now.start }
    requires end { HasEdge edges.old.versions mark.now.end }
    ensures { TellsOneMore edges.old.versions mark.now edges.new.versions }
{
    let top = top_of(mark.number);
    let mut held = take_at(edges, mark.start.as_slice());
    held.top = held.top.max(top);
    while let Some(next) = take_next(edges, held.key.as_slice(), mark.end.as_slice()) {
        let raised = next.top.max(top);
        if raised != held.top {
            let next = Edge {
                key: next.key,
                top: raised,
            };
            put_back(edges, replace(&mut held, next));
        }
    }
    put_back(edges, held);
}
