//! The lines of replies. On out of memory each call leaves the text as it was.

ghost use Rattle.std.specs.Prelude.{◌≡◌, ◌++◌, Some, None, OnOk};
ghost use Rattle.snapshot_view.specs.Scans.{pair_shown};
ghost use Rattle.view_runner.specs.Texts.{hold_line, above_line, gone_line, got_line, pair_line, scan_end, release_line, purge_line, not_held_line};

use snapshot_view::Pair;
use text_lines::{Piece, put_pieces};
use wal_base::{Buf, NoMemory};

/// Adds the reply to the hold line of this number, which holds a number.
#[tactic(auto, unfolding(crate::specs::Texts::hold_line))]
pub(crate) fn put_hold(out: &mut Buf, hold: u64, at: u64) -> Result<(), NoMemory>
    ensures { OnOk result (out.new ≡ out.old ++ hold_line hold at) }
{
    let line = [
        Piece::Text(b"hold "),
        Piece::Number(hold),
        Piece::Text(b" @"),
        Piece::Number(at),
        Piece::Text(b"\n"),
    ];
    put_pieces(out, &line)
}

/// Adds the reply to a hold above the next number.
#[tactic(auto, unfolding(crate::specs::Texts::above_line))]
pub(crate) fn put_above(out: &mut Buf, next: u64) -> Result<(), NoMemory>
    ensures { OnOk result (out.new ≡ out.old ++ above_line next) }
{
    let line = [
        Piece::Text(b"hold above "),
        Piece::Number(next),
        Piece::Text(b"\n"),
    ];
    put_pieces(out, &line)
}

/// Adds the reply to a hold below the floor.
#[tactic(auto, unfolding(crate::specs::Texts::gone_line))]
pub(crate) fn put_gone(out: &mut Buf, floor: u64) -> Result<(), NoMemory>
    ensures { OnOk result (out.new ≡ out.old ++ gone_line floor) }
{
    let line = [
        Piece::Text(b"hold gone "),
        Piece::Number(floor),
        Piece::Text(b"\n"),
    ];
    put_pieces(out, &line)
}

/// Adds the reply to a get of a key that has this value.
#[tactic(auto, unfolding(crate::specs::Texts::got_line))]
pub(crate) fn put_value<'p>(
    out: &mut Buf,
    key: &'p [u8],
    value: &'p [u8],
    at: u64,
) -> Result<(), NoMemory>
    ensures { OnOk result (out.new ≡ out.old ++ got_line key.now (Some value.now) at) }
{
    let line = [
        Piece::Text(b"get "),
        Piece::Printed(key),
        Piece::Text(b" = "),
        Piece::Printed(value),
        Piece::Text(b" @"),
        Piece::Number(at),
        Piece::Text(b"\n"),
    ];
    put_pieces(out, &line)
}

/// Adds the reply to a get of a key that has no value.
#[tactic(auto, unfolding(crate::specs::Texts::got_line))]
pub(crate) fn put_no_value(out: &mut Buf, key: &[u8], at: u64) -> Result<(), NoMemory>
    ensures { OnOk result (out.new ≡ out.old ++ got_line key.now None at) }
{
    let line = [
        Piece::Text(b"get "),
        Piece::Printed(key),
        Piece::Text(b" none @"),
        Piece::Number(at),
        Piece::Text(b"\n"),
    ];
    put_pieces(out, &line)
}

/// Adds the line of a key with its value.
#[tactic(auto, unfolding(crate::specs::Texts::pair_line))]
pub(crate) fn put_pair(out: &mut Buf, pair: Pair<'_>) -> Result<(), NoMemory>
    ensures { OnOk result (out.new ≡ out.old ++ pair_line (pair_shown pair.entry)) }
{
    let line = [
        Piece::Printed(pair.key),
        Piece::Text(b" = "),
        Piece::Printed(pair.value),
        Piece::Text(b"\n"),
    ];
    put_pieces(out, &line)
}

/// Adds the line that ends a scan.
#[tactic(auto, unfolding(crate::specs::Texts::scan_end))]
pub(crate) fn put_scan_end(out: &mut Buf, count: u64, at: u64) -> Result<(), NoMemory>
    ensures { OnOk result (out.new ≡ out.old ++ scan_end count at) }
{
    let line = [
        Piece::Text(b"end scan "),
        Piece::Number(count),
        Piece::Text(b" @"),
        Piece::Number(at),
        Piece::Text(b"\n"),
    ];
    put_pieces(out, &line)
}

/// Adds the reply to a release.
#[tactic(auto, unfolding(crate::specs::Texts::release_line))]
pub(crate) fn put_release(out: &mut Buf, hold: u64) -> Result<(), NoMemory>
    ensures { OnOk result (out.new ≡ out.old ++ release_line hold) }
{
    let line = [
        Piece::Text(b"release "),
        Piece::Number(hold),
        Piece::Text(b"\n"),
    ];
    put_pieces(out, &line)
}

/// Adds the reply to a purge.
#[tactic(auto, unfolding(crate::specs::Texts::purge_line))]
pub(crate) fn put_purge(out: &mut Buf, count: u64) -> Result<(), NoMemory>
    ensures { OnOk result (out.new ≡ out.old ++ purge_line count) }
{
    let line = [
        Piece::Text(b"purge "),
        Piece::Number(count),
        Piece::Text(b"\n"),
    ];
    put_pieces(out, &line)
}

/// Adds the reply to a line that names no hold that is held.
#[tactic(auto, unfolding(crate::specs::Texts::not_held_line))]
pub(crate) fn put_not_held(out: &mut Buf) -> Result<(), NoMemory>
    ensures { OnOk result (out.new ≡ out.old ++ not_held_line) }
{
    out.append(b"not held\n")
}
