//! Lines, read one after another.

ghost use Rattle.std.specs.Prelude.{◌≡◌, ℕ, IfOk, IfErr, OnOk, IsErrOf, Err};
ghost use Rattle.view_script.specs.declared.fault.ViewFault.TheVariants as faults;
ghost use Rattle.view_script.specs.Asking.{view_lines, AsksNothing, AddsLine, IsEmptyEnd, IsNoEmptyEnd, AreAsked, IsFirstBadLine};

use crate::asking::asked_by;
use crate::fault::{LineFault, ViewFault};
use crate::view_line::ViewLines;
use line_words::{Pieces, is_end};
use std::alloc::Global;
use wal_base::Blob;

/// Adds what a line asks for.
fn add_line(asked: &mut ViewLines, line: &Blob) -> Result<(), LineFault>
    ensures added { OnOk result (AddsLine asked.old line.now asked.new) }
    ensures bad { IsErrOf result LineFault.Bad → AsksNothing line.now }
    ensures unchanged { IsErrOf result LineFault.Bad → asked.new ≡ asked.old }
{
    let one = asked_by(line)?;
    asked.push(one).map_err(|_| LineFault::NoMemory)
}

/// What comes of the lines before one that asks for nothing, which has this number. An empty one is no line where it only
/// stands behind the last line feed.
fn at_bad_line(
    asked_before: ViewLines,
    line: &Blob,
    lines: &mut Pieces<'_>,
    number: u64,
) -> Result<ViewLines, ViewFault>
    ensures ended { IfOk result (λ asked.
        (asked ≡ asked_before) × IsEmptyEnd line.now lines.old) }
    ensures bad { IfErr result (λ fault.
        (fault ≡ faults.BadLine number) × IsNoEmptyEnd line.now lines.old) }
{
    if line.as_slice().is_empty() && is_end(lines) {
        Ok(asked_before)
    } else {
        Err(ViewFault::BadLine { line: number })
    }
}

/// What the lines of a text ask for. Their keys are parts of the text.
fn read_text(alloc: Global, text: &Blob) -> Result<ViewLines, ViewFault>
    ensures asked { IfOk result (AreAsked (view_lines text.now)) }
    ensures bad { (line : ℕ) → result ≡ Err (faults.BadLine line)
        → IsFirstBadLine (view_lines text.now) line }
{
    let mut asked = ViewLines::new(alloc);
    let mut lines = Pieces::lines(text);
    let mut number = 0;
    while let Some(line) = lines.next_part()? {
        number += 1;
        match add_line(&mut asked, &line) {
            Ok(()) => {}
            Err(LineFault::Bad) => return at_bad_line(asked, &line, &mut lines, number),
            Err(LineFault::NoMemory) => return Err(ViewFault::NoMemory),
        }
    }
    Ok(asked)
}

/// Reads lines. `Err` tells the first that is not accepted, counted from 1, or that memory ran out. The bytes are copied
/// once, and each key is a part of the copy.
pub fn read_view(alloc: Global, bytes: &[u8]) -> Result<ViewLines, ViewFault>
    ensures asked { IfOk result (AreAsked (view_lines bytes.now)) }
    ensures bad { (line : ℕ) → result ≡ Err (faults.BadLine line)
        → IsFirstBadLine (view_lines bytes.now) line }
{
    let text = Blob::copy_of(alloc, bytes)?;
    read_text(alloc, &text)
}
