//! Laws of lines that no single call says.

ghost use Rattle.view_script.specs.Theorems.{BytesAreOneView, LinesHaveOneFirstBad, AskedLinesAreNotBad};

/// Bytes are one view at most: their lines ask for one thing each.
pub fn bytes_are_one_view()
    ensures { BytesAreOneView }
{}

/// There is one first bad line at most.
pub fn one_line_is_first_bad()
    ensures { LinesHaveOneFirstBad }
{}

/// Lines that are all asked for have no bad one among them.
pub fn asked_lines_are_not_bad()
    ensures { AskedLinesAreNotBad }
{}
