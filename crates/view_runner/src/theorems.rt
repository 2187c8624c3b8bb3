//! A law of views that no single call says.

ghost use Rattle.view_runner.specs.Theorems.{ViewsHaveOneText};

/// Lines have one text over batches.
pub fn views_have_one_text()
    ensures { ViewsHaveOneText }
{}
