//! Laws of versions, for the layer that holds numbers.

ghost use Rattle.arena_list.specs.Theorems.{MarksKeepAnswers, NewestIsOne};

/// What is the newest version of a key below a mark stays so where versions are kept for the marks.
pub fn a_mark_keeps_what_it_shows()
    ensures { MarksKeepAnswers }
{}

/// There is one newest version of a key below a number at most.
pub fn a_newest_version_is_one()
    ensures { NewestIsOne }
{}
