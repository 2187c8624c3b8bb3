//! Laws of the store (docs/formats/table.md, "The store").

ghost use Rattle.flush_table.specs.Theorems.{DirectoriesUseOneTable, DirectoriesHaveOneStore};

/// Directories have one used table at most: one table of the greatest number, and its bytes read as one table.
pub fn directories_use_one_table()
    ensures { DirectoriesUseOneTable }
{}

/// And so they have one store at most, in each mode.
pub fn directories_have_one_store()
    ensures { DirectoriesHaveOneStore }
{}
