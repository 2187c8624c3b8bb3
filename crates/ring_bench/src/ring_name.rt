//! The name of a table. What is behind a lock is known by its type alone, so the type names its
//! table.
ghost use Rattle.atomic_table.specs.Seated.{TableId};

use std::marker::Brand;

/// Which table. Each run picks it.
pub(crate) trait RingName {
    ghost table: { TableId };
}

impl RingName for Brand {
    ghost use Rattle.std.specs.Prelude.{[]};

    ghost table = { record { words = 0; slots = 0; views_name = 0; atom = 0; block = 0; offset = 0; slot_names = [] } };
}
