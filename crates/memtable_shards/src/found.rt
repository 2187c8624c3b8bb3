//! The newer one of two versions that are found.

ghost use Rattle.std.specs.Prelude.{◌≡◌};
ghost use Rattle.memtable_shards.specs.Newest.{told, number_told, FindsNewerOf};

use arena_list::Found;

fn number_of(found: Found<'_>) -> Option<u64>
    ensures { result ≡ number_told (told found.entry) }
{
    match found {
        Found::Nothing => None,
        Found::Gone { seq } | Found::Value { seq, .. } => Some(seq),
    }
}

/// The newer one of two.
pub(crate) fn newer_of<'a>(one: Found<'a>, other: Found<'a>) -> Found<'a>
    ensures { FindsNewerOf one.entry other.entry result }
{
    match (number_of(one), number_of(other)) {
        (None, _) => other,
        (_, None) => one,
        (Some(ones), Some(others)) => { if ones < others { other } else { one } }
    }
}
