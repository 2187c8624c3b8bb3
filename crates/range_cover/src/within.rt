//! Ranges of keys.

ghost use Rattle.std.specs.Prelude.{◌≡◌};
ghost use Rattle.batch_repr.specs.Batches.{is_within};

/// Whether a key is within a range: at its start or behind it, and before its end.
pub fn is_within(start: &[u8], end: &[u8], key: &[u8]) -> bool
    ensures { result ≡ is_within start.now end.now key.now }
{
    start.cmp(&key).is_le() && key.cmp(&end).is_lt()
}
