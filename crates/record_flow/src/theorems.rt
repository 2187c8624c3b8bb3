//! A law over the rule of the queue, for the layers above.
ghost use Rattle.record_flow.specs.Theorems.{TakenIsPrefixOfSent};

/// At any moment the first numbers of what was taken are a prefix, in order, of those of what was sent; and both begin
/// at the number with which the queue was made.
pub fn taken_is_a_prefix_of_sent()
    ensures { TakenIsPrefixOfSent }
{}
