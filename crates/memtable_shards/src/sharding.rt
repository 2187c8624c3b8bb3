//! Which shard a key belongs to.

ghost use Rattle.std.specs.Prelude.{◌≡◌, ◌<◌};
ghost use Rattle.memtable_shards.specs.Versions.{shard_of};

/// How many shards there are.
pub const SHARDS: usize = 8;

/// The shard of a key: the sum of its bytes modulo `SHARDS`.
pub fn shard_index(key: &[u8]) -> usize
    ensures shard { result ≡ shard_of key.now }
    ensures within { result < SHARDS }
{
    let mut sum = 0;
    for byte in key {
        sum = (sum + usize::from(*byte)) % SHARDS;
    }
    sum
}
