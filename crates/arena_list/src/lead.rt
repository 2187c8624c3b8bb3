//! The lead of a key: its first bytes as one number.

ghost use Rattle.std.specs.Prelude.{◌≡◌, ◌↔◌, ◌≤◌, IsTrue, length, take, drop};
ghost use Rattle.std.specs.Ordering.{nat_cmp};
ghost use Rattle.std.specs.Cmp.Lexicographic.{slice_cmp};
ghost use Rattle.arena_list.specs.Leads.{lead_of, IsLengthInLead, LengthsTell, AreBytes};

use std::cmp::Ordering;

/// How many bytes of a key its lead has.
pub(crate) const LEAD_SIZE: usize = 8;

/// The number whose eight digits to the base 256 are the first bytes of a key, zeros where there are fewer. Where the
/// leads of two keys differ, they are in the order of the keys.
pub(crate) fn lead(key: &[u8]) -> u64
    ensures number { result ≡ lead_of key.now }
    ensures bytes { AreBytes key.now }
{
    if let Some(digits) = key.first_chunk::<LEAD_SIZE>() {
        return u64::from_be_bytes(*digits);
    }
    let mut digits = [0; LEAD_SIZE];
    digits[..key.len()].copy_from_slice(key);
    u64::from_be_bytes(digits)
}

/// The length of a key that ends within its lead, and `None` for a longer one.
pub(crate) fn length_in_lead(key: &[u8]) -> Option<u8>
    ensures { IsLengthInLead result key.now }
{
    if key.len() <= LEAD_SIZE {
        Some(key.len() as u8)
    } else {
        None
    }
}

/// What follows so many bytes of a key, and nothing where it has fewer.
pub(crate) fn rest_of(key: &[u8], shared: usize) -> &[u8]
    ensures { result.now ≡ drop shared key.now }
{
    match key.get(shared..) {
        Some(rest) => rest,
        None => &[],
    }
}

/// How many bytes at their front two keys have in common.
pub(crate) fn shared_len(key: &[u8], other: &[u8]) -> usize
    ensures within { result ≤ length key.now }
    ensures too { result ≤ length other.now }
    ensures shared { take result key.now ≡ take result other.now }
{
    let mut shared = 0;
    while shared < key.len() && shared < other.len() && key[shared] == other[shared] {
        shared += 1;
    }
    shared
}

/// How two keys with the same lead stand to each other. Where one of them ends within what the leads tell, one begins
/// with the other, so their lengths decide. Only else their bytes are read.
pub(crate) fn order_of_same_lead(key: &[u8], other: &[u8], extent: usize) -> Ordering
    requires { LengthsTell key.now other.now extent }
    ensures { result ≡ slice_cmp nat_cmp key.now other.now }
{
    if key.len() <= extent || other.len() <= extent {
        return key.len().cmp(&other.len());
    }
    key.cmp(other)
}

/// Whether two keys with the same lead are equal. Their bytes are read only where they are equally long and go on after
/// what the leads tell.
pub(crate) fn is_same_key(key: &[u8], other: &[u8], extent: usize) -> bool
    requires { LengthsTell key.now other.now extent }
    ensures { IsTrue result ↔ (key.now ≡ other.now) }
{
    key.len() == other.len() && (key.len() <= extent || key == other)
}
