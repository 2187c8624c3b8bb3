//! One version, as a walk shows it.

/// What a key was left with by a number: a value, or none. Its bytes are lent out of the list.
#[derive(Clone, Copy, Debug, PartialEq, Eq)]
pub struct Version<'a> {
    pub key: &'a [u8],
    pub seq: u64,
    pub value: Option<&'a [u8]>,
}
