//! The limits of keys, values, batches and runs. They are this project's own.

/// The most bytes of a key.
pub const KEY_MAX: usize = 65_535;

/// The most bytes of a value, and of a note.
pub const VALUE_MAX: usize = 1_048_576;

/// The most bytes of a batch as it is written, its header included.
pub const BATCH_MAX: usize = 4_194_304;

/// The number of the first entry of a store.
pub const NUMBER_FIRST: u64 = 10;

/// The greatest number at which a batch may end: 2^56 - 1.
pub const NUMBER_MAX: u64 = 72_057_594_037_927_935;

/// The most batches that one run commits.
pub const BATCHES_MAX: u64 = 1_048_576;

/// The most sessions that one run has.
pub const SESSIONS_MAX: u32 = 64;

/// The bytes of a batch's header.
pub(crate) const HEADER: usize = 12;
