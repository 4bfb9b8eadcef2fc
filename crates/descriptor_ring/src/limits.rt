//! The limit of rings.

/// The maximum number of items of a ring.
pub const MAX_CAPACITY: u64 = 1024;
