//! The limits of scripts, which definitions use too.

/// The largest number of a connection; the smallest is 1.
pub const MAX_CONNECTIONS: usize = 16;

/// The limit of words that all calls of a script load: the number of calls times the limit of loads may not exceed it.
pub const MAX_WORK: u64 = 1 << 24;
