//! The default limit of loads.

/// The limit of words that are loaded for one call, if the text has no `loads` line.
pub const USUAL_LOADS: u64 = 1024;
