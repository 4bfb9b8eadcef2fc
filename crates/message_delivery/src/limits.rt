//! The limit of arrivals.

/// The most frames of one connection that are handled. After them nothing more is received.
pub const MAX_ARRIVALS: u64 = 2_147_483_648;
