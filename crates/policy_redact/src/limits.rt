//! The limits of redacting policies, which the definitions share.

/// The maximum number of clears of a policy.
pub const MAX_CLEARS: usize = 64;
