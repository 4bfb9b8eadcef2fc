//! The limit of declarations, which definitions use too.

/// The largest number of tenants.
pub const MAX_TENANTS: usize = 16;
