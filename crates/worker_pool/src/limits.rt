//! The limits of a run.

/// The maximum number of items of a run.
pub const MAX_POOL_ITEMS: usize = 16;

/// The maximum number of workers that a run starts.
pub const MAX_POOL_WORKERS: usize = 8;
