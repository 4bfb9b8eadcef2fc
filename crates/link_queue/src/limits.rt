//! The limit of queues before links.

/// The greatest capacity of a queue, in frames, in each direction.
pub const MAX_CAPACITY: u64 = 1024;
