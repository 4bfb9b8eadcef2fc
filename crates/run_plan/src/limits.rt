//! The limits of a run, shared with the definitions.

/// The maximum number of connections in a run. They are numbered from 1.
pub const MAX_CONNECTIONS: u32 = 16;

/// The maximum number of worker threads in a run.
pub const MAX_WORKERS: u64 = 8;

/// The maximum capacity of a ring, in calls.
pub const MAX_RING: u64 = 1024;

/// The largest weight of a connection.
pub const MAX_WEIGHT: u64 = 100;

/// The maximum number of loads that the service's copies may take: the calls of clients, each counted twice for its
/// reply, times the limit of one call.
pub const MAX_WORK: u64 = 16_777_216;

/// The maximum number of steps of an operator, so that each number that a step raises stays in its range. No scenario
/// text can hold that many.
pub const MAX_STEPS: u64 = 16_777_216;
