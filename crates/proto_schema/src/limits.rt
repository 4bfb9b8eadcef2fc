//! The limits of proto files, shared with the definitions.

/// The maximum depth of nested messages.
pub const MAX_OPEN: usize = 32;
