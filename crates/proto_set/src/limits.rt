//! The limit of paths, shared with the definitions.

/// The maximum length of a path, in bytes.
pub const MAX_PATH: usize = 255;
