//! The limits of access policies, which the definitions share.

/// The maximum number of rules of a policy.
pub const MAX_RULES: usize = 64;

/// The maximum number of bytes of a text that a rule compares with.
pub const MAX_TEXT_VALUE: usize = 255;
