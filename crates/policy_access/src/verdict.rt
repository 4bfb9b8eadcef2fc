//! The verdict of a policy on a call.

/// The verdict of a policy on a call.
#[derive(Clone, Copy)]
pub struct Verdict {
    /// Whether the call may continue.
    pub allow: bool,
    /// The index of the rule that decided, from 0. The number of rules means the default.
    pub rule: u32,
}
