//! The outcomes of a round.

/// The outcome of a round, or of a part of it.
#[derive(Clone, Copy, PartialEq, Eq)]
pub enum RoundOutcome {
    /// Something was done, and there may be more to do.
    Busy,
    /// There was nothing to do.
    Idle,
    /// Out of memory. No further round is made.
    Memory,
}
