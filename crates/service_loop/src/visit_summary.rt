//! The summary of a visit of a connection.

use qos_order::Ending;

/// The outcome of the rounds of a visit.
#[derive(Clone, Copy, PartialEq, Eq)]
pub enum VisitOutcome {
    /// Something was done, and there may be more to do.
    Busy,
    /// There was nothing to do.
    Idle,
    /// The connection is finished. It gets no further visit.
    Over,
    /// Out of memory. The connection gets no further round.
    Memory,
}

/// The summary of a visit.
#[derive(Clone, Copy)]
pub struct VisitSummary {
    pub outcome: VisitOutcome,
    /// The number of rounds given.
    pub given: u64,
    pub ending: Ending,
}
