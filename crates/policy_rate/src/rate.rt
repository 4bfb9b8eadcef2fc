//! The parameters of a rate policy, as an operator writes them.

/// A rate policy. `IsRate` of `specs/Level.antt` has the ranges of its numbers.
#[derive(Clone, Copy)]
pub struct Rate {
    /// How many calls may be charged in `per` milliseconds, on average: 1 to 1000000.
    pub amount: u64,
    /// Milliseconds, 1 to 86400000. Also the cost of one call.
    pub per: u64,
    /// How many calls may be charged at once: 1 to 1000000.
    pub burst: u64,
    /// Whether a call that the level doesn't cover is held; otherwise it is refused.
    pub hold: bool,
}
