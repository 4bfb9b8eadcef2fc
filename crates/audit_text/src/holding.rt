//! Held calls.

/// The level of a rate policy's bucket and the cost of a call that the policy holds: the level is below the cost.
#[derive(Clone, Copy)]
pub struct Holding {
    pub level: u64,
    pub cost: u64,
}
