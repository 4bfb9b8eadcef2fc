//! The outcome of an engine's turn.

/// The outcome for a call that an engine worked on.
#[derive(Clone, Copy, PartialEq, Eq)]
pub enum Outcome {
    /// It continues, and this was noted of it.
    Passed(Noted),
    /// It is held until the level covers its cost.
    Held { level: u64, cost: u64 },
    /// It is refused; this was noted of it first.
    Refused(Noted, Why),
    /// Fields were cleared from it.
    Redacted,
}

/// What a turn noted of a call.
#[derive(Clone, Copy, PartialEq, Eq)]
pub enum Noted {
    /// Nothing.
    Nothing,
    /// It was charged; `level` is the level afterwards.
    Charged { level: u64 },
    /// This ticket was drawn for it in this window.
    Drawn { window: u64, ticket: u64 },
    /// It was counted.
    Counted,
}

/// The reason why an engine refuses a call.
#[derive(Clone, Copy, PartialEq, Eq)]
pub enum Why {
    /// An access policy denied it by the rule at this index. The number of rules means the default.
    Denied { rule: u32 },
    /// The level of a rate policy is below the cost.
    Short { level: u64, cost: u64 },
    /// Its ticket isn't below the cap of a quota.
    Over { ticket: u64, cap: u64 },
}
