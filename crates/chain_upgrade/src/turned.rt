//! The result of a turn.

ghost use Rattle.std.specs.Prelude.{◌≡◌};

use engine_core::{Noted, Outcome, Why};

/// The result of a turn of the engine at a position.
#[derive(Clone, Copy, PartialEq, Eq)]
pub enum Turned {
    /// No call was there.
    Idle,
    /// The call with this number continues, and this was noted of it.
    Moved { seq: u32, noted: Noted },
    /// It is held until the level covers its cost.
    Held { seq: u32, level: u64, cost: u64 },
    /// It is refused; this was noted of it first.
    Refused { seq: u32, noted: Noted, why: Why },
    /// Fields were cleared from it: it starts over, with the calls of greater numbers.
    Redacted { seq: u32 },
}

impl Turned {
    ghost use Rattle.chain_upgrade.specs.Kept.{turned_as};

    // The result of an outcome for the call with a number.
    pub(crate) fn turned_as(seq: u32, outcome: Outcome) -> Turned
        ensures { result ≡ turned_as seq outcome }
    {
        match outcome {
            Outcome::Passed(noted) => Turned::Moved { seq, noted },
            Outcome::Held { level, cost } => Turned::Held { seq, level, cost },
            Outcome::Refused(noted, why) => Turned::Refused { seq, noted, why },
            Outcome::Redacted => Turned::Redacted { seq },
        }
    }
}
