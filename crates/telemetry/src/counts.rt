//! The counts of one method.

ghost use Rattle.std.specs.Prelude.{◌≡◌, ◌+◌, ◌^◌, ◌<◌};

/// What became of a call.
#[derive(Clone, Copy)]
pub enum What {
    /// It was accepted.
    Took,
    /// It was sent.
    Sent,
    /// It was refused.
    Refused,
    /// It is pending at the end.
    Standing,
}

// How often each of these became of a call.
#[derive(Clone, Copy)]
pub(crate) struct Counts {
    // Calls accepted.
    pub took: u64,
    // Calls sent.
    pub sent: u64,
    // Calls refused.
    pub refused: u64,
    // Calls pending at the end.
    pub standing: u64,
}

impl Counts {
    ghost use Rattle.std.specs.Prelude.{◌≡◌, ◌+◌, ◌^◌, ◌<◌};
    ghost use Rattle.telemetry.specs.Counts.{AreIn64Bits, no_counts, count_named, one_more, plus};

    // Counts of zero.
    pub(crate) fn none() -> Counts
        ensures { result ≡ no_counts }
    {
        Counts {
            took: 0,
            sent: 0,
            refused: 0,
            standing: 0,
        }
    }

    // The counts after one more event.
    pub(crate) fn one_more(mut self, what: What) -> Counts
        requires { count_named what self + 1 < 2 ^ 64 }
        ensures { result ≡ one_more what self }
    {
        match what {
            What::Took => self.took += 1,
            What::Sent => self.sent += 1,
            What::Refused => self.refused += 1,
            What::Standing => self.standing += 1,
        }
        self
    }

    // The sums of the two counts.
    pub(crate) fn plus(self, other: Counts) -> Counts
        requires { AreIn64Bits (plus self other) }
        ensures { result ≡ plus self other }
    {
        Counts {
            took: self.took + other.took,
            sent: self.sent + other.sent,
            refused: self.refused + other.refused,
            standing: self.standing + other.standing,
        }
    }
}
