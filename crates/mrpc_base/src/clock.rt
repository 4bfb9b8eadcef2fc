//! Clocks.

ghost use Rattle.std.specs.Prelude.{◌≡◌, ◌≤◌, ℕ};

/// A clock. It cannot fail.
pub trait Clock: Sync {
    /// A lower bound of all timestamps; 0 if the clock promises none.
    ghost least: { Self → ℕ };

    /// The timestamps that it may return.
    ghost gives: { Self → ℕ → Type 0 };

    /// The timestamp, in milliseconds.
    fn now(&self) -> u64
        ensures least { least self.now ≤ result }
        ensures gives { gives self.now result };
}

/// A clock that always returns the same timestamp, in milliseconds.
#[derive(Clone, Copy)]
pub struct FixedClock(pub u64);

impl Clock for FixedClock {
    ghost use Rattle.std.specs.Prelude.{◌≡◌};

    ghost least = { λ clock. clock.0 };

    ghost gives = { λ clock moment. moment ≡ clock.0 };

    fn now(&self) -> u64
        ensures { result ≡ self.now.0 }
    {
        self.0
    }
}
