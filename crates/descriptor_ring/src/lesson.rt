//! The number of items in a full or an empty ring.

ghost use Rattle.std.specs.Prelude.{◌≡◌};

use std::marker::Model;

/// The number of items that a full or an empty ring held. Contracts see it as that number, at the call's atomic
/// access.
#[derive(Clone, Copy)]
pub struct Lesson {
    held: u64,
}

impl Model for Lesson {
    ghost use Rattle.std.specs.Prelude.{ℕ};

    ghost Value = { ℕ };

    ghost view = { λ l. l.held };

    ghost inverse = { λ n. record { held = n } };
}

impl Lesson {
    pub(crate) fn new(held: u64) -> Lesson
        ensures { result ≡ held }
    {
        Lesson { held }
    }

    /// The number of items that the ring held at the call's atomic access.
    pub fn held(&self) -> u64
        ensures { result ≡ self.now }
    {
        self.held
    }
}
