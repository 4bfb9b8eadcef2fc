//! How many rounds a ready connection gets.

ghost use Rattle.std.specs.Prelude.{◌≡◌, ℕ};

/// Decides how many rounds in a row a worker gives a connection that is ready.
pub trait ReadyOrder: Sync {
    /// The rounds that a connection gets, by its number and its unused credit in rounds.
    ghost grant_of: { Self → ℕ → ℕ → ℕ };

    /// How many rounds in a row connection `conn` gets, with `kept` rounds of unused credit.
    fn grant(&self, conn: u32, kept: u64) -> u64
        ensures { result ≡ grant_of self.now conn kept };
}

/// The order in which each connection gets one round at a time.
#[derive(Clone, Copy)]
pub struct PlainOrder;

impl ReadyOrder for PlainOrder {
    ghost grant_of = { λ order conn kept. 1 };

    fn grant(&self, _conn: u32, _kept: u64) -> u64
        ensures { result ≡ 1 }
    {
        1
    }
}
