//! The source of tickets for quotas.

ghost use Rattle.std.specs.Prelude.{◌≡◌, ◌≢◌, ◌<◌, ◌⊎◌, List, [], ◌∷◌, ◌++◌, ℕ, Option, IfSome, IsSomeAnd};

/// How many windows a quota has. Callers of `draw` use the last one for any later window.
pub const WINDOWS: u64 = 1024;

/// Draws the tickets of the tenants' quotas.
pub trait Tickets {
    /// Whether it has counters for a tenant.
    ghost knows: { Self → ℕ → Type 0 };

    /// The tickets that its holder drew in a tenant's window, in order; `None` if they aren't known.
    ghost drawn: { Self → ℕ → ℕ → Option (List ℕ) };

    /// `since first later`: `later` is a later state of the quotas `first`. Every draw preserves it.
    ghost since: { Self → Self → Type 0 };

    /// Draws a ticket in a window of a tenant. It allocates nothing.
    fn draw(&mut self, tenant: u32, window: u64) -> u64
        requires known { knows self.old tenant }
        requires window { window < WINDOWS }

        // If the tickets are known afterwards, they are the earlier ones followed by this one.
        ensures drawn { IfSome (drawn self.new tenant window) (λ tickets.
            IsSomeAnd (drawn self.old tenant window) (λ before. tickets ≡ before ++ result ∷ [])) }
        ensures others { (t w : ℕ) → knows self.old t → w < WINDOWS → (t ≢ tenant) ⊎ (w ≢ window)
            → drawn self.new t w ≡ drawn self.old t w }
        ensures knows { (t : ℕ) → knows self.old t → knows self.new t }
        ensures same_quotas { (first : Self) → since first self.old → since first self.new };
}
