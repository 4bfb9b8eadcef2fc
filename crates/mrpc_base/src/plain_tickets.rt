//! Quotas that a single holder counts.

ghost use Rattle.std.specs.Prelude.{◌≡◌, ◌≢◌, ◌<◌, ◌≤◌, ◌⊎◌, ◌∷◌, [], ◌++◌, ℕ, IfOk, IfSome, IsSomeAnd};
ghost use Rattle.mrpc_base.specs.Failures.{raised};
ghost use Rattle.mrpc_base.specs.Quota.{drawn_in, tickets_of};
ghost use Rattle.mrpc_base.specs.declared.tickets.TheConstants.{WINDOWS};

use crate::{Tickets, WINDOWS};
use std::alloc::{AllocError, Global};
use std::marker::Model;

/// Quotas with one counter for each tenant and window. Tenants are numbered from 0. Contracts see them as `Counters`:
/// how many tenants there are, and how many tickets were drawn of each in each window.
#[derive(Drop)]
pub struct PlainTickets {
    counters: Vec<u64>,
    tenants: u32,
}

impl Model for PlainTickets {
    ghost use Rattle.std.specs.Prelude.{◌≡◌, ◌*◌, length};
    ghost use Rattle.mrpc_base.specs.Quota.{Counters};
    ghost use Rattle.mrpc_base.specs.declared.tickets.TheConstants.{WINDOWS};

    ghost Value = { Counters };

    ghost view = { λ t. record { tenants = t.tenants; drawn = t.counters.items } };

    ghost invariant = { λ t. length t.counters.items ≡ t.tenants * WINDOWS };
}

impl PlainTickets {
    /// Quotas of `tenants` tenants, with no tickets drawn.
    pub fn new(alloc: Global, tenants: u32) -> Result<PlainTickets, AllocError>
        ensures tenants { IfOk result (λ quotas. quotas.tenants ≡ tenants) }
        ensures undrawn { IfOk result (λ quotas. (tenant window : ℕ) → drawn_in quotas tenant window ≡ 0) }
    {
        Ok(PlainTickets {
            counters: vec![in alloc; 0; tenants as usize * WINDOWS as usize]?,
            tenants,
        })
    }

    // Counts a draw, and returns how many draws came before it.
    fn count(&mut self, tenant: u32, window: u64) -> u64
        requires known { tenant < self.old.tenants }
        requires window { window < WINDOWS }
        ensures before { result ≡ drawn_in self.old tenant window }
        ensures counted { drawn_in self.new tenant window ≡ raised (drawn_in self.old tenant window) }
        ensures others { (t w : ℕ) → t < self.old.tenants → w < WINDOWS → (t ≢ tenant) ⊎ (w ≢ window)
            → drawn_in self.new t w ≡ drawn_in self.old t w }
        ensures tenants { self.new.tenants ≡ self.old.tenants }
    {
        let place = tenant as usize * WINDOWS as usize + window as usize;
        let before = self.counters[place];
        self.counters[place] = before.saturating_add(1);
        before
    }
}

impl Tickets for PlainTickets {
    ghost use Rattle.std.specs.Prelude.{◌≡◌, ◌<◌};
    ghost use Rattle.mrpc_base.specs.Quota.{drawn_in, tickets_of};

    ghost knows = { λ quotas tenant. tenant < quotas.tenants };

    ghost drawn = { λ quotas tenant window. tickets_of (drawn_in quotas tenant window) };

    ghost since = { λ old new. new.tenants ≡ old.tenants };

    #[tactic(auto, using(crate::proofs::Drawn::tickets_drawn))]
    fn draw(&mut self, tenant: u32, window: u64) -> u64
        requires known { tenant < self.old.tenants }
        requires window { window < WINDOWS }

        // The ticket is the number of earlier draws, which saturates at 2^64 - 1.
        ensures ticket { result ≡ drawn_in self.old tenant window }
        ensures counted { drawn_in self.new tenant window ≡ raised (drawn_in self.old tenant window) }
        ensures drawn { IfSome (tickets_of (drawn_in self.new tenant window)) (λ tickets.
            IsSomeAnd (tickets_of (drawn_in self.old tenant window)) (λ before. tickets ≡ before ++ result ∷ [])) }
        ensures others { (t w : ℕ) → t < self.old.tenants → w < WINDOWS → (t ≢ tenant) ⊎ (w ≢ window)
            → drawn_in self.new t w ≡ drawn_in self.old t w }
        ensures tenants { self.new.tenants ≡ self.old.tenants }
    {
        self.count(tenant, window)
    }
}
