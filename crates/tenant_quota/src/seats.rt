//! Seats of the quotas of all tenants.

ghost use Rattle.std.specs.Prelude.{◌≡◌, ◌≢◌, ◌<◌, ◌≤◌, ◌⊎◌, List, [], ◌∷◌, ◌++◌, ℕ, All, length, map};
ghost use Rattle.std.specs.Prelude.{IfOk, IfSome, IsSomeAnd, OnOk, OnErr};
ghost use Rattle.std.specs.Vec.{vec_capacity};
ghost use Rattle.mrpc_base.specs.declared.tickets.TheConstants.{WINDOWS};
ghost use Rattle.tenant_quota.specs.Drawing.{AreAllDrawn, AreLater, Drawing, all_shares, tickets_of_tenant};
ghost use Rattle.tenant_quota.specs.Drawing.{all_after_join, kept_half, new_half, quotas_of};
ghost use Rattle.tenant_quota.specs.Splitting.{AreOfQuotas, AreSplit};

use crate::seat::Seat;
use mrpc_base::{Tickets, WINDOWS};
use std::alloc::{AllocError, Global};
use std::marker::Model;

/// Seats of the quotas of tenants, one for each; tenants are numbered from 0. Contracts see it as the list of its
/// seats.
pub struct Seats {
    seats: Vec<Seat>,
}

// Written by hand, so that a drop is one call instead of one for each field.
impl Drop for Seats {
    fn drop(self) {
        let Seats { seats: _seats } = self;
    }
}

impl Model for Seats {
    ghost use Rattle.std.specs.Prelude.{◌≡◌, List, All};
    ghost use Rattle.mrpc_base.specs.declared.tickets.TheConstants.{WINDOWS};
    ghost use Rattle.tenant_quota.specs.Drawing.{Drawing};

    ghost Value = { List Drawing };

    ghost view = { λ s. s.seats.items };

    ghost invariant = { λ s. All (λ d. d.quota.words ≡ WINDOWS) s.seats.items };
}

impl Seats {
    /// No seats.
    pub fn new(alloc: Global) -> Seats
        ensures { result ≡ [] }
    {
        Seats {
            seats: Vec::new(alloc),
        }
    }

    /// Adds the seat of the next tenant.
    pub fn push(&mut self, seat: Seat) -> Result<(), AllocError>
        requires { seat.quota.words ≡ WINDOWS }
        ensures pushed { OnOk result (self.new ≡ self.old ++ seat ∷ []) }
        ensures same { OnErr result (self.new ≡ self.old) }
    {
        self.seats.push(seat)?;
        Ok(())
    }

    /// New seats of the same quotas, without draws and with half of the shares of these, rounded down. If out of
    /// memory, nothing changes.
    pub fn split(&mut self, alloc: Global) -> Result<Seats, AllocError>
        requires { All (λ seat. 2 ≤ seat.share) self.old }

        ensures halves { IfOk result (λ halves. halves ≡ map new_half self.old) }
        ensures kept { IfOk result (λ halves. self.new ≡ map kept_half self.old) }
        ensures same { OnErr result (self.new ≡ self.old) }
    {
        let mut seats = Vec::with_capacity(alloc, self.seats.len())?;
        let split = split_each(&mut self.seats, &mut seats);
        let halves = Seats { seats };
        match split {
            Ok(()) => Ok(halves),
            Err(fault) => {
                self.join_fewer(halves);
                Err(fault)
            }
        }
    }

    /// Joins other seats of the same quotas, each to that of the same tenant, with their draws and their shares.
    /// Never blocks or allocates.
    pub fn join(&mut self, other: Seats)
        requires { quotas_of other ≡ quotas_of self.old }
        ensures { self.new ≡ all_after_join self.old other }
    {
        self.join_fewer(other);
    }

    // Like `join`, but the others may be fewer.
    fn join_fewer(&mut self, mut other: Seats)
        requires { AreOfQuotas self.old other }
        ensures { self.new ≡ all_after_join self.old other }
    {
        while let Some(seat) = other.seats.pop() {
            self.seats[other.seats.len()].join(seat);
        }
    }

    /// The seats, by ascending tenant.
    pub fn into_vec(self) -> Vec<Seat>
        ensures { result.items ≡ self }
    {
        let Seats { seats } = self;
        seats
    }

    /// The law of tickets, for each seat that has all shares of its quota. The tickets of each window are 0, 1, 2 and
    /// so on, each once, provided that they are fewer than 2^64.
    pub fn tickets_are_distinct(&self)
        ensures { All (λ seat. seat.share ≡ all_shares → AreAllDrawn WINDOWS seat.draws) self.now }
    {
        for seat in self.seats.iter() {
            seat.tickets_are_distinct();
        }
    }
}

// Splits seats in order and collects a half of each. It stops at the first one that runs out of memory.
fn split_each(seats: &mut Vec<Seat>, halves: &mut Vec<Seat>) -> Result<(), AllocError>
    requires none { halves.old.items ≡ [] }
    requires room { length seats.old.items ≤ vec_capacity halves.old }
    requires shares { All (λ seat. 2 ≤ seat.share) seats.old.items }

    ensures split { AreSplit seats.old.items (length halves.new.items) seats.new.items halves.new.items }
    ensures all { OnOk result (length seats.old.items ≤ length halves.new.items) }
{
    while halves.len() < seats.len() {
        let half = seats[halves.len()].split()?;
        push_reserved(halves, half);
    }
    Ok(())
}

// Adds a seat, for which there must be capacity.
fn push_reserved(seats: &mut Vec<Seat>, seat: Seat)
    requires { length seats.old.items < vec_capacity seats.old }
    ensures pushed { seats.new.items ≡ seats.old.items ++ seat ∷ [] }
    ensures capacity { vec_capacity seats.old ≤ vec_capacity seats.new }
{
    match seats.push(seat) {
        Ok(()) => (),
        Err(_) => unreachable!(),
    }
}

impl Tickets for Seats {
    ghost use Rattle.std.specs.Prelude.{◌<◌, length};
    ghost use Rattle.tenant_quota.specs.Drawing.{AreLater, tickets_of_tenant};

    ghost knows = { λ seats tenant. tenant < length seats };

    ghost drawn = { tickets_of_tenant };

    ghost since = { AreLater };

    fn draw(&mut self, tenant: u32, window: u64) -> u64
        requires known { tenant < length self.old }
        requires window { window < WINDOWS }

        ensures drawn { IfSome (tickets_of_tenant self.new tenant window) (λ tickets.
            IsSomeAnd (tickets_of_tenant self.old tenant window) (λ before. tickets ≡ before ++ result ∷ [])) }
        ensures others { (t w : ℕ) → t < length self.old → w < WINDOWS → (t ≢ tenant) ⊎ (w ≢ window)
            → tickets_of_tenant self.new t w ≡ tickets_of_tenant self.old t w }
        ensures tenants { length self.new ≡ length self.old }
        ensures same_quotas { (first : List Drawing) → AreLater first self.old → AreLater first self.new }
    {
        self.seats[tenant as usize].draw(window)
    }
}
