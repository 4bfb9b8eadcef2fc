//! A seat of a quota.

ghost use Rattle.std.specs.Prelude.{◌≡◌, ◌<◌, ◌≤◌, ◌+◌, ◌/◌, [], ◌∷◌, ◌++◌, IfOk, OnErr, ◌^◌, length};
ghost use Rattle.tenant_quota.specs.Drawing.{AreAllDrawn, all_shares, allowed_by_cap, tickets_in};

use crate::view::{DrawStep, Halves, QuotaView, SettleStep, Table};
use atomic_table::Seat as TableSeat;
use std::alloc::{AllocError, Global};
use std::marker::Model;
use std::sync::Arc;

/// A seat from which tickets of a quota are drawn. Its calls never block, and only a split allocates. It may go to
/// any thread. Contracts see it as a `Drawing`: its quota, its draws, and its share.
pub struct Seat {
    pub(crate) words: Arc<Table, Global>,
    pub(crate) seat: TableSeat<(), QuotaView>,
}

// Written by hand, so that a drop is one call instead of one for each field.
impl Drop for Seat {
    fn drop(self) {
        let Seat {
            words: _words,
            seat: _seat,
        } = self;
    }
}

impl Model for Seat {
    ghost use Rattle.std.specs.Arc.{arc_value};
    ghost use Rattle.tenant_quota.specs.Drawing.{Drawing};

    ghost Value = { Drawing };

    ghost use Rattle.tenant_quota.specs.Rule.{IsSeat};

    ghost view = { λ s. record { quota = s.seat.table_id; draws = s.seat.me.0.draws; share = s.seat.me.0.share } };

    ghost invariant = { λ s. IsSeat s.seat.table_id (arc_value s.words).shared.table_id
        (arc_value s.words).shared.key s.seat.me };
}

impl Seat {
    /// Draws a ticket in a window, counted from 0, and adds it to the seat's draws. [`Seat::tickets_are_distinct`] is
    /// the law about the tickets. Never blocks or allocates.
    pub fn draw(&mut self, window: u64) -> u64
        requires { window < self.old.quota.words }

        ensures drawn { self.new.draws ≡ self.old.draws ++ (window, result) ∷ [] }
        ensures quota { self.new.quota ≡ self.old.quota }
        ensures share { self.new.share ≡ self.old.share }
    {
        let words = &self.words.shared;
        words.fetch_add::<DrawStep>(&mut self.seat, window as usize, 1)
    }

    /// A new seat of the same quota, without draws and with half of this one's share, rounded down. If out of memory,
    /// nothing changes.
    pub fn split(&mut self) -> Result<Seat, AllocError>
        requires { 2 ≤ self.old.share }

        ensures undrawn { IfOk result (λ seat. seat.draws ≡ []) }
        ensures half { IfOk result (λ seat. seat.share ≡ self.old.share / 2) }
        ensures shares { IfOk result (λ seat. self.new.share + seat.share ≡ self.old.share) }
        ensures one_quota { IfOk result (λ seat. seat.quota ≡ self.old.quota) }
        ensures draws { self.new.draws ≡ self.old.draws }
        ensures quota { self.new.quota ≡ self.old.quota }
        ensures same { OnErr result (self.new ≡ self.old) }
    {
        let theirs = Arc::try_clone(&self.words)?;
        let words = &self.words.shared;
        let seat = words.split_seat::<Halves>(&mut self.seat);
        words.load::<SettleStep>(&mut self.seat, 0);
        Ok(Seat {
            words: theirs,
            seat,
        })
    }

    /// Joins another seat of the same quota: adds its draws and its share. Never blocks or allocates.
    pub fn join(&mut self, other: Seat)
        requires { other.quota ≡ self.old.quota }

        ensures draws { self.new.draws ≡ self.old.draws ++ other.draws }
        ensures share { self.new.share ≡ self.old.share + other.share }
        ensures quota { self.new.quota ≡ self.old.quota }
    {
        let Seat { seat, words: _ } = other;
        let words = &self.words.shared;
        words.join_seat::<Halves>(&mut self.seat, seat);
        words.load::<SettleStep>(&mut self.seat, 0);
    }

    /// The law of tickets: if a seat has all shares, the tickets of each window are 0, 1, 2 and so on, each once,
    /// provided that they are fewer than 2^64.
    pub fn tickets_are_distinct(&self)
        ensures { self.now.share ≡ all_shares → AreAllDrawn self.now.quota.words self.now.draws }
    {
        let _ = &self.seat;
    }

    /// The law of a cap: if a seat has all shares and a window has fewer than 2^64 tickets, at most `cap` of them are
    /// below it. So one cap over all seats allows at most that many calls.
    pub fn cap_is_kept(&self, window: u64, cap: u64)
        requires { window < self.now.quota.words }
        ensures { self.now.share ≡ all_shares → length (tickets_in window self.now.draws) < 2 ^ 64
            → allowed_by_cap cap (tickets_in window self.now.draws) ≤ cap }
    {
        let _ = (window, cap);
        self.tickets_are_distinct();
    }
}
