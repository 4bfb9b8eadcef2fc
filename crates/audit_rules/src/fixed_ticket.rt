//! A source of tickets that were drawn elsewhere.

ghost use Rattle.std.specs.Prelude.{◌≡◌, ◌≢◌, ◌<◌, ◌⊎◌, ◌∷◌, [], ◌++◌, ℕ, IfSome, IsSomeAnd};

use crate::drawn::{DrawTrace, GhostDraw};
use mrpc_base::Tickets;

// Returns the ticket of an audit line, the same one in each draw.
#[derive(Drop)]
pub(crate) struct FixedTicket {
    pub ticket: u64,
    pub draws: DrawTrace,
}

impl Tickets for FixedTicket {
    ghost use Rattle.std.specs.Prelude.{Some};
    ghost use Rattle.audit_rules.specs.Given.{tickets_of_draws};

    ghost knows = { λ prepared tenant. Unit {0} };

    ghost drawn = { λ prepared tenant window. Some (tickets_of_draws prepared.ticket prepared.draws.list tenant window) };

    ghost since = { λ first later. later.ticket ≡ first.ticket };

    fn draw(&mut self, tenant: u32, window: u64) -> u64 {
        self.draws = DrawTrace::with(&self.draws, &GhostDraw { tenant, window });
        self.ticket
    }
}
