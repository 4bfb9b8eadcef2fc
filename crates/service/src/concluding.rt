//! The outcomes of the connections of a run.

ghost use Rattle.std.specs.Prelude.{◌≡◌, ◌<◌, ◌^◌, ◌∷◌, ◌++◌, [], ℕ, IfOk, List, OnOk, length, map};
ghost use Rattle.std.specs.List.{AllZip};
ghost use Rattle.mrpc_base.specs.declared.tickets.TheConstants.{WINDOWS};
ghost use Rattle.tenant_quota.specs.Drawing.{IsPermutationOfRange};
ghost use Rattle.std.specs.Vec.Iter.{into_iter_items};
ghost use Rattle.service.specs.declared.starting.StartState.{StartState as TheStanding};
ghost use Rattle.service.specs.Concluding.{WasServedAt, HaveRun, unmatched_of, outcomes_of};
ghost use Rattle.service.specs.Ends.{OpenedEnd};
ghost use Rattle.service.specs.Served.{all_tickets};

use crate::served::{ConnectionOutcome, Served, ServedConn};
use crate::starting::StartState;
use mrpc_base::{Clock, Link};
use mrpc_table::Memory;
use service_threads::{ReconciledConnection, join_all, seats_join_again};
use service_wiring::RunContext;
use std::alloc::Global;
use std::vec::IntoIter;
use tenant_quota::{Seats, join_undoes_split};

// The outcome of each connection, after the seats of all were joined.
pub(crate) fn conclude<'t, R, L: Link + Drop, C: Clock, G, O>(
    common: &RunContext<'t, R, C, G, O>,
    standings: Vec<StartState<L>>,
    met: Vec<ReconciledConnection<'t, L>>,
    mut seats: Seats,
) -> Result<Served<'t, L>, Memory>
    requires run { (ends : List (OpenedEnd L)) × HaveRun C.Clock L.Link common.now.plan.now common.now.clock.now ends
        standings.items met.items seats }
    ensures served { (ends : List (OpenedEnd L)) → HaveRun C.Clock L.Link common.now.plan.now common.now.clock.now ends
        standings.items met.entry.items seats
        → IfOk result (λ served. AllZip (WasServedAt C.Clock L.Link common.now.plan.now common.now.clock.now) ends
        served.conns.items) }
    ensures tickets { IfOk result (λ served. (tenant window : ℕ) → tenant < length common.now.plan.now.declared.tenants
        → window < WINDOWS → length (all_tickets tenant window served.conns.items) < 2 ^ 64
        → IsPermutationOfRange (all_tickets tenant window served.conns.items)) }
{
    seats_join_again();
    join_undoes_split();
    let alloc = common.alloc;
    let mut others = Vec::new(alloc);
    let conns = outcomes(alloc, standings, met, &mut others)?;
    join_all(&mut seats, others);
    seats.tickets_are_distinct();
    Ok(Served { conns })
}

// The outcome of each connection, in their order. Joins the seats of those that were served.
fn outcomes<'t, L: Drop>(
    alloc: Global,
    standings: Vec<StartState<L>>,
    met: Vec<ReconciledConnection<'t, L>>,
    others: &mut Vec<Seats>,
) -> Result<Vec<ServedConn<'t, L>>, Memory>
    requires { others.old.items ≡ [] }
    ensures conns { IfOk result (λ conns. conns.items ≡ outcomes_of standings.items met.entry.items) }
    ensures seats { OnOk result (others.new.items ++ map (λ m. m.seats) (unmatched_of standings.items met.entry.items)
        ≡ map (λ m. m.seats) met.entry.items) }
{
    let mut conns = Vec::with_capacity(alloc, standings.len())?;
    let mut met = met.into_iter();
    let mut rest = standings.into_iter();
    while let Some(one) = rest.next() {
        let conn = outcome_of(one, &mut met, others)?;
        conns.push(conn)?;
    }
    Ok(conns)
}

// The outcome of the next connection. A bound one takes the next reconciled connection and keeps its seats.
fn outcome_of<'t, L: Drop>(
    one: StartState<L>,
    met: &mut IntoIter<ReconciledConnection<'t, L>>,
    others: &mut Vec<Seats>,
) -> Result<ServedConn<'t, L>, Memory>
    ensures conn { (rest : List (TheStanding L)) → IfOk result (λ conn.
        outcomes_of (one ∷ rest) (into_iter_items met.old) ≡ conn ∷ outcomes_of rest (into_iter_items met.new)) }
    ensures left { (rest : List (TheStanding L)) → OnOk result (unmatched_of (one ∷ rest) (into_iter_items met.old)
        ≡ unmatched_of rest (into_iter_items met.new)) }
    ensures seats { OnOk result (others.new.items ++ map (λ m. m.seats) (into_iter_items met.new)
        ≡ others.old.items ++ map (λ m. m.seats) (into_iter_items met.old)) }
{
    match one {
        StartState::Unbound { conn, link, why } => Ok(ServedConn {
            conn,
            link,
            outcome: ConnectionOutcome::Unbound(why),
        }),
        StartState::Bound { conn } => match met.next() {
            None => Err(Memory),
            Some(ReconciledConnection { bound, seats, link }) => {
                others.push(seats)?;
                Ok(ServedConn {
                    conn,
                    link,
                    outcome: ConnectionOutcome::Bound(bound),
                })
            }
        },
    }
}
