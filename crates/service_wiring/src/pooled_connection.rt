//! A connection that workers visit among others.

ghost use Rattle.std.specs.Prelude.{◌≡◌};
ghost use Rattle.service_loop.specs.Rounds.{IsGrantedByWeight, IsEndpoint};
ghost use Rattle.worker_pool.specs.Visits.{IsItemAfterVisit};
ghost use Rattle.service_wiring.specs.Closing.{IsLeftOf};
ghost use Rattle.service_wiring.specs.Pooling.{IsLaterEndpoint, IsRetired};

use crate::closed_connection::ClosedConnection;
use crate::laws::since_is_transitive;
use crate::run_context::RunContext;
use link_queue::QueueLink;
use mrpc_base::{Clock, Gate, Link, ReadyOrder, Tickets};
use polling::{RunFlag, StopFlag};
use service_loop::{Endpoint, VisitOutcome};
use std::alloc::Global;
use std::marker::Model;
use std::sync::Wait;
use tenant_quota::Seats;
use worker_pool::{PoolItem, VisitResult};

/// A connection with what a visit needs. Contracts see it as its `Endpoint`, whose invariant holds between two rounds
/// unless it ran out of memory (`IsEndpoint`). The order grants rounds by the weight of its visit account.
pub struct PooledConnection<'t, R, C: Clock, Q: Tickets, L: Link, G, O: ReadyOrder> {
    endpoint: Endpoint<'t, C, Q, L>,
    rt: &'t R,
    alloc: Global,
    gate: &'t G,
    order: &'t O,
    stop: &'t RunFlag,
}

// Written by hand, since shared references needn't be dropped.
impl<'t, R, C: Clock, Q: Tickets + Drop, L: Link + Drop, G, O: ReadyOrder> Drop
    for PooledConnection<'t, R, C, Q, L, G, O> {
    fn drop(self) {
        let PooledConnection {
            endpoint: _endpoint,
            rt: _,
            alloc: _,
            gate: _,
            order: _,
            stop: _,
        } = self;
    }
}

impl<'t, R, C: Clock, Q: Tickets, L: Link, G, O: ReadyOrder> Model
    for PooledConnection<'t, R, C, Q, L, G, O> {
    ghost use Rattle.service_loop.specs.declared.endpoint.Endpoint.{Endpoint as TheEndpoint};
    ghost use Rattle.mrpc_table.specs.NodeCode.{node_code};
    ghost use Rattle.std.specs.Coded.{codes};

    ghost Value = { TheEndpoint C Q L };

    ghost coded = { Prim.hlevel (codes, node_code) };

    ghost use Rattle.service_loop.specs.Rounds.{IsGrantedByWeight, IsEndpoint};

    ghost view = { λ t. t.endpoint };

    // The order grants rounds by the weight of the connection's visit account.
    ghost invariant = { λ t. IsEndpoint C.Clock Q.Tickets L.Link t.endpoint
        × IsGrantedByWeight (O.grant_of t.order.now) t.endpoint };
}

impl<'t, R, C: Clock, Q: Tickets, L: Link, G, O: ReadyOrder> PoolItem
    for PooledConnection<'t, R, C, Q, L, G, O> {
    ghost use Rattle.service_wiring.specs.Pooling.{IsLaterEndpoint, IsRetired};

    ghost since = { IsLaterEndpoint C.Clock Q.Tickets L.Link };

    ghost over = { IsRetired C.Clock Q.Tickets L.Link };
}

impl<'t, R: Wait, C: Clock, Q: Tickets, L: Link, G, O: ReadyOrder> PooledConnection<
    't,
    R,
    C,
    Q,
    L,
    G,
    O,
> {
    /// A connection that is ready to be visited.
    pub fn new(
        common: &RunContext<'t, R, C, G, O>,
        endpoint: Endpoint<'t, C, Q, L>,
    ) -> PooledConnection<'t, R, C, Q, L, G, O>
        requires endpoint { IsEndpoint C.Clock Q.Tickets L.Link endpoint }
        requires order { IsGrantedByWeight (O.grant_of common.now.order.now) endpoint }
        ensures { result ≡ endpoint.entry }
    {
        PooledConnection {
            endpoint,
            rt: common.rt,
            alloc: common.alloc,
            gate: common.gate,
            order: common.order,
            stop: common.stop,
        }
    }
}

impl<'t, R: Wait, C: Clock, Q: Tickets, L: Link, G: Gate, O: ReadyOrder> PooledConnection<
    't,
    R,
    C,
    Q,
    L,
    G,
    O,
> {
    /// Makes one visit. If it runs out of memory, it sets the stop flag, which ends the run, and isn't visited again.
    pub fn visit(&mut self) -> VisitResult
        ensures { IsItemAfterVisit (IsLaterEndpoint C.Clock Q.Tickets L.Link) (IsRetired C.Clock Q.Tickets L.Link)
            self.old result self.new }
    {
        since_is_transitive::<C, Q, L>();
        visit_endpoint(
            &mut self.endpoint,
            self.rt,
            self.alloc,
            self.gate,
            self.order,
            self.stop,
        )
    }
}

// Visits the connection itself.
fn visit_endpoint<R: Wait, C: Clock, Q: Tickets, L: Link, G: Gate, O: ReadyOrder>(
    endpoint: &mut Endpoint<C, Q, L>,
    rt: &R,
    alloc: Global,
    gate: &G,
    order: &O,
    stop: &RunFlag,
) -> VisitResult
    requires endpoint { IsEndpoint C.Clock Q.Tickets L.Link endpoint.old }
    requires order { IsGrantedByWeight (O.grant_of order.now) endpoint.old }
    ensures endpoint { IsEndpoint C.Clock Q.Tickets L.Link endpoint.new }
    ensures order { IsGrantedByWeight (O.grant_of order.now) endpoint.new }
    ensures turned { IsLaterEndpoint C.Clock Q.Tickets L.Link endpoint.old endpoint.new }
    ensures over { result ≡ VisitResult.Over → IsRetired C.Clock Q.Tickets L.Link endpoint.new }
{
    since_is_transitive::<C, Q, L>();
    if endpoint.memory {
        stop.set();
        return VisitResult::Over;
    }
    let visited = endpoint.visit(rt, alloc, gate, order);
    match visited.outcome {
        VisitOutcome::Busy => VisitResult::Worked,
        VisitOutcome::Idle => VisitResult::Idle,
        VisitOutcome::Over => VisitResult::Over,
        VisitOutcome::Memory => {
            stop.set();
            VisitResult::Over
        }
    }
}

impl<'t, R: Wait, C: Clock, G, O: ReadyOrder> PooledConnection<
    't,
    R,
    C,
    Seats,
    QueueLink<'t, R>,
    G,
    O,
> {
    /// Closes the link of the connection, and returns its parts.
    pub fn close(self) -> ClosedConnection<'t>
        ensures endpoint { IsEndpoint C.Clock ⟦<Seats as Tickets>⟧ ⟦<QueueLink<'t, R> as Link>⟧ self.entry }
        ensures parts { IsLeftOf self.entry result }
    {
        let PooledConnection {
            endpoint,
            rt: _,
            alloc: _,
            gate: _,
            order: _,
            stop: _,
        } = self;
        let Endpoint {
            submissions,
            deliveries,
            link,
            tickets,
            clock: _,
            buffer: _buffer,
            kept: _,
            share,
            memory,
        } = endpoint;
        ClosedConnection {
            submissions,
            deliveries,
            seats: tickets,
            passed: link.close(),
            share,
            memory,
        }
    }
}
