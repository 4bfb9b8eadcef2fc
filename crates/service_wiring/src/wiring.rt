//! How a connection, its application and its link are wired.

ghost use Rattle.std.specs.Prelude.{◌≡◌, ◌≢◌, ◌<◌, ◌≤◌, [], Contains, IfOk, length};
ghost use Rattle.mrpc_table.specs.declared.limits.TheConstants.{MIN_HEAP};
ghost use Rattle.receive_core.specs.ReceiverTraces.{ReceiverTrace as TheLife};
ghost use Rattle.message_delivery.specs.Arriving.{HaveSameIdentity, IsArrivalTrace};
ghost use Rattle.run_plan.specs.Plans.{IsPlan};
ghost use Rattle.service_loop.specs.ScheduledOps.{AreScheduledOps, KnowTenants};
ghost use Rattle.service_wiring.specs.Weighing.{IsPlanOrder, visit_account_in};
ghost use Rattle.service_wiring.specs.Wired.{IsWired};

use crate::applications::AppTask;
use crate::opened_port::open_port;
use crate::pooled_connection::PooledConnection;
use crate::programs::programmed;
use crate::run_context::RunContext;
use conn_core::Conn;
use link_queue::{QueueLink, QueueWriter};
use message_delivery::{Arrivals, StreamState};
use mrpc_base::{Clock, Link, ReadyOrder};
use mrpc_table::Memory;
use qos_order::Account;
use run_plan::{Application, Plan};
use service_loop::{Deliveries, Endpoint, ScheduledOp, Submissions, VisitAccount};
use shared_heap::Reader;
use std::alloc::Global;
use std::sync::Wait;
use tenant_quota::Seats;

/// The maximum number of frames queued for a link.
pub const MAX_QUEUED_FRAMES: u64 = 64;

/// The maximum number of bytes received at once.
pub const MAX_RECEIVE_BYTES: usize = 65536;

/// A connection that workers visit, its application, and the writer of its link.
pub type WiredConnection<'t, R, L, C, G, O> = (
    PooledConnection<'t, R, C, Seats, QueueLink<'t, R>, G, O>,
    AppTask<'t>,
    QueueWriter<'t, R, L>,
);

/// Wires the connection of an application with its application and its link, after the handshake that bound the
/// connection. A stream that has ended by then is opened again, since the queue hasn't reported its end yet.
pub fn wire<'t, R: Wait, L: Link + Drop, C: Clock, G, O: ReadyOrder>(
    common: &RunContext<'t, R, C, G, O>,
    app: &'t Application,
    steps: &'t [ScheduledOp],
    arrivals: Arrivals<'t>,
    reader: Reader,
    seats: Seats,
    link: L,
) -> Result<WiredConnection<'t, R, L, C, G, O>, Memory>
    requires plan { IsPlan common.now.plan.now }
    requires app { Contains common.now.plan.now.applications app.now }
    requires steps { AreScheduledOps steps.now }
    requires known { KnowTenants (λ tenant. tenant < length seats) steps.now }
    requires lived { (life : TheLife) × IsArrivalTrace life arrivals × (life.fates ≡ []) }
    requires working { arrivals.stream ≢ StreamState.Failed }
    requires none_held { arrivals.inbound.heap.held ≡ [] }
    requires one_heap { reader.heap ≡ arrivals.writer.heap }
    requires new_heap { reader.loads ≡ [] }
    requires words { MIN_HEAP ≤ reader.heap.words }
    requires order { IsPlanOrder common.now.plan.now (O.grant_of common.now.order.now) }
    ensures { (life : TheLife) → IsArrivalTrace life arrivals.entry → life.fates ≡ []
        → IfOk result (λ wired. IsWired common.now.plan.now app.now (record {
          arrivals = arrivals.entry;
          life = life;
          reader = reader;
          seats = seats;
          steps = steps.now;
          clock = common.now.clock.now;
          link = link;
        }) wired.0 wired.1 wired.2) }
{
    let alloc = common.alloc;
    let table = common.plan.table_of(app);
    let buffer = vec![in alloc; 0; MAX_RECEIVE_BYTES]?;
    let (queue, passing) = link_queue::open(common.rt, alloc, MAX_QUEUED_FRAMES, link)?;
    let conn = Conn::open(alloc, app.conn, table, common.plan.loads)?;
    let ported = open_port(alloc, app, common.stop, reader)?;
    let submissions = Submissions::new(conn, ported.own_reader, ported.calls, steps);
    let deliveries = Deliveries::new(
        alloc,
        reopened(arrivals),
        ported.rings,
        programmed(&app.role),
    );
    let share = visit_account_of(common.plan, app);
    let endpoint = Endpoint::new(
        submissions,
        deliveries,
        queue,
        seats,
        common.clock,
        buffer,
        share,
    );
    let job = AppTask {
        role: &app.role,
        table,
        port: ported.port,
    };
    Ok((PooledConnection::new(common, endpoint), job, passing))
}

// The initial visit account of an application's connection.
fn visit_account_of(plan: &Plan, app: &Application) -> Option<VisitAccount>
    ensures { result ≡ visit_account_in plan.now app.now }
{
    if plan.weighted {
        return Some(VisitAccount {
            weight: app.weight,
            account: Account::new(),
        });
    }
    None
}

// The arrivals, with their stream opened again if it has ended.
fn reopened(mut arrivals: Arrivals) -> Arrivals
    requires { arrivals.stream ≢ StreamState.Failed }
    ensures lived { (life : TheLife) → IsArrivalTrace life arrivals.entry → IsArrivalTrace life result }
    ensures same { HaveSameIdentity arrivals.entry result }
    ensures held { result.inbound.heap.held ≡ arrivals.entry.inbound.heap.held }
    ensures working { result.stream ≢ StreamState.Failed }
    ensures not_ended { result.stream ≢ StreamState.Ended }
{
    if arrivals.stream == StreamState::Ended {
        arrivals.stream = StreamState::Open;
    }
    arrivals
}
