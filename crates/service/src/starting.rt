//! How the connections of a run start.

ghost use Rattle.std.specs.Prelude.{◌≡◌, ◌≢◌, ◌<◌, ◌≤◌, [], ◌∷◌, ◌++◌, All, Contains, IfOk, List, OnOk, Some, length, map, slice_get};
ghost use Rattle.std.specs.List.{AllZip};
ghost use Rattle.mrpc_table.specs.declared.limits.TheConstants.{MIN_HEAP};
ghost use Rattle.tenant_quota.specs.Drawing.{Drawing, new_half};
ghost use Rattle.receive_core.specs.ReceiverTraces.{ReceiverTrace as TheLife};
ghost use Rattle.message_delivery.specs.Arriving.{IsArrivalTrace};
ghost use Rattle.run_plan.specs.Plans.{IsPlan};
ghost use Rattle.service_loop.specs.ScheduledOps.{AreScheduledOps, KnowTenants};
ghost use Rattle.worker_pool.specs.declared.limits.TheConstants.{MAX_POOL_ITEMS};
ghost use Rattle.service_wiring.specs.Weighing.{IsPlanOrder};
ghost use Rattle.service.specs.Ends.{OpenedEnd};
ghost use Rattle.service.specs.Handshakes.{IsHandshakeEnd};
ghost use Rattle.service.specs.Starting.{AllStarted, HaveStarted, HaveScheduledOpsAt, HasStartedNext};

use crate::handshake::HandshakeEnd;
use crate::quotas::all_seats;
use link_handshake::Unbound;
use link_queue::{QueueLink, QueueWriter};
use message_delivery::{Arrivals, StreamState};
use mrpc_base::{Clock, Link, ReadyOrder};
use mrpc_table::Memory;
use run_plan::Application;
use service_loop::ScheduledOp;
use service_wiring::{AppTask, PooledConnection, RunContext, wire};
use shared_heap::Reader;
use std::sync::Wait;
use tenant_quota::{Seats, shares_suffice};

// The state of a connection before the threads start.
#[derive(Drop)]
pub(crate) enum StartState<L> {
    // It is bound.
    Bound { conn: u32 },
    // It isn't bound.
    Unbound { conn: u32, link: L, why: Unbound },
}

// The connections that have started, the tasks of the threads for the bound ones, all in the same order, and the
// remaining seats.
#[derive(Drop)]
pub(crate) struct StartedConnections<'t, R: Wait, L: Link, C: Clock, G, O: ReadyOrder> {
    pub standings: Vec<StartState<L>>,
    pub items: Vec<PooledConnection<'t, R, C, Seats, QueueLink<'t, R>, G, O>>,
    pub jobs: Vec<AppTask<'t>>,
    pub writers: Vec<QueueWriter<'t, R, L>>,
    pub seats: Seats,
}

// Starts each connection, with its scheduled operations.
pub(crate) fn start_all<'t, R: Wait, L: Link + Drop, C: Clock, G, O: ReadyOrder>(
    common: &RunContext<'t, R, C, G, O>,
    steps: &'t [Vec<ScheduledOp>],
    greeted: Vec<HandshakeEnd<'t, L>>,
) -> Result<StartedConnections<'t, R, L, C, G, O>, Memory>
    requires plan { IsPlan common.now.plan.now }
    requires greeted { (ends : List (OpenedEnd L))
        × AllZip (IsHandshakeEnd L.Link common.now.plan.now) ends greeted.items
        × HaveScheduledOpsAt common.now.plan.now ends steps.now }
    requires few { length greeted.items ≤ MAX_POOL_ITEMS }
    requires order { IsPlanOrder common.now.plan.now (O.grant_of common.now.order.now) }
    ensures { (ends : List (OpenedEnd L)) → AllZip (IsHandshakeEnd L.Link common.now.plan.now) ends greeted.entry.items
        → HaveScheduledOpsAt common.now.plan.now ends steps.now
        → IfOk result (λ begun. AllStarted L.Link common.now.plan.now common.now.clock.now ends begun.standings.items
        begun.items.items begun.jobs.items begun.writers.items begun.seats) }
{
    shares_suffice();
    let alloc = common.alloc;
    let seats = all_seats(alloc, common.plan)?;
    let mut begun = StartedConnections {
        standings: Vec::new(alloc),
        items: Vec::new(alloc),
        jobs: Vec::new(alloc),
        writers: Vec::new(alloc),
        seats,
    };
    let mut rest = greeted.into_iter();
    while let Some(end) = rest.next() {
        start_next(common, steps, end, &mut begun)?;
    }
    Ok(begun)
}

// Starts the next connection, whose scheduled operations are at its index.
fn start_next<'t, R: Wait, L: Link + Drop, C: Clock, G, O: ReadyOrder>(
    common: &RunContext<'t, R, C, G, O>,
    steps: &'t [Vec<ScheduledOp>],
    end: HandshakeEnd<'t, L>,
    begun: &mut StartedConnections<'t, R, L, C, G, O>,
) -> Result<(), Memory>
    requires plan { IsPlan common.now.plan.now }
    requires next { (whole : List Drawing) × (ends : List (OpenedEnd L)) × (later : List (OpenedEnd L))
        × (e : OpenedEnd L)
        × IsHandshakeEnd L.Link common.now.plan.now e end
        × HaveScheduledOpsAt common.now.plan.now (ends ++ e ∷ later) steps.now
        × HaveStarted L.Link common.now.plan.now common.now.clock.now whole ends begun.old.standings.items
        begun.old.items.items begun.old.jobs.items begun.old.writers.items begun.old.seats }
    requires few { length begun.old.standings.items < MAX_POOL_ITEMS }
    requires order { IsPlanOrder common.now.plan.now (O.grant_of common.now.order.now) }
    ensures { (whole : List Drawing) (ends later : List (OpenedEnd L)) (e : OpenedEnd L)
        → IsHandshakeEnd L.Link common.now.plan.now e end.entry
        → HaveScheduledOpsAt common.now.plan.now (ends ++ e ∷ later) steps.now
        → HaveStarted L.Link common.now.plan.now common.now.clock.now whole ends begun.old.standings.items
        begun.old.items.items begun.old.jobs.items begun.old.writers.items begun.old.seats
        → OnOk result (HaveStarted L.Link common.now.plan.now common.now.clock.now whole (ends ++ e ∷ [])
        begun.new.standings.items begun.new.items.items begun.new.jobs.items begun.new.writers.items begun.new.seats) }
{
    shares_suffice();
    let due = &steps[begun.standings.len()];
    let HandshakeEnd {
        app,
        link,
        arrivals,
        reader,
        unbound,
    } = end;
    match unbound {
        Some(why) => keep_unbound(begun, app.conn, link, why),
        None => start_bound(common, app, due.as_slice(), arrivals, reader, link, begun),
    }
}

// Keeps a connection that isn't bound.
fn keep_unbound<'t, R: Wait, L: Link + Drop, C: Clock, G, O: ReadyOrder>(
    begun: &mut StartedConnections<'t, R, L, C, G, O>,
    conn: u32,
    link: L,
    why: Unbound,
) -> Result<(), Memory>
    ensures added { OnOk result (begun.new.standings.items
        ≡ begun.old.standings.items ++ StartState.Unbound conn link why ∷ []) }
    ensures items { begun.new.items.items ≡ begun.old.items.items }
    ensures jobs { begun.new.jobs.items ≡ begun.old.jobs.items }
    ensures writers { begun.new.writers.items ≡ begun.old.writers.items }
    ensures seats { begun.new.seats ≡ begun.old.seats }
{
    begun
        .standings
        .push(StartState::Unbound { conn, link, why })?;
    Ok(())
}

// Wires a bound connection, with seats of its own.
fn start_bound<'t, R: Wait, L: Link + Drop, C: Clock, G, O: ReadyOrder>(
    common: &RunContext<'t, R, C, G, O>,
    app: &'t Application,
    steps: &'t [ScheduledOp],
    arrivals: Arrivals<'t>,
    reader: Reader,
    link: L,
    begun: &mut StartedConnections<'t, R, L, C, G, O>,
) -> Result<(), Memory>
    requires plan { IsPlan common.now.plan.now }
    requires app { Contains common.now.plan.now.applications app.now }
    requires steps { AreScheduledOps steps.now }
    requires known { KnowTenants (λ tenant. tenant < length begun.old.seats) steps.now }
    requires lived { (life : TheLife) × IsArrivalTrace life arrivals × (life.fates ≡ []) }
    requires working { arrivals.stream ≢ StreamState.Failed }
    requires none_held { arrivals.inbound.heap.held ≡ [] }
    requires one_heap { reader.heap ≡ arrivals.writer.heap }
    requires new_heap { reader.loads ≡ [] }
    requires words { MIN_HEAP ≤ reader.heap.words }
    requires shares { All (λ seat. 2 ≤ seat.share) begun.old.seats }
    requires order { IsPlanOrder common.now.plan.now (O.grant_of common.now.order.now) }
    ensures { (life : TheLife) → IsArrivalTrace life arrivals.entry → life.fates ≡ []
        → OnOk result (HasStartedNext common.now.plan.now app.now (record {
          arrivals = arrivals.entry;
          life = life;
          reader = reader;
          seats = map new_half begun.old.seats;
          steps = steps.now;
          clock = common.now.clock.now;
          link = link;
        }) begun.old.standings.items begun.new.standings.items begun.old.items.items begun.new.items.items
        begun.old.jobs.items begun.new.jobs.items begun.old.writers.items begun.new.writers.items
        begun.old.seats begun.new.seats) }
{
    let own = begun.seats.split(common.alloc)?;
    let (item, job, writer) = wire(common, app, steps, arrivals, reader, own, link)?;
    keep_tasks(begun, app.conn, item, job, writer)
}

// Keeps the tasks of the threads of a bound connection.
fn keep_tasks<'t, R: Wait, L: Link + Drop, C: Clock, G, O: ReadyOrder>(
    begun: &mut StartedConnections<'t, R, L, C, G, O>,
    conn: u32,
    item: PooledConnection<'t, R, C, Seats, QueueLink<'t, R>, G, O>,
    job: AppTask<'t>,
    writer: QueueWriter<'t, R, L>,
) -> Result<(), Memory>
    ensures added { OnOk result ((begun.new.standings.items ≡ begun.old.standings.items ++ StartState.Bound conn ∷ [])
        × (begun.new.items.items ≡ begun.old.items.items ++ item.entry ∷ [])
        × (begun.new.jobs.items ≡ begun.old.jobs.items ++ job.entry ∷ [])
        × (begun.new.writers.items ≡ begun.old.writers.items ++ writer.entry ∷ [])) }
    ensures seats { begun.new.seats ≡ begun.old.seats }
{
    // The task first: it has many fields, which would otherwise be dropped one by one after each earlier push.
    begun.jobs.push(job)?;
    begun.items.push(item)?;
    begun.writers.push(writer)?;
    begun.standings.push(StartState::Bound { conn })?;
    Ok(())
}
