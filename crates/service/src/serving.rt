//! A run.

ghost use Rattle.std.specs.Prelude.{◌≡◌, ◌<◌, ◌≤◌, ◌+◌, ◌^◌, ℕ, IfOk, IsErrOf, List, length};
ghost use Rattle.std.specs.List.{AllZip};
ghost use Rattle.mrpc_base.specs.Failures.{HasCause};
ghost use Rattle.mrpc_base.specs.declared.tickets.TheConstants.{WINDOWS};
ghost use Rattle.tenant_quota.specs.Drawing.{IsPermutationOfRange};
ghost use Rattle.run_plan.specs.Plans.{IsPlan};
ghost use Rattle.run_plan.specs.Links.{all_ends};
ghost use Rattle.worker_pool.specs.declared.limits.TheConstants.{MAX_POOL_ITEMS};
ghost use Rattle.service_wiring.specs.Weighing.{IsPlanOrder};
ghost use Rattle.service.specs.Concluding.{WasServedAt};
ghost use Rattle.service.specs.Ends.{OpenedEnd};
ghost use Rattle.service.specs.Handshakes.{IsHandshakeEnd};
ghost use Rattle.service.specs.PreparedRun.{IsPreparedRun};
ghost use Rattle.service.specs.Served.{ArePairs, WasServed, all_tickets};
ghost use Rattle.service.specs.Starting.{HaveScheduledOpsAt};

use crate::concluding::conclude;
use crate::fault::ServeFault;
use crate::handshake::{HandshakeEnd, make_handshakes};
use crate::prepared_run::PreparedRun;
use crate::served::Served;
use crate::starting::{StartedConnections, start_all};
use mrpc_base::{Clock, Fabric, Gate, Link, ReadyOrder};
use mrpc_table::Memory;
use run_plan::Plan;
use service_loop::ScheduledOp;
use service_threads::run_wired;
use service_wiring::RunContext;
use std::alloc::Global;
use std::sync::Wait;
use std::thread::Threads;

/// Runs a plan over the links of a fabric, to the end of each connection. It opens the link of each pair, makes the
/// handshake at both ends, and serves each bound connection with its application. Blocks until all connections are
/// finished. `Fabric` if the fabric failed to open a link, and `Memory` if any thread ran out of memory; links that
/// were opened are then dropped.
pub fn serve<'t, R: Threads + Wait + Sync, F: Fabric, C: Clock, G: Gate, O: ReadyOrder>(
    rt: &'t R,
    alloc: Global,
    plan: &'t Plan,
    prepared: &'t PreparedRun,
    fabric: &mut F,
    clock: &'t C,
    gate: &'t G,
    order: &'t O,
) -> Result<Served<'t, F::L>, ServeFault>
    requires plan { IsPlan plan.now }
    requires prepared { IsPreparedRun plan.now prepared.now }
    // The order follows the plan's weights, if the plan's connections are weighted.
    requires order { IsPlanOrder plan.now (O.grant_of order.now) }

    // What the run did on each connection, in the order of the links.
    ensures served { IfOk result (λ served. AllZip (WasServed C.Clock F.L.Link plan.now clock.now)
        (all_ends plan.now.links) served.conns.items) }

    // Each two results in a row have the ends of one link.
    ensures pairs { IfOk result (λ served. ArePairs (λ s. s.link) F.pair served.conns.items) }

    // The tickets of a tenant's window are 0, 1, 2 and so on, each once, if they are fewer than 2^64.
    ensures tickets { IfOk result (λ served. (tenant window : ℕ) → tenant < length plan.now.declared.tenants
        → window < WINDOWS → length (all_tickets tenant window served.conns.items) < 2 ^ 64
        → IsPermutationOfRange (all_tickets tenant window served.conns.items)) }

    // The fabric got no link back, and one more is away for each connection here.
    ensures away { IfOk result (λ served. F.away fabric.new ≡ F.away fabric.old + length served.conns.items) }
    ensures back { F.back fabric.new ≡ F.back fabric.old }
    ensures cause { HasCause (IsErrOf result ServeFault.Fabric) (F.failures fabric.old) (F.failures fabric.new) }
{
    let common = RunContext {
        rt,
        alloc,
        plan,
        clock,
        gate,
        order,
        stop: &prepared.stop,
    };
    let greeted = make_handshakes(rt, alloc, plan, fabric)?;
    let served = run_all(&common, prepared.steps.as_slice(), greeted)?;
    Ok(served)
}

// Serves the connections after the handshakes.
fn run_all<'t, R: Threads + Wait + Sync, L: Link + Send + Drop, C: Clock, G: Gate, O: ReadyOrder>(
    common: &RunContext<'t, R, C, G, O>,
    steps: &'t [Vec<ScheduledOp>],
    greeted: Vec<HandshakeEnd<'t, L>>,
) -> Result<Served<'t, L>, Memory>
    requires plan { IsPlan common.now.plan.now }
    requires greeted { (ends : List (OpenedEnd L))
        × AllZip (IsHandshakeEnd L.Link common.now.plan.now) ends greeted.items
        × HaveScheduledOpsAt common.now.plan.now ends steps.now }
    requires few { length greeted.items ≤ MAX_POOL_ITEMS }
    requires order { IsPlanOrder common.now.plan.now (O.grant_of common.now.order.now) }
    ensures served { (ends : List (OpenedEnd L))
        → AllZip (IsHandshakeEnd L.Link common.now.plan.now) ends greeted.entry.items
        → HaveScheduledOpsAt common.now.plan.now ends steps.now
        → IfOk result (λ served. AllZip (WasServedAt C.Clock L.Link common.now.plan.now common.now.clock.now) ends
        served.conns.items) }
    ensures tickets { IfOk result (λ served. (tenant window : ℕ) → tenant < length common.now.plan.now.declared.tenants
        → window < WINDOWS → length (all_tickets tenant window served.conns.items) < 2 ^ 64
        → IsPermutationOfRange (all_tickets tenant window served.conns.items)) }
{
    let StartedConnections {
        standings,
        items,
        jobs,
        writers,
        seats,
    } = start_all(common, steps, greeted)?;
    let workers = common.plan.workers as usize;
    let met = run_wired(common, workers, items, jobs, writers)?;
    conclude(common, standings, met, seats)
}
