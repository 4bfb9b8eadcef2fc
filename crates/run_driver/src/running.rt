//! A run.

ghost use Rattle.std.specs.Prelude.{◌≡◌, ◌+◌, ◌≤◌, ◌++◌, ℕ, List, IfOk, OnOk, IsErrOf, IsPermutation, length, map};
ghost use Rattle.std.specs.List.{concat};
ghost use Rattle.mrpc_base.specs.Failures.{HasCause};
ghost use Rattle.run_plan.specs.Plans.{IsPlan};
ghost use Rattle.service.specs.PreparedRun.{IsPreparedRun};
ghost use Rattle.service_wiring.specs.Weighing.{IsPlanOrder};
ghost use Rattle.run_driver.specs.Running.{HasRun, numbered_link};
ghost use Rattle.run_driver.specs.Reporting.{ArePartsOf, AreReportable, IsReportOfRun};

use crate::ordering::weighted;
use crate::reporting::{has_failed, make_report};
use crate::return_links::return_links;
use mrpc_base::{Clock, Fabric, Gate, PlainOrder, ReadyOrder};
use mrpc_table::{Bytes, Memory};
use run_plan::Plan;
use run_report::RunText;
use service::{PreparedRun, ServeFault, Served, prepare, serve};
use std::alloc::Global;
use std::sync::Wait;
use std::thread::Threads;
use telemetry::Totals;

/// The result of a run of a plan.
#[derive(Drop)]
pub struct RunReport {
    /// The text of the report, in parts, in order.
    pub parts: Vec<Bytes>,
    /// For each method, the numbers of calls that were accepted, sent, refused and left pending.
    pub totals: Totals,
    /// Whether a link failed.
    pub failed: bool,
}

/// The result of a run of a plan that was only counted.
#[derive(Drop)]
pub struct RunCounts {
    /// For each method, the numbers of calls that were accepted, sent, refused and left pending.
    pub totals: Totals,
    /// Whether a link failed.
    pub failed: bool,
}

/// Runs a plan over links of a fabric, and gives them back. Blocks until all connections are finished. `Fabric` if
/// the fabric failed to open a link, and `Memory` if any thread ran out of memory; links that were opened are then
/// dropped. Everything else that the connections own is left to the end of the process.
pub fn serve_plan<R: Threads + Wait + Sync, F: Fabric, C: Clock, G: Gate>(
    rt: &R,
    alloc: Global,
    plan: &Plan,
    fabric: &mut F,
    clock: &C,
    gate: &G,
) -> Result<RunReport, ServeFault>
    requires { IsPlan plan.now }
    ensures ran { IfOk result (λ ran. HasRun C.Clock F.L.Link F.pair plan.now clock.now (F.back fabric.old)
        (F.back fabric.new) (concat ran.parts.items) ran.totals ran.failed) }
    ensures away { IfOk result (λ ran. F.away fabric.new ≡ F.away fabric.old) }
    ensures cause { HasCause (IsErrOf result ServeFault.Fabric) (F.failures fabric.old) (F.failures fabric.new) }
{
    serve_or_count(rt, alloc, plan, fabric, clock, gate, true)
}

/// Like [`serve_plan`], but makes only the counts of the report, not its text.
pub fn count_plan<R: Threads + Wait + Sync, F: Fabric, C: Clock, G: Gate>(
    rt: &R,
    alloc: Global,
    plan: &Plan,
    fabric: &mut F,
    clock: &C,
    gate: &G,
) -> Result<RunCounts, ServeFault>
    requires { IsPlan plan.now }
    ensures ran { IfOk result (λ counted. (text : List ℕ) × HasRun C.Clock F.L.Link F.pair plan.now clock.now
        (F.back fabric.old) (F.back fabric.new) text counted.totals counted.failed) }
    ensures away { IfOk result (λ counted. F.away fabric.new ≡ F.away fabric.old) }
    ensures cause { HasCause (IsErrOf result ServeFault.Fabric) (F.failures fabric.old) (F.failures fabric.new) }
{
    let RunReport {
        parts: _parts,
        totals,
        failed,
    } = serve_or_count(rt, alloc, plan, fabric, clock, gate, false)?;
    Ok(RunCounts { totals, failed })
}

// Runs a plan, and makes its report, or the counts alone.
fn serve_or_count<R: Threads + Wait + Sync, F: Fabric, C: Clock, G: Gate>(
    rt: &R,
    alloc: Global,
    plan: &Plan,
    fabric: &mut F,
    clock: &C,
    gate: &G,
    with_text: bool,
) -> Result<RunReport, ServeFault>
    requires { IsPlan plan.now }
    ensures ran { IfOk result (λ ran. (text : List ℕ) × ArePartsOf with_text text ran.parts.items
        × HasRun C.Clock F.L.Link F.pair plan.now clock.now (F.back fabric.old) (F.back fabric.new) text ran.totals
        ran.failed) }
    ensures away { IfOk result (λ ran. F.away fabric.new ≡ F.away fabric.old) }
    ensures cause { HasCause (IsErrOf result ServeFault.Fabric) (F.failures fabric.old) (F.failures fabric.new) }
{
    let prepared = prepare(alloc, plan)?;
    if !plan.weighted {
        return run_in_order(
            rt,
            alloc,
            plan,
            &prepared,
            fabric,
            clock,
            gate,
            &PlainOrder,
            with_text,
        );
    }
    let order = weighted(alloc, plan)?;
    run_in_order(
        rt, alloc, plan, &prepared, fabric, clock, gate, &order, with_text,
    )
}

// Runs a prepared plan, in which connections get rounds in this order.
fn run_in_order<R: Threads + Wait + Sync, F: Fabric, C: Clock, G: Gate, O: ReadyOrder>(
    rt: &R,
    alloc: Global,
    plan: &Plan,
    prepared: &PreparedRun,
    fabric: &mut F,
    clock: &C,
    gate: &G,
    order: &O,
    with_text: bool,
) -> Result<RunReport, ServeFault>
    requires plan { IsPlan plan.now }
    requires prepared { IsPreparedRun plan.now prepared.now }
    requires order { IsPlanOrder plan.now (O.grant_of order.now) }
    ensures ran { IfOk result (λ ran. (text : List ℕ) × ArePartsOf with_text text ran.parts.items
        × HasRun C.Clock F.L.Link F.pair plan.now clock.now (F.back fabric.old) (F.back fabric.new) text ran.totals
        ran.failed) }
    ensures away { IfOk result (λ ran. F.away fabric.new ≡ F.away fabric.old) }
    ensures cause { HasCause (IsErrOf result ServeFault.Fabric) (F.failures fabric.old) (F.failures fabric.new) }
{
    let served = serve(rt, alloc, plan, prepared, fabric, clock, gate, order)?;
    Ok(conclude(rt, alloc, plan, fabric, served, with_text)?)
}

// Makes the report of a finished run, or the counts alone, and gives its links back.
fn conclude<R: Threads + Sync, F: Fabric>(
    rt: &R,
    alloc: Global,
    plan: &Plan,
    fabric: &mut F,
    served: Served<'_, F::L>,
    with_text: bool,
) -> Result<RunReport, Memory>
    requires plan { IsPlan plan.now }
    requires told { AreReportable F.L.Link plan.now served.conns.items }
    requires away { length served.conns.items ≤ F.away fabric.old }
    ensures told { IfOk result (λ ran. (text : List ℕ) × ArePartsOf with_text text ran.parts.items
        × IsReportOfRun F.L.Link plan.now served.entry.conns.items text ran.totals ran.failed) }
    ensures back { OnOk result (IsPermutation (F.back fabric.new)
        (map numbered_link served.entry.conns.items ++ F.back fabric.old)) }
    ensures away { OnOk result (F.away fabric.new + length served.entry.conns.items ≡ F.away fabric.old) }
    ensures failures { F.failures fabric.new ≡ F.failures fabric.old }
{
    let failed = has_failed(served.conns.as_slice());
    let RunText { parts, totals } = make_report(
        rt,
        alloc,
        plan,
        served.conns.as_slice(),
        with_text,
    )?;
    return_links(fabric, served.conns);
    Ok(RunReport {
        parts,
        totals,
        failed,
    })
}
