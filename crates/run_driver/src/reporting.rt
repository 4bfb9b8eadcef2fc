//! The report of a run's connections, and its counts.

ghost use Rattle.std.specs.Prelude.{◌≡◌, ◌++◌, ℕ, List, All, Contains, IfOk, OnOk, Some, false, option_map, option_to_list, true};
ghost use Rattle.std.specs.List.{AllZip};
ghost use Rattle.std.specs.Option.{option_copied};
ghost use Rattle.run_report.specs.Lines.{judging_of};
ghost use Rattle.run_plan.specs.Plans.{IsPlan};
ghost use Rattle.run_report.specs.Report.{IsReportable};
ghost use Rattle.run_report.specs.declared.reported_connection.ReportedConnection.{ReportedConnection as TheShown};
ghost use Rattle.service.specs.declared.served.ServedConn.{ServedConn as TheConn};
ghost use Rattle.run_driver.specs.Running.{IsReportOfConn, IsReportOfBound, conns_by_number, conn_in, judging_by, judging_on, rounds_of_visits};
ghost use Rattle.run_driver.specs.Reporting.{ArePartsOf, IsReportOfConns, CanReport, IsFailureOutcome};

use link_handshake::Unbound;
use mrpc_base::Link;
use mrpc_table::Memory;
use run_plan::{Application, MAX_CONNECTIONS, Plan};
use run_report::{Judge, ReportedConnection, Rounds, RunText, ServedReport, run_counts, run_text};
use service::{ConnectionOutcome, ServedConn};
use service_loop::VisitAccount;
use service_threads::BoundConn;
use std::alloc::Global;
use std::thread::Threads;

// The whole text, by ascending number of the connection, or its counts alone.
pub(crate) fn make_report<R: Threads + Sync, L: Link>(
    rt: &R,
    alloc: Global,
    plan: &Plan,
    conns: &[ServedConn<'_, L>],
    with_text: bool,
) -> Result<RunText, Memory>
    requires plan { IsPlan plan.now }
    requires can { All (λ s. CanReport plan.now s.conn s.outcome) conns.now }
    ensures { IfOk result (λ told. (text : List ℕ) × ArePartsOf with_text text told.parts.items
        × IsReportOfConns plan.now conns.now text told.totals) }
{
    let shown = reported_all(alloc, plan, conns)?;
    if with_text {
        return run_text(rt, alloc, shown.as_slice());
    }
    let totals = run_counts(rt, alloc, shown.as_slice())?;
    Ok(RunText {
        parts: Vec::new(alloc),
        totals,
    })
}

// All connections, as the report has them.
fn reported_all<'a, 't, L: Link>(
    alloc: Global,
    plan: &'a Plan,
    conns: &'a [ServedConn<'t, L>],
) -> Result<Vec<ReportedConnection<'a, 't>>, Memory>
    requires plan { IsPlan plan.now }
    requires can { All (λ s. CanReport plan.now s.conn s.outcome) conns.now }
    ensures shows { IfOk result (λ shown. AllZip (IsReportOfConn plan.now) (conns_by_number conns.now) shown.items) }
    ensures tellable { IfOk result (λ shown. All IsReportable shown.items) }
{
    let mut shown = Vec::new(alloc);
    for before in 0..MAX_CONNECTIONS {
        push_reported(&mut shown, plan, conn_of(conns, before + 1))?;
    }
    Ok(shown)
}

// The connection with a number; `None` if there is none.
fn conn_of<'a, 't, L: Link>(
    conns: &'a [ServedConn<'t, L>],
    number: u32,
) -> Option<&'a ServedConn<'t, L>>
    ensures { option_copied result ≡ conn_in conns.now number }
{
    conns.iter().find(|conn| conn.conn == number)
}

// Appends a connection, as the report has it, if there is one.
fn push_reported<'a, 't, L: Link>(
    shown: &mut Vec<ReportedConnection<'a, 't>>,
    plan: &'a Plan,
    conn: Option<&'a ServedConn<'t, L>>,
) -> Result<(), Memory>
    requires plan { IsPlan plan.now }
    requires can { (s : TheConn L) → option_copied conn ≡ Some s → CanReport plan.now s.conn s.outcome }
    ensures { OnOk result ((more : List TheShown) × (shown.new.items ≡ shown.old.items ++ more)
        × AllZip (IsReportOfConn plan.now) (option_to_list (option_copied conn.entry)) more × All IsReportable more) }
{
    match conn {
        Some(conn) => Ok(shown.push(reported_of(plan, conn))?),
        None => Ok(()),
    }
}

// A connection, as the report has it.
fn reported_of<'a, 't, L: Link>(
    plan: &'a Plan,
    served: &'a ServedConn<'t, L>,
) -> ReportedConnection<'a, 't>
    requires plan { IsPlan plan.now }
    requires can { CanReport plan.now served.now.conn served.now.outcome }
    ensures shows { IsReportOfConn plan.now served.now result }
    ensures tellable { IsReportable result }
{
    match &served.outcome {
        ConnectionOutcome::Unbound(why) => ReportedConnection::Unbound {
            conn: served.conn,
            why,
        },
        ConnectionOutcome::Bound(bound) => ReportedConnection::Served(served_report(
            plan,
            served.conn,
            bound,
        )),
    }
}

// A bound connection, as the report has it.
fn served_report<'a, 't>(
    plan: &'a Plan,
    conn: u32,
    bound: &'a BoundConn<'t>,
) -> ServedReport<'a, 't>
    ensures { IsReportOfBound plan.now conn bound.now result }
{
    bound.submissions.conn.is_connection();
    ServedReport {
        calls: &bound.submissions.conn,
        arrivals: &bound.arrivals,
        judge: judge_on(plan, conn),
        not_held: bound.reclaims.not_held.as_slice(),
        rounds: rounds_of(bound.share),
    }
}

// The account of a connection's visits, if its rounds go by weight.
fn rounds_of(share: Option<VisitAccount>) -> Option<Rounds>
    ensures { result ≡ option_map rounds_of_visits share }
{
    match share {
        Some(own) => Some(Rounds {
            weight: own.weight,
            account: own.account,
        }),
        None => None,
    }
}

// The policy that judges deliveries to the application on a connection, under its name.
fn judge_on<'a>(plan: &'a Plan, conn: u32) -> Option<Judge<'a>>
    ensures { judging_of result ≡ judging_on plan.now conn }
{
    judge_of(plan, plan.application(conn)?)
}

fn judge_of<'a>(plan: &'a Plan, app: &'a Application) -> Option<Judge<'a>>
    ensures { judging_of result ≡ judging_by plan.now app.now }
{
    let name = plan.label(app.inbound?)?;
    let policy = plan.inbound_of(app)?;
    Some(Judge { name, policy })
}

// Whether a link of a run failed.
pub(crate) fn has_failed<L: Link>(conns: &[ServedConn<'_, L>]) -> bool
    ensures one { result ≡ true → (s : TheConn L) × Contains conns.now s × IsFailureOutcome s.outcome }
    ensures none { result ≡ false → All (λ s. IsFailureOutcome s.outcome → ⊥) conns.now }
{
    for conn in conns {
        if link_failed(&conn.outcome) {
            return true;
        }
    }
    false
}

// Whether the link of a connection failed.
fn link_failed(outcome: &ConnectionOutcome<'_>) -> bool
    ensures yes { result ≡ true → IsFailureOutcome outcome.now }
    ensures no { result ≡ false → IsFailureOutcome outcome.now → ⊥ }
{
    match outcome {
        ConnectionOutcome::Unbound(why) => is_transport(why),
        ConnectionOutcome::Bound(bound) => bound.submissions.conn.ended(),
    }
}

fn is_transport(why: &Unbound) -> bool
    ensures yes { result ≡ true → why.now ≡ Unbound.Transport }
    ensures no { result ≡ false → why.now ≡ Unbound.Transport → ⊥ }
{
    match why {
        Unbound::Transport => true,
        _ => false,
    }
}
