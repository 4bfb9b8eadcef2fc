//! Laws of the counts of a run, and of those of a drill. These functions do nothing; their contracts are the laws.

ghost use Rattle.std.specs.Prelude.{◌≡◌, ◌+◌, ◌*◌, ◌≤◌, ℕ, List, [], All};
ghost use Rattle.std.specs.List.{AllZip};
ghost use Rattle.conn_core.specs.Connections.{Connection, IsConnection};
ghost use Rattle.drill.specs.Drill.{drill};
ghost use Rattle.mem_fabric.specs.Pair.{IsDeliveredInOrder, PairEnd, knowing_all_sent};
ghost use Rattle.run_plan.specs.declared.plan.Plan.{Plan};
ghost use Rattle.run_report.specs.Counting.{counted_on};
ghost use Rattle.run_report.specs.declared.reported_connection.ReportedConnection.{ReportedConnection};
ghost use Rattle.run_driver.specs.Running.{HasNeverFailed, IsReportOfConn, conns_by_number};
ghost use Rattle.service.specs.Served.{ArePairs};
ghost use Rattle.service.specs.declared.served.ServedConn.{ServedConn};
ghost use Rattle.service_loop.specs.Serving.{IsServed};
ghost use Rattle.service_loop.specs.declared.submissions.Submissions.{Submissions};
ghost use Rattle.telemetry.specs.Counts.{all_counts};
ghost use Rattle.drill.specs.Counting.{AreBalanced, report_counts};
ghost use Rattle.drill.specs.Holding.{HasNoHoldingPolicy, IsNonHoldingOp};
ghost use Rattle.drill.specs.Meeting.{HaveMet};
ghost use Rattle.drill.specs.Runs.{IsReportedBound, IsReportOfPlan};

use call_history::pending_after_event;
use frame_transport::{frame_is_unique, split_is_unique};
use mem_fabric::PairLink;
use mrpc_base::{Clock, Link};
use schema_binding::hello_is_unique;
use std::sync::Wait;

/// Each accepted call is counted exactly once more, as sent, refused or pending: on one connection, and over all
/// connections of a report.
pub fn each_call_is_counted_once<L: Link>()
    ensures connection { (c : Connection) → IsConnection c → AreBalanced (all_counts (counted_on c)) }
    ensures run { (plan : Plan) (conns : List (ServedConn L)) (told : List ReportedConnection)
        → AllZip (IsReportOfConn plan) (conns_by_number conns) told → AreBalanced (report_counts told) }
{
    pending_after_event();
}

/// If no policy ever holds a call, none is pending once no call can advance. It holds on a connection if no scheduled
/// operation names a policy that may hold one, and at the end of a run if its plan has no such policy.
pub fn none_pending_unheld<C: Clock, L: Link>()
    ensures connection { (s : Submissions) → IsConnection s.conn → IsServed s → All IsNonHoldingOp s.steps.now
        → s.conn.chain.row ≡ [] }
    ensures run { (plan : Plan) (clock : C) (conns : List (ServedConn L)) (told : List ReportedConnection)
        → HasNoHoldingPolicy plan
        → IsReportOfPlan C.Clock L.Link plan clock conns told → (report_counts told).standing ≡ 0 }
{}

/// The counts of a drill add up: no call is pending, and as many were accepted as were sent and refused. If no link
/// failed and each connection was bound, at least the calls that its four clients submit were accepted. That each was
/// bound is a premise here; it holds if the two ends of each link have met ([`drills_are_bound`]).
pub fn drills_add_up<C: Clock, L: Link>()
    ensures none_stands { (calls : ℕ) (clock : C) (conns : List (ServedConn L)) (told : List ReportedConnection)
        → IsReportOfPlan C.Clock L.Link (drill calls) clock conns told → (report_counts told).standing ≡ 0 }
    ensures all_went { (calls : ℕ) (clock : C) (conns : List (ServedConn L)) (told : List ReportedConnection)
        → IsReportOfPlan C.Clock L.Link (drill calls) clock conns told
        → (report_counts told).took ≡ (report_counts told).sent + (report_counts told).refused }
    ensures took { (calls : ℕ) (clock : C) (conns : List (ServedConn L)) (told : List ReportedConnection)
        → IsReportOfPlan C.Clock L.Link (drill calls) clock conns told → All (HasNeverFailed L.Link) conns
        → All IsReportedBound told → 4 * calls ≤ (report_counts told).took }
{
    each_call_is_counted_once::<L>();
    none_pending_unheld::<C, L>();
}

/// If no link failed, and the two ends of each have met, as those of links in memory do ([`links_in_memory_meet`]),
/// each connection of a drill was bound. So at least the calls that its four clients submit were accepted.
pub fn drills_are_bound<C: Clock, L: Link>()
    ensures bound { (calls : ℕ) (clock : C) (conns : List (ServedConn L)) (told : List ReportedConnection)
        → IsReportOfPlan C.Clock L.Link (drill calls) clock conns told → All (HasNeverFailed L.Link) conns
        → ArePairs (λ s. s.link) (HaveMet L.Link) conns → All IsReportedBound told }
    ensures took { (calls : ℕ) (clock : C) (conns : List (ServedConn L)) (told : List ReportedConnection)
        → IsReportOfPlan C.Clock L.Link (drill calls) clock conns told → All (HasNeverFailed L.Link) conns
        → ArePairs (λ s. s.link) (HaveMet L.Link) conns → 4 * calls ≤ (report_counts told).took }
{
    split_is_unique();
    frame_is_unique();
    hello_is_unique();
    drills_add_up::<C, L>();
}

/// The contract of `mem_fabric::meet` implies that the two ends of a link in memory have met. So it is for their
/// earlier states too, since meeting only adds what an end knows of frames sent.
pub fn links_in_memory_meet<'r, R: Wait + 'r>()
    ensures met { (a b : PairEnd) → IsDeliveredInOrder a b → IsDeliveredInOrder b a
        → HaveMet ⟦<PairLink<'r, R> as Link>⟧ a b }
    ensures before { (a b : PairEnd) → IsDeliveredInOrder (knowing_all_sent b a) (knowing_all_sent a b)
        → IsDeliveredInOrder (knowing_all_sent a b) (knowing_all_sent b a) → HaveMet ⟦<PairLink<'r, R> as Link>⟧ a b }
{}
