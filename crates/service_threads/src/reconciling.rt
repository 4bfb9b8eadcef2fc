//! Reconciles what the threads left of one connection.

ghost use Rattle.std.specs.Prelude.{◌≡◌, ℕ, List, None, Some, IfOk, IsTrue, true, false};
ghost use Rattle.std.specs.List.{AllZip};
ghost use Rattle.app_stub.specs.declared.port.AppSent.{AppSent as TheSent};
ghost use Rattle.message_delivery.specs.Noticing.{IsReclaiming, notices_of, number_ring_of, sent_numbers, ring_of};
ghost use Rattle.link_queue.specs.Writers.{end_backward, end_forward, inner_start_of};
ghost use Rattle.service_loop.specs.Serving.{IsServed};
ghost use Rattle.service_threads.specs.Closings.{AreLeft, IsLeft, Opening};
ghost use Rattle.service_threads.specs.Parts.{IsFailedIf, AreReconciled, HasPassed, KnowsAll, AreReconcilable};
ghost use Rattle.service_threads.specs.Served.{HasServed};

use crate::served::BoundConn;
use app_stub::{AppEnd, AppSent};
use descriptor_ring::{NumberReceiver, NumbersSent, Receiver, Sent};
use link_queue::{ClosedQueueLink, QueueLink, WriterEnd};
use message_delivery::{Notices, Reclaims};
use mrpc_base::{Clock, Link, Tickets};
use mrpc_table::Memory;
use service_loop::{Deliveries, Submissions, VisitAccount};
use service_wiring::ClosedConnection;
use shared_heap::{Note, calls_are_fresh};
use std::alloc::Global;
use std::sync::Wait;
use tenant_quota::Seats;

/// One connection after its parts were reconciled: the connection, its seats, and its link.
#[derive(Drop)]
pub struct ReconciledConnection<'t, L> {
    pub bound: BoundConn<'t>,
    pub seats: Seats,
    pub link: L,
}

/// Reconciles what was left of each connection, in their order. `Memory` also if one of their threads ran out of
/// memory.
pub fn reconcile_each<'t, R: Wait + 't, C: Clock, L: Link + Drop>(
    rt: &R,
    alloc: Global,
    clock: &C,
    closed: Vec<ClosedConnection<'t>>,
    ends: Vec<AppEnd>,
    writers: Vec<WriterEnd<L>>,
) -> Result<Vec<ReconciledConnection<'t, L>>, Memory>
    requires left { (openings : List (Opening C L))
        × AreLeft C.Clock ⟦<Seats as Tickets>⟧ ⟦<QueueLink<'t, R> as Link>⟧ openings closed.items ends.items
        writers.items }
    ensures served { (openings : List (Opening C L))
        → AreLeft C.Clock ⟦<Seats as Tickets>⟧ ⟦<QueueLink<'t, R> as Link>⟧ openings closed.entry.items ends.items
        writers.items
        → IfOk result (λ all. AllZip (λ o met. HasServed C.Clock L.Link o met.bound met.seats met.link) openings
        all.items) }
{
    let mut all = Vec::with_capacity(alloc, closed.len())?;
    let mut ends = ends.into_iter();
    let mut writers = writers.into_iter();
    let mut rest = closed.into_iter();
    while let Some(one) = rest.next() {
        let end = ends.next();
        let writer = writers.next();
        let Some(end) = end else { unreachable!() };
        let Some(writer) = writer else { unreachable!() };
        let met = reconcile(rt, clock, one, end, writer)?;
        all.push(met)?;
    }
    Ok(all)
}

/// Reconciles the parts of one connection after its threads were joined. Each ring gets what its sender left, the heap
/// reader the application's last note, and the link writer what its queue left. The connection ends if only its
/// writer knew that the link failed. `Memory` if one of the threads ran out of memory.
pub fn reconcile<'t, R: Wait + 't, C: Clock, L: Link + Drop>(
    _rt: &R,
    _clock: &C,
    closed: ClosedConnection<'t>,
    end: AppEnd,
    writer: WriterEnd<L>,
) -> Result<ReconciledConnection<'t, L>, Memory>
    requires left { (o : Opening C L)
        × IsLeft C.Clock ⟦<Seats as Tickets>⟧ ⟦<QueueLink<'t, R> as Link>⟧ o closed end writer }
    ensures served { (o : Opening C L)
        → IsLeft C.Clock ⟦<Seats as Tickets>⟧ ⟦<QueueLink<'t, R> as Link>⟧ o closed.entry end writer
        → IfOk result (λ met. HasServed C.Clock L.Link o met.bound met.seats met.link) }
{
    if closed.memory || end.sent.is_none() {
        // Both have many fields, each of which would be dropped here separately.
        drop(closed);
        drop(end);
        return Err(Memory);
    }
    let ClosedConnection {
        submissions,
        deliveries,
        seats,
        passed,
        share,
        memory: _,
    } = closed;
    let met = reconcile_link(writer, passed);
    let bound = reconcile_parts(met.failed, submissions, deliveries, share, end);
    if met.memory {
        return Err(Memory);
    }
    Ok(ReconciledConnection {
        bound,
        seats,
        link: met.link,
    })
}

// An inner link whose writer was reconciled with its queue.
#[derive(Drop)]
struct ReconciledLink<L> {
    link: L,
    // Whether it failed.
    failed: bool,
    // Whether its writer ran out of memory.
    memory: bool,
}

// Reconciles the writer of a link with what is left of its queue.
fn reconcile_link<L: Link + Drop>(
    mut writer: WriterEnd<L>,
    passed: ClosedQueueLink,
) -> ReconciledLink<L>
    requires forward { passed.forward ≡ end_forward writer }
    requires backward { passed.backward ≡ end_backward writer }
    ensures { result.memory ≡ false → HasPassed L.Link (inner_start_of writer) passed result.failed result.link }
{
    writer.meet(passed);
    let failed = writer.failed();
    let memory = writer.is_out_of_memory();
    let link = writer.into_link();
    ReconciledLink {
        link,
        failed,
        memory,
    }
}

// Reconciles what is left of a connection and of its application, which both came to their ends, given whether the
// link failed.
fn reconcile_parts<'t>(
    failed: bool,
    mut submissions: Submissions<'t>,
    deliveries: Deliveries<'t>,
    share: Option<VisitAccount>,
    end: AppEnd,
) -> BoundConn<'t>
    requires sent { (sent : TheSent) × (end.sent ≡ Some sent) }
    requires met { (sent : TheSent) → end.sent ≡ Some sent → AreReconcilable submissions deliveries end sent }
    ensures { (sent : TheSent) × (end.sent ≡ Some sent)
        × AreReconciled submissions.entry deliveries.entry share end sent failed result }
{
    let AppEnd {
        mut note,
        reader,
        mut notices,
        mut blocks,
        memory: _,
        sent,
    } = end;
    let Some(sent) = sent else { unreachable!() };
    let AppSent {
        calls,
        reclaims: returned,
    } = sent;
    let Deliveries {
        arrivals,
        notices: told,
        mut reclaims,
    } = deliveries;
    fail_with(failed, &mut submissions);
    reconcile_calls(&mut submissions, &mut note, calls);
    reconcile_notices(&mut notices, &mut blocks, told);
    reconcile_reclaims(&mut reclaims, returned);
    BoundConn {
        submissions,
        arrivals,
        reclaims,
        share,
        note,
        reader,
        notices,
        blocks,
    }
}

// Ends a connection if its link failed.
fn fail_with(failed: bool, submissions: &mut Submissions)
    requires { IsServed submissions.old }
    ensures { IsFailedIf failed submissions.old submissions.new }
{
    if failed {
        submissions.fail();
    }
}

// Gives the service all stores of the application's heap, and what its sender left of the ring of calls.
fn reconcile_calls(submissions: &mut Submissions, note: &mut Note, sent: Sent)
    requires served { IsServed submissions.old }
    requires heap { note.old.heap ≡ submissions.old.reader.heap }
    requires last { note.old.last ≡ true }
    requires ring { sent.ring ≡ submissions.old.calls.ring }
    requires closed { submissions.old.calls.closed ≡ true }
    ensures knows { KnowsAll note.old sent submissions.old submissions.new }
    ensures note { note.new ≡ note.old }
{
    calls_are_fresh();
    submissions.reader.observe(note);
    submissions.calls.meet(sent);
}

// Gives an application's ends of its notice rings what their senders left.
fn reconcile_notices(notices: &mut Receiver, blocks: &mut NumberReceiver, told: Notices)
    requires none { (told.notices ≡ None) × (told.blocks ≡ None) }
    requires notices_ring { ring_of told.notices told.noticed ≡ Some notices.old.ring }
    requires blocks_ring { number_ring_of told.blocks told.numbered ≡ Some blocks.old.ring }
    requires notices_closed { IsTrue notices.old.closed }
    requires blocks_closed { IsTrue blocks.old.closed }
    ensures notices { notices.old.taken ≡ notices_of told }
    ensures blocks { blocks.old.taken ≡ sent_numbers told }
    ensures same_notices { notices.new.taken ≡ notices.old.taken }
    ensures same_blocks { blocks.new.taken ≡ blocks.old.taken }
{
    let Notices {
        noticed,
        numbered,
        ..
    } = told;
    let (Some(noticed), Some(numbered)) = (noticed, numbered) else {
        unreachable!()
    };
    notices.meet(noticed);
    blocks.meet(numbered);
}

// Gives the ring of returned blocks what its sender left.
fn reconcile_reclaims(reclaims: &mut Reclaims, returned: NumbersSent)
    requires ring { returned.ring ≡ reclaims.old.numbers.ring }
    requires closed { reclaims.old.numbers.closed ≡ true }
    ensures taken { reclaims.new.numbers.taken ≡ returned.items }
    ensures reclaiming { (numbers back : List ℕ) → IsReclaiming numbers back reclaims.old
        → IsReclaiming numbers back reclaims.new }
{
    reclaims.numbers.meet(returned);
}
