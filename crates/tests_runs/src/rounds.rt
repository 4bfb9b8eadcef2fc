//! Rounds of one connection in a plain loop: no thread, no pool, and an application that ended before the
//! first round.
ghost use Rattle.std.specs.Prelude.{◌≡◌, [], false};
ghost use Rattle.mrpc_table.specs.Valid.{IsValid};
ghost use Rattle.descriptor_ring.specs.Rings.{IsDescriptorOf};
ghost use Rattle.message_delivery.specs.Arriving.{HasTrace};
ghost use Rattle.message_delivery.specs.declared.arrivals.StreamState.TheVariants.{Open};
ghost use Rattle.run_plan.specs.Plans.{IsPlan};
ghost use Rattle.service_loop.specs.Delivering.{AreDelivering};
ghost use Rattle.service_loop.specs.Rounds.{IsConsistent};
ghost use Rattle.service_loop.specs.Serving.{IsServed};

use crate::discard;
use crate::prepared::PreparedEnd;
use crate::runs::{ONE_CALL, plan_of};
use crate::streams::push_request;
use conn_core::Conn;
use descriptor_ring::{Descriptor, Receiver, open, open_numbers};
use link_handshake::new_arrivals;
use message_delivery::Arrivals;
use mrpc_base::{Clock, FixedClock, Link, MemLink, PlainTickets, Tickets};
use mrpc_table::{Bytes, Table};
use receive_core::Inbound;
use run_plan::Plan;
use run_report::append_stream_remainder;
use service_loop::{Deliveries, Endpoint, NoticeRings, RoundOutcome, ScheduledOp, Submissions};
use shared_heap::{Reader, Writer};
use std::alloc::Global;
use std::process::Abort;
use std::sync::Wait;

// The number of words of each heap, and of items of each ring.
const WORDS: u64 = 16;

const ITEMS: u64 = 4;

// The most bytes that are received at once: three requests, and more.
const MAX_BYTES: usize = 64;

// The most loads of a call.
const LOADS: u64 = 16;

// The most rounds.
const ROUNDS: u32 = 16;

// A call of method 0, whose message at word 2 is all zeros.
fn call(writer: &mut Writer) -> Descriptor
    ensures of_heap { IsDescriptorOf writer.old.heap result }
    ensures same { writer.new ≡ writer.old }
{
    Descriptor {
        kind: 1,
        method: 0,
        number: 0,
        addr: 2,
        stores: writer.stores(),
        note: writer.note(),
    }
}

// The heap and the ring of an application that submitted two calls, and ended.
fn two_calls<R: Abort + Wait>(rt: &R, alloc: Global) -> (Reader, Receiver)
    ensures words { result.0.heap.words ≡ WORDS }
    ensures loads { result.0.loads ≡ [] }
    ensures heap { result.1.heap ≡ result.0.heap }
    ensures taken { result.1.taken ≡ [] }
    ensures open { result.1.closed ≡ false }
{
    let (mut writer, reader) = shared_heap::open(alloc, WORDS).expect(rt, "memory");
    let (mut sender, calls) = open(alloc, ITEMS, &reader).expect(rt, "memory");
    assert!(rt; sender.send(rt, call(&mut writer)).is_ok());
    assert!(rt; sender.send(rt, call(&mut writer)).is_ok());
    assert!(rt; sender.close(rt).is_ok());
    (reader, calls)
}

// Its calls, of which none was taken.
fn submissions<'t, R: Abort + Wait>(
    rt: &R,
    alloc: Global,
    table: &'t Table,
    steps: &'t [ScheduledOp],
) -> Submissions<'t>
    requires valid { IsValid table.now }
    requires no_steps { steps.now ≡ [] }
    ensures served { IsServed result }
    ensures nothing { result.conn.happenings ≡ [] }
    ensures not_ended { result.conn.ended ≡ false }
    ensures no_steps { result.steps.now ≡ [] }
{
    let (reader, calls) = two_calls(rt, alloc);
    let conn = Conn::open(alloc, 1, table, LOADS).expect(rt, "memory");
    Submissions::new(conn, reader, calls, steps)
}

// The deliveries to the application: nothing was received, and it returns no block.
fn deliveries<'t, R: Abort + Wait>(rt: &R, alloc: Global, table: &'t Table) -> Deliveries<'t>
    requires { IsValid table.now }
    ensures delivering { AreDelivering result }
    ensures open { result.arrivals.stream ≡ Open }
{
    let (writer, reader) = shared_heap::open(alloc, WORDS).expect(rt, "memory");
    let inbound = Inbound::open(alloc, 1, WORDS).expect(rt, "memory");
    let (notices, _noticed) = open(alloc, ITEMS, &reader).expect(rt, "memory");
    let (blocks, _numbered) = open_numbers(alloc, ITEMS).expect(rt, "memory");
    let (back, reclaims) = open_numbers(alloc, ITEMS).expect(rt, "memory");
    assert!(rt; back.close(rt).is_ok());
    let arrivals = new_arrivals(alloc, inbound, writer, table, None);
    let rings = NoticeRings {
        notices,
        blocks,
        reclaims,
    };
    Deliveries::new(alloc, arrivals, rings, 0)
}

// The connection with all its parts.
fn endpoint<'t, R: Abort + Wait, C: Clock, L: Link>(
    rt: &R,
    alloc: Global,
    table: &'t Table,
    steps: &'t [ScheduledOp],
    clock: &'t C,
    link: L,
) -> Endpoint<'t, C, PlainTickets, L>
    requires valid { IsValid table.now }
    requires no_steps { steps.now ≡ [] }
    ensures whole { IsConsistent C.Clock ⟦<PlainTickets as Tickets>⟧ L.Link result }
    ensures memory { result.memory ≡ false }
{
    let calls = submissions(rt, alloc, table, steps);
    let messages = deliveries(rt, alloc, table);
    let tickets = PlainTickets::new(alloc, 0).expect(rt, "memory");
    let buffer = vec![in alloc; 0; MAX_BYTES].expect(rt, "memory");
    Endpoint::new(calls, messages, link, tickets, clock, buffer, None)
}

// Makes rounds until the connection is finished, at most `ROUNDS`.
fn make_rounds<R: Abort + Wait, C: Clock, Q: Tickets, L: Link>(
    rt: &R,
    alloc: Global,
    endpoint: &mut Endpoint<'_, C, Q, L>,
) -> bool
    requires whole { IsConsistent C.Clock Q.Tickets L.Link endpoint.old }
    requires memory { endpoint.old.memory ≡ false }
    ensures { IsConsistent C.Clock Q.Tickets L.Link endpoint.new }
{
    'rounds: for _ in 0..ROUNDS {
        if endpoint.is_finished() {
            return true;
        }
        assert!(rt; endpoint.round(rt, alloc) != RoundOutcome::Memory);
    }
    false
}

// The results of a connection: how many frames were sent, how many received frames were handled, and the
// remains.
#[derive(Drop)]
struct RoundResults {
    handed: usize,
    told: usize,
    left: Bytes,
}

// The lines for the remains of a connection whose link failed, or didn't.
fn remains(rt: &impl Abort, alloc: Global, failed: bool, arrivals: &Arrivals<'_>) -> Bytes
    requires { HasTrace arrivals.now }
{
    let mut text = Bytes::new(alloc);
    append_stream_remainder(&mut text, 1, failed, arrivals).expect(rt, "memory");
    text
}

// The results of a connection's rounds.
fn tell<R: Abort + Wait>(
    rt: &R,
    alloc: Global,
    end: &mut Endpoint<'_, FixedClock, PlainTickets, MemLink>,
) -> RoundResults
    requires whole { IsConsistent ⟦<FixedClock as Clock>⟧ ⟦<PlainTickets as Tickets>⟧ ⟦<MemLink as Link>⟧ end.old }
    requires memory { end.old.memory ≡ false }
{
    assert!(rt; make_rounds(rt, alloc, end));
    RoundResults {
        handed: end.link.handed().len(),
        told: end.deliveries.arrivals.lines.len(),
        left: remains(
            rt,
            alloc,
            end.submissions.conn.ended(),
            &end.deliveries.arrivals,
        ),
    }
}

// Like `tell`, for a connection over this end of a link, under the table of a plan.
fn serve<R: Abort + Wait>(rt: &R, alloc: Global, plan: &Plan, link: MemLink) -> RoundResults
    requires { IsPlan plan.now }
{
    let steps = Vec::new(alloc);
    let clock = FixedClock(0);
    let mut end = endpoint(rt, alloc, &plan.table, steps.as_slice(), &clock, link);
    let served = tell(rt, alloc, &mut end);
    discard(end);
    served
}

// Like `serve`, for an end that receives three requests at once, and whose sends with these numbers fail.
fn served_with<R: Abort + Wait>(rt: &R, alloc: Global, failing: &[u64]) -> RoundResults {
    let mut bytes = Vec::new(alloc);
    for number in 1..4 {
        push_request(rt, alloc, &mut bytes, number, b"\x08\x07");
    }
    let mut end = PreparedEnd::giving(alloc, bytes);
    end.failing_sends
        .extend_from_slice(failing)
        .expect(rt, "memory");
    let plan = plan_of(rt, alloc, "", ONE_CALL);
    let served = serve(rt, alloc, &plan, end.into_link(alloc));
    discard(plan);
    served
}

#[test]
fn rounds_in_a_loop_serve_a_connection(rt: HostRuntime) {
    let served = served_with(&rt, rt.alloc(), &[]);
    assert!(rt; served.handed == 2);
    assert!(rt; served.told == 3);
    assert!(rt; served.left.is_empty());
}

const WAITING: &[u8] = b"waits 1 1 0 2\nwaits 1 1 0 3\n";

// Each round handles one frame, and the second one sends the second call.
#[test]
fn frames_wait_whose_link_fails_at_a_send(rt: HostRuntime) {
    let served = served_with(&rt, rt.alloc(), &[2]);
    assert!(rt; served.handed == 1);
    assert!(rt; served.told == 1);
    assert!(rt; served.left.as_slice() == WAITING);
}
