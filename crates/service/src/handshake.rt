//! The links of a run, and their handshakes.

ghost use Rattle.std.specs.Prelude.{◌≡◌, ◌≢◌, ◌<◌, ◌≤◌, ◌+◌, ◌++◌, ◌^◌, [], ◌∷◌, Contains, IfOk, IfSome, IsErrOf, None, OnErr, OnOk, Some, false, length, true};
ghost use Rattle.mrpc_base.specs.Failures.{HasCause};
ghost use Rattle.receive_core.specs.ReceiverTraces.{empty_trace};
ghost use Rattle.message_delivery.specs.Arriving.{HaveSameIdentity, IsArrivalTrace};
ghost use Rattle.link_handshake.specs.Handshake.{HasBound};
ghost use Rattle.run_plan.specs.Plans.{IsPlan};
ghost use Rattle.run_plan.specs.Links.{all_ends, connections_of};
ghost use Rattle.service_wiring.specs.declared.wiring.TheConstants.{MAX_RECEIVE_BYTES};
ghost use Rattle.service.specs.Ends.{OpenedEnd};
ghost use Rattle.service.specs.Handshakes.{AreBothHandshakeEnds, IsHandshakeEnd, IsHelloEnd, WasLeftUnbound, AreHandshakeEnds};
ghost use Rattle.service.specs.Served.{IsNewLink};

use crate::fault::ServeFault;
use crate::pairs::push_pair;
use link_handshake::{Unbound, new_arrivals, receive_hello, send_hello};
use message_delivery::{Arrivals, StreamState};
use mrpc_base::{Fabric, Link, OpenFault};
use mrpc_table::{Memory, Name};
use receive_core::Inbound;
use run_plan::{Application, LinkPlan, Plan};
use service_wiring::MAX_RECEIVE_BYTES;
use shared_heap::Reader;
use std::alloc::Global;
use std::sync::Wait;

// An end of a link that sent its hello, or whose link failed at it.
#[derive(Drop)]
pub(crate) struct HelloEnd<'t, L> {
    pub app: &'t Application,
    pub link: L,
    pub said: bool,
}

// An end of a link after the handshake: the connection is bound, or it isn't, for a cause.
#[derive(Drop)]
pub(crate) struct HandshakeEnd<'t, L> {
    pub app: &'t Application,
    pub link: L,
    pub arrivals: Arrivals<'t>,
    pub reader: Reader,
    pub unbound: Option<Unbound>,
}

// Opens the link of each pair of a plan, and makes the handshake at both ends, pair by pair.
pub(crate) fn make_handshakes<'t, R: Wait, F: Fabric>(
    rt: &R,
    alloc: Global,
    plan: &'t Plan,
    fabric: &mut F,
) -> Result<Vec<HandshakeEnd<'t, F::L>>, ServeFault>
    requires { IsPlan plan.now }
    ensures greeted { IfOk result (λ ends.
        AreHandshakeEnds F.L.Link plan.now F.pair (all_ends plan.now.links) ends.items) }
    ensures away { IfOk result (λ ends. F.away fabric.new ≡ F.away fabric.old + length ends.items) }
    ensures back { F.back fabric.new ≡ F.back fabric.old }
    ensures cause { HasCause (IsErrOf result ServeFault.Fabric) (F.failures fabric.old) (F.failures fabric.new) }
{
    let mut ends = Vec::new(alloc);
    let links = plan.links.as_slice();
    'pairs: for pair in links {
        let (a, b) = open_pair(fabric, pair)?;
        make_handshake(rt, alloc, plan, pair, a, b, &mut ends)?;
    }
    Ok(ends)
}

// Opens the link of a pair.
fn open_pair<F: Fabric>(fabric: &mut F, pair: &LinkPlan) -> Result<(F::L, F::L), ServeFault>
    ensures pair { IfOk result (λ ends. F.pair ends.0 ends.1) }
    ensures first { IfOk result (λ ends. IsNewLink F.L.Link ends.0) }
    ensures second { IfOk result (λ ends. IsNewLink F.L.Link ends.1) }
    ensures away { IfOk result (λ ends. F.away fabric.new ≡ F.away fabric.old + 2) }
    ensures back { F.back fabric.new ≡ F.back fabric.old }
    ensures cause { HasCause (IsErrOf result ServeFault.Fabric) (F.failures fabric.old) (F.failures fabric.new) }
{
    match fabric.open_pair(pair.a, pair.b) {
        Ok(ends) => Ok(ends),
        Err(OpenFault::Failed) => Err(ServeFault::Fabric),
        Err(OpenFault::Memory) => Err(ServeFault::Memory),
    }
}

// Sends the hello at both ends of a link, then receives the other's at each.
fn make_handshake<'t, R: Wait, L: Link + Drop>(
    rt: &R,
    alloc: Global,
    plan: &'t Plan,
    pair: &LinkPlan,
    a: L,
    b: L,
    ends: &mut Vec<HandshakeEnd<'t, L>>,
) -> Result<(), Memory>
    requires plan { IsPlan plan.now }
    requires known_a { Contains (connections_of plan.now.applications) pair.now.a }
    requires known_b { Contains (connections_of plan.now.applications) pair.now.b }
    requires new_a { IsNewLink L.Link a }
    requires new_b { IsNewLink L.Link b }
    ensures { OnOk result (AreBothHandshakeEnds L.Link plan.now (record { conn = pair.now.a; link = a })
        (record { conn = pair.now.b; link = b }) ends.old.items ends.new.items) }
{
    let one = send_own_hello(alloc, plan, pair.a, a)?;
    let other = send_own_hello(alloc, plan, pair.b, b)?;
    let first = finish_handshake(rt, alloc, plan, one)?;
    let second = finish_handshake(rt, alloc, plan, other)?;
    push_pair(ends, first, second)
}

// Sends the hello of a connection. If the link fails at it, finishes the link, so that the other end no longer waits.
fn send_own_hello<'t, L: Link + Drop>(
    alloc: Global,
    plan: &'t Plan,
    conn: u32,
    mut link: L,
) -> Result<HelloEnd<'t, L>, Memory>
    requires plan { IsPlan plan.now }
    requires known { Contains (connections_of plan.now.applications) conn }
    requires is_new { IsNewLink L.Link link }
    ensures { IfOk result (λ end. IsHelloEnd L.Link plan.now (record { conn = conn; link = link }) end) }
{
    let Some(app) = plan.application(conn) else {
        unreachable!()
    };
    let table = plan.table_of(app);
    let said = send_hello(alloc, conn, table, &plan.service, &mut link)?;
    finish_if(!said, &mut link);
    Ok(HelloEnd { app, link, said })
}

// Receives the hello of the other end. If the connection isn't bound, finishes its link.
fn finish_handshake<'t, R: Wait, L: Link + Drop>(
    rt: &R,
    alloc: Global,
    plan: &'t Plan,
    end: HelloEnd<'t, L>,
) -> Result<HandshakeEnd<'t, L>, Memory>
    requires plan { IsPlan plan.now }
    requires introduced { (e : OpenedEnd L) × IsHelloEnd L.Link plan.now e end }
    ensures { (e : OpenedEnd L) → IsHelloEnd L.Link plan.now e end.entry
        → IfOk result (λ greeted. IsHandshakeEnd L.Link plan.now e greeted) }
{
    let HelloEnd {
        app,
        mut link,
        said,
    } = end;
    let (writer, reader) = shared_heap::open(alloc, app.receive)?;
    let inbound = Inbound::open(alloc, app.conn, app.receive)?;
    let table = plan.table_of(app);
    let policy = plan.inbound_of(app);
    let mut arrivals = new_arrivals(alloc, inbound, writer, table, policy);
    let mut buffer = receive_buffer(alloc)?;
    let unbound = receive_other_hello(
        rt,
        alloc,
        &plan.service,
        said,
        &mut link,
        &mut arrivals,
        buffer.as_mut_slice(),
    )?;
    finish_if(unbound.is_some(), &mut link);
    Ok(HandshakeEnd {
        app,
        link,
        arrivals,
        reader,
        unbound,
    })
}

// A buffer into which bytes are received.
fn receive_buffer(alloc: Global) -> Result<Vec<u8>, Memory>
    ensures { IfOk result (λ buffer. length buffer.items ≡ MAX_RECEIVE_BYTES) }
{
    Ok(vec![in alloc; 0; MAX_RECEIVE_BYTES]?)
}

// Receives the other's hello, if its own was sent.
fn receive_other_hello<R: Wait, L: Link>(
    rt: &R,
    alloc: Global,
    service: &Name,
    said: bool,
    link: &mut L,
    arrivals: &mut Arrivals,
    buffer: &mut [u8],
) -> Result<Option<Unbound>, Memory>
    requires lived { IsArrivalTrace empty_trace arrivals.old }
    requires open { arrivals.old.stream ≡ StreamState.Open }
    requires room { 0 < length buffer.old }
    requires most { length buffer.old ≤ 2 ^ 32 }

    ensures bound { result ≡ Ok None → HasBound service.now (L.given link.old) (L.given link.new) arrivals.new }
    ensures said { result ≡ Ok None → said ≡ true }
    ensures working { result ≡ Ok None → arrivals.new.stream ≢ StreamState.Failed }
    ensures no_fault { result ≡ Ok None → L.failures link.new ≡ L.failures link.old }
    ensures left { IfOk result (λ unbound. IfSome unbound (λ why. WasLeftUnbound service.now arrivals.new.table.now
        (L.given link.old) (L.given link.new) (L.failures link.old) (L.failures link.new) said (L.ended link.new) why)) }

    ensures same { HaveSameIdentity arrivals.old arrivals.new }
    ensures heap { arrivals.new.inbound.heap ≡ arrivals.old.inbound.heap }
    ensures handed { L.handed link.new ≡ L.handed link.old }
    ensures same_link { (first : L) → L.since first link.old → L.since first link.new }
{
    if !said {
        return Ok(Some(Unbound::Transport));
    }
    receive_hello(rt, alloc, service, link, arrivals, buffer)
}

// Finishes a link if `over` is set.
fn finish_if<L: Link>(over: bool, link: &mut L)
    ensures handed { L.handed link.new ≡ L.handed link.old }
    ensures given { L.given link.new ≡ L.given link.old }
    ensures ended { L.ended link.new ≡ L.ended link.old }
    ensures failures { L.failures link.new ≡ L.failures link.old }
    ensures same_link { (first : L) → L.since first link.old → L.since first link.new }
{
    if over {
        link.finish();
    }
}
