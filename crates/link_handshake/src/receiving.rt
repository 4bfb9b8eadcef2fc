//! Receiving a connection's hello.

ghost use Rattle.std.specs.Prelude.{◌≡◌, ◌≢◌, ◌<◌, ◌≤◌, ◌^◌, ℕ, List, length, Option, Some, None, IfOk, IfSome, OnOk, IsTrue, true, false};
ghost use Rattle.mrpc_base.specs.Failures.{HasCause};
ghost use Rattle.mrpc_table.specs.Valid.{IsValid};
ghost use Rattle.frame_transport.specs.Frames.{IsFrame, IsPartial};
ghost use Rattle.frame_transport.specs.declared.fault.FeedFault.{FeedFault as TheFault};
ghost use Rattle.frame_transport.specs.declared.format.Frame.{Frame as TheFrame};
ghost use Rattle.frame_transport.specs.declared.format.TheConstants.{HELLO};
ghost use Rattle.receive_core.specs.ReceiverTraces.{after_piece, after_hello, empty_trace};
ghost use Rattle.receive_core.specs.Turns.{IsFirstFrame};
ghost use Rattle.message_delivery.specs.Arriving.{HaveSameIdentity, IsArrivalTrace};
ghost use Rattle.message_delivery.specs.declared.arrivals.StreamState.{StreamState as TheStream};
ghost use Rattle.link_handshake.specs.Handshake.{HasFirstFrame, HasBound, IsLeftUnbound, IsBound, IsUnbound, IsUnboundCause};
ghost use Rattle.link_handshake.specs.Receiving.{HasReceivedSince, IsUnchangedByReceives};

use crate::unbound::Unbound;
use frame_transport::{Frame, frame_is_unique};
use message_delivery::{Arrivals, StreamState};
use mrpc_base::Link;
use mrpc_table::{Memory, Name, Table};
use receive_core::trace_of_receiver;
use schema_binding::{AgreeFault, HelloFault, agree, on_hello};
use std::alloc::Global;
use std::sync::Wait;
use std::thread;

/// Receives until the first frame is complete, and takes it if it is a hello. Returns `None` if the connection is
/// bound: the table in the hello and its own agree on the service. Waits for the other side.
///
/// The only error is `Memory`. After it, the arrivals still have the same table, policy, heap and lines; nothing
/// else is guaranteed of them.
pub fn receive_hello<R: Wait, L: Link>(
    rt: &R,
    alloc: Global,
    service: &Name,
    link: &mut L,
    arrivals: &mut Arrivals,
    buffer: &mut [u8],
) -> Result<Option<Unbound>, Memory>
    requires lived { IsArrivalTrace empty_trace arrivals.old }
    requires open { arrivals.old.stream ≡ StreamState.Open }
    requires room { 0 < length buffer.old }
    requires most { length buffer.old ≤ 2 ^ 32 }

    // The received bytes determine whether the connection is bound, and otherwise why not.
    ensures bound { result ≡ Ok None → HasBound service.now (L.given link.old) (L.given link.new) arrivals.new }
    ensures unbound { IfOk result (λ answer. IfSome answer
        (IsLeftUnbound service.now (L.given link.old) (L.given link.new) arrivals.new)) }

    // The stream becomes `Failed` exactly when the link's count of failures rises, and `Ended` only if the link
    // returned its end. A link that failed binds nothing.
    ensures working { result ≡ Ok None → arrivals.new.stream ≢ StreamState.Failed }
    ensures cause { HasCause (arrivals.new.stream ≡ StreamState.Failed) (L.failures link.old) (L.failures link.new) }
    ensures ends { arrivals.new.stream ≡ StreamState.Ended → IsTrue (L.ended link.new) }
    ensures transport { arrivals.new.stream ≡ StreamState.Failed
        → IfOk result (λ answer. answer ≡ Some Unbound.Transport) }

    ensures same { HaveSameIdentity arrivals.old arrivals.new }
    ensures writer { arrivals.new.writer ≡ arrivals.old.writer }
    ensures lines { arrivals.new.lines ≡ arrivals.old.lines }
    ensures heap { arrivals.new.inbound.heap ≡ arrivals.old.inbound.heap }

    ensures silent { L.given link.old ≡ None → L.given link.new ≡ None }
    ensures handed { L.handed link.new ≡ L.handed link.old }
    ensures same_link { (first : L) → L.since first link.old → L.since first link.new }
    ensures buffer { length buffer.new ≡ length buffer.old }
{
    receive_first(rt, link, arrivals, buffer)?;
    if arrivals.stream == StreamState::Failed {
        return Ok(Some(Unbound::Transport));
    }
    if arrivals.inbound.first().is_none() {
        return Ok(Some(without_frame(arrivals)));
    }
    take_first(alloc, service, arrivals)
}

// Receives until the first frame is complete, or nothing more is received.
fn receive_first<R: Wait, L: Link>(
    rt: &R,
    link: &mut L,
    arrivals: &mut Arrivals,
    buffer: &mut [u8],
) -> Result<(), Memory>
    requires lived { IsArrivalTrace empty_trace arrivals.old }
    requires open { arrivals.old.stream ≡ StreamState.Open }
    requires room { 0 < length buffer.old }
    requires most { length buffer.old ≤ 2 ^ 32 }
    ensures come { OnOk result (HasReceivedSince (L.given link.old) (L.given link.new) arrivals.new) }
    ensures stayed { IsUnchangedByReceives (L.given link.old) (L.given link.new) (L.failures link.old)
        (L.failures link.new)
        (L.ended link.new) arrivals.old arrivals.new }
    ensures over { OnOk result (IsPartial arrivals.new.inbound.fed.bytes → arrivals.new.stream ≢ StreamState.Open) }
    ensures handed { L.handed link.new ≡ L.handed link.old }
    ensures same_link { (first : L) → L.since first link.old → L.since first link.new }
    ensures buffer { length buffer.new ≡ length buffer.old }
{
    for _ in rt.forever() {
        if has_first(arrivals) {
            return Ok(());
        }
        arrivals.receive(link, buffer)?;
        thread::yield_now();
    }
    unreachable!()
}

// Whether the first frame is complete, or nothing more is received.
fn has_first(arrivals: &Arrivals) -> bool
    ensures has { result ≡ true → IsPartial arrivals.now.inbound.fed.bytes → arrivals.now.stream ≢ StreamState.Open }
    ensures not { result ≡ false → arrivals.now.stream ≡ StreamState.Open }
{
    if arrivals.stream != StreamState::Open {
        return true;
    }
    arrivals.inbound.first().is_some()
}

// Why a stream that ended has no first frame.
fn without_frame(arrivals: &Arrivals) -> Unbound
    requires lived { (stream : List ℕ) × (fault : Option TheFault)
        × IsArrivalTrace (after_piece empty_trace stream fault) arrivals.now }
    requires partial { IsPartial arrivals.now.inbound.fed.bytes }
    requires over { arrivals.now.stream ≢ StreamState.Open }
    requires working { arrivals.now.stream ≢ StreamState.Failed }
    ensures { (service stream : List ℕ) (fault : Option TheFault)
        → IsArrivalTrace (after_piece empty_trace stream fault) arrivals.now
        → IsUnboundCause result × IsUnbound arrivals.now.table.now service stream fault arrivals.now.stream result }
{
    trace_of_receiver();
    match arrivals.stream {
        StreamState::Ended => Unbound::Ended,
        StreamState::Cut => match arrivals.fault {
            Some(fault) => Unbound::Cut(fault),
            None => unreachable!(),
        },
        StreamState::Open | StreamState::Failed => unreachable!(),
    }
}

// Takes the first frame if it is a hello, and checks it.
fn take_first(
    alloc: Global,
    service: &Name,
    arrivals: &mut Arrivals,
) -> Result<Option<Unbound>, Memory>
    requires lived { (stream : List ℕ) × (fault : Option TheFault)
        × IsArrivalTrace (after_piece empty_trace stream fault) arrivals.old }
    requires first { (f : TheFrame) × IsFirstFrame arrivals.old.inbound.fed f }
    ensures bound { (stream : List ℕ) (fault : Option TheFault)
        → IsArrivalTrace (after_piece empty_trace stream fault) arrivals.old
        → result ≡ Ok None → (hello : TheFrame) × IsBound arrivals.new.table.now service.now stream fault hello
        × IsArrivalTrace (after_hello (after_piece empty_trace stream fault) hello) arrivals.new }
    ensures unbound { (stream : List ℕ) (fault : Option TheFault)
        → IsArrivalTrace (after_piece empty_trace stream fault) arrivals.old
        → IfOk result (λ answer. IfSome answer (λ why. IsUnboundCause why
        × IsUnbound arrivals.new.table.now service.now stream fault arrivals.new.stream why)) }
    ensures same { HaveSameIdentity arrivals.old arrivals.new }
    ensures writer { arrivals.new.writer ≡ arrivals.old.writer }
    ensures lines { arrivals.new.lines ≡ arrivals.old.lines }
    ensures heap { arrivals.new.inbound.heap ≡ arrivals.old.inbound.heap }
    ensures stream { arrivals.new.stream ≡ arrivals.old.stream }
{
    frame_is_unique();
    let Some(hello) = arrivals.inbound.take_hello() else {
        return Ok(Some(Unbound::Hello { line: 0 }));
    };
    read_hello(alloc, service, arrivals.table, &hello)
}

// Decodes a hello, and checks whether both sides agree.
fn read_hello(
    alloc: Global,
    service: &Name,
    table: &Table,
    hello: &Frame,
) -> Result<Option<Unbound>, Memory>
    requires valid { IsValid table.now }
    requires frame { IsFrame hello.now }
    requires kind { hello.now.kind ≡ HELLO }
    ensures bound { result ≡ Ok None → (stream : List ℕ) (fault : Option TheFault)
        → HasFirstFrame stream fault hello.now → IsBound table.now service.now stream fault hello.now }
    ensures unbound { IfOk result (λ answer. IfSome answer (λ why. IsUnboundCause why
        × ((stream : List ℕ) (fault : Option TheFault) (state : TheStream) → HasFirstFrame stream fault hello.now
        → IsUnbound table.now service.now stream fault state why))) }
{
    let theirs = match on_hello(alloc, hello.payload.as_slice()) {
        Ok((_service, theirs)) => theirs,
        Err(HelloFault::Bad { line }) => return Ok(Some(Unbound::Hello { line })),
        Err(HelloFault::Memory) => return Err(Memory),
    };
    match agree(alloc, table, &theirs, service, hello.version) {
        Ok(_) => Ok(None),
        Err(why) => Ok(Some(disagrees(why)?)),
    }
}

// The cause that two tables don't agree, unless out of memory.
fn disagrees(why: AgreeFault) -> Result<Unbound, Memory>
    ensures { IfOk result (λ cause. (cause ≡ Unbound.Disagrees why) × (why ≢ AgreeFault.Memory)) }
{
    match why {
        AgreeFault::Memory => Err(Memory),
        other => Ok(Unbound::Disagrees(other)),
    }
}
