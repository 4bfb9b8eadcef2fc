//! How a call is sent, and leaves its chain.

ghost use Rattle.std.specs.Prelude.{◌≡◌, ◌≢◌, ◌<◌, ◌≤◌, ◌++◌, ◌∷◌, [], None, OnOk, length};
ghost use Rattle.mrpc_base.specs.Failures.{HasCause};
ghost use Rattle.mrpc_table.specs.Calls.{IsCallOf};
ghost use Rattle.mrpc_table.specs.Valid.{IsValid};
ghost use Rattle.engine_core.specs.Moves.{first_at};
ghost use Rattle.frame_transport.specs.declared.format.TheConstants.{MAX_PAYLOAD};
ghost use Rattle.call_history.specs.Frames.{frame_of, number_in_frame};
ghost use Rattle.call_history.specs.Rules.{payload as payload_of};
ghost use Rattle.conn_core.specs.Invariant.{IsRemovedAsSent};

use call_history::{History, HistoryRecord};
use chain_upgrade::Chain;
use frame_transport::{frame_into, frame_kind_of};
use mrpc_base::{Handed, Link};
use mrpc_table::{Bytes, Call, CallKind, Memory, Table};
use wire_encode::{BackwardBuffer, encode_into};

// Encodes a call into `payload`, writes its frame into `bytes`, and sends the frame.
pub(crate) fn send_call<L: Link>(
    payload: &mut BackwardBuffer,
    bytes: &mut Bytes,
    table: &Table,
    call: &Call,
    link: &mut L,
) -> Handed
    requires valid { IsValid table.now }
    requires fits { IsCallOf table.now call.now }
    requires short { length (payload_of table.now call.now) ≤ MAX_PAYLOAD }
    ensures encoded { result ≡ Handed.Done → payload.new ≡ payload_of table.now call.now }
    ensures appended { result ≡ Handed.Done
        → L.handed link.new ≡ L.handed link.old ++ frame_of table.now call.now ∷ [] }
    ensures kept { result ≢ Handed.Done → L.handed link.new ≡ L.handed link.old }
    ensures given { L.given link.new ≡ L.given link.old }
    ensures link_ended { L.ended link.new ≡ L.ended link.old }
    ensures same_link { (first : L) → L.since first link.old → L.since first link.new }
    ensures refused { result ≡ Handed.Failed → L.refused link.old (frame_of table.now call.now) link.new }
    ensures cause { HasCause (result ≡ Handed.Failed) (L.failures link.old) (L.failures link.new) }
{
    match frame_for(payload, bytes, table, call) {
        Ok(()) => link.send(bytes.as_slice()),
        Err(_) => Handed::Memory,
    }
}

// Writes the frame of a call into `bytes`, and leaves the call's encoding in `payload`.
fn frame_for(
    payload: &mut BackwardBuffer,
    bytes: &mut Bytes,
    table: &Table,
    call: &Call,
) -> Result<(), Memory>
    requires valid { IsValid table.now }
    requires fits { IsCallOf table.now call.now }
    requires short { length (payload_of table.now call.now) ≤ MAX_PAYLOAD }
    ensures encoded { OnOk result (payload.new ≡ payload_of table.now call.now) }
    ensures frame { OnOk result (bytes.new ≡ frame_of table.now call.now) }
{
    let message = table.message_at(call.method, call.number);
    encode_into(payload, &call.tree, table, message)?;
    let kind = frame_kind_of(CallKind::of_number(call.number));
    frame_into(
        bytes,
        kind,
        call.method,
        call.conn,
        number_for(call),
        payload.as_slice(),
    )
}

// The number in a call's frame: a request's own, and for a reply that of the request it answers.
fn number_for(call: &Call) -> u32
    ensures { result ≡ number_in_frame call.now }
{
    if call.number == 0 {
        call.seq
    } else {
        call.number
    }
}

// Removes the first ready call from a chain and records that it was sent, in a frame of `bytes` bytes. Returns
// the number of the call. Never allocates.
pub(crate) fn remove_sent(chain: &mut Chain, history: &mut History, bytes: u64) -> u32
    requires ready { first_at (length chain.old.engines) chain.old.row ≢ None }
    requires room { 0 < history.old.room }
    ensures { IsRemovedAsSent result bytes chain.old chain.new history.old history.new }
{
    match chain.pop_ready() {
        Some(call) => {
            let seq = call.call().seq;
            history.push(HistoryRecord::Sent { seq, bytes });
            seq
        }
        None => unreachable!(),
    }
}
