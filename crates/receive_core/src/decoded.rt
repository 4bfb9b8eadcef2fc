//! The call of a frame, which is decoded once.

ghost use Rattle.std.specs.Prelude.{◌≡◌, ◌≤◌, IfOk};
ghost use Rattle.std.specs.Option.{option_copied};
ghost use Rattle.mrpc_table.specs.Valid.{IsValid};
ghost use Rattle.mrpc_table.specs.Calls.{IsCallOf};
ghost use Rattle.receive_core.specs.Fates.{judged_number};
ghost use Rattle.receive_core.specs.Decoding.{IsReading, IsRefusal};

use crate::arrival::DropCause;
use frame_transport::{Frame, HELLO};
use graph_place::place_words;
use mrpc_table::{Call, CallKind, Memory, Table};
use policy_access::Access;
use std::alloc::Global;
use wire_decode::{DecodeFault, decode};

// The call of a frame, and the words of the block in which its message is placed.
#[derive(Drop)]
pub(crate) struct DecodedCall {
    pub call: Call,
    // 2^64 - 1 means that many or more.
    pub words: u64,
}

// A decoded frame.
pub(crate) enum Reading {
    Call(DecodedCall),
    Dropped(DropCause),
}

// The number with which the call of a frame is judged.
fn judged_number(frame: &Frame) -> u32
    ensures { result ≡ judged_number frame.now }
{
    match frame.call_kind() {
        Some(CallKind::Reply) => frame.number.max(1),
        Some(CallKind::Request) | None => 0,
    }
}

// Decodes a frame that arrived on a connection.
pub(crate) fn read_frame(
    alloc: Global,
    conn: u32,
    frame: &Frame,
    table: &Table,
) -> Result<Reading, Memory>
    requires valid { IsValid table.now }
    ensures { IfOk result (IsReading table.now conn frame.now) }
{
    if frame.kind == HELLO {
        return Ok(Reading::Dropped(DropCause::Hello));
    }
    if frame.method as usize >= table.methods.len() {
        return Ok(Reading::Dropped(DropCause::NoMethod));
    }
    let number = judged_number(frame);
    let message = table.message_at(frame.method, number);
    match decode(alloc, frame.payload.as_slice(), table, message) {
        Ok(tree) => Ok(Reading::Call(DecodedCall {
            words: place_words(&tree, table, message).max(1),
            call: Call {
                conn,
                seq: frame.number,
                method: frame.method,
                number,
                tree,
            },
        })),
        Err(DecodeFault::At { reason, place }) => {
            Ok(Reading::Dropped(DropCause::Decode { reason, place }))
        }
        Err(DecodeFault::Memory) => Err(Memory),
    }
}

// Why the call of a frame doesn't arrive: the policy denies it, or a heap of `words` words is too small.
pub(crate) fn refusal(
    opened: &DecodedCall,
    table: &Table,
    policy: Option<&Access>,
    words: u64,
) -> Option<DropCause>
    requires call { IsCallOf table.now opened.now.call }
    requires words { 1 ≤ words }
    ensures { IsRefusal (option_copied policy.entry) words opened.now result }
{
    if let Some(policy) = policy {
        let verdict = policy.judge(&opened.call, table);
        if !verdict.allow {
            return Some(DropCause::Denied { rule: verdict.rule });
        }
    }
    if opened.words > words - 1 {
        return Some(DropCause::Oversize {
            need: opened.words,
            words,
        });
    }
    None
}
