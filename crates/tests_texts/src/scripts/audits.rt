//! The text of a history, read and written again.

ghost use Rattle.std.specs.Prelude.{All};
ghost use Rattle.mrpc_table.specs.Valid.{IsValid};
ghost use Rattle.audit_text.specs.Lines.{IsEventOfTable};

use crate::discard;
use crate::tables::texts::table;
use audit_text::{AuditFault, append_audit_line, audit_line, read_audit};
use call_history::{AcceptedCall, ConnectionEvent, Happening, TookCopy};
use mrpc_table::{FieldValue, Sequence, Table, Tree, Value};
use policy_declarations::Declarations;
use std::alloc::Global;
use std::process::Abort;

const SMALL: &[u8] = b"message M\nfield 1 plain uint64 a\nmethod 0 S Get M M\n";

const SENT: &[u8] = b"took 1 1 0 0 2 1 1 copy 089601\nsent 1 1 19\n";

fn history(rt: &impl Abort, alloc: Global, table: &Table, text: &[u8]) -> Sequence<ConnectionEvent>
    requires { IsValid table.now }
    ensures { All (λ x. IsEventOfTable table.now x.what) result }
{
    let declared = Declarations::new(alloc);
    let read = read_audit(alloc, text, table, &declared).ok();
    discard(declared);
    read.expect(rt, "a history")
}

// The number in the one field of a message, else 0.
fn number_in(tree: &Tree) -> u64 {
    match tree.fields.as_slice() {
        [(_, FieldValue::One(Value::Number(number)))] => *number,
        _ => 0,
    }
}

// The number in the copy of a call, or 0 if it has none.
fn number_of(call: &AcceptedCall) -> u64 {
    match &call.copy {
        TookCopy::Copy { tree } => number_in(tree),
        TookCopy::Malformed { .. } => 0,
    }
}

fn is_taken(rt: &impl Abort, call: &AcceptedCall) {
    assert!(rt; call.seq == 1);
    assert!(rt; call.addr == 2);
    assert!(rt; call.after == 1);
    assert!(rt; call.count == 1);
    assert!(rt; number_of(call) == 150);
}

fn took(rt: &impl Abort, happened: &ConnectionEvent) {
    assert!(rt; happened.conn == 1);
    match &happened.what {
        Happening::Took(call) => is_taken(rt, call),
        _ => panic!(rt; "no call was accepted"),
    }
}

fn sent(rt: &impl Abort, happened: &ConnectionEvent) {
    assert!(rt; happened.conn == 1);
    match &happened.what {
        Happening::Sent { seq, bytes } => {
            assert!(rt; *seq == 1);
            assert!(rt; *bytes == 19);
        }
        _ => panic!(rt; "no frame was handed over"),
    }
}

fn took_and_sent(rt: &impl Abort, history: &[ConnectionEvent]) {
    assert!(rt; history.len() == 2);
    took(rt, &history[0]);
    sent(rt, &history[1]);
}

// Two lines, of which one is appended to the other.
fn is_written(
    rt: &impl Abort,
    alloc: Global,
    history: &[ConnectionEvent],
    table: &Table,
    text: &[u8],
)
    requires valid { IsValid table.now }
    requires fit { All (λ x. IsEventOfTable table.now x.what) history.now }
{
    assert!(rt; history.len() == 2);
    let mut out = audit_line(alloc, &history[0], table).expect(rt, "memory");
    append_audit_line(alloc, &mut out, &history[1], table).expect(rt, "memory");
    assert!(rt; out.as_slice() == text);
}

#[test]
fn a_history_is_read_and_written(rt: HostRuntime) {
    let table = table(&rt, rt.alloc(), SMALL);
    let history = history(&rt, rt.alloc(), &table, SENT);
    took_and_sent(&rt, history.as_slice());
    is_written(&rt, rt.alloc(), history.as_slice(), &table, SENT);
    discard(history);
    discard(table);
}

fn fault_of(alloc: Global, table: &Table, text: &[u8]) -> Option<AuditFault>
    requires { IsValid table.now }
{
    let declared = Declarations::new(alloc);
    let fault = read_audit(alloc, text, table, &declared).err();
    discard(declared);
    fault
}

#[test]
fn the_first_invalid_line_is_reported(rt: HostRuntime) {
    let table = table(&rt, rt.alloc(), SMALL);
    let fault = fault_of(rt.alloc(), &table, b"sent 1 1 19\nsent 1 1\n");
    discard(table);
    assert!(rt; matches!(fault, Some(AuditFault::Bad { line: 2 })));
}
