//! The lines for arrivals.

ghost use Rattle.std.specs.Prelude.{◌≡◌, ◌<◌, ◌++◌, IfOk, OnOk, Option, length};
ghost use Rattle.mrpc_table.specs.Lines.{after_spaces};
ghost use Rattle.mrpc_table.specs.Normal.{IsNormal};
ghost use Rattle.mrpc_table.specs.Text.{line};
ghost use Rattle.mrpc_table.specs.Valid.{IsValid};
ghost use Rattle.wire_base.specs.Encoding.{encoding};
ghost use Rattle.run_report.specs.Lines.{IsWritableArrival, IsWritableDropCause, arrival_words, call_words, drop_cause_words, judging_of, message_of_arrival};

use audit_text::append_hex_word;
use frame_transport::REPLY;
use message_delivery::ArrivalLine;
use mrpc_table::{Bytes, Memory, Name, Table, Tree};
use policy_access::Access;
use receive_core::DropCause;
use std::alloc::Global;
use wire_encode::encode;

/// The policy that judges deliveries on a connection, with the name under which it is declared.
#[derive(Clone, Copy)]
pub struct Judge<'a> {
    pub name: &'a Name,
    pub policy: &'a Access,
}

/// Appends the line for an arrival on a connection: `arrived CONN KIND METHOD NUMBER HEX`, or `dropped CONN KIND
/// METHOD NUMBER REASON`. The only error is `Memory`.
pub fn append_arrival(
    alloc: Global,
    out: &mut Bytes,
    conn: u32,
    table: &Table,
    judge: Option<Judge>,
    arrival: &ArrivalLine,
) -> Result<(), Memory>
    requires valid { IsValid table.now }
    requires fits { IsWritableArrival table.now (judging_of judge) arrival.now }
    ensures { OnOk result (out.new
        ≡ out.old ++ line (arrival_words table.now (judging_of judge.entry) conn arrival.now)) }
{
    match arrival {
        ArrivalLine::Arrived {
            kind,
            method,
            number,
            tree,
        } => {
            let encoding = encoded(alloc, table, *kind, *method, tree)?;
            append_call(out, b"arrived", conn, *kind, *method, *number)?;
            append_hex_word(out, encoding.as_slice())?;
        }
        ArrivalLine::Dropped {
            kind,
            method,
            number,
            why,
        } => {
            append_call(out, b"dropped", conn, *kind, *method, *number)?;
            append_cause(out, judge, *why)?;
        }
    }
    out.push(b'\n')
}

// The encoding of a message that arrived.
fn encoded(
    alloc: Global,
    table: &Table,
    kind: u8,
    method: u16,
    tree: &Tree,
) -> Result<Bytes, Memory>
    requires valid { IsValid table.now }
    requires method { method < length table.now.methods }
    requires normal { IsNormal table.now (message_of_arrival table.now kind method) tree.now }
    ensures { IfOk result (λ bytes. bytes ≡ encoding table.now (message_of_arrival table.now kind method) tree.now) }
{
    let message = table.message_at(method, if kind == REPLY { 1 } else { 0 });
    encode(alloc, tree, table, message)
}

// Appends the prefix of a line about a frame.
fn append_call(
    out: &mut Bytes,
    word: &[u8],
    conn: u32,
    kind: u8,
    method: u16,
    number: u32,
) -> Result<(), Memory>
    ensures { OnOk result (out.new ≡ out.old ++ (word.now ++ after_spaces (call_words conn kind method number))) }
{
    let numbers = [
        u64::from(conn),
        u64::from(kind),
        u64::from(method),
        u64::from(number),
    ];
    out.append_row(word, &numbers)
}

// Appends the reason why a frame was dropped, each word after a space.
fn append_cause(out: &mut Bytes, judge: Option<Judge>, why: DropCause) -> Result<(), Memory>
    requires { IsWritableDropCause (judging_of judge) why }
    ensures { OnOk result (out.new ≡ out.old ++ after_spaces (drop_cause_words (judging_of judge.entry) why)) }
{
    match why {
        DropCause::Hello => out.append_row(b" Hello", &[]),
        DropCause::NoMethod => out.append_row(b" NoMethod", &[]),
        DropCause::Decode { reason, place } => {
            out.append_spaced(reason.word().as_bytes())?;
            out.append_word(place as u64)
        }
        DropCause::Denied { rule } => append_denial(out, judge, rule),
        DropCause::Oversize { need, words } => out.append_row(b" Oversize", &[need, words]),
    }
}

// Appends the policy and the rule that denied a call, each word after a space.
fn append_denial(out: &mut Bytes, judge: Option<Judge>, rule: u32) -> Result<(), Memory>
    requires { IsWritableDropCause (judging_of judge) (DropCause.Denied rule) }
    ensures { OnOk result (out.new
        ≡ out.old ++ after_spaces (drop_cause_words (judging_of judge.entry) (DropCause.Denied rule))) }
{
    let Some(judge) = judge else { unreachable!() };
    out.append_spaced(b"access")?;
    out.append_spaced(judge.name.as_slice())?;
    out.append_spaced(judge.policy.rule_name(rule).as_slice())
}
