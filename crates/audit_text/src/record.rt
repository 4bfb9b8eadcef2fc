//! Lines of the records that a history keeps.

ghost use Rattle.std.specs.Prelude.{◌≡◌, ◌<◌, ◌∷◌, ◌++◌, codes, length, slice_get, OnOk, Some};
ghost use Rattle.std.specs.Fmt.{decimal};
ghost use Rattle.mrpc_table.specs.Text.{line};
ghost use Rattle.mrpc_table.specs.Valid.{IsValid};
ghost use Rattle.audit_text.specs.Lines.{audit_line, cause_words, IsEventOfTable};
ghost use Rattle.call_history.specs.Records.{cause_of_record, name_in_op, rule_name_in_op, op_at, event_of_record, HasRule, HasValidReferences, IsRuleOf};
ghost use Rattle.call_history.specs.Transitions.{rule_name_at};
ghost use Rattle.call_history.specs.declared.happening.Happening.{Happening};
ghost use Rattle.call_history.specs.declared.record.HistoryRecord.TheVariants.{Refused};

use crate::writing::{
    append_away, append_cause, append_note, append_numbers, append_prefix, append_sent,
    append_step, append_took,
};
use call_history::{History, HistoryRecord, RecordedCause};
use engine_core::{Op, Policy};
use mrpc_table::{Bytes, Memory, Table};
use wire_encode::BackwardBuffer;

/// Appends the audit line of the event at an index, from 0, of a connection's history, with its line feed. It copies no
/// names, and encodes a copy into `encoding`, whose capacity is reused. The only error is `Memory`.
pub fn append_record(
    out: &mut Bytes,
    encoding: &mut BackwardBuffer,
    conn: u32,
    history: &History,
    place: usize,
    table: &Table,
) -> Result<(), Memory>
    requires valid { IsValid table.now }
    requires there { place < length history.now.happenings }
    requires fits { (what : Happening) → slice_get history.now.happenings place ≡ Some what
        → IsEventOfTable table.now what }
    ensures { (what : Happening) → slice_get history.now.happenings place ≡ Some what
        → OnOk result (out.new ≡ out.old ++ audit_line table.now (record { conn = conn; what = what })) }
{
    append_history_record(out, encoding, conn, history, history.at(place), table)
}

// Appends the line of a record.
fn append_history_record(
    out: &mut Bytes,
    encoding: &mut BackwardBuffer,
    conn: u32,
    history: &History,
    kept: &HistoryRecord,
    table: &Table,
) -> Result<(), Memory>
    requires valid { IsValid table.now }
    requires named { HasValidReferences history.now.steps kept.now }
    requires fits { IsEventOfTable table.now (event_of_record history.now.steps kept.now) }
    ensures { OnOk result (out.new ≡ out.old
        ++ audit_line table.now (record { conn = conn; what = event_of_record history.now.steps kept.now })) }
{
    match kept {
        HistoryRecord::Took(call) => append_took(out, encoding, conn, call, table),
        HistoryRecord::Away {
            method,
            number,
            addr,
        } => append_away(out, conn, *method, *number, *addr),
        HistoryRecord::Op { step } => append_step(out, conn, history.step(*step)),
        HistoryRecord::Moment { ms } => append_numbers(out, b"moment", &[u64::from(conn), *ms]),
        HistoryRecord::Charged { seq, step, level } => {
            let name = name_at(history, *step);
            append_note(out, b"charged", conn, *seq, name, &[*level])
        }
        HistoryRecord::Drawn {
            seq,
            step,
            window,
            ticket,
        } => {
            let name = name_at(history, *step);
            append_note(out, b"drawn", conn, *seq, name, &[*window, *ticket])
        }
        HistoryRecord::Counted { seq, step } => {
            append_note(out, b"counted", conn, *seq, name_at(history, *step), &[])
        }
        HistoryRecord::Redacted { seq, step, version } => {
            let name = name_at(history, *step);
            append_note(out, b"redacted", conn, *seq, name, &[u64::from(*version)])
        }
        HistoryRecord::Sent { seq, bytes } => append_sent(out, conn, *seq, *bytes),
        HistoryRecord::Refused { seq, by } => append_recorded_refusal(
            out, conn, history, *seq, *by,
        ),
    }
}

// Appends the line of a refusal.
fn append_recorded_refusal(
    out: &mut Bytes,
    conn: u32,
    history: &History,
    seq: u32,
    by: RecordedCause,
) -> Result<(), Memory>
    requires { HasValidReferences history.now.steps (Refused seq by) }
    ensures { OnOk result (out.new ≡ out.old
        ++ line (codes "refused" ∷ decimal conn ∷ decimal seq ∷ cause_words (cause_of_record history.now.steps by))) }
{
    append_prefix(out, b"refused", &[u64::from(conn), u64::from(seq)])?;
    match by {
        RecordedCause::Malformed => out.append(b" malformed")?,
        RecordedCause::Access {
            step,
            version,
            rule,
        } => {
            append_cause(
                out,
                b" access",
                name_at(history, step),
                &[u64::from(version)],
            )?;
            out.append_spaced(rule_at(history, step, rule))?;
        }
        RecordedCause::Rate { step, level, cost } => {
            append_cause(out, b" rate", name_at(history, step), &[level, cost])?
        }
        RecordedCause::Quota { step, ticket, cap } => {
            append_cause(out, b" quota", name_at(history, step), &[ticket, cap])?
        }
        RecordedCause::Transport => out.append(b" transport")?,
    }
    out.push(b'\n')
}

// The entry's name in an operation.
fn name_at(history: &History, step: usize) -> &[u8]
    requires { step < length history.now.steps }
    ensures { result.now ≡ name_in_op (op_at history.now.steps step) }
{
    match history.step(step) {
        Op::Attach { name, .. } => name.as_slice(),
        Op::Detach { name } => name.as_slice(),
        Op::Upgrade { name, .. } => name.as_slice(),
    }
}

// The name of a rule of the policy that an operation installs.
fn rule_at(history: &History, step: usize, rule: u32) -> &[u8]
    requires there { step < length history.now.steps }
    requires rule { HasRule (op_at history.now.steps step) rule }
    ensures { result.now ≡ rule_name_in_op (op_at history.now.steps step) rule }
{
    match history.step(step) {
        Op::Attach { policy, .. } => rule_name(policy, rule),
        Op::Detach { .. } => b"",
        Op::Upgrade { policy, .. } => rule_name(policy, rule),
    }
}

// The name of a rule of an access policy.
fn rule_name(policy: &Policy, rule: u32) -> &[u8]
    requires { IsRuleOf policy.now rule }
    ensures { result.now ≡ rule_name_at policy.now rule }
{
    match policy {
        Policy::Access(access) => access.rule_name(rule).as_slice(),
        _ => b"",
    }
}
