//! The records of turns.

ghost use Rattle.std.specs.Prelude.{◌≡◌, ◌<◌, ◌≤◌, ◌+◌, ◌++◌, ℕ, List, length};
ghost use Rattle.engine_core.specs.Chains.{Entry};
ghost use Rattle.engine_core.specs.declared.op.Op.{Op};
ghost use Rattle.chain_upgrade.specs.Chains.{OnTurn};
ghost use Rattle.call_history.specs.Transitions.{cause_of};
ghost use Rattle.call_history.specs.Records.{HasValidReferences, cause_of_record, name_in_op, op_at};
ghost use Rattle.call_history.specs.declared.record.HistoryRecord.TheVariants.{Refused};
ghost use Rattle.conn_core.specs.Invariant.{HasOpRule, HasSetPolicy, IsRefusedByOpRule, records_in, records_of, failure_events, note_events, turn_events};

use call_history::{History, HistoryRecord, RecordedCause};
use chain_upgrade::Turned;
use engine_core::{CallRow, Noted, Why};

// Records the outcome of a turn of an engine with this version; `step` is the index of the operation that set
// its policy.
pub(crate) fn record_turn(history: &mut History, step: usize, version: u32, turned: Turned)
    requires step { step < length history.old.steps }
    requires room { OnTurn turned (λ seq outcome. records_in outcome ≤ history.old.room) }
    requires rule { OnTurn turned (λ seq outcome. IsRefusedByOpRule (op_at history.old.steps step) outcome) }
    ensures steps { history.new.steps ≡ history.old.steps }
    ensures idle { turned ≡ Turned.Idle → history.new ≡ history.old }
    ensures told { OnTurn turned (λ seq outcome. (e : Entry) → HasSetPolicy (op_at history.old.steps step) e
        → e.version ≡ version → history.new.happenings ≡ history.old.happenings ++ turn_events e seq outcome) }
    ensures room { OnTurn turned (λ seq outcome. history.old.room ≤ history.new.room + records_in outcome) }
{
    match turned {
        Turned::Idle | Turned::Held { .. } => {}
        Turned::Moved { seq, noted } => record_note(history, step, seq, noted),
        Turned::Refused { seq, noted, why } => {
            record_note(history, step, seq, noted);
            let by = refusal(step, version, why);
            history.push(HistoryRecord::Refused { seq, by });
        }
        Turned::Redacted { seq } => history.push(HistoryRecord::Redacted { seq, step, version }),
    }
}

// Records a note of a call by an engine; `step` is the index of the operation that set its policy.
fn record_note(history: &mut History, step: usize, seq: u32, noted: Noted)
    requires step { step < length history.old.steps }
    requires room { records_of noted ≤ history.old.room }
    ensures steps { history.new.steps ≡ history.old.steps }
    ensures told { history.new.happenings
        ≡ history.old.happenings ++ note_events (name_in_op (op_at history.old.steps step)) seq noted }
    ensures room { history.old.room ≤ history.new.room + records_of noted }
{
    match noted {
        Noted::Nothing => {}
        Noted::Charged { level } => history.push(HistoryRecord::Charged { seq, step, level }),
        Noted::Drawn { window, ticket } => history.push(HistoryRecord::Drawn {
            seq,
            step,
            window,
            ticket,
        }),
        Noted::Counted => history.push(HistoryRecord::Counted { seq, step }),
    }
}

// A refusal by an engine, as it is stored.
fn refusal(step: usize, version: u32, why: Why) -> RecordedCause
    ensures cause { (steps : List Op) (e : Entry) → HasSetPolicy (op_at steps step) e → e.version ≡ version
        → cause_of_record steps result ≡ cause_of e why }
    ensures named { (steps : List Op) (seq : ℕ) → step < length steps → HasOpRule (op_at steps step) why
        → HasValidReferences steps (Refused seq result) }
{
    match why {
        Why::Denied { rule } => RecordedCause::Access {
            step,
            version,
            rule,
        },
        Why::Short { level, cost } => RecordedCause::Rate { step, level, cost },
        Why::Over { ticket, cap } => RecordedCause::Quota { step, ticket, cap },
    }
}

// Records that a failed link refuses these calls.
pub(crate) fn refuse_all(history: &mut History, calls: &CallRow)
    requires room { length calls.now ≤ history.old.room }
    ensures steps { history.new.steps ≡ history.old.steps }
    ensures told { history.new.happenings ≡ history.old.happenings ++ failure_events calls.now }
    ensures room { history.old.room ≤ history.new.room + length calls.now }
{
    for place in 0..calls.len() {
        let seq = calls.at(place).call().seq;
        history.push(HistoryRecord::Refused {
            seq,
            by: RecordedCause::Transport,
        });
    }
}
