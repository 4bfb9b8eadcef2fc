//! Records of a history in a form that tests compare.

ghost use Rattle.std.specs.Prelude.{◌<◌, length};

use call_history::{History, HistoryRecord, RecordedCause};
use engine_core::Op;

// A record: the number of a call, the index of the operation that put the policy into its engine, and then
// what was noted.
#[derive(Clone, Copy, PartialEq, Eq)]
pub(crate) enum Observed {
    // A call was accepted.
    Took(u32),
    // A submission was rejected.
    Away,
    // A policy was attached.
    Attached,
    // A policy was detached.
    Detached,
    // A policy was upgraded.
    Upgraded,
    // The clock has a timestamp.
    Moment(u64),
    // A call was charged; the level after it.
    Charged(u32, usize, u64),
    // A ticket was drawn for a call in a window; the window, and the ticket.
    Drawn(u32, usize, u64, u64),
    // A call was counted.
    Counted(u32, usize),
    // Fields were cleared from a call by this version of a policy.
    Redacted(u32, usize, u32),
    // A call was sent in a frame of this many bytes.
    Sent(u32, u64),
    // A call was denied in a version of a policy, by the rule with this index.
    Denied(u32, usize, u32, u32),
    // A call was refused, because its ticket isn't below the cap.
    Over(u32, usize, u64, u64),
    // A call was refused, because its graph is malformed, its level was below its cost, or the link failed.
    Refused(u32),
}

// The record of an operation.
fn observed_op(step: &Op) -> Observed {
    match step {
        Op::Attach { .. } => Observed::Attached,
        Op::Detach { .. } => Observed::Detached,
        Op::Upgrade { .. } => Observed::Upgraded,
    }
}

// The record of a call's refusal.
fn observed_refusal(seq: u32, by: RecordedCause) -> Observed {
    match by {
        RecordedCause::Access {
            step,
            version,
            rule,
        } => Observed::Denied(seq, step, version, rule),
        RecordedCause::Quota { step, ticket, cap } => Observed::Over(seq, step, ticket, cap),
        RecordedCause::Malformed | RecordedCause::Rate { .. } | RecordedCause::Transport =>
            Observed::Refused(seq),
    }
}

// The record at an index.
pub(crate) fn observed_at(history: &History, place: usize) -> Observed
    requires { place < length history.now.happenings }
{
    match history.at(place) {
        HistoryRecord::Took(call) => Observed::Took(call.seq),
        HistoryRecord::Away { .. } => Observed::Away,
        HistoryRecord::Op { step } => observed_op(history.step(*step)),
        HistoryRecord::Moment { ms } => Observed::Moment(*ms),
        HistoryRecord::Charged { seq, step, level } => Observed::Charged(*seq, *step, *level),
        HistoryRecord::Drawn {
            seq,
            step,
            window,
            ticket,
        } => Observed::Drawn(*seq, *step, *window, *ticket),
        HistoryRecord::Counted { seq, step } => Observed::Counted(*seq, *step),
        HistoryRecord::Redacted { seq, step, version } => Observed::Redacted(*seq, *step, *version),
        HistoryRecord::Sent { seq, bytes } => Observed::Sent(*seq, *bytes),
        HistoryRecord::Refused { seq, by } => observed_refusal(*seq, *by),
    }
}
