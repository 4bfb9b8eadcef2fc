//! Classifies events and outcomes of turns.

ghost use Rattle.std.specs.Bool.{OnFalse, OnTrue};
ghost use Rattle.std.specs.Prelude.{◌≡◌, ◌↔◌, ◌+◌, ◌≤◌, ℕ, IsTrue, length};
ghost use Rattle.mrpc_table.specs.Calls.{IsCallOf};
ghost use Rattle.mrpc_table.specs.Valid.{IsValid};
ghost use Rattle.policy_access.specs.Verdict.{AccessPolicy};
ghost use Rattle.engine_core.specs.Turns.{noted_in};
ghost use Rattle.call_history.specs.Rules.{IsValidCopy, cap_of, payload};
ghost use Rattle.call_history.specs.declared.happening.Cause.TheVariants as cause;
ghost use Rattle.call_history.specs.declared.happening.Happening.TheVariants.{Refused};
ghost use Rattle.audit_rules.specs.CheckerState.{IsCopyBy};
ghost use Rattle.audit_rules.specs.EventKinds.{IsRuleNamed, is_quiet, malformed_in, transport_in};

use call_history::{AcceptedCall, Cause, Happening, TookCopy};
use engine_core::{Engine, Noted, Outcome, Policy, Why};
use frame_transport::HEADER_LEN;
use graph_form::Reason;
use mrpc_table::{Call, Name, Table};
use wire_encode::encoded_len;

// ---- events

// The number of the call that is refused as malformed; `None` for other events.
pub(crate) fn malformed_in(what: &Happening) -> Option<u32>
    ensures { result ≡ malformed_in what.now }
{
    match what {
        Happening::Refused {
            seq,
            cause: Cause::Malformed,
        } => Some(*seq),
        _ => None,
    }
}

// The number of the call that is refused for the link; `None` for other events.
pub(crate) fn transport_in(what: &Happening) -> Option<u32>
    ensures { result ≡ transport_in what.now }
{
    match what {
        Happening::Refused {
            seq,
            cause: Cause::Transport,
        } => Some(*seq),
        _ => None,
    }
}

// Returns true for an operation or a timestamp.
pub(crate) fn is_quiet(what: &Happening) -> bool
    ensures { result ≡ is_quiet what.now }
{
    matches!(what, Happening::Op(_) | Happening::Moment { .. })
}

// Returns true if the call is malformed for a missing method exactly if the table lacks its method.
pub(crate) fn is_copy_by(table: &Table, call: &AcceptedCall) -> bool
    requires { IsCopyBy table.now call.now call.now.copy }
    ensures { IsTrue result ↔ IsValidCopy table.now call.now call.now.copy }
{
    match &call.copy {
        TookCopy::Copy { .. } => true,
        TookCopy::Malformed { reason, .. } => {
            (*reason == Reason::NoMethod) == (table.methods.len() <= call.method as usize)
        }
    }
}

// Returns true if the event refuses this call for this ticket.
pub(crate) fn is_refusal_over_cap(
    what: &Happening,
    seq: u32,
    name: &Name,
    ticket: u64,
    cap: u64,
) -> bool
    ensures { IsTrue result ↔ (what.now ≡ Refused seq (cause.Quota name.now ticket cap)) }
{
    match what {
        Happening::Refused {
            seq: refused,
            cause: Cause::Quota {
                name: by,
                ticket: drawn,
                cap: below,
            },
        } => {
            *refused == seq && by.as_slice() == name.as_slice() && *drawn == ticket && *below == cap
        }
        _ => false,
    }
}

// ---- turns

// The note of a turn.
pub(crate) fn noted_in(outcome: Outcome) -> Noted
    ensures { result ≡ noted_in outcome }
{
    match outcome {
        Outcome::Passed(noted) | Outcome::Refused(noted, _) => noted,
        Outcome::Held { .. } | Outcome::Redacted => Noted::Nothing,
    }
}

// The cap of a quota; `None` for other policies.
pub(crate) fn cap_of(policy: &Policy) -> Option<u64>
    ensures { result ≡ cap_of policy.now }
{
    match policy {
        Policy::Quota { cap, .. } => Some(*cap),
        Policy::Access(_) | Policy::Rate(_) | Policy::Count | Policy::Redact(_) => None,
    }
}

// Returns true if this is the size of the frame of a call in its form.
pub(crate) fn is_frame_of(table: &Table, call: &Call, bytes: u64) -> bool
    requires valid { IsValid table.now }
    requires of_table { IsCallOf table.now call.now }
    ensures { IsTrue result ↔ (bytes ≡ HEADER_LEN + length (payload table.now call.now)) }
{
    let message = table.message_at(call.method, call.number);
    bytes >= HEADER_LEN as u64
        && bytes - HEADER_LEN as u64 == encoded_len(&call.tree, table, message)
}

// Returns true if an entry denies a call by the rule of a name.
pub(crate) fn is_named_rule(engine: &Engine, outcome: Outcome, name: &Name) -> bool
    requires { (p : AccessPolicy) (rule : ℕ) → engine.now.entry.policy ≡ Policy.Access p
        → outcome ≡ Outcome.Refused Noted.Nothing (Why.Denied rule) → rule ≤ length p.rules }
    ensures denies { OnTrue result (IsRuleNamed engine.now.entry.policy outcome name.now) }
    ensures denies_not { OnFalse result (IsRuleNamed engine.now.entry.policy outcome name.now → ⊥) }
{
    match (engine.policy(), outcome) {
        (Policy::Access(access), Outcome::Refused(Noted::Nothing, Why::Denied { rule })) => {
            access.rule_name(rule).as_slice() == name.as_slice()
        }
        _ => false,
    }
}
