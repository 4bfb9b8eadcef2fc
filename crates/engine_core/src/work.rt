//! The turns of an engine, by kind of policy.

ghost use Rattle.std.specs.Prelude.{◌≡◌, ◌≢◌, ◌<◌, ◌≤◌, ℕ, MatchOption, false, length};
ghost use Rattle.std.specs.Bool.{OnTrue, OnFalse};
ghost use Rattle.mrpc_table.specs.Calls.{IsCallOf};
ghost use Rattle.policy_rate.specs.Level.{IsRate};
ghost use Rattle.policy_redact.specs.Redacting.{IsCallOfSomeTable};
ghost use Rattle.engine_core.specs.Answers.{drawn, nothing};
ghost use Rattle.engine_core.specs.Marks.{is_allowed_by, note_of, other_marks, past_by, past_of};
ghost use Rattle.engine_core.specs.EngineSteps.{IsEngineStep};
ghost use Rattle.engine_core.specs.declared.outcome.Noted.TheVariants.{Nothing};
ghost use Rattle.engine_core.specs.declared.outcome.Outcome.TheVariants.{Passed};
ghost use Rattle.engine_core.specs.Turns.{noted_in, is_draw, IsRecordedDraw, IsElsewhere};

use crate::mark::MarkNote;
use crate::outcome::{Noted, Outcome, Why};
use crate::policy::Policy;
use crate::standing::Standing;
use mrpc_base::{Tickets, WINDOWS};
use mrpc_table::Table;
use policy_access::Access;
use policy_rate::{Bucket, Rate, Step};
use policy_redact::Redact;

// An access engine judges a call that this version of its policy hasn't allowed yet.
pub(crate) fn judge(
    access: &Access,
    attach: u32,
    version: u32,
    call: &mut Standing,
    table: &Table,
) -> Outcome
    requires call { IsCallOf table.now call.old.call }
    requires room { length (other_marks attach call.old.marks) ≤ 7 }
    ensures { (level moment : ℕ)
        → IsEngineStep (Policy.Access access.now) attach version level moment call.old call.new level result }
{
    if allows(call.note_of(attach), version) {
        return Outcome::Passed(Noted::Nothing);
    }
    let verdict = access.judge(call.call(), table);
    if !verdict.allow {
        return Outcome::Refused(Noted::Nothing, Why::Denied { rule: verdict.rule });
    }
    call.mark(attach, MarkNote::Allowed { version });
    Outcome::Passed(Noted::Nothing)
}

// Marks a call if the policy allows it, and returns whether it does. `note` is the content of the engine's mark so
// far, if there is one; it must not be that this version allowed the call.
pub(crate) fn allow(
    access: &Access,
    attach: u32,
    version: u32,
    note: Option<MarkNote>,
    call: &mut Standing,
    table: &Table,
) -> bool
    requires call { IsCallOf table.now call.old.call }
    requires room { length (other_marks attach call.old.marks) ≤ 7 }
    requires note { note ≡ note_of call.old.marks attach }
    requires unmarked { is_allowed_by version note ≡ false }
    ensures allows { OnTrue result ((level moment : ℕ)
        → IsEngineStep (Policy.Access access.now) attach version level moment call.old call.new level (Passed Nothing)) }
    ensures as_before { OnFalse result (call.new ≡ call.old) }
{
    if !access.judge(call.call(), table).allow {
        return false;
    }
    call.mark(attach, MarkNote::Allowed { version });
    true
}

// A rate engine charges a call once.
pub(crate) fn charge(rate: &Rate, bucket: &mut Bucket, attach: u32, call: &mut Standing) -> Outcome
    requires rate { IsRate rate.now }
    requires room { length (other_marks attach call.old.marks) ≤ 7 }
    ensures step { (version moment : ℕ)
        → IsEngineStep (Policy.Rate rate.now) attach version bucket.old.level moment
        call.old call.new bucket.new.level result }
    ensures last { bucket.new.last ≡ bucket.old.last }
{
    if is_noted(call, attach) {
        return Outcome::Passed(Noted::Nothing);
    }
    match bucket.step(rate) {
        Step::Pass { level } => {
            call.mark(attach, MarkNote::Charged);
            Outcome::Passed(Noted::Charged { level })
        }
        Step::Short { level, cost } if rate.hold => Outcome::Held { level, cost },
        Step::Short { level, cost } => Outcome::Refused(Noted::Nothing, Why::Short { level, cost }),
    }
}

// A quota draws a ticket for a call once, and compares it with its cap each time.
pub(crate) fn draw<Q: Tickets>(
    tenant: u32,
    per: u64,
    cap: u64,
    attach: u32,
    call: &mut Standing,
    now: u64,
    tickets: &mut Q,
) -> Outcome
    requires per { 1 ≤ per }
    requires room { length (other_marks attach call.old.marks) ≤ 7 }
    requires known { Q.knows tickets.old tenant }
    ensures step { (version level : ℕ)
        → IsEngineStep (Policy.Quota tenant per cap) attach version level now call.old call.new level result }
    ensures drawn { IsRecordedDraw (Q.drawn tickets.old) (Q.drawn tickets.new)
        (Policy.Quota tenant per cap) (noted_in result) }
    ensures elsewhere { (t w : ℕ) → Q.knows tickets.old t → w < WINDOWS
        → IsElsewhere (Policy.Quota tenant per cap) (noted_in result) t w
        → Q.drawn tickets.new t w ≡ Q.drawn tickets.old t w }
    ensures knows { (t : ℕ) → Q.knows tickets.old t → Q.knows tickets.new t }
    ensures untouched { is_draw (noted_in result) ≡ false → tickets.new ≡ tickets.old }
    ensures since { (first : Q) → Q.since first tickets.old → Q.since first tickets.new }
{
    if let Some(ticket) = ticket_of(call, attach) {
        return compared(Noted::Nothing, ticket, cap);
    }
    let window = (now / per).min(WINDOWS - 1);
    let ticket = tickets.draw(tenant, window);
    call.mark(attach, MarkNote::Drawn { ticket });
    compared(Noted::Drawn { window, ticket }, ticket, cap)
}

// Only a ticket below the cap passes.
fn compared(noted: Noted, ticket: u64, cap: u64) -> Outcome
    ensures within { ticket < cap → result ≡ Outcome.Passed noted }
    ensures over { cap ≤ ticket → result ≡ Outcome.Refused noted (Why.Over ticket cap) }
{
    if ticket < cap {
        Outcome::Passed(noted)
    } else {
        Outcome::Refused(noted, Why::Over { ticket, cap })
    }
}

// A count counts a call once.
pub(crate) fn count(attach: u32, call: &mut Standing) -> Outcome
    requires { length (other_marks attach call.old.marks) ≤ 7 }
    ensures { (version level moment : ℕ)
        → IsEngineStep Policy.Count attach version level moment call.old call.new level result }
{
    if is_noted(call, attach) {
        return Outcome::Passed(Noted::Nothing);
    }
    call.mark(attach, MarkNote::Counted);
    Outcome::Passed(Noted::Counted)
}

// A redacting engine clears the call's tree each time.
pub(crate) fn clear(redact: &Redact, call: &mut Standing) -> Outcome
    requires { IsCallOfSomeTable call.old.call }
    ensures { (attach version level moment : ℕ)
        → IsEngineStep (Policy.Redact redact.now) attach version level moment call.old call.new level result }
{
    if call.clear(redact) {
        Outcome::Redacted
    } else {
        Outcome::Passed(Noted::Nothing)
    }
}

// Whether an optional mark notes a charge, a ticket or a count.
pub(crate) fn has_note(note: Option<MarkNote>) -> bool
    ensures noted { OnTrue result (past_by note ≢ nothing) }
    ensures none { OnFalse result (past_by note ≡ nothing) }
{
    matches!(
        note,
        Some(MarkNote::Charged | MarkNote::Drawn { .. } | MarkNote::Counted)
    )
}

// Whether there is a mark that this version of an access policy allowed the call.
pub(crate) fn allows(note: Option<MarkNote>, version: u32) -> bool
    ensures { result ≡ is_allowed_by version note }
{
    match note {
        Some(MarkNote::Allowed { version: allowed }) => allowed == version,
        _ => false,
    }
}

// Whether a charge, a ticket or a count of a call was noted for an attachment.
pub(crate) fn is_noted(call: &Standing, attach: u32) -> bool
    ensures noted { OnTrue result (past_of call.now.marks attach ≢ nothing) }
    ensures none { OnFalse result (past_of call.now.marks attach ≡ nothing) }
{
    has_note(call.note_of(attach))
}

// The ticket that an attachment drew for a call, if any.
fn ticket_of(call: &Standing, attach: u32) -> Option<u64>
    ensures { MatchOption result ((t : ℕ)
        → past_of call.now.marks attach ≢ drawn t) (λ t. past_of call.now.marks attach ≡ drawn t) }
{
    match call.note_of(attach) {
        Some(MarkNote::Drawn { ticket }) => Some(ticket),
        _ => None,
    }
}
