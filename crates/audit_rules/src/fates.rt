//! Checks the events of a call: notes, clears, sends and refusals.

ghost use Rattle.std.specs.Bool.{OnFalse, OnTrue};
ghost use Rattle.std.specs.Prelude.{◌≡◌, ◌≢◌, ◌+◌, ◌<◌, ◌≤◌, ◌∷◌, ◌⊎◌, ℕ, All};
ghost use Rattle.std.specs.Prelude.{IfNone, IfSome, None, Some};
ghost use Rattle.std.specs.Prelude.{length, map, set, slice_get, slice_index, vec_capacity};
ghost use Rattle.std.specs.VecDeque.{deque_capacity};
ghost use Rattle.mrpc_table.specs.Calls.{IsCallOf};
ghost use Rattle.mrpc_table.specs.Valid.{IsValid};
ghost use Rattle.mrpc_table.specs.declared.table.Table.{Table as TheTable};
ghost use Rattle.engine_core.specs.Answers.{note, ticket_in};
ghost use Rattle.engine_core.specs.Chains.{Entry};
ghost use Rattle.engine_core.specs.Engines.{EngineParts};
ghost use Rattle.engine_core.specs.Turns.{noted_in, refusal};
ghost use Rattle.call_history.specs.Trace.{Trace, chain, has_failed, policy_in_trace};
ghost use Rattle.call_history.specs.Transitions.{with_note};
ghost use Rattle.call_history.specs.Rules.{CanFollow};
ghost use Rattle.call_history.specs.Rules.{IsAt, IsNoteDue, IsRedactionDue, IsSentNext};
ghost use Rattle.call_history.specs.Rules.{IsAnswered, IsDenied, IsPendingAnswer, cap_of};
ghost use Rattle.call_history.specs.declared.happening.Cause.{Cause as TheCause};
ghost use Rattle.call_history.specs.declared.happening.Cause.TheVariants as cause;
ghost use Rattle.call_history.specs.declared.happening.Happening.{Happening as TheHappening};
ghost use Rattle.call_history.specs.declared.happening.Happening.TheVariants.{Drawn};
ghost use Rattle.call_history.specs.declared.happening.Happening.TheVariants.{Redacted, Refused, Sent};
ghost use Rattle.engine_core.specs.Marks.{seqs_of};
ghost use Rattle.audit_rules.specs.Asking.{IsEntryOutcome};
ghost use Rattle.audit_rules.specs.CheckerState.{HasRoom, HasNoMalformed, IsUnblockedCause, IsKnowing};
ghost use Rattle.audit_rules.specs.CheckerState.{IsCheckerAfter, IsObligationAfter, checker_context};
ghost use Rattle.audit_rules.specs.EventKinds.{IsNoLinkCause};
ghost use Rattle.audit_rules.specs.declared.obligation.Obligation.TheVariants.{Nothing};

use crate::ask::{EntryOutcome, ask, reaches};
use crate::checker::Checker;
use crate::event_kinds::{cap_of, is_frame_of, is_named_rule, noted_in};
use crate::obligation::Obligation;
use call_history::{
    Cause, chain_after_event, forms_after_event, pending_after_event, ties_after_event,
};
use engine_core::{Noted, Outcome, Why, answer_is_unique, denied_by_a_rule};
use mrpc_table::{Name, Table};

impl Checker {
    // Finds the answer of the entry of a name to a call, if every earlier entry lets the call pass.
    fn ask(&mut self, table: &Table, seq: u32, name: &Name, ticket: u64) -> Option<EntryOutcome>
        requires knowing { IsKnowing table.now self.old }
        requires free { HasNoMalformed self.old.left }
        ensures asked { (past : Trace) → IsCheckerAfter table.now past self.old
            → IfSome result (λ a. IsEntryOutcome (checker_context table.now self.old) past self.old.attached seq
            name.now a self.old.calls
            self.new.engines.items self.new.calls self.new.reached.items) }
        ensures none { (past : Trace) → IsCheckerAfter table.now past self.old
            → IfNone result ((e : Entry) → IsAt (checker_context table.now self.old) past seq name.now e → ⊥) }
        ensures drawn { IfSome result (λ a. (window drawn : ℕ) → noted_in a.outcome ≡ Noted.Drawn window drawn
            → drawn ≡ ticket) }
        ensures numbers { seqs_of self.new.calls ≡ seqs_of self.old.calls }
        ensures entries { map (λ e. e.entry) self.new.engines.items ≡ map (λ e. e.entry) self.old.engines.items }
        ensures of_table { All (λ s. IsCallOf table.now s.call) self.new.calls }
        ensures places { length self.new.reached.items ≡ length self.old.reached.items }
        ensures latest { self.new.latest ≡ self.old.latest }
        ensures left { self.new.left ≡ self.old.left }
        ensures rest { self.new ≡ record self.old {
          engines = self.new.engines;
          calls = self.new.calls;
          reached = self.new.reached;
        } }
        ensures room { HasRoom self.new }
    {
        self.ask_named(table, seq, name.as_slice(), ticket)
    }

    // Like `ask`, by the bytes of the name.
    fn ask_named(
        &mut self,
        table: &Table,
        seq: u32,
        name: &[u8],
        ticket: u64,
    ) -> Option<EntryOutcome>
        requires knowing { IsKnowing table.now self.old }
        requires free { HasNoMalformed self.old.left }
        ensures asked { (past : Trace) → IsCheckerAfter table.now past self.old
            → IfSome result (λ a. IsEntryOutcome (checker_context table.now self.old) past self.old.attached seq
            name.now a self.old.calls
            self.new.engines.items self.new.calls self.new.reached.items) }
        ensures none { (past : Trace) → IsCheckerAfter table.now past self.old
            → IfNone result ((e : Entry) → IsAt (checker_context table.now self.old) past seq name.now e → ⊥) }
        ensures drawn { IfSome result (λ a. (window drawn : ℕ) → noted_in a.outcome ≡ Noted.Drawn window drawn
            → drawn ≡ ticket) }
        ensures numbers { seqs_of self.new.calls ≡ seqs_of self.old.calls }
        ensures entries { map (λ e. e.entry) self.new.engines.items ≡ map (λ e. e.entry) self.old.engines.items }
        ensures of_table { All (λ s. IsCallOf table.now s.call) self.new.calls }
        ensures places { length self.new.reached.items ≡ length self.old.reached.items }
        ensures latest { self.new.latest ≡ self.old.latest }
        ensures left { self.new.left ≡ self.old.left }
        ensures rest { self.new ≡ record self.old {
          engines = self.new.engines;
          calls = self.new.calls;
          reached = self.new.reached;
        } }
        ensures room { HasRoom self.new }
    {
        ask(
            &mut self.calls,
            &mut self.reached,
            &mut self.engines,
            seq,
            name,
            table,
            self.moment,
            ticket,
        )
    }

    // Checks a note on a call other than a ticket.
    pub(crate) fn note(&mut self, table: &Table, seq: u32, name: &[u8], noted: Noted) -> bool
        requires knowing { IsKnowing table.now self.old }
        requires free { HasNoMalformed self.old.left }
        requires noted { noted ≢ Noted.Nothing }
        requires no_ticket { ticket_in (note noted) ≡ None }
        ensures due { (past : Trace) → IsCheckerAfter table.now past self.old
            → OnTrue result (IsNoteDue (checker_context table.now self.old) past seq name.now noted) }
        ensures not_due { (past : Trace) → IsCheckerAfter table.now past self.old
            → OnFalse result (IsNoteDue (checker_context table.now self.old) past seq name.now noted → ⊥) }
        ensures knows { (past : Trace) (what : TheHappening) → IsCheckerAfter table.now past self.old
            → with_note name.now seq noted past ≡ what ∷ past → CanFollow (checker_context table.now self.old) past what
            → OnTrue result (IsCheckerAfter table.now (what ∷ past) self.new) }
        ensures same { (T : TheTable) → checker_context T self.new ≡ checker_context T self.old }
    {
        answer_is_unique();
        chain_after_event();
        let Some(asked) = self.ask_named(table, seq, name, 0) else {
            return false;
        };
        if noted_in(asked.outcome) != noted {
            return false;
        }
        if !self.is_next(&asked, seq) {
            return false;
        }
        self.reached[asked.place] = asked.at + 1;
        true
    }

    // Returns true if the entry has noted nothing of a later call. If so, it records this call as the latest.
    fn is_next(&mut self, asked: &EntryOutcome, seq: u32) -> bool
        requires { asked.now.at < length self.old.latest.items }
        ensures next { OnTrue result (slice_index self.old.latest.items asked.now.at < seq) }
        ensures not_next { OnFalse result (seq ≤ slice_index self.old.latest.items asked.now.at) }
        ensures latest { OnTrue result (self.new.latest.items ≡ set self.old.latest.items asked.now.at seq) }
        ensures rest { self.new ≡ record self.old { latest = self.new.latest } }
        ensures capacity { vec_capacity self.new.latest ≡ vec_capacity self.old.latest }
    {
        if seq <= self.latest[asked.at] {
            return false;
        }
        self.latest[asked.at] = seq;
        true
    }

    // Checks a ticket of a quota.
    pub(crate) fn draw(
        &mut self,
        table: &Table,
        seq: u32,
        name: &[u8],
        window: u64,
        ticket: u64,
    ) -> bool
        requires knowing { IsKnowing table.now self.old }
        requires free { HasNoMalformed self.old.left }
        ensures due { (past : Trace) → IsCheckerAfter table.now past self.old
            → OnTrue result (IsNoteDue (checker_context table.now self.old) past seq name.now
            (Noted.Drawn window ticket)) }
        ensures not_due { (past : Trace) → IsCheckerAfter table.now past self.old
            → OnFalse result (IsNoteDue (checker_context table.now self.old) past seq name.now
            (Noted.Drawn window ticket) → ⊥) }
        ensures knows { (past : Trace) → IsCheckerAfter table.now past self.old
            → CanFollow (checker_context table.now self.old) past (Drawn seq name.now window ticket)
            → OnTrue result (IsCheckerAfter table.now (Drawn seq name.now window ticket ∷ past) self.new) }
        ensures same { (T : TheTable) → checker_context T self.new ≡ checker_context T self.old }
    {
        answer_is_unique();
        chain_after_event();
        let Some(asked) = self.ask_named(table, seq, name, ticket) else {
            return false;
        };
        if noted_in(asked.outcome) != (Noted::Drawn { window, ticket }) {
            return false;
        }
        if !self.is_next(&asked, seq) {
            return false;
        }
        self.record_ticket(&asked, seq, ticket);
        true
    }

    // Records a drawn ticket: the call passes the entry if the ticket is below the cap, and awaits its refusal
    // otherwise.
    fn record_ticket(&mut self, asked: &EntryOutcome, seq: u32, ticket: u64)
        requires engine { asked.now.at < length self.old.engines.items }
        requires few { length self.old.engines.items ≤ 8 }
        requires place { asked.now.place < length self.old.reached.items }
        ensures rest { self.new ≡ record self.old { left = self.new.left; reached = self.new.reached } }
        ensures free { HasNoMalformed self.old.left → HasNoMalformed self.new.left }
        ensures left { (past : Trace) (window : ℕ) → self.old.left ≡ Nothing
            → IfSome (slice_get self.old.engines.items asked.now.at) (λ e. policy_in_trace e.entry.name past
            ≡ Some e.entry.policy
            → slice_get (chain past).entries asked.now.at ≡ Some e.entry
            → IsObligationAfter (Drawn seq e.entry.name window ticket ∷ past) self.new.left) }
        ensures capacity { deque_capacity self.new.reached ≡ deque_capacity self.old.reached }
        ensures reached { (self.new.reached.items ≡ self.old.reached.items)
            ⊎ ((self.new.reached.items ≡ set self.old.reached.items asked.now.place (asked.now.at + 1))
            × ((e : EngineParts) (cap : ℕ) → slice_get self.old.engines.items asked.now.at ≡ Some e
            → cap_of e.entry.policy ≡ Some cap → ticket < cap)) }
    {
        if self.awaits_refusal(asked.at, seq, ticket) {
            return;
        }
        self.reached[asked.place] = asked.at + 1;
    }

    // Returns true if the ticket of a call isn't below the cap. The call then awaits its refusal.
    fn awaits_refusal(&mut self, at: usize, seq: u32, ticket: u64) -> bool
        requires { at < length self.old.engines.items }
        ensures rest { self.new ≡ record self.old { left = self.new.left } }
        ensures free { HasNoMalformed self.old.left → HasNoMalformed self.new.left }
        ensures left { (past : Trace) (window : ℕ) → self.old.left ≡ Nothing
            → IfSome (slice_get self.old.engines.items at) (λ e. policy_in_trace e.entry.name past ≡ Some e.entry.policy
            → slice_get (chain past).entries at ≡ Some e.entry
            → IsObligationAfter (Drawn seq e.entry.name window ticket ∷ past) self.new.left) }
        ensures below { OnFalse result ((e : EngineParts) (cap : ℕ) → slice_get self.old.engines.items at ≡ Some e
            → cap_of e.entry.policy ≡ Some cap → ticket < cap) }
    {
        let Some(cap) = cap_of(self.engines[at].policy()) else {
            return false;
        };
        if ticket < cap {
            return false;
        }
        self.left = Obligation::RefuseOverCap {
            seq,
            at,
            ticket,
            cap,
        };
        true
    }

    // Checks that fields are cleared from a call. (It is rare, and kept out of line, so that its values don't slow the
    // other checks.)
    #[inline(never)]
    pub(crate) fn clear(&mut self, table: &Table, seq: u32, name: &Name, version: u32) -> bool
        requires knowing { IsKnowing table.now self.old }
        requires free { HasNoMalformed self.old.left }
        ensures due { (past : Trace) → IsCheckerAfter table.now past self.old
            → OnTrue result (IsRedactionDue (checker_context table.now self.old) past seq name.now version) }
        ensures not_due { (past : Trace) → IsCheckerAfter table.now past self.old
            → OnFalse result (IsRedactionDue (checker_context table.now self.old) past seq name.now version → ⊥) }
        ensures knows { (past : Trace) → IsCheckerAfter table.now past self.old
            → CanFollow (checker_context table.now self.old) past (Redacted seq name.now version)
            → OnTrue result (IsCheckerAfter table.now (Redacted seq name.now version ∷ past) self.new) }
        ensures same { (T : TheTable) → checker_context T self.new ≡ checker_context T self.old }
    {
        answer_is_unique();
        chain_after_event();
        forms_after_event();
        let Some(asked) = self.ask(table, seq, name, 0) else {
            return false;
        };
        if asked.outcome != Outcome::Redacted {
            return false;
        }
        if self.engines[asked.at].version() != version {
            return false;
        }
        self.reached[asked.place] = 0;
        true
    }

    // Checks the send of the first call.
    pub(crate) fn send(&mut self, table: &Table, seq: u32, bytes: u64) -> bool
        requires valid { IsValid table.now }
        requires knowing { IsKnowing table.now self.old }
        requires free { HasNoMalformed self.old.left }
        ensures sends { (past : Trace) → IsCheckerAfter table.now past self.old
            → OnTrue result (IsSentNext (checker_context table.now self.old) past seq bytes) }
        ensures sends_not { (past : Trace) → IsCheckerAfter table.now past self.old
            → OnFalse result (IsSentNext (checker_context table.now self.old) past seq bytes → ⊥) }
        ensures knows { (past : Trace) → IsCheckerAfter table.now past self.old
            → CanFollow (checker_context table.now self.old) past (Sent seq bytes)
            → OnTrue result (IsCheckerAfter table.now (Sent seq bytes ∷ past) self.new) }
        ensures same { (T : TheTable) → checker_context T self.new ≡ checker_context T self.old }
    {
        chain_after_event();
        ties_after_event();
        if self.first_pending() != Some(seq) {
            return false;
        }
        let from = self.reached[0];
        let at = self.engines.len();
        if !reaches(
            &mut self.calls,
            0,
            &mut self.engines,
            from,
            at,
            table,
            self.moment,
        ) {
            return false;
        }
        if !is_frame_of(table, self.calls.at(0).call(), bytes) {
            return false;
        }
        self.remove_call(0);
        true
    }

    // Checks the refusal of a call. (Rare, like `clear`.)
    #[inline(never)]
    pub(crate) fn refuse(&mut self, table: &Table, seq: u32, cause: Cause) -> bool
        requires knowing { IsKnowing table.now self.old }
        requires free { IsUnblockedCause cause self.old.left }
        ensures answered { (past : Trace) → IsCheckerAfter table.now past self.old
            → OnTrue result (IsAnswered (checker_context table.now self.old) past seq cause) }
        ensures not_answered { (past : Trace) → IsCheckerAfter table.now past self.old
            → OnFalse result (IsAnswered (checker_context table.now self.old) past seq cause → ⊥) }
        ensures knows { (past : Trace) → IsCheckerAfter table.now past self.old
            → CanFollow (checker_context table.now self.old) past (Refused seq cause)
            → OnTrue result (IsCheckerAfter table.now (Refused seq cause ∷ past) self.new) }
        ensures same { (T : TheTable) → checker_context T self.new ≡ checker_context T self.old }
    {
        match cause {
            Cause::Malformed => {
                self.remove_malformed();
                true
            }
            Cause::Access {
                name,
                version,
                rule,
            } => self.deny(table, seq, &name, version, &rule),
            Cause::Rate { name, level, cost } => {
                self.answers(table, seq, &name, Why::Short { level, cost })
            }
            Cause::Quota { name, ticket, cap } => {
                self.answers(table, seq, &name, Why::Over { ticket, cap })
            }
            Cause::Transport => {
                self.refuse_for_link();
                true
            }
        }
    }

    // The malformed call that awaited its refusal is refused.
    fn remove_malformed(&mut self)
        ensures knows { (T : TheTable) (past : Trace) (seq : ℕ) → IsCheckerAfter T past self.old
            → CanFollow (checker_context T self.old) past (Refused seq cause.Malformed)
            → IsCheckerAfter T (Refused seq cause.Malformed ∷ past) self.new }
        ensures same { (T : TheTable) → checker_context T self.new ≡ checker_context T self.old }
    {
        ties_after_event();
        pending_after_event();
        self.left = Obligation::Nothing;
    }

    // The link has failed, and the first pending call is refused for it.
    fn refuse_for_link(&mut self)
        requires places { length self.old.reached.items ≡ length self.old.calls }
        ensures knows { (T : TheTable) (past : Trace) (seq : ℕ) → IsCheckerAfter T past self.old
            → HasNoMalformed self.old.left
            → CanFollow (checker_context T self.old) past (Refused seq cause.Transport)
            → IsCheckerAfter T (Refused seq cause.Transport ∷ past) self.new }
        ensures same { (T : TheTable) → checker_context T self.new ≡ checker_context T self.old }
    {
        if self.calls.is_empty() {
            return;
        }
        self.remove_call(0);
        self.failed = true;
    }

    // Returns true if a refusal is the answer of the entry of a name.
    fn answers(&mut self, table: &Table, seq: u32, name: &Name, why: Why) -> bool
        requires knowing { IsKnowing table.now self.old }
        requires free { HasNoMalformed self.old.left }
        ensures answered { (past : Trace) → IsCheckerAfter table.now past self.old
            → OnTrue result (IsPendingAnswer (checker_context table.now self.old) past seq name.now (refusal why)) }
        ensures not_answered { (past : Trace) → IsCheckerAfter table.now past self.old
            → OnFalse result (IsPendingAnswer (checker_context table.now self.old) past seq name.now (refusal why)
            → ⊥) }
        ensures knows { (past : Trace) (cause : TheCause) → IsCheckerAfter table.now past self.old → IsNoLinkCause cause
            → CanFollow (checker_context table.now self.old) past (Refused seq cause)
            → OnTrue result (IsCheckerAfter table.now (Refused seq cause ∷ past) self.new) }
        ensures same { (T : TheTable) → checker_context T self.new ≡ checker_context T self.old }
    {
        answer_is_unique();
        chain_after_event();
        let Some(asked) = self.ask(table, seq, name, 0) else {
            return false;
        };
        if asked.outcome != Outcome::Refused(Noted::Nothing, why) {
            return false;
        }
        self.remove_call(asked.place);
        true
    }

    // Returns true if the entry of a name denies a call by the rule of a name.
    fn deny(&mut self, table: &Table, seq: u32, name: &Name, version: u32, rule: &Name) -> bool
        requires knowing { IsKnowing table.now self.old }
        requires free { HasNoMalformed self.old.left }
        ensures denied { (past : Trace) → IsCheckerAfter table.now past self.old
            → OnTrue result (IsDenied (checker_context table.now self.old) past seq name.now version rule.now) }
        ensures not_denied { (past : Trace) → IsCheckerAfter table.now past self.old
            → OnFalse result (IsDenied (checker_context table.now self.old) past seq name.now version rule.now → ⊥) }
        ensures knows { (past : Trace) (cause : TheCause) → IsCheckerAfter table.now past self.old → IsNoLinkCause cause
            → CanFollow (checker_context table.now self.old) past (Refused seq cause)
            → OnTrue result (IsCheckerAfter table.now (Refused seq cause ∷ past) self.new) }
        ensures same { (T : TheTable) → checker_context T self.new ≡ checker_context T self.old }
    {
        answer_is_unique();
        chain_after_event();
        denied_by_a_rule();
        let Some(asked) = self.ask(table, seq, name, 0) else {
            return false;
        };
        let engine = &self.engines[asked.at];
        if engine.version() != version {
            return false;
        }
        if !is_named_rule(engine, asked.outcome, rule) {
            return false;
        }
        self.remove_call(asked.place);
        true
    }

    // Removes the call at an index.
    fn remove_call(&mut self, place: usize)
        requires call { place < length self.old.calls }
        requires place { place < length self.old.reached.items }
        ensures sent { (T : TheTable) (past : Trace) (seq bytes : ℕ) → IsCheckerAfter T past self.old
            → HasNoMalformed self.old.left
            → slice_get (seqs_of self.old.calls) place ≡ Some seq
            → CanFollow (checker_context T self.old) past (Sent seq bytes)
            → IsCheckerAfter T (Sent seq bytes ∷ past) self.new }
        ensures refused { (T : TheTable) (past : Trace) (seq : ℕ) (why : TheCause) → IsCheckerAfter T past self.old
            → HasNoMalformed self.old.left → slice_get (seqs_of self.old.calls) place ≡ Some seq
            → CanFollow (checker_context T self.old) past (Refused seq why) → IsCheckerAfter T (Refused seq why ∷ past)
            (record self.new { failed = has_failed (Refused seq why ∷ past) }) }
        ensures failed { self.new.failed ≡ self.old.failed }
        ensures same { (T : TheTable) → checker_context T self.new ≡ checker_context T self.old }
    {
        ties_after_event();
        pending_after_event();
        self.calls.drop_at(place);
        let _ = self.reached.remove(place);
        self.left = Obligation::Nothing;
    }
}
