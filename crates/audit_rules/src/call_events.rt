//! Checks notes and sends by their parts, so that no event with an owned name is allocated.

ghost use Rattle.std.specs.Prelude.{◌≡◌, ◌∷◌, IfNone, IfSome, ℕ, not};
ghost use Rattle.mrpc_table.specs.Valid.{IsValid};
ghost use Rattle.mrpc_table.specs.declared.table.Table.{Table as TheTable};
ghost use Rattle.call_history.specs.Trace.{Trace};
ghost use Rattle.call_history.specs.Rules.{CanFollow};
ghost use Rattle.call_history.specs.declared.happening.Happening.TheVariants.{Charged, Counted, Drawn, Sent};
ghost use Rattle.audit_rules.specs.BrokenRules.{IsFirstBrokenRule};
ghost use Rattle.audit_rules.specs.CheckerState.{IsKnowing, IsCheckerAfter, checker_context};
ghost use Rattle.audit_rules.specs.EventKinds.{is_nothing, is_malformed_due};

use crate::checker::{Checker, first_broken_rule};
use crate::obligation::Obligation;
use crate::rule::Rule;
use engine_core::Noted;
use mrpc_table::Table;

impl Checker {
    /// Checks that an entry charged a call, like [`Checker::check`] on that event.
    pub fn check_charged(
        &mut self,
        table: &Table,
        seq: u32,
        name: &[u8],
        level: u64,
    ) -> Option<Rule>
        requires knowing { IsKnowing table.now self.old }
        ensures may { (past : Trace) → IsCheckerAfter table.now past self.old
            → IfNone result (CanFollow (checker_context table.now self.old) past (Charged seq name.now level)) }
        ensures knows { (past : Trace) → IsCheckerAfter table.now past self.old
            → IfNone result (IsCheckerAfter table.now (Charged seq name.now level ∷ past) self.new) }
        ensures breaks { (past : Trace) → IsCheckerAfter table.now past self.old
            → IfSome result (λ rule. IsFirstBrokenRule (checker_context table.now self.old) past
            (Charged seq name.now level) rule) }
        ensures same { (T : TheTable) → checker_context T self.new ≡ checker_context T self.old }
    {
        if self.has_malformed() {
            return Some(Rule::B);
        }
        let drawn = self.is_settled();
        let linked = self.is_linked();
        let kept = self.note(table, seq, name, Noted::Charged { level });
        first_broken_rule(Rule::D, kept, drawn, linked)
    }

    /// Like `check_charged`, for a counted call.
    pub fn check_counted(&mut self, table: &Table, seq: u32, name: &[u8]) -> Option<Rule>
        requires knowing { IsKnowing table.now self.old }
        ensures may { (past : Trace) → IsCheckerAfter table.now past self.old
            → IfNone result (CanFollow (checker_context table.now self.old) past (Counted seq name.now)) }
        ensures knows { (past : Trace) → IsCheckerAfter table.now past self.old
            → IfNone result (IsCheckerAfter table.now (Counted seq name.now ∷ past) self.new) }
        ensures breaks { (past : Trace) → IsCheckerAfter table.now past self.old
            → IfSome result (λ rule. IsFirstBrokenRule (checker_context table.now self.old) past (Counted seq name.now)
            rule) }
        ensures same { (T : TheTable) → checker_context T self.new ≡ checker_context T self.old }
    {
        if self.has_malformed() {
            return Some(Rule::B);
        }
        let drawn = self.is_settled();
        let linked = self.is_linked();
        let kept = self.note(table, seq, name, Noted::Counted);
        first_broken_rule(Rule::D, kept, drawn, linked)
    }

    /// Like `check_charged`, for a drawn ticket.
    pub fn check_drawn(
        &mut self,
        table: &Table,
        seq: u32,
        name: &[u8],
        window: u64,
        ticket: u64,
    ) -> Option<Rule>
        requires knowing { IsKnowing table.now self.old }
        ensures may { (past : Trace) → IsCheckerAfter table.now past self.old
            → IfNone result (CanFollow (checker_context table.now self.old) past (Drawn seq name.now window ticket)) }
        ensures knows { (past : Trace) → IsCheckerAfter table.now past self.old
            → IfNone result (IsCheckerAfter table.now (Drawn seq name.now window ticket ∷ past) self.new) }
        ensures breaks { (past : Trace) → IsCheckerAfter table.now past self.old
            → IfSome result (λ rule. IsFirstBrokenRule (checker_context table.now self.old) past
            (Drawn seq name.now window ticket) rule) }
        ensures same { (T : TheTable) → checker_context T self.new ≡ checker_context T self.old }
    {
        if self.has_malformed() {
            return Some(Rule::B);
        }
        let drawn = self.is_settled();
        let linked = self.is_linked();
        let kept = self.draw(table, seq, name, window, ticket);
        first_broken_rule(Rule::D, kept, drawn, linked)
    }

    /// Like `check_charged`, for a sent call.
    pub fn check_sent(&mut self, table: &Table, seq: u32, bytes: u64) -> Option<Rule>
        requires valid { IsValid table.now }
        requires knowing { IsKnowing table.now self.old }
        ensures may { (past : Trace) → IsCheckerAfter table.now past self.old
            → IfNone result (CanFollow (checker_context table.now self.old) past (Sent seq bytes)) }
        ensures knows { (past : Trace) → IsCheckerAfter table.now past self.old
            → IfNone result (IsCheckerAfter table.now (Sent seq bytes ∷ past) self.new) }
        ensures breaks { (past : Trace) → IsCheckerAfter table.now past self.old
            → IfSome result (λ rule. IsFirstBrokenRule (checker_context table.now self.old) past (Sent seq bytes) rule) }
        ensures same { (T : TheTable) → checker_context T self.new ≡ checker_context T self.old }
    {
        if self.has_malformed() {
            return Some(Rule::B);
        }
        let drawn = self.is_settled();
        let linked = self.is_linked();
        let kept = self.send(table, seq, bytes);
        first_broken_rule(Rule::E, kept, drawn, linked)
    }

    // Returns true if a malformed call awaits its refusal. Only that refusal is legal then.
    fn has_malformed(&self) -> bool
        ensures { result ≡ is_malformed_due self.now.left }
    {
        matches!(self.left, Obligation::RefuseMalformed { .. })
    }

    // Returns true if no refusal is due, except those of a failed link.
    fn is_settled(&self) -> bool
        ensures { result ≡ is_nothing self.now.left }
    {
        matches!(self.left, Obligation::Nothing)
    }

    // Returns true if the link hasn't failed.
    fn is_linked(&self) -> bool
        ensures { result ≡ not self.now.failed }
    {
        !self.failed
    }
}
