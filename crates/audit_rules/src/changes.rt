//! Changes of a chain by an operator.

ghost use Rattle.std.specs.Bool.{OnFalse, OnTrue};
ghost use Rattle.std.specs.Prelude.{◌≡◌, ◌+◌, ◌∷◌, ℕ, List};
ghost use Rattle.std.specs.Prelude.{Some};
ghost use Rattle.mrpc_table.specs.declared.table.Table.{Table as TheTable};
ghost use Rattle.engine_core.specs.Policies.{IsPolicy};
ghost use Rattle.engine_core.specs.declared.op.Op.TheVariants.{Attach, Detach, Upgrade};
ghost use Rattle.call_history.specs.Trace.{Trace};
ghost use Rattle.call_history.specs.Rules.{CanFollow};
ghost use Rattle.call_history.specs.Rules.{IsChainPreserved};
ghost use Rattle.call_history.specs.declared.happening.Happening.TheVariants.{Op as Operated};
ghost use Rattle.audit_rules.specs.CheckerState.{IsKnowing};
ghost use Rattle.audit_rules.specs.CheckerState.{IsReadableOp, IsCheckerAfter, checker_context};

use crate::checker::Checker;
use crate::reached::lower;
use call_history::{chain_after_event, ties_after_event};
use engine_core::{
    Engine, MAX_ENGINES, Op, Policy, changed_is_the_change, insert_within_capacity, position_of,
};
use mrpc_table::Name;

impl Checker {
    // Applies an operation; returns false if the chain rejects it. (It is rare, and kept out of line, so that its
    // values don't slow the other checks.)
    #[inline(never)]
    pub(crate) fn operate(&mut self, step: Op) -> bool
        requires knowing { (T : TheTable) × IsKnowing T self.old }
        requires ranges { IsReadableOp step }
        ensures keeps { (T : TheTable) (past : Trace) → IsCheckerAfter T past self.old
            → OnTrue result (IsChainPreserved past (Operated step)) }
        ensures refuses { (T : TheTable) (past : Trace) → IsCheckerAfter T past self.old
            → OnFalse result (IsChainPreserved past (Operated step) → ⊥) }
        ensures knows { (T : TheTable) (past : Trace) → IsCheckerAfter T past self.old
            → CanFollow (checker_context T self.old) past (Operated step)
            → OnTrue result (IsCheckerAfter T (Operated step ∷ past) self.new) }
        ensures same { (T : TheTable) → checker_context T self.new ≡ checker_context T self.old }
    {
        match step {
            Op::Attach {
                at,
                name,
                policy,
                ..
            } => self.attach(at as usize, name, policy),
            Op::Detach { name } => self.detach(&name),
            Op::Upgrade { name, policy, .. } => self.upgrade(&name, policy),
        }
    }

    // Attaches an entry. From its position on, no entry is known to let a call pass any more.
    fn attach(&mut self, at: usize, name: Name, policy: Policy) -> bool
        requires knowing { (T : TheTable) × IsKnowing T self.old }
        requires ranges { IsPolicy policy }
        ensures keeps { (T : TheTable) (past : Trace) (label : List ℕ) → IsCheckerAfter T past self.old
            → OnTrue result (IsChainPreserved past (Operated (Attach at name label policy))) }
        ensures refuses { (T : TheTable) (past : Trace) (label : List ℕ) → IsCheckerAfter T past self.old
            → OnFalse result (IsChainPreserved past (Operated (Attach at name label policy)) → ⊥) }
        ensures knows { (T : TheTable) (past : Trace) (label : List ℕ) → IsCheckerAfter T past self.old
            → CanFollow (checker_context T self.old) past (Operated (Attach at name label policy))
            → OnTrue result (IsCheckerAfter T (Operated (Attach at name label policy) ∷ past) self.new) }
        ensures same { (T : TheTable) → checker_context T self.new ≡ checker_context T self.old }
    {
        ties_after_event();
        chain_after_event();
        changed_is_the_change();
        if position_of(&self.engines, &name).is_some() {
            return false;
        }
        if at > self.engines.len() {
            return false;
        }
        if self.engines.len() == MAX_ENGINES {
            return false;
        }
        self.attached += 1;
        let engine = Engine::new(name, self.attached, policy, self.moment);
        insert_within_capacity(&mut self.engines, at, engine);
        insert_within_capacity(&mut self.latest, at, 0);
        lower(&mut self.reached, at);
        true
    }

    // Detaches the entry of a name.
    fn detach(&mut self, name: &Name) -> bool
        requires knowing { (T : TheTable) × IsKnowing T self.old }
        ensures keeps { (T : TheTable) (past : Trace) → IsCheckerAfter T past self.old
            → OnTrue result (IsChainPreserved past (Operated (Detach name.now))) }
        ensures refuses { (T : TheTable) (past : Trace) → IsCheckerAfter T past self.old
            → OnFalse result (IsChainPreserved past (Operated (Detach name.now)) → ⊥) }
        ensures knows { (T : TheTable) (past : Trace) → IsCheckerAfter T past self.old
            → CanFollow (checker_context T self.old) past (Operated (Detach name.now))
            → OnTrue result (IsCheckerAfter T (Operated (Detach name.now) ∷ past) self.new) }
        ensures same { (T : TheTable) → checker_context T self.new ≡ checker_context T self.old }
    {
        ties_after_event();
        chain_after_event();
        changed_is_the_change();
        let Some(at) = position_of(&self.engines, name) else {
            return false;
        };
        let _ = self.engines.remove(at);
        let _ = self.latest.remove(at);
        lower(&mut self.reached, at);
        true
    }

    // Gives the entry of a name another policy of its kind.
    fn upgrade(&mut self, name: &Name, policy: Policy) -> bool
        requires knowing { (T : TheTable) × IsKnowing T self.old }
        requires ranges { IsPolicy policy }
        ensures keeps { (T : TheTable) (past : Trace) (label : List ℕ) → IsCheckerAfter T past self.old
            → OnTrue result (IsChainPreserved past (Operated (Upgrade name.now label policy))) }
        ensures refuses { (T : TheTable) (past : Trace) (label : List ℕ) → IsCheckerAfter T past self.old
            → OnFalse result (IsChainPreserved past (Operated (Upgrade name.now label policy)) → ⊥) }
        ensures knows { (T : TheTable) (past : Trace) (label : List ℕ) → IsCheckerAfter T past self.old
            → CanFollow (checker_context T self.old) past (Operated (Upgrade name.now label policy))
            → OnTrue result (IsCheckerAfter T (Operated (Upgrade name.now label policy) ∷ past) self.new) }
        ensures same { (T : TheTable) → checker_context T self.new ≡ checker_context T self.old }
    {
        ties_after_event();
        chain_after_event();
        changed_is_the_change();
        let Some(at) = position_of(&self.engines, name) else {
            return false;
        };
        if !self.engines[at].policy().is_same_kind(&policy) {
            return false;
        }
        let state = self.engines.remove(at).decompose();
        insert_within_capacity(&mut self.engines, at, Engine::restore(policy, state));
        lower(&mut self.reached, at);
        true
    }
}
