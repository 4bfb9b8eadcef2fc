//! Laws of redacting policies and of their texts. The functions have no effect: each clause is a law.

ghost use Rattle.std.specs.Prelude.{◌≡◌, ◌<◌, ◌⊎◌, ◌++◌, ◌↔◌, ℕ, List, Contains};
ghost use Rattle.mrpc_table.specs.Weight.{weight};
ghost use Rattle.mrpc_table.specs.declared.table.Table.{Table};
ghost use Rattle.mrpc_table.specs.Calls.{IsCallOf};
ghost use Rattle.mrpc_table.specs.declared.call.Call.{Call};
ghost use Rattle.mrpc_table.specs.declared.policy_lines.RuleReason.{RuleReason};
ghost use Rattle.policy_redact.specs.Faults.{IsFirstFault};
ghost use Rattle.policy_redact.specs.Redacting.{cleared, cleared_call};
ghost use Rattle.policy_redact.specs.Texts.{IsTextOf};
ghost use Rattle.policy_redact.specs.declared.redact.Clear.{Clear};

/// Clears commute, and repeating them changes nothing: the result depends only on which clears there are.
pub fn clears_commute()
    ensures of_lines { (a b : List Clear) (call : Call) →
        ((clear : Clear) → Contains a clear ↔ Contains b clear) → cleared a call ≡ cleared b call }
    ensures in_turn { (a b : List Clear) (call : Call) → cleared b (cleared_call a call) ≡ cleared (a ++ b) call }
    ensures either_first { (a b : List Clear) (call : Call) →
        cleared b (cleared_call a call) ≡ cleared a (cleared_call b call) }
{}

/// A second clear by the same policy changes nothing.
pub fn clear_is_idempotent()
    ensures { (clears : List Clear) (call : Call) → cleared clears (cleared_call clears call) ≡ cleared clears call }
{}

/// A normal tree stays normal.
pub fn clear_preserves_normal_form()
    ensures { (T : Table) (clears : List Clear) (call : Call) →
        IsCallOf T call → IsCallOf T (cleared_call clears call) }
{}

/// The result is the tree itself, or a smaller one: its number of parts falls if anything is cleared.
pub fn clear_shrinks_tree()
    ensures { (clears : List Clear) (call : Call) →
        (cleared clears call ≡ call.tree) ⊎ (weight (cleared clears call) < weight call.tree) }
{}

/// Lines are the text of at most one policy.
pub fn policy_is_unique()
    ensures { (T : Table) (lines : List (List ℕ)) (p q : List Clear) → IsTextOf T lines p → IsTextOf T lines q → p ≡ q }
{}

/// Lines have at most one first fault.
pub fn first_fault_is_unique()
    ensures { (T : Table) (lines : List (List ℕ)) (m n : ℕ) (r q : RuleReason) →
        IsFirstFault T lines m r → IsFirstFault T lines n q → (m ≡ n) × (r ≡ q) }
{}

/// Lines are the text of a policy or have a first fault, but never both.
pub fn text_or_fault()
    ensures either { (T : Table) (lines : List (List ℕ)) →
        ((policy : List Clear) × IsTextOf T lines policy)
        ⊎ ((line : ℕ) × (q : RuleReason) × IsFirstFault T lines line q) }
    ensures not_both { (T : Table) (lines : List (List ℕ)) (policy : List Clear) (line : ℕ) (q : RuleReason) →
        IsTextOf T lines policy → IsFirstFault T lines line q → ⊥ }
{}
