//! Laws of the texts of policies. The functions have no effect: each clause is a law.

ghost use Rattle.std.specs.Prelude.{◌≡◌, ◌⊎◌, ℕ, List};
ghost use Rattle.mrpc_table.specs.declared.table.Table.{Table};
ghost use Rattle.policy_access.specs.Faults.{IsFirstFault};
ghost use Rattle.policy_access.specs.Texts.{IsTextOf};
ghost use Rattle.policy_access.specs.Verdict.{AccessPolicy};
ghost use Rattle.mrpc_table.specs.declared.policy_lines.RuleReason.{RuleReason};

/// Lines are the text of at most one policy.
pub fn policy_is_unique()
    ensures { (T : Table) (lines : List (List ℕ)) (p q : AccessPolicy)
        → IsTextOf T lines p → IsTextOf T lines q → p ≡ q }
{}

/// Lines have at most one first fault.
pub fn first_fault_is_unique()
    ensures { (T : Table) (lines : List (List ℕ)) (m n : ℕ) (r q : RuleReason)
        → IsFirstFault T lines m r → IsFirstFault T lines n q → (m ≡ n) × (r ≡ q) }
{}

/// Lines are the text of a policy or have a first fault, but never both.
pub fn text_or_fault()
    ensures either { (T : Table) (lines : List (List ℕ))
        → ((policy : AccessPolicy) × IsTextOf T lines policy)
        ⊎ ((line : ℕ) × (q : RuleReason) × IsFirstFault T lines line q) }
    ensures not_both { (T : Table) (lines : List (List ℕ)) (policy : AccessPolicy) (line : ℕ) (q : RuleReason)
        → IsTextOf T lines policy → IsFirstFault T lines line q → ⊥ }
{}
