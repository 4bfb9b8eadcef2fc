//! Laws of the inputs of `audit`. These functions do nothing; each contract is a law.

ghost use Rattle.std.specs.Prelude.{◌≡◌, ◌⊎◌, ℕ, List};
ghost use Rattle.mrpc_table.specs.Valid.{IsValid};
ghost use Rattle.mrpc_table.specs.declared.table.Table.{Table};
ghost use Rattle.policy_declarations.specs.Declarations.{Declared, AreValidDeclarations};
ghost use Rattle.script_grammar.specs.declared.fault.ScriptReason.{ScriptReason};
ghost use Rattle.audit_check.specs.Inputs.{IsAuditInput, IsAuditInputFault};

use policy_declarations::{declaration_or_fault, declaration_preserves_validity};
use script_grammar::preamble_or_fault;

/// A text is exactly one input of `audit`, or has exactly one first fault.
pub fn audit_input_or_fault()
    ensures one { (text : List ℕ) (m n : ℕ) (T U : Table) (d e : Declared) (x y : List ℕ) (k l : ℕ)
        → IsAuditInput text m T d x k → IsAuditInput text n U e y l → (m ≡ n) × (T ≡ U) × (d ≡ e) × (x ≡ y) × (k ≡ l) }
    ensures one_fault { (text : List ℕ) (m n : ℕ) (r q : ScriptReason) → IsAuditInputFault text m r
        → IsAuditInputFault text n q
        → (m ≡ n) × (r ≡ q) }
    ensures not_both { (text : List ℕ) (loads : ℕ) (T : Table) (d : Declared) (x : List ℕ) (k line : ℕ)
        (r : ScriptReason) → IsAuditInput text loads T d x k → IsAuditInputFault text line r → ⊥ }
    ensures either { (text : List ℕ)
        → ((loads : ℕ) × (T : Table) × (d : Declared) × (x : List ℕ) × (k : ℕ) × IsAuditInput text loads T d x k)
        ⊎ ((line : ℕ) × (r : ScriptReason) × IsAuditInputFault text line r) }
    // Properties of each input.
    ensures sound { (text : List ℕ) (loads : ℕ) (T : Table) (d : Declared) (x : List ℕ) (k : ℕ)
        → IsAuditInput text loads T d x k → IsValid T × AreValidDeclarations d }
{
    preamble_or_fault();
    declaration_or_fault();
    declaration_preserves_validity();
}
