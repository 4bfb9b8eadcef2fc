//! Laws of results. These functions do nothing; each contract is a law.

ghost use Rattle.std.specs.Prelude.{◌≡◌, ℕ, List};
ghost use Rattle.mrpc_table.specs.Valid.{IsValid};
ghost use Rattle.mrpc_table.specs.declared.table.Table.{Table};
ghost use Rattle.policy_declarations.specs.Declarations.{Declared};
ghost use Rattle.audit_check.specs.Checking.{IsCheckOfText, IsFirstInvalidAuditLine};
ghost use Rattle.audit_check.specs.declared.checked.Checked.{Checked};

use audit_text::{history_of_text_is_unique, line_splits_into_words, stands_line_determines_call};

/// Under a valid table a text has exactly one result, or exactly one first invalid line, never both.
pub fn check_is_deterministic()
    ensures checked { (T : Table) (declared : Declared) (limit : ℕ) (text : List ℕ) (one other : Checked) → IsValid T
        → IsCheckOfText T declared limit text one → IsCheckOfText T declared limit text other → one ≡ other }
    ensures bad { (T : Table) (declared : Declared) (text : List ℕ) (line other : ℕ) → IsValid T
        → IsFirstInvalidAuditLine T declared text line → IsFirstInvalidAuditLine T declared text other → line ≡ other }
    ensures not_both { (T : Table) (declared : Declared) (limit : ℕ) (text : List ℕ) (checked : Checked) (line : ℕ)
        → IsValid T → IsCheckOfText T declared limit text checked → IsFirstInvalidAuditLine T declared text line → ⊥ }
    ensures not_neither { (T : Table) (declared : Declared) (limit : ℕ) (text : List ℕ) → IsValid T
        → ((checked : Checked) → IsCheckOfText T declared limit text checked → ⊥)
        → ((line : ℕ) → IsFirstInvalidAuditLine T declared text line → ⊥) → ⊥ }
{
    line_splits_into_words();
    stands_line_determines_call();
    history_of_text_is_unique();
}
