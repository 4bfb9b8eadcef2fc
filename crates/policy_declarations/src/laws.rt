//! Laws of declarations. These functions do nothing; each contract is a law.

ghost use Rattle.std.specs.Prelude.{◌≡◌, ◌⊎◌, ◌++◌, ◌+◌, ◌≤◌, ℕ, Bool, List};
ghost use Rattle.mrpc_table.specs.Lines.{line_count};
ghost use Rattle.mrpc_table.specs.declared.table.Table.{Table};
ghost use Rattle.script_grammar.specs.declared.fault.ScriptReason.{ScriptReason};
ghost use Rattle.policy_declarations.specs.Declarations.{Declared, IsNew, AreValidDeclarations, with_declaration};
ghost use Rattle.policy_declarations.specs.DeclarationTexts.{HasDeclaration, HasFirstFaultAt};
ghost use Rattle.policy_declarations.specs.declared.declaration.Declaration.{Declaration};
ghost use Rattle.policy_declarations.specs.declared.declaration_form.DeclarationForm.{DeclarationForm};

use policy_access::{
    first_fault_is_unique as one_access_fault, policy_is_unique as one_access,
    text_or_fault as access_or_fault,
};
use policy_redact::{
    first_fault_is_unique as one_redact_fault, policy_is_unique as one_redact,
    text_or_fault as redact_or_fault,
};
use script_grammar::meanings_or_reason;

/// Lines whose first line starts a declaration have exactly one declaration, or exactly one first fault, never both.
pub fn declaration_or_fault()
    ensures one { (T : Table) (skips : Bool) (d : Declared) (f : DeclarationForm) (line text : List ℕ) (i j : Declaration)
        (x y : List ℕ) → HasDeclaration T skips d f line text i x → HasDeclaration T skips d f line text j y
        → (i ≡ j) × (x ≡ y) }
    ensures one_fault { (T : Table) (skips : Bool) (d : Declared) (f : DeclarationForm) (line text : List ℕ) (m n : ℕ)
        (r q : ScriptReason) → HasFirstFaultAt T skips d f line text m r → HasFirstFaultAt T skips d f line text n q
        → (m ≡ n) × (r ≡ q) }
    ensures not_both { (T : Table) (skips : Bool) (d : Declared) (f : DeclarationForm) (line text : List ℕ) (i : Declaration)
        (x : List ℕ) (n : ℕ) (r : ScriptReason) → HasDeclaration T skips d f line text i x
        → HasFirstFaultAt T skips d f line text n r → ⊥ }
    ensures either { (T : Table) (skips : Bool) (d : Declared) (f : DeclarationForm) (line text : List ℕ)
        → ((i : Declaration) × (x : List ℕ) × HasDeclaration T skips d f line text i x)
        ⊎ ((n : ℕ) × (r : ScriptReason) × HasFirstFaultAt T skips d f line text n r) }
    // A fault is in one of the lines, or in the line right after them.
    ensures place { (T : Table) (skips : Bool) (d : Declared) (f : DeclarationForm) (line text : List ℕ) (n : ℕ)
        (r : ScriptReason) → HasFirstFaultAt T skips d f line text n r → n ≤ line_count text + 2 }
    // The remainder after a declaration is a suffix of the text.
    ensures left { (T : Table) (skips : Bool) (d : Declared) (f : DeclarationForm) (line text : List ℕ) (i : Declaration)
        (x : List ℕ) → HasDeclaration T skips d f line text i x → (passed : List ℕ) × (text ≡ passed ++ x) }
{
    meanings_or_reason();
    one_access();
    one_access_fault();
    access_or_fault();
    one_redact();
    one_redact_fault();
    redact_or_fault();
}

/// Each declaration that is read is new, and adding it preserves validity.
pub fn declaration_preserves_validity()
    ensures new { (T : Table) (skips : Bool) (d : Declared) (f : DeclarationForm) (line text : List ℕ) (i : Declaration) (x : List ℕ)
        → HasDeclaration T skips d f line text i x → IsNew d i }
    ensures sound { (T : Table) (skips : Bool) (d : Declared) (f : DeclarationForm) (line text : List ℕ) (i : Declaration)
        (x : List ℕ) → AreValidDeclarations d → HasDeclaration T skips d f line text i x → AreValidDeclarations (with_declaration d i) }
{}
