//! Laws of preambles. These functions do nothing; each contract is a law.

ghost use Rattle.std.specs.Prelude.{◌≡◌, ◌⊎◌, ℕ, List};
ghost use Rattle.mrpc_table.specs.declared.table.Table.{Table};
ghost use Rattle.script_grammar.specs.declared.fault.ScriptReason.{ScriptReason};
ghost use Rattle.script_grammar.specs.Preambles.{IsPreamble, IsPreambleFault};

use table_text::{
    table_after_is_unique, table_fault_is_unique, table_or_fault, table_text_is_unique,
};

/// A text has exactly one preamble, or its preamble has exactly one first fault.
pub fn preamble_or_fault()
    ensures front { (first text : List ℕ) (m n : ℕ) (T U : Table) (x y : List ℕ) → IsPreamble first text m T x
        → IsPreamble first text n U y → (m ≡ n) × (T ≡ U) × (x ≡ y) }
    ensures fault { (first text : List ℕ) (m n : ℕ) (r q : ScriptReason) → IsPreambleFault first text m r
        → IsPreambleFault first text n q → (m ≡ n) × (r ≡ q) }
    ensures either { (first text : List ℕ) (loads : ℕ) (T : Table) (behind : List ℕ) (line : ℕ) (r : ScriptReason)
        → IsPreamble first text loads T behind → IsPreambleFault first text line r → ⊥ }
    ensures some { (first text : List ℕ)
        → ((loads : ℕ) × (T : Table) × (behind : List ℕ) × IsPreamble first text loads T behind)
        ⊎ ((line : ℕ) × (r : ScriptReason) × IsPreambleFault first text line r) }
{
    table_text_is_unique();
    table_fault_is_unique();
    table_after_is_unique();
    table_or_fault();
}
