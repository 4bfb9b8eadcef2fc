//! Laws of tables and of first violations.

ghost use Rattle.std.specs.Prelude.{◌≡◌};
ghost use Rattle.mrpc_table.specs.declared.table.Table.{Table};
ghost use Rattle.proto_ast.specs.Joined.{Joined, alone};
ghost use Rattle.proto_ast.specs.Together.{IsFormed, IsOrdered};
ghost use Rattle.proto_ast.specs.declared.file.Span.{Span};
ghost use Rattle.proto_ast.specs.declared.file.File.{File};
ghost use Rattle.schema_validation.specs.Violations.{HasFirstFileViolation, HasFirstViolation};
ghost use Rattle.schema_resolve.specs.Tables.{IsTableOf};
ghost use Rattle.schema_resolve.specs.Resolving.{Resolves, AreResolvedTogether};
ghost use Rattle.schema_validation.specs.declared.reason.ResolveReason.{ResolveReason};

use crate::same_text::table_text_is_determined;
use table_text::table_text_is_unique;

/// Files in order have at most one table: two of them are equal.
pub fn resolved_table_is_unique()
    ensures { (F : Joined) (T U : Table) → IsOrdered F → IsTableOf F T → IsTableOf F U → T ≡ U }
{
    table_text_is_determined();
    table_text_is_unique();
}

/// A file in order has at most one first violation: two of them have the same reason and span.
pub fn file_violation_is_unique()
    ensures { (F : File) (q r : ResolveReason) (s t : Span) → IsOrdered (alone F) → HasFirstFileViolation F q s
        → HasFirstFileViolation F r t → (q ≡ r) × (s ≡ t) }
{
    schema_validation::first_violation_is_unique();
}

/// A well-formed file in order has a table or a first violation, and so have such files that are resolved together.
/// None has both.
pub fn table_or_violation()
    ensures not_neither { (F : File) → IsFormed (alone F) → IsOrdered (alone F)
        → ((T : Table) → Resolves F T → ⊥) → ((q : ResolveReason) (s : Span) → HasFirstFileViolation F q s → ⊥) → ⊥ }
    ensures not_neither_of_all { (F : Joined) → IsFormed F → IsOrdered F → ((T : Table) → AreResolvedTogether F T → ⊥)
        → ((q : ResolveReason) (s : Span) → HasFirstViolation F q s → ⊥) → ⊥ }
    ensures not_both { (F : File) (T : Table) (q : ResolveReason) (s : Span) → Resolves F T → HasFirstFileViolation F q s → ⊥ }
    ensures not_both_of_all { (F : Joined) (T : Table) (q : ResolveReason) (s : Span) → AreResolvedTogether F T
        → HasFirstViolation F q s → ⊥ }
{}
