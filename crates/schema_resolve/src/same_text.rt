//! A law of tables. The function has no effect; its clause is the law.

ghost use Rattle.std.specs.Prelude.{◌≡◌};
ghost use Rattle.mrpc_table.specs.Text.{table_text};
ghost use Rattle.mrpc_table.specs.declared.table.Table.{Table};
ghost use Rattle.proto_ast.specs.Joined.{Joined};
ghost use Rattle.proto_ast.specs.Together.{IsOrdered};
ghost use Rattle.schema_resolve.specs.Tables.{IsTableOf};

use schema_symbols::reference_is_unique;

// Two tables of the same files have the same text.
pub(crate) fn table_text_is_determined()
    ensures { (F : Joined) (T U : Table) → IsOrdered F → IsTableOf F T → IsTableOf F U → table_text T ≡ table_text U }
{
    reference_is_unique();
}
