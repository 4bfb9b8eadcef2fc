//! The table of files that are resolved together, or their first violation.

ghost use Rattle.std.specs.Prelude.{◌≡◌, IfOk, IfErr, MatchResult};
ghost use Rattle.mrpc_table.specs.declared.table.Table.{Table};
ghost use Rattle.mrpc_table.specs.Valid.{IsValid};
ghost use Rattle.proto_ast.specs.Together.{IsFormed, IsOrdered};
ghost use Rattle.schema_resolve.specs.Resolving.{AreResolvedTogether, IsFaultOfAll};
ghost use Rattle.schema_resolve.specs.declared.fault.ResolveFault.TheVariants as faults;

use crate::fault::{ResolveFault, fault_of};
use crate::laws::resolved_table_is_unique;
use crate::table::table_of;
use mrpc_table::Table;
use proto_ast::Joined;
use schema_symbols::SymbolTable;
use schema_validation::first_violation;
use std::alloc::Global;

/// Returns the table of files that are resolved together, or the first violation. That is the one that starts first;
/// of several at the same offset, the first one in the list of [`ResolveReason`] counts. Returns `Memory` if it runs
/// out of memory.
///
/// The methods have indices from 0, in the order of the files. An `optional` message is plain. A repeated field of
/// numbers, bools or enums is packed unless it has the option `packed = false`.
///
/// [`ResolveReason`]: schema_validation::ResolveReason
pub fn resolve_together(alloc: Global, files: &Joined<'_>) -> Result<Table, ResolveFault>
    requires formed { IsFormed files.now }
    requires ordered { IsOrdered files.now }
    // A returned table is what the files resolve to.
    ensures resolves { IfOk result (AreResolvedTogether files.now) }
    // It is valid.
    ensures valid { IfOk result (λ t. IsValid t) }
    // If the files resolve to a table, this table is returned, unless memory runs out.
    ensures only { (t : Table) → AreResolvedTogether files.now t
        → MatchResult result (λ u. u ≡ t) (λ e. e ≡ faults.Memory) }
    // A returned violation is the first one of all files.
    ensures offence { IfErr result (IsFaultOfAll files.now) }
{
    resolved_table_is_unique();
    let scopes = SymbolTable::new(alloc, files)?;
    match first_violation(alloc, files, &scopes)? {
        Some(offence) => Err(fault_of(offence)),
        None => Ok(table_of(alloc, files, &scopes)?),
    }
}
