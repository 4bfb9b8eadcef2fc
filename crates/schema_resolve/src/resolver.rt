//! The table of a file alone, or its first violation.

ghost use Rattle.std.specs.Prelude.{◌≡◌, IfOk, IfErr, MatchResult};
ghost use Rattle.mrpc_table.specs.declared.table.Table.{Table};
ghost use Rattle.mrpc_table.specs.Valid.{IsValid};
ghost use Rattle.proto_ast.specs.Joined.{alone};
ghost use Rattle.proto_ast.specs.Together.{IsFormed, IsOrdered};
ghost use Rattle.schema_resolve.specs.Resolving.{Resolves, IsFaultOf};
ghost use Rattle.schema_resolve.specs.declared.fault.ResolveFault.TheVariants as faults;

use crate::fault::{ResolveFault, fault_of};
use crate::head::head_of;
use crate::laws::resolved_table_is_unique;
use crate::table::table_of;
use mrpc_table::Table;
use proto_ast::{File, Joined};
use schema_symbols::SymbolTable;
use schema_validation::{first_violation, with_import};
use std::alloc::Global;

/// Returns the table of a well-formed file in order, such as any file that was read, or its first violation. That is
/// the one that starts first; of several at the same offset, the first one in the list of [`ResolveReason`] counts.
/// Returns `Memory` if it runs out of memory.
///
/// The methods have indices from 0, in the order of the file. An `optional` message is plain. A repeated field of
/// numbers, bools or enums is packed unless it has the option `packed = false`.
///
/// [`ResolveReason`]: schema_validation::ResolveReason
pub fn resolve(alloc: Global, file: &File) -> Result<Table, ResolveFault>
    requires formed { IsFormed (alone file.now) }
    requires ordered { IsOrdered (alone file.now) }
    // A returned table is what the file resolves to.
    ensures resolves { IfOk result (λ t. Resolves file.now t) }
    // It is valid.
    ensures valid { IfOk result (λ t. IsValid t) }
    // If the file resolves to a table, this table is returned, unless memory runs out.
    ensures only { (t : Table) → Resolves file.now t → MatchResult result (λ u. u ≡ t) (λ e. e ≡ faults.Memory) }
    // A returned violation is the file's first one.
    ensures offence { IfErr result (λ e. IsFaultOf file.now e) }
{
    resolved_table_is_unique();
    let heads = head_of(alloc, file)?;
    let files = Joined::new(
        heads.as_slice(),
        file.messages.as_slice(),
        file.enums.as_slice(),
        file.services.as_slice(),
    );
    let scopes = SymbolTable::new(alloc, &files)?;
    let found = first_violation(alloc, &files, &scopes)?;
    match with_import(file, found) {
        Some(offence) => Err(fault_of(offence)),
        None => Ok(table_of(alloc, &files, &scopes)?),
    }
}
