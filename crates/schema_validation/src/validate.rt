//! All violations of files.

ghost use Rattle.std.specs.Prelude.{◌≡◌, IfOk};
ghost use Rattle.proto_ast.specs.Together.{IsFormed, IsOrdered};
ghost use Rattle.proto_ast.specs.Joined.{alone};
ghost use Rattle.schema_validation.specs.Violations.{IsFirstViolation, IsFirstFileViolation};

use crate::enums::note_enums;
use crate::first::{FirstViolation, Violation};
use crate::lines::{Lengths, note_text};
use crate::messages::note_messages;
use crate::names::note_duplicates;
use crate::reason::ResolveReason;
use crate::services::{note_methods, note_packages, note_services};
use mrpc_table::Memory;
use proto_ast::{File, Joined};
use schema_symbols::SymbolTable;
use std::alloc::Global;

/// Returns the first violation of files that are resolved together; none if there are none.
pub fn first_violation<'a>(
    alloc: Global,
    files: &Joined<'a>,
    scopes: &SymbolTable<'a>,
) -> Result<Option<Violation>, Memory>
    requires formed { IsFormed files.now }
    requires ordered { IsOrdered files.now }
    requires scopes { scopes.now ≡ files.now }
    ensures { IfOk result (IsFirstViolation files.now) }
{
    let mut first = FirstViolation::new();
    note_packages(files, &mut first);
    note_duplicates(alloc, files, scopes, &mut first)?;
    note_messages(alloc, files, scopes, &mut first)?;
    note_enums(alloc, files, &mut first)?;
    note_services(files, &mut first);
    note_methods(files, scopes, &mut first);
    let lengths = Lengths::new(alloc, files)?;
    lengths.note_long(files, &mut first);
    note_text(alloc, files, scopes, &lengths, &mut first)?;
    Ok(first.found)
}

/// Returns the first violation of a file alone, given the first one that isn't an import. If the file has imports,
/// its first import is a violation, too.
pub fn with_import(file: &File, found: Option<Violation>) -> Option<Violation>
    requires { IsFirstViolation (alone file.now) found }
    ensures { IsFirstFileViolation file.now result }
{
    let mut first = FirstViolation { found };
    if let Some(import) = file.imports.as_slice().first() {
        first.note(ResolveReason::Import, import.span);
    }
    first.found
}
