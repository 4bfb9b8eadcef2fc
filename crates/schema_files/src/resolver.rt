//! The table of a set of files, or its first fault.

ghost use Rattle.std.specs.Prelude.{◌≡◌, ◌<◌, ◌≤◌, ◌^◌, List, length, sum, map, sum_by, IfOk, IfErr, MatchResult};
ghost use Rattle.mrpc_table.specs.Valid.{IsValid};
ghost use Rattle.mrpc_table.specs.declared.table.Table.{Table};
ghost use Rattle.proto_set.specs.Named.{files_of};
ghost use Rattle.proto_set.specs.Bundle.{BundledFile as PackedFile};
ghost use Rattle.proto_set.specs.Paths.{HaveValidPaths};
ghost use Rattle.proto_set.specs.Reaching.{HaveDistinctPaths, IsReach};
ghost use Rattle.proto_set.specs.Joining.{joined, sizes_of};
ghost use Rattle.proto_set.specs.WellPlaced.{AreWellPlaced};
ghost use Rattle.schema_resolve.specs.Resolving.{AreResolvedTogether};
ghost use Rattle.schema_files.specs.Joined.{AreReadAs};
ghost use Rattle.schema_files.specs.Resolving.{AreJoinedAs, AreResolvedTo, IsFaultOf};
ghost use Rattle.schema_files.specs.Unread.{IsContentFault};
ghost use Rattle.schema_files.specs.declared.fault.FilesFault.TheVariants as faults;

use crate::fault::{FilesFault, FilesReason};
use crate::laws::{join_is_unique, joined_is_well_placed, table_or_files_fault};
use crate::linked_files::linked_files_of;
use crate::reading::read_texts;
use mrpc_table::{MAX_FILES, Memory, Table};
use proto_set::{
    ImportClosure, ImportFault, LinkedFile, Named, ParsedFile, file_at, first_rejected, join,
    joined_is_ordered, offset_is_in_one_file, reach, valid_or_rejected,
};
use schema_resolve::{ResolveFault, resolve_together};
use schema_validation::violations_have_spans;
use std::alloc::Global;

// The files that the first one of a set reaches.
fn reached(alloc: Global, members: &[ParsedFile]) -> Result<ImportClosure, FilesFault>
    requires some { 0 < length members.now }
    requires few { length members.now ≤ MAX_FILES }
    requires distinct { HaveDistinctPaths members.now }
    ensures reach { IfOk result (IsReach members.now) }
    ensures fault { (files : List PackedFile) → AreReadAs files members.now → IfErr result (IsContentFault files) }
{
    match reach(alloc, members) {
        Ok(reached) => Ok(reached),
        Err(ImportFault::At { reason, file, span }) => Err(FilesFault::At {
            file,
            line: span.line,
            reason: FilesReason::Import(reason),
        }),
        Err(ImportFault::Memory) => Err(FilesFault::Memory),
    }
}

// The size of each text.
fn sizes(alloc: Global, parts: &[LinkedFile]) -> Result<Vec<usize>, Memory>
    ensures { IfOk result (λ v. v.items ≡ sizes_of parts.now) }
{
    let mut sizes = Vec::with_capacity(alloc, parts.len())?;
    for k in 0..parts.len() {
        sizes.push(parts[k].size)?;
    }
    Ok(sizes)
}

// The table of joined files, or their first violation, given the order in which they are joined.
fn resolve_linked(
    alloc: Global,
    order: &[usize],
    parts: Vec<LinkedFile>,
) -> Result<Table, FilesFault>
    requires small { sum (sizes_of parts.items) < 2 ^ 64 }
    requires sound { AreWellPlaced parts.items }
    requires count { length order.now ≡ length parts.items }
    ensures resolves { IfOk result (AreResolvedTogether (joined parts.items)) }
    ensures valid { IfOk result (λ t. IsValid t) }
    ensures only { (t : Table) → AreResolvedTogether (joined parts.items) t
        → MatchResult result (λ u. u ≡ t) (λ e. e ≡ faults.Memory) }
    ensures fault { (files : List PackedFile) (joins : AreJoinedAs files parts.items) → joins.reach.order ≡ order.now
        → IfErr result (IsContentFault files) }
{
    joined_is_ordered();
    offset_is_in_one_file();
    violations_have_spans();
    let sizes = sizes(alloc, parts.as_slice())?;
    let union = join(alloc, parts)?;
    match resolve_together(alloc, &union.files()) {
        Ok(table) => Ok(table),
        Err(
            ResolveFault::At {
                reason,
                start,
                line,
                ..
            },
        ) => {
            let place = file_at(sizes.as_slice(), start).unwrap();
            Err(FilesFault::At {
                file: order[place],
                line,
                reason: FilesReason::Resolve(reason),
            })
        }
        Err(ResolveFault::Memory) => Err(FilesFault::Memory),
    }
}

// The table of files with valid paths, or the first fault of their contents.
fn resolve_valid_paths(alloc: Global, files: &[Named<'_>]) -> Result<Table, FilesFault>
    requires some { 0 < length files.now }
    requires few { length files.now ≤ MAX_FILES }
    requires right { HaveValidPaths (files_of files.now) }
    requires small { sum_by (λ f. length f.text.now) files.now < 2 ^ 63 }
    ensures resolves { IfOk result (AreResolvedTo (files_of files.now)) }
    ensures valid { IfOk result (λ t. IsValid t) }
    ensures only { (t : Table) → AreResolvedTo (files_of files.now) t
        → MatchResult result (λ u. u ≡ t) (λ e. e ≡ faults.Memory) }
    ensures fault { IfErr result (IsContentFault (files_of files.now)) }
{
    join_is_unique();
    joined_is_well_placed();
    table_or_files_fault();
    let members = read_texts(alloc, files)?;
    let reach = reached(alloc, members.as_slice())?;
    let parts = linked_files_of(alloc, files, members, &reach)?;
    resolve_linked(alloc, reach.order.as_slice(), parts)
}

/// Returns the table of the files that the first one reaches by imports, or the first fault of the set. These faults
/// come in this order:
///
/// 1. the first file whose path is invalid or is that of an earlier file;
/// 2. the first text that is not a proto file;
/// 3. the first missing import;
/// 4. the first repeated import;
/// 5. the first import that closes a cycle;
/// 6. in the first of the joined files with a violation, the violation that starts first.
///
/// Returns `Memory` if it runs out of memory.
///
/// The joined files are the first one, followed by the others that it reaches, by ascending path. The methods have
/// indices from 0, in this order.
pub fn resolve_files(alloc: Global, files: &[Named<'_>]) -> Result<Table, FilesFault>
    requires some { 0 < length files.now }
    requires few { length files.now ≤ MAX_FILES }
    requires small { sum_by (λ f. length f.text.now) files.now < 2 ^ 63 }
    // A returned table is what the files resolve to.
    ensures resolves { IfOk result (AreResolvedTo (files_of files.now)) }
    // It is valid.
    ensures valid { IfOk result (λ t. IsValid t) }
    // If the files resolve to a table, this table is returned, unless memory runs out.
    ensures only { (t : Table) → AreResolvedTo (files_of files.now) t
        → MatchResult result (λ u. u ≡ t) (λ e. e ≡ faults.Memory) }
    // A returned fault is the first one of the set.
    ensures fault { IfErr result (IsFaultOf (files_of files.now)) }
{
    valid_or_rejected();
    match first_rejected(files) {
        Some(file) => Err(FilesFault::Path { file }),
        None => resolve_valid_paths(alloc, files),
    }
}
