//! Laws of sets of files. The functions have no effect: each clause is a law.

ghost use Rattle.std.specs.Prelude.{◌≡◌, ℕ, ◌<◌, List, length};
ghost use Rattle.mrpc_table.specs.declared.table.Table.{Table};
ghost use Rattle.proto_set.specs.Bundle.{BundledFile as PackedFile};
ghost use Rattle.proto_set.specs.WellPlaced.{AreWellPlaced};
ghost use Rattle.proto_set.specs.declared.linked_file.LinkedFile.{LinkedFile};
ghost use Rattle.schema_files.specs.Resolving.{AreJoinedAs, AreResolvedTo, HasFilesFault, IsFirstFilesFault};
ghost use Rattle.schema_files.specs.declared.fault.FilesFault.{FilesFault};
ghost use Rattle.schema_files.specs.declared.fault.FilesReason.{FilesReason};

use proto_schema::{
    file_is_ordered, file_is_unique, file_is_within, file_or_fault,
    text_fault_is_unique as one_text_fault,
};
use proto_set::{
    import_closure_is_unique, import_closure_or_fault, import_fault_is_unique as one_import_fault,
    joined_is_ordered, offset_is_in_one_file, valid_or_rejected,
};
use schema_resolve::{resolved_table_is_unique, table_or_violation};
use schema_validation::{first_violation_is_unique, violations_have_spans};

/// The files of a set are joined to at most one list of linked files.
pub fn join_is_unique()
    ensures { (files : List PackedFile) (ps qs : List LinkedFile) → AreJoinedAs files ps → AreJoinedAs files qs
        → ps ≡ qs }
{
    file_is_unique();
    import_closure_is_unique();
}

/// The linked files of a set can be resolved together.
pub fn joined_is_well_placed()
    ensures { (files : List PackedFile) (ps : List LinkedFile) → AreJoinedAs files ps → AreWellPlaced ps }
{
    file_is_ordered();
    file_is_within();
}

/// A set of files has at most one table.
pub fn files_table_is_unique()
    ensures { (files : List PackedFile) (t u : Table) → AreResolvedTo files t → AreResolvedTo files u → t ≡ u }
{
    join_is_unique();
    joined_is_well_placed();
    joined_is_ordered();
    resolved_table_is_unique();
}

/// A set of files has at most one first fault.
pub fn files_fault_is_unique()
    ensures { (files : List PackedFile) (e f : FilesFault) → IsFirstFilesFault files e → IsFirstFilesFault files f
        → e ≡ f }
{
    valid_or_rejected();
    file_is_unique();
    one_text_fault();
    file_or_fault();
    import_closure_is_unique();
    one_import_fault();
    import_closure_or_fault();
    joined_is_well_placed();
    joined_is_ordered();
    first_violation_is_unique();
    offset_is_in_one_file();
}

/// A nonempty set of files has a table or a first fault, and never both.
pub fn table_or_files_fault()
    ensures never_both { (files : List PackedFile) (t : Table) (e : FilesFault) → AreResolvedTo files t
        → IsFirstFilesFault files e → ⊥ }
    ensures never_neither { (files : List PackedFile) → 0 < length files → ((t : Table) → AreResolvedTo files t → ⊥)
        → ((e : FilesFault) → IsFirstFilesFault files e → ⊥) → ⊥ }
{
    valid_or_rejected();
    file_is_unique();
    file_or_fault();
    import_closure_is_unique();
    import_closure_or_fault();
    joined_is_well_placed();
    joined_is_ordered();
    violations_have_spans();
    offset_is_in_one_file();
    table_or_violation();
}

/// The first fault of the files' contents is in one of them.
pub fn fault_in_set()
    ensures { (files : List PackedFile) (i l : ℕ) (q : FilesReason) → HasFilesFault files i l q → i < length files }
{}
