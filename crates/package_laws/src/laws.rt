//! Laws of files of one package. The functions have no effect: each clause is a law.

ghost use Rattle.std.specs.Prelude.{List};
ghost use Rattle.mrpc_table.specs.declared.table.Table.{Table};
ghost use Rattle.proto_set.specs.Bundle.{BundledFile as PackedFile};
ghost use Rattle.proto_set.specs.Paths.{HaveValidPaths};
ghost use Rattle.proto_ast.specs.Joined.{Joined};
ghost use Rattle.proto_ast.specs.Together.{IsFormed, IsOrdered};
ghost use Rattle.proto_ast.specs.declared.file.File.{File};
ghost use Rattle.proto_set.specs.Joining.{joined};
ghost use Rattle.proto_set.specs.declared.linked_file.LinkedFile.{LinkedFile};
ghost use Rattle.schema_resolve.specs.Resolving.{Resolves, AreResolvedTogether};
ghost use Rattle.schema_files.specs.Resolving.{AreJoinedAs, AreResolvedTo};
ghost use Rattle.package_laws.specs.OnePackage.{IsOnePackage};

use proto_set::joined_is_ordered;
use schema_files::{join_is_unique, joined_is_well_placed};

/// Files of one package resolve to a table exactly if the one file with all their declarations resolves to it.
pub fn one_package_is_one_file()
    ensures one_file { (F : Joined) (G : File) (T : Table) → IsFormed F → IsOrdered F → IsOnePackage F G
        → AreResolvedTogether F T → Resolves G T }
    ensures several { (F : Joined) (G : File) (T : Table) → IsFormed F → IsOrdered F → IsOnePackage F G
        → Resolves G T → AreResolvedTogether F T }
{}

/// A set with valid paths resolves to a table exactly if the one file with all declarations of the files that its
/// first one reaches resolves to it.
pub fn one_package_set_is_one_file()
    ensures one_file { (files : List PackedFile) (ps : List LinkedFile) (G : File) (T : Table) → AreJoinedAs files ps
        → IsOnePackage (joined ps) G → AreResolvedTo files T → Resolves G T }
    ensures several { (files : List PackedFile) (ps : List LinkedFile) (G : File) (T : Table) → HaveValidPaths files
        → AreJoinedAs files ps
        → IsOnePackage (joined ps) G → Resolves G T → AreResolvedTo files T }
{
    join_is_unique();
    joined_is_well_placed();
    joined_is_ordered();
    one_package_is_one_file();
}
