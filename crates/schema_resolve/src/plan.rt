//! The full names of messages and enums, and their indices in the table.

ghost use Rattle.std.specs.Prelude.{◌≡◌, length, IfOk};
ghost use Rattle.proto_ast.specs.Joined.{package_parts};
ghost use Rattle.proto_ast.specs.Together.{IsFormed, IsOrdered};
ghost use Rattle.schema_symbols.specs.Scopes.{text_of};
ghost use Rattle.schema_resolve.specs.Resolving.{HasNoViolation};
ghost use Rattle.schema_resolve.specs.Placing.{qualified_name, enclosing_name, ArePackageNames, IsEnclosingAmong, AreMessageNames, AreEnumNames, IsTablePlan};

use crate::placed::PlacedNames;
use mrpc_table::{Memory, Name};
use proto_ast::{Enclosing, Head, Joined, Word};
use std::alloc::Global;

// The full names of messages and enums, and their indices in the table.
#[derive(Drop)]
pub(crate) struct TablePlan {
    // The names of the files' packages.
    pub fronts: Vec<Name>,
    pub messages: PlacedNames,
    pub enums: PlacedNames,
}

// A name after the full name that encloses it.
pub(crate) fn qualified_name(alloc: Global, front: &Name, word: &Word) -> Result<Name, Memory>
    ensures { IfOk result (λ name. name ≡ qualified_name front.now word.now.name) }
{
    let mut name = front.copied(alloc)?;
    if !name.is_empty() {
        name.append(b".")?;
    }
    name.append(word.name.as_slice())?;
    Ok(name)
}

// The full name of a declaration inside a file or a message.
fn full_name(
    alloc: Global,
    fronts: &[Name],
    messages: &[Name],
    home: Enclosing,
    word: &Word,
) -> Result<Name, Memory>
    requires { IsEnclosingAmong (length fronts.now) (length messages.now) home }
    ensures { IfOk result (λ name. name ≡ qualified_name (enclosing_name fronts.now messages.now home) word.now.name) }
{
    match home {
        Enclosing::Message(i) => qualified_name(alloc, &messages[i], word),
        Enclosing::File(k) => qualified_name(alloc, &fronts[k], word),
    }
}

fn package_name_of(alloc: Global, head: &Head) -> Result<Name, Memory>
    ensures { IfOk result (λ name. name ≡ text_of (package_parts head.now.package)) }
{
    match &head.package {
        Some(package) => package.name.copied(alloc),
        None => Ok(Name::new(alloc)),
    }
}

fn all_package_names(alloc: Global, files: &Joined<'_>) -> Result<Vec<Name>, Memory>
    ensures { IfOk result (λ v. ArePackageNames files.now v.items) }
{
    let heads = files.heads();
    let mut fronts = Vec::with_capacity(alloc, heads.len())?;
    for i in 0..heads.len() {
        let name = package_name_of(alloc, &heads[i])?;
        fronts.push(name)?;
    }
    Ok(fronts)
}

fn message_names(alloc: Global, files: &Joined<'_>, fronts: &[Name]) -> Result<Vec<Name>, Memory>
    requires formed { IsFormed files.now }
    requires fronts { ArePackageNames files.now fronts.now }
    ensures count { IfOk result (λ v. length v.items ≡ length files.now.messages) }
    ensures names { IfOk result (λ v. AreMessageNames files.now v.items) }
{
    let decls = files.messages();
    let mut messages = Vec::with_capacity(alloc, decls.len())?;
    for i in 0..decls.len() {
        let decl = &decls[i];
        let name = full_name(
            alloc,
            fronts,
            messages.as_slice(),
            decl.enclosing(),
            &decl.name,
        )?;
        messages.push(name)?;
    }
    Ok(messages)
}

fn enum_names(
    alloc: Global,
    files: &Joined<'_>,
    fronts: &[Name],
    messages: &[Name],
) -> Result<Vec<Name>, Memory>
    requires formed { IsFormed files.now }
    requires fronts { ArePackageNames files.now fronts.now }
    requires count { length messages.now ≡ length files.now.messages }
    requires names { AreMessageNames files.now messages.now }
    ensures count { IfOk result (λ v. length v.items ≡ length files.now.enums) }
    ensures names { IfOk result (λ v. AreEnumNames files.now v.items) }
{
    let decls = files.enums();
    let mut enums = Vec::with_capacity(alloc, decls.len())?;
    for i in 0..decls.len() {
        let decl = &decls[i];
        let name = full_name(alloc, fronts, messages, decl.enclosing(), &decl.name)?;
        enums.push(name)?;
    }
    Ok(enums)
}

// The plan of files without a violation.
pub(crate) fn plan_of(alloc: Global, files: &Joined<'_>) -> Result<TablePlan, Memory>
    requires formed { IsFormed files.now }
    requires ordered { IsOrdered files.now }
    requires clean { HasNoViolation files.now }
    ensures fronts { IfOk result (λ p. ArePackageNames files.now p.fronts.items) }
    ensures plan { IfOk result (IsTablePlan files.now) }
{
    let fronts = all_package_names(alloc, files)?;
    let messages = message_names(alloc, files, fronts.as_slice())?;
    let enums = enum_names(alloc, files, fronts.as_slice(), messages.as_slice())?;
    Ok(TablePlan {
        fronts,
        messages: PlacedNames::new(alloc, messages)?,
        enums: PlacedNames::new(alloc, enums)?,
    })
}
