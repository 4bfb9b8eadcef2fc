//! The files that the imports of a set lead to.

ghost use Rattle.std.specs.Prelude.{◌≡◌, ◌↔◌, ◌<◌, length, IsTrue, IfOk, IfErr, OnOk};
ghost use Rattle.proto_ast.specs.declared.file.Import.{Import};
ghost use Rattle.proto_set.specs.Importing.{HasImport};
ghost use Rattle.proto_set.specs.ImportFaults.{IsFaultOf};
ghost use Rattle.proto_set.specs.Reaching.{HaveDistinctPaths};
ghost use Rattle.proto_set.specs.Linking.{KnowsPaths, AllResolve, HasNoFaultOf, HasNoFaultOfAt, IsFirstFaultOfFile, IsFirstOrMemory, AreLinks};
ghost use Rattle.proto_set.specs.Seeing.{IsLinked};

use crate::import_fault::{ImportFault, ImportReason};
use crate::paths::Paths;
use crate::set::ParsedFile;
use mrpc_table::Sequence;
use std::alloc::Global;
use std::marker::Model;

// The file that an import leads to.
#[derive(Clone, Copy)]
pub(crate) struct ImportLink {
    // The index of the file that has its path.
    pub file: usize,
    pub public: bool,
}

// The links of a file's imports, in the order of their statements.
pub(crate) type ImportLinks = Sequence<ImportLink>;

// The fault of an import.
pub(crate) fn fault_at(
    members: &[ParsedFile],
    reason: ImportReason,
    file: usize,
    n: usize,
) -> ImportFault
    requires { (x : Import) × HasImport members.now file n x }
    ensures { (x : Import) → HasImport members.now file n x → result ≡ ImportFault.At reason file x.span }
{
    let span = members[file].file.imports.as_slice()[n].span;
    ImportFault::At { reason, file, span }
}

// Looks for an import of a file whose path no file has.
fn check_missing_in<'a>(
    members: &'a [ParsedFile],
    paths: &Paths<'a>,
    file: usize,
) -> Result<(), ImportFault>
    requires here { file < length members.now }
    requires paths { KnowsPaths members.now paths.now }
    ensures ok { OnOk result (HasNoFaultOfAt members.now ImportReason.Missing file) }
    ensures fault { IfErr result (IsFirstFaultOfFile members.now ImportReason.Missing file) }
{
    let imports = members[file].file.imports.as_slice();
    for n in 0..imports.len() {
        if paths.file_index(imports[n].path.as_slice()).is_none() {
            return Err(fault_at(members, ImportReason::Missing, file, n));
        }
    }
    Ok(())
}

// Looks for an import of the set whose path no file has.
pub(crate) fn check_missing<'a>(
    members: &'a [ParsedFile],
    paths: &Paths<'a>,
) -> Result<(), ImportFault>
    requires { KnowsPaths members.now paths.now }
    ensures ok { OnOk result (HasNoFaultOf members.now ImportReason.Missing) }
    ensures fault { IfErr result (IsFaultOf members.now) }
{
    for file in 0..members.len() {
        check_missing_in(members, paths, file)?;
    }
    Ok(())
}

// True if one of some imports leads to a file.
fn leads_to(links: &[ImportLink], file: usize) -> bool
    ensures { IsTrue result ↔ IsLinked links.now file }
{
    links.iter().any(|link| link.file == file)
}

// The links of a file's imports, or the fault of the first repeated one.
fn links_of<'a>(
    alloc: Global,
    members: &'a [ParsedFile],
    paths: &Paths<'a>,
    file: usize,
) -> Result<ImportLinks, ImportFault>
    requires here { file < length members.now }
    requires paths { KnowsPaths members.now paths.now }
    requires own { HaveDistinctPaths members.now }
    requires known { HasNoFaultOfAt members.now ImportReason.Missing file }
    ensures links { IfOk result (AreLinks members.now file) }
    ensures once { OnOk result (HasNoFaultOfAt members.now ImportReason.Twice file) }
    ensures fault { IfErr result (IsFirstOrMemory members.now ImportReason.Twice file) }
{
    let imports = members[file].file.imports.as_slice();
    let mut links = ImportLinks::new(alloc);
    for n in 0..imports.len() {
        let import = &imports[n];
        let to = paths.file_index(import.path.as_slice()).unwrap();
        if leads_to(links.as_slice(), to) {
            return Err(fault_at(members, ImportReason::Twice, file, n));
        }
        links.push(ImportLink {
            file: to,
            public: import.public,
        })?;
    }
    Ok(links)
}

// The links of the imports of each file of a set. Clauses see the set.
#[derive(Drop)]
pub(crate) struct Graph<'a> {
    members: &'a [ParsedFile],
    links: Vec<ImportLinks>,
}

impl<'a> Model for Graph<'a> {
    ghost use Rattle.std.specs.Prelude.{List};
    ghost use Rattle.proto_set.specs.declared.set.ParsedFile.{ParsedFile};

    ghost Value = { List ParsedFile };

    ghost use Rattle.proto_set.specs.Linking.{AreOf};

    ghost view = { λ g. g.members.now };

    ghost invariant = { AreOf };
}

impl<'a> Graph<'a> {
    // The links of a set, or the fault of the first import that is repeated in its file.
    pub(crate) fn new(
        alloc: Global,
        members: &'a [ParsedFile],
        paths: &Paths<'a>,
    ) -> Result<Graph<'a>, ImportFault>
        requires paths { KnowsPaths members.now paths.now }
        requires own { HaveDistinctPaths members.now }
        requires known { HasNoFaultOf members.now ImportReason.Missing }
        ensures graph { IfOk result (λ g. g ≡ members.now) }
        ensures led { OnOk result (AllResolve members.now) }
        ensures once { OnOk result (HasNoFaultOf members.now ImportReason.Twice) }
        ensures fault { IfErr result (IsFaultOf members.now) }
    {
        let mut links = Vec::with_capacity(alloc, members.len())?;
        for file in 0..members.len() {
            let here = links_of(alloc, members, paths, file)?;
            links.push(here)?;
        }
        Ok(Graph { members, links })
    }

    // The number of files.
    pub(crate) fn len(&self) -> usize
        ensures { result ≡ length self.now }
    {
        self.links.len()
    }

    // The links of a file's imports.
    pub(crate) fn links(&self, file: usize) -> &[ImportLink]
        requires { file < length self.now }
        ensures { AreLinks self.now file result.now }
    {
        self.links[file].as_slice()
    }
}
