//! Scopes by their indices and numbers.

ghost use Rattle.std.specs.Prelude.{◌≡◌, ◌≢◌, ◌<◌, ◌≤◌, ◌^◌, ◌↔◌, ◌++◌, ◌∷◌, [], ℕ, List, Some, IfOk, IfSome, IsTrue, MatchOption, length, take, slice_get};
ghost use Rattle.proto_ast.specs.Joined.{CanSee, package_at};
ghost use Rattle.proto_ast.specs.declared.joined.Enclosing.{Enclosing};
ghost use Rattle.schema_symbols.specs.Scopes.{IsScope, IsPackagePrefix};
ghost use Rattle.schema_symbols.specs.Numbers.{AreWellNested, IsEnclosing, IsListedScope, IsScopeNumber, scope_count};
ghost use Rattle.schema_symbols.specs.Parts.{IsLastIndex};
ghost use Rattle.schema_symbols.specs.PackagePrefixes.{HasPackagePrefix, CanSeePrefix};

use crate::numbering::{Numbering, Package, number_in, number_messages, number_packages};
use mrpc_table::Memory;
use proto_ast::{Enclosing, EnumDecl, Head, Joined, MessageDecl};
use std::alloc::Global;
use std::marker::Model;

// More scopes than fit in memory.
const TOO_MANY: usize = 1 << 62;

// The scopes of files that are resolved together. Clauses see the files.
#[derive(Drop)]
pub(crate) struct ScopeIndices<'a> {
    files: Joined<'a>,
    numbering: Numbering<'a>,
    // For each prefix, its number of parts.
    depths: Vec<usize>,
    packages: Vec<Package<'a>>,
}

impl<'a> Model for ScopeIndices<'a> {
    ghost use Rattle.proto_ast.specs.Joined.{Joined};

    ghost Value = { Joined };

    ghost use Rattle.schema_symbols.specs.ScopeIndicesKept.{AreScopeIndices};

    ghost view = { λ p. p.files };

    ghost invariant = { AreScopeIndices };
}

// Another view of the same files.
fn same_files<'a>(files: &Joined<'a>) -> Joined<'a>
    ensures { result ≡ files.now }
{
    Joined::new(
        files.heads(),
        files.messages(),
        files.enums(),
        files.services(),
    )
}

impl<'a> ScopeIndices<'a> {
    // The scopes of files.
    pub(crate) fn new(alloc: Global, files: &Joined<'a>) -> Result<ScopeIndices<'a>, Memory>
        requires { AreWellNested files.now }
        ensures { IfOk result (λ p. p ≡ files.now) }
    {
        let mut numbering = Numbering::new(alloc);
        let mut depths = Vec::new(alloc);
        let packages = number_packages(alloc, files, &mut numbering, &mut depths)?;
        number_messages(files, &packages, &mut numbering)?;
        if numbering.numbers.len() >= TOO_MANY {
            return Err(Memory);
        }
        Ok(ScopeIndices {
            files: same_files(files),
            numbering,
            depths,
            packages,
        })
    }

    // The heads of the files.
    pub(crate) fn heads(&self) -> &'a [Head]
        ensures { result.now ≡ self.now.heads }
    {
        self.files.heads()
    }

    // The messages of all files.
    pub(crate) fn messages(&self) -> &'a [MessageDecl]
        ensures { result.now ≡ self.now.messages }
    {
        self.files.messages()
    }

    // The enums of all files.
    pub(crate) fn enums(&self) -> &'a [EnumDecl]
        ensures { result.now ≡ self.now.enums }
    {
        self.files.enums()
    }

    // The number of scope numbers.
    pub(crate) fn count(&self) -> usize
        ensures is { result ≡ scope_count self.now }
        ensures few { result < 2 ^ 62 }
    {
        self.numbering.numbers.len()
    }

    // The number of the scope inside a file or a message.
    pub(crate) fn number(&self, home: Enclosing) -> usize
        requires { IsEnclosing self.now home }
        ensures number { (scope : List (List ℕ)) → IsScope self.now home scope → IsScopeNumber self.now scope result }
        ensures small { result < scope_count self.now }
    {
        number_in(
            &self.packages,
            self.depths.len(),
            &self.numbering.numbers,
            home,
        )
    }

    // The number of the scope of a name in a scope.
    pub(crate) fn inner(&self, scope: usize, name: &'a [u8]) -> Option<usize>
        ensures { (outer : List (List ℕ)) → IsScopeNumber self.now outer scope
            → MatchOption result ((place : ℕ) → IsListedScope self.now place (outer ++ name.now ∷ []) → ⊥)
            (IsScopeNumber self.now (outer ++ name.now ∷ [])) }
    {
        self.numbering.inner.get(scope, name).copied()
    }

    // The number of parts of a file's package.
    pub(crate) fn depth(&self, file: usize) -> usize
        requires { file < length self.now.heads }
        ensures is { result ≡ length (package_at self.now file) }
        ensures few { result < 2 ^ 62 }
    {
        self.packages[file].parts.len()
    }

    // A part of the package of a file.
    pub(crate) fn part(&self, file: usize, place: usize) -> &'a [u8]
        requires file { file < length self.now.heads }
        requires place { place < length (package_at self.now file) }
        ensures { slice_get (package_at self.now file) place ≡ Some result.now }
    {
        self.packages[file].parts[place]
    }

    // The last index at which the package of a file has a part.
    pub(crate) fn last_place(&self, file: usize, part: &'a [u8]) -> Option<usize>
        requires { file < length self.now.heads }
        ensures last { MatchOption result ((i : ℕ) → slice_get (package_at self.now file) i ≢ Some part.now)
            (IsLastIndex (package_at self.now file) part.now) }
        ensures few { IfSome result (λ i. i < 2 ^ 62) }
    {
        self.packages[file].last_places.get(&part).copied()
    }

    // The number of the prefix of a file's package with this many parts.
    pub(crate) fn prefix(&self, file: usize, depth: usize) -> usize
        requires file { file < length self.now.heads }
        requires depth { depth ≤ length (package_at self.now file) }
        ensures number { IsScopeNumber self.now (take depth (package_at self.now file)) result }
        ensures small { result < scope_count self.now }
    {
        self.numbering.numbers[self.packages[file].start + depth]
    }

    // True if a scope is that of a package or of a prefix of one.
    pub(crate) fn is_prefix(&self, scope: usize) -> bool
        ensures { (full : List (List ℕ)) → 0 < length full → IsScopeNumber self.now full scope
            → IsTrue result ↔ IsPackagePrefix self.now full }
    {
        scope < self.depths.len()
    }

    // True if the package of a file starts with the scope of this number, which has this many parts.
    fn has_prefix(&self, file: usize, depth: usize, scope: usize) -> bool
        ensures { (full : List (List ℕ)) → 0 < length full → length full ≡ depth → IsScopeNumber self.now full scope
            → IsTrue result ↔ HasPackagePrefix self.now file full }
    {
        if file >= self.packages.len() {
            return false;
        }
        let package = &self.packages[file];
        depth <= package.parts.len() && self.numbering.numbers[package.start + depth] == scope
    }

    // True if a file sees a file whose package starts with a scope.
    pub(crate) fn sees_prefix(&self, file: usize, scope: usize) -> bool
        requires { file < length self.now.heads }
        ensures { (full : List (List ℕ)) → 0 < length full → IsScopeNumber self.now full scope
            → IsTrue result ↔ CanSeePrefix self.now file full }
    {
        if scope >= self.depths.len() {
            return false;
        }
        let depth = self.depths[scope];
        for other in self.files.heads()[file].sees.as_slice() {
            if self.has_prefix(*other, depth, scope) {
                return true;
            }
        }
        false
    }

    // True if the references of one file may name types of the other.
    pub(crate) fn sees(&self, file: usize, other: usize) -> bool
        requires { file < length self.now.heads }
        ensures { IsTrue result ↔ CanSee self.now file other }
    {
        self.files.heads()[file].sees.as_slice().contains(&other)
    }
}
