//! Which message or enum a reference names.

ghost use Rattle.std.specs.Prelude.{◌≡◌, ◌≢◌, ◌<◌, ◌^◌, ◌↔◌, ◌++◌, ◌∷◌, [], ℕ, List, IfOk, IsTrue, MatchOption, length};
ghost use Rattle.mrpc_table.specs.Names.{parts_of};
ghost use Rattle.proto_ast.specs.Joined.{package_at};
ghost use Rattle.proto_ast.specs.declared.joined.Enclosing.{Enclosing};
ghost use Rattle.schema_symbols.specs.Scopes.{IsScope, IsPackagePrefix, IsVisibleName, IsDecisiveScope};
ghost use Rattle.schema_symbols.specs.Numbers.{AreWellNested, IsEnclosing, IsScopeNumber, IsFirstSymbol, scope_count};
ghost use Rattle.schema_symbols.specs.Lookups.{IsLookupResult, HasNoType};
ghost use Rattle.schema_symbols.specs.Deepest.{IsDeepest, IsNextPartAt, IsDeepestBusy, earlier_of, larger_of};

use crate::below::all_busy_prefixes;
use crate::parts::{after_dot, first_part};
use crate::scope_indices::ScopeIndices;
use crate::symbol::{DeclaredType, Symbol};
use crate::types::{DeclaredTypes, add_enums, add_messages};
use mrpc_table::{Memory, split_once};
use proto_ast::{Enclosing, Joined};
use std::alloc::Global;
use std::marker::Model;

/// A symbol table: the types of files that are resolved together, by scope and name. Clauses see the files.
#[derive(Drop)]
pub struct SymbolTable<'a> {
    places: ScopeIndices<'a>,
    types: DeclaredTypes<'a>,
    busy: Vec<Vec<usize>>,
}

impl<'a> Model for SymbolTable<'a> {
    ghost use Rattle.proto_ast.specs.Joined.{Joined};

    ghost Value = { Joined };

    ghost use Rattle.schema_symbols.specs.SymbolTableKept.{AreScopes};

    ghost view = { λ s. s.places };

    ghost invariant = { AreScopes };
}

// The one of two declarations that starts first.
fn first_of(known: Option<DeclaredType>, declared: DeclaredType) -> DeclaredType
    ensures { result ≡ earlier_of known declared }
{
    match known {
        Some(other) if other.start <= declared.start => other,
        _ => declared,
    }
}

// The larger of two optional numbers, or the one that is present.
fn larger(left: Option<usize>, right: Option<usize>) -> Option<usize>
    ensures { result ≡ larger_of left right }
{
    match (left, right) {
        (Some(n), Some(m)) => Some(n.max(m)),
        (Some(n), None) => Some(n),
        (None, other) => other,
    }
}

impl<'a> SymbolTable<'a> {
    /// Makes the symbol table of files. Takes time by their declarations and the logarithm of the number of their
    /// types.
    pub fn new(alloc: Global, files: &Joined<'a>) -> Result<SymbolTable<'a>, Memory>
        requires { AreWellNested files.now }
        ensures { IfOk result (λ s. s ≡ files.now) }
    {
        let places = ScopeIndices::new(alloc, files)?;
        let mut types = DeclaredTypes::new(alloc);
        add_messages(alloc, &places, &mut types)?;
        add_enums(alloc, &places, &mut types)?;
        let busy = all_busy_prefixes(alloc, &places)?;
        Ok(SymbolTable {
            places,
            types,
            busy,
        })
    }

    /// The number of scope numbers.
    pub fn count(&self) -> usize
        ensures is { result ≡ scope_count self.now }
        ensures few { result < 2 ^ 62 }
    {
        self.places.count()
    }

    /// The number of the scope inside a file or a message.
    pub fn number(&self, home: Enclosing) -> usize
        requires { IsEnclosing self.now home }
        ensures { (scope : List (List ℕ)) → IsScope self.now home scope → IsScopeNumber self.now scope result }
    {
        self.places.number(home)
    }

    /// True if a name in the scope inside a file or a message is a package's name or a prefix of one.
    pub fn is_package(&self, home: Enclosing, name: &'a [u8]) -> bool
        requires { IsEnclosing self.now home }
        ensures { (scope : List (List ℕ)) → IsScope self.now home scope
            → IsTrue result ↔ IsPackagePrefix self.now (scope ++ name.now ∷ []) }
    {
        match self.places.inner(self.places.number(home), name) {
            Some(scope) => self.places.is_prefix(scope),
            None => false,
        }
    }

    /// Returns what a reference of a file names in the scope inside a file or a message: the first message or enum of
    /// its full name among those visible to the file.
    pub fn find(&self, file: usize, home: Enclosing, name: &'a [u8]) -> Option<Symbol>
        requires file { file < length self.now.heads }
        requires home { IsEnclosing self.now home }
        ensures { (scope : List (List ℕ)) → IsScope self.now home scope
            → IsLookupResult self.now file scope name.now result }
    {
        match after_dot(name) {
            Some(full) => self.find_in(file, 0, full),
            None => self.find_outward(file, home, name),
        }
    }

    // Looks a name up from a scope outward. The innermost scope that has the first part decides.
    fn find_outward(&self, file: usize, home: Enclosing, name: &'a [u8]) -> Option<Symbol>
        requires file { file < length self.now.heads }
        requires home { IsEnclosing self.now home }
        requires relative { (rest : List ℕ) → name.now ≢ 46 ∷ rest }
        ensures { (scope : List (List ℕ)) → IsScope self.now home scope
            → IsLookupResult self.now file scope name.now result }
    {
        let part = first_part(name);
        if part.is_empty() {
            return None;
        }
        match self.decisive_scope(file, home, part) {
            Some(scope) => self.find_in(file, scope, name),
            None => None,
        }
    }

    // The number of the innermost scope, from this one outward, that has a type or a package of a name.
    fn decisive_scope(&self, file: usize, home: Enclosing, name: &'a [u8]) -> Option<usize>
        requires file { file < length self.now.heads }
        requires home { IsEnclosing self.now home }
        ensures { (scope : List (List ℕ)) → IsScope self.now home scope
            → MatchOption result ((decisive : List (List ℕ)) → IsDecisiveScope self.now file name.now scope decisive → ⊥)
            (λ k. (decisive : List (List ℕ)) × IsScopeNumber self.now decisive k
            × IsDecisiveScope self.now file name.now scope decisive) }
    {
        let mut place = home;
        'outward: loop {
            let i = match place {
                Enclosing::File(its_file) => return self.decisive_prefix(file, its_file, name),
                Enclosing::Message(i) => i,
            };
            let scope = self.places.number(place);
            if self.is_visible(file, scope, name) {
                return Some(scope);
            }
            place = self.places.messages()[i].enclosing();
        }
    }

    // The number of the longest prefix of a package that has a type or a package of a name.
    fn decisive_prefix(&self, file: usize, its_file: usize, name: &'a [u8]) -> Option<usize>
        requires file { file < length self.now.heads }
        requires its_file { its_file < length self.now.heads }
        ensures { MatchOption result ((decisive : List (List ℕ))
            → IsDecisiveScope self.now file name.now (package_at self.now its_file) decisive → ⊥)
            (λ k. (decisive : List (List ℕ)) × IsScopeNumber self.now decisive k
            × IsDecisiveScope self.now file name.now (package_at self.now its_file) decisive) }
    {
        let own = self.next_part_prefix(file, its_file, name);
        match larger(own, self.busy_prefix(file, its_file, name)) {
            Some(depth) => Some(self.places.prefix(its_file, depth)),
            None => None,
        }
    }

    // The longest prefix of a package whose next part is a name. Found at once if the file sees the package.
    fn next_part_prefix(&self, file: usize, its_file: usize, name: &'a [u8]) -> Option<usize>
        requires file { file < length self.now.heads }
        requires its_file { its_file < length self.now.heads }
        ensures { IsDeepest (IsNextPartAt self.now file its_file name.now) result }
    {
        let Some(last) = self.places.last_place(its_file, name) else {
            return None;
        };
        for n in (0..last + 1).rev() {
            if self.places.part(its_file, n) != name {
                continue;
            }
            let front = self.places.prefix(its_file, n + 1);
            if self.places.sees_prefix(file, front) {
                return Some(n);
            }
        }
        None
    }

    // The longest prefix of a package that has a type or a package of a name, among those below which there may be
    // more than the next part.
    fn busy_prefix(&self, file: usize, its_file: usize, name: &'a [u8]) -> Option<usize>
        requires file { file < length self.now.heads }
        requires its_file { its_file < length self.now.heads }
        ensures { IsDeepestBusy self.now file its_file name.now result }
    {
        for n in self.busy[its_file].as_slice() {
            let scope = self.places.prefix(its_file, *n);
            if self.is_visible(file, scope, name) {
                return Some(*n);
            }
        }
        None
    }

    // True if a name in a scope is that of a type or a package visible to a file.
    fn is_visible(&self, file: usize, scope: usize, name: &'a [u8]) -> bool
        requires { file < length self.now.heads }
        ensures { (outer : List (List ℕ)) → IsScopeNumber self.now outer scope
            → IsTrue result ↔ IsVisibleName self.now file (outer ++ name.now ∷ []) }
    {
        if self.first_type(file, scope, name).is_some() {
            return true;
        }
        match self.places.inner(scope, name) {
            Some(inner) => self.places.sees_prefix(file, inner),
            None => false,
        }
    }

    // The first type of a name in a scope among those visible to a file.
    fn first_type(&self, file: usize, scope: usize, name: &'a [u8]) -> Option<Symbol>
        requires { file < length self.now.heads }
        ensures { (outer : List (List ℕ)) → IsScopeNumber self.now outer scope
            → MatchOption result (HasNoType self.now file (outer ++ name.now ∷ []))
            (λ named. IsFirstSymbol self.now file named (outer ++ name.now ∷ [])) }
    {
        let mut first: Option<DeclaredType> = None;
        for declared in self.types.get(scope, name) {
            if self.places.sees(file, declared.file) {
                first = Some(first_of(first, *declared));
            }
        }
        match first {
            Some(declared) => Some(declared.named),
            None => None,
        }
    }

    // The first type whose full name is a name in a scope, among those visible to a file.
    fn find_in(&self, file: usize, start: usize, name: &'a [u8]) -> Option<Symbol>
        requires { file < length self.now.heads }
        ensures { (scope : List (List ℕ)) → IsScopeNumber self.now scope start
            → MatchOption result (HasNoType self.now file (scope ++ parts_of name.now))
            (λ named. IsFirstSymbol self.now file named (scope ++ parts_of name.now)) }
    {
        let mut scope = start;
        let mut rest = name;
        while let Some((part, others)) = split_once(rest, b'.') {
            let Some(inner) = self.places.inner(scope, part) else {
                return None;
            };
            scope = inner;
            rest = others;
        }
        self.first_type(file, scope, rest)
    }
}
