//! Duplicate names in scopes.

ghost use Rattle.std.specs.Prelude.{◌≡◌, ◌<◌, ◌+◌, ◌⊎◌, ◌↔◌, ◌++◌, ◌∷◌, [], ℕ, List, Option, Some, None, slice_get, length, map, true, IfOk, OnOk};
ghost use Rattle.proto_ast.specs.Together.{IsFormed};
ghost use Rattle.proto_ast.specs.Joined.{enclosing_of, enclosing_of_enum};
ghost use Rattle.proto_ast.specs.declared.joined.Enclosing.TheVariants as home;
ghost use Rattle.schema_symbols.specs.Numbers.{AreWellNested, IsEnclosing, scope_count};
ghost use Rattle.schema_validation.specs.Recording.{HasRecorded, IsDuplicateViolation, IsOfAny, IsOfElement};
ghost use Rattle.schema_validation.specs.Entries.{NameEntry, name_entry, name_entry_of, entries_of, HasNumber, HaveNumbers, HaveOwnNumbers, IsEntryOfMessage, IsEntryOfEnum, IsEntryOfService, IsEntryOfAny, HasAddedEntries, IsEarlierThan, start_in, AreStarts, IsRedeclared, IsPackageNamed};

use crate::first::FirstViolation;
use crate::reason::ResolveReason;
use mrpc_table::Memory;
use proto_ast::{
    Enclosing, EnumDecl, FieldDecl, Joined, MessageDecl, RpcDecl, ServiceDecl, Span, ValueDecl,
    Word,
};
use schema_symbols::{SymbolTable, scope_is_determined, scope_number_is_unique};
use std::alloc::Global;
use std::collections::BTreeMap;

// A name that is declared in a scope.
#[derive(Clone, Copy)]
struct DeclaredName<'a> {
    scope: usize,
    name: &'a [u8],
    span: Span,
}

fn name_in<'a>(scope: usize, word: &'a Word) -> DeclaredName<'a>
    ensures { name_entry_of result ≡ name_entry scope word.now }
{
    DeclaredName {
        scope,
        name: word.name.as_slice(),
        span: word.span,
    }
}

// The number of the scope inside a file or a message.
fn number_in<'a>(scopes: &SymbolTable<'a>, home: Enclosing) -> usize
    requires behind { AreWellNested scopes.now }
    requires place { IsEnclosing scopes.now home }
    ensures has { HasNumber scopes.now home result }
    ensures one { (k : ℕ) → HasNumber scopes.now home k → k ≡ result }
{
    scope_is_determined();
    scope_number_is_unique();
    scopes.number(home)
}

fn add_fields<'a>(
    scope: usize,
    fields: &'a [FieldDecl],
    names: &mut Vec<DeclaredName<'a>>,
) -> Result<(), Memory>
    ensures { OnOk result (entries_of names.new.items
        ≡ entries_of names.old.items ++ map (λ f. name_entry scope f.name) fields.now) }
{
    for field in fields {
        names.push(name_in(scope, &field.name))?;
    }
    Ok(())
}

fn add_oneofs<'a>(
    scope: usize,
    oneofs: &'a [Word],
    names: &mut Vec<DeclaredName<'a>>,
) -> Result<(), Memory>
    ensures { OnOk result (entries_of names.new.items ≡ entries_of names.old.items ++ map (name_entry scope) oneofs.now) }
{
    for oneof in oneofs {
        names.push(name_in(scope, oneof))?;
    }
    Ok(())
}

fn add_values<'a>(
    scope: usize,
    values: &'a [ValueDecl],
    names: &mut Vec<DeclaredName<'a>>,
) -> Result<(), Memory>
    ensures { OnOk result (entries_of names.new.items
        ≡ entries_of names.old.items ++ map (λ v. name_entry scope v.name) values.now) }
{
    for value in values {
        names.push(name_in(scope, &value.name))?;
    }
    Ok(())
}

fn add_rpcs<'a>(
    scope: usize,
    rpcs: &'a [RpcDecl],
    names: &mut Vec<DeclaredName<'a>>,
) -> Result<(), Memory>
    ensures { OnOk result (entries_of names.new.items
        ≡ entries_of names.old.items ++ map (λ r. name_entry scope r.name) rpcs.now) }
{
    for rpc in rpcs {
        names.push(name_in(scope, &rpc.name))?;
    }
    Ok(())
}

fn add_message<'a>(
    scopes: &SymbolTable<'a>,
    i: usize,
    message: &'a MessageDecl,
    names: &mut Vec<DeclaredName<'a>>,
) -> Result<(), Memory>
    requires behind { AreWellNested scopes.now }
    requires within { i < length scopes.now.messages }
    requires home { IsEnclosing scopes.now (enclosing_of message.now) }
    ensures outer { OnOk result ((k : ℕ) × HasNumber scopes.now (enclosing_of message.now) k) }
    ensures own { OnOk result ((k : ℕ) × HasNumber scopes.now (home.Message i) k) }
    ensures names { OnOk result (HasAddedEntries (IsEntryOfMessage scopes.now i message.now)
        (entries_of names.old.items) (entries_of names.new.items)) }
{
    let outer = number_in(scopes, message.enclosing());
    names.push(name_in(outer, &message.name))?;
    let inner = number_in(scopes, Enclosing::Message(i));
    add_fields(inner, message.fields.as_slice(), names)?;
    add_oneofs(inner, message.oneofs.as_slice(), names)
}

fn add_messages<'a>(
    files: &Joined<'a>,
    scopes: &SymbolTable<'a>,
    names: &mut Vec<DeclaredName<'a>>,
) -> Result<(), Memory>
    requires behind { AreWellNested files.now }
    requires scopes { scopes.now ≡ files.now }
    ensures outer { OnOk result (HaveNumbers files.now (length files.now.messages) files.now.messages enclosing_of) }
    ensures own { OnOk result (HaveOwnNumbers files.now (length files.now.messages)) }
    ensures names { OnOk result (HasAddedEntries (IsEntryOfAny files.now.messages (IsEntryOfMessage files.now))
        (entries_of names.old.items) (entries_of names.new.items)) }
{
    let messages = files.messages();
    for i in 0..messages.len() {
        add_message(scopes, i, &messages[i], names)?;
    }
    Ok(())
}

fn add_enum<'a>(
    scopes: &SymbolTable<'a>,
    choices: &'a EnumDecl,
    names: &mut Vec<DeclaredName<'a>>,
) -> Result<(), Memory>
    requires behind { AreWellNested scopes.now }
    requires home { IsEnclosing scopes.now (enclosing_of_enum choices.now) }
    ensures number { OnOk result ((k : ℕ) × HasNumber scopes.now (enclosing_of_enum choices.now) k) }
    ensures names { OnOk result ((i : ℕ) → HasAddedEntries (IsEntryOfEnum scopes.now i choices.now)
        (entries_of names.old.items) (entries_of names.new.items)) }
{
    let scope = number_in(scopes, choices.enclosing());
    names.push(name_in(scope, &choices.name))?;
    add_values(scope, choices.values.as_slice(), names)
}

fn add_enums<'a>(
    files: &Joined<'a>,
    scopes: &SymbolTable<'a>,
    names: &mut Vec<DeclaredName<'a>>,
) -> Result<(), Memory>
    requires behind { AreWellNested files.now }
    requires scopes { scopes.now ≡ files.now }
    ensures numbers { OnOk result (HaveNumbers files.now (length files.now.enums) files.now.enums enclosing_of_enum) }
    ensures names { OnOk result (HasAddedEntries (IsEntryOfAny files.now.enums (IsEntryOfEnum files.now))
        (entries_of names.old.items) (entries_of names.new.items)) }
{
    let enums = files.enums();
    for i in 0..enums.len() {
        add_enum(scopes, &enums[i], names)?;
    }
    Ok(())
}

// Adds a service. The scope of its methods has a number after those of all other scopes.
fn add_service<'a>(
    scopes: &SymbolTable<'a>,
    scope: usize,
    service: &'a ServiceDecl,
    names: &mut Vec<DeclaredName<'a>>,
) -> Result<(), Memory>
    requires behind { AreWellNested scopes.now }
    requires home { IsEnclosing scopes.now (home.File service.now.file) }
    ensures number { OnOk result ((k : ℕ) × HasNumber scopes.now (home.File service.now.file) k) }
    ensures names { OnOk result ((i : ℕ) → scope ≡ scope_count scopes.now + i
        → HasAddedEntries (IsEntryOfService scopes.now i service.now) (entries_of names.old.items) (entries_of names.new.items)) }
{
    let outer = number_in(scopes, Enclosing::File(service.file));
    names.push(name_in(outer, &service.name))?;
    add_rpcs(scope, service.rpcs.as_slice(), names)
}

fn add_services<'a>(
    files: &Joined<'a>,
    scopes: &SymbolTable<'a>,
    names: &mut Vec<DeclaredName<'a>>,
) -> Result<(), Memory>
    requires formed { IsFormed files.now }
    requires scopes { scopes.now ≡ files.now }
    ensures numbers { OnOk result (HaveNumbers files.now (length files.now.services) files.now.services
        (λ s. home.File s.file)) }
    ensures names { OnOk result (HasAddedEntries (IsEntryOfAny files.now.services (IsEntryOfService files.now))
        (entries_of names.old.items) (entries_of names.new.items)) }
{
    let services = files.services();
    for i in 0..services.len() {
        add_service(scopes, scopes.count() + i, &services[i], names)?;
    }
    Ok(())
}

// The offset of the first occurrence of each name in each scope.
#[derive(Drop)]
struct Starts<'a> {
    by: BTreeMap<(usize, &'a [u8]), usize>,
}

// The lesser of two offsets, of which the first may be unknown.
fn lesser(known: Option<usize>, start: usize) -> usize
    ensures { (place : ℕ) → (result < place) ↔ (IsEarlierThan known place ⊎ (start < place)) }
{
    known.map_or(start, |first| first.min(start))
}

impl<'a> Starts<'a> {
    fn new(alloc: Global, names: &[DeclaredName<'a>]) -> Result<Starts<'a>, Memory>
        ensures { IfOk result (AreStarts (entries_of names.now)) }
    {
        let mut starts = Starts {
            by: BTreeMap::new(alloc),
        };
        for i in 0..names.len() {
            starts.add(&names[i])?;
        }
        Ok(starts)
    }

    fn get(&self, name: &DeclaredName<'a>) -> Option<usize>
        ensures { result ≡ start_in self.now name.now.scope name.now.name.now }
    {
        self.by.get(&(name.scope, name.name)).copied()
    }

    fn add(&mut self, name: &DeclaredName<'a>) -> Result<(), Memory>
        ensures { OnOk result ((es : List NameEntry) → AreStarts es self.old
            → AreStarts (es ++ name_entry_of name.now ∷ []) self.new) }
    {
        let start = lesser(self.get(name), name.span.start);
        self.by.insert((name.scope, name.name), start)?;
        Ok(())
    }

    // True if the name also occurs earlier in its scope.
    fn is_redeclared(&self, name: &DeclaredName<'a>) -> bool
        ensures { (result ≡ true) ↔ IsEarlierThan (start_in self.now name.now.scope name.now.name.now) name.now.span.start }
    {
        match self.get(name) {
            Some(first) => first < name.span.start,
            None => false,
        }
    }
}

fn note_later<'a>(names: &[DeclaredName<'a>], starts: &Starts<'a>, first: &mut FirstViolation)
    requires { AreStarts (entries_of names.now) starts.now }
    ensures { HasRecorded (IsOfAny (IsOfElement (entries_of names.now) (IsRedeclared (entries_of names.now)))) first.old first.new }
{
    for i in 0..names.len() {
        let is_later = starts.is_redeclared(&names[i]);
        first.note_if(is_later, ResolveReason::DuplicateName, names[i].span);
    }
}

// Records a name that is a package's name in its scope, or a prefix of one.
fn note_package_name<'a>(
    scopes: &SymbolTable<'a>,
    home: Enclosing,
    word: &'a Word,
    first: &mut FirstViolation,
)
    requires behind { AreWellNested scopes.now }
    requires place { IsEnclosing scopes.now home }
    ensures { HasRecorded (IsPackageNamed scopes.now home word.now) first.old first.new }
{
    scope_is_determined();
    let is_package = scopes.is_package(home, word.name.as_slice());
    first.note_if(is_package, ResolveReason::DuplicateName, word.span);
}

fn note_message_packages<'a>(
    files: &Joined<'a>,
    scopes: &SymbolTable<'a>,
    first: &mut FirstViolation,
)
    requires formed { IsFormed files.now }
    requires scopes { scopes.now ≡ files.now }
    ensures { HasRecorded (IsOfAny (IsOfElement files.now.messages (λ i m. IsPackageNamed files.now (enclosing_of m) m.name)))
        first.old first.new }
{
    let messages = files.messages();
    for i in 0..messages.len() {
        let message = &messages[i];
        note_package_name(scopes, message.enclosing(), &message.name, first);
    }
}

fn note_enum_packages<'a>(files: &Joined<'a>, scopes: &SymbolTable<'a>, first: &mut FirstViolation)
    requires formed { IsFormed files.now }
    requires scopes { scopes.now ≡ files.now }
    ensures { HasRecorded (IsOfAny (IsOfElement files.now.enums (λ i e. IsPackageNamed files.now (enclosing_of_enum e) e.name)))
        first.old first.new }
{
    let enums = files.enums();
    for i in 0..enums.len() {
        let choices = &enums[i];
        note_package_name(scopes, choices.enclosing(), &choices.name, first);
    }
}

// Records each name that is declared earlier in its scope, and each type with the name of a package.
pub(crate) fn note_duplicates<'a>(
    alloc: Global,
    files: &Joined<'a>,
    scopes: &SymbolTable<'a>,
    first: &mut FirstViolation,
) -> Result<(), Memory>
    requires formed { IsFormed files.now }
    requires scopes { scopes.now ≡ files.now }
    ensures { OnOk result (HasRecorded (IsDuplicateViolation files.now) first.old first.new) }
{
    scope_is_determined();
    scope_number_is_unique();
    let mut names = Vec::new(alloc);
    add_messages(files, scopes, &mut names)?;
    add_enums(files, scopes, &mut names)?;
    add_services(files, scopes, &mut names)?;
    let starts = Starts::new(alloc, &names)?;
    note_later(&names, &starts, first);
    note_message_packages(files, scopes, first);
    note_enum_packages(files, scopes, first);
    Ok(())
}
