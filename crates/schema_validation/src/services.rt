//! Violations of services and their methods, and of packages.

ghost use Rattle.std.specs.Prelude.{◌≡◌, ◌<◌, ℕ, List, length, IfSome, IfNone};
ghost use Rattle.proto_ast.specs.Together.{IsFormed, IsOrdered};
ghost use Rattle.proto_ast.specs.Joined.{package_at};
ghost use Rattle.schema_symbols.specs.Scopes.{a_message, IsReferenceTo};
ghost use Rattle.schema_symbols.specs.Numbers.{IsFirstSymbol};
ghost use Rattle.schema_symbols.specs.declared.symbol.Symbol.TheVariants as named;
ghost use Rattle.schema_validation.specs.Methods.{rpcs_of};
ghost use Rattle.schema_validation.specs.Members.{IsNoMessage, IsMethodViolation};
ghost use Rattle.schema_validation.specs.Recording.{HasRecorded, IsOfAny, IsOfElement, IsMethodViolationAt, IsLongService, IsUnknownMessage, IsPackageViolationAt, IsPackageViolation};

use crate::first::FirstViolation;
use crate::name_set::note_long;
use crate::reason::ResolveReason;
use mrpc_table::{MAX_METHODS, is_short_full};
use proto_ast::{Enclosing, Head, Joined, RpcDecl, Word};
use schema_symbols::{Symbol, SymbolTable, reference_is_unique};

/// Returns the message that the type of a file's rpc names; none if it names a scalar, an enum or nothing.
pub fn message_of<'a>(scopes: &SymbolTable<'a>, file: usize, word: &'a Word) -> Option<usize>
    requires { file < length scopes.now.heads }
    ensures some { IfSome result (λ i. (full : List (List ℕ))
        × IsReferenceTo scopes.now file (package_at scopes.now file) word.now.name a_message full
        × IsFirstSymbol scopes.now file (named.Message i) full) }
    ensures none { IsOrdered scopes.now
        → IfNone result (IsNoMessage scopes.now file (package_at scopes.now file) word.now.name) }
{
    reference_is_unique();
    match scopes.find(file, Enclosing::File(file), word.name.as_slice()) {
        Some(Symbol::Message(place)) => Some(place),
        Some(Symbol::Enum(_)) => None,
        None => None,
    }
}

fn note_message<'a>(
    scopes: &SymbolTable<'a>,
    file: usize,
    word: &'a Word,
    first: &mut FirstViolation,
)
    requires file { file < length scopes.now.heads }
    requires ordered { IsOrdered scopes.now }
    ensures { HasRecorded (IsUnknownMessage scopes.now file word.now) first.old first.new }
{
    let unknown = message_of(scopes, file, word).is_none();
    first.note_if(unknown, ResolveReason::UnknownName, word.span);
}

fn note_method<'a>(
    scopes: &SymbolTable<'a>,
    file: usize,
    i: usize,
    rpc: &'a RpcDecl,
    first: &mut FirstViolation,
)
    requires file { file < length scopes.now.heads }
    requires ordered { IsOrdered scopes.now }
    ensures { HasRecorded (IsMethodViolation scopes.now file (package_at scopes.now file) i rpc.now) first.old first.new }
{
    first.note_if(i >= MAX_METHODS, ResolveReason::Limit, rpc.name.span);
    note_long(&rpc.name, first);
    note_message(scopes, file, &rpc.input, first);
    note_message(scopes, file, &rpc.output, first);
}

// Records the violations of the services, except duplicate names and long full names.
pub(crate) fn note_services(files: &Joined<'_>, first: &mut FirstViolation)
    ensures { HasRecorded (IsOfAny (IsOfElement files.now.services IsLongService)) first.old first.new }
{
    let services = files.services();
    for i in 0..services.len() {
        note_long(&services[i].name, first);
    }
}

// Records the violations of the methods of all services.
pub(crate) fn note_methods<'a>(
    files: &Joined<'a>,
    scopes: &SymbolTable<'a>,
    first: &mut FirstViolation,
)
    requires formed { IsFormed files.now }
    requires ordered { IsOrdered files.now }
    requires scopes { scopes.now ≡ files.now }
    ensures { HasRecorded (IsOfAny (IsOfElement (rpcs_of files.now) (IsMethodViolationAt files.now))) first.old first.new }
{
    let mut methods: usize = 0;
    for service in files.services() {
        for rpc in service.rpcs.as_slice() {
            note_method(scopes, service.file, methods, rpc, first);
            methods = methods.saturating_add(1);
        }
    }
}

// Records each package whose name is too long.
pub(crate) fn note_packages(files: &Joined<'_>, first: &mut FirstViolation)
    ensures { HasRecorded (IsOfAny (IsOfElement files.now.heads IsPackageViolationAt)) first.old first.new }
{
    let heads = files.heads();
    for i in 0..heads.len() {
        note_package(&heads[i], first);
    }
}

fn note_package(head: &Head, first: &mut FirstViolation)
    ensures { HasRecorded (IsPackageViolation head.now) first.old first.new }
{
    if let Some(package) = &head.package {
        let long = !is_short_full(package.name.as_slice());
        first.note_if(long, ResolveReason::Limit, package.span);
    }
}
