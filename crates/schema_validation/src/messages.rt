//! Violations of messages and their fields.

ghost use Rattle.std.specs.Prelude.{◌≡◌, ◌<◌, ◌⊎◌, ℕ, true, List, [], ◌∷◌, length, ◌==◌, ◌||◌, Some, IfOk, OnOk};
ghost use Rattle.mrpc_table.specs.declared.limits.TheConstants.{MAX_FIELDS as FIELDS};
ghost use Rattle.proto_ast.specs.Together.{IsFormed};
ghost use Rattle.proto_ast.specs.declared.joined.Enclosing.TheVariants as home;
ghost use Rattle.schema_symbols.specs.Scopes.{IsScope};
ghost use Rattle.schema_validation.specs.Types.{signed_value};
ghost use Rattle.schema_validation.specs.Members.{Is, IsNoType, IsKeyViolation, IsTypeViolation, IsFieldNumberOf, IsNumberViolation, IsNameViolation, IsLong, IsMessageViolation};
ghost use Rattle.schema_validation.specs.Recording.{has_seen, IsWhere, HasRecorded, IsOfAny, IsOfElement, IsMessageViolationAt};
ghost use Rattle.schema_validation.specs.declared.reason.ResolveReason.TheVariants as reasons;

use crate::first::FirstViolation;
use crate::name_set::{NameSet, note_long};
use crate::numbers::{Reserved, field_number, number_position};
use crate::reason::ResolveReason;
use crate::types::{is_misplaced_map, may_be_key, type_of};
use mrpc_table::{MAX_FIELDS, MAX_MESSAGES, Memory};
use proto_ast::{FieldDecl, FieldType, Joined, MessageDecl, Number, Word};
use schema_symbols::{SymbolTable, scope_is_determined};
use std::alloc::Global;
use std::collections::BTreeMap;

fn note_type<'a>(
    scopes: &SymbolTable<'a>,
    file: usize,
    message: usize,
    word: &'a Word,
    first: &mut FirstViolation,
)
    requires file { file < length scopes.now.heads }
    requires message { message < length scopes.now.messages }
    ensures { (scope : List (List ℕ)) → IsScope scopes.now (home.Message message) scope
        → HasRecorded (IsNoType scopes.now file scope word.now) first.old first.new }
{
    let unknown = type_of(scopes, file, message, word).is_none();
    first.note_if(unknown, ResolveReason::UnknownName, word.span);
}

fn note_key<'a>(
    scopes: &SymbolTable<'a>,
    file: usize,
    message: usize,
    key: &'a Word,
    first: &mut FirstViolation,
)
    requires file { file < length scopes.now.heads }
    requires message { message < length scopes.now.messages }
    ensures { (scope : List (List ℕ)) → IsScope scopes.now (home.Message message) scope
        → HasRecorded (IsKeyViolation scopes.now file scope key.now) first.old first.new }
{
    match type_of(scopes, file, message, key) {
        Some(type_of) => first.note_if(!may_be_key(type_of), ResolveReason::MapKey, key.span),
        None => first.note(ResolveReason::UnknownName, key.span),
    }
}

fn note_types<'a>(
    scopes: &SymbolTable<'a>,
    file: usize,
    message: usize,
    field: &'a FieldDecl,
    first: &mut FirstViolation,
)
    requires file { file < length scopes.now.heads }
    requires message { message < length scopes.now.messages }
    ensures { (scope : List (List ℕ)) → IsScope scopes.now (home.Message message) scope
        → HasRecorded (IsTypeViolation scopes.now file scope field.now) first.old first.new }
{
    match &field.kind {
        FieldType::Named(word) => note_type(scopes, file, message, word, first),
        FieldType::Map { key, value } => {
            note_key(scopes, file, message, key, first);
            note_type(scopes, file, message, value, first);
        }
        FieldType::NestedMap { key } => note_key(scopes, file, message, key, first),
    }
    first.note_if(
        is_misplaced_map(field),
        ResolveReason::MapPlace,
        field.name.span,
    );
}

fn note_all_types<'a>(
    scopes: &SymbolTable<'a>,
    file: usize,
    message: usize,
    fields: &'a [FieldDecl],
    first: &mut FirstViolation,
)
    requires file { file < length scopes.now.heads }
    requires message { message < length scopes.now.messages }
    ensures { (scope : List (List ℕ)) → IsScope scopes.now (home.Message message) scope
        → HasRecorded (IsOfAny (IsOfElement fields.now (λ i. IsTypeViolation scopes.now file scope))) first.old first.new }
{
    for i in 0..fields.len() {
        note_types(scopes, file, message, &fields[i], first);
    }
}

// Records the violations of a number, given whether an earlier field has it and whether it is reserved.
fn note_number(number: &Number, is_met: bool, is_reserved: bool, first: &mut FirstViolation)
    ensures { HasRecorded (λ q s. (((IsFieldNumberOf (signed_value number.now) → ⊥) × Is reasons.NumberRange number.now.span q s)
        ⊎ IsWhere is_met reasons.DuplicateNumber number.now.span q s)
        ⊎ IsWhere is_reserved reasons.Reserved number.now.span q s) first.old first.new }
{
    let out_of_range = field_number(number).is_none();
    first.note_if(out_of_range, ResolveReason::NumberRange, number.span);
    first.note_if(is_met, ResolveReason::DuplicateNumber, number.span);
    first.note_if(is_reserved, ResolveReason::Reserved, number.span);
}

// Adds the position of a number to a set. Returns true if it was there before.
fn insert_seen(met: &mut BTreeMap<u128, ()>, place: u128) -> Result<bool, Memory>
    ensures was_met { IfOk result (λ r. r ≡ has_seen met.old place) }
    ensures meets { OnOk result ((p : ℕ) → has_seen met.new p ≡ (p == place || has_seen met.old p)) }
{
    Ok(met.insert(place, ())?.is_some())
}

fn note_numbers(
    alloc: Global,
    message: &MessageDecl,
    first: &mut FirstViolation,
) -> Result<(), Memory>
    ensures { OnOk result (HasRecorded (IsOfAny (IsNumberViolation message.now)) first.old first.new) }
{
    let reserved = Reserved::new(alloc, message.ranges.as_slice())?;
    let mut met = BTreeMap::new(alloc);
    let fields = message.fields.as_slice();
    for i in 0..fields.len() {
        let number = &fields[i].number;
        let place = number_position(number);
        let is_met = insert_seen(&mut met, place)?;
        let is_reserved = reserved.has(place);
        note_number(number, is_met, is_reserved, first);
    }
    Ok(())
}

fn note_names(
    alloc: Global,
    message: &MessageDecl,
    first: &mut FirstViolation,
) -> Result<(), Memory>
    ensures { OnOk result (HasRecorded (IsOfAny (IsOfElement message.now.fields
        (λ i f. IsNameViolation message.now.names FIELDS i f.name))) first.old first.new) }
{
    let reserved = NameSet::new(alloc, &message.names)?;
    let fields = message.fields.as_slice();
    for i in 0..fields.len() {
        reserved.note_name(i, MAX_FIELDS, &fields[i].name, first);
    }
    Ok(())
}

fn note_oneofs(message: &MessageDecl, first: &mut FirstViolation)
    ensures { HasRecorded (IsOfAny (IsOfElement message.now.oneofs (λ i. IsLong))) first.old first.new }
{
    let oneofs = message.oneofs.as_slice();
    for i in 0..oneofs.len() {
        note_long(&oneofs[i], first);
    }
}

fn note_message<'a>(
    alloc: Global,
    scopes: &SymbolTable<'a>,
    i: usize,
    message: &'a MessageDecl,
    first: &mut FirstViolation,
) -> Result<(), Memory>
    requires file { message.now.file < length scopes.now.heads }
    requires place { i < length scopes.now.messages }
    ensures { OnOk result ((scope : List (List ℕ)) → IsScope scopes.now (home.Message i) scope
        → HasRecorded (IsMessageViolation scopes.now message.now.file scope i message.now) first.old first.new) }
{
    first.note_if(i >= MAX_MESSAGES, ResolveReason::Limit, message.name.span);
    note_long(&message.name, first);
    note_all_types(scopes, message.file, i, message.fields.as_slice(), first);
    note_numbers(alloc, message, first)?;
    note_names(alloc, message, first)?;
    note_oneofs(message, first);
    Ok(())
}

// Records the violations of the messages, except duplicate names and long full names.
pub(crate) fn note_messages<'a>(
    alloc: Global,
    files: &Joined<'a>,
    scopes: &SymbolTable<'a>,
    first: &mut FirstViolation,
) -> Result<(), Memory>
    requires formed { IsFormed files.now }
    requires scopes { scopes.now ≡ files.now }
    ensures { OnOk result (HasRecorded (IsOfAny (IsOfElement files.now.messages (IsMessageViolationAt files.now))) first.old first.new) }
{
    scope_is_determined();
    let messages = files.messages();
    for i in 0..messages.len() {
        note_message(alloc, scopes, i, &messages[i], first)?;
    }
    Ok(())
}
