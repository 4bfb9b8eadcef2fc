//! The types of fields.

ghost use Rattle.std.specs.Prelude.{◌≡◌, ◌<◌, ◌↔◌, ℕ, true, List, [], ◌∷◌, length, Some, MatchOption, IsTrue};
ghost use Rattle.mrpc_table.specs.Words.{is_key};
ghost use Rattle.mrpc_table.specs.declared.table.Kind.{Kind};
ghost use Rattle.mrpc_table.specs.declared.table.Label.{Label};
ghost use Rattle.proto_ast.specs.declared.joined.Enclosing.TheVariants as home;
ghost use Rattle.schema_symbols.specs.Scopes.{IsScope};
ghost use Rattle.schema_validation.specs.Types.{single_label, IsScalar, IsNoScalar, HasShape};
ghost use Rattle.schema_symbols.specs.Lookups.{IsUnresolved};
ghost use Rattle.schema_validation.specs.Members.{IsMisplacedMap};
ghost use Rattle.schema_validation.specs.Shapes.{IsType, IsShape, is_message, is_packable, may_be_key};

use mrpc_table::{Kind, Label};
use proto_ast::{Enclosing, FieldDecl, FieldLabel, FieldType, Word};
use schema_symbols::{Symbol, SymbolTable};

/// The type of a field, or of a map's value.
#[derive(Clone, Copy)]
pub enum TypeOf {
    Scalar(Kind),
    Named(Symbol),
}

/// The shape of a field: its type, its label if it is in no oneof, and the index of its oneof among those of its
/// message.
#[derive(Clone, Copy)]
pub struct FieldShape {
    pub label: Label,
    pub oneof: Option<usize>,
    pub type_of: TypeOf,
}

// What the name of a type means in a field of a message, given the files that are visible. The name of a scalar
// always means the scalar, whatever is declared.
pub(crate) fn type_of<'a>(
    scopes: &SymbolTable<'a>,
    file: usize,
    message: usize,
    word: &'a Word,
) -> Option<TypeOf>
    requires file { file < length scopes.now.heads }
    requires message { message < length scopes.now.messages }
    ensures { (scope : List (List ℕ)) → IsScope scopes.now (home.Message message) scope
        → MatchOption result (IsNoScalar word.now.name × IsUnresolved scopes.now file scope word.now.name)
        (IsType scopes.now file scope word.now.name) }
{
    let name = word.name.as_slice();
    match Kind::of_name(name) {
        Some(kind) => Some(TypeOf::Scalar(kind)),
        None => Some(TypeOf::Named(scopes.find(file, Enclosing::Message(message), name)?)),
    }
}

fn is_message(type_of: TypeOf) -> bool
    ensures { result ≡ is_message type_of }
{
    matches!(type_of, TypeOf::Named(Symbol::Message(_)))
}

// True if repeated values of the type can be packed in one record.
fn is_packable(type_of: TypeOf) -> bool
    ensures { result ≡ is_packable type_of }
{
    match type_of {
        TypeOf::Scalar(kind) => kind.is_numeric(),
        TypeOf::Named(Symbol::Enum(_)) => true,
        TypeOf::Named(Symbol::Message(_)) => false,
    }
}

// True if the type can be the key of a map.
pub(crate) fn may_be_key(type_of: TypeOf) -> bool
    ensures { result ≡ may_be_key type_of }
{
    match type_of {
        TypeOf::Scalar(kind) => kind.is_key(),
        TypeOf::Named(_) => false,
    }
}

// The label of a field that is in no oneof.
fn single_label(field: &FieldDecl, type_of: TypeOf) -> Label
    ensures { result ≡ single_label field.now.label field.now.packed (is_message type_of) (is_packable type_of) }
{
    match field.label {
        FieldLabel::Plain => Label::Plain,
        FieldLabel::Optional if is_message(type_of) => Label::Plain,
        FieldLabel::Optional => Label::Optional,
        FieldLabel::Repeated if is_packable(type_of) && field.packed != Some(false) => {
            Label::Packed
        }
        FieldLabel::Repeated => Label::Repeated,
    }
}

// True if a map has a label, is in a oneof, or is the value of a map.
pub(crate) fn is_misplaced_map(field: &FieldDecl) -> bool
    ensures { IsTrue result ↔ IsMisplacedMap field.now }
{
    match field.kind {
        FieldType::Named(_) => false,
        FieldType::Map { .. } => field.label != FieldLabel::Plain || field.oneof.is_some(),
        FieldType::NestedMap { .. } => true,
    }
}

// The kind of a map's key, if it is allowed as a key.
fn key_of(word: &Word) -> Option<Kind>
    ensures { MatchOption result ((k : Kind) → IsScalar word.now.name k → is_key k ≡ true → ⊥)
        (λ k. IsScalar word.now.name k × (is_key k ≡ true)) }
{
    let kind = Kind::of_name(word.name.as_slice())?;
    if kind.is_key() { Some(kind) } else { None }
}

/// Returns the shape of a field in a table; none if a type of the field is a violation, or a map isn't allowed there.
pub fn field_shape_of<'a>(
    scopes: &SymbolTable<'a>,
    file: usize,
    message: usize,
    field: &'a FieldDecl,
) -> Option<FieldShape>
    requires file { file < length scopes.now.heads }
    requires message { message < length scopes.now.messages }
    ensures { (scope : List (List ℕ)) → IsScope scopes.now (home.Message message) scope
        → MatchOption result
        ((label : Label) (word : List ℕ) → HasShape scopes.now file scope field.now label word → ⊥)
        (IsShape scopes.now file scope field.now) }
{
    if is_misplaced_map(field) {
        return None;
    }
    match &field.kind {
        FieldType::Named(word) => {
            let type_of = type_of(scopes, file, message, word)?;
            Some(FieldShape {
                label: single_label(field, type_of),
                oneof: field.oneof,
                type_of,
            })
        }
        FieldType::Map { key, value } => {
            let key = key_of(key)?;
            let type_of = type_of(scopes, file, message, value)?;
            Some(FieldShape {
                label: Label::Map(key),
                oneof: None,
                type_of,
            })
        }
        FieldType::NestedMap { .. } => None,
    }
}
