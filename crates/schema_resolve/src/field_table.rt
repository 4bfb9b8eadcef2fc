//! The fields of messages with their numbers and shapes, by ascending number.

ghost use Rattle.std.specs.Prelude.{◌≡◌, IfOk, slice_get, Some};
ghost use Rattle.proto_ast.specs.Together.{IsFormed, IsOrdered};
ghost use Rattle.schema_resolve.specs.Resolving.{HasNoViolation};
ghost use Rattle.schema_resolve.specs.ShapedFields.{IsFieldIn, IsShapedField, AreShapedInOrder, AreShapedFields};

use mrpc_table::Memory;
use proto_ast::{FieldDecl, MessageDecl};
use schema_symbols::SymbolTable;
use schema_validation::{FieldShape, field_number, field_shape_of};
use std::alloc::Global;

// A field with its number and its shape.
#[derive(Clone, Copy)]
pub(crate) struct ShapedField<'a> {
    pub number: u32,
    pub form: FieldShape,
    pub decl: &'a FieldDecl,
}

// The number and the shape of a field, given the file and the index of its message.
fn shape_field<'a>(
    scopes: &SymbolTable<'a>,
    file: usize,
    place: usize,
    decl: &'a FieldDecl,
) -> ShapedField<'a>
    requires formed { IsFormed scopes.now }
    requires clean { HasNoViolation scopes.now }
    requires stands { IsFieldIn scopes.now file place decl.now }
    ensures { IsShapedField scopes.now file place decl.now result }
{
    let Some(number) = field_number(&decl.number) else {
        unreachable!();
    };
    let Some(form) = field_shape_of(scopes, file, place, decl) else {
        unreachable!();
    };
    ShapedField { number, form, decl }
}

// The fields in the order of the text.
fn fields_of<'a>(
    alloc: Global,
    scopes: &SymbolTable<'a>,
    place: usize,
    message: &'a MessageDecl,
) -> Result<Vec<ShapedField<'a>>, Memory>
    requires formed { IsFormed scopes.now }
    requires clean { HasNoViolation scopes.now }
    requires here { slice_get scopes.now.messages place ≡ Some message.now }
    ensures { IfOk result (λ v. AreShapedInOrder scopes.now message.now.file place message.now.fields v.items) }
{
    let decls = message.fields.as_slice();
    let mut fields = Vec::with_capacity(alloc, decls.len())?;
    for i in 0..decls.len() {
        fields.push(shape_field(scopes, message.file, place, &decls[i]))?;
    }
    Ok(fields)
}

// The fields of the message with an index, by ascending number.
pub(crate) fn by_number<'a>(
    alloc: Global,
    scopes: &SymbolTable<'a>,
    place: usize,
    message: &'a MessageDecl,
) -> Result<Vec<ShapedField<'a>>, Memory>
    requires formed { IsFormed scopes.now }
    requires ordered { IsOrdered scopes.now }
    requires clean { HasNoViolation scopes.now }
    requires here { slice_get scopes.now.messages place ≡ Some message.now }
    ensures { IfOk result (λ v. AreShapedFields scopes.now place message.now v.items) }
{
    let mut fields = fields_of(alloc, scopes, place, message)?;
    fields.sort_by_key(|field| field.number)?;
    Ok(fields)
}
