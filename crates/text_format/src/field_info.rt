//! The declaration of a field in a table.

ghost use Rattle.std.specs.Prelude.{◌≡◌, []};
ghost use Rattle.mrpc_table.specs.Ascending.{AreFieldsAscending};
ghost use Rattle.mrpc_table.specs.Normal.{fields_of, kind_at, label_at};
ghost use Rattle.mrpc_table.specs.Valid.{IsValid};
ghost use Rattle.text_format.specs.Entries.{field_name};

use mrpc_table::{Field, Kind, Label, Table, find_field};

// The fields of the message with this index in the table.
pub(crate) fn fields_at(table: &Table, message: u32) -> &[Field]
    requires { IsValid table.now }
    ensures value { result.now ≡ fields_of table.now message }
    ensures ascend { AreFieldsAscending result.now }
{
    table.fields(message)
}

// The name, the kind and the label of a field.
#[derive(Clone, Copy)]
pub(crate) struct FieldInfo<'a> {
    pub name: &'a [u8],
    pub kind: Kind,
    pub label: Label,
}

// The declaration of a field number among these fields, and its index. Trees and tables have their fields in
// the same order, so the index `hint` is tried first.
pub(crate) fn field_info_near(fields: &[Field], number: u32, hint: usize) -> (FieldInfo<'_>, usize)
    requires { AreFieldsAscending fields.now }
    ensures name { result.0.name.now ≡ field_name fields.now number }
    ensures kind { result.0.kind ≡ kind_at fields.now number }
    ensures label { result.0.label ≡ label_at fields.now number }
{
    match find_field(fields, number, hint) {
        Some(place) => (field_info(&fields[place]), place),
        None => (unknown_field(), hint),
    }
}

fn field_info(field: &Field) -> FieldInfo<'_>
    ensures name { result.name.now ≡ field.now.name }
    ensures kind { result.kind ≡ field.now.kind }
    ensures label { result.label ≡ field.now.label }
{
    FieldInfo {
        name: field.name.as_slice(),
        kind: field.kind,
        label: field.label,
    }
}

// For a number that is no field of the message: its entry has no name.
fn unknown_field() -> FieldInfo<'static>
    ensures name { result.name.now ≡ [] }
    ensures kind { result.kind ≡ Kind.Uint64 }
    ensures label { result.label ≡ Label.Plain }
{
    FieldInfo {
        name: &[],
        kind: Kind::Uint64,
        label: Label::Plain,
    }
}
