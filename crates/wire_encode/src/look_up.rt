//! Looks up fields in a table.

ghost use Rattle.std.specs.Prelude.{◌≡◌, ◌<◌, length, IsTrue, IfSome, IfNone, None, slice_get};
ghost use Rattle.mrpc_table.specs.Normal.{kind_at, label_at};
ghost use Rattle.mrpc_table.specs.Ascending.{AreFieldsAscending};

use mrpc_table::{Field, Kind, Label, find_field};

// The kind and the label of the field with a number.
pub(crate) fn type_of(fields: &[Field], number: u32) -> (Kind, Label)
    requires { AreFieldsAscending fields.now }
    ensures kind { result.0 ≡ kind_at fields.now number }
    ensures label { result.1 ≡ label_at fields.now number }
{
    let (kind, label, _) = type_near(fields, number, 0);
    (kind, label)
}

// Like `type_of`, and also returns the index of the field. Trees and tables have their fields in the same order, so it
// tries the index `hint` first.
pub(crate) fn type_near(fields: &[Field], number: u32, hint: usize) -> (Kind, Label, usize)
    requires { AreFieldsAscending fields.now }
    ensures kind { result.0 ≡ kind_at fields.now number }
    ensures label { result.1 ≡ label_at fields.now number }
{
    match find_field(fields, number, hint) {
        Some(place) => (fields[place].kind, fields[place].label, place),
        None => (Kind::Uint64, Label::Plain, hint),
    }
}
