//! Search for a field of a message by its number.

ghost use Rattle.std.specs.Prelude.{◌≡◌, ◌<◌, length, IsTrue, IfSome, IfNone, None, slice_get};
ghost use Rattle.mrpc_table.specs.Ascending.{AreFieldsAscending};
ghost use Rattle.mrpc_table.specs.Normal.{field_at};

use crate::table::Field;

/// The index of the field with a number. Records, and the fields of trees, are mostly in order, so it tries the index
/// `hint` first and then the next one. Otherwise it takes time logarithmic in the number of fields.
pub fn find_field(fields: &[Field], number: u32, hint: usize) -> Option<usize>
    requires { AreFieldsAscending fields.now }
    ensures bound { IfSome result (λ place. place < length fields.now) }
    ensures found { IfSome result (λ place. slice_get fields.now place ≡ field_at fields.now number) }
    ensures absent { IfNone result (field_at fields.now number ≡ None) }
{
    if has_number_at(fields, number, hint) {
        return Some(hint);
    }
    let next = hint.saturating_add(1);
    if has_number_at(fields, number, next) {
        return Some(next);
    }
    search(fields, number)
}

// Whether the field with a number is at an index.
fn has_number_at(fields: &[Field], number: u32, place: usize) -> bool
    requires { AreFieldsAscending fields.now }
    ensures bound { IsTrue result → place < length fields.now }
    ensures found { IsTrue result → slice_get fields.now place ≡ field_at fields.now number }
{
    match fields.get(place) {
        Some(field) => field.number == number,
        None => false,
    }
}

// Like `find_field`, without a hint.
pub(crate) fn search(fields: &[Field], number: u32) -> Option<usize>
    requires { AreFieldsAscending fields.now }
    ensures bound { IfSome result (λ place. place < length fields.now) }
    ensures found { IfSome result (λ place. slice_get fields.now place ≡ field_at fields.now number) }
    ensures absent { IfNone result (field_at fields.now number ≡ None) }
{
    match fields.binary_search_by_key(&number, |field| field.number) {
        Ok(place) => Some(place),
        Err(_) => None,
    }
}
