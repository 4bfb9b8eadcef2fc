//! Look-ups of a message in a table.

ghost use Rattle.std.specs.Prelude.{◌≡◌, ◌<◌, ◌≤◌, ◌+◌, [], ◌∷◌, length, drop, IfNone, IfSome, Some, None, slice_index_or};
ghost use Rattle.std.specs.Option.{option_copied};
ghost use Rattle.mrpc_table.specs.Normal.{fields_of, field_at};
ghost use Rattle.mrpc_table.specs.Valid.{IsValid};
ghost use Rattle.mrpc_table.specs.declared.table.Field.{Field};
ghost use Rattle.graph_form.specs.Roles.{own_slots, is_member};

use graph_form::is_member;
use mrpc_table::{Field, Table};

// The field with a number, in the message at an index of the table.
pub(crate) fn field_of(table: &Table, message: u32, number: u64) -> Option<&Field>
    requires { IsValid table.now }
    ensures { option_copied result ≡ field_at (fields_of table.now message) number }
{
    match u32::try_from(number) {
        Ok(number) => table.field(message, number),
        Err(_) => None,
    }
}

// The index of the next field with a slot of its own, at `from` or after it.
pub(crate) fn next_slot(fields: &[Field], from: usize) -> Option<usize>
    ensures none { IfNone result (own_slots (drop from fields.now) ≡ []) }
    ensures ahead { IfSome result (λ place. from ≤ place) }
    ensures within { IfSome result (λ place. place < length fields.now) }
    ensures found { IfSome result (λ place. (f : Field) → f ≡ slice_index_or fields.now place f
        → own_slots (drop from fields.now) ≡ f ∷ own_slots (drop (place + 1) fields.now)) }
{
    for place in from..fields.len() {
        if !is_member(fields[place].label) {
            return Some(place);
        }
    }
    None
}
