//! Look-ups of a message in a table and a tree.

ghost use Rattle.std.specs.Prelude.{◌≡◌, ◌≢◌, ◌<◌, ◌*◌, ℕ, length, IfNone, IfSome, Some, None, slice_index, if◌then◌else◌};
ghost use Rattle.mrpc_table.specs.Node.{Item, one, content_at, AreNumbersAscending};
ghost use Rattle.mrpc_table.specs.Normal.{fields_of, kind_at};
ghost use Rattle.mrpc_table.specs.Valid.{IsValid};
ghost use Rattle.mrpc_table.specs.View.{item_of};
ghost use Rattle.mrpc_table.specs.declared.limits.TheConstants.{MAX_FIELDS};
ghost use Rattle.mrpc_table.specs.declared.table.Label.TheVariants.{Member};
ghost use Rattle.mrpc_table.specs.Weight.{weight, item_weight};
ghost use Rattle.graph_place.specs.Content.{is_of, is_member_of, member_of};

use mrpc_table::{FieldValue, Kind, Label, MAX_FIELDS, Table, Tree, Value};

// The kind of the field with a number, in the message at an index of the table.
pub(crate) fn kind_of(table: &Table, message: u32, number: u32) -> Kind
    requires { IsValid table.now }
    ensures { result ≡ kind_at (fields_of table.now message) number }
{
    match table.field(message, number) {
        Some(field) => field.kind,
        None => Kind::Uint64,
    }
}

// The value of a tree at a field number, if it has a single one there.
pub(crate) fn value_of(tree: &Tree, number: u32) -> Option<&Value>
    requires { AreNumbersAscending 0 tree.now }
    ensures some { IfSome result (λ value. content_at tree.now number ≡ Some (one (item_of value.now))) }
    ensures less { IfSome result (λ value. item_weight (item_of value.now) < weight tree.now) }
    ensures none { IfNone result ((i : Item) → content_at tree.now number ≢ Some (one i)) }
{
    match tree.content(number) {
        Some(content) => match content {
            FieldValue::One(value) => Some(value),
            FieldValue::Many(_) | FieldValue::Pairs(_) => None,
        },
        None => None,
    }
}

// For each oneof of a message: the number of the member that the tree has, or 0.
pub(crate) fn members_of(table: &Table, message: u32, tree: &Tree) -> [u32; MAX_FIELDS]
    requires { IsValid table.now }
    ensures { (oneof : ℕ) → slice_index result oneof ≡ member_of (fields_of table.now message) oneof 0 tree.now }
{
    let mut members = [0; MAX_FIELDS];
    for (number, _) in &tree.fields {
        note_number(&mut members, table, message, *number);
    }
    members
}

// Notes a field number at the index of its oneof, if the field is a member of one.
fn note_number(members: &mut [u32], table: &Table, message: u32, number: u32)
    requires valid { IsValid table.now }
    requires places { length members.old ≡ MAX_FIELDS }
    ensures { (oneof : ℕ) → slice_index members.new oneof
        ≡ (if is_member_of (fields_of table.now message) oneof number then number else slice_index members.old oneof) }
{
    match table.field(message, number) {
        Some(field) => note_label(members, field.label, number),
        None => (),
    }
}

// Notes a number at the index of the oneof of a label.
fn note_label(members: &mut [u32], label: Label, number: u32)
    requires { (oneof : ℕ) → label ≡ Member oneof → oneof < length members.old }
    ensures { (oneof : ℕ) → slice_index members.new oneof
        ≡ (if is_of oneof label then number else slice_index members.old oneof) }
{
    match label {
        Label::Member(oneof) => members[oneof as usize] = number,
        _ => (),
    }
}
