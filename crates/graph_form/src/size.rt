//! How many words a message takes in a heap, and where its fields lie among them.

ghost use Rattle.std.specs.Prelude.{◌≡◌, ◌<◌, ◌≤◌, ◌+◌, ◌*◌, length, IfNone, IfSome, IsSome, None, Some, slice_get};
ghost use Rattle.mrpc_table.specs.Valid.{IsValid};
ghost use Rattle.mrpc_table.specs.Normal.{fields_of, field_at};
ghost use Rattle.mrpc_table.specs.declared.limits.TheConstants.{MAX_FIELDS};
ghost use Rattle.graph_form.specs.Roles.{element_words, has_own_slot, is_member, oneof_count, own_slots, run_words, size_words, slots_before, slot_of};

use mrpc_table::{Field, Kind, Label, Message, Table};

/// The number of words of a message's node: two for each field outside oneofs, and three for each oneof. Returns 0 if
/// the table has no such message.
pub fn size_words(table: &Table, msg: u32) -> u64
    requires { IsValid table.now }
    ensures { result ≡ size_words table.now msg }
{
    2 * own_slots(table.fields(msg)) + 3 * u64::from(oneof_count(table, msg))
}

/// The number of oneofs of a message; 0 if the table has no such message.
pub fn oneof_count(table: &Table, msg: u32) -> u32
    requires { IsValid table.now }
    ensures number { result ≡ oneof_count table.now msg }
    ensures few { result ≤ MAX_FIELDS }
{
    match message_at(table, msg) {
        Some(message) => message.oneofs.len() as u32,
        None => 0,
    }
}

// The message at an index of the table.
fn message_at(table: &Table, msg: u32) -> Option<&Message>
    ensures some { IfSome result (λ m. slice_get table.now.messages msg ≡ Some m.now) }
    ensures none { IfNone result (slice_get table.now.messages msg ≡ None) }
{
    table.messages.as_slice().get(msg as usize)
}

/// Returns true for the label of a oneof member, which has no slot of its own.
pub fn is_member(label: Label) -> bool
    ensures { result ≡ is_member label }
{
    matches!(label, Label::Member(_))
}

/// The offset of a field's slot, or of its oneof's slot, in words from the start of the node.
pub fn slot_of(table: &Table, msg: u32, field: u32) -> u64
    requires valid { IsValid table.now }
    requires known { msg < length table.now.messages }
    requires of_message { IsSome (field_at (fields_of table.now msg) field) }
    ensures { result ≡ slot_of table.now msg field }
{
    let message = &table.messages.as_slice()[msg as usize];
    let fields = message.fields.as_slice();
    match message.field(field) {
        Some(found) => match found.label {
            Label::Member(oneof) => 2 * own_slots(fields) + 3 * u64::from(oneof),
            _ => 2 * slots_before(fields, field),
        },
        None => 0,
    }
}

// Whether a field has a slot of its own, instead of the slot of a oneof.
fn has_own_slot(field: &Field) -> bool
    ensures { result ≡ has_own_slot field.now }
{
    !is_member(field.label)
}

// The number of fields before this field number that have slots of their own.
fn slots_before(fields: &[Field], number: u32) -> u64
    ensures count { result ≡ slots_before fields.now number }
    ensures few { result ≤ length fields.now }
{
    let mut count = 0;
    for field in fields {
        if field.number == number {
            return count;
        }
        if has_own_slot(field) {
            count += 1;
        }
    }
    count
}

// The number of fields that aren't oneof members.
fn own_slots(fields: &[Field]) -> u64
    ensures count { result ≡ length (own_slots fields.now) }
    ensures few { result ≤ length fields.now }
{
    let mut count = 0;
    for field in fields {
        if has_own_slot(field) {
            count += 1;
        }
    }
    count
}

/// The number of words of an element of a repeated field: 1 or 2.
pub fn element_words(kind: Kind) -> u64
    ensures value { result ≡ element_words kind }
    ensures least { 1 ≤ result }
    ensures most { result ≤ 2 }
{
    match kind {
        Kind::Text | Kind::Octets => 2,
        _ => 1,
    }
}

/// The number of words of a run of `bytes` bytes.
pub fn run_words(bytes: u64) -> u64
    ensures { result ≡ run_words bytes }
{
    if bytes % 8 == 0 {
        bytes / 8
    } else {
        bytes / 8 + 1
    }
}
