//! Lengths of encodings, capped at 2^64 - 1.

ghost use Rattle.std.specs.Prelude.{◌≡◌, ℕ, ◌+◌, ◌<◌, length};
ghost use Rattle.mrpc_table.specs.View.{item_of, items_of, pairs_of, content_of};
ghost use Rattle.wire_base.specs.Encoding.{varint, tag, number_bytes, item_bytes, joined_bytes, records_bytes, entries_bytes, content_bytes, fields_bytes};
ghost use Rattle.mrpc_table.specs.Ascending.{AreAllFieldsAscending, AreFieldsAscending};
ghost use Rattle.mrpc_table.specs.Capped.{capped};

use crate::look_up::type_of;
use mrpc_table::{Entries, Field, FieldValue, Kind, Label, Table, Tree, Value, Values};
use wire_base::{varint_len, zigzag};

// The length of a message.
#[cycle(size)]
pub(crate) fn message_len(tree: &Tree, table: &Table, fields: &[Field]) -> u64
    requires all { AreAllFieldsAscending table.now }
    requires ascend { AreFieldsAscending fields.now }
    ensures { result ≡ capped (length (fields_bytes table.now fields.now tree.now)) }
{
    let mut total = 0u64;
    for field in &tree.fields {
        total = total.saturating_add(field_len(&field.1, table, fields, field.0));
    }
    total
}

// The length of the content of a field.
#[cycle(size)]
fn field_len(content: &FieldValue, table: &Table, fields: &[Field], number: u32) -> u64
    requires all { AreAllFieldsAscending table.now }
    requires ascend { AreFieldsAscending fields.now }
    ensures { result
        ≡ capped (length (content_bytes table.now fields.now number (content_of content.now))) }
{
    let (kind, label) = type_of(fields, number);
    match content {
        FieldValue::One(value) => {
            tag_len(number, kind.wire_type()).saturating_add(value_len(value, table, kind))
        }
        FieldValue::Many(values) => match label {
            Label::Packed => {
                tag_len(number, 2).saturating_add(delimited_len(joined_len(values, table, kind)))
            }
            Label::Plain | Label::Optional | Label::Repeated | Label::Map(_) | Label::Member(_) =>
                records_len(values, table, number, kind),
        },
        FieldValue::Pairs(entries) => entries_len(entries, table, number, label.key(), kind),
    }
}

// The length of the elements of a packed field.
#[cycle(size)]
fn joined_len(values: &Values, table: &Table, kind: Kind) -> u64
    requires { AreAllFieldsAscending table.now }
    ensures { result ≡ capped (length (joined_bytes table.now kind (items_of values.now.items))) }
{
    let mut total = 0u64;
    for value in values {
        total = total.saturating_add(value_len(value, table, kind));
    }
    total
}

// The length of a record for each element.
#[cycle(size)]
fn records_len(values: &Values, table: &Table, number: u32, kind: Kind) -> u64
    requires { AreAllFieldsAscending table.now }
    ensures { result ≡ capped (length (records_bytes table.now number kind (items_of values.now.items))) }
{
    let tag = tag_len(number, kind.wire_type());
    let mut total = 0u64;
    for value in values {
        let len = tag.saturating_add(value_len(value, table, kind));
        total = total.saturating_add(len);
    }
    total
}

// The length of a record for each entry.
#[cycle(size)]
fn entries_len(entries: &Entries, table: &Table, number: u32, key: Kind, kind: Kind) -> u64
    requires { AreAllFieldsAscending table.now }
    ensures { result
        ≡ capped (length (entries_bytes table.now number key kind (pairs_of entries.now.items))) }
{
    let tag = tag_len(number, 2);
    let key_tag = tag_len(1, key.wire_type());
    let value_tag = tag_len(2, kind.wire_type());
    let mut total = 0u64;
    for entry in entries {
        let key_part = key_tag.saturating_add(value_len(&entry.0, table, key));
        let value_part = value_tag.saturating_add(value_len(&entry.1, table, kind));
        let len = delimited_len(key_part.saturating_add(value_part));
        total = total.saturating_add(tag.saturating_add(len));
    }
    total
}

// The length of a value without its tag.
#[cycle(size)]
fn value_len(value: &Value, table: &Table, kind: Kind) -> u64
    requires { AreAllFieldsAscending table.now }
    ensures { result ≡ capped (length (item_bytes table.now kind (item_of value.now))) }
{
    match value {
        Value::Number(n) => number_len(kind, *n),
        Value::Run(bytes) => delimited_len(bytes.len() as u64),
        Value::Node(tree) => {
            let fields = table.fields(kind.message());
            delimited_len(message_len(tree, table, fields))
        }
    }
}

// The length of a number of the kind.
fn number_len(kind: Kind, n: u64) -> u64
    ensures { result ≡ capped (length (number_bytes kind n)) }
{
    match kind {
        Kind::Fixed64 | Kind::Sfixed64 | Kind::Double => 8,
        Kind::Fixed32 | Kind::Sfixed32 | Kind::Float => 4,
        Kind::Sint32 | Kind::Sint64 => varint_len(zigzag(n.cast_signed())) as u64,
        Kind::Int32
        | Kind::Int64
        | Kind::Uint32
        | Kind::Uint64
        | Kind::Bool
        | Kind::Choice(_)
        | Kind::Text
        | Kind::Octets
        | Kind::Message(_) => varint_len(n) as u64,
    }
}

// The length of a tag.
fn tag_len(number: u32, wire_type: u64) -> u64
    requires { wire_type < 8 }
    ensures { result ≡ capped (length (tag number wire_type)) }
{
    varint_len(8 * u64::from(number) + wire_type) as u64
}

// The length of `len` bytes after their length.
fn delimited_len(len: u64) -> u64
    ensures { (n : ℕ) → len ≡ capped n → result ≡ capped (length (varint n) + n) }
{
    len.saturating_add(varint_len(len) as u64)
}
