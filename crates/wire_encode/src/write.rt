//! Writes a message from its end: each call puts its bytes before those written so far.

ghost use Rattle.std.specs.Prelude.{◌≡◌, ◌-◌, ◌<◌, ◌≤◌, List, ◌++◌, length, OnOk};
ghost use Rattle.mrpc_table.specs.Normal.{kind_at, label_at};
ghost use Rattle.mrpc_table.specs.View.{item_of, items_of, pairs_of, content_of};
ghost use Rattle.mrpc_table.specs.declared.table.Field.{Field};
ghost use Rattle.wire_base.specs.Encoding.{varint, tag, delimited, number_bytes, item_bytes, joined_bytes, records_bytes, entries_bytes, content_bytes, fields_bytes};
ghost use Rattle.mrpc_table.specs.Ascending.{AreAllFieldsAscending, AreFieldsAscending};
ghost use Rattle.wire_encode.specs.Records.{record_bytes, entry_bytes};

use crate::backward_buffer::BackwardBuffer;
use crate::look_up::type_near;
use mrpc_table::{Entries, Field, FieldValue, Kind, Label, Memory, Table, Tree, Value, Values};
use wire_base::zigzag;

// Writes a message.
#[cycle(write)]
pub(crate) fn write_message(
    out: &mut BackwardBuffer,
    tree: &Tree,
    table: &Table,
    fields: &[Field],
) -> Result<(), Memory>
    requires all { AreAllFieldsAscending table.now }
    requires ascend { AreFieldsAscending fields.now }
    ensures { OnOk result (out.new ≡ fields_bytes table.now fields.now tree.now ++ out.old) }
{
    let parts = &tree.fields;
    let mut behind = fields.len();
    for place in (0..parts.len()).rev() {
        let field = &parts[place];
        let (kind, label, at) = type_near(fields, field.0, behind.saturating_sub(1));
        behind = at;
        write_field(out, &field.1, table, field.0, kind, label)?;
    }
    Ok(())
}

// Writes the content of a field of this kind and label.
#[cycle(write)]
#[inline(always)]
fn write_field(
    out: &mut BackwardBuffer,
    content: &FieldValue,
    table: &Table,
    number: u32,
    kind: Kind,
    label: Label,
) -> Result<(), Memory>
    requires { AreAllFieldsAscending table.now }
    ensures { (fs : List Field) → kind ≡ kind_at fs number → label ≡ label_at fs number
        → OnOk result (out.new ≡ content_bytes table.now fs number (content_of content.now) ++ out.old) }
{
    match content {
        FieldValue::One(value) => write_record(out, value, table, number, kind),
        FieldValue::Many(values) => match label {
            Label::Packed => write_packed(out, values, table, number, kind),
            Label::Plain | Label::Optional | Label::Repeated | Label::Map(_) | Label::Member(_) =>
                write_records(out, values, table, number, kind),
        },
        FieldValue::Pairs(entries) => {
            write_entries(out, entries, table, number, label.key(), kind)
        }
    }
}

// Writes the record of a packed field.
#[cycle(write)]
#[inline(never)]
fn write_packed(
    out: &mut BackwardBuffer,
    values: &Values,
    table: &Table,
    number: u32,
    kind: Kind,
) -> Result<(), Memory>
    requires { AreAllFieldsAscending table.now }
    ensures { OnOk result (out.new
        ≡ (tag number 2 ++ delimited (joined_bytes table.now kind (items_of values.now.items))) ++ out.old) }
{
    let behind = out.len();
    write_joined(out, values, table, kind)?;
    write_length(out, behind)?;
    write_tag(out, number, 2)
}

// Writes the elements of a packed field.
#[cycle(write)]
fn write_joined(
    out: &mut BackwardBuffer,
    values: &Values,
    table: &Table,
    kind: Kind,
) -> Result<(), Memory>
    requires { AreAllFieldsAscending table.now }
    ensures { OnOk result (out.new ≡ joined_bytes table.now kind (items_of values.now.items) ++ out.old) }
{
    for place in (0..values.len()).rev() {
        let value = &values[place];
        write_value(out, value, table, kind)?;
    }
    Ok(())
}

// Writes a record for each element.
#[cycle(write)]
#[inline(never)]
fn write_records(
    out: &mut BackwardBuffer,
    values: &Values,
    table: &Table,
    number: u32,
    kind: Kind,
) -> Result<(), Memory>
    requires { AreAllFieldsAscending table.now }
    ensures { OnOk result (out.new ≡ records_bytes table.now number kind (items_of values.now.items) ++ out.old) }
{
    for place in (0..values.len()).rev() {
        let value = &values[place];
        write_record(out, value, table, number, kind)?;
    }
    Ok(())
}

// Writes the record of a value.
#[cycle(write)]
#[inline(always)]
fn write_record(
    out: &mut BackwardBuffer,
    value: &Value,
    table: &Table,
    number: u32,
    kind: Kind,
) -> Result<(), Memory>
    requires { AreAllFieldsAscending table.now }
    ensures { OnOk result (out.new ≡ record_bytes table.now number kind (item_of value.now) ++ out.old) }
{
    write_value(out, value, table, kind)?;
    write_tag(out, number, kind.wire_type())
}

// Writes a record for each entry.
#[cycle(write)]
#[inline(never)]
fn write_entries(
    out: &mut BackwardBuffer,
    entries: &Entries,
    table: &Table,
    number: u32,
    key: Kind,
    kind: Kind,
) -> Result<(), Memory>
    requires { AreAllFieldsAscending table.now }
    ensures { OnOk result (out.new ≡ entries_bytes table.now number key kind (pairs_of entries.now.items) ++ out.old) }
{
    for place in (0..entries.len()).rev() {
        let entry = &entries[place];
        write_entry(out, entry, table, number, key, kind)?;
    }
    Ok(())
}

// Writes the record of an entry.
#[cycle(write)]
fn write_entry(
    out: &mut BackwardBuffer,
    entry: &(Value, Value),
    table: &Table,
    number: u32,
    key: Kind,
    kind: Kind,
) -> Result<(), Memory>
    requires { AreAllFieldsAscending table.now }
    ensures { OnOk result
        (out.new ≡ entry_bytes table.now number key kind (item_of entry.now.0) (item_of entry.now.1) ++ out.old) }
{
    let behind = out.len();
    write_record(out, &entry.1, table, 2, kind)?;
    write_record(out, &entry.0, table, 1, key)?;
    write_length(out, behind)?;
    write_tag(out, number, 2)
}

// Writes a value without its tag.
#[cycle(write)]
#[inline(always)]
fn write_value(
    out: &mut BackwardBuffer,
    value: &Value,
    table: &Table,
    kind: Kind,
) -> Result<(), Memory>
    requires { AreAllFieldsAscending table.now }
    ensures { OnOk result (out.new ≡ item_bytes table.now kind (item_of value.now) ++ out.old) }
{
    match value {
        Value::Number(n) => write_number(out, kind, *n),
        Value::Run(bytes) => {
            out.put(bytes.as_slice())?;
            out.put_varint(bytes.len() as u64)
        }
        Value::Node(tree) => {
            let behind = out.len();
            write_message(out, tree, table, table.fields(kind.message()))?;
            write_length(out, behind)
        }
    }
}

// Writes how many bytes were written since the buffer had `behind` of them.
fn write_length(out: &mut BackwardBuffer, behind: usize) -> Result<(), Memory>
    requires { behind ≤ length out.old }
    ensures { OnOk result (out.new ≡ varint (length out.old - behind) ++ out.old) }
{
    let len = out.len() - behind;
    out.put_varint(len as u64)
}

// Writes a number of the kind.
#[inline(always)]
fn write_number(out: &mut BackwardBuffer, kind: Kind, n: u64) -> Result<(), Memory>
    ensures { OnOk result (out.new ≡ number_bytes kind n ++ out.old) }
{
    match kind {
        Kind::Fixed64 | Kind::Sfixed64 | Kind::Double => out.put(&n.to_le_bytes()),
        Kind::Fixed32 | Kind::Sfixed32 | Kind::Float => out.put(&n.to_le_bytes()[..4]),
        Kind::Sint32 | Kind::Sint64 => out.put_varint(zigzag(n.cast_signed())),
        Kind::Int32
        | Kind::Int64
        | Kind::Uint32
        | Kind::Uint64
        | Kind::Bool
        | Kind::Choice(_)
        | Kind::Text
        | Kind::Octets
        | Kind::Message(_) => out.put_varint(n),
    }
}

// Writes a tag.
fn write_tag(out: &mut BackwardBuffer, number: u32, wire_type: u64) -> Result<(), Memory>
    requires { wire_type < 8 }
    ensures { OnOk result (out.new ≡ tag number wire_type ++ out.old) }
{
    out.put_varint(8 * u64::from(number) + wire_type)
}
