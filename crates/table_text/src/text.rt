//! The canonical text of a table.

ghost use Rattle.std.specs.Prelude.{◌≡◌, ◌<◌, ◌≤◌, ◌++◌, ◌∷◌, [], ℕ, length, IfOk, OnOk, codes};
ghost use Rattle.std.specs.Fmt.{decimal, signed_decimal};
ghost use Rattle.mrpc_table.specs.Text.{kind_text, label_text, value_line, enum_lines, field_line, message_lines, method_line, table_text, message_name, enum_name, spaced};
ghost use Rattle.mrpc_table.specs.Valid.{IsKnown, IsLabelFor, IsField, IsMessage, IsMethod, IsValid};

use itoa::Buffer;
use mrpc_table::{Bytes, Choices, Field, Kind, Label, Memory, Message, Method, Name, Names, Table};
use std::alloc::Global;

/// The canonical text of a valid table, which determines the table: the enums, the messages and the methods, a line for
/// each part. The only error is `Memory`.
pub fn table_text(alloc: Global, table: &Table) -> Result<Bytes, Memory>
    requires { IsValid table.now }
    ensures { IfOk result (λ text. text ≡ table_text table.now) }
{
    let mut out = Bytes::new(alloc);
    put_table(&mut out, table)?;
    Ok(out)
}

// Writes the text of a table to an empty list.
fn put_table(out: &mut Bytes, table: &Table) -> Result<(), Memory>
    requires valid { IsValid table.now }
    requires empty { out.old ≡ [] }
    ensures { OnOk result (out.new ≡ table_text table.now) }
{
    for choices in table.enums.as_slice() {
        put_enum(out, choices)?;
    }
    for message in table.messages.as_slice() {
        put_message(out, table, message)?;
    }
    for (index, method) in table.methods.as_slice().iter().enumerate() {
        put_method(out, table, index, method)?;
    }
    Ok(())
}

// Appends the digits of a number, after a `-` if it is negative.
fn put_signed(out: &mut Bytes, number: i32) -> Result<(), Memory>
    ensures { OnOk result (out.new ≡ out.old ++ signed_decimal number) }
{
    let mut buffer = Buffer::new();
    out.append(buffer.format(number).as_bytes())
}

fn put_value(out: &mut Bytes, value: &(i32, Name)) -> Result<(), Memory>
    ensures { OnOk result (out.new ≡ out.old ++ value_line value.now) }
{
    out.append(b"value ")?;
    put_signed(out, value.0)?;
    put_word(out, value.1.as_slice())?;
    out.append(b"\n")
}

fn put_enum(out: &mut Bytes, choices: &Choices) -> Result<(), Memory>
    ensures { OnOk result (out.new ≡ out.old ++ enum_lines choices.now) }
{
    out.append(b"enum ")?;
    out.append(choices.name.as_slice())?;
    out.append(b"\n")?;
    for value in choices.values.as_slice() {
        put_value(out, value)?;
    }
    Ok(())
}

fn put_message_name(out: &mut Bytes, table: &Table, message: u32) -> Result<(), Memory>
    requires { message < length table.now.messages }
    ensures { OnOk result (out.new ≡ out.old ++ message_name table.now message) }
{
    out.append(table.messages.as_slice()[message as usize].name.as_slice())
}

fn put_enum_name(out: &mut Bytes, table: &Table, choices: u32) -> Result<(), Memory>
    requires { choices < length table.now.enums }
    ensures { OnOk result (out.new ≡ out.old ++ enum_name table.now choices) }
{
    out.append(table.enums.as_slice()[choices as usize].name.as_slice())
}

fn put_kind(out: &mut Bytes, table: &Table, kind: Kind) -> Result<(), Memory>
    requires { IsKnown table.now kind }
    ensures { OnOk result (out.new ≡ out.old ++ kind_text table.now kind) }
{
    match kind {
        Kind::Int32 => out.append(b"int32"),
        Kind::Int64 => out.append(b"int64"),
        Kind::Uint32 => out.append(b"uint32"),
        Kind::Uint64 => out.append(b"uint64"),
        Kind::Sint32 => out.append(b"sint32"),
        Kind::Sint64 => out.append(b"sint64"),
        Kind::Bool => out.append(b"bool"),
        Kind::Fixed32 => out.append(b"fixed32"),
        Kind::Fixed64 => out.append(b"fixed64"),
        Kind::Sfixed32 => out.append(b"sfixed32"),
        Kind::Sfixed64 => out.append(b"sfixed64"),
        Kind::Float => out.append(b"float"),
        Kind::Double => out.append(b"double"),
        Kind::Text => out.append(b"string"),
        Kind::Octets => out.append(b"bytes"),
        Kind::Message(message) => {
            out.append(b"message:")?;
            put_message_name(out, table, message)
        }
        Kind::Choice(choices) => {
            out.append(b"enum:")?;
            put_enum_name(out, table, choices)
        }
    }
}

fn put_label(
    out: &mut Bytes,
    table: &Table,
    oneofs: &Names,
    kind: Kind,
    label: Label,
) -> Result<(), Memory>
    requires { IsLabelFor (length oneofs.now) label kind }
    ensures { OnOk result (out.new ≡ out.old ++ label_text table.now oneofs.now label) }
{
    match label {
        Label::Plain => out.append(b"plain"),
        Label::Optional => out.append(b"optional"),
        Label::Repeated => out.append(b"repeated"),
        Label::Packed => out.append(b"packed"),
        Label::Map(key) => {
            out.append(b"map:")?;
            put_kind(out, table, key)
        }
        Label::Member(oneof) => {
            out.append(b"oneof:")?;
            out.append(oneofs.as_slice()[oneof as usize].as_slice())
        }
    }
}

fn put_field_head(
    out: &mut Bytes,
    table: &Table,
    oneofs: &Names,
    field: &Field,
) -> Result<(), Memory>
    requires { IsLabelFor (length oneofs.now) field.now.label field.now.kind }
    ensures { OnOk result (out.new ≡ out.old ++ spaced (codes "field" ∷ decimal field.now.number
        ∷ label_text table.now oneofs.now field.now.label ∷ [])) }
{
    out.append(b"field ")?;
    out.append_decimal(u64::from(field.number))?;
    out.append(b" ")?;
    put_label(out, table, oneofs, field.kind, field.label)
}

fn put_kind_word(out: &mut Bytes, table: &Table, kind: Kind) -> Result<(), Memory>
    requires { IsKnown table.now kind }
    ensures { OnOk result (out.new ≡ out.old ++ 32 ∷ kind_text table.now kind) }
{
    out.append(b" ")?;
    put_kind(out, table, kind)
}

fn put_field(out: &mut Bytes, table: &Table, oneofs: &Names, field: &Field) -> Result<(), Memory>
    requires { IsField table.now (length oneofs.now) field.now }
    ensures { OnOk result (out.new ≡ out.old ++ field_line table.now oneofs.now field.now) }
{
    put_field_head(out, table, oneofs, field)?;
    put_kind_word(out, table, field.kind)?;
    put_word(out, field.name.as_slice())?;
    out.append(b"\n")
}

fn put_message(out: &mut Bytes, table: &Table, message: &Message) -> Result<(), Memory>
    requires { IsMessage table.now message.now }
    ensures { OnOk result (out.new ≡ out.old ++ message_lines table.now message.now) }
{
    out.append(b"message ")?;
    out.append(message.name.as_slice())?;
    out.append(b"\n")?;
    for field in message.fields.as_slice() {
        put_field(out, table, &message.oneofs, field)?;
    }
    Ok(())
}

// Appends a space and a word.
fn put_word(out: &mut Bytes, word: &[u8]) -> Result<(), Memory>
    ensures { OnOk result (out.new ≡ out.old ++ 32 ∷ word.now) }
{
    out.append(b" ")?;
    out.append(word)
}

fn put_method_head(out: &mut Bytes, index: usize, method: &Method) -> Result<(), Memory>
    ensures { OnOk result (out.new ≡ out.old ++ spaced (codes "method" ∷ decimal index ∷ method.now.service
        ∷ method.now.name ∷ [])) }
{
    out.append(b"method ")?;
    out.append_decimal(index as u64)?;
    put_word(out, method.service.as_slice())?;
    put_word(out, method.name.as_slice())
}

fn put_message_word(out: &mut Bytes, table: &Table, message: u32) -> Result<(), Memory>
    requires { message < length table.now.messages }
    ensures { OnOk result (out.new ≡ out.old ++ 32 ∷ message_name table.now message) }
{
    out.append(b" ")?;
    put_message_name(out, table, message)
}

fn put_method(out: &mut Bytes, table: &Table, index: usize, method: &Method) -> Result<(), Memory>
    requires { IsMethod table.now method.now }
    ensures { OnOk result (out.new ≡ out.old ++ method_line table.now (index, method.now)) }
{
    put_method_head(out, index, method)?;
    put_message_word(out, table, method.input)?;
    put_message_word(out, table, method.output)?;
    out.append(b"\n")
}
