//! The entries of the fields of messages.

ghost use Rattle.std.specs.Prelude.{◌≡◌, ◌<◌, ◌++◌, ℕ, List, length, OnOk};
ghost use Rattle.mrpc_table.specs.Ascending.{AreFieldsAscending};
ghost use Rattle.mrpc_table.specs.Normal.{IsNormal};
ghost use Rattle.mrpc_table.specs.Valid.{IsValid};
ghost use Rattle.mrpc_table.specs.View.{item_of, items_of, pairs_of, content_of};
ghost use Rattle.mrpc_table.specs.Words.{key_kind};
ghost use Rattle.text_format.specs.Entries.{IsTextOfMessage, IsTextOfContent, IsTextOfFields, IsTextOfItem, IsTextOfItems, IsTextOfPairs};
ghost use Rattle.text_format.specs.Escapes.{quoted_string};
ghost use Rattle.text_format.specs.Lines.{scalar_line};
ghost use Rattle.text_format.specs.Numbers.{IsNumberText};
ghost use Rattle.text_format.specs.MapEntries.{IsTextOfPair};

use crate::escapes::put_quoted;
use crate::field_info::{FieldInfo, field_info_near, fields_at};
use crate::lines::{deeper, put_closing, put_opening, put_scalar_prefix};
use crate::numbers::put_number;
use mrpc_table::{Bytes, Entries, Field, FieldValue, Kind, Memory, Table, Tree, Value, Values};
use std::alloc::Global;

/// Appends the text of a normal tree of the message with index `msg` in the table.
///
/// The only error is `Memory`; the appended text may then be truncated anywhere. Messages are written by
/// recursion, at most 32 calls deep for a normal tree.
pub fn append_message(
    alloc: Global,
    out: &mut Bytes,
    tree: &Tree,
    table: &Table,
    msg: u32,
) -> Result<(), Memory>
    requires valid { IsValid table.now }
    requires known { msg < length table.now.messages }
    requires normal { IsNormal table.now msg tree.now }
    ensures { OnOk result ((text : List ℕ) × IsTextOfMessage table.now msg tree.now text
        × (out.new ≡ out.old ++ text)) }
{
    put_fields(alloc, out, tree, table, fields_at(table, msg), 0)
}

#[cycle(entries)]
fn put_fields(
    alloc: Global,
    out: &mut Bytes,
    tree: &Tree,
    table: &Table,
    fields: &[Field],
    deep: usize,
) -> Result<(), Memory>
    requires valid { IsValid table.now }
    requires ascend { AreFieldsAscending fields.now }
    ensures { OnOk result ((text : List ℕ) × IsTextOfFields table.now fields.now deep tree.now text
        × (out.new ≡ out.old ++ text)) }
{
    let mut near = 0;
    for part in &tree.fields {
        let (said, place) = field_info_near(fields, part.0, near);
        near = place;
        put_content(alloc, out, &part.1, table, said, deep)?;
    }
    Ok(())
}

#[cycle(entries)]
fn put_content(
    alloc: Global,
    out: &mut Bytes,
    content: &FieldValue,
    table: &Table,
    said: FieldInfo<'_>,
    deep: usize,
) -> Result<(), Memory>
    requires { IsValid table.now }
    ensures { OnOk result ((text : List ℕ) × IsTextOfContent table.now said.entry.name.now said.entry.label
        said.entry.kind deep (content_of content.now) text × (out.new ≡ out.old ++ text)) }
{
    match content {
        FieldValue::One(value) => put_item(alloc, out, value, table, said.name, said.kind, deep),
        FieldValue::Many(values) => {
            put_items(alloc, out, values, table, said.name, said.kind, deep)
        }
        FieldValue::Pairs(entries) => put_pairs(alloc, out, entries, table, said, deep),
    }
}

#[cycle(entries)]
fn put_items(
    alloc: Global,
    out: &mut Bytes,
    values: &Values,
    table: &Table,
    name: &[u8],
    kind: Kind,
    deep: usize,
) -> Result<(), Memory>
    requires { IsValid table.now }
    ensures { OnOk result ((text : List ℕ) × IsTextOfItems table.now name.now kind deep (items_of values.now.items) text
        × (out.new ≡ out.old ++ text)) }
{
    for value in values {
        put_item(alloc, out, value, table, name, kind, deep)?;
    }
    Ok(())
}

#[cycle(entries)]
fn put_pairs(
    alloc: Global,
    out: &mut Bytes,
    entries: &Entries,
    table: &Table,
    said: FieldInfo<'_>,
    deep: usize,
) -> Result<(), Memory>
    requires { IsValid table.now }
    ensures { OnOk result ((text : List ℕ) × IsTextOfPairs table.now said.entry.name.now (key_kind said.entry.label)
        said.entry.kind deep (pairs_of entries.now.items) text × (out.new ≡ out.old ++ text)) }
{
    let inner = deeper(deep)?;
    for entry in entries {
        put_opening(out, said.name, deep)?;
        put_pair(alloc, out, entry, table, said.label.key(), said.kind, inner)?;
        put_closing(out, deep)?;
    }
    Ok(())
}

// The entries of a key and of its value.
#[cycle(entries)]
fn put_pair(
    alloc: Global,
    out: &mut Bytes,
    entry: &(Value, Value),
    table: &Table,
    key: Kind,
    kind: Kind,
    deep: usize,
) -> Result<(), Memory>
    requires { IsValid table.now }
    ensures { OnOk result ((text : List ℕ) × IsTextOfPair table.now key kind deep (item_of entry.now.0)
        (item_of entry.now.1) text × (out.new ≡ out.old ++ text)) }
{
    put_item(alloc, out, &entry.0, table, b"key", key, deep)?;
    put_item(alloc, out, &entry.1, table, b"value", kind, deep)
}

#[cycle(entries)]
fn put_item(
    alloc: Global,
    out: &mut Bytes,
    value: &Value,
    table: &Table,
    name: &[u8],
    kind: Kind,
    deep: usize,
) -> Result<(), Memory>
    requires { IsValid table.now }
    ensures { OnOk result ((text : List ℕ) × IsTextOfItem table.now name.now kind deep (item_of value.now) text
        × (out.new ≡ out.old ++ text)) }
{
    match value {
        Value::Number(word) => put_number_line(alloc, out, *word, table, name, kind, deep),
        Value::Run(bytes) => put_run_line(out, bytes.as_slice(), name, deep),
        Value::Node(tree) => {
            let inner = deeper(deep)?;
            put_opening(out, name, deep)?;
            put_fields(
                alloc,
                out,
                tree,
                table,
                fields_at(table, kind.message()),
                inner,
            )?;
            put_closing(out, deep)
        }
    }
}

fn put_number_line(
    alloc: Global,
    out: &mut Bytes,
    word: u64,
    table: &Table,
    name: &[u8],
    kind: Kind,
    deep: usize,
) -> Result<(), Memory>
    requires { IsValid table.now }
    ensures { OnOk result ((value : List ℕ) × IsNumberText table.now kind word value
        × (out.new ≡ out.old ++ scalar_line deep name.now value)) }
{
    put_scalar_prefix(out, name, deep)?;
    put_number(alloc, out, table, kind, word)?;
    out.append(b"\n")
}

fn put_run_line(out: &mut Bytes, bytes: &[u8], name: &[u8], deep: usize) -> Result<(), Memory>
    ensures { OnOk result (out.new ≡ out.old ++ scalar_line deep name.now (quoted_string bytes.now)) }
{
    put_scalar_prefix(out, name, deep)?;
    put_quoted(out, bytes)?;
    out.append(b"\n")
}
