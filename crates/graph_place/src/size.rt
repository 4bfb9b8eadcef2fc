//! The number of words of messages in a heap.

ghost use Rattle.std.specs.Prelude.{◌≡◌, ◌<◌, length};
ghost use Rattle.mrpc_table.specs.Normal.{IsNormal};
ghost use Rattle.mrpc_table.specs.Valid.{IsValid};
ghost use Rattle.mrpc_table.specs.View.{item_of, items_of, pairs_of, content_of};
ghost use Rattle.mrpc_table.specs.Capped.{capped};
ghost use Rattle.graph_place.specs.Size.{tree_words, content_words, item_words, many_words, pairs_words, run_words_of};

use crate::look_up::kind_of;
use graph_form::{element_words, run_words, size_words};
use mrpc_table::{Entries, FieldValue, Kind, Table, Tree, Value, Values};

/// The number of words of a normal tree of the message at index `msg` of the table in a heap, or 2^64 - 1 if it is
/// more. It allocates nothing.
pub fn place_words(tree: &Tree, table: &Table, msg: u32) -> u64
    requires valid { IsValid table.now }
    requires known { msg < length table.now.messages }
    requires normal { IsNormal table.now msg tree.now }
    ensures { result ≡ capped (tree_words table.now msg tree.now) }
{
    node_words(tree, table, msg)
}

// The words of a node with all its content.
#[cycle(size)]
fn node_words(tree: &Tree, table: &Table, msg: u32) -> u64
    requires { IsValid table.now }
    ensures { result ≡ capped (tree_words table.now msg tree.now) }
{
    let mut total = size_words(table, msg);
    for field in &tree.fields {
        let kind = kind_of(table, msg, field.0);
        total = total.saturating_add(content_words(&field.1, table, kind));
    }
    total
}

// The words of a field's content, besides its slot.
#[cycle(size)]
fn content_words(content: &FieldValue, table: &Table, kind: Kind) -> u64
    requires { IsValid table.now }
    ensures { result ≡ capped (content_words table.now kind (content_of content.now)) }
{
    match content {
        FieldValue::One(value) => item_words(value, table, kind),
        FieldValue::Many(values) => elements_words(values, table, kind),
        FieldValue::Pairs(entries) => entries_words(entries, table, kind),
    }
}

// The words of elements with their content.
#[cycle(size)]
fn elements_words(values: &Values, table: &Table, kind: Kind) -> u64
    requires { IsValid table.now }
    ensures { result ≡ capped (many_words table.now kind (items_of values.now.items)) }
{
    let width = element_words(kind);
    let mut total = 0u64;
    for value in values {
        let content = item_words(value, table, kind);
        total = total.saturating_add(content.saturating_add(width));
    }
    total
}

// The words of entries with the content of their keys and values.
#[cycle(size)]
fn entries_words(entries: &Entries, table: &Table, kind: Kind) -> u64
    requires { IsValid table.now }
    ensures { result ≡ capped (pairs_words table.now kind (pairs_of entries.now.items)) }
{
    let mut total = 0u64;
    for entry in entries {
        let content = key_words(&entry.0).saturating_add(item_words(&entry.1, table, kind));
        total = total.saturating_add(content.saturating_add(4));
    }
    total
}

// The words that a value of the kind needs besides its slot.
#[cycle(size)]
fn item_words(value: &Value, table: &Table, kind: Kind) -> u64
    requires { IsValid table.now }
    ensures { result ≡ capped (item_words table.now kind (item_of value.now)) }
{
    match value {
        Value::Number(_) => 0,
        Value::Run(bytes) => run_words(bytes.len() as u64),
        Value::Node(tree) => node_words(tree, table, kind.message()),
    }
}

// The words that a key, a number or a run, needs besides its slot.
fn key_words(key: &Value) -> u64
    ensures { result ≡ capped (run_words_of (item_of key.now)) }
{
    match key {
        Value::Run(bytes) => run_words(bytes.len() as u64),
        Value::Number(_) | Value::Node(_) => 0,
    }
}
