//! Whether a tree is a normal tree of a message.

ghost use Rattle.std.specs.Prelude.{◌≡◌, ◌<◌, ◌≤◌, ◌↔◌, ℕ, length, IsTrue};
ghost use Rattle.std.specs.Option.{option_copied};
ghost use Rattle.mrpc_table.specs.declared.table.Kind.{Kind};
ghost use Rattle.mrpc_table.specs.declared.table.Label.TheVariants.{Map};
ghost use Rattle.mrpc_table.specs.Words.{rank};
ghost use Rattle.mrpc_table.specs.Normal.{IsNormal, IsRun, IsBefore, AreKeysAscending, CanHaveOne, CanHaveMany};
ghost use Rattle.mrpc_table.specs.Valid.{IsValid, IsMessage, IsKnown};
ghost use Rattle.mrpc_table.specs.View.{item_of, items_of, pairs_of, content_of};
ghost use Rattle.mrpc_table.specs.NormalParts.{IsNormalWithin, IsNormalSuffix, IsContentWithin, IsItemWithin, AreItemsWithin, ArePairsWithin, is_free, taken_after, IsOneofWithin};

use crate::limits::{MAX_DEPTH, MAX_FIELDS};
use crate::table::{Field, Kind, Label, Message, Table};
use crate::tree::{FieldValue, Tree, Value};
use std::cmp::Ordering;

/// Whether the tree is a normal tree of the message. Its fields belong to the message, in ascending order. Each number
/// is a word form of its kind, and strings are UTF-8. No field with implicit presence has its default, and no repeated
/// field or map is empty. Map keys ascend, a oneof has at most one member, and messages nest at most 32 deep. In a
/// deeper tree the check stops at the 33rd level.
pub fn fits(tree: &Tree, table: &Table, msg: u32) -> bool
    requires valid { IsValid table.now }
    requires known { msg < length table.now.messages }
    ensures { IsTrue result ↔ IsNormal table.now msg tree.now }
{
    tree_fits(tree, table, msg, MAX_DEPTH)
}

#[cycle(fits)]
fn tree_fits(tree: &Tree, table: &Table, msg: u32, room: u32) -> bool
    requires valid { IsValid table.now }
    requires known { msg < length table.now.messages }
    ensures { IsTrue result ↔ IsNormalWithin table.now msg room tree.now }
{
    if room == 0 {
        return false;
    }
    let message = &table.messages.as_slice()[msg as usize];
    let mut taken = [false; MAX_FIELDS];
    fields_fit(tree, message, &mut taken, table, room)
}

// `taken` records for each oneof whether it has a member.
#[cycle(fits)]
fn fields_fit(tree: &Tree, message: &Message, taken: &mut [bool], table: &Table, room: u32) -> bool
    requires valid { IsValid table.now }
    requires message { IsMessage table.now message.now }
    requires places { length taken.old ≡ 128 }
    requires room { 0 < room }
    ensures { IsTrue result ↔ IsNormalSuffix table.now message.now.fields room 0 taken.old tree.now }
{
    let mut last = 0;
    for (number, content) in &tree.fields {
        if *number <= last {
            return false;
        }
        let Some(field) = message.field(*number) else {
            return false;
        };
        if !content_fits(content, field, table, room) || !take_member(taken, field.label) {
            return false;
        }
        last = *number;
    }
    true
}

#[cycle(fits)]
fn content_fits(content: &FieldValue, field: &Field, table: &Table, room: u32) -> bool
    requires valid { IsValid table.now }
    requires kind { IsKnown table.now field.now.kind }
    requires key { (k : Kind) → field.now.label ≡ Map k → IsKnown table.now k }
    ensures { IsTrue result ↔ IsContentWithin table.now field.now room (content_of content.now) }
{
    match content {
        FieldValue::One(value) => {
            can_have_one(field.label, value) && item_fits(value, field.kind, table, room)
        }
        FieldValue::Many(values) => {
            if !can_have_many(field.label) {
                return false;
            }
            !values.is_empty() && items_fit(values, field.kind, table, room)
        }
        FieldValue::Pairs(entries) => {
            let Label::Map(key) = field.label else {
                return false;
            };
            if !pairs_fit(entries, key, field.kind, table, room) {
                return false;
            }
            !entries.is_empty() && keys_ascend(key, entries)
        }
    }
}

#[cycle(fits)]
fn items_fit(values: &[Value], kind: Kind, table: &Table, room: u32) -> bool
    requires valid { IsValid table.now }
    requires kind { IsKnown table.now kind }
    ensures { IsTrue result ↔ AreItemsWithin table.now kind room (items_of values.now) }
{
    for value in values {
        if !item_fits(value, kind, table, room) {
            return false;
        }
    }
    true
}

#[cycle(fits)]
fn pairs_fit(entries: &[(Value, Value)], key: Kind, kind: Kind, table: &Table, room: u32) -> bool
    requires valid { IsValid table.now }
    requires key { IsKnown table.now key }
    requires kind { IsKnown table.now kind }
    ensures { IsTrue result ↔ ArePairsWithin table.now key kind room (pairs_of entries.now) }
{
    for entry in entries {
        if !item_fits(&entry.0, key, table, room) || !item_fits(&entry.1, kind, table, room) {
            return false;
        }
    }
    true
}

#[cycle(fits)]
fn item_fits(value: &Value, kind: Kind, table: &Table, room: u32) -> bool
    requires valid { IsValid table.now }
    requires kind { IsKnown table.now kind }
    ensures { IsTrue result ↔ IsItemWithin table.now kind room (item_of value.now) }
{
    match value {
        Value::Number(word) => kind.is_word_form(*word),
        Value::Run(bytes) => is_run(kind, bytes.as_slice()),
        Value::Node(tree) => match kind {
            Kind::Message(msg) => room > 0 && tree_fits(tree, table, msg, room - 1),
            _ => false,
        },
    }
}

// Marks the oneof of a label as having a member, and returns whether it had none before.
fn take_member(taken: &mut [bool], label: Label) -> bool
    requires { IsOneofWithin (length taken.old) label }
    ensures free { result ≡ is_free taken.old label }
    ensures after { taken.new ≡ taken_after taken.old label }
{
    match label {
        Label::Member(oneof) => {
            let free = !taken[oneof as usize];
            taken[oneof as usize] = true;
            free
        }
        Label::Plain | Label::Optional | Label::Repeated | Label::Packed | Label::Map(_) => true,
    }
}

fn is_run(kind: Kind, bytes: &[u8]) -> bool
    ensures { IsTrue result ↔ IsRun kind bytes.now }
{
    match kind {
        Kind::Text => std::str::from_utf8(bytes).is_ok(),
        Kind::Octets => true,
        Kind::Message(_) => false,
        Kind::Int32
        | Kind::Int64
        | Kind::Uint32
        | Kind::Uint64
        | Kind::Sint32
        | Kind::Sint64
        | Kind::Bool
        | Kind::Fixed32
        | Kind::Fixed64
        | Kind::Sfixed32
        | Kind::Sfixed64
        | Kind::Float
        | Kind::Double
        | Kind::Choice(_) => false,
    }
}

fn is_before(kind: Kind, first: &Value, second: &Value) -> bool
    ensures { IsTrue result ↔ IsBefore kind (item_of first.now) (item_of second.now) }
{
    match (first, second) {
        (Value::Number(m), Value::Number(n)) => kind.rank(*m) < kind.rank(*n),
        (Value::Run(a), Value::Run(b)) => {
            matches!(a.as_slice().cmp(&b.as_slice()), Ordering::Less)
        }
        _ => false,
    }
}

fn keys_ascend(kind: Kind, entries: &[(Value, Value)]) -> bool
    ensures { IsTrue result ↔ AreKeysAscending kind (pairs_of entries.now) }
{
    for i in 1..entries.len() {
        if !is_before(kind, &entries[i - 1].0, &entries[i].0) {
            return false;
        }
    }
    true
}

fn can_have_one(label: Label, value: &Value) -> bool
    ensures { IsTrue result ↔ CanHaveOne label (item_of value.now) }
{
    match label {
        Label::Plain => match value {
            Value::Number(word) => *word != 0,
            Value::Run(bytes) => !bytes.is_empty(),
            Value::Node(_) => true,
        },
        Label::Optional | Label::Member(_) => true,
        Label::Repeated | Label::Packed | Label::Map(_) => false,
    }
}

fn can_have_many(label: Label) -> bool
    ensures { IsTrue result ↔ CanHaveMany label }
{
    matches!(label, Label::Repeated | Label::Packed)
}
