//! Merging: the message that the contents of records represent. Each field gets its value from its own records, and
//! fields, entries and oneofs are brought into normal form.

ghost use Rattle.std.specs.Prelude.{◌≡◌, ℕ, ◌<◌, length, IfOk, IsTrue, Some, true, map, option_map, List, [], ◌∷◌, ◌++◌, OnOk};
ghost use Rattle.mrpc_table.specs.View.{item_of, content_of, node_of, pairs_of};
ghost use Rattle.mrpc_table.specs.MapEntries.{last_of_each};
ghost use Rattle.wire_decode.specs.Merged.{contents_of, join_fields, merged, field_content, singular, merged_element, merged_entry, joined_messages, singles_in};
ghost use Rattle.wire_decode.specs.Contents.{with_content, some_items, some_pairs, present, present_if_set, is_default_item, default_item_of};
ghost use Rattle.wire_decode.specs.EntryParts.{IsMeaningOfAll, found_entry, found_part, IsWithOneMore};
ghost use Rattle.wire_decode.specs.Finished.{finish_at, finished_of};
ghost use Rattle.wire_decode.specs.NumberOrder.{AreNumbersSortedFrom};
ghost use Rattle.wire_decode.specs.Gathered.{IsGathered};
ghost use Rattle.wire_decode.specs.TwoInOne.{merge_mode_of};
ghost use Rattle.mrpc_table.specs.SortedEntries.{items_of_entry};
ghost use Rattle.mrpc_table.specs.Normal.{field_at};
ghost use Rattle.mrpc_table.specs.declared.table.Field.{Field};
ghost use Rattle.mrpc_table.specs.Ascending.{AreAllFieldsAscending, AreFieldsAscending};
ghost use Rattle.mrpc_table.specs.Node.{Item, field, no_fields};

use crate::gather::{MergeMode, add, joined_value, merge_mode_of, values_of};
use crate::number::is_message_kind;
use crate::oneof::counted_records;
use mrpc_table::{
    Bytes, Entries, Field, FieldValue, Kind, Label, Memory, Numbered, Table, Tree, Value, Values,
    find_field, last_of_each,
};
use std::alloc::Global;

// The message at an index of the table that the contents represent, with at most `depth` levels of messages.
#[cycle(merge)]
pub(crate) fn merged(
    alloc: Global,
    raw: Numbered,
    table: &Table,
    place: u32,
    depth: u32,
) -> Result<Tree, Memory>
    requires { AreAllFieldsAscending table.now }
    ensures { IfOk result (λ t. t ≡ merged table.now depth place (node_of raw.items)) }
{
    if depth == 0 {
        return Ok(Tree {
            fields: Vec::new(alloc),
        });
    }
    let fields = table.fields(place);
    let raw = by_number(counted_records(alloc, raw, fields)?)?;
    let held = gathered(alloc, raw, fields)?;
    let fields = finished(alloc, held, table, fields, depth - 1)?;
    Ok(Tree { fields })
}

// The contents by ascending number, those of one number in their original order.
fn by_number(raw: Numbered) -> Result<Numbered, Memory>
    ensures sorted { IfOk result (λ parts. AreNumbersSortedFrom 0 (node_of parts.items)) }
    ensures same { IfOk result
        (λ parts. (n : ℕ) → contents_of n (node_of parts.items) ≡ contents_of n (node_of raw.items)) }
{
    if ascends(&raw) {
        return Ok(raw);
    }
    let mut parts = raw;
    parts.sort_by_key(|part| part.0)?;
    Ok(parts)
}

// Whether no number is below the previous one.
fn ascends(raw: &Numbered) -> bool
    ensures { IsTrue result → AreNumbersSortedFrom 0 (node_of raw.now.items) }
{
    let mut last = 0;
    for part in raw {
        if part.0 < last {
            return false;
        }
        last = part.0;
    }
    true
}

// The contents of each number, combined into one.
fn gathered(alloc: Global, raw: Numbered, fields: &[Field]) -> Result<Numbered, Memory>
    requires ascend { AreFieldsAscending fields.now }
    requires sorted { AreNumbersSortedFrom 0 (node_of raw.items) }
    ensures { IfOk result (λ held. IsGathered fields.now (node_of raw.items) (node_of held.items)) }
{
    let mut held = Vec::with_capacity(alloc, raw.len().min(fields.len()))?;
    let mut hint = 0;
    for (number, content) in raw {
        let (form, place) = merge_mode_at(fields, number, hint);
        hint = place;
        add(alloc, &mut held, number, content, form)?;
    }
    Ok(held)
}

// How the contents of the field with a number become one, and the field's index.
fn merge_mode_at(fields: &[Field], number: u32, hint: usize) -> (MergeMode, usize)
    requires { AreFieldsAscending fields.now }
    ensures { (f : Field) → field_at fields.now number ≡ Some f → result.0 ≡ merge_mode_of f.label f.kind }
{
    match find_field(fields, number, hint) {
        Some(place) => {
            let field = &fields[place];
            (merge_mode_of(field.label, field.kind), place)
        }
        None => (MergeMode::Last, hint),
    }
}

// The final content of each field, from its combined content.
#[cycle(merge)]
fn finished(
    alloc: Global,
    held: Numbered,
    table: &Table,
    fields: &[Field],
    depth: u32,
) -> Result<Numbered, Memory>
    requires all { AreAllFieldsAscending table.now }
    requires ascend { AreFieldsAscending fields.now }
    ensures { IfOk result
        (λ whole. node_of whole.items
        ≡ finished_of (merged table.now depth) fields.now (node_of held.items)) }
{
    let mut whole = Vec::with_capacity(alloc, held.len())?;
    let mut hint = 0;
    for (number, content) in held {
        let (done, place) = finish(alloc, content, table, fields, number, hint, depth)?;
        hint = place;
        push_content(&mut whole, number, done)?;
    }
    Ok(whole)
}

// The final content of the field with a number, and the field's index.
#[cycle(merge)]
fn finish(
    alloc: Global,
    content: FieldValue,
    table: &Table,
    fields: &[Field],
    number: u32,
    hint: usize,
    depth: u32,
) -> Result<(Option<FieldValue>, usize), Memory>
    requires all { AreAllFieldsAscending table.now }
    requires ascend { AreFieldsAscending fields.now }
    ensures { IfOk result
        (λ r. option_map content_of r.0
        ≡ finish_at (merged table.now depth) fields.now number (content_of content)) }
{
    match find_field(fields, number, hint) {
        Some(place) => {
            let field = &fields[place];
            let (label, kind) = (field.label, field.kind);
            let done = field_content(alloc, content, table, label, kind, depth)?;
            Ok((done, place))
        }
        None => Ok((None, hint)),
    }
}

// Appends the content of a field, if it has one.
pub(crate) fn push_content(
    whole: &mut Numbered,
    number: u32,
    content: Option<FieldValue>,
) -> Result<(), Memory>
    ensures { OnOk result
        (node_of whole.new.items
        ≡ join_fields (node_of whole.old.items)
        (with_content number (option_map content_of content) no_fields)) }
{
    match content {
        Some(content) => {
            whole.push((number, content))?;
            Ok(())
        }
        None => Ok(()),
    }
}

// The final content of a field, if it has one.
#[cycle(merge)]
fn field_content(
    alloc: Global,
    held: FieldValue,
    table: &Table,
    label: Label,
    kind: Kind,
    depth: u32,
) -> Result<Option<FieldValue>, Memory>
    requires { AreAllFieldsAscending table.now }
    ensures { IfOk result
        (λ o. option_map content_of o
        ≡ field_content (merged table.now depth) label kind (content_of held ∷ [])) }
{
    match label {
        Label::Repeated | Label::Packed => {
            let values = elements(alloc, values_of(alloc, held)?, table, kind, depth)?;
            Ok(many(values))
        }
        Label::Map(key) => {
            let entries = entries(alloc, values_of(alloc, held)?, table, key, kind, depth)?;
            Ok(pairs(entries))
        }
        Label::Plain => {
            let value = singular(alloc, held, table, kind, depth)?;
            Ok(present_if_set(value))
        }
        Label::Optional | Label::Member(_) => {
            let value = singular(alloc, held, table, kind, depth)?;
            Ok(present(value))
        }
    }
}

// The elements of a repeated field, if there are any.
pub(crate) fn many(values: Values) -> Option<FieldValue>
    ensures { option_map content_of result ≡ some_items (map item_of values.items) }
{
    if values.is_empty() {
        None
    } else {
        Some(FieldValue::Many(values))
    }
}

// The entries of a map, if there are any.
pub(crate) fn pairs(entries: Entries) -> Option<FieldValue>
    ensures { option_map content_of result ≡ some_pairs (pairs_of entries.items) }
{
    if entries.is_empty() {
        None
    } else {
        Some(FieldValue::Pairs(entries))
    }
}

// The value of a field with explicit presence.
pub(crate) fn present(value: Option<Value>) -> Option<FieldValue>
    ensures { option_map content_of result ≡ present (option_map item_of value) }
{
    match value {
        Some(value) => Some(FieldValue::One(value)),
        None => None,
    }
}

// The value of a field with implicit presence: a default is left out.
pub(crate) fn present_if_set(value: Option<Value>) -> Option<FieldValue>
    ensures { option_map content_of result ≡ present_if_set (option_map item_of value) }
{
    match value {
        Some(value) => {
            if is_default_item(&value) {
                None
            } else {
                Some(FieldValue::One(value))
            }
        }
        None => None,
    }
}

// Whether a value is the number 0, or an empty run.
fn is_default_item(value: &Value) -> bool
    ensures { result ≡ is_default_item (item_of value.now) }
{
    match value {
        Value::Number(n) => *n == 0,
        Value::Run(bytes) => bytes.is_empty(),
        Value::Node(_) => false,
    }
}

// The value of a singular field.
#[cycle(merge)]
fn singular(
    alloc: Global,
    held: FieldValue,
    table: &Table,
    kind: Kind,
    depth: u32,
) -> Result<Option<Value>, Memory>
    requires { AreAllFieldsAscending table.now }
    ensures { IfOk result
        (λ o. option_map item_of o
        ≡ singular (merged table.now depth) kind (singles_in (content_of held ∷ []))) }
{
    match held {
        FieldValue::One(value) => Ok(Some(element(alloc, value, table, kind, depth)?)),
        _ => Ok(None),
    }
}

// A value; a message is merged.
#[cycle(merge)]
fn element(
    alloc: Global,
    value: Value,
    table: &Table,
    kind: Kind,
    depth: u32,
) -> Result<Value, Memory>
    requires { AreAllFieldsAscending table.now }
    ensures { IfOk result (λ v. item_of v ≡ merged_element (merged table.now depth) kind (item_of value)) }
{
    match kind {
        Kind::Message(place) => {
            let tree = merged(alloc, fields_in(alloc, value), table, place, depth)?;
            Ok(Value::Node(tree))
        }
        _ => Ok(value),
    }
}

// The fields of a message.
fn fields_in(alloc: Global, value: Value) -> Numbered
    ensures { node_of result.items ≡ joined_messages (item_of value ∷ []) }
{
    match value {
        Value::Node(tree) => tree.fields,
        _ => Vec::new(alloc),
    }
}

// The elements of a repeated field.
#[cycle(merge)]
fn elements(
    alloc: Global,
    values: Values,
    table: &Table,
    kind: Kind,
    depth: u32,
) -> Result<Values, Memory>
    requires { AreAllFieldsAscending table.now }
    ensures { IfOk result
        (λ vs. map item_of vs.items
        ≡ map (merged_element (merged table.now depth) kind) (map item_of values.items)) }
{
    if !is_message_kind(kind) {
        return Ok(values);
    }
    let mut elements = Vec::with_capacity(alloc, values.len())?;
    for value in values {
        elements.push(element(alloc, value, table, kind, depth)?)?;
    }
    Ok(elements)
}

// The entries of a map.
#[cycle(merge)]
fn entries(
    alloc: Global,
    values: Values,
    table: &Table,
    key: Kind,
    kind: Kind,
    depth: u32,
) -> Result<Entries, Memory>
    requires { AreAllFieldsAscending table.now }
    ensures { IfOk result
        (λ ps. pairs_of ps.items
        ≡ last_of_each key (map (merged_entry (merged table.now depth) key kind) (map item_of values.items))) }
{
    let mut entries = Vec::with_capacity(alloc, values.len())?;
    for value in values {
        let raw = fields_in(alloc, value);
        entries.push(entry(alloc, raw, table, key, kind, depth)?)?;
    }
    last_of_each(alloc, entries, key)
}

// The key and the value of an entry.
#[cycle(merge)]
fn entry(
    alloc: Global,
    raw: Numbered,
    table: &Table,
    key: Kind,
    kind: Kind,
    depth: u32,
) -> Result<(Value, Value), Memory>
    requires { AreAllFieldsAscending table.now }
    ensures { IfOk result
        (λ e. items_of_entry e ≡ found_entry (merged table.now depth) key kind (node_of raw.items)) }
{
    let mut keys = None;
    let mut values = None;
    for (number, content) in raw {
        let (some_key, some_value) = noted(keys, values, number, content, key, kind)?;
        keys = some_key;
        values = some_value;
    }
    let key = part(alloc, keys, table, key, depth)?;
    let value = part(alloc, values, table, kind, depth)?;
    Ok((key, value))
}

// The combined keys and values of an entry, with one content more.
fn noted(
    keys: Option<Value>,
    values: Option<Value>,
    number: u32,
    content: FieldValue,
    key: Kind,
    kind: Kind,
) -> Result<(Option<Value>, Option<Value>), Memory>
    ensures key { IfOk result
        (λ r. (is : List Item) → IsMeaningOfAll key is (option_map item_of keys)
        → IsMeaningOfAll key
        (is ++ singles_in (contents_of 1 (field number (content_of content) no_fields)))
        (option_map item_of r.0)) }
    ensures value { IfOk result
        (λ r. (is : List Item) → IsMeaningOfAll kind is (option_map item_of values)
        → IsMeaningOfAll kind
        (is ++ singles_in (contents_of 2 (field number (content_of content) no_fields)))
        (option_map item_of r.1)) }
{
    match content {
        FieldValue::One(value) => {
            if number == 1 {
                let whole = with(keys, value, key)?;
                Ok((Some(whole), values))
            } else if number == 2 {
                let whole = with(values, value, kind)?;
                Ok((keys, Some(whole)))
            } else {
                Ok((keys, values))
            }
        }
        _other => Ok((keys, values)),
    }
}

// The combined values of a singular field, with one value more.
fn with(before: Option<Value>, value: Value, kind: Kind) -> Result<Value, Memory>
    ensures { IfOk result
        (λ v. IsWithOneMore kind (option_map item_of before) (item_of value) (item_of v)) }
{
    match before {
        Some(before) => joined_value(before, value, is_message_kind(kind)),
        None => Ok(value),
    }
}

// The key or the value of an entry; the default if it is missing.
#[cycle(merge)]
fn part(
    alloc: Global,
    found: Option<Value>,
    table: &Table,
    kind: Kind,
    depth: u32,
) -> Result<Value, Memory>
    requires { AreAllFieldsAscending table.now }
    ensures { IfOk result
        (λ v. item_of v ≡ found_part (merged table.now depth) kind (option_map item_of found)) }
{
    match found {
        Some(value) => element(alloc, value, table, kind, depth),
        None => Ok(default_value(alloc, kind)),
    }
}

// The default of a kind.
fn default_value(alloc: Global, kind: Kind) -> Value
    ensures { item_of result ≡ default_item_of kind }
{
    match kind {
        Kind::Text | Kind::Octets => Value::Run(Bytes::new(alloc)),
        Kind::Message(_) => Value::Node(Tree {
            fields: Vec::new(alloc),
        }),
        _ => Value::Number(0),
    }
}
