//! Reads messages whose records come in order, as encoders write them. The records of each field follow those of the
//! fields before it, with one record for each field except for lists and maps. They are read straight into the tree
//! that they mean. Records in any other order, or with a fault, aren't read here.

ghost use Rattle.std.specs.Prelude.{◌≡◌, ℕ, ◌/◌, ◌%◌, ◌<◌, ◌≤◌, length, map, option_map, IfSome, true};
ghost use Rattle.mrpc_table.specs.View.{item_of, content_of, node_of};
ghost use Rattle.mrpc_table.specs.declared.table.Kind.TheVariants.{Text, Octets, Message as OfMessage};
ghost use Rattle.mrpc_table.specs.declared.table.Label.TheVariants.{Map};
ghost use Rattle.mrpc_table.specs.Words.{is_numeric, has_one_value};
ghost use Rattle.mrpc_table.specs.SortedEntries.{items_of_entry};
ghost use Rattle.wire_base.specs.Records.{IsTagAt, IsPayloadAt};
ghost use Rattle.mrpc_table.specs.WireTypes.{wire_type_of};
ghost use Rattle.wire_base.specs.declared.records.Payload.{Payload};
ghost use Rattle.wire_base.specs.declared.records.Payload.TheVariants.{Len};
ghost use Rattle.mrpc_table.specs.Ascending.{AreAllFieldsAscending, AreFieldsAscending};
ghost use Rattle.wire_decode.specs.Words.{is_list, payload_number};
ghost use Rattle.wire_decode.specs.Ordered.{HasEachField, IsValue, IsFieldRead, AreValues, AreEntriesRead, IsPair, may_follow, oneofs_with};
ghost use Rattle.wire_decode.specs.Contents.{single_content};

use crate::TreePool;
use crate::merge::{many, pairs, present, present_if_set, push_content};
use crate::number::word_form_of;
use crate::read::{element, elements, is_text};
use mrpc_table::{
    Entries, Field, FieldValue, Kind, Label, Numbered, Table, Tree, Value, Values, find_field,
    last_of_each,
};
use std::alloc::Global;
use wire_base::{read_delimited, read_tag};

// The fields of the message, from offset `start` to the end of the bytes, if its records come in order. Messages may
// nest `room` more levels deep inside. Vectors come from `spare` if it has some.
#[cycle(ordered)]
pub(crate) fn ordered_message(
    alloc: Global,
    spare: &mut TreePool,
    bytes: &[u8],
    start: usize,
    table: &Table,
    fields: &[Field],
    room: u32,
) -> Option<Numbered>
    requires all { AreAllFieldsAscending table.now }
    requires ascend { AreFieldsAscending fields.now }
    requires place { start ≤ length bytes.now }
    ensures { IfSome result (λ parts. HasEachField table.now room fields.now bytes.now start (node_of parts.items)) }
{
    let most = fields.len().min((bytes.len() - start) / 2);
    let mut whole = spare.fields(alloc, most)?;
    let mut at = start;
    let mut last = 0;
    let mut hint = 0;
    let mut oneofs = 0;
    while at < bytes.len() {
        let (tag, behind) = read_tag(bytes, at).ok()?;
        let number = tag / 8;
        let place = find_field(fields, number, hint)?;
        let field = &fields[place];
        if number <= last || !may_follow(field.label, oneofs) {
            return None;
        }
        let (label, kind) = (field.label, field.kind);
        at = ordered_field(
            alloc, spare, &mut whole, bytes, behind, tag, table, label, kind, room,
        )?;
        oneofs = oneofs_with(field.label, oneofs);
        last = number;
        hint = place.saturating_add(1);
    }
    Some(whole)
}

// Whether a field of this label may follow members of oneofs with indices below `oneofs`: none of them is a member of
// the same oneof.
fn may_follow(label: Label, oneofs: u64) -> bool
    ensures { result ≡ may_follow label oneofs }
{
    match label {
        Label::Member(oneof) => oneofs <= u64::from(oneof),
        _ => true,
    }
}

// The bound on the indices of oneofs with a member so far, after a field of this label.
fn oneofs_with(label: Label, oneofs: u64) -> u64
    ensures { result ≡ oneofs_with label oneofs }
{
    match label {
        Label::Member(oneof) => u64::from(oneof) + 1,
        _ => oneofs,
    }
}

// Appends the content of a field whose first tag ends at `start`, and returns the end of its records.
#[cycle(ordered)]
fn ordered_field(
    alloc: Global,
    spare: &mut TreePool,
    whole: &mut Numbered,
    bytes: &[u8],
    start: usize,
    tag: u32,
    table: &Table,
    label: Label,
    kind: Kind,
    room: u32,
) -> Option<usize>
    requires all { AreAllFieldsAscending table.now }
    requires place { start ≤ length bytes.now }
    ensures found { IfSome result
        (λ next. IsFieldRead table.now room label kind bytes.now tag start next
        (node_of whole.old.items) (node_of whole.new.items)) }
    ensures ahead { IfSome result (λ next. start < next) }
    ensures within { IfSome result (λ next. next ≤ length bytes.now) }
{
    match label {
        Label::Repeated | Label::Packed => {
            ordered_list(
                alloc, spare, whole, bytes, start, tag, table, label, kind, room,
            )
        }
        Label::Map(key) => ordered_map(
            alloc, spare, whole, bytes, start, tag, table, key, kind, room,
        ),
        _ => ordered_single(
            alloc, spare, whole, bytes, start, tag, table, label, kind, room,
        ),
    }
}

// Like `ordered_field`, for a singular field.
#[cycle(ordered)]
#[inline(always)]
fn ordered_single(
    alloc: Global,
    spare: &mut TreePool,
    whole: &mut Numbered,
    bytes: &[u8],
    start: usize,
    tag: u32,
    table: &Table,
    label: Label,
    kind: Kind,
    room: u32,
) -> Option<usize>
    requires all { AreAllFieldsAscending table.now }
    requires place { start ≤ length bytes.now }
    requires single { has_one_value label ≡ true }
    ensures found { IfSome result
        (λ next. IsFieldRead table.now room label kind bytes.now tag start next
        (node_of whole.old.items) (node_of whole.new.items)) }
    ensures ahead { IfSome result (λ next. start < next) }
    ensures within { IfSome result (λ next. next ≤ length bytes.now) }
{
    if kind.is_numeric() {
        return ordered_number(whole, bytes, start, tag, table, label, kind, room);
    }
    let (value, next) = ordered_value(alloc, spare, bytes, start, tag, table, kind, room)?;
    push_content(whole, tag / 8, single_content(label, value)).ok()?;
    Some(next)
}

// Like `ordered_single`, for a number.
#[inline(always)]
fn ordered_number(
    whole: &mut Numbered,
    bytes: &[u8],
    start: usize,
    tag: u32,
    table: &Table,
    label: Label,
    kind: Kind,
    room: u32,
) -> Option<usize>
    requires place { start ≤ length bytes.now }
    requires single { has_one_value label ≡ true }
    requires numeric { is_numeric kind ≡ true }
    ensures found { IfSome result
        (λ next. IsFieldRead table.now room label kind bytes.now tag start next
        (node_of whole.old.items) (node_of whole.new.items)) }
    ensures ahead { IfSome result (λ next. start < next) }
    ensures within { IfSome result (λ next. next ≤ length bytes.now) }
{
    let (v, next) = number_at(bytes, start, tag, kind)?;
    let value = Value::Number(word_form_of(kind, v));
    push_content(whole, tag / 8, single_content(label, value)).ok()?;
    Some(next)
}

// The content of a singular field with this value: none for a default under implicit presence.
#[inline(always)]
fn single_content(label: Label, value: Value) -> Option<FieldValue>
    ensures { option_map content_of result ≡ single_content label (item_of value) }
{
    match label {
        Label::Plain => present_if_set(Some(value)),
        _ => present(Some(value)),
    }
}

// Like `ordered_field`, for a repeated field.
#[cycle(ordered)]
#[inline(never)]
fn ordered_list(
    alloc: Global,
    spare: &mut TreePool,
    whole: &mut Numbered,
    bytes: &[u8],
    start: usize,
    tag: u32,
    table: &Table,
    label: Label,
    kind: Kind,
    room: u32,
) -> Option<usize>
    requires all { AreAllFieldsAscending table.now }
    requires place { start ≤ length bytes.now }
    requires list { is_list label ≡ true }
    ensures found { IfSome result
        (λ next. IsFieldRead table.now room label kind bytes.now tag start next
        (node_of whole.old.items) (node_of whole.new.items)) }
    ensures ahead { IfSome result (λ next. start < next) }
    ensures within { IfSome result (λ next. next ≤ length bytes.now) }
{
    if tag % 8 == 2 && kind.is_numeric() {
        return ordered_packed(
            alloc, spare, whole, bytes, start, tag, table, label, kind, room,
        );
    }
    let (values, next) = ordered_values(alloc, spare, bytes, start, tag, table, kind, room)?;
    push_content(whole, tag / 8, many(values)).ok()?;
    Some(next)
}

// Like `ordered_list`, for numbers in one packed payload.
fn ordered_packed(
    alloc: Global,
    spare: &mut TreePool,
    whole: &mut Numbered,
    bytes: &[u8],
    start: usize,
    tag: u32,
    table: &Table,
    label: Label,
    kind: Kind,
    room: u32,
) -> Option<usize>
    requires place { start ≤ length bytes.now }
    requires list { is_list label ≡ true }
    requires numeric { is_numeric kind ≡ true }
    requires delimited { tag % 8 ≡ 2 }
    ensures found { IfSome result
        (λ next. IsFieldRead table.now room label kind bytes.now tag start next
        (node_of whole.old.items) (node_of whole.new.items)) }
    ensures ahead { IfSome result (λ next. start < next) }
    ensures within { IfSome result (λ next. next ≤ length bytes.now) }
{
    let (first, end) = span_at(bytes, start)?;
    let values = elements(spare.list(alloc), &bytes[..end], first, kind).ok()?;
    push_content(whole, tag / 8, many(values)).ok()?;
    Some(end)
}

// Like `ordered_field`, for a map.
#[cycle(ordered)]
#[inline(never)]
fn ordered_map(
    alloc: Global,
    spare: &mut TreePool,
    whole: &mut Numbered,
    bytes: &[u8],
    start: usize,
    tag: u32,
    table: &Table,
    key: Kind,
    kind: Kind,
    room: u32,
) -> Option<usize>
    requires all { AreAllFieldsAscending table.now }
    requires place { start ≤ length bytes.now }
    ensures found { IfSome result
        (λ next. IsFieldRead table.now room (Map key) kind bytes.now tag start next
        (node_of whole.old.items) (node_of whole.new.items)) }
    ensures ahead { IfSome result (λ next. start < next) }
    ensures within { IfSome result (λ next. next ≤ length bytes.now) }
{
    let (entries, next) = ordered_entries(alloc, spare, bytes, start, tag, table, key, kind, room)?;
    let kept = last_of_each(alloc, entries, key).ok()?;
    push_content(whole, tag / 8, pairs(kept)).ok()?;
    Some(next)
}

// The elements of a repeated field whose first tag ends at `start`, a record for each, and the end of these records.
#[cycle(ordered)]
fn ordered_values(
    alloc: Global,
    spare: &mut TreePool,
    bytes: &[u8],
    start: usize,
    tag: u32,
    table: &Table,
    kind: Kind,
    room: u32,
) -> Option<(Values, usize)>
    requires all { AreAllFieldsAscending table.now }
    requires place { start ≤ length bytes.now }
    ensures found { IfSome result (λ r. AreValues table.now room kind bytes.now tag start r.1 (map item_of r.0.items)) }
    ensures ahead { IfSome result (λ r. start < r.1) }
    ensures within { IfSome result (λ r. r.1 ≤ length bytes.now) }
{
    let mut values = spare.list(alloc);
    let mut first = start;
    while first <= bytes.len() {
        let (value, next) = ordered_value(alloc, spare, bytes, first, tag, table, kind, room)?;
        let again = same_tag_at(bytes, next, tag);
        room_ahead(&mut values, bytes, again, tag)?;
        values.push(value).ok()?;
        match again {
            Some(behind) => first = behind,
            None => return Some((values, next)),
        }
    }
    None
}

// Reserves capacity in a new vector, for the value of this record and those of the later ones; `again` is where the tag
// of the next record ends, if it is the same tag. Mostly there is no such record, and the bytes aren't looked at. A
// reused vector grows as needed.
#[inline(always)]
fn room_ahead<T>(vector: &mut Vec<T>, bytes: &[u8], again: Option<usize>, tag: u32) -> Option<()>
    requires { IfSome again (λ first. first ≤ length bytes.now) }
    ensures { vector.new.items ≡ vector.old.items }
{
    if vector.capacity() == 0 {
        let more = match again {
            Some(first) => records_ahead(bytes, first, tag),
            None => 0,
        };
        vector.reserve_exact(more.saturating_add(1)).ok()?;
    }
    Some(())
}

// The offset after the same tag, if it is at this offset.
fn same_tag_at(bytes: &[u8], at: usize, tag: u32) -> Option<usize>
    requires { at ≤ length bytes.now }
    ensures found { IfSome result (λ behind. IsTagAt bytes.now at tag behind) }
    ensures ahead { IfSome result (λ behind. at < behind) }
    ensures within { IfSome result (λ behind. behind ≤ length bytes.now) }
{
    let (next, behind) = read_tag(bytes, at).ok()?;
    if next == tag { Some(behind) } else { None }
}

// How many records with this tag follow each other here, the first of which has its tag before `start`, if their
// payloads have a length; otherwise 1. This many values need capacity.
fn records_ahead(bytes: &[u8], start: usize, tag: u32) -> usize
    requires { start ≤ length bytes.now }
{
    let mut first = start;
    for count in 1..bytes.len() {
        match next_same_tag(bytes, first, tag) {
            Some(next) => first = next,
            None => return count,
        }
    }
    1
}

// The offset after the tag of the next record, if it is the same tag.
fn next_same_tag(bytes: &[u8], start: usize, tag: u32) -> Option<usize>
    requires { start ≤ length bytes.now }
    ensures { IfSome result (λ next. next ≤ length bytes.now) }
{
    if tag % 8 != 2 {
        return None;
    }
    let (_, end) = span_at(bytes, start)?;
    same_tag_at(bytes, end, tag)
}

// The entries of a map whose first tag ends at `start`, and the end of their records.
#[cycle(ordered)]
fn ordered_entries(
    alloc: Global,
    spare: &mut TreePool,
    bytes: &[u8],
    start: usize,
    tag: u32,
    table: &Table,
    key: Kind,
    kind: Kind,
    room: u32,
) -> Option<(Entries, usize)>
    requires all { AreAllFieldsAscending table.now }
    requires place { start ≤ length bytes.now }
    ensures found { IfSome result
        (λ r. AreEntriesRead table.now room key kind bytes.now tag start r.1 (map items_of_entry r.0.items)) }
    ensures ahead { IfSome result (λ r. start < r.1) }
    ensures within { IfSome result (λ r. r.1 ≤ length bytes.now) }
{
    if tag % 8 != 2 {
        return None;
    }
    let mut entries = spare.entries(alloc);
    let mut first = start;
    while first <= bytes.len() {
        let (inside, next) = span_at(bytes, first)?;
        let entry = ordered_entry(alloc, spare, &bytes[..next], inside, table, key, kind, room)?;
        let again = same_tag_at(bytes, next, tag);
        room_ahead(&mut entries, bytes, again, tag)?;
        entries.push(entry).ok()?;
        match again {
            Some(behind) => first = behind,
            None => return Some((entries, next)),
        }
    }
    None
}

// An entry with its key first, followed by its value.
#[cycle(ordered)]
fn ordered_entry(
    alloc: Global,
    spare: &mut TreePool,
    bytes: &[u8],
    start: usize,
    table: &Table,
    key: Kind,
    kind: Kind,
    room: u32,
) -> Option<(Value, Value)>
    requires all { AreAllFieldsAscending table.now }
    requires place { start ≤ length bytes.now }
    ensures { IfSome result (λ e. IsPair table.now room key kind bytes.now start (items_of_entry e)) }
{
    let (tag, first) = read_tag(bytes, start).ok()?;
    if tag / 8 != 1 {
        return None;
    }
    let (entry_key, middle) = ordered_value(alloc, spare, bytes, first, tag, table, key, room)?;
    let (tag, second) = read_tag(bytes, middle).ok()?;
    if tag / 8 != 2 {
        return None;
    }
    let (value, next) = ordered_value(alloc, spare, bytes, second, tag, table, kind, room)?;
    if next == bytes.len() {
        Some((entry_key, value))
    } else {
        None
    }
}

// The value after a tag, and where it ends.
#[cycle(ordered)]
#[inline(never)]
fn ordered_value(
    alloc: Global,
    spare: &mut TreePool,
    bytes: &[u8],
    start: usize,
    tag: u32,
    table: &Table,
    kind: Kind,
    room: u32,
) -> Option<(Value, usize)>
    requires all { AreAllFieldsAscending table.now }
    requires place { start ≤ length bytes.now }
    ensures found { IfSome result (λ r. IsValue table.now room kind bytes.now start (tag % 8) (item_of r.0) r.1) }
    ensures ahead { IfSome result (λ r. start < r.1) }
    ensures within { IfSome result (λ r. r.1 ≤ length bytes.now) }
{
    match kind {
        Kind::Message(place) => ordered_node(alloc, spare, bytes, start, tag, table, place, room),
        Kind::Text => ordered_text(alloc, spare, bytes, start, tag, table, room),
        Kind::Octets => ordered_octets(alloc, spare, bytes, start, tag, table, room),
        _ => number_value(bytes, start, tag, table, kind, room),
    }
}

fn number_value(
    bytes: &[u8],
    start: usize,
    tag: u32,
    table: &Table,
    kind: Kind,
    room: u32,
) -> Option<(Value, usize)>
    requires place { start ≤ length bytes.now }
    requires numeric { is_numeric kind ≡ true }
    ensures found { IfSome result (λ r. IsValue table.now room kind bytes.now start (tag % 8) (item_of r.0) r.1) }
    ensures ahead { IfSome result (λ r. start < r.1) }
    ensures within { IfSome result (λ r. r.1 ≤ length bytes.now) }
{
    let (v, next) = number_at(bytes, start, tag, kind)?;
    Some((Value::Number(word_form_of(kind, v)), next))
}

// Text after its length.
fn ordered_text(
    alloc: Global,
    spare: &mut TreePool,
    bytes: &[u8],
    start: usize,
    tag: u32,
    table: &Table,
    room: u32,
) -> Option<(Value, usize)>
    requires place { start ≤ length bytes.now }
    ensures found { IfSome result (λ r. IsValue table.now room Text bytes.now start (tag % 8) (item_of r.0) r.1) }
    ensures ahead { IfSome result (λ r. start < r.1) }
    ensures within { IfSome result (λ r. r.1 ≤ length bytes.now) }
{
    if tag % 8 != 2 {
        return None;
    }
    let (first, end) = span_at(bytes, start)?;
    let run = &bytes[first..end];
    if !is_text(run) {
        return None;
    }
    let run = spare.run(alloc, run)?;
    Some((Value::Run(run), end))
}

// Bytes after their length.
fn ordered_octets(
    alloc: Global,
    spare: &mut TreePool,
    bytes: &[u8],
    start: usize,
    tag: u32,
    table: &Table,
    room: u32,
) -> Option<(Value, usize)>
    requires place { start ≤ length bytes.now }
    ensures found { IfSome result (λ r. IsValue table.now room Octets bytes.now start (tag % 8) (item_of r.0) r.1) }
    ensures ahead { IfSome result (λ r. start < r.1) }
    ensures within { IfSome result (λ r. r.1 ≤ length bytes.now) }
{
    if tag % 8 != 2 {
        return None;
    }
    let (first, end) = span_at(bytes, start)?;
    let run = &bytes[first..end];
    let run = spare.run(alloc, run)?;
    Some((Value::Run(run), end))
}

// A message after its length.
#[cycle(ordered)]
fn ordered_node(
    alloc: Global,
    spare: &mut TreePool,
    bytes: &[u8],
    start: usize,
    tag: u32,
    table: &Table,
    place: u32,
    room: u32,
) -> Option<(Value, usize)>
    requires all { AreAllFieldsAscending table.now }
    requires place { start ≤ length bytes.now }
    ensures found { IfSome result
        (λ r. IsValue table.now room (OfMessage place) bytes.now start (tag % 8) (item_of r.0) r.1) }
    ensures ahead { IfSome result (λ r. start < r.1) }
    ensures within { IfSome result (λ r. r.1 ≤ length bytes.now) }
{
    if tag % 8 != 2 || room == 0 {
        return None;
    }
    let (first, end) = span_at(bytes, start)?;
    let inside = &bytes[..end];
    let fields = ordered_message(
        alloc,
        spare,
        inside,
        first,
        table,
        table.fields(place),
        room - 1,
    )?;
    Some((Value::Node(Tree { fields }), end))
}

// The number after a tag, and where it ends.
#[inline(always)]
fn number_at(bytes: &[u8], start: usize, tag: u32, kind: Kind) -> Option<(u64, usize)>
    requires place { start ≤ length bytes.now }
    requires numeric { is_numeric kind ≡ true }
    ensures fits { IfSome result (λ _. tag % 8 ≡ wire_type_of kind) }
    ensures found { IfSome result
        (λ e. (p : Payload) × IsPayloadAt bytes.now start (wire_type_of kind) p e.1 × (e.0 ≡ payload_number p)) }
    ensures ahead { IfSome result (λ e. start < e.1) }
    ensures within { IfSome result (λ e. e.1 ≤ length bytes.now) }
{
    let wire_type = kind.wire_type();
    if u64::from(tag % 8) != wire_type {
        return None;
    }
    element(bytes, start, wire_type)
}

// Reads a length, and returns the range of the bytes after it.
fn span_at(bytes: &[u8], start: usize) -> Option<(usize, usize)>
    requires { start ≤ length bytes.now }
    ensures found { IfSome result (λ r. IsPayloadAt bytes.now start 2 (Len r.0 r.1) r.1) }
    ensures ahead { IfSome result (λ r. start < r.0) }
    ensures order { IfSome result (λ r. r.0 ≤ r.1) }
    ensures within { IfSome result (λ r. r.1 ≤ length bytes.now) }
{
    read_delimited(bytes, start).ok()
}
