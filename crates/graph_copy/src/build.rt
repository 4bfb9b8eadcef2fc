//! Builds the tree of a graph from the words that were loaded.

ghost use Rattle.std.specs.Prelude.{◌≡◌, ◌≢◌, ◌⊎◌, ◌+◌, ℕ, Bool, true, List, [], ◌∷◌, IfOk, OnOk, IsTrue};
ghost use Rattle.std.specs.Option.{option_map};
ghost use Rattle.mrpc_table.specs.MapEntries.{last_of_each};
ghost use Rattle.mrpc_table.specs.Node.{Node, no_fields};
ghost use Rattle.mrpc_table.specs.Normal.{fields_of};
ghost use Rattle.mrpc_table.specs.Valid.{IsValid};
ghost use Rattle.mrpc_table.specs.View.{item_of, items_of, pairs_of, content_of};
ghost use Rattle.mrpc_table.specs.declared.limits.TheConstants.{MAX_DEPTH};
ghost use Rattle.mrpc_table.specs.declared.table.Kind.{Kind};
ghost use Rattle.mrpc_table.specs.declared.table.Table.{Table};
ghost use Rattle.graph_form.specs.Roles.{run_length, elements_address, entries_address, case_word, plain_role, optional_role, slot_role, cases_from, node_words, own_slots, oneof_count};
ghost use Rattle.graph_form.specs.Placed.{Placed, word, loads, AreSound};
ghost use Rattle.graph_form.specs.Forgotten.{with_field, run_at, optional_item, slots_tree, slot_content, with_member, plain_item, elements_at, entries_at, tree_of};
ghost use Rattle.graph_copy.specs.Makes.{insert_all, IsMadeFrom, IsMadeFromWord, IsMadeFromContent, IsMadeFromSlots};

use crate::look_up::{field_of, next_slot};
use crate::order::in_order;
use crate::role::{ValueShape, shape_of};
use graph_form::oneof_count;
use mrpc_table::{
    Bytes, Entries, FieldValue, Kind, Label, MAX_DEPTH, Memory, Numbered, Table, Tree, Value,
    Values, last_of_each,
};
use std::alloc::Global;

// The remaining loads, each a place and a value.
#[derive(Drop)]
struct Tape<'a> {
    loads: &'a [(u64, u64)],
}

impl Tape<'_> {
    // The value of the next load.
    fn next(&mut self) -> u64
        ensures { (x : ℕ × ℕ) (xs : List (ℕ × ℕ)) → self.old.loads.now ≡ x ∷ xs
            → (result ≡ x.1) × (self.new.loads.now ≡ xs) }
    {
        match self.loads.split_first() {
            Some((first, others)) => {
                self.loads = others;
                first.1
            }
            None => 0,
        }
    }
}

// The tree of the message at an index of the table, from its words.
pub(crate) fn make_tree(
    alloc: Global,
    table: &Table,
    message: u32,
    taken: &[(u64, u64)],
) -> Result<Tree, Memory>
    requires { IsValid table.now }
    ensures { IfOk result (λ t. (H address : ℕ) (P : Placed)
        → AreSound table.now H (node_words table.now message 1 address) P → taken.now ≡ loads P
        → t ≡ tree_of table.now message P) }
{
    let mut tape = Tape { loads: taken };
    let tree = node(alloc, &mut tape, table, message, MAX_DEPTH - 1)?;
    Ok(tree)
}

// A node. At most `room` further levels of messages may be nested in it.
#[cycle(build)]
fn node(
    alloc: Global,
    tape: &mut Tape<'_>,
    table: &Table,
    message: u32,
    room: u32,
) -> Result<Tree, Memory>
    requires { IsValid table.now }
    ensures { IfOk result (λ t. (place depth : ℕ) → depth + room ≡ MAX_DEPTH
        → IsMadeFrom table.now (node_words table.now message depth place) tape.old.loads.now tape.new.loads.now
        (λ P. t ≡ tree_of table.now message P)) }
{
    let mut found = Vec::new(alloc);
    slots(alloc, tape, table, message, room, &mut found)?;
    members(alloc, tape, table, message, room, &mut found)?;
    let fields = in_order(found)?;
    Ok(Tree { fields })
}

// The slots of the fields that aren't oneof members.
#[cycle(build)]
fn slots(
    alloc: Global,
    tape: &mut Tape<'_>,
    table: &Table,
    message: u32,
    room: u32,
    found: &mut Numbered,
) -> Result<(), Memory>
    requires { IsValid table.now }
    ensures { OnOk result ((place depth : ℕ) → depth + room ≡ MAX_DEPTH
        → IsMadeFromSlots table.now (fields_of table.now message) (own_slots (fields_of table.now message)) depth place
        tape.old.loads.now tape.new.loads.now found.old.items found.new.items) }
{
    let fields = table.fields(message);
    let mut from = 0;
    while let Some(place) = next_slot(fields, from) {
        let field = &fields[place];
        let content = slot(alloc, tape, table, field.label, field.kind, room)?;
        keep(found, field.number, content)?;
        from = place + 1;
    }
    Ok(())
}

// The slots of the oneofs.
#[cycle(build)]
fn members(
    alloc: Global,
    tape: &mut Tape<'_>,
    table: &Table,
    message: u32,
    room: u32,
    found: &mut Numbered,
) -> Result<(), Memory>
    requires { IsValid table.now }
    ensures { OnOk result ((place depth : ℕ) → depth + room ≡ MAX_DEPTH
        → IsMadeFrom table.now (cases_from (oneof_count table.now message) (fields_of table.now message) 0 depth place)
        tape.old.loads.now tape.new.loads.now
        (λ P. insert_all found.old.items (slots_tree table.now (fields_of table.now message) [] P)
        ≡ insert_all found.new.items no_fields)) }
{
    for _oneof in 0..oneof_count(table, message) {
        member(alloc, tape, table, message, room, found)?;
    }
    Ok(())
}

// The slot of a oneof.
#[cycle(build)]
fn member(
    alloc: Global,
    tape: &mut Tape<'_>,
    table: &Table,
    message: u32,
    room: u32,
    found: &mut Numbered,
) -> Result<(), Memory>
    requires { IsValid table.now }
    ensures { OnOk result ((place depth oneof : ℕ) → depth + room ≡ MAX_DEPTH
        → IsMadeFromWord table.now (case_word (fields_of table.now message) oneof depth, place)
        tape.old.loads.now tape.new.loads.now
        (λ w. (t : Node) → insert_all found.old.items (with_member table.now (fields_of table.now message) w t)
        ≡ insert_all found.new.items t)) }
{
    let case = tape.next();
    if case == 0 {
        return Ok(());
    }
    match field_of(table, message, case) {
        Some(field) => {
            let value = item(alloc, tape, table, field.kind, room)?;
            found.push((field.number, FieldValue::One(value)))?;
            Ok(())
        }
        None => Ok(()),
    }
}

// Appends the content of a field, if it has any.
fn keep(found: &mut Numbered, number: u32, content: Option<FieldValue>) -> Result<(), Memory>
    ensures { OnOk result ((t : Node) → insert_all found.new.items t
        ≡ insert_all found.old.items (with_field number (option_map content_of content) t)) }
{
    if let Some(content) = content {
        found.push((number, content))?;
    }
    Ok(())
}

// The content of a field, by its slot.
#[cycle(build)]
fn slot(
    alloc: Global,
    tape: &mut Tape<'_>,
    table: &Table,
    label: Label,
    kind: Kind,
    room: u32,
) -> Result<Option<FieldValue>, Memory>
    requires { IsValid table.now }
    ensures { IfOk result (λ c. (place depth : ℕ) → depth + room ≡ MAX_DEPTH
        → IsMadeFromWord table.now (slot_role label kind depth, place) tape.old.loads.now tape.new.loads.now
        (λ w. option_map content_of c ≡ slot_content table.now label kind w)) }
{
    let first = tape.next();
    if first == 0 {
        return Ok(None);
    }
    match label {
        Label::Optional => {
            let value = optional(alloc, tape, kind, first)?;
            Ok(Some(FieldValue::One(value)))
        }
        Label::Repeated | Label::Packed => {
            let values = elements(alloc, tape, table, kind, first, room)?;
            Ok(Some(FieldValue::Many(values)))
        }
        Label::Map(key) => {
            let entries = entries(alloc, tape, table, key, kind, first, room)?;
            Ok(Some(FieldValue::Pairs(entries)))
        }
        Label::Plain | Label::Member(_) => {
            let value = value(alloc, tape, table, kind, first, room)?;
            Ok(Some(FieldValue::One(value)))
        }
    }
}

// The value after its presence word.
fn optional(alloc: Global, tape: &mut Tape<'_>, kind: Kind, first: u64) -> Result<Value, Memory>
    requires { first ≢ 0 }
    ensures { IfOk result (λ v. (T : Table) (place : ℕ)
        → IsMadeFromContent T (optional_role kind, place) first tape.old.loads.now tape.new.loads.now
        (λ P. item_of v ≡ optional_item kind first P)) }
{
    match shape_of(kind) {
        ValueShape::Run => Ok(Value::Run(run(alloc, tape, first.saturating_sub(1))?)),
        _ => Ok(Value::Number(tape.next())),
    }
}

// The elements after their count.
#[cycle(build)]
fn elements(
    alloc: Global,
    tape: &mut Tape<'_>,
    table: &Table,
    kind: Kind,
    count: u64,
    room: u32,
) -> Result<Values, Memory>
    requires { IsValid table.now }
    ensures { IfOk result (λ vs. (place depth : ℕ) → depth + room ≡ MAX_DEPTH
        → IsMadeFrom table.now ((elements_address kind count depth, place) ∷ []) tape.old.loads.now tape.new.loads.now
        (λ P. items_of vs.items ≡ elements_at table.now kind P)) }
{
    let _address = tape.next();
    let mut values = Vec::with_capacity(alloc, count as usize)?;
    for _element in 0..count {
        values.push(item(alloc, tape, table, kind, room)?)?;
    }
    Ok(values)
}

// The entries after their count, one for each key.
#[cycle(build)]
fn entries(
    alloc: Global,
    tape: &mut Tape<'_>,
    table: &Table,
    key: Kind,
    kind: Kind,
    count: u64,
    room: u32,
) -> Result<Entries, Memory>
    requires { IsValid table.now }
    ensures { IfOk result (λ es. (place depth : ℕ) → depth + room ≡ MAX_DEPTH
        → IsMadeFrom table.now ((entries_address key kind count depth, place) ∷ []) tape.old.loads.now tape.new.loads.now
        (λ P. pairs_of es.items ≡ last_of_each key (entries_at table.now key kind P))) }
{
    let _address = tape.next();
    let mut entries = Vec::with_capacity(alloc, count as usize)?;
    for _entry in 0..count {
        let first = item(alloc, tape, table, key, room)?;
        let second = item(alloc, tape, table, kind, room)?;
        entries.push((first, second))?;
    }
    let kept = last_of_each(alloc, entries, key)?;
    Ok(kept)
}

// The value of a plain slot that must be present.
#[cycle(build)]
fn item(
    alloc: Global,
    tape: &mut Tape<'_>,
    table: &Table,
    kind: Kind,
    room: u32,
) -> Result<Value, Memory>
    requires { IsValid table.now }
    ensures { IfOk result (λ v. (place depth : ℕ) → depth + room ≡ MAX_DEPTH
        → IsMadeFromWord table.now (plain_role kind depth true, place) tape.old.loads.now tape.new.loads.now
        (λ w. item_of v ≡ plain_item table.now kind w)) }
{
    let first = tape.next();
    let item = value(alloc, tape, table, kind, first, room)?;
    Ok(item)
}

// The value of a plain slot after its first word.
#[cycle(build)]
fn value(
    alloc: Global,
    tape: &mut Tape<'_>,
    table: &Table,
    kind: Kind,
    first: u64,
    room: u32,
) -> Result<Value, Memory>
    requires { IsValid table.now }
    ensures { IfOk result (λ v. (place depth : ℕ) (needed : Bool) → depth + room ≡ MAX_DEPTH
        → IsTrue needed ⊎ (first ≢ 0)
        → IsMadeFromContent table.now (plain_role kind depth needed, place) first tape.old.loads.now tape.new.loads.now
        (λ P. item_of v ≡ plain_item table.now kind (word place first P))) }
{
    match shape_of(kind) {
        ValueShape::Number => Ok(Value::Number(first)),
        ValueShape::Run => Ok(Value::Run(run(alloc, tape, first)?)),
        ValueShape::Message(message) => {
            if room == 0 {
                return Ok(Value::Node(Tree {
                    fields: Vec::new(alloc),
                }));
            }
            Ok(Value::Node(node(alloc, tape, table, message, room - 1)?))
        }
    }
}

// The `bytes` bytes of a run, after its length.
fn run(alloc: Global, tape: &mut Tape<'_>, bytes: u64) -> Result<Bytes, Memory>
    ensures { IfOk result (λ bs. (T : Table) (kind : Kind) (place : ℕ)
        → IsMadeFromContent T (run_length kind, place) bytes tape.old.loads.now tape.new.loads.now
        (λ P. bs ≡ run_at bytes P)) }
{
    if bytes == 0 {
        return Ok(Bytes::new(alloc));
    }
    let _address = tape.next();
    let mut run = Vec::with_capacity(alloc, bytes as usize)?;
    let mut left = bytes;
    while left > 8 {
        run.extend_from_slice(&tape.next().to_le_bytes())?;
        left -= 8;
    }
    let last = tape.next().to_le_bytes();
    run.extend_from_slice(&last[..left as usize])?;
    Ok(Bytes::from_vec(run))
}
