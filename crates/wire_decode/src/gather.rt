//! Combines the contents of a field's records into one content.

ghost use Rattle.std.specs.Prelude.{◌≡◌, ℕ, List, [], ◌∷◌, ◌++◌, map, true, false, IfOk, OnOk};
ghost use Rattle.mrpc_table.specs.Node.{Node, Item};
ghost use Rattle.mrpc_table.specs.View.{item_of, content_of, node_of};
ghost use Rattle.wire_decode.specs.Merged.{values_in, joined_messages, join_fields};
ghost use Rattle.wire_decode.specs.TwoInOne.{merge_mode_of, IsMeaningOfBoth, HasItemForBoth, IsItemForBoth};
ghost use Rattle.wire_decode.specs.Gathered.{HasOneMore};

use mrpc_table::{FieldValue, Kind, Label, Memory, Numbered, Tree, Value, Values};
use std::alloc::Global;

// How the contents of a field's records become one.
#[derive(Clone, Copy)]
pub(crate) enum MergeMode {
    // All values count, in order.
    Listed,
    // The records of the messages are concatenated.
    Joined,
    // The last value counts.
    Last,
}

// How the contents of a field become one.
pub(crate) fn merge_mode_of(label: Label, kind: Kind) -> MergeMode
    ensures { result ≡ merge_mode_of label kind }
{
    match label {
        Label::Repeated | Label::Packed | Label::Map(_) => MergeMode::Listed,
        _ => match kind {
            Kind::Message(_) => MergeMode::Joined,
            _ => MergeMode::Last,
        },
    }
}

// Adds a content to those of its number, which can only be at the end.
pub(crate) fn add(
    alloc: Global,
    held: &mut Numbered,
    number: u32,
    content: FieldValue,
    form: MergeMode,
) -> Result<(), Memory>
    ensures { OnOk result
        (HasOneMore form (node_of held.old.items) number (content_of content) (node_of held.new.items)) }
{
    match held.pop() {
        Some((last, before)) => {
            if last == number {
                let whole = joined(alloc, before, content, form)?;
                held.push((number, whole))?;
            } else {
                held.push((last, before))?;
                held.push((number, content))?;
            }
        }
        None => held.push((number, content))?,
    }
    Ok(())
}

// Combines two contents of a field.
fn joined(
    alloc: Global,
    before: FieldValue,
    content: FieldValue,
    form: MergeMode,
) -> Result<FieldValue, Memory>
    ensures { IfOk result (λ c. IsMeaningOfBoth form (content_of before) (content_of content) (content_of c)) }
{
    match form {
        MergeMode::Listed => listed(alloc, before, content),
        MergeMode::Joined => singles(before, content, true),
        MergeMode::Last => singles(before, content, false),
    }
}

// Combines the values of two contents into one list.
fn listed(alloc: Global, before: FieldValue, content: FieldValue) -> Result<FieldValue, Memory>
    ensures { IfOk result
        (λ c. values_in (content_of c ∷ [])
        ≡ values_in (content_of before ∷ []) ++ values_in (content_of content ∷ [])) }
{
    let values = appended(values_of(alloc, before)?, content)?;
    Ok(FieldValue::Many(values))
}

// Combines two contents of a singular field.
fn singles(before: FieldValue, content: FieldValue, is_message: bool) -> Result<FieldValue, Memory>
    ensures { IfOk result
        (λ c. HasItemForBoth is_message (content_of before) (content_of content) (content_of c)) }
{
    match content {
        FieldValue::One(value) => match before {
            FieldValue::One(first) => {
                let value = joined_value(first, value, is_message)?;
                Ok(FieldValue::One(value))
            }
            _other => Ok(FieldValue::One(value)),
        },
        _other => Ok(before),
    }
}

// Combines two values of a singular field: the last one, or the message with the records of both.
pub(crate) fn joined_value(before: Value, value: Value, is_message: bool) -> Result<Value, Memory>
    ensures { IfOk result (λ v. IsItemForBoth is_message (item_of before) (item_of value) (item_of v)) }
{
    if is_message {
        joined_message(before, value)
    } else {
        Ok(value)
    }
}

fn joined_message(before: Value, value: Value) -> Result<Value, Memory>
    ensures { IfOk result
        (λ v. (is : List Item) → joined_messages (item_of v ∷ is) ≡ joined_messages (item_of before ∷ item_of value ∷ is)) }
{
    match value {
        Value::Node(more) => match before {
            Value::Node(tree) => Ok(Value::Node(joined_tree(tree, more)?)),
            _other => Ok(Value::Node(more)),
        },
        _other => Ok(before),
    }
}

// The fields of two messages, the second after the first.
fn joined_tree(tree: Tree, more: Tree) -> Result<Tree, Memory>
    ensures { IfOk result (λ t. t ≡ join_fields tree more) }
{
    let mut fields = tree.fields;
    let mut rest = more.fields;
    fields.append(&mut rest)?;
    Ok(Tree { fields })
}

// The values of a content as a list.
pub(crate) fn values_of(alloc: Global, content: FieldValue) -> Result<Values, Memory>
    ensures { IfOk result (λ vs. map item_of vs.items ≡ values_in (content_of content ∷ [])) }
{
    match content {
        FieldValue::One(value) => {
            let mut values = Vec::new(alloc);
            values.push(value)?;
            Ok(values)
        }
        FieldValue::Many(values) => Ok(values),
        _other => Ok(Vec::new(alloc)),
    }
}

// The values followed by those of a content.
fn appended(values: Values, content: FieldValue) -> Result<Values, Memory>
    ensures { IfOk result
        (λ vs. map item_of vs.items ≡ map item_of values.items ++ values_in (content_of content ∷ [])) }
{
    let mut all = values;
    match content {
        FieldValue::One(value) => {
            all.push(value)?;
            Ok(all)
        }
        FieldValue::Many(more) => {
            let mut rest = more;
            all.append(&mut rest)?;
            Ok(all)
        }
        _other => Ok(all),
    }
}
