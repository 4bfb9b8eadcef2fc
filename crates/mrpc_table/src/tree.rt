//! A message as a tree of numbers, runs of bytes and messages.

ghost use Rattle.std.specs.Prelude.{◌≡◌, ◌<◌, ℕ, None, length, option_map, slice_index_or, IfSome, IfNone};
ghost use Rattle.std.specs.Option.{option_copied};
ghost use Rattle.mrpc_table.specs.Node.{content_at, AreNumbersAscending};
ghost use Rattle.mrpc_table.specs.View.{content_of, node_of};
ghost use Rattle.mrpc_table.specs.Weight.{weight, content_weight};

use crate::sequence::Bytes;
use std::marker::Model;

/// A message: its fields, by ascending number if it is in normal form.
#[cycle(tree)]
#[derive(Drop)]
pub struct Tree {
    pub fields: Numbered,
}

/// Field numbers, each with the content of the field.
pub type Numbered = Vec<(u32, FieldValue)>;

/// The content of a field.
#[cycle(tree)]
#[derive(Drop)]
pub enum FieldValue {
    /// The value of a singular field.
    One(Value),
    /// The elements of a repeated field.
    Many(Values),
    /// The entries of a map.
    Pairs(Entries),
}

/// The elements of a repeated field, in order.
pub type Values = Vec<Value>;

/// The entries of a map; by ascending key in a normal tree.
pub type Entries = Vec<(Value, Value)>;

/// One value.
#[cycle(tree)]
#[derive(Drop)]
pub enum Value {
    /// A number, a bool or an enum value, in the word form of its kind.
    Number(u64),
    /// The bytes of a `string` or `bytes` value.
    Run(Bytes),
    /// A message.
    Node(Tree),
}

impl Model for Tree {
    ghost use Rattle.mrpc_table.specs.Node.{Node};
    ghost use Rattle.mrpc_table.specs.NodeCode.{node_code};

    ghost Value = { Node };

    ghost coded = { node_code };

    ghost use Rattle.mrpc_table.specs.View.{node_of};
    ghost use Rattle.mrpc_table.specs.Weight.{weight};

    ghost view = { λ t. node_of t.fields.items };

    ghost size = { weight };

    ghost use Rattle.mrpc_table.specs.Descent.{deep_tree};

    ghost size_decreases = { λ a h. deep_tree a.fields.items };
}

impl Tree {
    /// The content of the field with a number. Takes time logarithmic in the number of fields.
    pub fn content(&self, number: u32) -> Option<&FieldValue>
        requires { AreNumbersAscending 0 self.now }
        ensures content { option_map content_of (option_copied result) ≡ content_at self.now number }
        ensures less { IfSome result (λ content. content_weight (content_of content.now) < weight self.now) }
    {
        let fields = self.fields.as_slice();
        let place = find_content(fields, number)?;
        Some(&fields[place].1)
    }
}

/// The index of the field with a number among the fields of a tree. Takes constant time if the tree has a field for
/// each smaller number, and otherwise time logarithmic in the number of fields.
pub fn find_content(fields: &[(u32, FieldValue)], number: u32) -> Option<usize>
    requires { AreNumbersAscending 0 (node_of fields.now) }
    ensures within { IfSome result (λ place. place < length fields.now) }
    ensures numbered { IfSome result (λ place. (f : ℕ × FieldValue) → (slice_index_or fields.now place f).0 ≡ number) }
    ensures none { IfNone result (content_at (node_of fields.now) number ≡ None) }
{
    let place = (number as usize).wrapping_sub(1);
    if place < fields.len() && fields[place].0 == number {
        return Some(place);
    }
    match fields.binary_search_by_key(&number, |field| field.0) {
        Ok(place) => Some(place),
        Err(_) => None,
    }
}
