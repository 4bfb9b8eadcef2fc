//! The message at the end of a path into a tree.

ghost use Rattle.std.specs.Prelude.{◌≡◌, IfSome};
ghost use Rattle.std.specs.Option.{option_copied};
ghost use Rattle.mrpc_table.specs.PathTrees.{message_under, message_at_path, IsAscendingTree};

use crate::tree::{FieldValue, Tree, Value};

// The message that the tree has under a number.
fn message_under(tree: &Tree, number: u32) -> Option<&Tree>
    requires { IsAscendingTree tree.now }
    ensures ascending { IfSome result (λ m. IsAscendingTree m.now) }
    ensures message { option_copied result ≡ message_under tree.now number }
{
    match tree.content(number) {
        Some(FieldValue::One(Value::Node(message))) => Some(message),
        _ => None,
    }
}

/// The message that is reached through the messages with these numbers.
pub fn message_at_path<'a>(tree: &'a Tree, way: &[u32]) -> Option<&'a Tree>
    requires { IsAscendingTree tree.now }
    ensures message { option_copied result ≡ message_at_path tree.now way.now }
    ensures ascending { IfSome result (λ m. IsAscendingTree m.now) }
{
    let mut message = tree;
    for number in way {
        message = message_under(message, *number)?;
    }
    Some(message)
}
