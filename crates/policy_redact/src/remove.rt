//! Removes a field from a tree.

ghost use Rattle.std.specs.Prelude.{◌≡◌, ◌<◌, ◌∷◌, [], ◌++◌};
ghost use Rattle.std.specs.Bool.{OnTrue, OnFalse};
ghost use Rattle.std.specs.Str.{bytes_eq};
ghost use Rattle.mrpc_table.specs.View.{content_of};
ghost use Rattle.mrpc_table.specs.Weight.{weight, content_weight};
ghost use Rattle.mrpc_table.specs.PathTrees.{IsAscendingTree, IsAscendingContent};
ghost use Rattle.policy_redact.specs.Without.{without, content_without};

use mrpc_table::{FieldValue, Tree, Value, find_content, numbers_ascend};

fn remove_field(tree: &mut Tree, number: u32) -> bool
    requires { IsAscendingTree tree.old }
    ensures left { tree.new ≡ without (bytes_eq (number ∷ [])) tree.old }
    ensures smaller { OnTrue result (weight tree.new < weight tree.old) }
    ensures unchanged { OnFalse result (tree.new ≡ tree.old) }
{
    numbers_ascend();
    let Some(place) = find_content(tree.fields.as_slice(), number) else {
        return false;
    };
    tree.fields.remove(place);
    true
}

// Removes the field from the message in this content, if there is one.
#[cycle(remove)]
fn remove_inside(content: &mut FieldValue, way: &[u32], number: u32) -> bool
    requires { IsAscendingContent (content_of content.old) }
    ensures left { content_of content.new
        ≡ content_without (bytes_eq (way.now ++ number ∷ [])) (content_of content.old) }
    ensures smaller { OnTrue result
        (content_weight (content_of content.new) < content_weight (content_of content.old)) }
    ensures unchanged { OnFalse result (content_of content.new ≡ content_of content.old) }
{
    match content {
        FieldValue::One(Value::Node(message)) => remove_at(message, way, number),
        FieldValue::One(Value::Number(_) | Value::Run(_)) => false,
        FieldValue::Many(_) | FieldValue::Pairs(_) => false,
    }
}

// Removes the field with a number from the message at the end of a way, if each message on the way is set. Returns
// whether there was one.
#[cycle(remove)]
pub(crate) fn remove_at(tree: &mut Tree, way: &[u32], number: u32) -> bool
    requires { IsAscendingTree tree.old }
    ensures left { tree.new ≡ without (bytes_eq (way.now ++ number ∷ [])) tree.old }
    ensures smaller { OnTrue result (weight tree.new < weight tree.old) }
    ensures unchanged { OnFalse result (tree.new ≡ tree.old) }
{
    numbers_ascend();
    match way {
        [] => remove_field(tree, number),
        [first, rest @ ..] => match find_content(tree.fields.as_slice(), *first) {
            None => false,
            Some(place) => remove_inside(&mut tree.fields[place].1, rest, number),
        },
    }
}
