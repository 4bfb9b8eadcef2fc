//! Whether a tree meets the test of a rule, and whether a call matches a rule.

ghost use Rattle.std.specs.Prelude.{◌≡◌, false, option_map, position};
ghost use Rattle.std.specs.Option.{option_copied, option_map_or};
ghost use Rattle.mrpc_table.specs.Node.{number, run};
ghost use Rattle.mrpc_table.specs.View.{content_of};
ghost use Rattle.mrpc_table.specs.PathTrees.{IsAscendingTree};
ghost use Rattle.policy_access.specs.Paths.{default_item, unset_item, item_of_field};
ghost use Rattle.policy_access.specs.Conditions.{compares, meets};
ghost use Rattle.policy_access.specs.Verdict.{is_one_of, matches};

use crate::rule::{CallSelector, Calls, Comparison, Condition, Operand, Rule, Test};
use mrpc_table::{
    Call, FieldValue, Kind, Label, Path, Tree, Value, message_at_path, numbers_ascend,
};

fn number_compares(comparison: Comparison, kind: Kind, wanted: &Operand, word: u64) -> bool
    ensures { result ≡ compares comparison kind wanted.now (number word) }
{
    let Operand::Number(wanted) = wanted else {
        return comparison == Comparison::NotEqual;
    };
    match comparison {
        Comparison::Equal => word == *wanted,
        Comparison::NotEqual => word != *wanted,
        Comparison::Less => kind.rank(word) < kind.rank(*wanted),
        Comparison::Greater => kind.rank(*wanted) < kind.rank(word),
        Comparison::Starts => false,
    }
}

fn run_compares(comparison: Comparison, kind: Kind, wanted: &Operand, bytes: &[u8]) -> bool
    ensures { result ≡ compares comparison kind wanted.now (run bytes.now) }
{
    let Operand::Run(wanted) = wanted else {
        return comparison == Comparison::NotEqual;
    };
    match comparison {
        Comparison::Equal => bytes == wanted.as_slice(),
        Comparison::NotEqual => bytes != wanted.as_slice(),
        Comparison::Starts => bytes.starts_with(wanted.as_slice()),
        Comparison::Less | Comparison::Greater => false,
    }
}

// Whether the default value of a kind passes the comparison.
fn default_compares(comparison: Comparison, kind: Kind, wanted: &Operand) -> bool
    ensures { result ≡ option_map_or (compares comparison kind wanted.now) (default_item kind) false }
{
    match kind {
        Kind::Message(_) => false,
        Kind::Text | Kind::Octets => run_compares(comparison, kind, wanted, &[]),
        Kind::Int32
        | Kind::Int64
        | Kind::Uint32
        | Kind::Uint64
        | Kind::Sint32
        | Kind::Sint64
        | Kind::Bool
        | Kind::Fixed32
        | Kind::Fixed64
        | Kind::Sfixed32
        | Kind::Sfixed64
        | Kind::Float
        | Kind::Double
        | Kind::Choice(_) => number_compares(comparison, kind, wanted, 0),
    }
}

// Whether the value of an unset field passes the comparison.
fn unset_compares(comparison: Comparison, path: &Path, wanted: &Operand) -> bool
    ensures { result ≡ option_map_or (compares comparison path.now.kind wanted.now)
        (unset_item path.now.kind path.now.label) false }
{
    match path.label {
        Label::Plain => default_compares(comparison, path.kind, wanted),
        Label::Optional | Label::Member(_) => false,
        Label::Repeated | Label::Packed | Label::Map(_) => false,
    }
}

// Whether the value of a field passes the comparison, by the content that its message has for it.
fn field_compares(
    comparison: Comparison,
    path: &Path,
    wanted: &Operand,
    content: Option<&FieldValue>,
) -> bool
    ensures { result ≡ option_map_or (compares comparison path.now.kind wanted.now)
        (item_of_field path.now.kind path.now.label (option_map content_of (option_copied content.entry))) false }
{
    match content {
        None => unset_compares(comparison, path, wanted),
        Some(FieldValue::One(Value::Number(word))) => {
            number_compares(comparison, path.kind, wanted, *word)
        }
        Some(FieldValue::One(Value::Run(bytes))) => {
            run_compares(comparison, path.kind, wanted, bytes.as_slice())
        }
        Some(_) => false,
    }
}

// Whether the tree meets the test.
fn meets(tree: &Tree, test: &Test) -> bool
    requires { IsAscendingTree tree.now }
    ensures { result ≡ meets tree.now test.now }
{
    let path = &test.path;
    let Some(message) = message_at_path(tree, path.way.as_slice()) else {
        return false;
    };
    numbers_ascend();
    let content = message.content(path.number);
    match &test.condition {
        Condition::Present => content.is_some(),
        Condition::Compares(comparison, wanted) => {
            field_compares(*comparison, path, wanted, content)
        }
    }
}

fn is_one_of(calls: &Calls, call: &Call) -> bool
    requires { IsAscendingTree call.now.tree }
    ensures { result ≡ is_one_of calls.now call.now }
{
    if call.method != calls.method || !call.is_of(calls.sort) {
        return false;
    }
    match &calls.test {
        None => true,
        Some(test) => meets(&call.tree, test),
    }
}

// The index of the first rule that matches.
pub(crate) fn first_match(rules: &[Rule], call: &Call) -> Option<usize>
    requires { IsAscendingTree call.now.tree }
    ensures { result ≡ position (λ rule. matches rule call.now) rules.now }
{
    rules.iter().position(|rule| matches(rule, call))
}

// Whether the rule matches the call. It takes time in proportion to the path and to the bytes that it compares.
pub(crate) fn matches(rule: &Rule, call: &Call) -> bool
    requires { IsAscendingTree call.now.tree }
    ensures { result ≡ matches rule.now call.now }
{
    match &rule.about {
        CallSelector::Every => true,
        CallSelector::Calls(calls) => is_one_of(calls, call),
    }
}
