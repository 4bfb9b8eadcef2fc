//! Resolves the calls that a rule selects in a table.

ghost use Rattle.std.specs.Prelude.{◌≡◌, ◌<◌, length, IfOk};
ghost use Rattle.mrpc_table.specs.Valid.{IsValid};
ghost use Rattle.mrpc_table.specs.Words.{has_one_value, is_run};
ghost use Rattle.policy_access.specs.Rules.{is_comparable, fits_kind, condition_in, test_in, tests_in, of_unknown_method, calls_of_method, calls_in, selector_in};

use crate::fault::SelectorReason;
use crate::line::{CallsLine, ConditionLine, SelectorLine, TestLine};
use crate::rule::{CallSelector, Calls, Comparison, Condition, Test};
use crate::value::{has_no_form, operand_of};
use mrpc_table::{Decimal, Kind, Label, Memory, Path, Table};
use std::alloc::Global;

fn has_one_value(label: Label) -> bool
    ensures { result ≡ has_one_value label }
{
    match label {
        Label::Plain | Label::Optional | Label::Member(_) => true,
        Label::Repeated | Label::Packed | Label::Map(_) => false,
    }
}

fn is_comparable(kind: Kind) -> bool
    ensures { result ≡ is_comparable kind }
{
    match kind {
        Kind::Float | Kind::Double | Kind::Message(_) => false,
        Kind::Int32
        | Kind::Int64
        | Kind::Uint32
        | Kind::Uint64
        | Kind::Sint32
        | Kind::Sint64
        | Kind::Bool
        | Kind::Fixed32
        | Kind::Fixed64
        | Kind::Sfixed32
        | Kind::Sfixed64
        | Kind::Text
        | Kind::Octets
        | Kind::Choice(_) => true,
    }
}

fn is_run(kind: Kind) -> bool
    ensures { result ≡ is_run kind }
{
    matches!(kind, Kind::Text | Kind::Octets)
}

fn fits_kind(comparison: Comparison, kind: Kind) -> bool
    ensures { result ≡ fits_kind comparison kind }
{
    match comparison {
        Comparison::Equal | Comparison::NotEqual => is_comparable(kind),
        Comparison::Less | Comparison::Greater => is_comparable(kind) && !is_run(kind),
        Comparison::Starts => is_run(kind),
    }
}

fn condition_in(
    alloc: Global,
    path: &Path,
    condition: &ConditionLine,
) -> Result<Result<Condition, SelectorReason>, Memory>
    ensures { IfOk result (λ c. c ≡ condition_in path.now condition.now) }
{
    match condition {
        ConditionLine::Present => Ok(Ok(Condition::Present)),
        ConditionLine::Compares(comparison, value) => {
            if !has_one_value(path.label) || !fits_kind(*comparison, path.kind) {
                return Ok(Err(SelectorReason::Path));
            }
            match operand_of(alloc, path.kind, value.as_slice())? {
                Err(reason) => Ok(Err(reason)),
                Ok(operand) => Ok(Ok(Condition::Compares(*comparison, operand))),
            }
        }
    }
}

fn test_in(
    alloc: Global,
    table: &Table,
    msg: u32,
    test: &TestLine,
) -> Result<Result<Test, SelectorReason>, Memory>
    requires { IsValid table.now }
    ensures { IfOk result (λ t. t ≡ test_in table.now msg test.now) }
{
    let Some(path) = test.path.resolve(alloc, table, msg)? else {
        return Ok(Err(SelectorReason::Path));
    };
    match condition_in(alloc, &path, &test.condition)? {
        Err(reason) => Ok(Err(reason)),
        Ok(condition) => Ok(Ok(Test { path, condition })),
    }
}

fn tests_in(
    alloc: Global,
    table: &Table,
    msg: u32,
    test: &Option<TestLine>,
) -> Result<Result<Option<Test>, SelectorReason>, Memory>
    requires { IsValid table.now }
    ensures { IfOk result (λ t. t ≡ tests_in table.now msg test.now) }
{
    match test {
        None => Ok(Ok(None)),
        Some(test) => match test_in(alloc, table, msg, test)? {
            Err(reason) => Ok(Err(reason)),
            Ok(test) => Ok(Ok(Some(test))),
        },
    }
}

// The reason against the calls of an unknown method. Of its test, only the form of the value is judged.
fn of_unknown_method(
    alloc: Global,
    reason: SelectorReason,
    test: &Option<TestLine>,
) -> Result<SelectorReason, Memory>
    ensures { IfOk result (λ q. q ≡ of_unknown_method reason test.now) }
{
    match test {
        Some(
            TestLine {
                path: _,
                condition: ConditionLine::Compares(_, value),
            },
        ) if has_no_form(alloc, value.as_slice())? => Ok(SelectorReason::Word),
        _ => Ok(reason),
    }
}

fn calls_of_method(
    alloc: Global,
    table: &Table,
    method: u16,
    calls: &CallsLine,
) -> Result<Result<Calls, SelectorReason>, Memory>
    requires { IsValid table.now }
    ensures { IfOk result (λ c. c ≡ calls_of_method table.now method calls.now.sort calls.now.test) }
{
    if method as usize >= table.methods.len() {
        return Ok(Err(of_unknown_method(alloc, SelectorReason::Path, &calls.test)?));
    }
    let sort = calls.sort;
    let msg = table.message_of(method, sort);
    match tests_in(alloc, table, msg, &calls.test)? {
        Err(reason) => Ok(Err(reason)),
        Ok(test) => Ok(Ok(Calls { method, sort, test })),
    }
}

fn calls_in(
    alloc: Global,
    table: &Table,
    calls: &CallsLine,
) -> Result<Result<Calls, SelectorReason>, Memory>
    requires { IsValid table.now }
    ensures { IfOk result (λ c. c ≡ calls_in table.now calls.now) }
{
    match calls.index {
        Decimal::Small(index) if index <= u16::MAX as u64 => {
            calls_of_method(alloc, table, index as u16, calls)
        }
        Decimal::Small(_) | Decimal::Large => Ok(Err(of_unknown_method(
            alloc,
            SelectorReason::Number,
            &calls.test,
        )?)),
    }
}

// The calls that a rule selects, resolved in the table. The reason is `Number` for an index of more than 16 bits or a
// value out of range. It is `Path` for a method or a field that the table doesn't have, or an operation that doesn't
// fit, and `Word` for a malformed value. If the method is unknown, a value that has no form at all counts first.
pub(crate) fn selector_in(
    alloc: Global,
    table: &Table,
    about: &SelectorLine,
) -> Result<Result<CallSelector, SelectorReason>, Memory>
    requires { IsValid table.now }
    ensures { IfOk result (λ a. a ≡ selector_in table.now about.now) }
{
    match about {
        SelectorLine::Every => Ok(Ok(CallSelector::Every)),
        SelectorLine::Calls(calls) => match calls_in(alloc, table, calls)? {
            Err(reason) => Ok(Err(reason)),
            Ok(calls) => Ok(Ok(CallSelector::Calls(calls))),
        },
    }
}
