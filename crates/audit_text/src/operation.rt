//! Lines of an operator's operations.

ghost use Rattle.std.specs.Prelude.{◌≡◌, IfOk};
ghost use Rattle.std.specs.Option.{option_copied};
ghost use Rattle.audit_text.specs.Labels.{policy_under};
ghost use Rattle.audit_text.specs.Reading.{words_in};
ghost use Rattle.audit_text.specs.EventReading.{read_attach, read_detach, read_label, read_op, read_upgrade};

use crate::word::{Remainder, end, is_word, name, next, number32};
use engine_core::{Op, Policy};
use mrpc_table::{Memory, Name};
use policy_declarations::Declarations;
use std::alloc::Global;

// Returns the policy that was declared under a label.
fn policy_under<'a>(declared: &'a Declarations, label: &[u8]) -> Option<&'a Policy>
    ensures { option_copied result ≡ policy_under label.now declared.now }
{
    let place = declared.policy(label)?;
    Some(&declared.policies().get(place)?.policy)
}

// Reads a declared label as the last word, and returns it with its policy.
#[tactic(auto, unfolding(crate::specs::EventReading::read_label))]
fn labelled(
    alloc: Global,
    rest: Remainder<'_>,
    declared: &Declarations,
) -> Result<Option<(Name, Policy)>, Memory>
    ensures { IfOk result (λ x. x ≡ read_label declared.now (words_in rest.entry)) }
{
    let Some((label, rest)) = name(rest) else {
        return Ok(None);
    };
    let Some(()) = end(rest) else {
        return Ok(None);
    };
    let Some(policy) = policy_under(declared, label) else {
        return Ok(None);
    };
    let label = Name::from_slice(alloc, label)?;
    let policy = policy.copied(alloc)?;
    Ok(Some((label, policy)))
}

// `AT NAME POLICY`
#[tactic(auto, unfolding(crate::specs::EventReading::read_attach))]
fn attach(alloc: Global, rest: Remainder<'_>, declared: &Declarations) -> Result<Option<Op>, Memory>
    ensures { IfOk result (λ x. x ≡ read_attach declared.now (words_in rest.entry)) }
{
    let Some((at, rest)) = number32(rest) else {
        return Ok(None);
    };
    let Some((entry, rest)) = name(rest) else {
        return Ok(None);
    };
    let Some((label, policy)) = labelled(alloc, rest, declared)? else {
        return Ok(None);
    };
    let name = Name::from_slice(alloc, entry)?;
    Ok(Some(Op::Attach {
        at,
        name,
        label,
        policy,
    }))
}

// `NAME`
#[tactic(auto, unfolding(crate::specs::EventReading::read_detach))]
fn detach(alloc: Global, rest: Remainder<'_>) -> Result<Option<Op>, Memory>
    ensures { IfOk result (λ x. x ≡ read_detach (words_in rest.entry)) }
{
    let Some((entry, rest)) = name(rest) else {
        return Ok(None);
    };
    let Some(()) = end(rest) else {
        return Ok(None);
    };
    let name = Name::from_slice(alloc, entry)?;
    Ok(Some(Op::Detach { name }))
}

// `NAME POLICY`
#[tactic(auto, unfolding(crate::specs::EventReading::read_upgrade))]
fn upgrade(
    alloc: Global,
    rest: Remainder<'_>,
    declared: &Declarations,
) -> Result<Option<Op>, Memory>
    ensures { IfOk result (λ x. x ≡ read_upgrade declared.now (words_in rest.entry)) }
{
    let Some((entry, rest)) = name(rest) else {
        return Ok(None);
    };
    let Some((label, policy)) = labelled(alloc, rest, declared)? else {
        return Ok(None);
    };
    let name = Name::from_slice(alloc, entry)?;
    Ok(Some(Op::Upgrade {
        name,
        label,
        policy,
    }))
}

// Reads an operation.
#[tactic(auto, unfolding(crate::specs::EventReading::read_op))]
pub(crate) fn operation(
    alloc: Global,
    rest: Remainder<'_>,
    declared: &Declarations,
) -> Result<Option<Op>, Memory>
    ensures { IfOk result (λ x. x ≡ read_op declared.now (words_in rest.entry)) }
{
    let Some((word, rest)) = next(rest) else {
        return Ok(None);
    };
    if is_word(word, b"attach") {
        attach(alloc, rest, declared)
    } else if is_word(word, b"detach") {
        detach(alloc, rest)
    } else if is_word(word, b"upgrade") {
        upgrade(alloc, rest, declared)
    } else {
        Ok(None)
    }
}
