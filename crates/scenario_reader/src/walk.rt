//! The steps of an operator, one after another, on the chain of its connection.

ghost use Rattle.std.specs.Prelude.{◌≡◌, ◌<◌, ◌^◌, ℕ, List, Some, IfOk};
ghost use Rattle.std.specs.Option.{option_copied};
ghost use Rattle.mrpc_table.specs.Lines.{in_64_bits};
ghost use Rattle.engine_core.specs.Chains.{Chain as TheChain, IsChain};
ghost use Rattle.engine_core.specs.declared.op.Op.{Op};
ghost use Rattle.policy_declarations.specs.Declarations.{policy_index};
ghost use Rattle.scenario_entries.specs.ChainEntries.{IsChangeOrRefusal, AreEntriesOf};
ghost use Rattle.scenario_lines.specs.Programs.{Each};
ghost use Rattle.scenario_reader.specs.Walking.{IsLineOf, IsOpOf, IsStepOf, IsWalked, named_in};

use crate::steps::count_in;
use engine_core::{change_or_rejection, change_preserves_chain};
use mrpc_table::{Decimal, Memory, Name, Sequence};
use policy_declarations::{Declarations, NamedPolicy};
use run_plan::{OperatorStep, StepLine};
use scenario::ScenarioReason;
use scenario_entries::ChainOutline;
use scenario_lines::StepText;
use std::alloc::Global;

// The first declared policy with a name; `None` if there is none.
pub(crate) fn named_in<'a>(declared: &'a Declarations, name: &[u8]) -> Option<&'a NamedPolicy>
    ensures { option_copied result ≡ named_in declared.now name.now }
{
    match declared.policy(name) {
        None => None,
        Some(place) => declared.policies().get(place),
    }
}

// Applies one step. If the chain refuses it, returns the reason and leaves the chain unchanged.
fn apply_step<'a>(
    chain: &mut ChainOutline<'a>,
    declared: &'a Declarations,
    step: StepText<'a>,
) -> Result<Option<ScenarioReason>, Memory>
    ensures { (start : TheChain) (o : Op) → IsChain start → AreEntriesOf chain.old.entries.items start
        → IsOpOf declared.now step.entry o → IfOk result (IsChangeOrRefusal start o chain.new.entries.items) }
{
    match step {
        StepText::Attach {
            at,
            name,
            policy,
            ..
        } => match named_in(declared, policy) {
            None => Ok(Some(ScenarioReason::Unknown)),
            Some(named) => chain.attach(at, name, &named.policy),
        },
        StepText::Detach { name, .. } => Ok(chain.detach(name)),
        StepText::Upgrade { name, policy, .. } => match named_in(declared, policy) {
            None => Ok(Some(ScenarioReason::Unknown)),
            Some(named) => Ok(chain.upgrade(name, &named.policy)),
        },
    }
}

// Applies the steps in order, or returns the reason of the first refusal.
pub(crate) fn apply_all<'a>(
    chain: &mut ChainOutline<'a>,
    declared: &'a Declarations,
    told: &[StepText<'a>],
) -> Result<Option<ScenarioReason>, Memory>
    ensures { (start : TheChain) (ops : List Op) → IsChain start → AreEntriesOf chain.old.entries.items start
        → Each (IsOpOf declared.now) told.now ops → IfOk result (IsWalked start ops) }
{
    change_or_rejection();
    change_preserves_chain();
    for step in told {
        if let Some(reason) = apply_step(chain, declared, *step)? {
            return Ok(Some(reason));
        }
    }
    Ok(None)
}

// A position as a plan has it; any number for one that no chain has.
fn position_in(at: Decimal) -> u32
    ensures { (n : ℕ) → at ≡ in_64_bits n → n < 2 ^ 32 → result ≡ n }
{
    match at {
        Decimal::Small(at) => { if at <= 4_294_967_295 { at as u32 } else { 0 } }
        Decimal::Large => 0,
    }
}

// The index of a declared policy; 0 if none has the name.
fn policy_index_or_zero(declared: &Declarations, name: &[u8]) -> usize
    ensures { (place : ℕ) → policy_index declared.now name.now ≡ Some place → result ≡ place }
{
    match declared.policy(name) {
        Some(place) => place,
        None => 0,
    }
}

// The plan's line for a step whose policy is declared and whose position a chain has.
fn line_of(alloc: Global, declared: &Declarations, step: &StepText<'_>) -> Result<StepLine, Memory>
    ensures { IfOk result (IsLineOf declared.now step.now) }
{
    match step {
        StepText::Attach {
            at,
            name,
            policy,
            ..
        } => Ok(StepLine::Attach {
            at: position_in(*at),
            name: Name::from_slice(alloc, name)?,
            policy: policy_index_or_zero(declared, policy),
        }),
        StepText::Detach { name, .. } => Ok(StepLine::Detach {
            name: Name::from_slice(alloc, name)?,
        }),
        StepText::Upgrade { name, policy, .. } => Ok(StepLine::Upgrade {
            name: Name::from_slice(alloc, name)?,
            policy: policy_index_or_zero(declared, policy),
        }),
    }
}

// The steps as a plan has them.
pub(crate) fn plan_steps(
    alloc: Global,
    declared: &Declarations,
    told: &[StepText<'_>],
) -> Result<Sequence<OperatorStep>, Memory>
    ensures { IfOk result (Each (IsStepOf declared.now) told.now) }
{
    let mut steps = Sequence::new(alloc);
    for step in told {
        let line = line_of(alloc, declared, step)?;
        steps.push(OperatorStep {
            count: count_in(step),
            line,
        })?;
    }
    Ok(steps)
}
