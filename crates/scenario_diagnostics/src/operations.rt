//! The operations of an operator, applied in order to the chain of its connection.

use crate::declared::named_in;
use crate::site::text_of;
use mrpc_table::{Decimal, Memory};
use policy_declarations::Declarations;
use scenario::ScenarioReason;
use scenario_entries::ChainOutline;
use scenario_lines::{StepText, read_step};
use scenario_toml::items_at;
use std::alloc::Global;
use toml::{Table, Value};

// The number of the first rejected operation, from 1, and the name that it is about.
#[derive(Clone, Copy)]
pub(crate) struct RejectedOp<'a> {
    pub number: u64,
    pub line: &'a [u8],
    pub name: &'a [u8],
}

// The first operation of an operator that the chain of an application rejects.
pub(crate) fn first_rejected_op<'a>(
    alloc: Global,
    declared: &'a Declarations,
    operator: &'a Table,
    app: &'a Table,
) -> Result<Option<RejectedOp<'a>>, Memory> {
    let mut chain = ChainOutline::new(alloc);
    attach_all(&mut chain, declared, items_at(app, "chain"))?;
    first_rejected_line(&mut chain, declared, items_at(operator, "steps"))
}

// Attaches the declared policies with these names, each under its own name, as far as the chain accepts them.
fn attach_all<'a>(
    chain: &mut ChainOutline<'a>,
    declared: &'a Declarations,
    names: &'a [Value],
) -> Result<(), Memory> {
    let mut place = 0u64;
    for item in names {
        let name = text_of(item);
        let step = StepText::Attach {
            count: 0,
            at: Decimal::Small(place),
            name,
            policy: name,
        };
        if apply_op(chain, declared, step)?.is_none() {
            place = place.saturating_add(1);
        }
    }
    Ok(())
}

// The first of the lines whose operation the chain rejects.
fn first_rejected_line<'a>(
    chain: &mut ChainOutline<'a>,
    declared: &'a Declarations,
    lines: &'a [Value],
) -> Result<Option<RejectedOp<'a>>, Memory> {
    let mut number = 0u64;
    for item in lines {
        let line = text_of(item);
        number = number.saturating_add(1);
        if let Ok(step) = read_step(line) {
            if apply_op(chain, declared, step)?.is_some() {
                let name = name_in(&step);
                return Ok(Some(RejectedOp { number, line, name }));
            }
        }
    }
    Ok(None)
}

// Applies an operation, or returns why the chain rejects it.
fn apply_op<'a>(
    chain: &mut ChainOutline<'a>,
    declared: &'a Declarations,
    step: StepText<'a>,
) -> Result<Option<ScenarioReason>, Memory> {
    match step {
        StepText::Detach { name, .. } => Ok(chain.detach(name)),
        StepText::Attach {
            at,
            name,
            policy,
            ..
        } => match named_in(declared, policy) {
            None => Ok(Some(ScenarioReason::Unknown)),
            Some(named) => chain.attach(at, name, &named.policy),
        },
        StepText::Upgrade { name, policy, .. } => match named_in(declared, policy) {
            None => Ok(Some(ScenarioReason::Unknown)),
            Some(named) => Ok(chain.upgrade(name, &named.policy)),
        },
    }
}

fn name_in<'a>(step: &StepText<'a>) -> &'a [u8] {
    match step {
        StepText::Attach { name, .. }
        | StepText::Detach { name, .. }
        | StepText::Upgrade { name, .. } => *name,
    }
}
