//! Operations, and the clock.

ghost use Rattle.std.specs.Prelude.{◌≡◌, ◌≢◌, ◌<◌, ℕ, IfErr, IfOk, None, OnOk, Some, length};
ghost use Rattle.replay_script.specs.Lines.{op_in};
ghost use Rattle.replay_script.specs.declared.script.ScriptLine.TheVariants.{Attach, Moment, Upgrade};
ghost use Rattle.replay_run.specs.Kept.{IsEffectFor, IsBetweenSubmissions, HasKept, MayOperate};

use crate::connection::RunConnection;
use crate::replay_error::ReplayError;
use chain_upgrade::ChainFault;
use engine_core::Op;
use mrpc_table::{Memory, Name};
use policy_declarations::NamedPolicy;
use replay_script::{Script, ScriptLine};
use std::alloc::Global;

// Applies the operation of an operator's line, which the chain accepts.
pub(crate) fn operate_by(
    alloc: Global,
    script: &Script,
    line: &ScriptLine,
    connection: &mut RunConnection<'_>,
) -> Result<(), ReplayError>
    requires rests { IsBetweenSubmissions connection.old.heap }
    requires may { (step : Op) × (op_in script.now.declared.policies line.now ≡ Some step)
        × MayOperate step connection.old.calls }
    ensures does { OnOk result (IsEffectFor (λ s l. op_in s.declared.policies l
        ≡ op_in script.now.declared.policies line.now)
        connection.old connection.new) }
    ensures keeps { OnOk result (HasKept connection.old connection.new) }
    ensures memory { IfErr result (λ stop. stop ≡ ReplayError.Memory) }
{
    let step = step_of(alloc, script.declared.policies(), line)?;
    operate(alloc, connection, step)
}

// The operation of an operator's line.
fn step_of(alloc: Global, policies: &[NamedPolicy], line: &ScriptLine) -> Result<Op, Memory>
    requires { op_in policies.now line.now ≢ None }
    ensures { IfOk result (λ step. op_in policies.now line.now ≡ Some step) }
{
    match line {
        ScriptLine::Attach {
            at,
            name,
            policy,
            ..
        } => attaching(alloc, policies, *at, name, *policy),
        ScriptLine::Detach { name, .. } => Ok(Op::Detach {
            name: name.copied(alloc)?,
        }),
        ScriptLine::Upgrade { name, policy, .. } => upgrading(alloc, policies, name, *policy),
        _ => unreachable!(),
    }
}

// An operation that attaches the declared policy with an index.
fn attaching(
    alloc: Global,
    policies: &[NamedPolicy],
    at: u32,
    name: &Name,
    policy: usize,
) -> Result<Op, Memory>
    requires { policy < length policies.now }
    ensures { (conn : ℕ) → IfOk result (λ step. op_in policies.now (Attach conn at name.now policy) ≡ Some step) }
{
    let named = &policies[policy];
    Ok(Op::Attach {
        at,
        name: name.copied(alloc)?,
        label: named.name.copied(alloc)?,
        policy: named.policy.copied(alloc)?,
    })
}

// An operation that gives the entry of a name the declared policy with an index.
fn upgrading(
    alloc: Global,
    policies: &[NamedPolicy],
    name: &Name,
    policy: usize,
) -> Result<Op, Memory>
    requires { policy < length policies.now }
    ensures { (conn : ℕ) → IfOk result (λ step. op_in policies.now (Upgrade conn name.now policy) ≡ Some step) }
{
    let named = &policies[policy];
    Ok(Op::Upgrade {
        name: name.copied(alloc)?,
        label: named.name.copied(alloc)?,
        policy: named.policy.copied(alloc)?,
    })
}

// Applies an operation that the chain accepts.
fn operate(alloc: Global, connection: &mut RunConnection<'_>, step: Op) -> Result<(), ReplayError>
    requires rests { IsBetweenSubmissions connection.old.heap }
    requires may { MayOperate step connection.old.calls }
    ensures does { OnOk result (IsEffectFor (λ s l. op_in s.declared.policies l ≡ Some step)
        connection.old connection.new) }
    ensures keeps { OnOk result (HasKept connection.old connection.new) }
    ensures memory { IfErr result (λ stop. stop ≡ ReplayError.Memory) }
{
    let Err(fault) = connection.calls.operate(alloc, step) else {
        return Ok(());
    };
    match fault {
        ChainFault::Memory => Err(ReplayError::Memory),
        _ => unreachable!(),
    }
}

// Advances a connection's clock to a timestamp.
pub(crate) fn advance_clock(connection: &mut RunConnection<'_>, ms: u64) -> Result<(), ReplayError>
    requires rests { IsBetweenSubmissions connection.old.heap }
    ensures does { OnOk result (IsEffectFor (λ s l. l ≡ Moment connection.old.calls.conn ms)
        connection.old connection.new) }
    ensures keeps { OnOk result (HasKept connection.old connection.new) }
    ensures memory { IfErr result (λ stop. stop ≡ ReplayError.Memory) }
{
    Ok(connection.calls.clock(ms)?)
}
