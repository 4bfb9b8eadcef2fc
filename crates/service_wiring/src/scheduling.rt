//! The operations scheduled for a connection.

ghost use Rattle.std.specs.Prelude.{◌≡◌, ◌<◌, ◌≤◌, Contains, IfOk, IsSome, Some, length};
ghost use Rattle.run_plan.specs.Chains.{attachment_of, op_of, steps_on};
ghost use Rattle.run_plan.specs.Plans.{IsApplication, IsPlan};
ghost use Rattle.service_loop.specs.ScheduledOps.{AreScheduledOps, KnowTenants};
ghost use Rattle.service_wiring.specs.Listing.{AreListed, remaining_counts, remaining_lines};
ghost use Rattle.service_wiring.specs.Scheduling.{AreOpsOfPlan};

use engine_core::{change_preserves_chain, changed_is_the_change};
use mrpc_table::Memory;
use run_plan::{Application, OperatorStep, Plan};
use service_loop::ScheduledOp;
use std::alloc::Global;

/// The operations scheduled for the connection of an application of a plan, in order: its attachments, then those of
/// its operator. The chain refuses none of them, and they name no tenant that the plan doesn't declare.
pub fn scheduled_ops(
    alloc: Global,
    plan: &Plan,
    app: &Application,
) -> Result<Vec<ScheduledOp>, Memory>
    requires plan { IsPlan plan.now }
    requires app { Contains plan.now.applications app.now }
    ensures steps { IfOk result (λ steps. AreOpsOfPlan plan.now app.now steps.items) }
    ensures sound { IfOk result (λ steps. AreScheduledOps steps.items) }
    ensures known { IfOk result (λ steps.
        KnowTenants (λ tenant. tenant < length plan.now.declared.tenants) steps.items) }
{
    change_preserves_chain();
    changed_is_the_change();
    let mut steps = attachments(alloc, plan, app)?;
    let later = plan.steps(app.conn);
    'steps: for step in later {
        let due = scheduled_op(alloc, plan, app, step)?;
        steps.push(due)?;
    }
    Ok(steps)
}

// The attachments of the application's chain.
fn attachments(alloc: Global, plan: &Plan, app: &Application) -> Result<Vec<ScheduledOp>, Memory>
    requires plan { IsPlan plan.now }
    requires app { IsApplication plan.now app.now }
    requires few { length app.now.chain ≤ 8 }
    ensures { IfOk result (λ steps. AreListed plan.now app.now steps.items
        (remaining_lines (steps_on plan.now.operators app.now.conn))
        (remaining_counts (steps_on plan.now.operators app.now.conn))) }
{
    let mut steps = Vec::new(alloc);
    let places = app.chain.as_slice();
    let mut at: u32 = 0;
    'places: while (at as usize) < places.len() {
        let due = attached(alloc, plan, app, at)?;
        steps.push(due)?;
        at += 1;
    }
    Ok(steps)
}

// The attachment at a position of the chain, before the first call.
fn attached(alloc: Global, plan: &Plan, app: &Application, at: u32) -> Result<ScheduledOp, Memory>
    requires { IsSome (attachment_of plan.now app.now at) }
    ensures count { IfOk result (λ due. due.count ≡ 0) }
    ensures step { IfOk result (λ due. attachment_of plan.now app.now at ≡ Some due.step) }
{
    let step = plan.attachment(alloc, app, at)?;
    Ok(ScheduledOp { count: 0, step })
}

// The operation that a line of an operator means, at its count.
fn scheduled_op(
    alloc: Global,
    plan: &Plan,
    app: &Application,
    step: &OperatorStep,
) -> Result<ScheduledOp, Memory>
    requires { IsSome (op_of plan.now app.now step.now.line) }
    ensures count { IfOk result (λ due. due.count ≡ step.now.count) }
    ensures step { IfOk result (λ due. op_of plan.now app.now step.now.line ≡ Some due.step) }
{
    let count = step.count;
    let step = plan.step(alloc, app, &step.line)?;
    Ok(ScheduledOp { count, step })
}
