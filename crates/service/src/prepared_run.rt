//! What a run needs before it starts.

ghost use Rattle.std.specs.Prelude.{Contains, IfOk};
ghost use Rattle.run_plan.specs.Plans.{IsPlan};
ghost use Rattle.run_plan.specs.Links.{connections_of};
ghost use Rattle.service.specs.PreparedRun.{HasScheduledOps, IsPreparedRun};

use crate::pairs::push_pair;
use mrpc_table::Memory;
use polling::RunFlag;
use run_plan::Plan;
use service_loop::ScheduledOp;
use service_wiring::scheduled_ops;
use std::alloc::Global;

/// The operations scheduled for each connection, in the order of the plan's links, and the flag that stops the run's
/// threads if memory runs out.
#[derive(Drop)]
pub struct PreparedRun {
    pub steps: Vec<Vec<ScheduledOp>>,
    pub stop: RunFlag,
}

/// Makes what a run of the plan needs before it starts.
pub fn prepare(alloc: Global, plan: &Plan) -> Result<PreparedRun, Memory>
    requires { IsPlan plan.now }
    ensures { IfOk result (λ prepared. IsPreparedRun plan.now prepared) }
{
    let stop = RunFlag::new(alloc)?;
    let mut steps = Vec::new(alloc);
    let links = plan.links.as_slice();
    'pairs: for pair in links {
        let first = scheduled_ops_on(alloc, plan, pair.a)?;
        let second = scheduled_ops_on(alloc, plan, pair.b)?;
        push_pair(&mut steps, first, second)?;
    }
    Ok(PreparedRun { steps, stop })
}

// The operations scheduled for a connection.
fn scheduled_ops_on(alloc: Global, plan: &Plan, conn: u32) -> Result<Vec<ScheduledOp>, Memory>
    requires plan { IsPlan plan.now }
    requires known { Contains (connections_of plan.now.applications) conn }
    ensures { IfOk result (λ steps. HasScheduledOps plan.now conn steps.items) }
{
    let Some(app) = plan.application(conn) else {
        unreachable!()
    };
    scheduled_ops(alloc, plan, app)
}
