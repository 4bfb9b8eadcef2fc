//! The plan of the drill.

ghost use Rattle.std.specs.Prelude.{◌≡◌, ◌≤◌, IfOk};
ghost use Rattle.run_plan.specs.Plans.{IsPlan};
ghost use Rattle.drill.specs.Drill.{drill, links};

use crate::application::{CLIENTS, applications};
use crate::policy::declared;
use crate::schema::{SERVICE, name, schema};
use mrpc_table::{Memory, Sequence};
use run_plan::{LinkPlan, Plan};
use std::alloc::Global;

/// The maximum number of calls that each client submits.
pub const MAX_CALLS: u64 = 2048;

// The maximum number of loads of one copy.
const LOADS: u64 = 1024;

// The number of threads that serve the connections.
const WORKERS: u64 = 2;

/// The plan of the drill in which each client submits `calls` calls, at most 2048. The only error is `Memory`.
pub fn drill_plan(alloc: Global, calls: u64) -> Result<Plan, Memory>
    requires { calls ≤ MAX_CALLS }
    ensures plan { IfOk result (λ plan. plan ≡ drill calls) }
    ensures sound { IfOk result IsPlan }
{
    plan(alloc, calls)
}

// Assembles the plan.
fn plan(alloc: Global, calls: u64) -> Result<Plan, Memory>
    requires { calls ≤ MAX_CALLS }
    ensures { IfOk result (λ plan. plan ≡ drill calls) }
{
    let service = name(alloc, SERVICE)?;
    let links = links(alloc)?;
    let applications = applications(alloc, calls)?;
    let table = schema(alloc)?;
    let declared = declared(alloc, &table)?;
    Ok(Plan {
        service,
        loads: LOADS,
        workers: WORKERS,
        weighted: false,
        table,
        declared,
        applications,
        links,
        operators: Sequence::new(alloc),
    })
}

// The links between the clients and their echoes.
fn links(alloc: Global) -> Result<Sequence<LinkPlan>, Memory>
    ensures { IfOk result (λ pairs. pairs ≡ links) }
{
    let mut pairs = Sequence::new(alloc);
    for before in 0..CLIENTS {
        pairs.push(LinkPlan {
            a: 2 * before + 1,
            b: 2 * before + 2,
        })?;
    }
    Ok(pairs)
}
