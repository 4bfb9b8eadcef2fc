//! Runs the scenario of standard input over links in memory, by the clock of the system, and prints what
//! `mrpc run` prints for the same run over TCP. `bench/run` times it.
//!
//!     mrpc_bench serve
//!
//! It measures `run_driver` and the crates below it. It ends with status 1 if the text is no plan, it runs
//! out of memory, or a link fails.

ghost use Rattle.std.specs.Prelude.{IfSome};
ghost use Rattle.run_plan.specs.Plans.{IsPlan};

use crate::discard;
use crate::given::text_of;
use mem_fabric::{InjectedFailures, MemFabric};
use mrpc_base::{Fabric, OpenGate};
use mrpc_table::Bytes;
use run_driver::{RunReport, serve_plan};
use run_plan::Plan;
use scenario_reader::read_scenario;
use std::alloc::Global;
use std::io::Read;
use std::sync::Wait;
use std::thread::Threads;
use std::time::Clock;
use system_io::SystemClock;

// Runs the scenario of an input, and returns the parts of its report.
pub(crate) fn output<R, I: Read>(
    rt: &R,
    alloc: Global,
    words: &[String],
    input: &mut I,
) -> Option<Vec<Bytes>>
where
    R: Threads + Wait + Sync + Clock,
{
    if !words.is_empty() {
        return None;
    }
    let text = text_of(alloc, input)?;
    let plan = plan_of(alloc, text.as_slice())?;
    discard(text);
    let told = run_in_memory(rt, alloc, &plan);
    discard(plan);
    told
}

// The plan of a text; `None` if it has none, or it ran out of memory.
fn plan_of(alloc: Global, text: &[u8]) -> Option<Plan>
    ensures { IfSome result IsPlan }
{
    match read_scenario(alloc, text) {
        Ok(plan) => Some(plan),
        Err(_) => None,
    }
}

fn run_in_memory<R>(rt: &R, alloc: Global, plan: &Plan) -> Option<Vec<Bytes>>
where
    R: Threads + Wait + Sync + Clock,
    requires { IsPlan plan.now }
{
    served(rt, alloc, plan, MemFabric::new(rt, alloc, no_faults(alloc)))
}

// The report of the run of a plan over links of a fabric; `None` if it runs out of memory or a link failed.
fn served<R, F>(rt: &R, alloc: Global, plan: &Plan, mut fabric: F) -> Option<Vec<Bytes>>
where
    R: Threads + Wait + Sync + Clock,
    F: Fabric + Drop,
    requires { IsPlan plan.now }
{
    let clock = SystemClock::new(rt);
    let run = serve_plan(rt, alloc, plan, &mut fabric, &clock, &OpenGate).ok()?;
    report_parts(run)
}

fn report_parts(run: RunReport) -> Option<Vec<Bytes>> {
    let RunReport {
        parts,
        totals: _totals,
        failed,
    } = run;
    if failed { None } else { Some(parts) }
}

// The list under which no call of the fabric and of its links fails.
pub(crate) fn no_faults(alloc: Global) -> InjectedFailures {
    InjectedFailures {
        openings: Vec::new(alloc),
        sends: Vec::new(alloc),
        receives: Vec::new(alloc),
    }
}
