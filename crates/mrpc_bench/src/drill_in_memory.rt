//! Runs a drill over links in memory, by the clock of the system, and prints the counts of its calls:
//! accepted, sent, refused and pending. `bench/run` times it.
//!
//!     mrpc_bench drill COUNT
//!
//! It measures `run_driver` and the crates below it. It ends with status 1 if there are more calls than a
//! drill may have, or a link fails.

ghost use Rattle.run_plan.specs.Plans.{IsPlan};

use crate::discard;
use crate::given::count_of;
use crate::lines::line_of;
use crate::serve::no_faults;
use drill::{MAX_CALLS, drill_plan};
use mem_fabric::MemFabric;
use mrpc_base::{Fabric, OpenGate};
use mrpc_table::Bytes;
use run_driver::{RunCounts, count_plan};
use run_plan::Plan;
use std::alloc::Global;
use std::sync::Wait;
use std::thread::Threads;
use std::time::Clock;
use system_io::SystemClock;

// Runs a drill in which each client submits this number of calls, and returns a line of its counts.
pub(crate) fn output<R>(rt: &R, alloc: Global, words: &[String]) -> Option<Bytes>
where
    R: Threads + Wait + Sync + Clock,
{
    let calls = u64::from(count_of(words)?);
    if calls > MAX_CALLS {
        return None;
    }
    let plan = drill_plan(alloc, calls).ok()?;
    let told = run_in_memory(rt, alloc, &plan);
    discard(plan);
    told
}

fn run_in_memory<R>(rt: &R, alloc: Global, plan: &Plan) -> Option<Bytes>
where
    R: Threads + Wait + Sync + Clock,
    requires { IsPlan plan.now }
{
    counted(rt, alloc, plan, MemFabric::new(rt, alloc, no_faults(alloc)))
}

// The counts of the run of a plan over links of a fabric; `None` if it runs out of memory or a link failed.
fn counted<R, F>(rt: &R, alloc: Global, plan: &Plan, mut fabric: F) -> Option<Bytes>
where
    R: Threads + Wait + Sync + Clock,
    F: Fabric + Drop,
    requires { IsPlan plan.now }
{
    let clock = SystemClock::new(rt);
    let counted = count_plan(rt, alloc, plan, &mut fabric, &clock, &OpenGate).ok()?;
    line_if_whole(alloc, &counted)
}

fn line_if_whole(alloc: Global, counted: &RunCounts) -> Option<Bytes> {
    if counted.failed {
        return None;
    }
    let (took, sent, refused, standing) = counted.totals.sums();
    line_of(alloc, &[took, sent, refused, standing])
}
