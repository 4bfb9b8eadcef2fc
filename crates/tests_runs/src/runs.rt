//! Scenarios, and runs of them.

ghost use Rattle.run_plan.specs.Plans.{IsPlan};

use crate::discard;
use mrpc_base::{Fabric, FixedClock, Gate};
use mrpc_table::Bytes;
use run_driver::{RunReport, serve_plan};
use run_plan::Plan;
use scenario_reader::read_scenario;
use std::alloc::Global;
use std::process::Abort;
use std::sync::Wait;
use std::thread::Threads;

// The top-level keys, with which each scenario starts.
const TOP: &str = "mrpc = 1\nservice = \"S\"\nschema = \"\"\"\nsyntax = \"proto3\";\n\
    message M { uint64 a = 1; }\nservice S { rpc Get (M) returns (M); }\n\"\"\"\n";

// A client whose one message is returned by an echo.
pub(crate) const ONE_CALL: &str =
    "app = [{conn = 1, role = \"client\", program = [\"store 2 150\", \"submit 0 2\"]},\n\
    {conn = 2, role = \"echo\"}]\nlink = [{a = 1, b = 2}]\n";

// The plan of a text after the top-level keys and another key.
pub(crate) fn plan_of(rt: &impl Abort, alloc: Global, key: &str, rest: &str) -> Plan
    ensures { IsPlan result }
{
    let mut text = Vec::new(alloc);
    for part in [TOP, key, rest] {
        text.extend_from_slice(part.as_bytes()).expect(rt, "memory");
    }
    read_scenario(alloc, text.as_slice())
        .ok()
        .expect(rt, "a plan")
}

// The report of a run, and whether a link failed.
#[derive(Drop)]
pub(crate) struct RunOutput {
    pub text: Bytes,
    pub failed: bool,
}

// The report of a run of a plan, over links of a fabric, with a clock that stays at 0.
pub(crate) fn ran<R: Abort + Threads + Wait + Sync, F: Fabric + Drop, G: Gate>(
    rt: &R,
    alloc: Global,
    plan: Plan,
    fabric: F,
    gate: &G,
) -> RunOutput
    requires { IsPlan plan }
{
    ran_at(rt, alloc, plan, fabric, 0, gate)
}

// Like `ran`, with a clock that stays at a timestamp. Plan and fabric are owned here: what dropping a value
// does is proved in each function that drops one.
pub(crate) fn ran_at<R: Abort + Threads + Wait + Sync, F: Fabric + Drop, G: Gate>(
    rt: &R,
    alloc: Global,
    plan: Plan,
    mut fabric: F,
    moment: u64,
    gate: &G,
) -> RunOutput
    requires { IsPlan plan }
{
    let run = serve_plan(rt, alloc, &plan, &mut fabric, &FixedClock(moment), gate);
    discard(plan);
    output_of_run(rt, alloc, run.ok().expect(rt, "a run"))
}

fn output_of_run(rt: &impl Abort, alloc: Global, run: RunReport) -> RunOutput {
    let text = joined(rt, alloc, run.parts.as_slice());
    let failed = run.failed;
    discard(run);
    RunOutput { text, failed }
}

// The parts of a run's report, joined.
fn joined(rt: &impl Abort, alloc: Global, parts: &[Bytes]) -> Bytes {
    let mut text = Bytes::new(alloc);
    for part in parts {
        text.append(part.as_slice()).expect(rt, "memory");
    }
    text
}
