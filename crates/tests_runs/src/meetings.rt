//! The two ends of a link that a run returned to a fabric in memory: what each received is what the other was
//! handed.
ghost use Rattle.std.specs.Prelude.{◌≡◌, [], IfOk, length};
ghost use Rattle.mem_fabric.specs.Pair.{ArePair, IsDeliveredInOrder};
ghost use Rattle.run_plan.specs.Plans.{IsPlan};
ghost use Rattle.tests_runs.specs.Meeting.{AreTwo};

use crate::discard;
use crate::gates::CountingGate;
use crate::runs::{ONE_CALL, plan_of};
use crate::threads::memory;
use mem_fabric::{MemFabric, PairLink, meet};
use mrpc_base::{Came, FixedClock, Link};
use run_driver::serve_plan;
use run_plan::Plan;
use service::ServeFault;
use std::alloc::Global;
use std::process::Abort;
use std::sync::Wait;
use std::thread::Threads;

// Takes back the two ends of a link, and joins them by `meet`.
fn meet_ends<'r, R: Wait>(fabric: &mut MemFabric<'r, R>) -> (PairLink<'r, R>, PairLink<'r, R>)
    requires { AreTwo ArePair fabric.old.back }
    ensures to_second { IsDeliveredInOrder result.0 result.1 }
    ensures to_first { IsDeliveredInOrder result.1 result.0 }
{
    let (_, mut first) = fabric.take_kept(0);
    let (_, mut second) = fabric.take_kept(0);
    meet(&mut first, &mut second);
    (first, second)
}

// Runs a plan. The two ends that are returned to its fabric are those of one link.
fn run_over<'r, R: Threads + Wait + Sync>(
    rt: &'r R,
    alloc: Global,
    plan: &Plan,
    fabric: &mut MemFabric<'r, R>,
) -> Result<(), ServeFault>
    requires plan { IsPlan plan.now }
    requires none { fabric.old.back ≡ [] }
    ensures { IfOk result (λ _. length fabric.new.back ≡ 2 → AreTwo ArePair fabric.new.back) }
{
    let gate = CountingGate::new();
    let run = serve_plan(rt, alloc, plan, fabric, &FixedClock(0), &gate)?;
    discard(run);
    Ok(())
}

// The ends of the one link of a plan, which met after its run.
fn met<'r, R: Abort + Threads + Wait + Sync>(
    rt: &'r R,
    alloc: Global,
    plan: &Plan,
) -> (PairLink<'r, R>, PairLink<'r, R>)
    requires { IsPlan plan.now }
    ensures to_second { IsDeliveredInOrder result.0 result.1 }
    ensures to_first { IsDeliveredInOrder result.1 result.0 }
{
    let mut fabric = memory(rt, alloc);
    run_over(rt, alloc, plan, &mut fabric)
        .ok()
        .expect(rt, "a run");
    assert!(rt; fabric.links().len() == 2);
    meet_ends(&mut fabric)
}

// An end has nothing left to receive.
fn has_given_all<L: Link>(rt: &impl Abort, end: &mut L) {
    let mut buf = [0; 1];
    assert!(rt; end.receive(&mut buf) == Came::End);
}

fn assert_ends_met<R: Abort + Threads + Wait + Sync>(rt: &R, alloc: Global) {
    let plan = plan_of(rt, alloc, "", ONE_CALL);
    let (mut first, mut second) = met(rt, alloc, &plan);
    discard(plan);
    has_given_all(rt, &mut first);
    has_given_all(rt, &mut second);
    discard(first);
    discard(second);
}

// The contract of `met` proves that the bytes are equal, in order.
#[test]
fn the_ends_of_a_link_meet_after_a_run(rt: HostRuntime) {
    assert_ends_met(&rt, rt.alloc());
}
