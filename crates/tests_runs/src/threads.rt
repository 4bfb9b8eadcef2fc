//! Workers run concurrently, and frames are sent in threads of their own.
ghost use Rattle.std.specs.Prelude.{◌≡◌, []};

use crate::gates::MeetingGate;
use crate::runs::{ONE_CALL, plan_of, ran};
use crate::slow::{GateWaits, SlowFabric};
use mem_fabric::{InjectedFailures, MemFabric};
use std::alloc::Global;
use std::process::Abort;
use std::sync::Wait;
use std::sync::atomic::Ordering;
use std::thread::Threads;

// The report of a run of one call.
const ONE_CALL_TOLD: &[u8] =
    b"took 1 1 0 0 2 1 1 copy 089601\nsent 1 1 19\narrived 1 2 0 1 089601\n\
    took 2 1 0 1 2 1 1 copy 089601\nsent 2 1 19\narrived 2 1 0 1 089601\n\
    method 0 2 2 0 0\ntotals 2 2 0 0\n";

// Links in memory, none of which fails.
pub(crate) fn memory<'r, R: Abort + Wait>(rt: &'r R, alloc: Global) -> MemFabric<'r, R>
    ensures { result.back ≡ [] }
{
    let failures = InjectedFailures {
        openings: Vec::new(alloc),
        sends: Vec::new(alloc),
        receives: Vec::new(alloc),
    };
    MemFabric::new(rt, alloc, failures)
}

fn assert_workers_meet<R: Abort + Threads + Wait + Sync>(rt: &R, alloc: Global) {
    let plan = plan_of(rt, alloc, "workers = 2\n", ONE_CALL);
    let gate = MeetingGate::new();
    let told = ran(rt, alloc, plan, memory(rt, alloc), &gate);
    assert!(rt; gate.missed() == 0);
    assert!(rt; gate.has_begun());
    assert!(rt; told.text.as_slice() == ONE_CALL_TOLD);
}

// The first call of the gate for either connection waits for that of the other.
#[test]
fn two_workers_run_beside_each_other(rt: HostRuntime) {
    assert_workers_meet(&rt, rt.alloc());
}

fn assert_worker_continues<R: Abort + Threads + Wait + Sync>(rt: &R, alloc: Global) {
    let plan = plan_of(rt, alloc, "workers = 1\n", ONE_CALL);
    let waits = GateWaits::new();
    let fabric = SlowFabric::new(rt, alloc, memory(rt, alloc), &waits);
    let told = ran(rt, alloc, plan, fabric, &waits.gate);
    assert!(rt; waits.sends.load(Ordering::SeqCst) == 1);
    assert!(rt; waits.missed.load(Ordering::SeqCst) == 0);
    assert!(rt; told.text.as_slice() == ONE_CALL_TOLD);
}

// A send of connection 1 waits until the worker calls the gate again. A worker that sends by itself never
// does.
#[test]
fn a_worker_continues_while_a_frame_is_sent(rt: HostRuntime) {
    assert_worker_continues(&rt, rt.alloc());
}
