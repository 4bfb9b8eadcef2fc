//! The timestamps of a run, as its clock returns them.

use crate::gates::CountingGate;
use crate::runs::{ONE_CALL, plan_of, ran_at};
use crate::threads::memory;
use std::alloc::Global;
use std::process::Abort;
use std::sync::Wait;
use std::thread::Threads;

// The report of a run of one call with a clock that stays at 5.
const AT_5: &[u8] = b"moment 1 5\ntook 1 1 0 0 2 1 1 copy 089601\nsent 1 1 19\n\
    arrived 1 2 0 1 089601\nmoment 2 5\ntook 2 1 0 1 2 1 1 copy 089601\nsent 2 1 19\n\
    arrived 2 1 0 1 089601\nmethod 0 2 2 0 0\ntotals 2 2 0 0\n";

fn assert_timestamps<R: Abort + Threads + Wait + Sync>(rt: &R, alloc: Global) {
    let plan = plan_of(rt, alloc, "", ONE_CALL);
    let told = ran_at(rt, alloc, plan, memory(rt, alloc), 5, &CountingGate::new());
    assert!(rt; told.text.as_slice() == AT_5);
}

// Each connection gets its timestamp before its first call, and once.
#[test]
fn a_clock_that_stays_5_is_recorded_once(rt: HostRuntime) {
    assert_timestamps(&rt, rt.alloc());
}
