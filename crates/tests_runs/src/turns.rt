//! The order in which one worker gives connections their rounds.

use crate::discard;
use crate::gates::NotingGate;
use crate::prepared::{PreparedEnd, PreparedFabric};
use crate::runs::{plan_of, ran};
use crate::streams::{hello_of, push_request};
use crate::threads::memory;
use std::alloc::Global;
use std::process::Abort;
use std::sync::Wait;
use std::thread::Threads;

// Two clients, each of which calls an echo once.
const TWO_CALLS: &str =
    "app = [{conn = 1, role = \"client\", program = [\"store 2 150\", \"submit 0 2\"]},\n\
    {conn = 2, role = \"echo\"}, {conn = 4, role = \"echo\"},\n\
    {conn = 3, role = \"client\", program = [\"store 2 7\", \"submit 0 2\"]}]\n\
    link = [{a = 1, b = 2}, {a = 3, b = 4}]\n";

// Whether between two calls for a connection there is one for the other, unless there are no more for that
// one.
fn alternates(conns: &[u32], one: u32, other: u32) -> bool {
    let mut began = false;
    let mut between = 0_u64;
    let mut is_left = false;
    for conn in conns {
        if *conn == one {
            is_left |= began && between != 1;
            began = true;
            between = 0;
        } else if *conn == other {
            if is_left {
                return false;
            }
            between = between.saturating_add(1);
        }
    }
    true
}

// Whether connections 1 to 4 alternate.
fn take_turns(conns: &[u32]) -> bool {
    for one in 1..5 {
        for other in 1..5 {
            if one != other && !alternates(conns, one, other) {
                return false;
            }
        }
    }
    true
}

fn assert_turns<R: Abort + Threads + Wait + Sync>(rt: &R, alloc: Global) {
    let plan = plan_of(rt, alloc, "workers = 1\n", TWO_CALLS);
    let gate = NotingGate::new(rt, alloc);
    let told = ran(rt, alloc, plan, memory(rt, alloc), &gate);
    let conns = gate.into_conns();
    assert!(rt; told.text.as_slice().ends_with(b"totals 4 4 0 0\n"));
    assert!(rt; conns.starts_with(&[1, 2, 3, 4]));
    assert!(rt; take_turns(conns.as_slice()));
}

#[test]
fn one_worker_gives_rounds_in_turn(rt: HostRuntime) {
    assert_turns(&rt, rt.alloc());
}

// A client and an echo of weights 3 and 1.
const WEIGHTED: &str =
    "weighted = true\napp = [{conn = 1, role = \"client\", weight = 3, program = []},\n\
    {conn = 2, role = \"echo\"}]\nlink = [{a = 1, b = 2}]\n";

// A hello, followed by this number of requests.
fn requests(rt: &impl Abort, alloc: Global, hello: &[u8], count: u32) -> PreparedEnd {
    let mut bytes = hello.to_vec(alloc).expect(rt, "memory");
    for number in 0..count {
        push_request(rt, alloc, &mut bytes, number + 1, b"\x08\x07");
    }
    PreparedEnd::giving(alloc, bytes)
}

fn assert_weights<R: Abort + Threads + Wait + Sync>(rt: &R, alloc: Global) {
    let plan = plan_of(rt, alloc, "workers = 1\n", WEIGHTED);
    let hello = hello_of(rt, alloc, &plan, 2);
    let first = requests(rt, alloc, hello.as_slice(), 9);
    let second = requests(rt, alloc, hello.as_slice(), 3);
    let fabric = PreparedFabric::new(rt, alloc, first, second);
    let gate = NotingGate::new(rt, alloc);
    discard(ran(rt, alloc, plan, fabric, &gate));
    assert!(rt;
        gate.into_conns()
            .starts_with(&[1, 1, 1, 2, 1, 1, 1, 2, 1, 1, 1, 2])
    );
}

// The requests after the hello keep both busy for this long: each round handles one frame.
#[test]
fn rounds_go_by_weight_while_both_are_ready(rt: HostRuntime) {
    assert_weights(&rt, rt.alloc());
}
