//! Runs over links in memory, which fail as listed.

use crate::devices::{Devices, Failing, words_of};
use mem_fabric::{InjectedFailures, MemFabric};
use mrpc_base::{Fabric, FixedClock, OpenGate};
use mrpc_top::{DONE, FABRIC_FAILED, LINK_FAILED, run_command};
use std::alloc::Global;
use std::process::Abort;
use std::sync::Wait;
use std::thread::Threads;

// A client whose one message is returned by an echo.
const SCENARIO: &[u8] = b"mrpc = 1\nservice = \"S\"\nschema = \"\"\"\nsyntax = \"proto3\";\n\
      message M { uint64 a = 1; }\nservice S { rpc Get (M) returns (M); }\n\"\"\"\n\
      [[app]]\nconn = 1\nrole = \"client\"\nprogram = [\"store 2 150\", \"submit 0 2\"]\n\
      [[app]]\nconn = 2\nrole = \"echo\"\n[[link]]\na = 1\nb = 2\n";

// Like `SCENARIO`, but the client reclaims a block that it doesn't hold.
const FALSE_RECLAIM: &[u8] = b"mrpc = 1\nservice = \"S\"\nschema = \"\"\"\nsyntax = \"proto3\";\n\
      message M { uint64 a = 1; }\nservice S { rpc Get (M) returns (M); }\n\"\"\"\n\
      [[app]]\nconn = 1\nrole = \"client\"\nprogram = [\"store 2 150\", \"submit 0 2\", \"reclaim 9\"]\n\
      [[app]]\nconn = 2\nrole = \"echo\"\n[[link]]\na = 1\nb = 2\n";

const NONE: Failing<'static> = Failing {
    reads: &[],
    lines: &[],
    beside: &[],
};

// The openings that fail, and the sends of connection 1 that fail.
fn listed(rt: &impl Abort, alloc: Global, openings: &[u64], sends: &[u64]) -> InjectedFailures {
    let mut failing_sends = Vec::new(alloc);
    for send in sends {
        failing_sends.push((1, *send)).expect(rt, "memory");
    }
    InjectedFailures {
        openings: openings.to_vec(alloc).expect(rt, "memory"),
        sends: failing_sends,
        receives: Vec::new(alloc),
    }
}

// The status of the run over links of a fabric. The fabric is owned here: what dropping a value does is
// proved in each function that drops one.
fn status_over<R, F>(rt: &R, alloc: Global, devices: &mut Devices, mut fabric: F) -> u8
where
    R: Abort + Threads + Wait + Sync,
    F: Fabric + Drop,
{
    let words = words_of(rt, alloc, "run");
    run_command(
        rt,
        alloc,
        &words,
        &mut devices.input,
        &mut devices.out,
        &mut devices.beside,
        &mut fabric,
        &FixedClock(0),
        &OpenGate,
    )
}

// The devices after the run of a scenario over links in memory that fail as listed, if it ends with this
// status.
fn ran<R: Abort + Threads + Wait + Sync>(
    rt: &R,
    alloc: Global,
    scenario: &[u8],
    failures: InjectedFailures,
    status: u8,
) -> Devices {
    let mut devices = Devices::new(rt, alloc, scenario, NONE);
    let fabric = MemFabric::new(rt, alloc, failures);
    assert!(rt; status_over(rt, alloc, &mut devices, fabric) == status);
    devices
}

#[test]
fn nothing_is_reported_if_a_link_was_not_opened(rt: HostRuntime) {
    let failures = listed(&rt, rt.alloc(), &[1], &[]);
    let devices = ran(&rt, rt.alloc(), SCENARIO, failures, FABRIC_FAILED);
    assert!(rt; devices.out.calls() == 0);
}

// The scenario after a key with the number of workers.
fn with_workers(rt: &impl Abort, alloc: Global, key: &[u8]) -> Vec<u8> {
    let mut text = key.to_vec(alloc).expect(rt, "memory");
    text.extend_from_slice(SCENARIO).expect(rt, "memory");
    text
}

// The send of connection 1 that fails, and the report then.
type Row<'a> = (u64, &'a [u8]);

fn assert_fails<R: Abort + Threads + Wait + Sync>(
    rt: &R,
    alloc: Global,
    scenario: &[u8],
    rows: &[Row],
) {
    for (send, told) in rows {
        let failures = listed(rt, alloc, &[], &[*send]);
        let devices = ran(rt, alloc, scenario, failures, LINK_FAILED);
        assert!(rt; devices.out.written() == *told);
    }
}

// The first send is that of its hello. The second is the frame of its call, which was in the queue before.
#[test]
fn a_link_that_fails_is_reported(rt: HostRuntime) {
    let rows: [Row; 2] = [
        (1, b"unbound 1 transport\nunbound 2 ended\ntotals 0 0 0 0\n"),
        (
            2,
            b"took 1 1 0 0 2 1 1 copy 089601\nsent 1 1 19\nmethod 0 1 1 0 0\ntotals 1 1 0 0\n",
        ),
    ];
    let keys: [&[u8]; 3] = [b"workers = 1\n", b"workers = 2\n", b"workers = 8\n"];
    for key in keys {
        let scenario = with_workers(&rt, rt.alloc(), key);
        assert_fails(&rt, rt.alloc(), scenario.as_slice(), &rows);
    }
}

// The line of the block that isn't held is before the arrival of the reply, or after it.
const BEFORE: &[u8] = b"took 1 1 0 0 2 1 1 copy 089601\nsent 1 1 19\nnotheld 1 9\n\
    arrived 1 2 0 1 089601\ntook 2 1 0 1 2 1 1 copy 089601\nsent 2 1 19\narrived 2 1 0 1 089601\n\
    method 0 2 2 0 0\ntotals 2 2 0 0\n";

const BEHIND: &[u8] = b"took 1 1 0 0 2 1 1 copy 089601\nsent 1 1 19\narrived 1 2 0 1 089601\n\
    notheld 1 9\ntook 2 1 0 1 2 1 1 copy 089601\nsent 2 1 19\narrived 2 1 0 1 089601\n\
    method 0 2 2 0 0\ntotals 2 2 0 0\n";

#[test]
fn a_block_that_is_not_held_is_reported(rt: HostRuntime) {
    let failures = listed(&rt, rt.alloc(), &[], &[]);
    let devices = ran(&rt, rt.alloc(), FALSE_RECLAIM, failures, DONE);
    let told = devices.out.written();
    assert!(rt; told == BEFORE || told == BEHIND);
}
