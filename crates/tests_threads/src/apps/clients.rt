//! Clients: one call, and the stop flag in each place where a client waits.

ghost use Rattle.app_program.specs.Programs.{IsClientProgram};
ghost use Rattle.tests_threads.specs.declared.apps.port.TheConstants.{WORDS};

use crate::apps::port::{AppInput, AppOutput, CLOSED, open};
use crate::apps::programs::{RECLAIM, SUBMIT, once, one_call, twice};
use app_program::Program;
use std::alloc::Global;
use std::process::Abort;
use std::sync::Wait;

// What a client receives before it runs.
#[derive(Clone, Copy)]
enum Given {
    Nothing,
    // A notice, but not the number of its block.
    Half,
    // Both rings are closed.
    Closed,
}

fn give<R: Abort + Wait>(rt: &R, mut giving: AppInput, given: Given) {
    match given {
        Given::Nothing => {}
        Given::Half => giving.tell_half(rt),
        Given::Closed => giving.close(rt),
    }
}

#[test]
fn a_client_calls_and_gives_blocks_back(rt: HostRuntime) {
    let program = one_call(&rt, rt.alloc());
    let (app, mut giving, mut taking) = open(&rt, rt.alloc(), 4, false);
    giving.tell(&rt, 5, 1);
    giving.close(&rt);
    assert!(rt; app.client(&rt, &program));
    assert_called(&rt, &mut taking);
}

fn assert_called<R: Abort + Wait>(rt: &R, taking: &mut AppOutput) {
    assert!(rt; taking.call(rt) == 2);
    assert!(rt; taking.word(2) == 150);
    assert!(rt; taking.call(rt) == CLOSED);
    assert!(rt; taking.block(rt) == 7);
    assert!(rt; taking.block(rt) == 5);
    assert!(rt; taking.block(rt) == CLOSED);
}

// The flag is set, and the client has room to send one call and return one block. It ends without what its
// senders leave.
fn assert_stops<R: Abort + Wait>(rt: &R, alloc: Global, program: &Program, given: Given)
    requires { IsClientProgram WORDS program.now }
{
    let (app, giving, _taking) = open(rt, alloc, 1, true);
    give(rt, giving, given);
    assert!(rt; !app.client(rt, program));
}

// There is no room for the second call, or for the closing after the first one.
#[test]
fn a_client_stops_at_a_full_ring_of_calls(rt: HostRuntime) {
    let two = twice(&rt, rt.alloc(), SUBMIT);
    assert_stops(&rt, rt.alloc(), &two, Given::Nothing);
    let one = once(&rt, rt.alloc(), SUBMIT);
    assert_stops(&rt, rt.alloc(), &one, Given::Nothing);
}

// There is no room for the second returned block, or for the closing after the first one.
#[test]
fn a_client_stops_at_a_full_ring_of_blocks(rt: HostRuntime) {
    let two = twice(&rt, rt.alloc(), RECLAIM);
    assert_stops(&rt, rt.alloc(), &two, Given::Nothing);
    let one = once(&rt, rt.alloc(), RECLAIM);
    assert_stops(&rt, rt.alloc(), &one, Given::Closed);
}

// There is no notice, or no number of a block after one.
#[test]
fn a_client_stops_where_nothing_is_delivered(rt: HostRuntime) {
    let program = once(&rt, rt.alloc(), RECLAIM);
    assert_stops(&rt, rt.alloc(), &program, Given::Nothing);
    assert_stops(&rt, rt.alloc(), &program, Given::Half);
}
