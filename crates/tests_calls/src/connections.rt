//! Connections whose operations are rejected, that are judged without a send, whose link fails, that end, and
//! that run out of memory.

use crate::connection::{Scene, Stepped};
use crate::discard;
use crate::given::{FIRST_WITH_7, SECOND_WITH_7, SMALL, table_of};
use crate::kinds::TestPolicy;
use conn_core::Drained;
use std::process::Abort;

const NAMES: [&[u8]; 8] = [b"a", b"b", b"c", b"d", b"e", b"f", b"g", b"h"];

// The assertions of each test are in a function that borrows its scene, so that no `assert!` is followed by a
// drop.
fn reject_operations(rt: &impl Abort, scene: &mut Scene) {
    assert!(rt; scene.detach(rt, b"a") == Stepped::NoSuch);
    assert!(rt; scene.upgrade(rt, b"a", TestPolicy::Rate(2)) == Stepped::NoSuch);
    for name in NAMES {
        assert!(rt; scene.attach(rt, 0, name, TestPolicy::Count) == Stepped::Done);
    }
    assert!(rt; scene.attach(rt, 9, b"a", TestPolicy::Count) == Stepped::Taken);
    assert!(rt; scene.attach(rt, 9, b"i", TestPolicy::Count) == Stepped::At(9));
    assert!(rt; scene.attach(rt, 8, b"i", TestPolicy::Count) == Stepped::ChainFull(8));
    assert!(rt; scene.upgrade(rt, b"a", TestPolicy::Rate(2)) == Stepped::OtherKind);
    assert!(rt; scene.records() == 8);
}

#[test]
fn a_rejected_operation_is_no_event(rt: HostRuntime) {
    let table = table_of(&rt, rt.alloc(), SMALL);
    let mut scene = Scene::open(&rt, rt.alloc(), &table, 0);
    reject_operations(&rt, &mut scene);
    discard(scene);
    discard(table);
}

fn judge_before_a_drain(rt: &impl Abort, scene: &mut Scene) {
    assert!(rt; scene.attach(rt, 0, b"c", TestPolicy::Count) == Stepped::Done);
    scene.store(rt, 2, 7);
    scene.accepts(rt);
    scene.judge(rt);
    assert!(rt; scene.records() == 3);
    assert!(rt; scene.frames() == 0);
    // The new count policy counts the call, and the one after it lets the call pass by its mark.
    assert!(rt; scene.attach(rt, 0, b"d", TestPolicy::Count) == Stepped::Done);
    scene.judge(rt);
    assert!(rt; scene.records() == 5);
    assert!(rt; scene.drain(rt) == Drained::Done);
    assert!(rt; scene.records() == 6);
    scene.expects_sent(rt, 5, 1);
    scene.hands(rt, 0, FIRST_WITH_7);
}

#[test]
fn a_connection_is_judged_without_a_send(rt: HostRuntime) {
    let table = table_of(&rt, rt.alloc(), SMALL);
    let mut scene = Scene::open(&rt, rt.alloc(), &table, 0);
    judge_before_a_drain(&rt, &mut scene);
    discard(scene);
    discard(table);
}

fn fail_a_send(rt: &impl Abort, scene: &mut Scene) {
    scene.store(rt, 2, 7);
    scene.accepts(rt);
    scene.accepts(rt);
    scene.accepts(rt);
    assert!(rt; scene.drain(rt) == Drained::Failed);
    scene.has_ended(rt);
    assert!(rt; scene.records() == 6);
    scene.expects_sent(rt, 3, 1);
    scene.expects_lost(rt, 4, 2);
    scene.expects_lost(rt, 5, 3);
    assert!(rt; scene.frames() == 1);
    scene.hands(rt, 0, FIRST_WITH_7);
}

#[test]
fn after_a_failed_send_no_call_is_accepted(rt: HostRuntime) {
    let table = table_of(&rt, rt.alloc(), SMALL);
    let mut scene = Scene::open(&rt, rt.alloc(), &table, 2);
    fail_a_send(&rt, &mut scene);
    discard(scene);
    discard(table);
}

fn fail_while_calls_are_pending(rt: &impl Abort, scene: &mut Scene) {
    assert!(rt; scene.attach(rt, 0, b"c", TestPolicy::Count) == Stepped::Done);
    scene.accepts(rt);
    scene.accepts(rt);
    scene.fail();
    scene.has_ended(rt);
    assert!(rt; scene.detach(rt, b"c") == Stepped::Done);
    assert!(rt; scene.drain(rt) == Drained::Done);
    assert!(rt; scene.records() == 6);
    scene.expects_lost(rt, 3, 1);
    scene.expects_lost(rt, 4, 2);
    assert!(rt; scene.frames() == 0);
}

#[test]
fn a_connection_that_ends_refuses_its_pending_calls(rt: HostRuntime) {
    let table = table_of(&rt, rt.alloc(), SMALL);
    let mut scene = Scene::open(&rt, rt.alloc(), &table, 0);
    fail_while_calls_are_pending(&rt, &mut scene);
    discard(scene);
    discard(table);
}

fn continue_after_running_out_of_memory(rt: &impl Abort, scene: &mut Scene) {
    scene.store(rt, 2, 7);
    scene.accepts(rt);
    scene.runs_out_of_memory(rt);
    assert!(rt; scene.drain_without_memory(rt) == Drained::Memory);
    assert!(rt; scene.records() == 1);
    scene.accepts(rt);
    assert!(rt; scene.drain(rt) == Drained::Done);
    assert!(rt; scene.records() == 4);
    scene.expects_sent(rt, 2, 1);
    scene.expects_sent(rt, 3, 2);
    assert!(rt; scene.frames() == 2);
    scene.hands(rt, 0, FIRST_WITH_7);
    scene.hands(rt, 1, SECOND_WITH_7);
}

#[test]
fn running_out_of_memory_leaves_the_connection_unchanged(rt: HostRuntime) {
    let table = table_of(&rt, rt.alloc(), SMALL);
    let mut scene = Scene::open(&rt, rt.alloc(), &table, 0);
    continue_after_running_out_of_memory(&rt, &mut scene);
    discard(scene);
    discard(table);
}
