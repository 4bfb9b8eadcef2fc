//! Connections whose calls are judged by policies, step by step, with all records of their histories.

use crate::connection::{Scene, Stepped};
use crate::discard;
use crate::given::{FIRST_WITH_7, SECOND_WITH_7, SMALL, table_of};
use crate::kinds::{SceneStep, TestPolicy};
use crate::observed::Observed;
use std::alloc::Global;
use std::process::Abort;

const PAIR: &[u8] =
    b"message M\nfield 1 plain uint64 a\nfield 2 plain uint64 b\nmethod 0 S Get M M\n";

// After these steps the history of a connection has these records, and no more. This text is the table's.
fn assert_steps(
    rt: &impl Abort,
    alloc: Global,
    text: &[u8],
    steps: &[SceneStep],
    expected: &[Observed],
) {
    let table = table_of(rt, alloc, text);
    let mut scene = Scene::open(rt, alloc, &table, 0);
    scene.does(rt, steps, expected);
    discard(scene);
    discard(table);
}

// ---- rates and quotas

#[test]
fn a_held_call_advances_at_the_timestamp_that_pays_for_it(rt: HostRuntime) {
    let steps = [
        SceneStep::Attach(0, b"rl", TestPolicy::Rate(2)),
        SceneStep::Store(2, 7),
        SceneStep::Accept(3),
        SceneStep::Drain,
        SceneStep::Clock(999),
        SceneStep::Drain,
        SceneStep::Hold(3, 999),
        SceneStep::Clock(1000),
        SceneStep::Drain,
    ];
    let expected = [
        Observed::Attached,
        Observed::Took(1),
        Observed::Took(2),
        Observed::Took(3),
        Observed::Charged(1, 0, 1000),
        Observed::Charged(2, 0, 0),
        Observed::Sent(1, 18),
        Observed::Sent(2, 18),
        Observed::Moment(999),
        Observed::Moment(1000),
        Observed::Charged(3, 0, 0),
        Observed::Sent(3, 18),
    ];
    assert_steps(&rt, rt.alloc(), SMALL, &steps, &expected);
}

#[test]
fn a_rate_that_is_attached_again_is_full_and_holds_the_next_call(rt: HostRuntime) {
    let steps = [
        SceneStep::Attach(0, b"rl", TestPolicy::Rate(1)),
        SceneStep::Store(2, 7),
        SceneStep::Accept(3),
        SceneStep::Drain,
        SceneStep::Detach(b"rl"),
        SceneStep::Attach(0, b"rl", TestPolicy::Rate(1)),
        SceneStep::Drain,
        SceneStep::Hold(3, 0),
    ];
    let expected = [
        Observed::Attached,
        Observed::Took(1),
        Observed::Took(2),
        Observed::Took(3),
        Observed::Charged(1, 0, 0),
        Observed::Sent(1, 18),
        Observed::Detached,
        Observed::Attached,
        Observed::Charged(2, 2, 0),
        Observed::Sent(2, 18),
    ];
    assert_steps(&rt, rt.alloc(), SMALL, &steps, &expected);
}

#[test]
fn a_call_whose_ticket_is_the_cap_is_refused(rt: HostRuntime) {
    let steps = [
        SceneStep::Attach(0, b"q", TestPolicy::Quota(1)),
        SceneStep::Store(2, 7),
        SceneStep::Accept(2),
        SceneStep::Drain,
    ];
    let expected = [
        Observed::Attached,
        Observed::Took(1),
        Observed::Took(2),
        Observed::Drawn(1, 0, 0, 0),
        Observed::Drawn(2, 0, 0, 1),
        Observed::Over(2, 0, 1, 1),
        Observed::Sent(1, 18),
    ];
    assert_steps(&rt, rt.alloc(), SMALL, &steps, &expected);
}

// ---- policies that come while calls are pending

const ALL: &[&[u8]] = &[b"default allow"];

const NO_150: &[&[u8]] = &[b"rule no150 deny method 0 where 1 eq 150", b"default allow"];

#[test]
fn an_upgrade_pulls_a_passed_call_back(rt: HostRuntime) {
    let steps = [
        SceneStep::Attach(0, b"acl", TestPolicy::Access(ALL)),
        SceneStep::Attach(1, b"rl", TestPolicy::Rate(2)),
        SceneStep::Store(2, 150),
        SceneStep::Accept(1),
        SceneStep::Store(2, 7),
        SceneStep::Accept(1),
        SceneStep::Turn(0, 2),
        SceneStep::Turn(1, 2),
        SceneStep::Upgrade(b"acl", TestPolicy::Access(NO_150)),
        SceneStep::Drain,
        SceneStep::Hand(SECOND_WITH_7),
    ];
    let expected = [
        Observed::Attached,
        Observed::Attached,
        Observed::Took(1),
        Observed::Took(2),
        Observed::Charged(1, 1, 1000),
        Observed::Charged(2, 1, 0),
        Observed::Upgraded,
        Observed::Denied(1, 2, 2, 0),
        Observed::Sent(2, 18),
    ];
    assert_steps(&rt, rt.alloc(), SMALL, &steps, &expected);
}

const NONE: &[&[u8]] = &[b"default deny"];

#[test]
fn a_counted_call_meets_a_later_attachment(rt: HostRuntime) {
    let steps = [
        SceneStep::Attach(0, b"c", TestPolicy::Count),
        SceneStep::Store(2, 7),
        SceneStep::Accept(1),
        SceneStep::Turn(0, 1),
        SceneStep::Attach(1, b"d", TestPolicy::Access(NONE)),
        SceneStep::Drain,
    ];
    let expected = [
        Observed::Attached,
        Observed::Took(1),
        Observed::Counted(1, 0),
        Observed::Attached,
        Observed::Denied(1, 1, 1, 0),
    ];
    assert_steps(&rt, rt.alloc(), SMALL, &steps, &expected);
}

// ---- redactions

const SECOND: &[&[u8]] = &[b"clear method 0 2"];

// A call with 7 and 9 reaches an access policy with these rules, and one that clears its second field.
fn assert_redacted<'x>(
    rt: &impl Abort,
    alloc: Global,
    rules: &'x [&'x [u8]],
    looked: SceneStep<'x>,
    fate: Observed,
) {
    let steps = [
        SceneStep::Attach(0, b"acl", TestPolicy::Access(rules)),
        SceneStep::Attach(1, b"cut", TestPolicy::Redact(SECOND)),
        SceneStep::Store(2, 7),
        SceneStep::Store(4, 9),
        SceneStep::Accept(1),
        SceneStep::Drain,
        looked,
    ];
    let expected = [
        Observed::Attached,
        Observed::Attached,
        Observed::Took(1),
        Observed::Redacted(1, 1, 1),
        fate,
    ];
    assert_steps(rt, alloc, PAIR, &steps, &expected);
}

const NO_5: &[&[u8]] = &[b"rule big deny method 0 where 2 eq 5", b"default allow"];

#[test]
fn a_redacted_field_is_not_sent(rt: HostRuntime) {
    let looked = SceneStep::Hand(FIRST_WITH_7);
    assert_redacted(&rt, rt.alloc(), NO_5, looked, Observed::Sent(1, 18));
}

const ONLY_9: &[&[u8]] = &[b"rule need allow method 0 where 2 eq 9", b"default deny"];

#[test]
fn a_redacted_call_is_judged_again(rt: HostRuntime) {
    assert_redacted(
        &rt,
        rt.alloc(),
        ONLY_9,
        SceneStep::Drain,
        Observed::Denied(1, 0, 1, 1),
    );
}

// ---- 64 calls, and the clock

fn accept_64(rt: &impl Abort, scene: &mut Scene) {
    for seq in 1..65 {
        scene.does(rt, &[SceneStep::Accept(1)], &[Observed::Took(seq)]);
    }
    scene.does(rt, &[SceneStep::Reject], &[Observed::Away]);
    scene.takes(rt, SceneStep::Drain);
    for seq in 1..65 {
        scene.expects(rt, Observed::Sent(seq, 16));
    }
    scene.does(rt, &[], &[]);
}

#[test]
fn the_65th_call_is_rejected(rt: HostRuntime) {
    let table = table_of(&rt, rt.alloc(), SMALL);
    let mut scene = Scene::open(&rt, rt.alloc(), &table, 0);
    accept_64(&rt, &mut scene);
    discard(scene);
    discard(table);
}

fn attach_twice(rt: &impl Abort, scene: &mut Scene) {
    let steps = [
        SceneStep::Clock(5),
        SceneStep::Attach(0, b"c", TestPolicy::Count),
    ];
    scene.does(rt, &steps, &[Observed::Moment(5), Observed::Attached]);
    assert!(rt; scene.attach(rt, 0, b"c", TestPolicy::Count) == Stepped::Taken);
    scene.does(rt, &[], &[]);
}

#[test]
fn a_timestamp_and_the_first_of_two_attachments_are_recorded(rt: HostRuntime) {
    let table = table_of(&rt, rt.alloc(), SMALL);
    let mut scene = Scene::open(&rt, rt.alloc(), &table, 0);
    attach_twice(&rt, &mut scene);
    discard(scene);
    discard(table);
}
