//! The wheel of connections: visits by weight, connections that leave, and faults of weights.

use crate::discard;
use mrpc_base::ReadyOrder;
use qos_order::{Account, Ending, Weight, WeightFault, Weighted, Weights, Wheel};
use std::alloc::Global;
use std::process::Abort;

// The weights of these connections.
fn weights_of(rt: &impl Abort, alloc: Global, entries: &[(u32, u64)]) -> Weights {
    let mut weights = Vec::new(alloc);
    for (conn, weight) in entries {
        let entry = Weight {
            conn: *conn,
            weight: *weight,
        };
        weights.push(entry).expect(rt, "memory");
    }
    Weights::from_vec(weights)
}

fn wheel_of(rt: &impl Abort, alloc: Global, entries: &[(u32, u64)]) -> Wheel {
    Wheel::new(alloc, weights_of(rt, alloc, entries)).expect(rt, "a wheel")
}

// Visits the first connection for `given` rounds, at most its grant; a `Given` visit uses the whole grant.
fn visit(wheel: &mut Wheel, given: u64, ending: Ending, leaves: bool) {
    if wheel.first().is_some() {
        let grant = wheel.first_grant();
        let given = match ending {
            Ending::Given => grant,
            Ending::Idle | Ending::Shut => given.min(grant),
        };
        wheel.visit(given, ending, leaves);
    }
}

// Whether the account of a connection has these numbers.
fn is_account(wheel: &Wheel, conn: u32, visits: u64, rounds: u64, kept: u64, dropped: u64) -> bool {
    let want = Account {
        visits,
        rounds,
        kept,
        dropped,
    };
    matches!(wheel.account(conn), Some(account) if *account == want)
}

// If the first connection is shut, its remaining grant counts in its next visit.
fn is_counted(rt: &impl Abort, wheel: &mut Wheel) {
    visit(wheel, 1, Ending::Shut, false);
    visit(wheel, 0, Ending::Idle, false);
    assert!(rt; is_account(wheel, 1, 1, 1, 2, 0));
    assert!(rt; is_account(wheel, 3, 1, 0, 0, 1));
    visit(wheel, 0, Ending::Given, false);
    assert!(rt; is_account(wheel, 1, 2, 6, 0, 0));
    assert!(rt; wheel.account(2).is_none());
}

#[test]
fn a_wheel_counts_its_visits(rt: HostRuntime) {
    let mut wheel = wheel_of(&rt, rt.alloc(), &[(1, 3), (3, 1)]);
    is_counted(&rt, &mut wheel);
    discard(wheel);
}

// The connection that comes first, its grant, the rounds that it uses, and how the visit ends.
type Row = (u32, u64, u64, Ending);

const ROWS: [Row; 5] = [
    (1, 3, 3, Ending::Given),
    (3, 1, 1, Ending::Given),
    (1, 3, 1, Ending::Shut),
    (3, 1, 1, Ending::Given),
    (1, 5, 5, Ending::Given),
];

// Makes the visits of the rows.
fn is_visited(rt: &impl Abort, wheel: &mut Wheel, rows: &[Row]) {
    for (conn, grant, given, ending) in rows {
        assert!(rt; wheel.first() == Some(*conn));
        assert!(rt; wheel.first_grant() == *grant);
        visit(wheel, *given, *ending, false);
    }
}

// The remaining grant of a shut visit is added to the next one, and that of an idle visit is dropped.
fn is_shared(rt: &impl Abort, wheel: &mut Wheel) {
    is_visited(rt, wheel, &ROWS);
    assert!(rt; is_account(wheel, 1, 3, 9, 0, 0));
    assert!(rt; is_account(wheel, 3, 2, 2, 0, 0));
    visit(wheel, 0, Ending::Idle, false);
    assert!(rt; is_account(wheel, 3, 3, 2, 0, 1));
}

#[test]
fn accounts_add_up_over_shut_and_idle_visits(rt: HostRuntime) {
    let mut wheel = wheel_of(&rt, rt.alloc(), &[(1, 3), (3, 1)]);
    is_shared(&rt, &mut wheel);
    discard(wheel);
}

// The second of three connections leaves, then the others.
fn is_left(rt: &impl Abort, wheel: &mut Wheel) {
    visit(wheel, 0, Ending::Given, false);
    visit(wheel, 0, Ending::Idle, true);
    assert!(rt; wheel.first() == Some(9));
    visit(wheel, 0, Ending::Idle, true);
    assert!(rt; wheel.first() == Some(5));
    visit(wheel, 0, Ending::Idle, true);
    assert!(rt; wheel.first().is_none());
    assert!(rt; wheel.first_grant() == 0);
    assert!(rt; is_account(wheel, 2, 1, 0, 0, 2));
}

#[test]
fn connections_leave_a_wheel(rt: HostRuntime) {
    let mut wheel = wheel_of(&rt, rt.alloc(), &[(5, 1), (2, 2), (9, 1)]);
    is_left(&rt, &mut wheel);
    discard(wheel);
}

// The fault of a list of weights.
fn fault_of(rt: &impl Abort, alloc: Global, entries: &[(u32, u64)]) -> WeightFault {
    let fault = Weighted::new(weights_of(rt, alloc, entries)).err();
    fault.expect(rt, "a fault")
}

#[test]
fn the_first_fault_counts(rt: HostRuntime) {
    let range = fault_of(&rt, rt.alloc(), &[(4, 1), (2, 100), (4, 101)]);
    assert!(rt; matches!(range, WeightFault::Range { conn: 4 }));
    let none = fault_of(&rt, rt.alloc(), &[(1, 0)]);
    assert!(rt; matches!(none, WeightFault::Range { conn: 1 }));
    let twice = fault_of(&rt, rt.alloc(), &[(4, 1), (2, 9), (2, 5), (4, 7), (8, 0)]);
    assert!(rt; matches!(twice, WeightFault::Twice { conn: 2 }));
}

fn is_granted(rt: &impl Abort, order: &Weighted) {
    assert!(rt; order.weight(8) == 100);
    assert!(rt; order.weight(2) == 1);
    assert!(rt; order.grant(1, 2) == 5);
    assert!(rt; order.grant(1, 9) == 6);
}

#[test]
fn a_grant_is_the_weight_and_as_much_of_the_kept(rt: HostRuntime) {
    let weights = weights_of(&rt, rt.alloc(), &[(8, 100), (1, 3), (3, 1)]);
    let order = Weighted::new(weights).expect(&rt, "weights");
    is_granted(&rt, &order);
    discard(order);
}
