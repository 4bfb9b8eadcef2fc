//! Quotas whose tickets are drawn from several seats.

ghost use Rattle.std.specs.Prelude.{◌≡◌, ◌≤◌, ◌+◌, length};

use crate::discard;
use mrpc_base::Tickets;
use std::alloc::Global;
use std::process::Abort;
use std::thread::{Threads, join};
use tenant_quota::{Seat, Seats, open};

#[test]
fn a_new_quota_counts_from_zero(rt: HostRuntime) {
    let mut seat = open(rt.alloc(), 2).expect(&rt, "memory");
    assert_counts(&rt, &mut seat);
    discard(seat);
}

fn assert_counts(rt: &impl Abort, seat: &mut Seat)
    requires { seat.old.quota.words ≡ 2 }
{
    assert!(rt; seat.draw(0) == 0);
    assert!(rt; seat.draw(0) == 1);
    assert!(rt; seat.draw(1) == 0);
}

// The seats of a quota take no runtime handle: none of their calls can wait.
fn draw_times(seat: &mut Seat, times: u64)
    requires { seat.old.quota.words ≡ 1 }
    ensures { seat.new.quota ≡ seat.old.quota }
{
    for _ in 0..times {
        seat.draw(0);
    }
}

// Draws from one window in two threads, and joins their seats.
fn race<R: Threads + Sync>(rt: &R, mut one: Seat, mut other: Seat) -> Seat
    requires windows { one.quota.words ≡ 1 }
    requires one_quota { other.quota ≡ one.quota }
    ensures { result.quota ≡ one.quota }
{
    let (mut one, other) = join(
        rt,
        move || -> Seat
            requires { one.quota.words ≡ 1 }
            ensures { result.quota ≡ one.quota }
        {
            draw_times(&mut one, 1000);
            one
        },
        move || -> Seat
            requires { other.quota.words ≡ 1 }
            ensures { result.quota ≡ other.quota }
        {
            draw_times(&mut other, 1000);
            other
        },
    );
    one.join(other);
    one
}

#[test]
fn threads_draw_each_ticket_once(rt: HostRuntime) {
    let mut one = open(rt.alloc(), 1).expect(&rt, "memory");
    let other = one.split().expect(&rt, "memory");
    let mut all = race(&rt, one, other);
    assert_all_drawn(&rt, &mut all);
    discard(all);
}

fn assert_all_drawn(rt: &impl Abort, seat: &mut Seat)
    requires { seat.old.quota.words ≡ 1 }
{
    assert!(rt; seat.draw(0) == 2000);
    seat.cap_is_kept(0, 100);
}

// Adds the seat of a new quota.
fn push_seat(rt: &impl Abort, alloc: Global, seats: &mut Seats)
    ensures { length seats.new ≡ length seats.old + 1 }
{
    let seat = open(alloc, 1024).expect(rt, "memory");
    seats.push(seat).expect(rt, "memory");
}

#[test]
fn each_tenant_has_windows_of_its_own(rt: HostRuntime) {
    let mut seats = Seats::new(rt.alloc());
    push_seat(&rt, rt.alloc(), &mut seats);
    push_seat(&rt, rt.alloc(), &mut seats);
    assert_own_windows(&rt, &mut seats);
}

fn assert_own_windows(rt: &impl Abort, seats: &mut Seats)
    requires { 2 ≤ length seats.old }
{
    assert!(rt; seats.draw(0, 1023) == 0);
    assert!(rt; seats.draw(0, 1023) == 1);
    assert!(rt; seats.draw(1, 1023) == 0);
}
