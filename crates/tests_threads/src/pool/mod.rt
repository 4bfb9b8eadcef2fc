//! Pools of workers: a flag that is set, turns, and workers with nothing to do.

ghost use Rattle.std.specs.Prelude.{◌≡◌, ◌≤◌};

use polling::{RunFlag, StopFlag};
use std::alloc::Global;
use std::process::Abort;
use std::sync::Wait;
use std::sync::atomic::{AtomicBool, AtomicU64, Ordering};
use std::thread::Threads;
use std::time::Duration;
use worker_pool::{PoolItem, VisitResult, run};

// What an item does.
#[derive(Clone, Copy)]
enum Way {
    // It is finished after this number of visits, and at least one.
    Works(u64),
    // It is never finished, and sets the flag at its third visit.
    Stops,
    // It has nothing to do until another one has slept.
    Waits,
    // It sleeps, at its only visit.
    Sleeps,
}

// What the items of a run share.
struct PoolContext<'r, R> {
    rt: &'r R,
    tickets: AtomicU64,
    slept: AtomicBool,
    stop: RunFlag,
}

impl<'r, R> Drop for PoolContext<'r, R> {
    fn drop(self) {
        let PoolContext {
            rt: _,
            tickets: _,
            slept: _,
            stop: _stop,
        } = self;
    }
}

impl<'r, R: Abort> PoolContext<'r, R> {
    fn new(rt: &'r R, alloc: Global) -> PoolContext<'r, R> {
        PoolContext {
            rt,
            tickets: AtomicU64::new(0),
            slept: AtomicBool::new(false),
            stop: RunFlag::new(alloc).expect(rt, "memory"),
        }
    }
}

// An item that draws a ticket at each visit, and counts the tickets that weren't its turn among seven.
#[derive(Drop)]
struct TestItem<'c, R> {
    common: &'c PoolContext<'c, R>,
    way: Way,
    number: u64,
    visits: u64,
    strays: u64,
}

impl<'c, R> PoolItem for TestItem<'c, R> {
    ghost use Rattle.std.specs.Prelude.{◌≡◌, ⊤};

    ghost since = { λ old new. new.number ≡ old.number };

    ghost over = { λ _. ⊤ };
}

impl<'c, R: Wait> TestItem<'c, R> {
    fn visit(&mut self) -> VisitResult
        ensures { self.new.number ≡ self.old.number }
    {
        let ticket = self.common.tickets.fetch_add(1, Ordering::SeqCst);
        if ticket % 7 != self.number {
            self.strays = self.strays.saturating_add(1);
        }
        self.visits = self.visits.saturating_add(1);
        self.act()
    }

    fn act(&self) -> VisitResult {
        match self.way {
            Way::Works(times) if self.visits < times => VisitResult::Worked,
            Way::Works(_) => VisitResult::Over,
            Way::Stops => {
                if self.visits == 3 {
                    self.common.stop.set();
                }
                VisitResult::Worked
            }
            Way::Waits if self.common.slept.load(Ordering::SeqCst) => VisitResult::Over,
            Way::Waits => VisitResult::Idle,
            Way::Sleeps => {
                self.sleep();
                VisitResult::Over
            }
        }
    }

    fn sleep(&self) {
        let word = AtomicU64::new(0);
        word.park_timeout(self.common.rt, 0, Duration::from_millis(100));
        self.common.slept.store(true, Ordering::SeqCst);
    }
}

// An item of each way, by number.
fn items<'c, R: Abort>(
    alloc: Global,
    common: &'c PoolContext<'c, R>,
    ways: &[Way],
) -> Vec<TestItem<'c, R>> {
    let mut items = Vec::new(alloc);
    let mut number = 0u64;
    for way in ways {
        let item = TestItem {
            common,
            way: *way,
            number,
            visits: 0,
            strays: 0,
        };
        items.push(item).expect(common.rt, "memory");
        number = number.wrapping_add(1);
    }
    items
}

// The results of a run.
#[derive(Clone, Copy)]
struct PoolOutcome {
    stopped: bool,
    // Whether all items were returned in order of their numbers.
    in_order: bool,
    // Whether each item that works was visited exactly as planned.
    planned: bool,
    strays: u64,
    // The greatest number of visits of an item.
    most: u64,
}

impl PoolOutcome {
    fn add<R>(&mut self, place: u64, item: &TestItem<R>) {
        self.in_order &= item.number == place;
        if let Way::Works(times) = item.way {
            self.planned &= item.visits == times;
        }
        self.strays = self.strays.saturating_add(item.strays);
        self.most = self.most.max(item.visits);
    }

    fn of<R>(items: &[TestItem<R>], stopped: bool) -> PoolOutcome {
        let mut found = PoolOutcome {
            stopped,
            in_order: true,
            planned: true,
            strays: 0,
            most: 0,
        };
        let mut place = 0u64;
        for item in items {
            found.add(place, item);
            place = place.wrapping_add(1);
        }
        found
    }
}

// Visits an item of each way by this number of workers, under a flag that is set before or not. All items are
// returned by number.
fn visits_of<R: Abort + Threads + Wait + Sync>(
    rt: &R,
    alloc: Global,
    ways: &[Way],
    workers: usize,
    is_set: bool,
) -> PoolOutcome
    requires { (1 ≤ workers) × (workers ≤ 8) }
{
    let common = PoolContext::new(rt, alloc);
    if is_set {
        common.stop.set();
    }
    let found = visits_with(rt, alloc, &common, ways, workers);
    assert!(rt; found.in_order);
    found
}

fn visits_with<R: Abort + Threads + Wait + Sync>(
    rt: &R,
    alloc: Global,
    common: &PoolContext<R>,
    ways: &[Way],
    workers: usize,
) -> PoolOutcome
    requires { (1 ≤ workers) × (workers ≤ 8) }
{
    let items = items(alloc, common, ways);
    assert!(rt; items.len() <= 16);
    let ran = run(
        rt,
        alloc,
        items,
        workers,
        &common.stop,
        &|item: &mut TestItem<R>| -> VisitResult
            ensures { item.new.number ≡ item.old.number }
        { item.visit() },
    )
    .expect(rt, "memory");
    PoolOutcome::of(&ran.items, ran.stopped)
}

#[test]
fn one_worker_visits_ready_items_in_turn(rt: HostRuntime) {
    let found = visits_of(&rt, rt.alloc(), &[Way::Works(50); 7], 1, false);
    assert!(rt; !found.stopped);
    assert!(rt; found.planned);
    assert!(rt; found.strays == 0);
}

#[test]
fn many_workers_make_all_visits(rt: HostRuntime) {
    let ways = [
        Way::Works(5),
        Way::Works(2000),
        Way::Works(1),
        Way::Works(300),
    ];
    let found = visits_of(&rt, rt.alloc(), &ways, 8, false);
    assert!(rt; !found.stopped);
    assert!(rt; found.planned);
}

#[test]
fn a_flag_that_a_visit_sets_stops_many_workers(rt: HostRuntime) {
    let found = visits_of(&rt, rt.alloc(), &[Way::Stops; 5], 8, false);
    assert!(rt; found.stopped);
    assert!(rt; found.most >= 3);
}

#[test]
fn a_flag_that_is_set_lets_nothing_start(rt: HostRuntime) {
    let found = visits_of(&rt, rt.alloc(), &[Way::Stops; 3], 2, true);
    assert!(rt; found.stopped);
    assert!(rt; found.most == 0);
}

// A worker that doesn't sleep makes a visit each microsecond or faster, some hundred thousand in this time.
const FEW: u64 = 5000;

#[test]
fn a_worker_with_nothing_to_do_rests(rt: HostRuntime) {
    let found = visits_of(&rt, rt.alloc(), &[Way::Waits, Way::Sleeps], 2, false);
    assert!(rt; !found.stopped);
    assert!(rt; found.most <= FEW);
}
