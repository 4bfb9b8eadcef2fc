//! Gates that block inside a call, and note their calls.

use mrpc_base::Gate;
use std::alloc::Global;
use std::process::Abort;
use std::sync::atomic::{AtomicBool, AtomicU64, Ordering};
use std::sync::{Mutex, Wait};
use std::thread;

// The most turns that a call waits for an event.
const TURNS: u64 = 10_000_000;

// The number of turns that a call lasts for which others are to wait.
const LONG: u64 = 100_000;

// The most consecutive calls for one connection.
const MAX_IN_A_ROW: u64 = 10_000_000;

// Whether a count rises above a value within this many turns, each of which yields the processor.
pub(crate) fn rises_above(count: &AtomicU64, before: u64) -> bool {
    for _ in 0..TURNS {
        if count.load(Ordering::SeqCst) > before {
            return true;
        }
        thread::yield_now();
    }
    false
}

// A gate whose first calls for connections 1 and 2 each block until the other one has started.
#[derive(Drop)]
pub(crate) struct MeetingGate {
    first: AtomicU64,
    second: AtomicU64,
    missed: AtomicU64,
}

impl MeetingGate {
    pub(crate) fn new() -> MeetingGate {
        MeetingGate {
            first: AtomicU64::new(0),
            second: AtomicU64::new(0),
            missed: AtomicU64::new(0),
        }
    }

    // The number of calls that ran out of turns.
    pub(crate) fn missed(&self) -> u64 {
        self.missed.load(Ordering::SeqCst)
    }

    // Whether both first calls started.
    pub(crate) fn has_begun(&self) -> bool {
        self.first.load(Ordering::SeqCst) > 0 && self.second.load(Ordering::SeqCst) > 0
    }

    fn meet(&self, own: &AtomicU64, other: &AtomicU64) {
        if own.fetch_add(1, Ordering::SeqCst) == 0 && !rises_above(other, 0) {
            self.missed.fetch_add(1, Ordering::SeqCst);
        }
    }
}

impl Gate for MeetingGate {
    fn open(&self, conn: u32) -> bool {
        match conn {
            1 => self.meet(&self.first, &self.second),
            2 => self.meet(&self.second, &self.first),
            _ => {}
        }
        true
    }
}

// A gate that is always open, and counts its calls.
#[derive(Drop)]
pub(crate) struct CountingGate {
    pub calls: AtomicU64,
}

impl CountingGate {
    pub(crate) fn new() -> CountingGate {
        CountingGate {
            calls: AtomicU64::new(0),
        }
    }
}

impl Gate for CountingGate {
    fn open(&self, _conn: u32) -> bool {
        self.calls.fetch_add(1, Ordering::SeqCst);
        true
    }
}

// The calls of a gate, by connection.
#[derive(Drop)]
struct GateCalls {
    conns: Vec<u32>,
    in_a_row: u64,
}

impl GateCalls {
    // Notes a call, which mustn't be the last one of a row.
    fn note(&mut self, rt: &impl Abort, conn: u32) {
        if self.conns.last() == Some(&conn) {
            self.in_a_row = self.in_a_row.saturating_add(1);
        } else {
            self.in_a_row = 1;
        }
        assert!(rt; self.in_a_row < MAX_IN_A_ROW);
        self.conns.push(conn).expect(rt, "memory");
    }
}

// A gate that notes each call, and no other call may start during one. Its first call for connection 1 lasts
// long.
#[derive(Drop)]
pub(crate) struct NotingGate<'r, R> {
    rt: &'r R,
    calls: Mutex<GateCalls>,
    firsts: AtomicU64,
    inside: AtomicBool,
}

impl<'r, R: Abort + Wait> NotingGate<'r, R> {
    pub(crate) fn new(rt: &'r R, alloc: Global) -> NotingGate<'r, R> {
        NotingGate {
            rt,
            calls: Mutex::new(GateCalls {
                conns: Vec::new(alloc),
                in_a_row: 0,
            }),
            firsts: AtomicU64::new(0),
            inside: AtomicBool::new(false),
        }
    }

    // The connections that it was called for, in order.
    pub(crate) fn into_conns(self) -> Vec<u32> {
        let NotingGate {
            rt: _,
            calls,
            firsts: _,
            inside: _,
        } = self;
        let GateCalls { conns, in_a_row: _ } = calls.into_inner();
        conns
    }

    // Lasts long, if it is the first call for connection 1.
    fn last(&self, conn: u32) {
        if conn == 1 && self.firsts.fetch_add(1, Ordering::SeqCst) == 0 {
            for _ in 0..LONG {
                thread::yield_now();
            }
        }
    }
}

impl<'r, R: Abort + Wait + Sync> Gate for NotingGate<'r, R> {
    fn open(&self, conn: u32) -> bool {
        assert!(self.rt; !self.inside.swap(true, Ordering::SeqCst));
        self.calls.lock(self.rt).note(self.rt, conn);
        self.last(conn);
        self.inside.store(false, Ordering::SeqCst);
        true
    }
}
