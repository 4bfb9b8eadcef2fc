//! The calls of an in-memory device, and the failures injected into them.

ghost use Rattle.std.specs.Prelude.{◌≡◌, ◌≤◌, ◌↔◌, ◌⊎◌, Contains, IfOk, IsFalse, IsPermutation, IsTrue};
ghost use Rattle.mrpc_base.specs.Failures.{raised};
ghost use Rattle.mem_fabric.specs.Fabric.{failing_calls_of};
ghost use Rattle.mem_fabric.specs.Injected.{failures_after};

use std::alloc::{AllocError, Global};
use std::marker::Model;

// The count plus one; it saturates at 2^64 - 1.
pub(crate) fn raise(count: u64) -> u64
    ensures value { result ≡ raised count }
    ensures never_falls { count ≤ raised count }
{
    count.saturating_add(1)
}

pub(crate) struct InjectedCalls {
    // In ascending order, for a binary search.
    failing: Vec<u64>,
    calls: u64,
}

// By hand, so that each drop is one call, and not a drop of every field.
impl Drop for InjectedCalls {
    fn drop(self) {
        let InjectedCalls {
            failing: _failing,
            calls: _,
        } = self;
    }
}

impl Model for InjectedCalls {
    ghost use Rattle.std.specs.List.Sorted.{IsNonDecreasing};
    ghost use Rattle.mem_fabric.specs.Injected.{InjectedCallsState};

    ghost Value = { InjectedCallsState };

    ghost view = { λ c. record { failing = c.failing.items; calls = c.calls } };

    ghost invariant = { λ c. IsNonDecreasing c.failing.items };
}

impl InjectedCalls {
    // No call yet. `failing` has the numbers of the calls that shall fail, counted from 1, in any order.
    pub(crate) fn new(mut failing: Vec<u64>) -> Self
        ensures failing { IsPermutation failing.items result.failing }
        ensures calls { result.calls ≡ 0 }
    {
        failing.sort_unstable();
        InjectedCalls { failing, calls: 0 }
    }

    // Counts a call, and returns whether it shall fail.
    pub(crate) fn next(&mut self) -> bool
        ensures counted { self.new ≡ record self.old { calls = raised self.old.calls } }
        ensures fails { IsTrue result ↔ Contains self.old.failing (raised self.old.calls) }
    {
        self.calls = raise(self.calls);
        self.failing.binary_search(&self.calls).is_ok()
    }
}

// The calls of one end of a pair, and how many of them failed.
pub(crate) struct EndCalls {
    pub sends: InjectedCalls,
    pub receives: InjectedCalls,
    pub failures: u64,
}

// By hand, so that each drop is one call, and not a drop of every field.
impl Drop for EndCalls {
    fn drop(self) {
        let EndCalls {
            sends: _sends,
            receives: _receives,
            failures: _,
        } = self;
    }
}

impl EndCalls {
    // Counts a send, and returns whether it fails: its number is listed, or the sending side was shut down.
    pub(crate) fn send_fails(&mut self, finished: bool) -> bool
        ensures fails { IsTrue result
            ↔ (Contains self.old.sends.failing (raised self.old.sends.calls) ⊎ IsTrue finished) }
        ensures goes_on { IsFalse result → IsFalse finished }
        ensures counted { self.new ≡ record self.old {
          sends = record self.old.sends { calls = raised self.old.sends.calls };
          failures = failures_after result self.old.failures;
        } }
        ensures never_falls { IsTrue result → self.old.failures ≤ raised self.old.failures }
    {
        if self.sends.next() {
            self.failures = raise(self.failures);
            return true;
        }
        if finished {
            self.failures = raise(self.failures);
            return true;
        }
        false
    }

    // Counts a receive, and returns whether it fails: its number is listed.
    pub(crate) fn receive_fails(&mut self) -> bool
        ensures fails { IsTrue result ↔ Contains self.old.receives.failing (raised self.old.receives.calls) }
        ensures counted { self.new ≡ record self.old {
          receives = record self.old.receives { calls = raised self.old.receives.calls };
          failures = failures_after result self.old.failures;
        } }
        ensures never_falls { IsTrue result → self.old.failures ≤ raised self.old.failures }
    {
        if self.receives.next() {
            self.failures = raise(self.failures);
            return true;
        }
        false
    }
}

// The sends and receives that shall fail, by connection and number.
pub(crate) struct InjectedConns {
    pub sends: Vec<(u32, u64)>,
    pub receives: Vec<(u32, u64)>,
}

// By hand, so that each drop is one call, and not a drop of every field.
impl Drop for InjectedConns {
    fn drop(self) {
        let InjectedConns {
            sends: _sends,
            receives: _receives,
        } = self;
    }
}

impl InjectedConns {
    // The calls of a connection, with the failures that are listed for it.
    pub(crate) fn calls_of(&self, alloc: Global, conn: u32) -> Result<EndCalls, AllocError>
        ensures sends { IfOk result (λ calls.
            IsPermutation (failing_calls_of conn self.now.sends.items) calls.sends.failing) }
        ensures receives { IfOk result (λ calls.
            IsPermutation (failing_calls_of conn self.now.receives.items) calls.receives.failing) }
        ensures none { IfOk result (λ calls.
            (calls.sends.calls ≡ 0) × (calls.receives.calls ≡ 0) × (calls.failures ≡ 0)) }
    {
        let sends = InjectedCalls::new(listed_for(alloc, &self.sends, conn)?);
        let receives = InjectedCalls::new(listed_for(alloc, &self.receives, conn)?);
        Ok(EndCalls {
            sends,
            receives,
            failures: 0,
        })
    }
}

// The numbers that are listed for a connection.
fn listed_for(alloc: Global, listed: &[(u32, u64)], conn: u32) -> Result<Vec<u64>, AllocError>
    ensures { IfOk result (λ numbers. numbers.items ≡ failing_calls_of conn listed.now) }
{
    listed
        .iter()
        .filter(|entry| entry.0 == conn)
        .map(|entry| entry.1)
        .collect(alloc)
}
